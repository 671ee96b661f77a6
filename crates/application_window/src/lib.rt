//! Windows on an application of your own. A publisher is handed one part of a history after the
//! other, such as that of a run, and windows in other threads show the table after the parts that
//! are published: always of whole parts, and never of fewer than before. It is the left-right
//! technique (Ramalhete and Correia, 2015): of two copies of the table, windows read one while the
//! publisher changes the other.
#![tactic(auto)]

mod parts;
mod publisher;
mod table_copy;
mod window;

pub use parts::{PartLog, WindowName};
pub use published_parts::{MakeFault, NoGuard};
pub use publisher::{OpeningTable, PublishFault, Publisher};
pub use window::{Seen, Told, Window};
