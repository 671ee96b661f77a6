//! Windows on a running auction. A publisher is handed the rows of one phase after the other, and
//! windows in other threads show what an auction of one thread answers once it has them: always of
//! whole phases, and never of fewer than before. It is the left-right technique (Ramalhete and
//! Correia, 2015): of two copies of the auction, windows read one while the publisher changes the
//! other.
#![tactic(auto)]

mod auction_copy;
mod board;
mod phases;
mod publisher;
mod window;

pub use board::WindowBoard;
pub use phase_boards::rows_of;
pub use phases::{PhaseLog, WindowName};
pub use published_parts::{MakeFault, NoGuard};
pub use publisher::Publisher;
pub use window::{Seen, Told, Window};
