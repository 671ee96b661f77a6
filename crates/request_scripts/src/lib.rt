//! Requests in 32 bytes each, and scripts of them: the requests of a worker, in their order.
#![tactic(auto)]

mod kept;
mod script;
mod shared;
mod short_request;
mod side_index;

pub use kept::{KeptRequests, emptied};
pub use script::{BidRequest, Script};
pub use shared::{OwnScript, SharedScripts};
pub use short_request::{ShortRequest, keep_request};
pub use side_index::{SideIndex, keep_one};
