//! What tests of the auction hand in and are answered: ten users, two categories, and vases.
#![tactic(auto)]

mod lists;
mod replies;
mod requests;
mod rows;

pub use lists::{both, only, ten_of};
pub use replies::{
    NO_ITEM, NO_USER, UNRATED, bid_stored, bought, comment_stored, item_seen, print_view,
};
pub use requests::{
    FIRST, LOOK, OPENING, VIEW, VIEW_OF_BIDS, bid, comment, purchase, put_up, vases,
};
pub use rows::{bid_row, item_row, opened};
