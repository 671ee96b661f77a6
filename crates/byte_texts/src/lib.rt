//! Texts of bytes, whatever they say: put together in blocks or in memory, and written whole; and a
//! reader that is read to its end.
#![tactic(auto)]

mod block;
mod numeral;
mod text;
mod until_end;
mod writing;

pub use block::Block;
pub use numeral::Numeral;
pub use text::{push_labelled, push_labelled_id, push_number, push_signed, push_text};
pub use until_end::UntilEnd;
pub use writing::{WriteFault, flush, write_last, write_part};
