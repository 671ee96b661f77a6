//! Why the program fails, its exit statuses and its words.
use auction_rows::MOST_OF_A_WORKER;
use byte_texts::WriteFault;
use program_options::UsageFault;
use std::io;
use std::io::Write;
use thiserror::Error;

/// Why no load was written, or only a part of one.
#[derive(Debug, Drop, Error)]
pub enum Fault {
    /// The words are refused, or ask for help, or no memory was left while they were read.
    #[error("{0}")]
    Usage(UsageFault),
    /// The shares of views, comments, purchases and new items are more than 100 percent together.
    #[error("shares of more than 100 percent")]
    Shares,
    /// A worker would have more rows and requests than the auction takes.
    #[error("more than {} rows and requests for a worker", MOST_OF_A_WORKER)]
    TooLong,
    /// No memory was left for the law of popularity. Nothing was written.
    #[error("no memory")]
    Memory,
    /// The load could not be written, or no memory was left for its next block: what was written is
    /// its beginning.
    #[error("{0}")]
    Output(WriteFault),
}

/// The exit status of a fault: 1 for options, 3 for memory before the load, 4 for a part of it.
pub fn status(fault: &Fault) -> u8 {
    match fault {
        Fault::Usage(_) | Fault::Shares | Fault::TooLong => 1,
        Fault::Memory => 3,
        Fault::Output(_) => 4,
    }
}

/// Writes the line of a fault. The words of the parser of options stand as they are, without the
/// program's name.
pub fn write_fault<W: Write>(writer: &mut W, fault: &Fault) -> io::Result<()> {
    match fault {
        Fault::Usage(UsageFault::Text(text)) => writer.write_all(text.as_bytes()),
        _ => writeln!(writer, "rubis_load: {fault}"),
    }
}
