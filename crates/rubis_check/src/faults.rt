//! Why the program finds nothing, its exit statuses and its words.
ghost use Rattle.std.specs.{Io.KnownBytes.{Appends}, Prelude.{◌≡◌, IfErr, IfSome, OnOk}};
ghost use Rattle.byte_texts.specs.declared.writing.WriteFault.{WriteFault};
ghost use Rattle.rubis_check.specs.Faults.{status, parser_words};

use auction_text::ReadFault;
use byte_texts::WriteFault;
use history_check::CheckFault;
use item_shards::ResumeFault;
use program_options::UsageFault;
use std::io;
use std::io::Write;
use thiserror::Error;

/// Why the program found nothing, by the part that failed.
#[derive(Debug, Drop, Error)]
pub enum Fault {
    /// The options were refused.
    #[error("{0}")]
    Usage(UsageFault),
    /// The scripts could not be read.
    #[error("{0}")]
    Read(ReadFault),
    /// The rows could not be opened.
    #[error("{0}")]
    Resume(ResumeFault),
    /// The history could not be checked.
    #[error("{0}")]
    Check(CheckFault),
    /// The history in the file of this name could not be read.
    #[error("{0}: cannot be read: {1}")]
    History(String, io::Error),
    /// What was found could not be written.
    #[error("{0}")]
    Write(WriteFault),
}

impl From<ReadFault> for Fault {
    ghost use Rattle.rubis_check.specs.declared.faults.Fault.TheVariants.{Read};

    ghost from_gives = { λ cause fault. fault ≡ Read cause };

    fn from(cause: ReadFault) -> Fault {
        Fault::Read(cause)
    }
}

impl From<ResumeFault> for Fault {
    ghost use Rattle.rubis_check.specs.declared.faults.Fault.TheVariants.{Resume};

    ghost from_gives = { λ cause fault. fault ≡ Resume cause };

    fn from(cause: ResumeFault) -> Fault {
        Fault::Resume(cause)
    }
}

impl From<CheckFault> for Fault {
    ghost use Rattle.rubis_check.specs.declared.faults.Fault.TheVariants.{Check};

    ghost from_gives = { λ cause fault. fault ≡ Check cause };

    fn from(cause: CheckFault) -> Fault {
        Fault::Check(cause)
    }
}

impl From<WriteFault> for Fault {
    ghost use Rattle.rubis_check.specs.declared.faults.Fault.TheVariants.{Write};

    ghost from_gives = { λ cause fault. fault ≡ Write cause };

    fn from(cause: WriteFault) -> Fault {
        Fault::Write(cause)
    }
}

/// The exit status of a fault: 1 for options, 2 for reading, 3 for opening and checking, 4 for
/// writing.
pub fn status(fault: &Fault) -> u8
    ensures { result ≡ status fault.now }
{
    match fault {
        Fault::Usage(_) => 1,
        Fault::Read(_) | Fault::Check(CheckFault::Read(_)) | Fault::History(_, _) => 2,
        Fault::Resume(_) | Fault::Check(_) => 3,
        Fault::Write(_) => 4,
    }
}

/// Writes the line of a fault. The words of the parser of options stand as they are, without the
/// program's name. It takes no memory, so `Write` is the only fault.
pub fn write_fault<W: Write>(writer: &mut W, fault: &Fault) -> Result<(), WriteFault>
    ensures words { OnOk result (IfSome (parser_words fault.now)
        (Appends (W.contents writer.old) (W.contents writer.new))) }
    ensures fault { IfErr result (λ refused. refused ≡ WriteFault.Write) }
{
    let written = match fault {
        Fault::Usage(UsageFault::Text(text)) => writer.write_all(text.as_bytes()),
        _ => writeln!(writer, "rubis_check: {fault}"),
    };
    written.map_err(|_| WriteFault::Write)
}
