//! Why the program fails, its exit statuses and its words.
ghost use Rattle.std.specs.{Io.KnownBytes.{Appends}, Prelude.{◌≡◌, IfErr, IfSome, OnOk}};
ghost use Rattle.byte_texts.specs.declared.writing.WriteFault.{WriteFault};
ghost use Rattle.program_opening.specs.Faults.{status, parser_words};

use auction_text::ReadFault;
use auction_window::MakeFault;
use byte_texts::WriteFault;
use item_shards::ResumeFault;
use log_file::LogFileFault;
use log_opening::OpenFault;
use part_log::{LogFault, TellFault};
use phase_floor::AddFault;
use program_options::UsageFault;
use run_phases::RunFault;
use std::io::Write;
use thiserror::Error;

/// Why the program failed, by the part that failed.
#[derive(Debug, Drop, Error)]
pub enum Fault {
    /// The options were refused.
    #[error("{0}")]
    Usage(UsageFault),
    /// The input could not be read.
    #[error("{0}")]
    Read(ReadFault),
    /// The auction could not be opened with the rows.
    #[error("{0}")]
    Resume(ResumeFault),
    /// The row of the input with this number, from 1, could not be added.
    #[error("row {0}: {1}")]
    Row(u64, AddFault),
    /// No window could be made to report through.
    #[error("{0}")]
    Make(MakeFault),
    /// The scripts could not be performed.
    #[error("{0}")]
    Run(RunFault),
    /// A worker had more rows and requests than this, the auction's limit.
    #[error("more than {0} requests for a worker")]
    Limit(u64),
    /// A text could not be written.
    #[error("{0}")]
    Write(WriteFault),
    /// A report was asked for of requests that are answered while more come.
    #[error("no report with --live or --log")]
    Report,
    /// The log could not be opened, or took no more rows.
    #[error("{0}")]
    OpenLog(LogFileFault<OpenFault>),
    /// Rows could not be logged.
    #[error("log {0}")]
    Log(LogFault),
}

impl From<ReadFault> for Fault {
    ghost use Rattle.program_opening.specs.declared.faults.Fault.TheVariants.{Read};

    ghost from_gives = { λ cause fault. fault ≡ Read cause };

    fn from(cause: ReadFault) -> Fault {
        Fault::Read(cause)
    }
}

impl From<ResumeFault> for Fault {
    ghost use Rattle.program_opening.specs.declared.faults.Fault.TheVariants.{Resume};

    ghost from_gives = { λ cause fault. fault ≡ Resume cause };

    fn from(cause: ResumeFault) -> Fault {
        Fault::Resume(cause)
    }
}

impl From<MakeFault> for Fault {
    ghost use Rattle.program_opening.specs.declared.faults.Fault.TheVariants.{Make};

    ghost from_gives = { λ cause fault. fault ≡ Make cause };

    fn from(cause: MakeFault) -> Fault {
        Fault::Make(cause)
    }
}

impl From<RunFault> for Fault {
    ghost use Rattle.program_opening.specs.declared.faults.Fault.TheVariants.{Run};

    ghost from_gives = { λ cause fault. fault ≡ Run cause };

    fn from(cause: RunFault) -> Fault {
        Fault::Run(cause)
    }
}

impl From<WriteFault> for Fault {
    ghost use Rattle.program_opening.specs.declared.faults.Fault.TheVariants.{Write};

    ghost from_gives = { λ cause fault. fault ≡ Write cause };

    fn from(cause: WriteFault) -> Fault {
        Fault::Write(cause)
    }
}

impl From<LogFileFault<OpenFault>> for Fault {
    ghost use Rattle.program_opening.specs.declared.faults.Fault.TheVariants.{OpenLog};

    ghost from_gives = { λ cause fault. fault ≡ OpenLog cause };

    fn from(cause: LogFileFault<OpenFault>) -> Fault {
        Fault::OpenLog(cause)
    }
}

impl From<TellFault> for Fault {
    ghost use Rattle.program_opening.specs.Faults.{of_telling};

    ghost from_gives = { λ cause fault. fault ≡ of_telling cause };

    fn from(cause: TellFault) -> Fault {
        match cause {
            TellFault::Log(fault) => Fault::Log(fault),
            TellFault::Write(fault) => Fault::Write(fault),
        }
    }
}

/// The exit status of a fault: 1 for options, 2 for reading, 3 for opening and performing, 4 for
/// writing, 5 for the log.
pub fn status(fault: &Fault) -> u8
    ensures { result ≡ status fault.now }
{
    match fault {
        Fault::Usage(_) | Fault::Report => 1,
        Fault::Read(_) => 2,
        Fault::Resume(_) | Fault::Row(_, _) | Fault::Make(_) => 3,
        Fault::Run(_) | Fault::Limit(_) => 3,
        Fault::Write(_) => 4,
        Fault::OpenLog(_) | Fault::Log(_) => 5,
    }
}

/// Writes the line of a fault. The words of the parser of options stand as they are, without the
/// program's name. Nothing is written of a log that is standard error, which would have the line. It
/// takes no memory, so `Write` is the only fault.
pub fn write_fault<W: Write>(writer: &mut W, fault: &Fault) -> Result<(), WriteFault>
    ensures words { OnOk result (IfSome (parser_words fault.now)
        (Appends (W.contents writer.old) (W.contents writer.new))) }
    ensures fault { IfErr result (λ refused. refused ≡ WriteFault.Write) }
{
    let written = match fault {
        Fault::Usage(UsageFault::Text(text)) => writer.write_all(text.as_bytes()),
        Fault::OpenLog(fault) if fault.is_of_errors() => Ok(()),
        _ => writeln!(writer, "rubis_auction: {fault}"),
    };
    written.map_err(|_| WriteFault::Write)
}
