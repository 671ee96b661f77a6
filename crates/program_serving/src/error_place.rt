//! Where it is told why a line is turned away that has no answer.
ghost use Rattle.std.specs.Prelude.{◌≡◌, ◌∷◌, [], List, None, Option};
ghost use Rattle.auction_text.specs.ReadFault.{ReadFault as Read};
ghost use Rattle.program_serving.specs.ErrorFaults.{AddsTold, turned_faults};

use crate::fault_lines::{Turned, TurnedLine};
use auction_text::ReadFault;
use program_opening::{Fault, Options, write_fault};
use std::io::Write;

/// Where it is told why a line is turned away that has no answer.
pub trait ErrorPlace {
    /// The faults of lines that were told here, if they are known.
    ghost told: { Self → Option (List Read) };

    /// Tells the fault of a line. That it can't be told changes nothing.
    fn tell_fault(&mut self, fault: ReadFault)
        ensures { AddsTold (told self.old) (told self.new) (fault ∷ []) };

    /// Tells that a worker has as many rows as this limit. That it can't be told changes nothing.
    fn tell_limit(&mut self, limit: u64)
        ensures { AddsTold (told self.old) (told self.new) [] };
}

/// A writer where faults are told, each as a line.
#[derive(Drop)]
pub struct ErrorWriter<W> {
    writer: W,
}

impl<W: Write> ErrorWriter<W> {
    /// Where faults are told by this writer.
    pub fn of(writer: W) -> ErrorWriter<W>
        ensures { result.writer ≡ writer }
    {
        ErrorWriter { writer }
    }
}

impl<W: Write> ErrorPlace for ErrorWriter<W> {
    ghost told = { λ _. None };

    fn tell_fault(&mut self, fault: ReadFault) {
        // A fault that can't be told changes nothing.
        let _ = write_fault(&mut self.writer, &Fault::Read(fault));
    }

    fn tell_limit(&mut self, limit: u64) {
        // A fault that can't be told changes nothing.
        let _ = write_fault(&mut self.writer, &Fault::Limit(limit));
    }
}

/// Tells why a line is turned away, if it has no answer.
pub(crate) fn tell_error<E: ErrorPlace>(errors: &mut E, options: &Options, line: TurnedLine)
    ensures { AddsTold (E.told errors.old) (E.told errors.new) (turned_faults options.now line) }
{
    if line.worker.is_some() && !options.rows && !options.history {
        return;
    }
    match line.turned {
        Turned::Line(fault) => errors.tell_fault(fault),
        Turned::Past(limit) => errors.tell_limit(limit),
    }
}
