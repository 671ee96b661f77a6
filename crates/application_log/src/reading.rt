//! How a log is read: line by line, each as the request whose line it is.
ghost use Rattle.std.specs.Prelude.{◌≡◌, ◌↔◌, ◌++◌, ◌∷◌, List, ℕ, IsTrue, true, false, Some, IfErr, IfOk, IfSome};
ghost use Rattle.std.specs.declared.io.Error.{Error as IoError};
ghost use Rattle.application_log.specs.Lines.{HasNoEnd, IsTail};

use crate::loggable::Loggable;
use crate::opening::OpenFault;
use std::alloc::AllocError;
use std::io::BufRead;

/// Reads the next line, without its end. If no line ends any more, it reads what is left, and gives
/// false.
pub(crate) fn read_whole_line<R: BufRead>(
    reader: &mut R,
    line: &mut Vec<u8>,
) -> Result<bool, OpenFault>
    ensures whole { IfOk result (λ is_whole. is_whole ≡ true → HasNoEnd line.new.items) }
    ensures read { IfOk result (λ is_whole. is_whole ≡ true → (all : List ℕ) →
        R.remaining reader.old ≡ Some all → (rest : List ℕ)
        × (R.remaining reader.new ≡ Some rest) × (all ≡ line.new.items ++ 10 ∷ rest)) }
    ensures cut { IfOk result (λ is_whole. is_whole ≡ false →
        IfSome (R.remaining reader.old) (λ all. HasNoEnd all × (line.new.items ≡ all))) }
    ensures fault { IfErr result (λ fault. (why : IoError) × (fault ≡ OpenFault.Read why)) }
{
    line.clear();
    if let Err(why) = reader.read_until(b'\n', line) {
        return Err(OpenFault::Read(why));
    }
    let Some(last) = line.pop() else {
        return Ok(false);
    };
    if last == b'\n' {
        return Ok(true);
    }
    // It is no line's end, and stays.
    line.push_reserved(last);
    Ok(false)
}

/// Whether bytes behind the last line are nothing, or the beginning of a line.
pub(crate) fn is_tail<A: Loggable>(bytes: &[u8]) -> bool
    ensures { IsTrue result ↔ IsTail A.is_cut bytes.now }
{
    bytes.is_empty() || A::is_cut_line(bytes)
}

/// The request whose line this is, if there is one.
pub(crate) fn request_of<A: Loggable>(
    line: &[u8],
    written: &mut Vec<u8>,
) -> Result<Option<A::Request>, AllocError>
    ensures line { IfOk result (λ found. IfSome found (λ q. A.line q ≡ Some line.now)) }
    ensures in_range { IfOk result (λ found. IfSome found A.is_in_range) }
    ensures only { IfOk result (λ found. (q : A.Request) → A.is_in_range q →
        A.line q ≡ Some line.now → found ≡ Some q) }
{
    let Some(request) = A::read_line(line) else {
        return Ok(None);
    };
    written.clear();
    let is_logged = A::write_line(&request, written)?;
    if !is_logged {
        return Ok(None);
    }
    if written.as_slice() != line {
        return Ok(None);
    }
    Ok(Some(request))
}
