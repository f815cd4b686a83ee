// Calls of the system, and the count of those that failed.
ghost use Rattle.std.specs.Prelude.{◌≡◌, ◌<◌, ◌≤◌, length, IfOk, IfSome, IsErr, IsNone, MatchResult, Ok};
ghost use Rattle.std.specs.Io.{ReadsAtMost};
ghost use Rattle.std.specs.Io.KnownBytes.{ReadConsumes, WriteAppends};
ghost use Rattle.dk_outside.specs.Causes.{HasCause, Rose};

use dk_outside::Failed;
use std::io;
use std::io::{Read, Write};

/// Counts one fault more, up to the last value of a count.
pub fn fault(count: &mut u64) -> Failed
    ensures rose { Rose count.old count.new }
    ensures later { count.old ≤ count.new }
{
    *count = count.saturating_add(1);
    Failed
}

/// The answer of a call of the system, which is counted where it failed.
pub fn counted<T: Drop>(answer: io::Result<T>, count: &mut u64) -> Result<T, Failed>
    ensures same { MatchResult result (λ value. answer ≡ Ok value) (λ _. IsErr answer) }
    ensures cause { HasCause count.old count.new result }
{
    match answer {
        Ok(value) => Ok(value),
        Err(_) => Err(fault(count)),
    }
}

/// Reads once, where there is something to read from.
pub fn read_from<R: Read>(
    source: &mut Option<R>,
    buf: &mut [u8],
    count: &mut u64,
) -> Result<usize, Failed>
    ensures absent { IsNone source.old → IsErr result }
    ensures bound { ReadsAtMost result buf.new }
    ensures bytes { IfSome source.old (λ old. IfSome source.new (λ new. ReadConsumes (R.remaining old) (R.remaining new) result buf.new)) }
    ensures cause { HasCause count.old count.new result }
{
    let Some(source) = source else {
        return Err(fault(count));
    };
    match source.read(buf) {
        Ok(taken) => Ok(taken),
        Err(_) => Err(fault(count)),
    }
}

/// Writes a piece that isn't empty once, where there is something to write to. No byte taken is a fault.
pub fn write_to<W: Write>(
    sink: &mut Option<W>,
    piece: &[u8],
    count: &mut u64,
) -> Result<usize, Failed>
    requires { 0 < length piece.now }
    ensures absent { IsNone sink.old → IsErr result }
    ensures bound { IfOk result (λ n. n ≤ length piece.now) }
    ensures some { IfOk result (λ n. 0 < n) }
    ensures bytes { IfSome sink.old (λ old. IfSome sink.new (λ new. WriteAppends (W.contents old) (W.contents new) result piece.now)) }
    ensures cause { HasCause count.old count.new result }
{
    let Some(sink) = sink else {
        return Err(fault(count));
    };
    match sink.write(piece) {
        Ok(0) => Err(fault(count)),
        Ok(taken) => Ok(taken),
        Err(_) => Err(fault(count)),
    }
}
