// The header of a file that was unborn.
ghost use Rattle.std.specs.Prelude.{◌≤◌, length, IfSome, is_ok};
ghost use Rattle.dk_outside.specs.Causes.{HasCause};
ghost use Rattle.dk_journal.specs.Births.{ShutsTold, BearsTold, BeginsTold, IsUnbornAtRest};

use crate::steps::rewrite;
use dk_outside::{Disk, Failed};

/// A file of at most so many bytes was never begun, whatever they are.
const SHORT: u64 = 1;

/// Closes the first gate of a file of at most one byte.
fn shut<K: Disk>(disk: &mut K) -> Result<(), Failed>
    ensures shuts { ShutsTold (K.told disk.old) (K.told disk.new) (is_ok result) }
    ensures cause { HasCause (K.faults disk.old) (K.faults disk.new) result }
{
    rewrite(disk, 0, &[0])
}

/// Writes the header and an end gate behind the first gate, which is closed, and then opens that one.
fn bear<K: Disk>(disk: &mut K, header: &[u8]) -> Result<(), Failed>
    requires { IfSome (K.told disk.old) (λ course. 1 ≤ length course.now.bytes) }
    ensures bears { BearsTold (K.told disk.old) (K.told disk.new) header.now (is_ok result) }
    ensures cause { HasCause (K.faults disk.old) (K.faults disk.new) result }
{
    match rewrite(disk, 1, header) {
        Ok(()) => rewrite(disk, 0, &[1]),
        Err(failed) => Err(failed),
    }
}

/// Begins a file of so many bytes in which no entry was ever kept, with this header and an end gate. The first gate of a
/// file of at most one byte is closed first; that of a longer one is.
pub(crate) fn begin<K: Disk>(disk: &mut K, size: u64, header: &[u8]) -> Result<(), Failed>
    requires { IfSome (K.told disk.old) (λ course. IsUnbornAtRest course size) }
    ensures begins { BeginsTold (K.told disk.old) (K.told disk.new) size header.now (is_ok result) }
    ensures cause { HasCause (K.faults disk.old) (K.faults disk.new) result }
{
    if size > SHORT {
        return bear(disk, header);
    }
    match shut(disk) {
        Ok(()) => bear(disk, header),
        Err(failed) => Err(failed),
    }
}
