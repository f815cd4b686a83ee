// Writes that are synced, and a record that is added by two of them.
ghost use Rattle.std.specs.Prelude.{◌≡◌, ◌≤◌, ◌<◌, ◌+◌, ◌^◌, ◌++◌, [], ◌∷◌, length, take, IfSome, Some, is_ok};
ghost use Rattle.dk_outside.specs.Causes.{HasCause};
ghost use Rattle.dk_journal.specs.Rests.{Leads, Puts};

use dk_outside::{Disk, Failed};

/// Writes a piece at a place, and syncs.
pub fn rewrite<K: Disk>(disk: &mut K, at: u64, piece: &[u8]) -> Result<(), Failed>
    requires { IfSome (K.told disk.old) (λ course. at ≤ length course.now.bytes) }
    ensures leads { Leads (K.told disk.old) (K.told disk.new) at piece.now (is_ok result) }
    ensures cause { HasCause (K.faults disk.old) (K.faults disk.new) result }
{
    match disk.write_at(at, piece) {
        Ok(()) => disk.sync(),
        Err(failed) => Err(failed),
    }
}

/// Writes a record and the new end gate behind the end gate of a file, and then opens that one. The gate stands closed
/// on the disk until all that is behind it is synced.
pub fn put<K: Disk>(disk: &mut K, end: u64, piece: &[u8]) -> Result<(), Failed>
    requires room { end + 1 < 2 ^ 64 }
    requires at { IfSome (K.told disk.old) (λ course. end + 1 ≤ length course.now.bytes) }
    ensures puts { Puts (K.told disk.old) (K.told disk.new) end piece.now (is_ok result) }
    ensures cause { HasCause (K.faults disk.old) (K.faults disk.new) result }
{
    match rewrite(disk, end + 1, piece) {
        Ok(()) => rewrite(disk, end, &[1]),
        Err(failed) => Err(failed),
    }
}

/// Puts the first bytes of a buffer, of which it has more, as a record.
pub fn put_front<K: Disk>(
    disk: &mut K,
    end: u64,
    buffer: &mut [u8],
    size: usize,
) -> Result<(), Failed>
    requires size { size < length buffer.old }
    requires room { end + 1 < 2 ^ 64 }
    requires at { IfSome (K.told disk.old) (λ course. end + 1 ≤ length course.now.bytes) }
    ensures puts { Puts (K.told disk.old) (K.told disk.new) end (take size buffer.old ++ 0 ∷ []) (is_ok result) }
    ensures cause { HasCause (K.faults disk.old) (K.faults disk.new) result }
{
    buffer[size] = 0;
    put(disk, end, &buffer[..size + 1])
}
