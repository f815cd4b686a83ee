// All bytes of a file, read once.
ghost use Rattle.std.specs.Prelude.{◌≡◌, ◌≤◌, ◌+◌, ◌^◌, length, take, IfOk, IfSome, IsErrOf};
ghost use Rattle.dk_outside.specs.Causes.{Rose, HasCause};
ghost use Rattle.dk_journal.specs.Fetches.{HasFetched};

use dk_outside::{Disk, Failed};
use std::alloc::Global;

/// Why a file wasn't read.
#[derive(Clone, Copy)]
pub(crate) enum FetchFault {
    /// The disk failed.
    Disk,
    /// There was no memory for the bytes.
    NoMemory,
}

/// Reads what stands behind the first bytes of a file, which were read, and answers how many bytes were read more.
fn read_more<K: Disk>(disk: &mut K, bytes: &mut [u8], count: usize) -> Result<usize, Failed>
    requires within { count ≤ length bytes.old }
    ensures told { K.told disk.new ≡ K.told disk.old }
    ensures bound { IfOk result (λ more. count + more ≤ length bytes.new) }
    ensures more { IfOk result (λ more. IfSome (K.told disk.old) (λ course.
        length bytes.old ≡ length course.now.bytes → HasFetched course.now.bytes bytes.old count → (count + more ≡ length bytes.new) × (bytes.new ≡ course.now.bytes))) }
    ensures cause { HasCause (K.faults disk.old) (K.faults disk.new) result }
{
    disk.read_at(count as u64, &mut bytes[count..])
}

/// Reads the bytes of a file up to the end of a buffer, or up to the first read that gives none, and answers how many
/// were read. Each read may give fewer bytes than there are.
fn read_all<K: Disk>(disk: &mut K, bytes: &mut [u8]) -> Result<usize, Failed>
    requires { IfSome (K.told disk.old) (λ course. length bytes.old ≡ length course.now.bytes) }
    ensures told { K.told disk.new ≡ K.told disk.old }
    ensures bound { IfOk result (λ count. count ≤ length bytes.new) }
    ensures all { IfOk result (λ count. IfSome (K.told disk.old) (λ course. take count bytes.new ≡ course.now.bytes)) }
    ensures cause { HasCause (K.faults disk.old) (K.faults disk.new) result }
{
    let mut count = 0;
    'reads: while count < bytes.len() {
        let Ok(more) = read_more(disk, bytes, count) else {
            return Err(Failed);
        };
        if more == 0 {
            return Ok(count);
        }
        count += more;
    }
    Ok(count)
}

/// The bytes of a file of this length, read once. Of a file that turns out to be shorter, which no disk is that tells
/// what it holds, those that are there.
pub(crate) fn fetch<K: Disk>(
    alloc: Global,
    disk: &mut K,
    size: usize,
) -> Result<Vec<u8>, FetchFault>
    requires few { size ≤ 2 ^ 28 }
    requires all { IfSome (K.told disk.old) (λ course. size ≡ length course.now.bytes) }
    ensures told { K.told disk.new ≡ K.told disk.old }
    ensures bound { IfOk result (λ bytes. length bytes.items ≤ size) }
    ensures bytes { IfOk result (λ bytes. IfSome (K.told disk.old) (λ course. bytes.items ≡ course.now.bytes)) }
    ensures disk { IsErrOf result FetchFault.Disk → Rose (K.faults disk.old) (K.faults disk.new) }
    ensures later { K.faults disk.old ≤ K.faults disk.new }
{
    let Ok(mut bytes) = vec![in alloc; 0u8; size] else {
        return Err(FetchFault::NoMemory);
    };
    let Ok(count) = read_all(disk, &mut bytes) else {
        return Err(FetchFault::Disk);
    };
    bytes.truncate(count);
    Ok(bytes)
}
