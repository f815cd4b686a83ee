// Files in memory.
ghost use Rattle.std.specs.Prelude.{◌≡◌, ◌≢◌, ◌≤◌, ◌<◌, ℕ, List, length, vec_len, vec_capacity, option_map, Some, None, OnOk, OnErr};
ghost use Rattle.dk_memory.specs.Files.{look, left_of, left_over, IsWithin, AreSet};

use crate::child::Left;
use dk_outside::{Bytes, Text};
use std::alloc::{AllocError, Global};

/// A file: its name and its bytes.
#[derive(Drop)]
pub struct File {
    pub name: Text,
    pub bytes: Bytes,
}

/// The bytes of the first file of this name.
pub fn find<'a>(files: &'a [File], name: &str) -> Option<&'a [u8]>
    ensures { option_map (λ bytes. bytes.now) result ≡ look files.now name.now }
{
    files
        .iter()
        .find(|file| file.name.as_str() == name)
        .map(|file| file.bytes.items())
}

/// Removes the files of this name.
pub fn remove(files: &mut Vec<File>, name: &str)
    ensures set { AreSet files.old.items files.new.items name.now None }
    ensures len { vec_len files.new ≤ vec_len files.old }
    ensures capacity { vec_capacity files.new ≡ vec_capacity files.old }
{
    let mut place = 0;
    'places: while place < files.len() {
        if files[place].name.as_str() == name {
            files.remove(place);
        } else {
            place += 1;
        }
    }
}

/// Puts a file, for which there is room, in the place of those of its name.
fn place(files: &mut Vec<File>, file: File)
    requires { vec_len files.old < vec_capacity files.old }
    ensures { AreSet files.old.items files.new.items file.name (Some file.bytes) }
{
    remove(files, file.name.as_str());
    let _ = files.push(file);
}

/// Puts a file in the place of those of its name. For want of memory all stays.
pub fn put(alloc: Global, files: &mut Vec<File>, name: &str, bytes: &[u8]) -> Result<(), AllocError>
    ensures set { OnOk result (AreSet files.old.items files.new.items name.now (Some bytes.now)) }
    ensures stays { OnErr result (files.new.items ≡ files.old.items) }
{
    let file = File {
        name: Text::of(alloc, name)?,
        bytes: Bytes::of(alloc, bytes)?,
    };
    files.reserve(1)?;
    place(files, file);
    Ok(())
}

/// Puts what a child left in the place of its results file, and leaves that as it stood where the child left nothing.
/// For want of memory all stays.
pub fn put_left(
    alloc: Global,
    files: &mut Vec<File>,
    name: &str,
    left: Left,
    buffer: &[u8],
) -> Result<(), AllocError>
    requires { IsWithin left (length buffer.now) }
    ensures set { OnOk result (AreSet files.old.items files.new.items name.now (left_over (left_of left buffer.now) (look files.old.items name.now))) }
    ensures stays { OnErr result (files.new.items ≡ files.old.items) }
{
    match left {
        Left::Nothing => Ok(()),
        Left::Bytes(count) => put(alloc, files, name, &buffer[..count]),
    }
}
