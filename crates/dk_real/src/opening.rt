// How the restart file is opened.
use dk_outside::Mode;
use std::alloc::{AllocError, Global};
use std::fs::{File, Metadata, OpenOptions};
use std::io::ErrorKind;
use std::os::unix::fs::MetadataExt;
use std::rt::Files;
use std::{fs, io};

/// Opens a restart file that is no other run's, nor the study's own file, and makes sure that its name stands after a crash.
pub fn open<R: Files<File = File> + AllocGlobal>(
    rt: &R,
    path: &str,
    mode: Mode,
    study: &str,
) -> io::Result<File> {
    if path == study {
        return Err(ErrorKind::InvalidInput.into());
    }
    let file = match mode {
        Mode::Fresh => begin(rt, path, study)?,
        Mode::Resume => existing(rt, path, study)?,
    };
    File::open(rt, folder(path))?.sync_all()?;
    Ok(file)
}

/// An empty file at the path. One that isn't empty is locked until its name is another and the new one is made.
fn begin<R: Files<File = File> + AllocGlobal>(rt: &R, path: &str, study: &str) -> io::Result<File> {
    let older = match existing(rt, path, study) {
        Ok(older) => older,
        Err(error) if error.kind() == ErrorKind::NotFound => return create(rt, path, study),
        Err(error) => return Err(error),
    };
    if older.metadata()?.len() == 0 {
        return Ok(older);
    }
    fs::rename(rt, path, free_name(rt, path)?.as_str())?;
    create(rt, path, study)
}

/// The file that stands at the path, once it is locked.
fn existing<R: Files<File = File>>(files: &R, path: &str, study: &str) -> io::Result<File> {
    let file = OpenOptions::new().read(true).write(true).open(files, path)?;
    lock(files, path, study, &file)?;
    Ok(file)
}

/// A file that is made where nothing stands at the path, once it is locked.
fn create<R: Files<File = File>>(files: &R, path: &str, study: &str) -> io::Result<File> {
    let file = File::create_new(files, path)?;
    lock(files, path, study, &file)?;
    Ok(file)
}

/// Locks a plain file that isn't the study's. It stands at the path also once it is locked, so that no other run
/// renamed it in between.
fn lock<R: Files>(files: &R, path: &str, study: &str, file: &File) -> io::Result<()> {
    let found = file.metadata()?;
    if !found.is_file() || is_at(files, study, &found) {
        return Err(ErrorKind::InvalidInput.into());
    }
    file.try_lock()?;
    if is_at(files, path, &found) {
        Ok(())
    } else {
        Err(ErrorKind::WouldBlock.into())
    }
}

/// Whether a path leads to this file, by its device and number: also by links.
pub fn is_at<R: Files>(files: &R, path: &str, file: &Metadata) -> bool {
    match fs::metadata(files, path) {
        Ok(found) => found.dev() == file.dev() && found.ino() == file.ino(),
        Err(_) => false,
    }
}

/// Whether both paths are one, or lead to one file.
pub fn is_same_file<R: Files>(files: &R, one: &str, other: &str) -> bool {
    if one == other {
        return true;
    }
    match fs::metadata(files, one) {
        Ok(found) => is_at(files, other, &found),
        Err(_) => false,
    }
}

/// Whether a path leads to one of the older restart files, up to the first of their names at which nothing stands; also
/// where memory for a name is wanting.
pub fn is_older_file<R: Files + AllocGlobal>(rt: &R, restart: &str, path: &str) -> bool {
    for number in 1..u64::MAX {
        let Ok(name) = older_name(rt.alloc(), restart, number) else {
            return true;
        };
        match fs::metadata(rt, name.as_str()) {
            Ok(found) if is_at(rt, path, &found) => return true,
            Ok(_) => {}
            Err(_) => return false,
        }
    }
    false
}

/// The first of the older names at which nothing stands.
fn free_name<R: Files + AllocGlobal>(rt: &R, path: &str) -> io::Result<String> {
    for number in 1..u64::MAX {
        let name = older_name(rt.alloc(), path, number)?;
        match fs::symlink_metadata(rt, name.as_str()) {
            Ok(_) => {}
            Err(error) if error.kind() == ErrorKind::NotFound => return Ok(name),
            Err(error) => return Err(error),
        }
    }
    Err(ErrorKind::AlreadyExists.into())
}

/// The name with `.old` behind it, then with `.old2`, `.old3` and so on.
fn older_name(alloc: Global, path: &str, number: u64) -> Result<String, AllocError> {
    if number == 1 {
        format!(in alloc; "{path}.old")
    } else {
        format!(in alloc; "{path}.old{number}")
    }
}

/// The folder in which a path's name stands.
fn folder(path: &str) -> &str {
    match path.rsplit_once('/') {
        Some((folder, _)) if folder.is_empty() => "/",
        Some((folder, _)) => folder,
        None => ".",
    }
}
