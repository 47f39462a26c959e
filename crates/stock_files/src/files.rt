//! The files of stores: locks, cuts and replacements.

use framed_store::streams::ReadError;
use std::alloc::Global;
use std::fs::{File, Metadata, OpenOptions, TryLockError};
use std::io::{Read, Seek, SeekFrom, Write};
use std::os::unix::fs::MetadataExt;
use std::path::PathBuf;
use std::{fs, io};
use thiserror::Error;

/// Why a file is not read or changed.
#[derive(Debug, Drop, Error)]
pub enum FileError {
    /// It is a folder, a pipe or a device.
    #[error("this is no regular file")]
    NotRegular,
    /// Another program changes it.
    #[error("another program has it locked")]
    Locked,
    /// Another program has put a new file in its place.
    #[error("it was replaced while it was opened or read")]
    Replaced,
    /// An access failed.
    #[error("{0}")]
    Access(#[from] io::Error),
    /// Its frames could not be read.
    #[error("{0}")]
    Read(#[from] ReadError),
}

/// Files that stand where the standard input, output or error is closed. A file that is opened takes the lowest number
/// that is free, so one that is opened later would get theirs, and what is printed would be written into it. Keep them
/// until the program ends. None is held where there is no `/dev/null`.
pub fn hold_standard_streams(rt: &HostRuntime) -> [Option<File>; 3] {
    [open_nothing(rt), open_nothing(rt), open_nothing(rt)]
}

/// A file without bytes, which takes none.
fn open_nothing(rt: &HostRuntime) -> Option<File> {
    fs::open(rt, "/dev/null").ok()
}

/// Opens a regular file to read it. What stands at the path is looked at first, since a pipe would be waited for.
pub fn open_to_read(rt: &HostRuntime, path: &str) -> Result<File, FileError> {
    refuse_irregular(&fs::metadata(rt, path)?)?;
    let file = fs::open(rt, path)?;
    refuse_irregular(&file.metadata()?)?;
    Ok(file)
}

/// Opens a regular file to read it and to append to it, with a lock that keeps others from changing it until it is
/// closed. It is made where there is none, if `creates` says so; then its name is on the disk on return, also where an
/// earlier run that was stopped had made it.
pub fn open_to_change(rt: &HostRuntime, path: &str, creates: bool) -> Result<File, FileError> {
    refuse_other(rt, path)?;
    let file = OpenOptions::new()
        .read(true)
        .append(true)
        .create(creates)
        .open(rt, path)?;
    claim(rt, path, &file)?;
    if creates && file.metadata()?.len() == 0 {
        sync_folder(rt, fs::canonicalize(rt, path)?.as_str())?;
    }
    Ok(file)
}

/// Fails where what is at this path is no regular file.
fn refuse_other(rt: &HostRuntime, path: &str) -> Result<(), FileError> {
    match fs::metadata(rt, path) {
        Ok(found) => refuse_irregular(&found),
        Err(_) => Ok(()),
    }
}

/// Takes the lock of a file that was opened at this path. Fails where it is not a regular one, or no longer there.
fn claim(rt: &HostRuntime, path: &str, file: &File) -> Result<(), FileError> {
    refuse_irregular(&file.metadata()?)?;
    lock(file)?;
    refuse_replaced(rt, path, file)
}

/// Takes the lock of a file, which is held until the file is closed.
fn lock(file: &File) -> Result<(), FileError> {
    match file.try_lock() {
        Ok(()) => Ok(()),
        Err(TryLockError::WouldBlock) => Err(FileError::Locked),
        Err(TryLockError::Error(e)) => Err(FileError::Access(e)),
    }
}

/// Fails where this is no regular file's.
fn refuse_irregular(found: &Metadata) -> Result<(), FileError> {
    if found.is_file() {
        Ok(())
    } else {
        Err(FileError::NotRegular)
    }
}

/// Fails where another file than this stands at the path, as after a rename before the lock was taken.
pub fn refuse_replaced(rt: &HostRuntime, path: &str, file: &File) -> Result<(), FileError> {
    let ours = file.metadata()?;
    let theirs = fs::metadata(rt, path)?;
    if (ours.dev(), ours.ino()) == (theirs.dev(), theirs.ino()) {
        Ok(())
    } else {
        Err(FileError::Replaced)
    }
}

/// Brings the names in the folder of this file to the disk.
fn sync_folder(rt: &HostRuntime, path: &str) -> io::Result<()> {
    fs::open(rt, folder_of(path))?.sync_all()
}

/// The folder that a path names a file in.
fn folder_of(path: &str) -> &str {
    match path.rsplit_once('/') {
        Some(("", _)) => "/",
        Some((folder, _)) => folder,
        None => ".",
    }
}

/// The bytes of a file from an offset to its end.
pub fn bytes_from(alloc: Global, file: &mut File, offset: usize) -> Result<Vec<u8>, FileError> {
    let mut bytes = Vec::new(alloc);
    file.seek(SeekFrom::Start(offset as u64))?;
    file.read_to_end(&mut bytes)?;
    Ok(bytes)
}

/// Cuts a file off after this number of bytes. What is left is on the disk on return.
pub fn cut(file: &File, length: usize) -> Result<(), FileError> {
    file.set_len(length as u64)?;
    Ok(file.sync_all()?)
}

/// The path of the file beside the one at this path, by a word after it.
fn path_beside(alloc: Global, path: &str, word: &str) -> io::Result<String> {
    Ok(format!(in alloc; "{path}.{word}")?)
}

/// Makes an empty file at this path, with the permissions of another one, in the place of what a run that was killed
/// left there. Where it fails, nothing is left there.
fn create_like(rt: &HostRuntime, path: &str, other: &File) -> io::Result<File> {
    let _ = fs::remove_file(rt, path);
    let file = OpenOptions::new()
        .read(true)
        .write(true)
        .create_new(true)
        .open(rt, path)?;
    match allow_like(&file, other) {
        Ok(()) => Ok(file),
        Err(error) => {
            let _ = fs::remove_file(rt, path);
            Err(error)
        }
    }
}

/// Gives a file the permissions of another one.
fn allow_like(file: &File, other: &File) -> io::Result<()> {
    file.set_permissions(other.metadata()?.permissions())
}

/// Puts a file of these bytes at a path, in the place of the one that is there, with the permissions of another file.
/// It is written beside the path, at `PATH.new`, and renamed: whoever opens the path finds the old bytes or the new
/// ones. They are on the disk on return. Whatever file stood at `PATH.new` is gone, and where it fails, none is left.
pub fn put(rt: &HostRuntime, path: &str, bytes: &[u8], other: &File) -> Result<(), FileError> {
    let beside = path_beside(rt.alloc(), path, "new")?;
    let file = create_like(rt, beside.as_str(), other)?;
    match fill_and_move(rt, &file, bytes, beside.as_str(), path) {
        Ok(()) => Ok(()),
        Err(error) => {
            let _ = fs::remove_file(rt, beside.as_str());
            Err(FileError::Access(error))
        }
    }
}

/// Writes bytes to the file at one path, and moves it to another.
fn fill_and_move(
    rt: &HostRuntime,
    mut file: &File,
    bytes: &[u8],
    from: &str,
    to: &str,
) -> io::Result<()> {
    file.write_all(bytes)?;
    move_synced(rt, file, from, to)
}

/// Moves the file at one path to another, in the place of the one that is there, once its bytes are on the disk. Its
/// name is there on return, too.
fn move_synced(rt: &HostRuntime, file: &File, from: &str, to: &str) -> io::Result<()> {
    file.sync_all()?;
    fs::rename(rt, from, to)?;
    sync_folder(rt, to)
}

/// A new file beside another one, in whose place it is put.
#[derive(Drop)]
pub struct Replacement {
    /// The new file, at `PATH.repaired`.
    pub file: File,
    beside: String,
    path: PathBuf<Global>,
}

impl Replacement {
    /// Makes an empty one beside a file at this path, with its permissions, in the place of what a run that was killed
    /// left there: whatever file stands at `PATH.repaired` is removed.
    pub fn new(rt: &HostRuntime, path: &str, old: &File) -> Result<Replacement, FileError> {
        let path = fs::canonicalize(rt, path)?;
        let beside = path_beside(rt.alloc(), path.as_str(), "repaired")?;
        let file = create_like(rt, beside.as_str(), old)?;
        Ok(Replacement { file, beside, path })
    }

    /// Puts it in the place of the other, once its bytes are on the disk. Where it fails, it may be removed.
    pub fn take_place(&self, rt: &HostRuntime) -> Result<(), FileError> {
        Ok(move_synced(rt, &self.file, self.beside.as_str(), self.path.as_str())?)
    }

    /// Removes it, unless it has taken the other's place.
    pub fn remove(&self, rt: &HostRuntime) {
        let _ = fs::remove_file(rt, self.beside.as_str());
    }
}
