//! Writing a file of the system so that no failure leaves part of it.

use std::alloc::{AllocError, Global};
use std::fs::{Metadata, OpenFile, OpenOptions};
use std::io::{ErrorKind, Write};
use std::rt::Files;
use std::{fs, io};

// Makes the bytes the content of the file. Want of memory comes only where nothing was changed.
pub(crate) fn write_file<R: Files + AllocGlobal>(
    files: &R,
    name: &str,
    bytes: &[u8],
) -> io::Result<()> {
    match fs::symlink_metadata(files, name) {
        Ok(old) if old.is_file() => replace(files, name, &old, bytes),
        Ok(_) => write_in_place(files, name, bytes),
        Err(error) if error.kind() == ErrorKind::NotFound => {
            let new = write_beside(files, name, bytes)?;
            put_in_place(files, new.as_str(), name)
        }
        Err(error) => Err(error),
    }
}

// Writes to what the name stands for now.
fn write_in_place<R: Files>(files: &R, name: &str, bytes: &[u8]) -> io::Result<()> {
    let mut file = fs::create(files, name)?;
    file.write_all(bytes)
        .map_err(|_| io::Error::from(ErrorKind::WriteZero))
}

// Puts a new file of these bytes in the place of a plain file, if that one may be written; it keeps its permissions.
fn replace<R: Files + AllocGlobal>(
    files: &R,
    name: &str,
    old: &Metadata,
    bytes: &[u8],
) -> io::Result<()> {
    OpenOptions::new().write(true).open(files, name)?;
    let new = write_beside(files, name, bytes)?;
    match fs::set_permissions(files, new.as_str(), old.permissions()) {
        Ok(()) => put_in_place(files, new.as_str(), name),
        Err(error) => discard(files, new.as_str(), error),
    }
}

// Gives the new file its name.
fn put_in_place<R: Files>(files: &R, new: &str, name: &str) -> io::Result<()> {
    match fs::rename(files, new, name) {
        Ok(()) => Ok(()),
        Err(error) => discard(files, new, error),
    }
}

// Removes the new file, and tells why.
fn discard<R: Files, T>(files: &R, new: &str, error: io::Error) -> io::Result<T> {
    let _ = fs::remove_file(files, new);
    Err(error)
}

// Writes the bytes to a file of a new name in the same folder, and hands that name over once the device has them all.
// Ten names are tried, since some may be taken by programs that write there too.
fn write_beside<R: Files + AllocGlobal>(files: &R, name: &str, bytes: &[u8]) -> io::Result<String> {
    for digit in b'0'..=b'9' {
        let new = name_beside(files.alloc(), name, digit)?;
        match OpenOptions::new()
            .write(true)
            .create_new(true)
            .open(files, new.as_str())
        {
            Err(error) if error.kind() == ErrorKind::AlreadyExists => {}
            Err(error) => return Err(error),
            Ok(file) => {
                return match fill(file, bytes) {
                    Ok(()) => Ok(new),
                    Err(error) => discard(files, new.as_str(), error),
                };
            }
        }
    }
    Err(io::Error::from(ErrorKind::AlreadyExists))
}

// Writes the bytes and waits until the device has them.
fn fill<F: Write + OpenFile + Drop>(mut file: F, bytes: &[u8]) -> io::Result<()> {
    file.write_all(bytes)?;
    file.sync_all()
}

// A name in the folder of a file: `.wcet-` and a digit.
fn name_beside(alloc: Global, name: &str, digit: u8) -> Result<String, AllocError> {
    let mut beside = String::new(alloc);
    if let Some((folder, _)) = name.rsplit_once('/') {
        beside.push_str(folder)?;
        beside.push('/')?;
    }
    beside.push_str(".wcet-")?;
    beside.push(digit as char)?;
    Ok(beside)
}
