ghost use Rattle.std.specs.Prelude.{◌≡◌, None};

use crate::store::{LONGEST_FILE, Store, StoreFault};
use crate::whole_file::write_file;
use std::io::Read;
use std::marker::Model;
use std::rt::Files;
use std::{fs, io};

/// The files of the system: a trusted edge, which tells nothing of what they hold.
///
/// Its names are paths. Each error of the system is a fault of the read or the write that met it, also that
/// there is no such file, and only want of memory is none.
#[derive(Drop)]
pub struct HostStore<R: Files + AllocGlobal> {
    files: R,
    asked: u64,
    read_faults: u64,
    write_faults: u64,
}

impl<R: Files + AllocGlobal> Model for HostStore<R> {
    ghost use Rattle.wx_host.specs.Host.{Counts};

    ghost Value = { Counts };

    ghost view = { λ s. record { asked = s.asked; read_faults = s.read_faults; write_faults = s.write_faults } };
}

impl<R: Files + AllocGlobal> HostStore<R> {
    /// A store over these files, as `HostStore::new(&rt)`.
    pub fn new(files: R) -> HostStore<R>
        ensures asked { result.asked ≡ 0 }
        ensures read_faults { result.read_faults ≡ 0 }
        ensures write_faults { result.write_faults ≡ 0 }
    {
        HostStore {
            files,
            asked: 0,
            read_faults: 0,
            write_faults: 0,
        }
    }
}

impl<R: Files + AllocGlobal> Store for HostStore<R> {
    ghost holds = { λ _. None };

    ghost asked = { λ s. s.asked };

    ghost read_names = { λ _. None };

    ghost write_names = { λ _. None };

    ghost read_faults = { λ s. s.read_faults };

    ghost write_faults = { λ s. s.write_faults };

    ghost reliable = { λ _. ⊥ };

    /// Reads in large pieces, and no further than one byte past the greatest length.
    fn read(&mut self, name: &str, into: &mut Vec<u8>) -> Result<(), StoreFault> {
        self.asked = self.asked.saturating_add(1);
        match read_front(&self.files, name, into) {
            Ok(()) if into.len() > LONGEST_FILE => {
                into.truncate(LONGEST_FILE);
                Err(StoreFault::Long)
            }
            Ok(()) => Ok(()),
            Err(error) if is_want_of_memory(&error) => Err(StoreFault::NoMemory),
            Err(_) => {
                self.read_faults = self.read_faults.saturating_add(1);
                Err(StoreFault::Failed)
            }
        }
    }

    /// Makes the bytes the content of the file. A name that nothing has, or that is a plain file, is as it was after
    /// each refusal: the bytes go to a new file beside it, which takes its place once it has them all. What is no plain
    /// file (a device, a pipe, a link) is written in place, and may have a front of the bytes after
    /// [`StoreFault::Failed`].
    fn write(&mut self, name: &str, bytes: &[u8]) -> Result<(), StoreFault> {
        match write_file(&self.files, name, bytes) {
            Ok(()) => Ok(()),
            Err(error) if is_want_of_memory(&error) => Err(StoreFault::NoMemory),
            Err(_) => {
                self.write_faults = self.write_faults.saturating_add(1);
                Err(StoreFault::Failed)
            }
        }
    }
}

// Appends the content of a file, up to one byte more than a file may have.
fn read_front<R: Files>(files: &R, name: &str, into: &mut Vec<u8>) -> io::Result<()> {
    let file = fs::open(files, name)?;
    file.take(LONGEST_FILE as u64 + 1).read_to_end(into)?;
    Ok(())
}

fn is_want_of_memory(error: &io::Error) -> bool {
    error.kind() == io::ErrorKind::OutOfMemory
}
