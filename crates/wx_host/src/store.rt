ghost use Rattle.std.specs.Prelude.{◌≡◌, ◌≢◌, ℕ, ◌≤◌, List, [], Option};
ghost use Rattle.wx_host.specs.Outside.{Contents, counted, NamesGive, ReadGives, WriteGives, ChangesOnly};

/// The greatest length of a file, in bytes.
pub(crate) const LONGEST_FILE: usize = 16_777_216;

/// Why a store did not do what it was asked.
#[derive(Clone, Copy, Debug, PartialEq, Eq)]
pub enum StoreFault {
    /// The device failed, and the store counted a fault.
    Failed,
    /// The store tells its contents and does not hold the name. Never of a write.
    Missing,
    /// The content has more than 16,777,216 bytes. Never of a write.
    Long,
    /// Want of memory.
    NoMemory,
}

/// Files by name, as the program reads and writes them.
///
/// Its meanings: what it `holds`, a map from names to bytes where the store tells it; how often it was `asked` to read;
/// the names of its reads and of its writes so far, `read_names` and `write_names`, in order, where it tells them; and
/// its `read_faults` and `write_faults`. The three counters have 64 bits: they never fall, and one that has come to
/// 2^64 - 1 stays there. "The faults rose" means that the counter is greater than before, or stands at that last value.
/// A store that is `reliable` stays so, and no call of it answers [`StoreFault::Failed`]; a store that cannot promise
/// this is never reliable.
pub trait Store {
    ghost holds: { Self → Option Contents };

    ghost asked: { Self → ℕ };

    ghost read_names: { Self → Option (List (List ℕ)) };

    ghost write_names: { Self → Option (List (List ℕ)) };

    ghost read_faults: { Self → ℕ };

    ghost write_faults: { Self → ℕ };

    ghost reliable: { Self → Type 0 };

    /// Appends the whole content of a file to `into`, which is empty.
    ///
    /// After [`StoreFault::Long`] `into` has exactly the first 16,777,216 bytes; after
    /// [`StoreFault::Missing`] it is empty; after the other refusals it may have a front of the content.
    fn read(&mut self, name: &str, into: &mut Vec<u8>) -> Result<(), StoreFault>
        requires { into.old.items ≡ [] }
        ensures unchanged { holds self.new ≡ holds self.old }
        ensures asked { asked self.new ≡ counted (asked self.old) }
        ensures read_names { NamesGive (read_names self.old) (read_names self.new) name.now result }
        ensures write_names { write_names self.new ≡ write_names self.old }
        ensures outcome { let faults = read_faults self.old in
            ReadGives (holds self.old) name.now faults (read_faults self.new) into.new.items result }
        ensures read_faults { read_faults self.old ≤ read_faults self.new }
        ensures write_faults { write_faults self.new ≡ write_faults self.old }
        ensures reliable { reliable self.old → reliable self.new }
        ensures sound { reliable self.old → result ≢ Err StoreFault.Failed };

    /// Makes the bytes the content of the file. After [`StoreFault::Failed`] the file may have any content.
    fn write(&mut self, name: &str, bytes: &[u8]) -> Result<(), StoreFault>
        ensures others { ChangesOnly (holds self.old) (holds self.new) name.now }
        ensures asked { asked self.new ≡ asked self.old }
        ensures read_names { read_names self.new ≡ read_names self.old }
        ensures write_names { NamesGive (write_names self.old) (write_names self.new) name.now result }
        ensures outcome { let faults = write_faults self.old in
            WriteGives (holds self.old) (holds self.new) name.now bytes.now faults (write_faults self.new) result }
        ensures read_faults { read_faults self.new ≡ read_faults self.old }
        ensures write_faults { write_faults self.old ≤ write_faults self.new }
        ensures reliable { reliable self.old → reliable self.new }
        ensures sound { reliable self.old → result ≢ Err StoreFault.Failed };
}
