//! A file that a command writes.

ghost use Rattle.std.specs.Prelude.{◌≡◌, ◌≢◌, ◌≤◌, [], ◌∷◌};
ghost use Rattle.wx_host.specs.Outside.{ChangesOnly};
ghost use Rattle.wcet_front.specs.StoreUse.{log_of, state_of, use_between};
ghost use Rattle.wcet_front.specs.Writing.{AreWritten, IsCutInWriting, IsFirstUnwritten, file_of};
ghost use Rattle.wcet_front.specs.Stages.{Gives, OnStarved, StopsWith, StopsWithoutFault};

use crate::reply::Reply;
use crate::stop::Stop;
use std::alloc::Global;
use wx_base::{Store, StoreFault, Text};

/// Makes the bytes the content of a file.
pub fn write_file<S: Store>(
    alloc: Global,
    name: &str,
    bytes: &[u8],
    store: &mut S,
) -> Result<(), Stop>
    ensures outcome { let reads = log_of (S.read_faults store.old) (S.read_names store.old) in
        let before = log_of (S.write_faults store.old) (S.write_names store.old) in
        let after = log_of (S.write_faults store.new) (S.write_names store.new) in
        let used = use_between (state_of (S.holds store.old) reads before) (state_of (S.holds store.new) reads after) in
        let files = file_of name.now bytes.now ∷ [] in
        Gives (λ done. AreWritten used files) (IsFirstUnwritten used files) result }
    ensures starved { let reads = log_of (S.read_faults store.old) (S.read_names store.old) in
        let before = log_of (S.write_faults store.old) (S.write_names store.old) in
        let after = log_of (S.write_faults store.new) (S.write_names store.new) in
        let used = use_between (state_of (S.holds store.old) reads before) (state_of (S.holds store.new) reads after) in
        OnStarved result (IsCutInWriting used (file_of name.now bytes.now ∷ [])) }
    ensures others { ChangesOnly (S.holds store.old) (S.holds store.new) name.now }
    ensures asked { S.asked store.new ≡ S.asked store.old }
    ensures read_names { S.read_names store.new ≡ S.read_names store.old }
    ensures read_faults { S.read_faults store.new ≡ S.read_faults store.old }
    ensures write_faults { S.write_faults store.old ≤ S.write_faults store.new }
    ensures reliable { S.reliable store.old → S.reliable store.new }
    ensures sound { S.reliable store.old → StopsWithoutFault result }
{
    match store.write(name, bytes) {
        Ok(()) => Ok(()),
        Err(fault) => Err(write_stop(alloc, name, fault)),
    }
}

/// Why a command goes no further where a file could not be written.
fn write_stop(alloc: Global, name: &str, fault: StoreFault) -> Stop
    ensures { StopsWith (λ said. (said ≡ Reply.Unwritten name.now) × (fault ≢ StoreFault.NoMemory)) result }
{
    if fault == StoreFault::NoMemory {
        return Stop::NoMemory;
    }
    match Vec::from_slice(alloc, name.as_bytes()) {
        Ok(bytes) => Stop::Replied {
            reply: Reply::Unwritten {
                name: Text::new(bytes),
            },
        },
        Err(_) => Stop::NoMemory,
    }
}
