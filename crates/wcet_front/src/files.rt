//! The files that a command reads, one after the other. The first that cannot be read decides.

ghost use Rattle.std.specs.Prelude.{◌≡◌, ◌≢◌, ◌≤◌, ◌+◌, [], ◌∷◌, IfOk};
ghost use Rattle.wx_host.specs.Outside.{counted};
ghost use Rattle.wcet_front.specs.Files.{AreRead, IsCutShort, IsFaultReply, IsFirstUnread, reads_between};
ghost use Rattle.wcet_front.specs.StoreUse.{log_of};
ghost use Rattle.wcet_front.specs.Stages.{Gives, OnStarved, StopsWithoutFault};

use crate::inputs::{InputNames, InputTexts};
use crate::reply::Reply;
use crate::stop::Stop;
use std::alloc::Global;
use wx_base::{NoMemory, Store, StoreFault, Text};

/// Reads the contents of the three files that most commands read, in the order of their words.
pub fn read_inputs<S: Store>(
    alloc: Global,
    names: &InputNames,
    store: &mut S,
) -> Result<InputTexts, Stop>
    ensures outcome { let before = log_of (S.read_faults store.old) (S.read_names store.old) in
        let after = log_of (S.read_faults store.new) (S.read_names store.new) in
        let reads = reads_between (S.holds store.old) before after in
        let files = names.now.image.now ∷ names.now.facts.now ∷ names.now.machine.now ∷ [] in
        Gives (λ texts. AreRead reads files (texts.image ∷ texts.facts ∷ texts.machine ∷ []))
        (IsFirstUnread reads files) result }
    ensures starved { let before = log_of (S.read_faults store.old) (S.read_names store.old) in
        let after = log_of (S.read_faults store.new) (S.read_names store.new) in
        let reads = reads_between (S.holds store.old) before after in
        let files = names.now.image.now ∷ names.now.facts.now ∷ names.now.machine.now ∷ [] in
        OnStarved result (IsCutShort reads files) }
    ensures holds { S.holds store.new ≡ S.holds store.old }
    ensures asked { S.asked store.new ≤ S.asked store.old + 3 }
    ensures read_faults { S.read_faults store.old ≤ S.read_faults store.new }
    ensures write_names { S.write_names store.new ≡ S.write_names store.old }
    ensures write_faults { S.write_faults store.new ≡ S.write_faults store.old }
    ensures reliable { S.reliable store.old → S.reliable store.new }
    ensures sound { S.reliable store.old → StopsWithoutFault result }
{
    let image = read_file(alloc, names.image, store)?;
    let facts = read_file(alloc, names.facts, store)?;
    let machine = read_file(alloc, names.machine, store)?;
    Ok(InputTexts {
        image,
        facts,
        machine,
    })
}

/// Reads the content of a file.
pub fn read_file<S: Store>(alloc: Global, name: &str, store: &mut S) -> Result<Text, Stop>
    ensures outcome { let before = log_of (S.read_faults store.old) (S.read_names store.old) in
        let after = log_of (S.read_faults store.new) (S.read_names store.new) in
        let reads = reads_between (S.holds store.old) before after in
        Gives (λ bytes. AreRead reads (name.now ∷ []) (bytes ∷ [])) (IsFirstUnread reads (name.now ∷ [])) result }
    ensures starved { let before = log_of (S.read_faults store.old) (S.read_names store.old) in
        let after = log_of (S.read_faults store.new) (S.read_names store.new) in
        let reads = reads_between (S.holds store.old) before after in
        OnStarved result (IsCutShort reads (name.now ∷ [])) }
    ensures holds { S.holds store.new ≡ S.holds store.old }
    ensures asked { S.asked store.new ≡ counted (S.asked store.old) }
    ensures read_faults { S.read_faults store.old ≤ S.read_faults store.new }
    ensures write_names { S.write_names store.new ≡ S.write_names store.old }
    ensures write_faults { S.write_faults store.new ≡ S.write_faults store.old }
    ensures reliable { S.reliable store.old → S.reliable store.new }
    ensures sound { S.reliable store.old → StopsWithoutFault result }
{
    let mut bytes = Vec::new(alloc);
    match store.read(name, &mut bytes) {
        Ok(()) => Ok(Text::new(bytes)),
        Err(StoreFault::NoMemory) => Err(Stop::NoMemory),
        Err(fault) => Err(Stop::Replied {
            reply: fault_reply(alloc, name, fault)?,
        }),
    }
}

/// The reply to a file that could not be read.
fn fault_reply(alloc: Global, name: &str, fault: StoreFault) -> Result<Reply, NoMemory>
    requires { fault ≢ StoreFault.NoMemory }
    ensures reply { IfOk result (IsFaultReply name.now fault) }
    ensures other { fault ≢ StoreFault.NoMemory }
{
    let name = Text::new(Vec::from_slice(alloc, name.as_bytes())?);
    match fault {
        StoreFault::Failed => Ok(Reply::Unreadable { name }),
        StoreFault::Missing => Ok(Reply::Missing { name }),
        StoreFault::Long => Ok(Reply::LongFile { name }),
        StoreFault::NoMemory => Err(NoMemory),
    }
}
