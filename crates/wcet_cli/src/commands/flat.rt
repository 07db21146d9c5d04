//! The command `flat`: from the bytes of a file to the bound of the straight program that they begin with.

ghost use Rattle.std.specs.Prelude.{◌≡◌, ◌≤◌, [], ◌∷◌, length};
ghost use Rattle.wx_host.specs.Outside.{Contents, counted};
ghost use Rattle.wcet_front.specs.Files.{IsCutShort, ReadsAndReplies, reads_between, reads_of};
ghost use Rattle.wcet_front.specs.StoreUse.{log_of};
ghost use Rattle.wcet_front.specs.Reply.{IsNoFault};
ghost use Rattle.wcet_front.specs.Stages.{Answers, OnStarved};
ghost use Rattle.wcet_cli.specs.FlatCommand.{FlatReplies, FlatReply};

use crate::commands::straight::{Refusal, bound_of_bytes};
use std::alloc::Global;
use wcet_front::{Reply, Stop, read_file};
use wx_base::{Machine, Store};

/// The reply to `flat` and the name of a file: the bound of the straight program that its bytes begin with.
pub fn flat<S: Store>(alloc: Global, code: &str, store: &mut S) -> Result<Reply, Stop>
    ensures cause { let before = log_of (S.read_faults store.old) (S.read_names store.old) in
        let after = log_of (S.read_faults store.new) (S.read_names store.new) in
        let reads = reads_between (S.holds store.old) before after in
        Answers (ReadsAndReplies reads (code.now ∷ []) FlatReplies) result }
    ensures starved { let before = log_of (S.read_faults store.old) (S.read_names store.old) in
        let after = log_of (S.read_faults store.new) (S.read_names store.new) in
        let reads = reads_between (S.holds store.old) before after in
        OnStarved result (IsCutShort reads (code.now ∷ [])) }
    ensures due { (contents : Contents) (due : _) → S.holds store.old ≡ Some contents
        → ReadsAndReplies (reads_of contents) (code.now ∷ []) FlatReplies due → IsNoFault due
        → Answers (λ said. IsNoFault said → said ≡ due) result }
    ensures holds { S.holds store.new ≡ S.holds store.old }
    ensures asked { S.asked store.new ≡ counted (S.asked store.old) }
    ensures write_names { S.write_names store.new ≡ S.write_names store.old }
    ensures write_faults { S.write_faults store.new ≡ S.write_faults store.old }
    ensures reliable { S.reliable store.old → S.reliable store.new }
    ensures sound { S.reliable store.old → Answers IsNoFault result }
{
    let bytes = read_file(alloc, code, store)?;
    Ok(bound_reply(alloc, bytes.as_bytes()))
}

/// The reply to the bytes of a file.
fn bound_reply(alloc: Global, bytes: &[u8]) -> Reply
    requires { length bytes.now ≤ 16777216 }
    ensures cause { FlatReply bytes.now result }
    ensures free { IsNoFault result }
{
    match bound_of_bytes(&Machine::m1(alloc), bytes) {
        Ok(cycles) => Reply::Bound { cycles },
        Err(Refusal::LeavesCode { addr }) => Reply::LeavesCode { addr },
        Err(Refusal::Unsupported { addr, word }) => Reply::Unsupported { addr, word },
    }
}
