//! The command `check`: from the contents of its files to the verdict on a certificate.

ghost use Rattle.std.specs.Prelude.{◌≡◌, ◌≤◌, ◌+◌, length};
ghost use Rattle.wx_base.specs.Machine.{IsMachine};
ghost use Rattle.wx_host.specs.Outside.{Contents};
ghost use Rattle.flow_ctx.specs.Laws.{IsUnfoldedOn};
ghost use Rattle.flow_ctx.specs.Unfolding.{most_nodes};
ghost use Rattle.wcet_front.specs.Files.{IsCutShort, ReadsAndReplies, reads_between, reads_of};
ghost use Rattle.wcet_front.specs.StoreUse.{log_of};
ghost use Rattle.wcet_front.specs.Reply.{IsNoFault};
ghost use Rattle.wcet_front.specs.Stages.{Answers, OnStarved};
ghost use Rattle.wcet_cli.specs.CheckCommand.{CheckReplies, CheckReply, IsVerdict, check_files};
ghost use Rattle.wcet_cli.specs.Commands.{check_words};

use crate::command::CheckCommand;
use cache_class::classes_are_one;
use cert_check::Refused;
use cert_rules::{first_broken_is_one, valid_breaks_none};
use cert_text::Certificate;
use flow_ctx::Unfolded;
use std::alloc::Global;
use wcet_front::{
    InputTexts, Reply, Stop, certificate_in, entry_in, inputs_in, program_of, read_file,
    read_inputs, unfolding_of,
};
use wx_base::{Machine, Store, Text};
use xdd_table::Table;

/// The reply to `check`: the bound of a certificate that is valid, or the first rule that it breaks.
pub fn check<S: Store>(alloc: Global, names: &CheckCommand, store: &mut S) -> Result<Reply, Stop>
    ensures cause { let before = log_of (S.read_faults store.old) (S.read_names store.old) in
        let after = log_of (S.read_faults store.new) (S.read_names store.new) in
        let reads = reads_between (S.holds store.old) before after in
        let w = check_words names.now in
        Answers (ReadsAndReplies reads (check_files w) (CheckReplies w)) result }
    ensures starved { let before = log_of (S.read_faults store.old) (S.read_names store.old) in
        let after = log_of (S.read_faults store.new) (S.read_names store.new) in
        let reads = reads_between (S.holds store.old) before after in
        OnStarved result (IsCutShort reads (check_files (check_words names.now))) }
    ensures due { (contents : Contents) (due : _) → S.holds store.old ≡ Some contents
        → ReadsAndReplies (reads_of contents) (check_files (check_words names.now)) (CheckReplies (check_words names.now)) due
        → IsNoFault due → Answers (λ said. IsNoFault said → said ≡ due) result }
    ensures holds { S.holds store.new ≡ S.holds store.old }
    ensures asked { S.asked store.new ≤ S.asked store.old + 4 }
    ensures write_names { S.write_names store.new ≡ S.write_names store.old }
    ensures write_faults { S.write_faults store.new ≡ S.write_faults store.old }
    ensures reliable { S.reliable store.old → S.reliable store.new }
    ensures sound { S.reliable store.old → Answers IsNoFault result }
{
    let texts = read_inputs(alloc, &names.inputs, store)?;
    let certificate = read_file(alloc, names.certificate, store)?;
    verdict_in(alloc, names, &texts, &certificate)
}

/// The verdict on the certificate that a text is of, or the first refusal of a stage.
fn verdict_in(
    alloc: Global,
    names: &CheckCommand,
    texts: &InputTexts,
    text: &Text,
) -> Result<Reply, Stop>
    requires { length text.now ≤ 16777216 }
    ensures cause { Answers (CheckReply (check_words names.now) texts.now text.now) result }
    ensures due { (said : _) → CheckReply (check_words names.now) texts.now text.now said
        → Answers (λ reply. reply ≡ said) result }
{
    let inputs = inputs_in(alloc, texts)?;
    let certificate = certificate_in(alloc, text)?;
    let entry = entry_in(alloc, &inputs.image, names.entry)?;
    let program = program_of(alloc, &inputs, entry)?;
    let unfolded = unfolding_of(alloc, program)?;
    verdict_on(alloc, &unfolded, &inputs.machine, &certificate)
}

/// The verdict on a certificate for an unfolding on a machine. The diagrams that the check makes are not kept.
fn verdict_on(
    alloc: Global,
    unfolded: &Unfolded,
    machine: &Machine,
    certificate: &Certificate,
) -> Result<Reply, Stop>
    requires machine { IsMachine machine.now }
    requires unfolded { IsUnfoldedOn machine.now unfolded.now }
    requires few { length unfolded.now.nodes ≤ most_nodes }
    ensures cause { Answers (IsVerdict unfolded.now machine.now certificate.now) result }
    ensures due { (said : _) → IsVerdict unfolded.now machine.now certificate.now said
        → Answers (λ reply. reply ≡ said) result }
{
    classes_are_one();
    valid_breaks_none();
    first_broken_is_one();
    let mut table = Table::new(alloc);
    match cert_check::check(unfolded, machine, certificate, &mut table) {
        Ok(checked) => Ok(Reply::Bound {
            cycles: checked.bound,
        }),
        Err(Refused::Rejected { rule, node, vector }) => Ok(Reply::Rejected { rule, node, vector }),
        Err(Refused::NoMemory) => Err(Stop::NoMemory),
    }
}
