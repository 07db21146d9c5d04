//! The command `run`: from the contents of its files to the report of the run that they tell.

ghost use Rattle.std.specs.Prelude.{◌≡◌, ◌≤◌, ◌+◌};
ghost use Rattle.wx_host.specs.Outside.{Contents};
ghost use Rattle.wcet_front.specs.Files.{IsCutShort, ReadsAndReplies, reads_between, reads_of};
ghost use Rattle.wcet_front.specs.StoreUse.{log_of};
ghost use Rattle.wcet_front.specs.Reply.{IsNoFault};
ghost use Rattle.wcet_front.specs.Stages.{Answers, Gives, OnStarved};
ghost use Rattle.wcet_cli.specs.Commands.{run_words};
ghost use Rattle.wcet_cli.specs.RunCommand.{RunReplies, RunReply, run_files};
ghost use Rattle.wcet_cli.specs.Words.{most_steps};

use crate::command::RunCommand;
use flow_graph::rules_are_one;
use run_machine::Report;
use std::alloc::Global;
use wcet_front::{
    InputTexts, Reply, Stop, entry_in, inputs_in, program_of, read_file, read_inputs, start_in,
};
use wx_base::{Store, Text};

/// The reply to `run`: the report of the run that the start text names.
pub fn run<S: Store>(alloc: Global, run: &RunCommand, store: &mut S) -> Result<Reply, Stop>
    requires { run.now.steps ≤ most_steps }
    ensures cause { let before = log_of (S.read_faults store.old) (S.read_names store.old) in
        let after = log_of (S.read_faults store.new) (S.read_names store.new) in
        let reads = reads_between (S.holds store.old) before after in
        let w = run_words run.now in
        Answers (ReadsAndReplies reads (run_files w) (RunReplies w)) result }
    ensures starved { let before = log_of (S.read_faults store.old) (S.read_names store.old) in
        let after = log_of (S.read_faults store.new) (S.read_names store.new) in
        let reads = reads_between (S.holds store.old) before after in
        OnStarved result (IsCutShort reads (run_files (run_words run.now))) }
    ensures due { (contents : Contents) (due : _) → S.holds store.old ≡ Some contents
        → ReadsAndReplies (reads_of contents) (run_files (run_words run.now)) (RunReplies (run_words run.now)) due
        → IsNoFault due → Answers (λ said. IsNoFault said → said ≡ due) result }
    ensures holds { S.holds store.new ≡ S.holds store.old }
    ensures asked { S.asked store.new ≤ S.asked store.old + 4 }
    ensures write_names { S.write_names store.new ≡ S.write_names store.old }
    ensures write_faults { S.write_faults store.new ≡ S.write_faults store.old }
    ensures reliable { S.reliable store.old → S.reliable store.new }
    ensures sound { S.reliable store.old → Answers IsNoFault result }
{
    let texts = read_inputs(alloc, &run.inputs, store)?;
    let start = read_file(alloc, run.start, store)?;
    let report = report(alloc, run, &texts, &start)?;
    Ok(Reply::Ran { report })
}

/// The report of the run, or the first refusal of a stage.
fn report(alloc: Global, run: &RunCommand, texts: &InputTexts, start: &Text) -> Result<Report, Stop>
    requires { run.now.steps ≤ most_steps }
    ensures cause { let replies = RunReply (run_words run.now) texts.now start.now in
        Gives (λ report. replies (Reply.Ran report)) replies result }
    ensures due { (said : _) → RunReply (run_words run.now) texts.now start.now said
        → Gives (λ report. Reply.Ran report ≡ said) (λ reply. reply ≡ said) result }
{
    rules_are_one();
    let inputs = inputs_in(alloc, texts)?;
    let entry = entry_in(alloc, &inputs.image, run.entry)?;
    let begin = start_in(alloc, start, &inputs, entry)?;
    let program = program_of(alloc, &inputs, entry)?;
    let report = run_machine::run(
        alloc,
        begin,
        &inputs.image,
        &inputs.facts,
        &program,
        &inputs.machine,
        run.steps,
    )?;
    Ok(report)
}
