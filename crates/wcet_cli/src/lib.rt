//! The top call of the analyser: from the words of a command to its line and its status.
#![tactic(auto)]

ghost use Rattle.std.specs.Prelude.{◌≡◌, ◌≢◌, ◌≤◌, ◌<◌, ◌+◌, ◌⊎◌, ℕ, List, [], map, string_bytes, length, Ok, Err, Some, IfOk, OnErr};
ghost use Rattle.wx_base.specs.Machine.{m1, IsMachine};
ghost use Rattle.wx_host.specs.Outside.{Contents, Rose};
ghost use Rattle.wcet_front.specs.StoreUse.{IsUntouched, log_of, state_of, use_between};
ghost use Rattle.wcet_front.specs.Files.{reads_between};
ghost use Rattle.wcet_front.specs.Handing.{HandsOver};
ghost use Rattle.wcet_front.specs.Reply.{IsNoFault};
ghost use Rattle.wcet_front.specs.Stages.{Answers, OnStarved};
ghost use Rattle.wcet_front.specs.Writing.{Leaves};
ghost use Rattle.wcet_cli.specs.Call.{HasCause, HoldsInPart, IsAnswer, IsDue, IsStarved, IsTooLarge, ReadsNothing, Refuses, WritesNot, EndsWith};
ghost use Rattle.wcet_cli.specs.Words.{CheckWords, IsCheck};
ghost use Rattle.wcet_cli.specs.Commands.{AreNamed, AreWrittenBy, FitsForm, WriteNothing};
ghost use Rattle.wcet_cli.specs.CheckCommand.{AcceptsBound, BoundsEveryRun};
ghost use Rattle.wcet_cli.specs.FlatCommand.{AnswersBound};
ghost use Rattle.wcet_cli.specs.MigrateCommand.{Migrates};
ghost use Rattle.wcet_cli.specs.RunCommand.{ReportsRun};

mod command;
mod commands;
mod laws;

use crate::command::{Command, command_of};
use crate::commands::{check, flat, migrate, run};
use bound_laws::valid_bounds_hold;
use elf_image::images_are_loaded;
pub use laws::{one_reply_is_due, straight_runs_obey};
use machine_desc::descriptions_are_in_range;
use pipe_time::worse_is_no_faster;
use std::alloc::Global;
use wcet_front::{Reply, Stop, say, say_memory};
use wx_base::{Machine, NoMemory, Sink, Store};

/// Runs the command that the words are, over files and an output, and answers the status.
///
/// `flat CODE` reads a file of little-endian words, places them from address 0x8000 on, and says `bound B`: no run of
/// the words up to the first call of the supervisor takes more than B cycles on the machine of
/// [`wx_base::Machine::m1`].
///
/// `run IMAGE FACTS MACHINE START N`, perhaps with `entry NAME` behind it, reads an executable, flow facts, a machine
/// description and a start file, and says what the one run that they tell comes to within N instructions: its time in
/// cycles, how many instructions it executed and how it ended, or the first fact that it breaks.
///
/// `migrate OLD NEW` reads a certificate, of either version, writes its text of version 2 under the second name, and
/// says how many nodes and how many different vectors it has.
///
/// `check IMAGE FACTS MACHINE CERT`, perhaps with `entry NAME` behind it, reads a certificate and judges it by its rules
/// for the program of image, facts, machine and entry. Where it is valid it says `bound B`: no run that obeys the facts
/// takes more than B cycles; else the first rule that it breaks, the node and the vector.
///
/// Files are read in the order of the words, and the first that cannot be read decides. What is written is made whole
/// before it is written, and the text before its first piece is put. A name that is written may be one that is read.
/// `flat` is linear in the length of its file; `run` takes the time of the readers of its files, of `build` of
/// `flow_graph`, and of at most N steps; `migrate` is linear in the length of its file but for the sorting of vectors;
/// `check` takes the time of the readers, of `build`, of `unfold` of `flow_ctx` and of `check` of `cert_check`.
///
/// | status | line | when |
/// |---|---|---|
/// | 0 | `bound B` | the bound is known: by `flat`, or by `check`, where the certificate is valid |
/// | 0 | `time T steps K end ended`, or `limit`, or `stopped WHY ADDR` | the run came to this |
/// | 0 | `migrated N V` | the certificate is written |
/// | 1 | `usage` | the words fit no form |
/// | 2 | `read NAME`, `missing NAME` | the store failed, or does not hold the file |
/// | 3 | `write NAME` | the store failed to write the file |
/// | 3 | | the output failed; a front of the text may have been put |
/// | 4 | `image REFUSAL FIELDS`, `image NoEntry NAME` | the image, or its flow, is refused, or it has no such symbol; of `flat`, the words lead to no word, or to one that no straight program has |
/// | 5 | `facts REFUSAL FIELDS` | the facts are refused |
/// | 6 | `machine REFUSAL FIELDS` | the description is refused |
/// | 7 | `certificate REFUSAL FIELDS` | the text is no certificate |
/// | 8 | `rejected RULE NODE VECTOR` | the certificate is not valid: it breaks this rule first, at this vector of this node |
/// | 9 | `memory` | want of memory |
/// | 10 | `large file NAME` | the file has more than 16,777,216 bytes |
/// | 10 | `large nodes` | the program has more than 4,096 blocks in their chains of calls |
/// | 11 | `breaks FACT ADDR STEPS` | the run breaks a fact |
/// | 12 | `start line L`, `start set S` | the start file is refused |
pub fn wcet<S: Store, O: Sink>(alloc: Global, words: &[String], store: &mut S, out: &mut O) -> u8
    // The headline. Where `check` ends with status 0, no run takes longer than the bound that the output took. That is
    // every run of the image on the machine from the entry, as the files held them when the call began: whatever the
    // registers, the flags, the bytes outside the image and the cache hold at the start, wherever the run is cut, and up
    // to the first move that breaks a fact. Nothing is assumed of the certificate, nor of whoever made it.
    ensures headline { (w : CheckWords) → result ≡ 0 → IsCheck (map string_bytes words.now) w
        → BoundsEveryRun (S.holds store.old) w (O.taken out.old) (O.taken out.new) }

    // The status and the text are those of a reply that has its cause, or want of memory; which files were asked for
    // and what was written is part of the cause. The text was handed over, or the sink failed, or memory was wanting.
    ensures answer { let before = state_of (S.holds store.old) (log_of (S.read_faults store.old) (S.read_names store.old))
        (log_of (S.write_faults store.old) (S.write_names store.old)) in
        let after = state_of (S.holds store.new) (log_of (S.read_faults store.new) (S.read_names store.new))
        (log_of (S.write_faults store.new) (S.write_names store.new)) in
        let used = use_between before after in
        (status : ℕ) × (text : List ℕ) × IsAnswer used (map string_bytes words.now) status text
        × HandsOver (O.taken out.old) (O.taken out.new) (O.faults out.old) (O.faults out.new) status text result }

    // What each status says.
    ensures answered { let said = map string_bytes words.now in
        let taken = O.taken out.old in
        result ≡ 0 → AnswersBound (S.holds store.old) said taken (O.taken out.new)
        ⊎ ReportsRun (S.holds store.old) said taken (O.taken out.new) 0
        ⊎ Migrates (S.holds store.old) (S.holds store.new) said taken (O.taken out.new)
        ⊎ AcceptsBound (S.holds store.old) said taken (O.taken out.new) }
    ensures misused { result ≡ 1 → ¬ FitsForm (map string_bytes words.now) }
    ensures unread { let before = log_of (S.read_faults store.old) (S.read_names store.old) in
        let after = log_of (S.read_faults store.new) (S.read_names store.new) in
        let reads = reads_between (S.holds store.old) before after in
        result ≡ 2 → ReadsNothing reads (map string_bytes words.now) }
    ensures unwritten { let before = state_of (S.holds store.old) (log_of (S.read_faults store.old) (S.read_names store.old))
        (log_of (S.write_faults store.old) (S.write_names store.old)) in
        let after = state_of (S.holds store.new) (log_of (S.read_faults store.new) (S.read_names store.new))
        (log_of (S.write_faults store.new) (S.write_names store.new)) in
        let used = use_between before after in
        result ≡ 3 → Rose (O.faults out.old) (O.faults out.new)
        ⊎ WritesNot used (map string_bytes words.now) (O.taken out.old) (O.taken out.new) }
    ensures refused_image { result ≡ 4 → Refuses (S.holds store.old) (map string_bytes words.now) 4 }
    ensures refused_facts { result ≡ 5 → Refuses (S.holds store.old) (map string_bytes words.now) 5 }
    ensures refused_machine { result ≡ 6 → Refuses (S.holds store.old) (map string_bytes words.now) 6 }
    ensures refused_certificate { result ≡ 7 → Refuses (S.holds store.old) (map string_bytes words.now) 7 }
    ensures rejected { result ≡ 8 → Refuses (S.holds store.old) (map string_bytes words.now) 8 }
    ensures too_large { let before = log_of (S.read_faults store.old) (S.read_names store.old) in
        let after = log_of (S.read_faults store.new) (S.read_names store.new) in
        let reads = reads_between (S.holds store.old) before after in
        result ≡ 10 → IsTooLarge reads (map string_bytes words.now)
        ⊎ Refuses (S.holds store.old) (map string_bytes words.now) 10 }
    ensures breaks_fact { let said = map string_bytes words.now in
        result ≡ 11 → ReportsRun (S.holds store.old) said (O.taken out.old) (O.taken out.new) 11 }
    ensures refused_start { result ≡ 12 → Refuses (S.holds store.old) (map string_bytes words.now) 12 }

    // And when it comes: the reply that is due is the one that is given, unless memory is wanting, where the store tells
    // its contents and no fault of store or sink rose, or none can. Where the words write nothing, the count of failed
    // writes does not matter.
    ensures due { (contents : Contents) (due : Reply) → S.holds store.old ≡ Some contents
        → IsDue contents (map string_bytes words.now) due
        → (S.reliable store.old ⊎ (¬ Rose (S.read_faults store.old) (S.read_faults store.new)))
        → (S.reliable store.old ⊎ WriteNothing (map string_bytes words.now)
        ⊎ (¬ Rose (S.write_faults store.old) (S.write_faults store.new)))
        → (O.reliable out.old ⊎ (¬ Rose (O.faults out.old) (O.faults out.new)))
        → EndsWith (O.taken out.old) (O.taken out.new) due result }
    ensures sink_fault { O.faults out.old < O.faults out.new → result ≡ 3 }

    // What changes: only names that the words write, and those only with the statuses 0, 3 and 9. Where the store failed
    // in no write, what is held then is what was held, with the first few of the files over it that the words write.
    ensures others { let said = map string_bytes words.now in
        (names : List (List ℕ)) → AreWrittenBy said names → Leaves (S.holds store.old) (S.holds store.new) names }
    ensures kept { result ≢ 0 → result ≢ 3 → result ≢ 9 → S.holds store.new ≡ S.holds store.old }
    ensures in_part { let before = state_of (S.holds store.old) (log_of (S.read_faults store.old) (S.read_names store.old))
        (log_of (S.write_faults store.old) (S.write_names store.old)) in
        let after = state_of (S.holds store.new) (log_of (S.read_faults store.new) (S.read_names store.new))
        (log_of (S.write_faults store.new) (S.write_names store.new)) in
        let used = use_between before after in
        (¬ Rose (S.write_faults store.old) (S.write_faults store.new))
        → (S.holds store.new ≡ S.holds store.old) ⊎ HoldsInPart used (map string_bytes words.now) }
    ensures untouched { let before = state_of (S.holds store.old) (log_of (S.read_faults store.old) (S.read_names store.old))
        (log_of (S.write_faults store.old) (S.write_names store.old)) in
        let after = state_of (S.holds store.new) (log_of (S.read_faults store.new) (S.read_names store.new))
        (log_of (S.write_faults store.new) (S.write_names store.new)) in
        let used = use_between before after in
        WriteNothing (map string_bytes words.now) → IsUntouched used }

    // And a call reads no more files than its words name.
    ensures asked { (names : List (List ℕ)) → AreNamed (map string_bytes words.now) names
        → S.asked store.new ≤ S.asked store.old + length names }
    ensures asked_few { S.asked store.new ≤ S.asked store.old + 4 }
    ensures unasked { ¬ FitsForm (map string_bytes words.now) → S.asked store.new ≡ S.asked store.old }
{
    worse_is_no_faster();
    valid_bounds_hold();
    images_are_loaded();
    descriptions_are_in_range();
    m1_is_in_range(alloc);
    match settled(answer_to(alloc, words, store)) {
        Ok(reply) => say(alloc, reply, out),
        Err(NoMemory) => say_memory(out),
    }
}

/// The machine that `flat` takes is in range, as its making shows.
fn m1_is_in_range(alloc: Global)
    ensures { IsMachine m1 }
{
    let _machine = Machine::m1(alloc);
}

/// The reply to the words of a command, or why there is none.
fn answer_to<S: Store>(alloc: Global, words: &[String], store: &mut S) -> Result<Reply, Stop>
    ensures cause { let before = state_of (S.holds store.old) (log_of (S.read_faults store.old) (S.read_names store.old))
        (log_of (S.write_faults store.old) (S.write_names store.old)) in
        let after = state_of (S.holds store.new) (log_of (S.read_faults store.new) (S.read_names store.new))
        (log_of (S.write_faults store.new) (S.write_names store.new)) in
        let used = use_between before after in
        Answers (HasCause used (map string_bytes words.now)) result }
    ensures starved { let before = state_of (S.holds store.old) (log_of (S.read_faults store.old) (S.read_names store.old))
        (log_of (S.write_faults store.old) (S.write_names store.old)) in
        let after = state_of (S.holds store.new) (log_of (S.read_faults store.new) (S.read_names store.new))
        (log_of (S.write_faults store.new) (S.write_names store.new)) in
        let used = use_between before after in
        OnStarved result (IsStarved used (map string_bytes words.now)) }
    ensures due { (contents : Contents) (due : Reply) → S.holds store.old ≡ Some contents
        → IsDue contents (map string_bytes words.now) due → Answers (λ said. IsNoFault said → said ≡ due) result }
    ensures others { let said = map string_bytes words.now in
        (names : List (List ℕ)) → AreWrittenBy said names → Leaves (S.holds store.old) (S.holds store.new) names }
    ensures untouched { let before = state_of (S.holds store.old) (log_of (S.read_faults store.old) (S.read_names store.old))
        (log_of (S.write_faults store.old) (S.write_names store.old)) in
        let after = state_of (S.holds store.new) (log_of (S.read_faults store.new) (S.read_names store.new))
        (log_of (S.write_faults store.new) (S.write_names store.new)) in
        let used = use_between before after in
        WriteNothing (map string_bytes words.now) → IsUntouched used }
    ensures asked { (names : List (List ℕ)) → AreNamed (map string_bytes words.now) names
        → S.asked store.new ≤ S.asked store.old + length names }
    ensures asked_few { S.asked store.new ≤ S.asked store.old + 4 }
    ensures unasked { ¬ FitsForm (map string_bytes words.now) → S.asked store.new ≡ S.asked store.old }
    ensures sound { S.reliable store.old → Answers IsNoFault result }
{
    match command_of(words) {
        Some(Command::Flat { code }) => flat::flat(alloc, code, store),
        Some(Command::Run { run }) => run::run(alloc, &run, store),
        Some(Command::Migrate { migrate }) => migrate::migrate(alloc, &migrate, store),
        Some(Command::Check { check }) => check::check(alloc, &check, store),
        None => Ok(Reply::Usage),
    }
}

/// The reply with which a command goes no further is its reply.
fn settled(answer: Result<Reply, Stop>) -> Result<Reply, NoMemory>
    ensures replied { IfOk result (λ reply. (answer ≡ Ok reply) ⊎ (answer ≡ Err (Stop.Replied reply))) }
    ensures starved { OnErr result (answer ≡ Err Stop.NoMemory) }
{
    match answer {
        Ok(reply) => Ok(reply),
        Err(Stop::Replied { reply }) => Ok(reply),
        Err(Stop::NoMemory) => Err(NoMemory),
    }
}
