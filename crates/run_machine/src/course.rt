ghost use Rattle.std.specs.Prelude.{◌≡◌, ◌≤◌, IfOk};
ghost use Rattle.wx_base.specs.Facts.{FactsAscend};
ghost use Rattle.wx_base.specs.Machine.{IsMachine};
ghost use Rattle.wx_base.specs.Run.{run_of};
ghost use Rattle.wx_base.specs.State.{pc};
ghost use Rattle.arm_step.specs.Cpu.{registers_of};
ghost use Rattle.flow_graph.specs.Program.{rules_of, IsProgram};
ghost use Rattle.run_machine.specs.declared.report.End.TheVariants as ended;
ghost use Rattle.run_machine.specs.Judging.{most_steps};
ghost use Rattle.run_machine.specs.Report.{report_of};
ghost use Rattle.start_file.specs.StartState.{start_of};

use crate::report::{End, Report};
use crate::walk::Walk;
use flow_graph::Program;
use start_file::Start;
use std::alloc::Global;
use wx_base::{Facts, Image, Machine, NoMemory};

/// The run from a start, until it ends, stops, breaks a rule that the facts make or has `n` instructions, and what it
/// came to. Its moves are judged by the program, which is that of the image and the facts from the start's pc.
///
/// The end is `Limit` exactly where `n` instructions were executed and the run has not ended: then the next move is
/// not judged, and no stop is looked at. Each step takes a time that does not grow with the steps before it, and of
/// these nothing is kept but a number for each head of a loop. Steps that move between two heads of loops look
/// through no list of loops, functions or facts.
///
/// `NoMemory` where there is no room for what an instruction stores, for the counters of a called function's loops,
/// or for the first move back into a head; nothing is said of the run then.
pub fn run(
    alloc: Global,
    start: Start,
    image: &Image,
    facts: &Facts,
    program: &Program,
    machine: &Machine,
    n: u64,
) -> Result<Report, NoMemory>
    requires few { n ≤ most_steps }
    requires machine { IsMachine machine.now }
    requires facts { FactsAscend facts.now }
    requires program { IsProgram image.now facts.now (registers_of start.cpu.regs pc) machine.now program.now }
    requires shape { start.cache.shape ≡ machine.now.shape }
    ensures report { IfOk result
        (λ report. report ≡ report_of
        (run_of machine.now image.now (rules_of facts.now program.now) (registers_of start.cpu.regs pc)
        (start_of image.now start) n)) }
    // Only a run of `n` instructions is cut by the limit.
    ensures limit { IfOk result (λ report. report.end ≡ ended.Limit → report.steps ≡ n) }
{
    let mut walk = Walk::new(alloc, start, program)?;
    for executed in 0..n {
        if let Some(end) = walk.advance(alloc, image, facts, program, machine)? {
            return Ok(Report {
                time: walk.clock.time,
                steps: walk.clock.steps,
                end,
            });
        }
    }
    Ok(Report {
        time: walk.clock.time,
        steps: walk.clock.steps,
        end: End::Limit,
    })
}
