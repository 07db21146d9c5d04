//! A run, instruction by instruction.

ghost use Rattle.std.specs.Prelude.{◌≡◌, ◌<◌, ◌+◌, ◌∷◌, List, IfOk, IfNone};
ghost use Rattle.wx_base.specs.declared.facts.Facts.{Facts as FlowFacts};
ghost use Rattle.wx_base.specs.declared.image.Image.{Image};
ghost use Rattle.wx_base.specs.declared.machine.Machine.{Machine};
ghost use Rattle.wx_base.specs.Cache.{Lines, line_of, accessed};
ghost use Rattle.wx_base.specs.Facts.{FactsAscend};
ghost use Rattle.wx_base.specs.Flow.{flow_of};
ghost use Rattle.wx_base.specs.Machine.{IsMachine};
ghost use Rattle.wx_base.specs.Recurrence.{Done};
ghost use Rattle.wx_base.specs.Run.{Run, begun, advanced};
ghost use Rattle.wx_base.specs.State.{pc};
ghost use Rattle.arm_code.specs.Encoding.{IsValid, word_of};
ghost use Rattle.arm_step.specs.Cpu.{registers_of};
ghost use Rattle.flow_graph.specs.declared.program.Function.{Function};
ghost use Rattle.flow_graph.specs.Program.{rules_of};
ghost use Rattle.run_machine.specs.Judging.{AreFew, Ordered, came_by, leaves_by, frames_of, totals_of, executed_in, most_steps};
ghost use Rattle.start_file.specs.StartState.{start_of};
ghost use Rattle.run_machine.specs.Walk.{IsClock, Tells, done_now, IsWalk, Shows, Follows, address_of_breach};

use crate::came::Came;
use crate::clock::Clock;
use crate::look::{Looked, look};
use crate::monitor::Monitor;
use crate::report::End;
use arm_code::{Insn, flow};
use arm_step::Cpu;
use flow_graph::Program;
use pipe_time::windows_follow_the_past;
use start_file::Start;
use std::alloc::Global;
use wx_base::{FactKind, Facts, Image, Machine, NoMemory};

/// A run so far.
#[derive(Drop)]
pub(crate) struct Walk {
    pub(crate) cpu: Cpu,
    pub(crate) clock: Clock,
    pub(crate) monitor: Monitor,
    /// How it came to the instruction at pc.
    pub(crate) came: Came,
}

/// How the run comes on by an instruction that jumped or did not.
fn came_by(insn: &Insn, addr: u32, taken: bool) -> Came
    requires { IsValid insn.now }
    ensures { result ≡ came_by taken (flow_of (word_of insn.now) addr) }
{
    if taken {
        Came::Jumped {
            flow: flow(insn, addr),
        }
    } else {
        Came::On
    }
}

/// The address at which a rule is broken: where the move leads for the counts of a loop, else that of the instruction
/// before it.
fn breach_address(fact: FactKind, last: u32, to: u32) -> u32
    ensures { result ≡ address_of_breach fact last to }
{
    match fact {
        FactKind::Loop | FactKind::Total => to,
        FactKind::Branch | FactKind::Call | FactKind::Return => last,
    }
}

impl Walk {
    /// Nothing was executed.
    ///
    /// `NoMemory` where there is no room for the counters of the first function's loops.
    pub(crate) fn new(alloc: Global, start: Start, program: &Program) -> Result<Walk, NoMemory>
        requires { Ordered program.now.functions }
        ensures shows { IfOk result
            (λ walk. (machine : Machine) (image : Image) (facts : FlowFacts)
            → Shows machine image facts program.now
            (begun (registers_of start.cpu.regs pc) (start_of image start)) walk) }
        ensures walk { IfOk result
            (λ walk. (machine : Machine) → start.cache.shape ≡ machine.shape → IsWalk machine program.now walk) }
        ensures steps { IfOk result (λ walk. walk.clock.steps ≡ 0) }
    {
        windows_follow_the_past();
        let Start { cpu, cache } = start;
        let monitor = Monitor::new(alloc, program, cpu.regs[15])?;
        Ok(Walk {
            cpu,
            clock: Clock::new(cache),
            monitor,
            came: Came::First,
        })
    }

    /// An instruction at an address was executed, and the state is that behind it; says whether the run ends by it.
    fn go_on(&mut self, machine: &Machine, addr: u32, insn: &Insn, taken: bool, slow: bool) -> bool
        requires machine { IsMachine machine.now }
        requires valid { IsValid insn.now }
        requires clock { IsClock machine.now self.old.clock }
        requires few { self.old.clock.steps < most_steps }
        ensures left { (functions : List Function) → result
            ≡ leaves_by (came_by taken (flow_of (word_of insn.now) addr))
            (frames_of functions (executed_in self.old.monitor addr)) }
        ensures cpu { self.new.cpu ≡ self.old.cpu }
        ensures monitor { self.new.monitor ≡ executed_in self.old.monitor addr }
        ensures came { self.new.came ≡ came_by taken (flow_of (word_of insn.now) addr) }
        ensures told { (past : List Done) (cache : Lines) → Tells machine.now past cache self.old.clock
            → Tells machine.now (done_now machine.now past cache (word_of insn.now) addr taken slow ∷ past)
            (accessed machine.now.shape cache (line_of machine.now.shape addr)) self.new.clock }
        ensures clock { IsClock machine.now self.new.clock }
        ensures steps { self.new.clock.steps ≡ self.old.clock.steps + 1 }
    {
        self.clock.tick(machine, addr, insn, taken, slow);
        self.came = came_by(insn, addr, taken);
        self.monitor.executed(addr);
        self.monitor.is_left(self.came)
    }

    /// One more instruction: judges the move to it, looks at it, and executes it. The answer is how the run ends, if
    /// it does; then time and number are those of the instructions executed.
    ///
    /// `NoMemory` where there is no room for what the instruction stores, for a called function's counters, or for a
    /// head's first count of the whole run.
    pub(crate) fn advance(
        &mut self,
        alloc: Global,
        image: &Image,
        facts: &Facts,
        program: &Program,
        machine: &Machine,
    ) -> Result<Option<End>, NoMemory>
        requires facts { FactsAscend facts.now }
        requires ordered { Ordered program.now.functions }
        requires machine { IsMachine machine.now }
        requires walk { IsWalk machine.now program.now self.old }
        requires few { self.old.clock.steps < most_steps }
        requires totals { AreFew (totals_of self.old.monitor.totals) }
        ensures follows { IfOk result
            (λ end. (run : Run) → Shows machine.now image.now facts.now program.now run self.old
            → Follows machine.now image.now facts.now program.now
            (advanced machine.now image.now (rules_of facts.now program.now) run run.end) end self.new) }
        ensures walk { IfOk result (λ end. IfNone end (IsWalk machine.now program.now self.new)) }
        ensures steps { IfOk result (λ end. IfNone end (self.new.clock.steps ≡ self.old.clock.steps + 1)) }
    {
        let addr = self.cpu.regs[15];
        let last = self.monitor.last();
        if let Some(fact) = self.monitor.judge(alloc, facts, program, self.came, addr)? {
            return Ok(Some(End::Breaks {
                fact,
                addr: breach_address(fact, last, addr),
            }));
        }
        match look(alloc, &mut self.cpu, image, machine)? {
            Looked::Stopped { why } => Ok(Some(End::Stopped { why, addr })),
            Looked::Ended { insn } => {
                self.go_on(machine, addr, &insn, false, false);
                Ok(Some(End::Ended))
            }
            Looked::Next { insn, taken, slow } => {
                if self.go_on(machine, addr, &insn, taken, slow) {
                    Ok(Some(End::Ended))
                } else {
                    Ok(None)
                }
            }
        }
    }
}
