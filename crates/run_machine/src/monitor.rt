//! The activations of a run and its counts of back edges, and what its moves make of them.

ghost use Rattle.std.specs.Prelude.{◌≡◌, ◌∷◌, List, map, not, IfOk, OnOk, unwrap_or, false, ◌&&◌};
ghost use Rattle.flow_graph.specs.declared.program.Function.{Function};
ghost use Rattle.wx_base.specs.Facts.{FactsAscend, TargetsAscend};
ghost use Rattle.wx_base.specs.Monitor.{first_watch, called, is_outermost, moved_within, returned, jumped, is_target};
ghost use Rattle.flow_graph.specs.Program.{rules_of, judged_function};
ghost use Rattle.run_machine.specs.Judging.{AreFew, Ordered, frame_of, callers_of, frames_of, totals_of, watch_of, IsMonitor, decided, verdict, leaves_by, executed_in};

use crate::came::Came;
use crate::frame::Frame;
use crate::search::is_target;
use crate::totals::Totals;
use flow_block::is_call;
use flow_graph::Program;
use std::alloc::Global;
use std::mem;
use wx_base::{FactKind, Facts, FlowKind, NoMemory, TargetFact};

/// The activations of a run, that of the start and one for each call that is open, and its counts over all of them.
#[derive(Drop)]
pub(crate) struct Monitor {
    /// The youngest.
    pub(crate) current: Frame,
    /// The others, the youngest last.
    pub(crate) callers: Vec<Frame>,
    pub(crate) totals: Totals,
}

/// Whether a move that has to go to a listed target does not.
fn strays(bound: bool, facts: &[TargetFact], from: u32, to: u32) -> bool
    requires { TargetsAscend facts.now }
    ensures { result ≡ (bound && not (is_target facts.now from to)) }
{
    bound && !is_target(facts, from, to)
}

impl Monitor {
    /// The activation of the function in which a run starts.
    pub(crate) fn new(alloc: Global, program: &Program, entry: u32) -> Result<Monitor, NoMemory>
        requires { Ordered program.now.functions }
        ensures watch { IfOk result (λ m. watch_of program.now.functions m ≡ first_watch entry) }
        ensures monitor { IfOk result (λ m. IsMonitor program.now.functions m) }
    {
        let current = Frame::open(alloc, program.functions.as_slice(), entry)?;
        Ok(Monitor {
            current,
            callers: Vec::new(alloc),
            totals: Totals::new(alloc),
        })
    }

    /// The address last executed in the youngest activation, 0 where there is none.
    pub(crate) fn last(&self) -> u32
        ensures { result ≡ unwrap_or self.now.current.last 0 }
    {
        self.current.last.unwrap_or(0)
    }

    /// Whether no call is open.
    pub(crate) fn is_outermost(&self) -> bool
        ensures { (functions : List Function) → result ≡ is_outermost (frames_of functions self.now) }
    {
        self.callers.is_empty()
    }

    /// The instruction at an address was executed.
    pub(crate) fn executed(&mut self, address: u32)
        ensures { self.new ≡ executed_in self.old address }
    {
        self.current.last = Some(address);
    }

    /// Opens the activation of a called function.
    fn open(&mut self, alloc: Global, program: &Program, entry: u32) -> Result<(), NoMemory>
        requires ordered { Ordered program.now.functions }
        requires monitor { IsMonitor program.now.functions self.old }
        ensures watch { OnOk result (watch_of program.now.functions self.new
            ≡ called (frame_of program.now.functions self.old.current) (callers_of program.now.functions self.old)
            (totals_of self.old.totals) entry) }
        ensures monitor { OnOk result (IsMonitor program.now.functions self.new) }
    {
        let frame = Frame::open(alloc, program.functions.as_slice(), entry)?;
        let caller = mem::replace(&mut self.current, frame);
        self.callers.push(caller)?;
        Ok(())
    }

    /// A move inside the youngest activation's function.
    fn enter(&mut self, program: &Program, to: u32) -> Result<Option<FactKind>, NoMemory>
        requires ordered { Ordered program.now.functions }
        requires monitor { IsMonitor program.now.functions self.old }
        requires few { AreFew (totals_of self.old.totals) }
        ensures moved { IfOk result (λ breach.
            moved_within (map judged_function program.now.functions) (frame_of program.now.functions self.old.current)
            (callers_of program.now.functions self.old) (totals_of self.old.totals) to
            ≡ verdict breach (watch_of program.now.functions self.new)) }
        ensures monitor { OnOk result (IsMonitor program.now.functions self.new) }
    {
        self.current
            .enter(program.functions.as_slice(), &mut self.totals, to)
    }

    /// A return: closes the youngest activation.
    fn close(&mut self, program: &Program, to: u32) -> Result<Option<FactKind>, NoMemory>
        requires ordered { Ordered program.now.functions }
        requires monitor { IsMonitor program.now.functions self.old }
        requires few { AreFew (totals_of self.old.totals) }
        requires called { is_outermost (frames_of program.now.functions self.old) ≡ false }
        ensures moved { IfOk result (λ breach.
            returned (map judged_function program.now.functions) (callers_of program.now.functions self.old)
            (totals_of self.old.totals) to
            ≡ verdict breach (watch_of program.now.functions self.new)) }
        ensures monitor { OnOk result (IsMonitor program.now.functions self.new) }
    {
        let Some(caller) = self.callers.pop() else {
            // A call is open.
            return Ok(None);
        };
        self.current = caller;
        if to == self.last().wrapping_add(4) {
            self.enter(program, to)
        } else {
            Ok(Some(FactKind::Return))
        }
    }

    /// A move by an instruction that jumped, called or returned, by what it is to the flow.
    fn jump(
        &mut self,
        alloc: Global,
        facts: &Facts,
        program: &Program,
        flow: FlowKind,
        to: u32,
    ) -> Result<Option<FactKind>, NoMemory>
        requires facts { FactsAscend facts.now }
        requires ordered { Ordered program.now.functions }
        requires monitor { IsMonitor program.now.functions self.old }
        requires few { AreFew (totals_of self.old.totals) }
        requires stays { (flow.ret && is_outermost (frames_of program.now.functions self.old)) ≡ false }
        ensures moved { IfOk result (λ breach.
            jumped (rules_of facts.now program.now) (frame_of program.now.functions self.old.current)
            (callers_of program.now.functions self.old) (totals_of self.old.totals) flow to
            ≡ verdict breach (watch_of program.now.functions self.new)) }
        ensures monitor { OnOk result (IsMonitor program.now.functions self.new) }
    {
        let from = self.last();
        if strays(flow.indirect, facts.branches.as_slice(), from, to) {
            return Ok(Some(FactKind::Branch));
        }
        if strays(flow.call_any, facts.calls.as_slice(), from, to) {
            return Ok(Some(FactKind::Call));
        }
        if is_call(flow) {
            self.open(alloc, program, to)?;
            return Ok(None);
        }
        if flow.ret {
            return self.close(program, to);
        }
        self.enter(program, to)
    }

    /// Judges the move by which the run came to an address: the rule that it breaks, if it breaks one.
    ///
    /// `NoMemory` where there is no room for the activation that a call opens, or for a head's first count of the
    /// whole run.
    pub(crate) fn judge(
        &mut self,
        alloc: Global,
        facts: &Facts,
        program: &Program,
        came: Came,
        to: u32,
    ) -> Result<Option<FactKind>, NoMemory>
        requires facts { FactsAscend facts.now }
        requires ordered { Ordered program.now.functions }
        requires monitor { IsMonitor program.now.functions self.old }
        requires few { AreFew (totals_of self.old.totals) }
        requires stays { leaves_by came (frames_of program.now.functions self.old) ≡ false }
        ensures moved { IfOk result (λ breach.
            decided (rules_of facts.now program.now) came (frame_of program.now.functions self.old.current)
            (callers_of program.now.functions self.old) (totals_of self.old.totals) to
            ≡ verdict breach (watch_of program.now.functions self.new)) }
        ensures monitor { OnOk result (IsMonitor program.now.functions self.new) }
    {
        match came {
            Came::First => Ok(None),
            Came::On => self.enter(program, to),
            Came::Jumped { flow } => self.jump(alloc, facts, program, flow, to),
        }
    }

    /// Whether an instruction that went on so returns from the start's own function.
    pub(crate) fn is_left(&self, came: Came) -> bool
        ensures { (functions : List Function) → result ≡ leaves_by came (frames_of functions self.now) }
    {
        match came {
            Came::Jumped { flow } => flow.ret && self.is_outermost(),
            _ => false,
        }
    }
}
