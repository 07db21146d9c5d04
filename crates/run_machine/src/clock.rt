//! How long a run takes.

ghost use Rattle.std.specs.Prelude.{◌≡◌, ◌≤◌, ◌<◌, ◌*◌, ◌∷◌, ℕ, List, not, ◌+◌};
ghost use Rattle.wx_base.specs.Vector.{zero_slots};
ghost use Rattle.wx_base.specs.Cache.{Lines, line_of, holds_line, accessed};
ghost use Rattle.wx_base.specs.Machine.{IsMachine};
ghost use Rattle.wx_base.specs.Recurrence.{Done};
ghost use Rattle.arm_code.specs.Encoding.{IsValid, word_of};
ghost use Rattle.run_machine.specs.Judging.{most_steps};
ghost use Rattle.run_machine.specs.Walk.{IsClock, Tells, done_now};

use arm_code::Insn;
use cache_lru::Lru;
use pipe_time::{Entry, Vector, advance, windows_follow_the_past};
use wx_base::Machine;

/// What is known of the instructions that a run has executed: all on which later times depend, the time, and their
/// number.
#[derive(Drop)]
pub(crate) struct Clock {
    pub(crate) cache: Lru,
    pub(crate) pipeline: Vector,
    /// When the last is complete, in cycles.
    pub(crate) time: u64,
    pub(crate) steps: u64,
}

impl Clock {
    /// Nothing was executed.
    pub(crate) fn new(cache: Lru) -> Clock
        ensures { result ≡ record { cache = cache; pipeline = record { slots = zero_slots }; time = 0; steps = 0 } }
    {
        Clock {
            cache,
            pipeline: Vector::zero(),
            time: 0,
            steps: 0,
        }
    }

    /// Executes an instruction at an address: its fetch is an access to the cache, and the pipeline goes on.
    pub(crate) fn tick(
        &mut self,
        machine: &Machine,
        addr: u32,
        insn: &Insn,
        taken: bool,
        slow: bool,
    )
        requires machine { IsMachine machine.now }
        requires valid { IsValid insn.now }
        requires clock { IsClock machine.now self.old }
        requires few { self.old.steps < most_steps }
        ensures told { (past : List Done) (cache : Lines) → Tells machine.now past cache self.old
            → Tells machine.now (done_now machine.now past cache (word_of insn.now) addr taken slow ∷ past)
            (accessed machine.now.shape cache (line_of machine.now.shape addr)) self.new }
        ensures clock { IsClock machine.now self.new }
        ensures steps { self.new.steps ≡ self.old.steps + 1 }
    {
        windows_follow_the_past();
        let miss = self.cache.access(addr / machine.shape.line);
        let entry = Entry {
            insn: *insn,
            miss,
            slow,
            taken,
        };
        let times = advance(&mut self.pipeline, &entry, machine);
        self.time = times.c;
        self.steps += 1;
    }
}
