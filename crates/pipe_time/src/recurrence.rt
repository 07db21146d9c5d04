ghost use Rattle.std.specs.Prelude.{◌≡◌, ℕ, ◌≤◌, ◌+◌, ◌^◌, cond, [], ◌∷◌};
ghost use Rattle.arm_code.specs.Encoding.{IsValid};
ghost use Rattle.wx_base.specs.Bits.{is_in};
ghost use Rattle.wx_base.specs.Machine.{IsMachine};
ghost use Rattle.wx_base.specs.Recurrence.{next, window, kept, same_unit, when};
ghost use Rattle.wx_base.specs.Vector.{AreWithin};
ghost use Rattle.pipe_time.specs.Entries.{entry_of};
ghost use Rattle.pipe_time.specs.Growth.{greatest_step};

use crate::equations::{complete, decode, fetch, fetch_end, start};
use crate::units::{latency, occupancy};
use crate::vector::{Entry, Vector};
use arm_code::{UnitKind, unit, writes};
use wx_base::{Machine, Times};

/// The six times of the next instruction.
#[tactic(auto, unfolding(wx_base::specs::Recurrence::next))]
fn times_of(slots: &[u64; 35], e: &Entry, m: &Machine) -> Times
    requires slots { AreWithin (2 ^ 62) slots.now }
    requires valid { IsValid e.now.insn }
    requires machine { IsMachine m.now }
    ensures value { result ≡ next m.now slots.now [] (entry_of e.now) }
    ensures small { result.x ≤ 2 ^ 62 + 2001 }
{
    let f = fetch(slots, m);
    let fe = fetch_end(slots, e, m, f);
    let d = decode(slots, m, fe);
    let x = start(slots, e, m, d);
    let xe = x + latency(e, m);
    let c = complete(slots, m, xe);
    Times { f, fe, d, x, xe, c }
}

/// A time that is kept where the machine's width or queue reaches to depth `n`, else 0.
fn kept(n: u8, reach: u8, time: u64) -> u64
    ensures { result ≡ kept n reach time }
{
    if n <= reach { time } else { 0 }
}

/// When a unit is free behind an instruction on the unit `used`, which it holds until a time.
fn freed(used: UnitKind, kind: UnitKind, until: u64, old: u64) -> u64
    ensures { result ≡ cond (same_unit used kind) until old }
{
    match (used, kind) {
        (UnitKind::Alu, UnitKind::Alu)
        | (UnitKind::Mul, UnitKind::Mul)
        | (UnitKind::Mem, UnitKind::Mem) => until,
        _ => old,
    }
}

/// When the last writer of a resource ended, behind an instruction that writes a set of them and ended at `xe`.
fn ended(set: u16, resource: u8, xe: u64, old: u64) -> u64
    requires { resource ≤ 15 }
    ensures { result ≡ cond (is_in set resource) xe old }
{
    if (set >> resource) % 2 == 1 { xe } else { old }
}

/// The slots behind an instruction with these times.
#[tactic(auto, unfolding(wx_base::specs::Recurrence::window))]
fn slots_behind(old: &[u64; 35], e: &Entry, m: &Machine, times: &Times) -> [u64; 35]
    requires valid { IsValid e.now.insn }
    requires machine { IsMachine m.now }
    requires small { times.now.x ≤ 2 ^ 62 + 2001 }
    ensures { result ≡ window m.now old.now (record { entry = entry_of e.now; times = times.now } ∷ []) }
{
    let (w, q) = (m.width, m.queue);
    let used = unit(&e.insn);
    let until = times.x + occupancy(e, m);
    let set = writes(&e.insn);
    let xe = times.xe;
    [
        times.f,
        times.fe,
        kept(2, w, old[1]),
        kept(1, q, times.d),
        kept(2, q, old[3]),
        kept(3, q, old[4]),
        kept(4, q, old[5]),
        kept(5, q, old[6]),
        kept(6, q, old[7]),
        kept(7, q, old[8]),
        kept(8, q, old[9]),
        times.x,
        kept(2, w, old[11]),
        if e.taken { xe } else { 0 },
        times.c,
        kept(2, w, old[14]),
        freed(used, UnitKind::Alu, until, old[16]),
        freed(used, UnitKind::Mul, until, old[17]),
        freed(used, UnitKind::Mem, until, old[18]),
        ended(set, 0, xe, old[19]),
        ended(set, 1, xe, old[20]),
        ended(set, 2, xe, old[21]),
        ended(set, 3, xe, old[22]),
        ended(set, 4, xe, old[23]),
        ended(set, 5, xe, old[24]),
        ended(set, 6, xe, old[25]),
        ended(set, 7, xe, old[26]),
        ended(set, 8, xe, old[27]),
        ended(set, 9, xe, old[28]),
        ended(set, 10, xe, old[29]),
        ended(set, 11, xe, old[30]),
        ended(set, 12, xe, old[31]),
        ended(set, 13, xe, old[32]),
        ended(set, 14, xe, old[33]),
        ended(set, 15, xe, old[34]),
    ]
}

/// Takes a vector over one instruction, and answers the instruction's times.
pub fn advance(v: &mut Vector, e: &Entry, m: &Machine) -> Times
    requires slots { AreWithin (2 ^ 62) v.old.slots }
    requires valid { IsValid e.now.insn }
    requires machine { IsMachine m.now }
    ensures times { result ≡ next m.now v.old.slots [] (entry_of e.now) }
    ensures slots { v.new.slots ≡ window m.now v.old.slots (record { entry = entry_of e.now; times = result } ∷ []) }
    ensures growth { (bound : ℕ) → AreWithin bound v.old.slots → AreWithin (bound + greatest_step) v.new.slots }
{
    let times = times_of(&v.slots, e, m);
    v.slots = slots_behind(&v.slots, e, m, &times);
    times
}
