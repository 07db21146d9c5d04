//! The equations of the recurrence, each as a function of the slots. What they read of earlier instructions is in the
//! slots; a time of the same instruction is a parameter.

ghost use Rattle.std.specs.Prelude.{◌≡◌, ◌≤◌, ◌+◌, ◌^◌, []};
ghost use Rattle.arm_code.specs.Encoding.{IsValid};
ghost use Rattle.wx_base.specs.Machine.{IsMachine};
ghost use Rattle.wx_base.specs.Recurrence.{written, latest, resources, f_of, fe_of, d_of, x_of, c_of, unit_free, operands_ready};
ghost use Rattle.wx_base.specs.Vector.{AreWithin};
ghost use Rattle.pipe_time.specs.Entries.{entry_of};

use crate::vector::Entry;
use arm_code::{UnitKind, reads, unit};
use wx_base::Machine;

/// When the next fetch begins.
pub fn base(slots: &[u64; 35], m: &Machine) -> u64
    requires { IsMachine m.now }
    ensures { result ≡ f_of m.now slots.now [] }
{
    let fetched = slots[0].max(slots[m.width as usize]);
    let queued = slots[2 + m.queue as usize];
    fetched.max(queued.max(slots[13]))
}

/// The same, where all slots are small.
pub fn fetch(slots: &[u64; 35], m: &Machine) -> u64
    requires slots { AreWithin (2 ^ 62) slots.now }
    requires machine { IsMachine m.now }
    ensures value { result ≡ f_of m.now slots.now [] }
    ensures small { result ≤ 2 ^ 62 }
{
    base(slots, m)
}

/// When the fetch that began at `f` ends.
pub fn fetch_end(slots: &[u64; 35], e: &Entry, m: &Machine, f: u64) -> u64
    requires slots { AreWithin (2 ^ 62) slots.now }
    requires machine { IsMachine m.now }
    requires begun { f ≤ 2 ^ 62 }
    ensures value { result ≡ fe_of m.now slots.now [] (entry_of e.now) f }
    ensures small { result ≤ 2 ^ 62 + 2000 }
{
    let miss = if e.miss { m.miss } else { 0 };
    (f + m.hit + miss).max(slots[1])
}

/// When an instruction that was fetched at `fe` is decoded.
pub fn decode(slots: &[u64; 35], m: &Machine, fe: u64) -> u64
    requires slots { AreWithin (2 ^ 62) slots.now }
    requires machine { IsMachine m.now }
    requires fetched { fe ≤ 2 ^ 62 + 2000 }
    ensures value { result ≡ d_of m.now slots.now [] fe }
    ensures small { result ≤ 2 ^ 62 + 2000 }
{
    fe.max(slots[3]).max(slots[10 + m.width as usize])
}

/// When the unit of an instruction is free.
fn free(slots: &[u64; 35], kind: UnitKind, m: &Machine) -> u64
    requires slots { AreWithin (2 ^ 62) slots.now }
    ensures value { result ≡ unit_free m.now slots.now kind [] }
    ensures small { result ≤ 2 ^ 62 }
{
    match kind {
        UnitKind::Alu => slots[16],
        UnitKind::Mul => slots[17],
        UnitKind::Mem => slots[18],
    }
}

/// When the last writers of a set of resources have ended.
#[tactic(auto, unfolding(wx_base::specs::Recurrence::latest))]
fn ready(slots: &[u64; 35], set: u16) -> u64
    requires slots { AreWithin (2 ^ 62) slots.now }
    ensures value { result ≡ latest (λ r. written slots.now r []) set resources }
    ensures small { result ≤ 2 ^ 62 }
{
    let mut time = 0;
    for r in 0..16 {
        if (set >> r) % 2 == 1 {
            time = time.max(slots[19 + r]);
        }
    }
    time
}

/// When an instruction that was decoded at `d` starts on its unit.
pub fn start(slots: &[u64; 35], e: &Entry, m: &Machine, d: u64) -> u64
    requires slots { AreWithin (2 ^ 62) slots.now }
    requires valid { IsValid e.now.insn }
    requires machine { IsMachine m.now }
    requires decoded { d ≤ 2 ^ 62 + 2000 }
    ensures value { result ≡ x_of m.now slots.now [] (entry_of e.now) d }
    ensures small { result ≤ 2 ^ 62 + 2001 }
{
    let in_order = (d + 1).max(slots[11]).max(slots[10 + m.width as usize] + 1);
    let able = free(slots, unit(&e.insn), m).max(ready(slots, reads(&e.insn)));
    in_order.max(able)
}

/// When an instruction that ended at `xe` is complete.
pub fn complete(slots: &[u64; 35], m: &Machine, xe: u64) -> u64
    requires slots { AreWithin (2 ^ 62) slots.now }
    requires machine { IsMachine m.now }
    ensures value { result ≡ c_of m.now slots.now [] xe }
{
    xe.max(slots[14]).max(slots[13 + m.width as usize] + 1)
}
