//! How long an instruction takes its unit.

ghost use Rattle.std.specs.Prelude.{◌≡◌, ◌≤◌, ◌+◌};
ghost use Rattle.arm_code.specs.Encoding.{IsValid};
ghost use Rattle.wx_base.specs.Machine.{IsMachine, IsTiming, timing_of};
ghost use Rattle.wx_base.specs.Recurrence.{latency_of, occupancy_of};
ghost use Rattle.pipe_time.specs.Entries.{entry_of};

use crate::vector::Entry;
use arm_code::{UnitKind, transfers, unit};
use wx_base::{Machine, Unit};

/// The numbers of a unit.
fn timing(m: &Machine, kind: UnitKind) -> Unit
    requires machine { IsMachine m.now }
    ensures value { result ≡ timing_of m.now kind }
    ensures in_range { IsTiming result }
{
    match kind {
        UnitKind::Alu => m.alu,
        UnitKind::Mul => m.mul,
        UnitKind::Mem => m.mem,
    }
}

/// Cycles from the start of an instruction to its end.
pub fn latency(e: &Entry, m: &Machine) -> u64
    requires valid { IsValid e.now.insn }
    requires machine { IsMachine m.now }
    ensures value { result ≡ latency_of m.now (entry_of e.now) }
    ensures small { result ≤ 2015 }
{
    let taken = timing(m, unit(&e.insn));
    let slow = if e.slow { taken.slow } else { 0 };
    taken.latency + (transfers(&e.insn) - 1) + slow
}

/// Cycles from the start of an instruction to the next start on its unit.
pub fn occupancy(e: &Entry, m: &Machine) -> u64
    requires valid { IsValid e.now.insn }
    requires machine { IsMachine m.now }
    ensures value { result ≡ occupancy_of m.now (entry_of e.now) }
    ensures small { result ≤ 1015 }
{
    timing(m, unit(&e.insn)).occupancy + (transfers(&e.insn) - 1)
}
