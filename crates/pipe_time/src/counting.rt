//! Vectors counted from the next fetch on, and vectors that cover others.

ghost use Rattle.std.specs.Prelude.{◌≡◌, ◌↔◌, IsTrue, []};
ghost use Rattle.wx_base.specs.Blocks.{greatest_slot, base_of, cost_of, rebased};
ghost use Rattle.wx_base.specs.Machine.{IsMachine};
ghost use Rattle.wx_base.specs.Vector.{Covers};

use crate::equations::base;
use crate::vector::Vector;
use wx_base::Machine;

/// The greatest slot.
fn greatest(slots: &[u64; 35]) -> u64
    ensures { result ≡ greatest_slot slots.now }
{
    let mut greatest = 0;
    for slot in slots {
        greatest = greatest.max(*slot);
    }
    greatest
}

/// Counts a vector from the time on at which the next fetch begins, or from later where some slot lies further off than
/// the machine's horizon, and answers that time, in cycles. Slots that lie before it become 0.
pub fn rebase(v: &mut Vector, m: &Machine) -> u64
    requires { IsMachine m.now }
    ensures cost { result ≡ cost_of m.now v.old.slots }
    ensures slots { v.new.slots ≡ rebased m.now v.old.slots }
{
    let far = greatest(&v.slots).saturating_sub(m.horizon);
    let cost = base(&v.slots, m).max(far);
    for k in 0..35 {
        v.slots[k] = v.slots[k].saturating_sub(cost);
    }
    cost
}

/// Whether no slot of the second vector is greater than that of the first.
pub fn covers(a: &Vector, b: &Vector) -> bool
    ensures { IsTrue result ↔ Covers a.now.slots b.now.slots }
{
    for k in 0..35 {
        if a.slots[k] < b.slots[k] {
            return false;
        }
    }
    true
}
