//! A diagram at the combinations that classes allow.

ghost use Rattle.std.specs.Prelude.{◌≡◌, ℕ, ◌+◌, ◌<◌, ◌≤◌, length, IfOk};
ghost use Rattle.xdd_table.specs.Diagram.{Combination, time, Keeps};
ghost use Rattle.cert_judge.specs.Settled.{settled, settled_event};

use cache_class::Class;
use wx_base::NoMemory;
use xdd_ops::fix;
use xdd_table::{Dd, Table};

/// The diagram with an event given as its class has it, if the class leaves no choice.
fn settle_event(table: &mut Table, d: Dd, event: u32, class: &Class) -> Result<Dd, NoMemory>
    requires { d.place < length table.old }
    ensures times { IfOk result (λ r. (f : Combination)
        → time table.new f r.place ≡ time table.old (settled_event class.now event f) d.place) }
    ensures within { IfOk result (λ r. r.place < length table.new) }
    ensures kept { Keeps table.old table.new }
{
    match class {
        Class::AlwaysHit => fix(table, d, event, false),
        Class::AlwaysMiss => fix(table, d, event, true),
        Class::FirstMiss { .. } | Class::Open => Ok(d),
    }
}

/// The diagram with the events given that always hit or always miss, so that each combination is one that the classes
/// allow. Each node is looked at once for each such event.
pub fn settle(table: &mut Table, d: Dd, classes: &[Class]) -> Result<Dd, NoMemory>
    requires within { d.place < length table.old }
    requires few { length classes.now ≤ 12 }
    ensures times { IfOk result (λ r. (f : Combination)
        → time table.new f r.place ≡ time table.old (settled classes.now f) d.place) }
    ensures within { IfOk result (λ r. r.place < length table.new) }
    ensures kept { Keeps table.old table.new }
{
    let mut answer = d;
    for event in 0..classes.len() {
        answer = settle_event(table, answer, event as u32, &classes[event])?;
    }
    Ok(answer)
}
