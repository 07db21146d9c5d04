ghost use Rattle.std.specs.Prelude.{◌≡◌, ℕ, ◌<◌, length, IfOk, IfSome};
ghost use Rattle.xdd_ops.specs.Answers.{IsAnswer, Stays, CanStill, GivesMore};

use wx_text::NoMemory;
use xdd_table::{Dd, Table};

/// What a pointwise operation makes of two times. One walk serves every operation.
pub trait Operation {
    // the operation makes the third time of the first two
    ghost gives: { Self → ℕ → ℕ → ℕ → Type 0 };

    // it has an answer for the two times
    ghost can: { Self → ℕ → ℕ → Type 0 };

    /// What it makes of the times of two leaves.
    fn of_leaves(&mut self, a: u64, b: u64) -> Result<u64, NoMemory>
        requires { can self.old a b }
        ensures gives { IfOk result (λ r. gives self.new a b r) }
        ensures stays { Stays (gives self.old) (gives self.new) }
        ensures able { CanStill (can self.old) (can self.new) }
        ensures only { GivesMore (gives self.old) (gives self.new) (λ x. x ≡ (a, b)) };

    /// The answer for two diagrams, where it shows at their roots.
    fn shortcut(&self, table: &Table, pair: (Dd, Dd)) -> Option<Dd>
        requires first { pair.0.place < length table.now }
        requires second { pair.1.place < length table.now }
        ensures { IfSome result (λ d. IsAnswer table.now (gives self.now) pair.0.place pair.1.place d.place) };
}
