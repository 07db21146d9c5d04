ghost use Rattle.std.specs.Prelude.{◌≡◌, ◌<◌, ℕ, List, IfOk, IsTrue, IsFalse, true};
ghost use Rattle.wx_base.specs.declared.machine.Shape.{Shape as Form};
ghost use Rattle.wx_base.specs.Facts.{AreAscending};
ghost use Rattle.wx_base.specs.Machine.{IsShape};
ghost use Rattle.cache_ages.specs.Bounds.{is_one_of};
ghost use Rattle.cache_solve.specs.Systems.{IsOf};

use std::alloc::Global;
use wx_base::{NoMemory, Shape};

/// What is known of a cache at a place of a program, which only grows less exact while a solution is sought.
pub(crate) trait State: Drop {
    ghost Known: { Type 0 };

    ghost known: { Self → Known };

    ghost shape_of: { Self → Form };

    ghost lines_of: { Self → List ℕ };
    // At some lines the first is no more exact than the second.
    ghost Covers: { List ℕ → Known → Known → Type 0 };
    // At some lines what is known is in range.
    ghost IsWithin: { Form → List ℕ → Known → Type 0 };

    ghost accessed: { Form → Known → ℕ → Known };
    // What is known where runs start, or a stay begins.
    ghost start: { Form → Known };
    // What solutions are asked to be besides.
    ghost IsFair: { Form → Known → Type 0 };
    // How much less exact the state can still become.
    ghost left: { Self → ℕ };

    /// What is known where runs start, or a stay begins.
    fn first(alloc: Global, shape: Shape, lines: &[u32]) -> Result<Self, NoMemory>
        requires shape { IsShape shape }
        requires ascending { AreAscending lines.now }
        ensures of { IfOk result (IsOf known shape_of lines_of IsWithin shape lines.now) }
        ensures covers { IfOk result (λ state. Covers lines.now (known state) (start shape)) }
        ensures covered { IfOk result (λ state. Covers lines.now (start shape) (known state)) };

    /// What is known where no run comes: it is covered by whatever else is known.
    fn unreached(alloc: Global, shape: Shape, lines: &[u32]) -> Result<Self, NoMemory>
        requires shape { IsShape shape }
        requires ascending { AreAscending lines.now }
        ensures of { IfOk result (IsOf known shape_of lines_of IsWithin shape lines.now) }
        ensures least { IfOk result (λ state. (other : Known) → IsFair shape other
            → Covers lines.now other (known state)) };

    /// The same once more.
    fn copy(&self, alloc: Global) -> Result<Self, NoMemory>
        ensures { IfOk result (λ state. state ≡ self.now) };

    /// The state behind an access to a line of the list.
    fn pass(&mut self, line: u32)
        requires listed { IsTrue (is_one_of (lines_of self.old) line) }
        requires within { IsWithin (shape_of self.old) (lines_of self.old) (known self.old) }
        ensures shape { shape_of self.new ≡ shape_of self.old }
        ensures lines { lines_of self.new ≡ lines_of self.old }
        ensures within { IsWithin (shape_of self.old) (lines_of self.old) (known self.new) }
        ensures covers { Covers (lines_of self.old) (known self.new)
            (accessed (shape_of self.old) (known self.old) line) }
        ensures covered { Covers (lines_of self.old) (accessed (shape_of self.old) (known self.old) line)
            (known self.new) };

    /// Makes the state as little exact as it and the other are together; whether it changed.
    fn take_in(&mut self, other: &Self) -> bool
        requires shape { shape_of other.now ≡ shape_of self.old }
        requires lines { lines_of other.now ≡ lines_of self.old }
        requires within { IsWithin (shape_of self.old) (lines_of self.old) (known self.old) }
        requires other { IsWithin (shape_of self.old) (lines_of self.old) (known other.now) }
        ensures shape { shape_of self.new ≡ shape_of self.old }
        ensures lines { lines_of self.new ≡ lines_of self.old }
        ensures covers { Covers (lines_of self.old) (known self.new) (known other.now) }
        ensures grown { Covers (lines_of self.old) (known self.new) (known self.old) }
        ensures least { (joint : Known) → Covers (lines_of self.old) joint (known self.old)
            → Covers (lines_of self.old) joint (known other.now) → Covers (lines_of self.old) joint (known self.new) }
        ensures within { IsWithin (shape_of self.old) (lines_of self.old) (known self.new) }
        ensures changed { IsTrue result → left self.new < left self.old }
        ensures unchanged { IsFalse result → self.new ≡ self.old };

    /// How what is known is ordered, and that accesses keep the order. A law: nothing is computed.
    fn order()
        ensures same { (lines : List ℕ) (x : Known) → Covers lines x x }
        ensures joins { (lines : List ℕ) (x y z : Known) → Covers lines x y → Covers lines y z → Covers lines x z }
        ensures stays { (shape : Form) (lines : List ℕ) (x : Known) (line : ℕ) → is_one_of lines line ≡ true
            → IsWithin shape lines x → IsWithin shape lines (accessed shape x line) }
        ensures keeps { (shape : Form) (lines : List ℕ) (x y : Known) (line : ℕ) → is_one_of lines line ≡ true
            → IsWithin shape lines y → Covers lines x y
            → Covers lines (accessed shape x line) (accessed shape y line) };
}
