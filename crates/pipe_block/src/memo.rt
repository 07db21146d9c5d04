ghost use Rattle.std.specs.Prelude.{◌≡◌, ◌<◌, [], length, slice_get, Some};

use crate::diagrams::Leaving;
use crate::ends::Ends;
use crate::key::MemoKey;
use indexmap::IndexMap;
use std::alloc::Global;
use std::marker::Model;

/// Answers of [`finish_at`](crate::finish_at) and [`leave_at`](crate::leave_at), kept for blocks and the places of vectors.
#[derive(Drop)]
pub struct EndMemo {
    pub(crate) kept: IndexMap<MemoKey, Ends>,
    pub(crate) made: Vec<Leaving>,
}

impl Model for EndMemo {
    ghost use Rattle.pipe_block.specs.Kept.{Memo as Kept};

    ghost Value = { Kept };

    ghost view = { λ m. record { entries = m.kept.entries; leavings = m.made.items } };
}

impl EndMemo {
    /// No kept answer. It takes no memory.
    pub fn new(alloc: Global) -> Self
        ensures { result ≡ record { entries = []; leavings = [] } }
    {
        EndMemo {
            kept: IndexMap::new(alloc),
            made: Vec::new(alloc),
        }
    }

    /// What [`leave_at`](crate::leave_at) answered with a number.
    pub fn leaving(&self, number: usize) -> &Leaving
        requires { number < length self.now.leavings }
        ensures { slice_get self.now.leavings number ≡ Some result.now }
    {
        &self.made[number]
    }
}
