ghost use Rattle.std.specs.Prelude.{◌≡◌, ◌≢◌, ℕ, ◌≤◌, List, Option};
ghost use Rattle.wx_host.specs.Outside.{PutGives};

/// Why a sink took nothing.
#[derive(Clone, Copy, Debug, PartialEq, Eq)]
pub enum SinkFault {
    /// The device failed or took nothing of a piece, and the sink counted a fault. Only here may the count rise.
    Failed,
    /// Want of memory.
    NoMemory,
}

/// Where the program's text goes.
///
/// Its meanings: the bytes `taken` so far, where the sink tells them, and its `faults`, a counter of 64
/// bits that never falls and stays at 2^64 - 1. A sink that is `reliable` stays so, and no call of it answers
/// [`SinkFault::Failed`].
pub trait Sink {
    ghost taken: { Self → Option (List ℕ) };

    ghost faults: { Self → ℕ };

    ghost reliable: { Self → Type 0 };

    /// Takes the first bytes of a piece, at least one if there are any, and says how many.
    fn put(&mut self, piece: &[u8]) -> Result<usize, SinkFault>
        ensures outcome { let before = faults self.old in
            PutGives (taken self.old) (taken self.new) piece.now before (faults self.new) result }
        ensures faults { faults self.old ≤ faults self.new }
        ensures reliable { reliable self.old → reliable self.new }
        ensures sound { reliable self.old → result ≢ Err SinkFault.Failed };
}
