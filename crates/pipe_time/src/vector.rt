ghost use Rattle.std.specs.Prelude.{◌≡◌};
ghost use Rattle.wx_base.specs.Vector.{zero_slots};

use arm_code::Insn;

/// What the pipeline's times depend on: 35 numbers of cycles from the start of the run.
///
/// Slot 0 is the fetch of the last instruction; 1 and 2 are the ends of fetch of the last two, the last first; 3 to 10
/// are the times of decoding of the last eight; 11 and 12 are the starts and 14 and 15 the completions of the last two;
/// 13 is the end of the last instruction if it jumped, else 0; 16, 17 and 18 are the times at which the ALU, the
/// multiplier and the memory unit are free; 19 to 33 are the ends of the last writers of r0 to r14, and 34 that of the
/// flags. Slots that the machine's width or queue does not reach are 0.
#[derive(Clone, Copy, Debug, PartialEq, Eq, Hash)]
pub struct Vector {
    pub slots: [u64; 35],
}

impl Vector {
    /// The vector of the empty pipeline.
    pub fn zero() -> Vector
        ensures { result.slots ≡ zero_slots }
    {
        Vector { slots: [0; 35] }
    }
}

/// An instruction of a run.
#[derive(Clone, Copy, Debug, PartialEq, Eq)]
pub struct Entry {
    pub insn: Insn,
    /// Its fetch missed.
    pub miss: bool,
    /// It was slow: a long multiplication, or an access to slow memory.
    pub slow: bool,
    /// It jumped.
    pub taken: bool,
}
