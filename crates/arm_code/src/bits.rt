ghost use Rattle.std.specs.Prelude.{◌≡◌, ◌≤◌, ◌<◌, ◌^◌, ◌+◌, ◌-◌};
ghost use Rattle.wx_base.specs.Bits.{bits};

/// Bits `HI` to `LO` of a word, as a number.
pub fn field<const HI: u32, const LO: u32>(word: u32) -> u32
    requires order { LO ≤ HI }
    requires top { HI ≤ 31 }
    ensures value { result ≡ bits HI LO word }
    ensures small { result < 2 ^ (HI + 1 - LO) }
{
    let values = 1u64 << (HI + 1 - LO);
    (u64::from(word >> LO) % values) as u32
}
