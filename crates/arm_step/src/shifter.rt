//! Words that are shifted on their way to an instruction. ARM Architecture Reference Manual, "Addressing Mode 1 -
//! Data-processing operands".

ghost use Rattle.std.specs.Prelude.{◌≡◌, ◌<◌, ◌/◌, ◌%◌, ◌^◌};
ghost use Rattle.wx_base.specs.Bits.{is_in, is_negative, sign_extended};
ghost use Rattle.wx_base.specs.Shifter.{shifted_left, shifted_right, sign_shifted, rotated, rotated_through, shifted_out, shifted_by, shifted, shifted_by_number, shifted_by_register, rotated_immediate};

use wx_base::Shifted;

/// The codes of the kinds of shift.
const LSL: u8 = 0;

const LSR: u8 = 1;

const ASR: u8 = 2;

const ROR: u8 = 3;

/// Whether a bit of a word is set.
pub(crate) fn is_set(word: u32, at: u8) -> bool
    requires { at < 32 }
    ensures { result ≡ is_in word at }
{
    (word >> at) % 2 == 1
}

/// Whether a bit of a double word is set.
pub(crate) fn is_set_long(word: u64, at: u8) -> bool
    requires { at < 64 }
    ensures { result ≡ is_in word at }
{
    (word >> at) % 2 == 1
}

/// Whether a word stands for a number below 0.
pub(crate) fn is_negative(word: u32) -> bool
    ensures { result ≡ is_negative word }
{
    is_set(word, 31)
}

/// A word as 64 bits, with copies of its top bit in front.
pub(crate) fn sign_extended(word: u32) -> u64
    ensures { result ≡ sign_extended word }
{
    u64::from(word)
        + if is_negative(word) {
            0xffff_ffff_0000_0000
        } else {
            0
        }
}

/// The lower word of a double word.
pub(crate) fn low_word(wide: u64) -> u32
    ensures { result ≡ wide % 2 ^ 32 }
{
    (wide % (1 << 32)) as u32
}

/// The upper word of a double word.
pub(crate) fn high_word(wide: u64) -> u32
    ensures { result ≡ wide / 2 ^ 32 }
{
    (wide >> 32) as u32
}

/// What a shift by more than 32 leaves.
fn shifted_out() -> Shifted
    ensures { result ≡ shifted_out }
{
    Shifted {
        value: 0,
        carry: false,
    }
}

/// To the left; zeros come in.
fn shifted_left(word: u32, by: u8) -> Shifted
    requires { 0 < by }
    ensures { result ≡ shifted_left word by }
{
    if by <= 32 {
        Shifted {
            value: low_word(u64::from(word) << by),
            carry: is_set(word, 32 - by),
        }
    } else {
        shifted_out()
    }
}

/// To the right; zeros come in.
fn shifted_right(word: u32, by: u8) -> Shifted
    requires { 0 < by }
    ensures { result ≡ shifted_right word by }
{
    if by <= 32 {
        Shifted {
            value: (u64::from(word) >> by) as u32,
            carry: is_set(word, by - 1),
        }
    } else {
        shifted_out()
    }
}

/// To the right; copies of the top bit come in.
fn sign_shifted(word: u32, by: u8) -> Shifted
    requires { 0 < by }
    ensures { result ≡ sign_shifted word by }
{
    let wide = sign_extended(word);
    let places = by.min(32);
    Shifted {
        value: low_word(wide >> places),
        carry: is_set_long(wide, places - 1),
    }
}

/// To the right; what leaves comes in.
fn rotated(word: u32, by: u8) -> Shifted
    ensures { result ≡ rotated word by }
{
    let value = word.rotate_right(u32::from(by));
    Shifted {
        value,
        carry: is_negative(value),
    }
}

/// To the right by one; the carry comes in.
fn rotated_through(word: u32, carry: bool) -> Shifted
    ensures { result ≡ rotated_through word carry }
{
    Shifted {
        value: word / 2 + if carry { 1 << 31 } else { 0 },
        carry: is_set(word, 0),
    }
}

/// A shift of a kind by at least one.
fn shifted_by(kind: u8, word: u32, by: u8) -> Shifted
    requires { 0 < by }
    ensures { result ≡ shifted_by kind word by }
{
    if kind == LSL {
        shifted_left(word, by)
    } else if kind == LSR {
        shifted_right(word, by)
    } else if kind == ASR {
        sign_shifted(word, by)
    } else {
        rotated(word, by)
    }
}

/// A shift of a kind by any amount; one by 0 keeps the word and the carry.
#[tactic(auto, unfolding(wx_base::specs::Shifter::shifted))]
pub(crate) fn shifted(kind: u8, word: u32, by: u8, carry: bool) -> Shifted
    ensures { result ≡ shifted kind word by carry }
{
    if by == 0 {
        Shifted { value: word, carry }
    } else {
        shifted_by(kind, word, by)
    }
}

/// A shift by the amount of five bits that an instruction has: 0 means 32 to the right, and a rotation by one through
/// the carry.
#[tactic(auto, unfolding(wx_base::specs::Shifter::shifted_by_number))]
pub(crate) fn shifted_by_number(kind: u8, word: u32, amount: u8, carry: bool) -> Shifted
    ensures { result ≡ shifted_by_number kind word amount carry }
{
    if amount == 0 && kind == ROR {
        rotated_through(word, carry)
    } else {
        let by = if amount == 0 && kind != LSL {
            32
        } else {
            amount
        };
        shifted(kind, word, by, carry)
    }
}

/// A shift by the lowest byte of a register.
pub(crate) fn shifted_by_register(kind: u8, word: u32, by: u32, carry: bool) -> Shifted
    ensures { result ≡ shifted_by_register kind word by carry }
{
    shifted(kind, word, (by % 256) as u8, carry)
}

/// Eight bits rotated right by twice the rotation, which is below 16.
pub(crate) fn rotated_immediate(value: u8, rotation: u8, carry: bool) -> Shifted
    requires { rotation < 16 }
    ensures { result ≡ rotated_immediate value rotation carry }
{
    shifted(ROR, u32::from(value), 2 * rotation, carry)
}
