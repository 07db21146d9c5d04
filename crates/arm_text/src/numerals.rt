//! Numbers in an instruction's text, and where a branch goes.

ghost use Rattle.std.specs.Prelude.{◌≡◌, ℕ, ℤ, ◌<◌, ◌^◌, IfSome, Some, codes, ◌++◌};
ghost use Rattle.wx_text.specs.Decimal.{decimal};
ghost use Rattle.wx_text.specs.Hexadecimal.{hex_word};
ghost use Rattle.arm_code.specs.Flows.{offset_target};
ghost use Rattle.arm_text.specs.Text.{numeral};
ghost use Rattle.arm_text.specs.Fields.{IsBranchOffset};

use crate::parts::behind;
use wx_text::{read_number, read_word};

/// The number that a text marks as one.
pub(crate) fn read_numeral(text: &[u8]) -> Option<u32>
    ensures sound { IfSome result (λ n. text.now ≡ numeral n) }
    ensures complete { (n : ℕ) → n < 2 ^ 32 → text.now ≡ numeral n → result ≡ Some n }
{
    read_number(behind(text, b"#".as_slice())?)
}

/// By how many words a branch at `addr` goes on to reach `to`, if it is a whole number.
fn words_to(addr: u32, to: u32) -> Option<i32>
    ensures sound { IfSome result (λ words. offset_target addr words ≡ to) }
    ensures complete { (words : ℤ) → IsBranchOffset words → offset_target addr words ≡ to → result ≡ Some words }
{
    let distance = to.wrapping_sub(addr).wrapping_sub(8).cast_signed();
    if distance % 4 == 0 {
        Some(distance / 4)
    } else {
        None
    }
}

/// By how many words a branch at `addr` goes on whose target a text is.
pub(crate) fn read_target(text: &[u8], addr: u32) -> Option<i32>
    ensures sound { IfSome result (λ words. text.now ≡ codes "0x" ++ hex_word (offset_target addr words)) }
    ensures complete { (words : ℤ) → IsBranchOffset words → text.now ≡ codes "0x" ++ hex_word (offset_target addr words)
        → result ≡ Some words }
{
    words_to(addr, read_word(behind(text, b"0x".as_slice())?)?)
}
