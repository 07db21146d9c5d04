//! The flags of a start text, read from their word.

ghost use Rattle.std.specs.Prelude.{◌≡◌, IfSome, Some, Bool};
ghost use Rattle.wx_base.specs.declared.step.Flags.{Flags as FlagValues};
ghost use Rattle.start_file.specs.Start.{flag_digit, flag_digits};

use wx_base::Flags;

/// The flag that a digit is.
fn read_flag(digit: u8) -> Option<bool>
    ensures sound { IfSome result (λ flag. digit ≡ flag_digit flag) }
    ensures complete { (flag : Bool) → digit ≡ flag_digit flag → result ≡ Some flag }
{
    match digit {
        b'0' => Some(false),
        b'1' => Some(true),
        _ => None,
    }
}

/// The flags that four digits are.
pub(crate) fn read_flags(text: &[u8]) -> Option<Flags>
    ensures sound { IfSome result (λ flags. text.now ≡ flag_digits flags) }
    ensures complete { (flags : FlagValues) → text.now ≡ flag_digits flags → result ≡ Some flags }
{
    if text.len() != 4 {
        return None;
    }
    let n = read_flag(text[0])?;
    let z = read_flag(text[1])?;
    let c = read_flag(text[2])?;
    let v = read_flag(text[3])?;
    Some(Flags { n, z, c, v })
}
