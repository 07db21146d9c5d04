ghost use Rattle.std.specs.Prelude.{◌≡◌, ◌<◌, ◌≤◌};
ghost use Rattle.std.specs.Option.{SomeIff};
ghost use Rattle.std.specs.Char.{digit_value};
ghost use Rattle.ffx_facts.specs.Values.{number, numeral};

// The number that a text is: decimal, or hexadecimal behind `0x`. `None` where it is none up to 4294967295.
pub(crate) fn read_number(text: &[u8]) -> Option<u32>
    ensures { result ≡ number text.now }
{
    if text.starts_with(b"0x") {
        read_numeral(&text[2..], 16)
    } else {
        read_numeral(text, 10)
    }
}

// The number that digits write. `None` where there is none, another byte, or where the number passes 32 bits.
fn read_numeral(digits: &[u8], radix: u32) -> Option<u32>
    requires some { 0 < radix }
    requires known { radix ≤ 16 }
    ensures { result ≡ numeral radix digits.now }
{
    if digits.is_empty() {
        return None;
    }
    let mut value: u32 = 0;
    for byte in digits {
        let digit = read_digit(*byte, radix)?;
        value = value.checked_mul(radix)?.checked_add(digit)?;
    }
    Some(value)
}

// The value of a digit in this radix.
fn read_digit(byte: u8, radix: u32) -> Option<u32>
    requires { radix ≤ 16 }
    ensures { SomeIff result (digit_value byte < radix) (digit_value byte) }
{
    let digit = match byte {
        b'0'..=b'9' => byte - b'0',
        b'a'..=b'f' => byte - b'a' + 10,
        b'A'..=b'F' => byte - b'A' + 10,
        _ => return None,
    };
    if u32::from(digit) < radix {
        Some(u32::from(digit))
    } else {
        None
    }
}
