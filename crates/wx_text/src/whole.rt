//! Numbers that are a whole text, each with the one spelling that it is written in.

ghost use Rattle.std.specs.Prelude.{◌≡◌, ℕ, ◌<◌, ◌^◌, IfSome, Some};
ghost use Rattle.std.specs.Option.{SomeIff};
ghost use Rattle.std.specs.Str.Parse.{IsNumeral, digits_value};
ghost use Rattle.wx_text.specs.Decimal.{decimal};
ghost use Rattle.wx_text.specs.Hexadecimal.{hex_digit, hex_byte, hex_word};

use crate::cursor::Cursor;

/// The number that a text of digits is, unless it passes 64 bits.
fn read_digits(text: &[u8]) -> Option<u64>
    ensures { SomeIff result (IsNumeral 10 text.now × (digits_value 10 text.now < 2 ^ 64)) (digits_value 10 text.now) }
{
    let mut cursor = Cursor::new(text);
    let value = cursor.number()?;
    if cursor.at_end() { Some(value) } else { None }
}

/// The number of 64 bits that a text is in decimal, without leading zeros. `None` exactly for each other text.
pub fn read_decimal(text: &[u8]) -> Option<u64>
    ensures sound { IfSome result (λ n. text.now ≡ decimal n) }
    ensures complete { (n : ℕ) → n < 2 ^ 64 → text.now ≡ decimal n → result ≡ Some n }
    ensures small { IfSome result (λ n. n < 2 ^ 64) }
{
    if text.len() > 1 && text[0] == b'0' {
        return None;
    }
    read_digits(text)
}

/// The number of 32 bits that a text is in decimal, without leading zeros. `None` exactly for each other text.
pub fn read_number(text: &[u8]) -> Option<u32>
    ensures sound { IfSome result (λ n. text.now ≡ decimal n) }
    ensures complete { (n : ℕ) → n < 2 ^ 32 → text.now ≡ decimal n → result ≡ Some n }
    ensures small { IfSome result (λ n. n < 2 ^ 32) }
{
    u32::try_from(read_decimal(text)?).ok()
}

/// The word that a text is as eight lower-case hexadecimal digits. `None` exactly for each other text.
pub fn read_word(text: &[u8]) -> Option<u32>
    ensures sound { IfSome result (λ word. text.now ≡ hex_word word) }
    ensures complete { (word : ℕ) → word < 2 ^ 32 → text.now ≡ hex_word word → result ≡ Some word }
    ensures small { IfSome result (λ word. word < 2 ^ 32) }
{
    let mut cursor = Cursor::new(text);
    let word = cursor.hex()?;
    if cursor.at_end() { Some(word) } else { None }
}

/// The value of a lower-case hexadecimal digit.
fn read_hex_digit(byte: u8) -> Option<u8>
    ensures sound { IfSome result (λ d. byte ≡ hex_digit d) }
    ensures small { IfSome result (λ d. d < 16) }
    ensures complete { (d : ℕ) → d < 16 → byte ≡ hex_digit d → result ≡ Some d }
{
    match byte {
        b'0'..=b'9' => Some(byte - b'0'),
        b'a'..=b'f' => Some(byte - b'a' + 10),
        _ => None,
    }
}

/// The byte that a text is as two lower-case hexadecimal digits. `None` exactly for each other text.
#[tactic(auto, unfolding(crate::specs::Hexadecimal::hex_byte))]
pub fn read_byte(text: &[u8]) -> Option<u8>
    ensures sound { IfSome result (λ byte. text.now ≡ hex_byte byte) }
    ensures complete { (byte : ℕ) → byte < 2 ^ 8 → text.now ≡ hex_byte byte → result ≡ Some byte }
    ensures small { IfSome result (λ byte. byte < 2 ^ 8) }
{
    if text.len() != 2 {
        return None;
    }
    let high = read_hex_digit(text[0])?;
    let low = read_hex_digit(text[1])?;
    Some(high * 16 + low)
}
