ghost use Rattle.std.specs.Prelude.{◌≡◌, ◌+◌, ◌<◌, ◌≤◌, ◌^◌, length, IsTrue, ◌↔◌, is_some, if◌then◌else◌, nat_eq, true, take, IsSome, IfSome};
ghost use Rattle.std.specs.Char.{is_ascii_digit, digit_value};
ghost use Rattle.std.specs.List.{starts_with, AllPass};
ghost use Rattle.std.specs.Option.{SomeIff};
ghost use Rattle.std.specs.Str.Parse.{digits_value};
ghost use Rattle.wx_text.specs.Cursor.{Reading, rest, stepped, leading_digits, number_at, hex_at, is_hex_digit};

use std::marker::Model;

/// A place in a text that is read from its front to its back. It takes no memory.
#[derive(Drop)]
pub struct Cursor<'a> {
    bytes: &'a [u8],
    place: usize,
}

impl<'a> Model for Cursor<'a> {
    ghost Value = { Reading };

    ghost view = { λ c. record { bytes = c.bytes.now; place = c.place } };

    ghost invariant = { λ c. c.place ≤ length c.bytes.now };
}

impl<'a> Cursor<'a> {
    /// A cursor at the first byte of `bytes`.
    pub fn new(bytes: &'a [u8]) -> Self
        ensures bytes { result.bytes ≡ bytes.now }
        ensures place { result.place ≡ 0 }
    {
        Cursor { bytes, place: 0 }
    }

    /// How many bytes lie behind the cursor.
    pub fn place(&self) -> usize
        ensures place { result ≡ self.now.place }
        ensures within { result ≤ length self.now.bytes }
    {
        self.place
    }

    /// Whether the whole text lies behind the cursor.
    pub fn at_end(&self) -> bool
        ensures { IsTrue result ↔ (self.now.place ≡ length self.now.bytes) }
    {
        self.place == self.bytes.len()
    }

    /// Reads the longest run of decimal digits that stands here, leading zeros among them.
    ///
    /// `None`, and the place stays, where no digit stands here or the number passes 64 bits.
    pub fn number(&mut self) -> Option<u64>
        ensures value { result ≡ number_at (rest self.old) }
        ensures after { self.new ≡ (if is_some result then stepped self.old (length (leading_digits (rest self.old))) else self.old) }
    {
        let here = &self.bytes[self.place..];
        let run = digit_count(here);
        if run == 0 {
            return None;
        }
        let value = decimal_value(&here[..run])?;
        self.place += run;
        Some(value)
    }

    /// Reads eight lower-case hexadecimal digits, the highest first.
    ///
    /// `None`, and the place stays, where these do not stand here.
    pub fn hex(&mut self) -> Option<u32>
        ensures value { result ≡ hex_at (rest self.old) }
        ensures after { self.new ≡ (if is_some result then stepped self.old 8 else self.old) }
    {
        let value = hex_word(&self.bytes[self.place..])?;
        self.place += 8;
        Some(value)
    }

    /// Passes `text` if it stands here, and else stays.
    pub fn expect(&mut self, text: &[u8]) -> bool
        ensures found { result ≡ starts_with nat_eq (rest self.old) text.now }
        ensures after { self.new ≡ (if result then stepped self.old (length text.now) else self.old) }
    {
        let found = self.bytes[self.place..].starts_with(text);
        if found {
            self.place += text.len();
        }
        found
    }
}

/// How many digits stand at the front of `bytes`.
fn digit_count(bytes: &[u8]) -> usize
    ensures count { result ≡ length (leading_digits bytes.now) }
    ensures within { result ≤ length bytes.now }
    ensures digits { AllPass is_ascii_digit (take result bytes.now) }
{
    bytes.iter().take_while(|b| b.is_ascii_digit()).count()
}

/// The number that the digits write, unless it passes 64 bits.
fn decimal_value(digits: &[u8]) -> Option<u64>
    requires { AllPass is_ascii_digit digits.now }
    ensures { SomeIff result (digits_value 10 digits.now < 2 ^ 64) (digits_value 10 digits.now) }
{
    let mut value: u64 = 0;
    for digit in digits {
        value = value
            .checked_mul(10)?
            .checked_add(u64::from(*digit - b'0'))?;
    }
    Some(value)
}

/// The number that the first eight bytes write, if they are lower-case hexadecimal digits.
fn hex_word(bytes: &[u8]) -> Option<u32>
    ensures value { result ≡ hex_at bytes.now }
    ensures room { IsSome result → 8 ≤ length bytes.now }
{
    if bytes.len() < 8 {
        return None;
    }
    hex_number(&bytes[..8])
}

/// The number that eight lower-case hexadecimal digits write, `None` where one of these bytes is none.
fn hex_number(digits: &[u8]) -> Option<u32>
    requires { length digits.now ≡ 8 }
    ensures { SomeIff result (AllPass is_hex_digit digits.now) (digits_value 16 digits.now) }
{
    let mut value: u32 = 0;
    for digit in digits {
        value = value * 16 + hex_digit(*digit)?;
    }
    Some(value)
}

/// The value of a lower-case hexadecimal digit.
fn hex_digit(byte: u8) -> Option<u32>
    ensures value { SomeIff result (is_hex_digit byte ≡ true) (digit_value byte) }
    ensures small { IfSome result (λ d. d < 16) }
{
    match byte {
        b'0'..=b'9' => Some(u32::from(byte - b'0')),
        b'a'..=b'f' => Some(u32::from(byte - b'a') + 10),
        _ => None,
    }
}
