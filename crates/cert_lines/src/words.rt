//! The words of lines.

ghost use Rattle.std.specs.Prelude.{◌≡◌, ◌<◌, ◌-◌, true, take, length};
ghost use Rattle.std.specs.List.{list_all};
ghost use Rattle.std.specs.Char.{is_ascii_digit};
ghost use Rattle.wx_text.specs.Cursor.{is_hex_digit};
ghost use Rattle.cert_lines.specs.Table.{is_number, is_word, begins_word};

use crate::kind::{Kind, Role};
use crate::table::name;

/// Whether the byte is a lower-case hexadecimal digit.
fn is_hex_digit(byte: u8) -> bool
    ensures { result ≡ is_hex_digit byte }
{
    matches!(byte, b'0'..=b'9' | b'a'..=b'f')
}

/// Whether all bytes are lower-case hexadecimal digits.
fn are_hex_digits(text: &[u8]) -> bool
    ensures { result ≡ list_all is_hex_digit text.now }
{
    text.iter().all(|byte| is_hex_digit(*byte))
}

/// Whether all bytes are decimal digits.
fn are_digits(text: &[u8]) -> bool
    ensures { result ≡ list_all is_ascii_digit text.now }
{
    text.iter().all(|byte| byte.is_ascii_digit())
}

/// Whether the text is one or more decimal digits.
#[tactic(auto, using(std::proofs::lemmas::Bool::Decides::nat_tests))]
fn is_number(text: &[u8]) -> bool
    ensures { result ≡ is_number text.now }
{
    !text.is_empty() && are_digits(text)
}

/// Whether the text is a word of the role.
pub(crate) fn is_word(kind: Kind, role: Role, text: &[u8]) -> bool
    ensures { result ≡ is_word kind role text.now }
{
    match role {
        Role::Name => text == name(kind),
        Role::Version => text == b"1".as_slice() || text == b"2".as_slice(),
        Role::First | Role::Last | Role::Left | Role::Right => is_number(text),
        Role::Address => text.len() == 8 && are_hex_digits(text),
        Role::Scope => text == b"run".as_slice() || is_number(text),
    }
}

/// Whether some word of the role begins with the text, where that is so of the text without its last byte. It takes one
/// look at that byte, however long the word is.
pub(crate) fn grows(kind: Kind, role: Role, text: &[u8]) -> bool
    requires some { 0 < length text.now }
    requires before { begins_word kind role (take (length text.now - 1) text.now) ≡ true }
    ensures { result ≡ begins_word kind role text.now }
{
    let last = text[text.len() - 1];
    match role {
        Role::Name => name(kind).starts_with(text),
        Role::Version => b"1".as_slice().starts_with(text) || b"2".as_slice().starts_with(text),
        Role::First | Role::Last | Role::Left | Role::Right => last.is_ascii_digit(),
        Role::Address => text.len() <= 8 && is_hex_digit(last),
        Role::Scope => b"run".as_slice().starts_with(text) || is_number_so_far(text),
    }
}

/// Whether all bytes are decimal digits, where either the first are or `run` begins so.
fn is_number_so_far(text: &[u8]) -> bool
    requires some { 0 < length text.now }
    requires before { begins_word Kind.Head Role.Scope (take (length text.now - 1) text.now) ≡ true }
    ensures { result ≡ list_all is_ascii_digit text.now }
{
    text[0].is_ascii_digit() && text[text.len() - 1].is_ascii_digit()
}
