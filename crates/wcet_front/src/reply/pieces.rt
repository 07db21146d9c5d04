//! The pieces of a reply's line. Each is appended to a text; for want of memory a part of it may have been appended.

ghost use Rattle.std.specs.Prelude.{◌≡◌, ◌++◌, OnOk};
ghost use Rattle.wx_text.specs.Decimal.{decimal, signed_decimal};
ghost use Rattle.wx_text.specs.Hexadecimal.{hex_word};
ghost use Rattle.wcet_front.specs.RefusalText.{further};

use wx_base::{NoMemory, push_number, push_word};

/// Appends a text as it stands.
pub(crate) fn push(text: &mut Vec<u8>, piece: &[u8]) -> Result<(), NoMemory>
    ensures { OnOk result (text.new.items ≡ text.old.items ++ piece.now) }
{
    text.extend_from_slice(piece)?;
    Ok(())
}

/// Appends a space and a text.
pub(crate) fn push_text_field(text: &mut Vec<u8>, field: &[u8]) -> Result<(), NoMemory>
    ensures { OnOk result (text.new.items ≡ text.old.items ++ further field.now) }
{
    push(text, b" ".as_slice())?;
    push(text, field)
}

/// Appends a space and a number in decimal.
pub(crate) fn push_number_field(text: &mut Vec<u8>, field: u64) -> Result<(), NoMemory>
    ensures { OnOk result (text.new.items ≡ text.old.items ++ further (decimal field)) }
{
    push(text, b" ".as_slice())?;
    push_number(text, i128::from(field))
}

/// Appends a space and a number in decimal, with `-` before it below 0.
pub(crate) fn push_signed_field(text: &mut Vec<u8>, field: i64) -> Result<(), NoMemory>
    ensures { OnOk result (text.new.items ≡ text.old.items ++ further (signed_decimal field)) }
{
    push(text, b" ".as_slice())?;
    push_number(text, i128::from(field))
}

/// Appends a space and a word in hexadecimal.
pub(crate) fn push_word_field(text: &mut Vec<u8>, field: u32) -> Result<(), NoMemory>
    ensures { OnOk result (text.new.items ≡ text.old.items ++ further (hex_word field)) }
{
    push(text, b" ".as_slice())?;
    push_word(text, field)
}

/// Appends a name and a number.
pub(crate) fn push_numbered(text: &mut Vec<u8>, name: &[u8], number: u64) -> Result<(), NoMemory>
    ensures { OnOk result (text.new.items ≡ text.old.items ++ (name.now ++ further (decimal number))) }
{
    push(text, name)?;
    push_number_field(text, number)
}

/// Appends a name and two numbers.
pub(crate) fn push_numbered_twice(
    text: &mut Vec<u8>,
    name: &[u8],
    first: u64,
    second: u64,
) -> Result<(), NoMemory>
    ensures { OnOk result (text.new.items ≡ text.old.items
        ++ (name.now ++ further (decimal first) ++ further (decimal second))) }
{
    push_numbered(text, name, first)?;
    push_number_field(text, second)
}

/// Appends a name and an address.
pub(crate) fn push_placed(text: &mut Vec<u8>, name: &[u8], addr: u32) -> Result<(), NoMemory>
    ensures { OnOk result (text.new.items ≡ text.old.items ++ (name.now ++ further (hex_word addr))) }
{
    push(text, name)?;
    push_word_field(text, addr)
}

/// Appends a name, an address, and a word or a further address.
pub(crate) fn push_placed_word(
    text: &mut Vec<u8>,
    name: &[u8],
    addr: u32,
    word: u32,
) -> Result<(), NoMemory>
    ensures { OnOk result (text.new.items ≡ text.old.items
        ++ (name.now ++ further (hex_word addr) ++ further (hex_word word))) }
{
    push_placed(text, name, addr)?;
    push_word_field(text, word)
}

/// Appends a name and a text.
pub(crate) fn push_named(text: &mut Vec<u8>, name: &[u8], field: &[u8]) -> Result<(), NoMemory>
    ensures { OnOk result (text.new.items ≡ text.old.items ++ (name.now ++ further field.now)) }
{
    push(text, name)?;
    push_text_field(text, field)
}
