//! What the words of a line say, kind by kind.

ghost use Rattle.std.specs.Prelude.{◌≡◌, ◌≢◌, ℕ, ◌<◌, ◌^◌, List, map, All, Some, IfSome, IfOk};
ghost use Rattle.wx_base.specs.declared.step.Flags.{Flags as FlagValues};
ghost use Rattle.wx_text.specs.Hexadecimal.{hex_word};
ghost use Rattle.start_file.specs.declared.start_item.Item.{Item as ItemValue};
ghost use Rattle.start_file.specs.declared.start_item.Item.TheVariants as item;
ghost use Rattle.start_file.specs.declared.start_item.Kind.TheVariants as kind;
ghost use Rattle.start_file.specs.Start.{arguments, words_of, Fits, Says};

use crate::start_flags::read_flags;
use crate::start_item::{Item, Kind, LineNumbers};
use crate::start_words::{is, read_kind};
use std::alloc::Global;
use wx_base::NoMemory;
use wx_text::{read_byte, read_number, read_word};

/// What a line with these words says, `None` where it is no line of a start text.
pub(crate) fn read_item(alloc: Global, words: &[&[u8]]) -> Result<Option<Item>, NoMemory>
    ensures sound { IfOk result (λ o. IfSome o (λ x. map (λ w. w.now) words.now ≡ words_of x)) }
    ensures fits { IfOk result (λ o. IfSome o Fits) }
    ensures complete { (x : ItemValue) → Fits x → map (λ w. w.now) words.now ≡ words_of x → IfOk result
        (λ o. o ≡ Some x) }
{
    let Some((name, words)) = words.split_first() else {
        return Ok(None);
    };
    let Some(kind) = read_kind(name) else {
        return Ok(None);
    };
    read_arguments(alloc, kind, words)
}

/// What a line of the kind says by its further words.
fn read_arguments(alloc: Global, kind: Kind, words: &[&[u8]]) -> Result<Option<Item>, NoMemory>
    ensures sound { IfOk result (λ o. IfSome o (λ x. Says kind (map (λ w. w.now) words.now) x)) }
    ensures fits { IfOk result (λ o. IfSome o Fits) }
    ensures complete { (x : ItemValue) → Fits x → Says kind (map (λ w. w.now) words.now) x → IfOk result
        (λ o. o ≡ Some x) }
{
    match kind {
        Kind::Head => Ok(read_head(words)),
        Kind::Register => Ok(read_register(words)),
        Kind::Flags => Ok(read_flag_line(words)),
        Kind::Fill => Ok(read_fill(words)),
        Kind::Byte => Ok(read_byte_line(words)),
        Kind::Set => read_set(alloc, words),
        Kind::End => Ok(read_end(words)),
    }
}

fn read_head(words: &[&[u8]]) -> Option<Item>
    ensures sound { IfSome result (λ x. (x ≡ item.Head) × (map (λ w. w.now) words.now ≡ arguments item.Head)) }
    ensures complete { map (λ w. w.now) words.now ≡ arguments item.Head → result ≡ Some item.Head }
{
    let [version] = words else {
        return None;
    };
    if is(version, b"1".as_slice()) {
        Some(Item::Head)
    } else {
        None
    }
}

fn read_end(words: &[&[u8]]) -> Option<Item>
    ensures sound { IfSome result (λ x. (x ≡ item.End) × (map (λ w. w.now) words.now ≡ arguments item.End)) }
    ensures complete { map (λ w. w.now) words.now ≡ arguments item.End → result ≡ Some item.End }
{
    if words.is_empty() {
        Some(Item::End)
    } else {
        None
    }
}

fn read_register(words: &[&[u8]]) -> Option<Item>
    ensures sound { IfSome result (λ x. Says kind.Register (map (λ w. w.now) words.now) x) }
    ensures fits { IfSome result Fits }
    ensures complete { (number value : ℕ) → number < 2 ^ 32 → value < 2 ^ 32 → map (λ w. w.now) words.now
        ≡ arguments (item.Register number value) → result ≡ Some (item.Register number value) }
{
    let [number, value] = words else {
        return None;
    };
    let number = read_number(number)?;
    let value = read_word(value)?;
    Some(Item::Register { number, value })
}

fn read_flag_line(words: &[&[u8]]) -> Option<Item>
    ensures sound { IfSome result (λ x. Says kind.Flags (map (λ w. w.now) words.now) x) }
    ensures fits { IfSome result Fits }
    ensures complete { (flags : FlagValues) → map (λ w. w.now) words.now ≡ arguments (item.Flags flags) → result
        ≡ Some (item.Flags flags) }
{
    let [digits] = words else {
        return None;
    };
    let flags = read_flags(digits)?;
    Some(Item::Flags { flags })
}

fn read_fill(words: &[&[u8]]) -> Option<Item>
    ensures sound { IfSome result (λ x. Says kind.Fill (map (λ w. w.now) words.now) x) }
    ensures fits { IfSome result Fits }
    ensures complete { (byte : ℕ) → byte < 2 ^ 8 → map (λ w. w.now) words.now ≡ arguments (item.Fill byte) → result
        ≡ Some (item.Fill byte) }
{
    let [byte] = words else {
        return None;
    };
    let byte = read_byte(byte)?;
    Some(Item::Fill { byte })
}

fn read_byte_line(words: &[&[u8]]) -> Option<Item>
    ensures sound { IfSome result (λ x. Says kind.Byte (map (λ w. w.now) words.now) x) }
    ensures fits { IfSome result Fits }
    ensures complete { (address byte : ℕ) → address < 2 ^ 32 → byte < 2 ^ 8 → map (λ w. w.now) words.now
        ≡ arguments (item.Byte address byte) → result ≡ Some (item.Byte address byte) }
{
    let [address, byte] = words else {
        return None;
    };
    let address = read_word(address)?;
    let byte = read_byte(byte)?;
    Some(Item::Byte { address, byte })
}

fn read_set(alloc: Global, words: &[&[u8]]) -> Result<Option<Item>, NoMemory>
    ensures sound { IfOk result (λ o. IfSome o (λ x. Says kind.Set (map (λ w. w.now) words.now) x)) }
    ensures fits { IfOk result (λ o. IfSome o Fits) }
    ensures complete { (set : ℕ) (lines : List ℕ) → set < 2 ^ 32 → All (λ l. l < 2 ^ 32) lines → map
        (λ w. w.now) words.now ≡ arguments (item.Set set lines) → IfOk result (λ o. o ≡ Some (item.Set set lines)) }
{
    let Some((set, words)) = words.split_first() else {
        return Ok(None);
    };
    let Some(set) = read_number(set) else {
        return Ok(None);
    };
    let Some(lines) = read_line_numbers(alloc, words)? else {
        return Ok(None);
    };
    Ok(Some(Item::Set { set, lines }))
}

fn read_line_numbers(alloc: Global, words: &[&[u8]]) -> Result<Option<LineNumbers>, NoMemory>
    ensures sound { IfOk result (λ o. IfSome o (λ lines. map (λ w. w.now) words.now ≡ map hex_word lines)) }
    ensures fits { IfOk result (λ o. IfSome o (λ lines. All (λ l. l < 2 ^ 32) lines)) }
    ensures complete { (lines : List ℕ) → All (λ l. l < 2 ^ 32) lines → map (λ w. w.now) words.now ≡ map hex_word lines
        → IfOk result (λ o. o ≡ Some lines) }
{
    let mut list = Vec::new(alloc);
    for word in words {
        let Some(line) = read_word(word) else {
            return Ok(None);
        };
        list.push(line)?;
    }
    Ok(Some(LineNumbers::new(list)))
}
