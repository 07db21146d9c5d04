//! Which lines may stand in a start text, and where.

ghost use Rattle.std.specs.Prelude.{◌≡◌, ◌==◌, ◌<◌, ◌^◌, ◌-◌, ◌+◌, ◌*◌, List, [], length, map, IfOk, IfSome, IfNone, Some, slice_get};
ghost use Rattle.std.specs.Bool.{Decides};
ghost use Rattle.std.specs.List.{slice_split};
ghost use Rattle.start_file.specs.declared.start_item.Item.{Item as ItemValue};
ghost use Rattle.start_file.specs.declared.start_item.Item.TheVariants as item;
ghost use Rattle.start_file.specs.Start.{words_of, Fits, kind_of};
ghost use Rattle.start_file.specs.StartText.{words_in, place, number_of, rank, AreAscending, MayStand, IsProper};
ghost use Rattle.start_file.specs.StartReading.{Follows};

use crate::start_item::Item;
use crate::start_lines::read_item;
use std::alloc::{AllocError, Global};
use wx_base::{Image, NoMemory, Shape};

/// What stands before, between and behind the separators of a text.
pub(crate) fn split(alloc: Global, text: &[u8], separator: u8) -> Result<Vec<&[u8]>, AllocError>
    ensures { IfOk result (λ parts. map (λ p. p.now) parts.items ≡ slice_split (λ b. b == separator) text.now) }
{
    text.split(|b| *b == separator).collect(alloc)
}

/// Where a line stands among others: by its kind, and then by its number.
#[tactic(auto, unfolding(crate::specs::StartText::place))]
fn place(item: &Item) -> u64
    ensures value { result ≡ place item.now }
    ensures small { result < 2 ^ 35 }
{
    let (rank, number) = match item {
        Item::Head => (0, 0),
        Item::Register { number, .. } => (1, *number),
        Item::Flags { .. } => (2, 0),
        Item::Fill { .. } => (3, 0),
        Item::Byte { address, .. } => (4, *address),
        Item::Set { set, .. } => (5, *set),
        Item::End => (6, 0),
    };
    (rank << 32) + u64::from(number)
}

/// Whether a line may stand behind others.
fn may_follow(items: &[Item], next: &Item) -> bool
    requires { AreAscending items.now }
    ensures { Decides result (Follows items.now next.now) }
{
    match items.last() {
        None => matches!(next, Item::Head),
        Some(last) => place(last) < place(next),
    }
}

/// Whether a line may stand in a start text for the image and a cache of the shape.
fn may_stand(image: &Image, shape: Shape, item: &Item) -> bool
    ensures { Decides result (MayStand image.now shape item.now) }
{
    match item {
        Item::Register { number, .. } => *number < 15,
        Item::Byte { address, .. } => image.byte_at(*address).is_none(),
        Item::Set { set, .. } => *set < shape.sets,
        Item::Head | Item::Flags { .. } | Item::Fill { .. } | Item::End => true,
    }
}

/// What a line says, if it may stand behind others in a start text for the image and a cache of the shape.
pub(crate) fn read_next(
    alloc: Global,
    line: &[u8],
    items: &[Item],
    image: &Image,
    shape: Shape,
) -> Result<Option<Item>, NoMemory>
    requires { AreAscending items.now }
    ensures sound { IfOk result (λ o. IfSome o (λ x. words_in line.now ≡ words_of x)) }
    ensures proper { IfOk result (λ o. IfSome o (λ x. IsProper image.now shape x)) }
    ensures follows { IfOk result (λ o. IfSome o (λ x. Follows items.now x)) }
    ensures alone { IfOk result
        (λ o. IfSome o (λ x. (other : ItemValue) → Fits other → words_of x ≡ words_of other → other ≡ x)) }
    ensures complete { (x : ItemValue) → IsProper image.now shape x → Follows items.now x → words_in line.now
        ≡ words_of x → IfOk result (λ o. o ≡ Some x) }
{
    let words = split(alloc, line, b' ')?;
    let Some(item) = read_item(alloc, words.as_slice())? else {
        return Ok(None);
    };
    if may_stand(image, shape, &item) && may_follow(items, &item) {
        Ok(Some(item))
    } else {
        Ok(None)
    }
}
