//! The lines of a start text, read from the first on.

ghost use Rattle.std.specs.Prelude.{◌≡◌, ◌<◌, ◌-◌, List, [], length, map, IfOk, IfErr, Some, slice_get};
ghost use Rattle.std.specs.Bool.{Decides};
ghost use Rattle.start_file.specs.declared.start_item.Item.{Item as ItemValue};
ghost use Rattle.start_file.specs.declared.start_item.Item.TheVariants as item;
ghost use Rattle.start_file.specs.StartText.{IsStartText};
ghost use Rattle.start_file.specs.StartReading.{AreRead, IsLinesRefusal, IsTextRefusal};

use crate::start_error::StartError;
use crate::start_item::Item;
use crate::start_order::{read_next, split};
use std::alloc::Global;
use wx_base::{Image, Shape};

/// What the lines of a start text for the image and a cache of the shape say.
pub(crate) fn read_items(
    alloc: Global,
    bytes: &[u8],
    image: &Image,
    shape: Shape,
) -> Result<Vec<Item>, StartError>
    ensures text { IfOk result (λ items. IsStartText image.now shape bytes.now items.items) }
    ensures once { IfOk result
        (λ items. (others : List ItemValue) → IsStartText image.now shape bytes.now others → others ≡ items.items) }
    ensures refused { IfErr result (λ e. IsTextRefusal image.now shape bytes.now e) }
{
    let parts = split(alloc, bytes, b'\n')?;
    let Some((rest, lines)) = parts.split_last() else {
        return Err(StartError::Line { line: 1 });
    };
    let items = read_lines(alloc, lines, image, shape)?;
    if is_ended(rest, items.as_slice()) {
        Ok(items)
    } else {
        Err(StartError::Line {
            line: lines.len() as u64 + 1,
        })
    }
}

/// Whether the last line is the end, and nothing stands behind it.
fn is_ended(rest: &[u8], items: &[Item]) -> bool
    ensures { Decides result ((rest.now ≡ []) × (slice_get items.now (length items.now - 1) ≡ Some item.End)) }
{
    rest.is_empty() && matches!(items.last(), Some(Item::End))
}

/// What the lines say with which a start text begins.
fn read_lines(
    alloc: Global,
    lines: &[&[u8]],
    image: &Image,
    shape: Shape,
) -> Result<Vec<Item>, StartError>
    ensures read { IfOk result (λ items. AreRead image.now shape (map (λ l. l.now) lines.now) items.items) }
    ensures refused { IfErr result (λ e. IsLinesRefusal image.now shape (map (λ l. l.now) lines.now) e) }
{
    let mut items = Vec::new(alloc);
    for (index, line) in lines.iter().enumerate() {
        let Some(item) = read_next(alloc, line, items.as_slice(), image, shape)? else {
            return Err(StartError::Line {
                line: index as u64 + 1,
            });
        };
        items.push(item)?;
    }
    Ok(items)
}
