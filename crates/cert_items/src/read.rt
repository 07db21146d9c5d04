ghost use Rattle.std.specs.Prelude.{◌≡◌, ◌≢◌, List, All, IfOk, IfErr};
ghost use Rattle.cert_lines.specs.Reading.{lines_of};
ghost use Rattle.cert_items.specs.declared.item.Item.{Item as AnItem};
ghost use Rattle.cert_items.specs.declared.items_error.ItemsError.{ItemsError as Refusal};
ghost use Rattle.cert_items.specs.declared.items_error.ItemsError.TheVariants as refusal;
ghost use Rattle.cert_items.specs.Said.{Fits};
ghost use Rattle.cert_items.specs.Faults.{AreAllItems, IsRefusal, IsRefusedFor};

use crate::counts::{Counts, counted_with};
use crate::item::Item;
use crate::items_error::ItemsError;
use crate::named::named_places;
use crate::order::is_in_order;
use crate::said::read_item;
use cert_lines::Row;
use std::alloc::Global;

/// What the lines of a certificate's text tell, one item for each. Linear in the text.
///
/// The first line with a fault is refused: `Number` where one of its numbers has a leading zero or is out of its
/// range, else `Order` where what it tells does not stand in order.
pub fn read_items(alloc: Global, rows: &[Row<'_>]) -> Result<Vec<Item>, ItemsError>
    ensures read { IfOk result (λ items. AreAllItems (lines_of rows.now) items.items) }
    ensures fits { IfOk result (λ items. All Fits items.items) }
    ensures once { (others : List AnItem) → AreAllItems (lines_of rows.now) others → IfOk result
        (λ items. items.items ≡ others) }
    ensures taken { (others : List AnItem) → AreAllItems (lines_of rows.now) others → IfErr result
        (λ e. e ≡ refusal.NoMemory) }
    ensures refused { IfErr result (λ e. IsRefusal (lines_of rows.now) e) }
    ensures due { (e : Refusal) → IsRefusal (lines_of rows.now) e → e ≢ refusal.NoMemory → IsRefusedFor result e }
{
    let marks = named_places(alloc, rows)?;
    let mut counts = Counts {
        nodes: 0,
        listed: 0,
        multipliers: 0,
    };
    let mut items = Vec::new(alloc);
    for (index, row) in rows.iter().enumerate() {
        let line = index as u64 + 1;
        let Some(item) = read_item(alloc, row)? else {
            return Err(ItemsError::Number { line });
        };
        if !is_in_order(rows, marks.as_slice(), counts, items.as_slice(), &item) {
            return Err(ItemsError::Order { line });
        }
        counts = counted_with(counts, &item);
        items.push(item)?;
    }
    Ok(items)
}
