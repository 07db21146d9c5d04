ghost use Rattle.std.specs.Prelude.{◌<◌, length, IfOk, OnOk};
ghost use Rattle.indexmap.specs.IndexMap.{get};
ghost use Rattle.xdd_ops.specs.Given.{IsGreatestDifference, AreDifferences, same_places};

use crate::cofactors::{Expansion, expand};
use indexmap::IndexMap;
use wx_text::NoMemory;
use xdd_table::{Dd, Table};

/// By how much the first time passes the second at most, at one combination. Each pair of places is looked at once, and
/// `known` keeps what was found for it.
pub fn greatest_difference(
    table: &Table,
    a: Dd,
    b: Dd,
    known: &mut IndexMap<(usize, usize), u64>,
) -> Result<u64, NoMemory>
    requires first { a.place < length table.now }
    requires second { b.place < length table.now }
    requires memo { AreDifferences table.now (get same_places known.old) }
    ensures greatest { IfOk result (λ n. IsGreatestDifference table.now a.place b.place n) }
    ensures memo { OnOk result (AreDifferences table.now (get same_places known.new)) }
{
    match expand(table, (a, b)) {
        Expansion::Leaves(t, u) => Ok(t.saturating_sub(u)),
        Expansion::Branches(split) => {
            let places = (a.place, b.place);
            if let Some(most) = known.get(&places) {
                return Ok(*most);
            }
            let hit = greatest_difference(table, split.hits.0, split.hits.1, known)?;
            let missed = greatest_difference(table, split.misses.0, split.misses.1, known)?;
            let most = hit.max(missed);
            known.insert(places, most)?;
            Ok(most)
        }
    }
}
