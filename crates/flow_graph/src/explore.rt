//! What is reached of an image, by ways and calls.

ghost use Rattle.std.specs.Prelude.{OnOk, IfOk};
ghost use Rattle.wx_base.specs.Facts.{FactsAscend};
ghost use Rattle.flow_graph.specs.Reached.{AreFound, AreSites, IsGrownBy};

use crate::site::{Site, look};
use indexmap::IndexSet;
use std::alloc::Global;
use wx_base::{Facts, Image, NoMemory};

/// Adds those addresses where words of code stand to what is known to be reached.
fn add_code(image: &Image, addresses: &[u32], reached: &mut IndexSet<u32>) -> Result<(), NoMemory>
    ensures { OnOk result (IsGrownBy image.now addresses.now reached.old.keys reached.new.keys) }
{
    for address in addresses {
        if image.is_code_word(*address) {
            reached.insert(*address)?;
        }
    }
    Ok(())
}

/// Looks at each address that is reached, in the order in which they are found.
fn search(alloc: Global, image: &Image, facts: &Facts, start: u32) -> Result<Vec<Site>, NoMemory>
    requires { FactsAscend facts.now }
    ensures { IfOk result (λ sites. AreFound image.now facts.now start sites.items) }
{
    let mut reached = IndexSet::new(alloc);
    add_code(image, &[start], &mut reached)?;
    let mut sites = Vec::new(alloc);
    while let Some(address) = reached.get_index(sites.len()) {
        let site = look(alloc, image, facts, *address)?;
        add_code(image, site.ways.as_slice(), &mut reached)?;
        add_code(image, site.callees.as_slice(), &mut reached)?;
        sites.push(site)?;
    }
    Ok(sites)
}

/// What is reached from a start, in the order of addresses. It takes time in n log n for n addresses that are reached.
pub(crate) fn explore(
    alloc: Global,
    image: &Image,
    facts: &Facts,
    start: u32,
) -> Result<Vec<Site>, NoMemory>
    requires { FactsAscend facts.now }
    ensures { IfOk result (λ sites. AreSites image.now facts.now start sites.items) }
{
    let mut sites = search(alloc, image, facts, start)?;
    sites.sort_unstable_by_key(|site| site.address);
    Ok(sites)
}
