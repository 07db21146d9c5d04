//! The instructions that are reached, numbered in the order of their addresses.

ghost use Rattle.std.specs.List.{AllZip};
ghost use Rattle.std.specs.Prelude.{◌≡◌, ◌<◌, ◌^◌, map, Contains, All, IfOk, None};
ghost use Rattle.arm_code.specs.Encoding.{decoded};
ghost use Rattle.wx_base.specs.Facts.{AreAscending};
ghost use Rattle.graph_loops.specs.Graph.{lists_of};
ghost use Rattle.flow_graph.specs.Listing.{ArePlaces, AreRows, IsListOf, IsWordOf};

use crate::site::Site;
use arm_code::{Insn, decode};
use flow_block::place;
use graph_loops::Graph;
use std::alloc::Global;
use wx_base::NoMemory;

/// The instructions that are reached, by ascending address. Their numbers are the places in these lists.
#[derive(Drop)]
pub(crate) struct Listing {
    pub addresses: Vec<u32>,
    pub insns: Vec<Insn>,
    /// Where each leads in its function.
    pub ways: Graph,
    /// For each the numbers of the functions' entries that it may call.
    pub calls: Vec<Vec<usize>>,
}

/// The listing of sites that lead to one another alone. With n sites it takes n log n time.
pub(crate) fn list_sites(alloc: Global, sites: &[Site]) -> Result<Listing, NoMemory>
    requires ascending { AreAscending (map (λ s. s.address) sites.now) }
    requires insns { All (λ s. decoded s.word ≡ None → ⊥) sites.now }
    requires ways { All (λ s. All (λ a. Contains (map (λ t. t.address) sites.now) a) s.ways.items) sites.now }
    requires callees { All (λ s. All (λ a. Contains (map (λ t. t.address) sites.now) a) s.callees.items) sites.now }
    ensures { IfOk result (IsListOf sites.now) }
{
    let addresses = addresses(alloc, sites)?;
    let insns = insns(alloc, sites)?;
    let ways = Graph::new(alloc, way_rows(alloc, addresses.as_slice(), sites)?)?;
    let calls = call_rows(alloc, addresses.as_slice(), sites)?;
    Ok(Listing {
        addresses,
        insns,
        ways,
        calls,
    })
}

/// The addresses of sites.
fn addresses(alloc: Global, sites: &[Site]) -> Result<Vec<u32>, NoMemory>
    ensures are { IfOk result (λ a. a.items ≡ map (λ s. s.address) sites.now) }
    ensures small { IfOk result (λ a. All (λ x. x < 2 ^ 32) a.items) }
{
    let mut addresses = Vec::new(alloc);
    for site in sites {
        addresses.push(site.address)?;
    }
    Ok(addresses)
}

/// The instructions of sites, all of which have one.
fn insns(alloc: Global, sites: &[Site]) -> Result<Vec<Insn>, NoMemory>
    requires { All (λ s. decoded s.word ≡ None → ⊥) sites.now }
    ensures { IfOk result (λ insns. AllZip (λ s insn. IsWordOf s.word insn) sites.now insns.items) }
{
    let mut insns = Vec::new(alloc);
    for site in sites {
        if let Some(insn) = decode(site.word) {
            insns.push(insn)?;
        }
    }
    Ok(insns)
}

/// The numbers of the ways of each site.
fn way_rows(alloc: Global, addresses: &[u32], sites: &[Site]) -> Result<Vec<Vec<usize>>, NoMemory>
    requires ascending { AreAscending addresses.now }
    requires listed { All (λ s. All (λ a. Contains addresses.now a) s.ways.items) sites.now }
    ensures { IfOk result (λ rows. AreRows addresses.now (map (λ s. s.ways.items) sites.now) (lists_of rows.items)) }
{
    let mut rows = Vec::new(alloc);
    for site in sites {
        rows.push(places(alloc, addresses, site.ways.as_slice())?)?;
    }
    Ok(rows)
}

/// The numbers of the functions that each site may call.
fn call_rows(alloc: Global, addresses: &[u32], sites: &[Site]) -> Result<Vec<Vec<usize>>, NoMemory>
    requires ascending { AreAscending addresses.now }
    requires listed { All (λ s. All (λ a. Contains addresses.now a) s.callees.items) sites.now }
    ensures { IfOk result (λ rows. AreRows addresses.now (map (λ s. s.callees.items) sites.now) (lists_of rows.items)) }
{
    let mut rows = Vec::new(alloc);
    for site in sites {
        rows.push(places(alloc, addresses, site.callees.as_slice())?)?;
    }
    Ok(rows)
}

/// The numbers of some addresses, which are in the list.
fn places(alloc: Global, addresses: &[u32], list: &[u32]) -> Result<Vec<usize>, NoMemory>
    requires ascending { AreAscending addresses.now }
    requires listed { All (λ a. Contains addresses.now a) list.now }
    ensures { IfOk result (λ places. ArePlaces addresses.now list.now places.items) }
{
    let mut places = Vec::new(alloc);
    for address in list {
        places.push(place(addresses, *address))?;
    }
    Ok(places)
}
