//! The machine that the keys of a description tell.

ghost use Rattle.std.specs.Prelude.{◌≡◌, ◌≤◌, IfOk, [], is_some, true};
ghost use Rattle.toml.specs.Data.{as_table};
ghost use Rattle.toml.specs.View.{items_view, view};
ghost use Rattle.machine_desc.specs.Document.{faults};
ghost use Rattle.machine_desc.specs.Values.{HasWords, HaveWords, integer_at, machine_of, natural, natural_in, number_at, region_of, regions_of, text_in, timing_at, truth_in};

use crate::places::{elements, holder, integer_in};
use std::alloc::Global;
use toml::Value;
use wx_base::{Machine, NoMemory, Region, Regions, Shape, Text, Unit};

/// The machine of a document in which no key has a fault.
pub(crate) fn machine_of(alloc: Global, document: &Value) -> Result<Machine, NoMemory>
    requires table { is_some (as_table (view document.now)) ≡ true }
    requires faultless { faults (view document.now) ≡ [] }
    ensures { IfOk result (λ machine. machine ≡ machine_of (view document.now)) }
{
    let regions = regions_of(alloc, elements(document))?;
    Ok(Machine {
        width: number_at(document, "", "width") as u8,
        queue: number_at(document, "", "queue") as u8,
        hit: number_at(document, "fetch", "hit"),
        miss: number_at(document, "fetch", "miss"),
        alu: unit_of(document, "alu", 0),
        mul: unit_of(document, "mul", number_at(document, "mul", "slow")),
        mem: unit_of(document, "mem", number_at(document, "mem", "slow")),
        regions: Regions::new(regions),
        shape: Shape {
            sets: number_at(document, "cache", "sets") as u32,
            ways: number_at(document, "cache", "ways") as u32,
            line: number_at(document, "cache", "line") as u32,
        },
        horizon: number_at(document, "", "horizon"),
        states: number_at(document, "", "states") as u32,
    })
}

/// The numbers of a unit, with what a slow instruction takes besides.
fn unit_of(document: &Value, table: &str, slow: u64) -> Unit
    ensures { result ≡ timing_at (view document.now) table.now slow }
{
    Unit {
        latency: number_at(document, table, "latency"),
        occupancy: number_at(document, table, "occupancy"),
        slow,
    }
}

/// The regions in their order.
fn regions_of(alloc: Global, elements: &[Value]) -> Result<Vec<Region>, NoMemory>
    requires { HaveWords (items_view elements.now) }
    ensures { IfOk result (λ regions. regions.items ≡ regions_of (items_view elements.now)) }
{
    let mut regions = Vec::new(alloc);
    for element in elements {
        regions.push(region_of(alloc, element)?)?;
    }
    Ok(regions)
}

/// A region.
fn region_of(alloc: Global, element: &Value) -> Result<Region, NoMemory>
    requires { HasWords (view element.now) }
    ensures { IfOk result (λ region. region ≡ region_of (view element.now)) }
{
    Ok(Region {
        name: text_in(alloc, element, "name")?,
        first: natural_in(element, "first") as u32,
        last: natural_in(element, "last") as u32,
        slow: truth_in(element, "slow"),
    })
}

/// The number of a key; 0 where it holds none.
fn number_at(document: &Value, table: &str, name: &str) -> u64
    ensures { result ≡ number_at (view document.now) table.now name.now }
{
    match holder(document, table) {
        Some(holder) => natural_in(holder, name),
        None => 0,
    }
}

/// The number at a name of a table; 0 where there is none.
fn natural_in(holder: &Value, name: &str) -> u64
    ensures { result ≡ natural_in name.now (view holder.now) }
{
    natural(integer_in(holder, name))
}

/// A whole number as a natural one; 0 below 0.
fn natural(number: i64) -> u64
    ensures { result ≡ natural number }
{
    if number < 0 { 0 } else { number as u64 }
}

/// The text at a name of a table; empty where there is none.
fn text_in(alloc: Global, holder: &Value, name: &str) -> Result<Text, NoMemory>
    ensures { IfOk result (λ text. text ≡ text_in name.now (view holder.now)) }
{
    let text = match holder.get(name) {
        Some(value) => value.as_str().unwrap_or(""),
        None => "",
    };
    Ok(Text::new(Vec::from_slice(alloc, text.as_bytes())?))
}

/// The truth value at a name of a table; false where there is none.
fn truth_in(holder: &Value, name: &str) -> bool
    ensures { result ≡ truth_in name.now (view holder.now) }
{
    match holder.get(name) {
        Some(value) => value.as_bool().unwrap_or(false),
        None => false,
    }
}
