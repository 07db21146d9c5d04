//! The keys of a document that no description has.

ghost use Rattle.std.specs.Prelude.{◌≡◌, ◌++◌, ◌<◌, ◌⊎◌, IfErr, IfOk, OnOk, [], length, map};
ghost use Rattle.std.specs.Bool.{Decides};
ghost use Rattle.std.specs.Cmp.Lexicographic.{slice_cmp};
ghost use Rattle.std.specs.Ordering.{nat_cmp};
ghost use Rattle.std.specs.declared.cmp.Ordering.TheVariants.{Less};
ghost use Rattle.toml.specs.View.{items_view, table_view, view};
ghost use Rattle.toml.specs.Data.{table};
ghost use Rattle.machine_desc.specs.Keys.{row_of};
ghost use Rattle.machine_desc.specs.Document.{element_unknown, gathered, gathered_items, inner_unknown, unknown, unknown_in};
ghost use Rattle.machine_desc.specs.Causes.{IsLeast, IsUnknownCause};
ghost use Rattle.machine_desc.specs.declared.error.MachineError.TheVariants as refusal;

use crate::error::MachineError;
use crate::keys::{Key, Wanted, is_listed, keys, region_keys};
use crate::places::{dotted, elements, region_key};
use std::alloc::Global;
use std::cmp::Ordering;
use toml::{Table, Value};
use wx_base::{NoMemory, Text};

/// Refuses a document with a key that no description has, by the least such key.
pub(crate) fn check_known(alloc: Global, document: &Value) -> Result<(), MachineError>
    ensures known { OnOk result (unknown (view document.now) ≡ []) }
    ensures refused { IfErr result (λ e. (e ≡ refusal.NoMemory) ⊎ IsUnknownCause (unknown (view document.now)) e) }
{
    let unknown = unknown_keys(alloc, document)?;
    if unknown.is_empty() {
        return Ok(());
    }
    Err(MachineError::Unknown {
        key: take_least(unknown),
    })
}

/// The keys that no description has, as they are written in refusals.
fn unknown_keys(alloc: Global, document: &Value) -> Result<Vec<Text>, NoMemory>
    ensures { IfOk result (λ found. found.items ≡ unknown (view document.now)) }
{
    let mut unknown = Vec::new(alloc);
    note_value(alloc, &mut unknown, b"", "", keys(), document)?;
    note_tables(alloc, &mut unknown, document, keys())?;
    note_regions(alloc, &mut unknown, elements(document))?;
    Ok(unknown)
}

/// Appends the unknown keys of the tables that the document should have.
fn note_tables(
    alloc: Global,
    unknown: &mut Vec<Text>,
    document: &Value,
    keys: &[Key],
) -> Result<(), NoMemory>
    ensures { OnOk result (unknown.new.items ≡ unknown.old.items ++ gathered
        (λ key. inner_unknown (view document.now) key.name.now key.wanted) keys.now) }
{
    for key in keys {
        note_table(alloc, unknown, document, key)?;
    }
    Ok(())
}

/// Appends the unknown keys of a table that the document should have, if the key is that of a table.
fn note_table(
    alloc: Global,
    unknown: &mut Vec<Text>,
    document: &Value,
    key: &Key,
) -> Result<(), NoMemory>
    ensures { OnOk result (unknown.new.items ≡ unknown.old.items
        ++ inner_unknown (view document.now) key.now.name.now key.now.wanted) }
{
    if let Wanted::Table = key.wanted {
        if let Some(inner) = document.get(key.name) {
            note_value(alloc, unknown, key.name.as_bytes(), key.name, keys(), inner)?;
        }
    }
    Ok(())
}

/// Appends the unknown keys of the regions.
fn note_regions(alloc: Global, unknown: &mut Vec<Text>, regions: &[Value]) -> Result<(), NoMemory>
    ensures { OnOk result (unknown.new.items ≡ unknown.old.items
        ++ gathered_items element_unknown 0 (items_view regions.now)) }
{
    for (index, region) in regions.iter().enumerate() {
        note_region(alloc, unknown, index, region)?;
    }
    Ok(())
}

/// Appends the unknown keys of a region.
fn note_region(
    alloc: Global,
    unknown: &mut Vec<Text>,
    index: usize,
    region: &Value,
) -> Result<(), NoMemory>
    ensures { OnOk result (unknown.new.items ≡ unknown.old.items ++ element_unknown index (view region.now)) }
{
    let key = region_key(alloc, index)?;
    let keys = region_keys(0);
    note_value(
        alloc,
        unknown,
        key.as_bytes(),
        "region",
        keys.as_slice(),
        region,
    )?;
    Ok(())
}

/// Appends the keys of what stands where a table should be that are none of `keys`, with the prefix before each.
fn note_value(
    alloc: Global,
    unknown: &mut Vec<Text>,
    prefix: &[u8],
    name: &str,
    keys: &[Key],
    value: &Value,
) -> Result<(), NoMemory>
    ensures { OnOk result (unknown.new.items ≡ unknown.old.items
        ++ unknown_in prefix.now name.now (map row_of keys.now) (view value.now)) }
{
    if let Value::Table(members) = value {
        note_members(alloc, unknown, prefix, name, keys, members)?;
    }
    Ok(())
}

/// Appends the keys of a table that are none of `keys`, with the prefix before each.
fn note_members(
    alloc: Global,
    unknown: &mut Vec<Text>,
    prefix: &[u8],
    name: &str,
    keys: &[Key],
    members: &Table,
) -> Result<(), NoMemory>
    ensures { OnOk result (unknown.new.items ≡ unknown.old.items
        ++ unknown_in prefix.now name.now (map row_of keys.now) (table (table_view members.now))) }
{
    for (key, _) in members.iter() {
        if !is_listed(keys, name, key.as_str()) {
            unknown.push(dotted(alloc, prefix, key.as_bytes())?)?;
        }
    }
    Ok(())
}

/// Whether a key comes before another, by their bytes.
fn is_before(key: &Text, other: &Text) -> bool
    ensures { Decides result (slice_cmp nat_cmp key.now other.now ≡ Less) }
{
    matches!(key.as_bytes().cmp(&other.as_bytes()), Ordering::Less)
}

/// The least of some keys, by their bytes.
fn take_least(mut keys: Vec<Text>) -> Text
    requires { 0 < length keys.items }
    ensures { IsLeast keys.items result }
{
    let mut least = 0;
    for index in 1..keys.len() {
        if is_before(&keys[index], &keys[least]) {
            least = index;
        }
    }
    keys.swap_remove(least)
}
