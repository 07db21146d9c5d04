//! The faults of a document's keys.

ghost use Rattle.std.specs.Prelude.{◌≡◌, ◌++◌, ◌⊎◌, IfErr, IfOk, MatchOption, OnOk, Some, [], map};
ghost use Rattle.toml.specs.View.{items_view, view};
ghost use Rattle.machine_desc.specs.Keys.{region_rows, row_of};
ghost use Rattle.machine_desc.specs.Faults.{fault_in};
ghost use Rattle.machine_desc.specs.Document.{dotted, element_faults, faults, gathered, gathered_items, inner_faults, listed, row_faults};
ghost use Rattle.machine_desc.specs.Causes.{IsWorst, IsWorstAt, first_of, is_kind, is_missing, is_range, refusal_of};
ghost use Rattle.machine_desc.specs.declared.error.MachineError.TheVariants as refusal;

use crate::error::MachineError;
use crate::fault::{Fault, Faulty, fault_in, value_fault};
use crate::keys::{Key, Wanted, keys, region_keys};
use crate::places::{dotted, elements, holder, integer_in, region_key};
use std::alloc::Global;
use toml::Value;
use wx_base::NoMemory;

/// Refuses a document in which a key has a fault: the first that is missing, else the first of another kind, else the
/// first whose number lies outside its range.
pub(crate) fn check_keys(alloc: Global, document: &Value) -> Result<(), MachineError>
    ensures faultless { OnOk result (faults (view document.now) ≡ []) }
    ensures refused { IfErr result (λ e. (e ≡ refusal.NoMemory) ⊎ IsWorst (faults (view document.now)) e) }
{
    let faults = faults_of(alloc, document)?;
    refuse_worst(faults)
}

/// Refuses a key that has a fault, if there is one.
fn refuse_worst(mut faults: Vec<Faulty>) -> Result<(), MachineError>
    ensures faultless { OnOk result (faults.items ≡ []) }
    ensures refused { IfErr result (IsWorst faults.items) }
{
    match worst_place(faults.as_slice()) {
        None => Ok(()),
        Some(place) => Err(refusal_of(faults.swap_remove(place))),
    }
}

/// The place of the fault that is told.
fn worst_place(faults: &[Faulty]) -> Option<usize>
    ensures { MatchOption result (faults.now ≡ []) (λ place. IsWorstAt faults.now place) }
{
    if let Some(place) = first_missing(faults) {
        return Some(place);
    }
    if let Some(place) = first_kind(faults) {
        return Some(place);
    }
    first_range(faults)
}

/// The place of the first key that is missing.
fn first_missing(faults: &[Faulty]) -> Option<usize>
    ensures { result ≡ first_of is_missing faults.now }
{
    faults.iter().position(|faulty| faulty.fault.is_missing())
}

/// The place of the first key that holds a value of another kind.
fn first_kind(faults: &[Faulty]) -> Option<usize>
    ensures { result ≡ first_of is_kind faults.now }
{
    faults.iter().position(|faulty| faulty.fault.is_kind())
}

/// The place of the first key whose number lies outside its range.
fn first_range(faults: &[Faulty]) -> Option<usize>
    ensures { result ≡ first_of is_range faults.now }
{
    faults.iter().position(|faulty| faulty.fault.is_range())
}

/// The refusal that tells a fault.
fn refusal_of(faulty: Faulty) -> MachineError
    ensures { result ≡ refusal_of faulty }
{
    let Faulty { key, fault } = faulty;
    match fault {
        Fault::Missing => MachineError::Missing { key },
        Fault::Kind => MachineError::Kind { key },
        Fault::Range { value } => MachineError::Range { key, value },
    }
}

/// The keys that have a fault, in their order.
fn faults_of(alloc: Global, document: &Value) -> Result<Vec<Faulty>, NoMemory>
    ensures { IfOk result (λ found. found.items ≡ faults (view document.now)) }
{
    let mut faults = Vec::new(alloc);
    note_keys(alloc, &mut faults, document, keys())?;
    note_regions(alloc, &mut faults, elements(document))?;
    Ok(faults)
}

/// Appends the faults of the keys that stand in the document itself or in its tables.
fn note_keys(
    alloc: Global,
    faults: &mut Vec<Faulty>,
    document: &Value,
    keys: &[Key],
) -> Result<(), NoMemory>
    ensures { OnOk result (faults.new.items ≡ faults.old.items ++ gathered
        (λ key. row_faults (view document.now) (row_of key)) keys.now) }
{
    for key in keys {
        let fault = fault_in(key, holder(document, key.table));
        note(
            alloc,
            faults,
            key.table.as_bytes(),
            key.name.as_bytes(),
            fault,
        )?;
    }
    Ok(())
}

/// Appends the faults of the regions and of the keys inside them.
fn note_regions(alloc: Global, faults: &mut Vec<Faulty>, regions: &[Value]) -> Result<(), NoMemory>
    ensures { OnOk result (faults.new.items ≡ faults.old.items
        ++ gathered_items element_faults 0 (items_view regions.now)) }
{
    for (index, region) in regions.iter().enumerate() {
        note_region(alloc, faults, index, region)?;
    }
    Ok(())
}

/// Appends the faults of a region and of the keys inside it.
fn note_region(
    alloc: Global,
    faults: &mut Vec<Faulty>,
    index: usize,
    region: &Value,
) -> Result<(), NoMemory>
    ensures { OnOk result (faults.new.items ≡ faults.old.items ++ element_faults index (view region.now)) }
{
    let key = region_key(alloc, index)?;
    note(
        alloc,
        faults,
        b"",
        key.as_bytes(),
        value_fault(Wanted::Table, region),
    )?;
    let keys = region_keys(integer_in(region, "first"));
    note_inner(alloc, faults, key.as_bytes(), region, keys.as_slice())?;
    Ok(())
}

/// Appends the faults of the keys inside a region, whose key is given.
fn note_inner(
    alloc: Global,
    faults: &mut Vec<Faulty>,
    prefix: &[u8],
    region: &Value,
    keys: &[Key],
) -> Result<(), NoMemory>
    ensures { OnOk result (faults.new.items ≡ faults.old.items ++ gathered
        (λ key. listed (dotted prefix.now key.name.now) (fault_in (row_of key) (Some (view region.now)))) keys.now) }
{
    for key in keys {
        note(
            alloc,
            faults,
            prefix,
            key.name.as_bytes(),
            fault_in(key, Some(region)),
        )?;
    }
    Ok(())
}

/// Appends a key with its fault, if it has one.
fn note(
    alloc: Global,
    faults: &mut Vec<Faulty>,
    prefix: &[u8],
    name: &[u8],
    fault: Option<Fault>,
) -> Result<(), NoMemory>
    ensures { OnOk result (faults.new.items ≡ faults.old.items ++ listed (dotted prefix.now name.now) fault) }
{
    if let Some(fault) = fault {
        let key = dotted(alloc, prefix, name)?;
        faults.push(Faulty { key, fault })?;
    }
    Ok(())
}
