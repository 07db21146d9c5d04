//! From the bytes of a file to the machine.

ghost use Rattle.std.specs.Prelude.{◌≡◌, ◌⊎◌, [], IfErr, IfOk, IsErrAnd, MatchResult, OnOk, is_some, true};
ghost use Rattle.toml.specs.Data.{Members, as_table, table};
ghost use Rattle.toml.specs.View.{view};
ghost use Rattle.wx_base.specs.declared.machine.Machine.{Machine};
ghost use Rattle.wx_base.specs.Machine.{IsMachine};
ghost use Rattle.machine_desc.specs.Causes.{IsDescribed, IsDescription, IsDocumentOf, IsFirstCause, IsFirstIn, IsNoDocument, IsRefusal, Reads};
ghost use Rattle.machine_desc.specs.Document.{elements, faults};
ghost use Rattle.machine_desc.specs.Meeting.{IsLeastMeeting, NoneMeet};
ghost use Rattle.machine_desc.specs.declared.error.MachineError.{MachineError};
ghost use Rattle.machine_desc.specs.declared.error.MachineError.TheVariants as refusal;

use crate::check::check_keys;
use crate::error::MachineError;
use crate::machine::machine_of;
use crate::regions::check_apart;
use crate::unknown::check_known;
use std::alloc::Global;
use toml::Value;
use wx_base::Machine;

/// Reads the description of a machine, a TOML document, into the machine.
///
/// Bytes that describe none are refused with the first [`MachineError`] whose cause stands, in the order of the
/// variants from `Toml` on. `NoMemory` may come in place of any answer.
///
/// Linear in the bytes, up to the look-ups in tables. Regions, of which at most 64 come so far, are compared each with
/// each later one.
pub fn read_machine(alloc: Global, bytes: &[u8]) -> Result<Machine, MachineError>
    // What was read describes the machine, whose numbers lie in their ranges.
    ensures described { IfOk result (IsDescription bytes.now) }
    ensures in_range { IfOk result IsMachine }

    // What is refused has that fault, and none before it.
    ensures refused { IfErr result (IsRefusal bytes.now) }

    // Unless memory runs out, a description is read, and bytes with a fault are refused so.
    ensures read { (machine : Machine) → IsDescription bytes.now machine → MatchResult result (λ m. m ≡ machine)
        (λ e. e ≡ refusal.NoMemory) }
    ensures exact { (first : MachineError) → IsFirstCause bytes.now first → IsErrAnd result
        (λ e. (e ≡ refusal.NoMemory) ⊎ (e ≡ first)) }
{
    read_checked(alloc, bytes)
}

/// The machine that bytes describe.
fn read_checked(alloc: Global, bytes: &[u8]) -> Result<Machine, MachineError>
    ensures described { IfOk result (IsDescription bytes.now) }
    ensures in_range { IfOk result IsMachine }
    ensures refused { IfErr result (IsRefusal bytes.now) }
{
    let document = read_document(alloc, bytes)?;
    let machine = read_described(alloc, &document)?;
    Ok(machine)
}

/// The document that bytes are.
fn read_document(alloc: Global, bytes: &[u8]) -> Result<Value, MachineError>
    ensures document { IfOk result (λ document. IsDocumentOf bytes.now (view document)) }
    ensures refused { IfErr result (λ e. (e ≡ refusal.NoMemory) ⊎ ((e ≡ refusal.Toml) × IsNoDocument bytes.now)) }
{
    match toml::table_from_slice(alloc, bytes) {
        Ok(table) => Ok(Value::Table(table)),
        Err(error) => {
            if error.is_memory() {
                Err(MachineError::NoMemory)
            } else {
                Err(MachineError::Toml)
            }
        }
    }
}

/// The machine that a document describes.
fn read_described(alloc: Global, document: &Value) -> Result<Machine, MachineError>
    requires { is_some (as_table (view document.now)) ≡ true }
    ensures described { IfOk result (IsDescribed (view document.now)) }
    ensures in_range { IfOk result IsMachine }
    ensures refused { IfErr result (λ e. (e ≡ refusal.NoMemory) ⊎ IsFirstIn (view document.now) e) }
{
    check_known(alloc, document)?;
    check_keys(alloc, document)?;
    let machine = machine_of(alloc, document)?;
    check_apart(machine.regions.as_slice())?;
    Ok(machine)
}
