//! What is wrong with single keys.

ghost use Rattle.std.specs.Prelude.{◌≡◌, option_map};
ghost use Rattle.toml.specs.View.{array_view, view};
ghost use Rattle.machine_desc.specs.Keys.{row_of};
ghost use Rattle.machine_desc.specs.Faults.{absent_fault, count_fault, fault_in, is_power_of_two, is_within, kind_fault, number_fault, value_fault};

use crate::keys::{Key, Wanted};
use toml::Value;
use toml::value::Array;
use wx_base::Text;

/// What is wrong with a key.
#[derive(Clone, Copy, Debug, PartialEq, Eq)]
pub(crate) enum Fault {
    /// It is not there.
    Missing,
    /// It holds a value of another kind.
    Kind,
    /// It holds a number outside its range, or too many elements.
    Range {
        /// The number, or how many elements.
        value: i64,
    },
}

impl Fault {
    ghost use Rattle.machine_desc.specs.Causes.{is_kind, is_missing, is_range};

    /// Whether the key is not there.
    pub(crate) fn is_missing(&self) -> bool
        ensures { result ≡ is_missing self.now }
    {
        matches!(self, Fault::Missing)
    }

    /// Whether the key holds a value of another kind.
    pub(crate) fn is_kind(&self) -> bool
        ensures { result ≡ is_kind self.now }
    {
        matches!(self, Fault::Kind)
    }

    /// Whether the key holds a number outside its range, or too many elements.
    pub(crate) fn is_range(&self) -> bool
        ensures { result ≡ is_range self.now }
    {
        matches!(self, Fault::Range { .. })
    }
}

/// A key with its fault.
#[derive(Debug, Drop)]
pub(crate) struct Faulty {
    /// The key, with dots.
    pub(crate) key: Text,
    /// What is wrong with it.
    pub(crate) fault: Fault,
}

static POWERS_OF_TWO: [i64; 11] = [1, 2, 4, 8, 16, 32, 64, 128, 256, 512, 1024];

/// Whether a number is a power of two up to 1024.
#[tactic(auto, unfolding(crate::specs::Faults::is_power_of_two))]
fn is_power_of_two(number: i64) -> bool
    ensures { result ≡ is_power_of_two number }
{
    POWERS_OF_TWO.contains(&number)
}

/// Whether a number is as wanted.
fn is_within(lowest: i64, highest: i64, power_of_two: bool, number: i64) -> bool
    ensures { result ≡ is_within lowest highest power_of_two number }
{
    lowest <= number && number <= highest && (!power_of_two || is_power_of_two(number))
}

/// The fault of a number that should be as wanted, or of what is no number.
fn number_fault(lowest: i64, highest: i64, power_of_two: bool, number: Option<i64>) -> Option<Fault>
    ensures { result ≡ number_fault lowest highest power_of_two number }
{
    match number {
        None => Some(Fault::Kind),
        Some(value) if is_within(lowest, highest, power_of_two, value) => None,
        Some(value) => Some(Fault::Range { value }),
    }
}

/// The fault of an array that should have at most so many elements.
fn count_fault(most: i64, items: &Array) -> Option<Fault>
    ensures { result ≡ count_fault most (array_view items.now) }
{
    let value = items.len() as i64;
    if value <= most {
        None
    } else {
        Some(Fault::Range { value })
    }
}

/// The fault of a value whose kind is right or not.
fn kind_fault(right: bool) -> Option<Fault>
    ensures { result ≡ kind_fault right }
{
    if right { None } else { Some(Fault::Kind) }
}

/// The fault of a value by what it should be.
pub(crate) fn value_fault(wanted: Wanted, value: &Value) -> Option<Fault>
    ensures { result ≡ value_fault wanted (view value.now) }
{
    match wanted {
        Wanted::Number {
            lowest,
            highest,
            power_of_two,
        } => number_fault(lowest, highest, power_of_two, value.as_integer()),
        Wanted::Text => kind_fault(value.is_str()),
        Wanted::Truth => kind_fault(value.is_bool()),
        Wanted::Table => kind_fault(value.is_table()),
        Wanted::Array { most } => match value.as_array() {
            Some(items) => count_fault(most, items),
            None => Some(Fault::Kind),
        },
    }
}

/// The fault of a key that is not there.
fn absent_fault(wanted: Wanted) -> Option<Fault>
    ensures { result ≡ absent_fault wanted }
{
    match wanted {
        Wanted::Table | Wanted::Array { .. } => None,
        Wanted::Number { .. } | Wanted::Text | Wanted::Truth => Some(Fault::Missing),
    }
}

/// The fault of a key, in what stands where its table should be. What is no table is not looked into.
pub(crate) fn fault_in(key: &Key, holder: Option<&Value>) -> Option<Fault>
    ensures { result ≡ fault_in (row_of key.now) (option_map (λ v. view v.now) holder.entry) }
{
    match holder {
        None => absent_fault(key.wanted),
        Some(value) if value.is_table() => match value.get(key.name) {
            None => absent_fault(key.wanted),
            Some(found) => value_fault(key.wanted, found),
        },
        Some(_) => None,
    }
}
