//! What the events of a block are charged that miss.

ghost use Rattle.std.specs.Prelude.{◌≡◌, ℕ, if◌then◌else◌, length, Option, Some, IfOk, OnOk};
ghost use Rattle.std.specs.Map.{lookup};
ghost use Rattle.flow_ctx.specs.declared.scope.Scope.{Scope as ScopeOf};
ghost use Rattle.cert_rules.specs.Prices.{charge_of};
ghost use Rattle.cert_prices.specs.Keys.{AreApart, AreEventCharges, charge_in, event_charge, number_of, same_key};

use cache_class::Class;
use cert_text::Charge;
use flow_block::{Slot, SlotKind};
use flow_ctx::Scope;
use indexmap::IndexMap;
use std::alloc::Global;
use std::marker::Model;
use wx_text::NoMemory;

/// The charges of groups, by line and scope: contracts see them.
#[derive(Drop)]
pub struct ChargeTable {
    charges: IndexMap<(u32, Option<u32>), u64>,
}

impl Model for ChargeTable {
    ghost use Rattle.std.specs.Prelude.{ℕ, List, Option};

    ghost Value = { List ((ℕ × Option ℕ) × ℕ) };

    ghost view = { λ t. t.charges.entries };
}

/// The number of a scope's loop, if it is one.
fn number_of(scope: Scope) -> Option<u32>
    ensures { result ≡ number_of scope }
{
    match scope {
        Scope::Run => None,
        Scope::Loop { number } => Some(number),
    }
}

/// Puts a charge into a table.
fn insert_charge(
    table: &mut IndexMap<(u32, Option<u32>), u64>,
    charge: &Charge,
) -> Result<(), NoMemory>
    ensures { OnOk result ((key : ℕ × Option ℕ) → lookup (same_key key) table.new.entries
        ≡ (if same_key (charge.now.line, number_of charge.now.scope) key
        then Some charge.now.amount
        else lookup (same_key key) table.old.entries)) }
{
    table.insert((charge.line, number_of(charge.scope)), charge.amount)?;
    Ok(())
}

impl ChargeTable {
    /// The charges of different groups. The time is that of their number.
    pub fn new(alloc: Global, charges: &[Charge]) -> Result<ChargeTable, NoMemory>
        requires { AreApart charges.now }
        ensures { IfOk result (λ table. (line : ℕ) (scope : ScopeOf) →
            charge_in table line scope ≡ charge_of charges.now line scope) }
    {
        let mut table = IndexMap::new(alloc);
        for charge in charges {
            insert_charge(&mut table, charge)?;
        }
        Ok(ChargeTable { charges: table })
    }

    /// The charge of a group, 0 if it has none.
    fn charge(&self, line: u32, scope: Scope) -> u64
        ensures { result ≡ charge_in self.now line scope }
    {
        self.charges
            .get(&(line, number_of(scope)))
            .copied()
            .unwrap_or(0)
    }

    /// What an event of a class is charged when it misses.
    fn event_charge(&self, kind: SlotKind, class: Class) -> u64
        ensures { result ≡ event_charge (charge_in self.now) kind class }
    {
        match (kind, class) {
            (SlotKind::Fetch { line }, Class::FirstMiss { scope }) => self.charge(line, scope),
            _ => 0,
        }
    }
}

/// What each event of a block is charged when it misses, in the order of the events.
pub fn event_charges(
    alloc: Global,
    table: &ChargeTable,
    events: &[Slot],
    classes: &[Class],
) -> Result<Vec<u64>, NoMemory>
    requires { length events.now ≡ length classes.now }
    ensures { IfOk result (λ charges. AreEventCharges (charge_in table.now) events.now classes.now charges.items) }
{
    let mut charges = Vec::new(alloc);
    for number in 0..events.len() {
        charges.push(table.event_charge(events[number].kind, classes[number]))?;
    }
    Ok(charges)
}
