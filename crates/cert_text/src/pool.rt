//! The different vectors of a certificate.

ghost use Rattle.std.specs.Prelude.{◌≡◌, ◌||◌, true, ℕ, List, map, length, IfOk, OnOk};
ghost use Rattle.cert_text.specs.Pool.{is_listed, is_of, IsPool, place_in};

use crate::certificate::{CertVector, Family};
use indexmap::IndexSet;
use std::alloc::Global;
use std::marker::Model;
use wx_text::NoMemory;

/// The slots of a vector.
pub(crate) type Slots = [u64; 35];

/// The slots of the different vectors of a certificate, sorted as lists: contracts see their list. A vector's place is found
/// by its hash.
#[derive(Drop)]
pub(crate) struct Pool<'a> {
    vectors: IndexSet<&'a Slots>,
}

impl<'a> Model for Pool<'a> {
    ghost use Rattle.std.specs.Prelude.{ℕ, List, map};
    ghost use Rattle.std.specs.List.Sorted.{IsStrictlySortedBy};
    ghost use Rattle.std.specs.Ordering.{nat_cmp};
    ghost use Rattle.std.specs.Cmp.Lexicographic.{slice_cmp};

    ghost Value = { List (List ℕ) };

    ghost view = { λ p. map (λ v. v.now) p.vectors.keys };

    ghost invariant = { λ p. IsStrictlySortedBy (slice_cmp nat_cmp) (map (λ v. v.now) p.vectors.keys) };
}

/// Adds the vectors of a node.
fn add_family<'a>(set: &mut IndexSet<&'a Slots>, family: &'a [CertVector]) -> Result<(), NoMemory>
    ensures { OnOk result ((slots : List ℕ) → is_listed slots (map (λ v. v.now) set.new.keys)
        ≡ (is_listed slots (map (λ v. v.now) set.old.keys) || is_of slots family.now)) }
{
    for vector in family {
        set.insert(&vector.slots.slots)?;
    }
    Ok(())
}

impl<'a> Pool<'a> {
    /// The different vectors of all nodes.
    pub(crate) fn new(alloc: Global, families: &'a [Family]) -> Result<Self, NoMemory>
        ensures { IfOk result (λ pool. IsPool families.now pool) }
    {
        let mut vectors = IndexSet::new(alloc);
        for family in families {
            add_family(&mut vectors, family.as_slice())?;
        }
        vectors.sort()?;
        Ok(Pool { vectors })
    }

    /// How many vectors there are.
    pub(crate) fn len(&self) -> usize
        ensures { result ≡ length self.now }
    {
        self.vectors.len()
    }

    /// The slots of the vectors.
    pub(crate) fn as_slice(&self) -> &[&'a Slots]
        ensures { map (λ v. v.now) result.now ≡ self.now }
    {
        self.vectors.as_slice()
    }

    /// The place of a vector that is one of these.
    pub(crate) fn place(&self, slots: &'a Slots) -> usize
        requires { is_listed slots.now self.now ≡ true }
        ensures { result ≡ place_in self.now slots.now }
    {
        self.vectors.get_index_of(&slots).unwrap()
    }
}
