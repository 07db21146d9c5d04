//! The vectors of each node, as the lines of a text tell them.

ghost use Rattle.std.specs.Prelude.{◌≡◌, All, IfOk, map};
ghost use Rattle.cert_items.specs.Said.{Fits};
ghost use Rattle.cert_text.specs.Told.{vector_in, front_vectors, placed, family_in, families_in};

use crate::certificate::{CertVector, Family};
use cert_items::{Item, Pair, slots_of};
use pipe_time::Vector;
use std::alloc::{AllocError, Global};
use wx_text::{List, NoMemory};

/// The vector that a line of version 1 tells.
fn vector_in(item: &Item) -> Option<CertVector>
    requires { Fits item.now }
    ensures { result ≡ vector_in item.now }
{
    match item {
        Item::Vector { potential, slots } => Some(CertVector {
            potential: *potential,
            slots: Vector {
                slots: slots_of(slots.as_slice()),
            },
        }),
        _ => None,
    }
}

/// The vectors that stand at the front, version 1.
fn front_vectors(alloc: Global, items: &[Item]) -> Result<Vec<CertVector>, NoMemory>
    requires { All Fits items.now }
    ensures { IfOk result (λ vectors. vectors.items ≡ front_vectors items.now) }
{
    let mut vectors = Vec::new(alloc);
    for item in items {
        let Some(vector) = vector_in(item) else {
            return Ok(vectors);
        };
        vectors.push(vector)?;
    }
    Ok(vectors)
}

/// The vector at a place of those that are listed.
fn placed(pool: &[Vector], place: &Pair) -> CertVector
    ensures { result ≡ placed pool.now place.now }
{
    let slots = match pool.get(place.right as usize) {
        Some(vector) => *vector,
        None => Vector { slots: [0; 35] },
    };
    CertVector {
        potential: place.left,
        slots,
    }
}

/// The vectors at places of those that are listed.
fn all_placed(
    alloc: Global,
    pool: &[Vector],
    places: &[Pair],
) -> Result<Vec<CertVector>, AllocError>
    ensures { IfOk result (λ vectors. vectors.items ≡ map (placed pool.now) places.now) }
{
    places
        .iter()
        .map(|place| placed(pool, place))
        .collect(alloc)
}

/// The vectors of the node that a line tells of, if it does; those of version 1 stand behind it.
fn family_in(
    alloc: Global,
    pool: &[Vector],
    item: &Item,
    behind: &[Item],
) -> Result<Option<Family>, NoMemory>
    requires { All Fits behind.now }
    ensures { IfOk result (λ family. family ≡ family_in pool.now item.now behind.now) }
{
    match item {
        Item::Node { .. } => Ok(Some(List::new(front_vectors(alloc, behind)?))),
        Item::Places { places, .. } => Ok(Some(List::new(all_placed(
            alloc,
            pool,
            places.as_slice(),
        )?))),
        _ => Ok(None),
    }
}

/// The vectors of each node.
pub(crate) fn families(
    alloc: Global,
    pool: &[Vector],
    items: &[Item],
) -> Result<Vec<Family>, NoMemory>
    requires { All Fits items.now }
    ensures { IfOk result (λ families. families.items ≡ families_in pool.now items.now) }
{
    let mut families = Vec::new(alloc);
    for (index, item) in items.iter().enumerate() {
        if let Some(family) = family_in(alloc, pool, item, &items[index + 1..])? {
            families.push(family)?;
        }
    }
    Ok(families)
}
