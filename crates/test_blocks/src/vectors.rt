//! Vectors and the pool of them.

ghost use Rattle.std.specs.Prelude.{◌^◌, IsTrue, IfOk};
ghost use Rattle.wx_base.specs.Vector.{AreWithin};

use crate::parts::pair;
use anyhow::{Result, ensure};
use pipe_time::{Vector, VectorPool};
use std::alloc::Global;

/// A vector: `zero`, or the slots that are not 0, each with its time, as `11:1,14:2`.
pub fn vector_of(text: &str) -> Result<Vector>
    ensures { IfOk result (λ vector. AreWithin (10 ^ 18) vector.slots) }
{
    let mut vector = Vector::zero();
    if text != "zero" {
        set_slots(&mut vector, text)?;
    }
    ensure!(is_small(&vector), "times are at most 10^18");
    Ok(vector)
}

fn set_slots(vector: &mut Vector, text: &str) -> Result<()> {
    for part in text.split(',') {
        let (number, time) = pair(part, ':')?;
        let number: usize = number.parse()?;
        ensure!(number < 35, "a vector has 35 slots");
        vector.slots[number] = time.parse()?;
    }
    Ok(())
}

/// Whether every slot is at most 10^18.
pub fn is_small(vector: &Vector) -> bool
    ensures { IsTrue result → AreWithin (10 ^ 18) vector.now.slots }
{
    vector
        .slots
        .iter()
        .all(|slot| *slot <= 1_000_000_000_000_000_000)
}

/// Appends a vector.
pub fn push_vector(out: &mut String, vector: &Vector) -> Result<()> {
    if *vector == Vector::zero() {
        out.push_str("zero")?;
        return Ok(());
    }
    let mut between = "";
    for (number, slot) in vector.slots.iter().enumerate() {
        let time = *slot;
        if time != 0 {
            write!(out, "{between}{number}:{time}")?;
            between = ",";
        }
    }
    Ok(())
}

/// Puts vectors into a new pool, and appends the place of each, and the vector that is got from there.
pub fn push_places(alloc: Global, out: &mut String, case: &str) -> Result<()> {
    let mut pool = VectorPool::new(alloc);
    for text in case.split(' ') {
        let vector = vector_of(text)?;
        let place = pool.intern(&vector)?;
        write!(out, " {place}=")?;
        ensure!(place < pool.len(), "there is no such place");
        push_vector(out, &pool.get(place))?;
    }
    let count = pool.len();
    write!(out, " of {count}")?;
    Ok(())
}
