ghost use Rattle.std.specs.Prelude.{◌≡◌, ◌<◌, ℕ, List, [], length, slice_get, Some, IfOk, OnErr};
ghost use Rattle.pipe_time.specs.declared.vector.Vector.{Vector as VectorOf};
ghost use Rattle.pipe_time.specs.Pool.{Stands};

use crate::vector::Vector;
use indexmap::IndexSet;
use std::alloc::Global;
use std::marker::Model;
use wx_base::NoMemory;

/// Vectors, each kept once at a place of its own: contracts see their list. A vector is handed about by its place.
#[derive(Drop)]
pub struct VectorPool {
    vectors: IndexSet<Vector>,
}

impl Model for VectorPool {
    ghost Value = { List VectorOf };

    ghost view = { λ p. p.vectors.keys };
}

impl VectorPool {
    /// No vectors. It takes no memory.
    pub fn new(alloc: Global) -> Self
        ensures { result ≡ [] }
    {
        VectorPool {
            vectors: IndexSet::new(alloc),
        }
    }

    /// The number of vectors. No vector stands at two places.
    pub fn len(&self) -> usize
        ensures count { result ≡ length self.now }
        ensures once { (i j : ℕ) (v : VectorOf) → slice_get self.now i ≡ Some v → slice_get self.now j ≡ Some v → i ≡ j }
    {
        self.vectors.len()
    }

    /// The place of a vector, which is put last if it is not there. The only error is want of memory, and then nothing
    /// changes.
    pub fn intern(&mut self, v: &Vector) -> Result<usize, NoMemory>
        ensures place { IfOk result (λ p. Stands self.old self.new v.now p) }
        ensures unchanged { OnErr result (self.new ≡ self.old) }
    {
        let (place, _) = self.vectors.insert_full(*v)?;
        Ok(place)
    }

    /// The vector at a place.
    pub fn get(&self, place: usize) -> Vector
        requires { place < length self.now }
        ensures { slice_get self.now place ≡ Some result }
    {
        self.vectors.as_slice()[place]
    }
}
