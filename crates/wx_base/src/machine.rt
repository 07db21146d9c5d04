ghost use Rattle.std.specs.Prelude.{◌≡◌};

use std::alloc::Global;
use wx_text::{List, Text};

/// The three kinds of unit that execute instructions.
#[derive(Clone, Copy, Debug, PartialEq, Eq)]
pub enum UnitKind {
    /// Data processing and branches.
    Alu,
    /// Multiplications.
    Mul,
    /// Loads and stores.
    Mem,
}

/// How long a unit takes, in cycles.
#[derive(Clone, Copy, Debug, PartialEq, Eq)]
pub struct Unit {
    /// From the start of an instruction to its end.
    pub latency: u64,
    /// From the start of an instruction to the next that the unit may start.
    pub occupancy: u64,
    /// What a slow instruction takes besides; 0 for the ALU.
    pub slow: u64,
}

/// The shape of an LRU instruction cache.
#[derive(Clone, Copy, Debug, PartialEq, Eq)]
pub struct Shape {
    /// How many sets, a power of two.
    pub sets: u32,
    /// How many lines a set can hold.
    pub ways: u32,
    /// The bytes of a line, a power of two.
    pub line: u32,
}

/// A range of addresses, first and last included.
#[derive(Debug, Drop)]
pub struct Region {
    /// What the description calls it.
    pub name: Text,
    /// Its first address.
    pub first: u32,
    /// Its last address, which belongs to it.
    pub last: u32,
    /// Whether an access to a byte of it is slow.
    pub slow: bool,
}

/// Regions in the order of the description: contracts see the list.
pub type Regions = List<Region>;

/// A written machine: its pipeline, its memory's regions and its instruction cache.
#[derive(Debug, Drop)]
pub struct Machine {
    /// How many instructions a stage holds at once, 1 or 2.
    pub width: u8,
    /// How many instructions are fetched or wait for decoding at once, 1 to 8.
    pub queue: u8,
    /// Cycles of a fetch that hits.
    pub hit: u64,
    /// Cycles that a fetch takes besides if it misses.
    pub miss: u64,
    /// The unit of data processing and branches.
    pub alu: Unit,
    /// The unit of multiplications.
    pub mul: Unit,
    /// The unit of loads and stores.
    pub mem: Unit,
    /// The regions of memory that the description names.
    pub regions: Regions,
    /// The instruction cache.
    pub shape: Shape,
    /// How many cycles past the earliest next fetch the analysis tells times apart.
    pub horizon: u64,
    /// How many vectors the analysis keeps at a node before it joins them.
    pub states: u32,
}

impl Machine {
    ghost use Rattle.wx_base.specs.Machine.{m1, IsMachine};

    /// The machine that the examples speak of, and that `flat` takes.
    pub fn m1(alloc: Global) -> Machine
        ensures value { result ≡ m1 }
        ensures in_range { IsMachine result }
    {
        Machine {
            width: 1,
            queue: 2,
            hit: 1,
            miss: 8,
            alu: Unit {
                latency: 1,
                occupancy: 1,
                slow: 0,
            },
            mul: Unit {
                latency: 3,
                occupancy: 1,
                slow: 2,
            },
            mem: Unit {
                latency: 2,
                occupancy: 1,
                slow: 6,
            },
            regions: Regions::new(Vec::new(alloc)),
            shape: Shape {
                sets: 2,
                ways: 2,
                line: 16,
            },
            horizon: 255,
            states: 8,
        }
    }
}
