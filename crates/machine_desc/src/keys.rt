//! The keys of a description, in their order.

ghost use Rattle.std.specs.Prelude.{◌≡◌, map};
ghost use Rattle.std.specs.List.{list_any};
ghost use Rattle.machine_desc.specs.Keys.{is_row, region_rows, row_of, rows};

/// What a key has to hold.
#[derive(Clone, Copy, Debug)]
pub(crate) enum Wanted {
    /// A whole number between two, both included.
    Number {
        /// The least number.
        lowest: i64,
        /// The greatest number.
        highest: i64,
        /// Whether it has to be a power of two.
        power_of_two: bool,
    },
    /// A text.
    Text,
    /// A truth value.
    Truth,
    /// A table. It may be absent: the keys inside it are then what is missing.
    Table,
    /// An array, which may be absent.
    Array {
        /// How many elements it may have.
        most: i64,
    },
}

/// A key: where it stands and what it has to hold.
#[derive(Clone, Copy, Debug)]
pub(crate) struct Key {
    /// The name of the table in which it stands; empty at the top.
    pub(crate) table: &'static str,
    /// Its name in that table.
    pub(crate) name: &'static str,
    /// What it has to hold.
    pub(crate) wanted: Wanted,
}

/// A key with what it has to hold: a table, an array, a number or a power of two.
macro_rules! key {
    ($name:literal: table) => {
        Key {
            table: "",
            name: $name,
            wanted: Wanted::Table,
        }
    };
    ($name:literal: array, $most:literal) => {
        Key {
            table: "",
            name: $name,
            wanted: Wanted::Array { most: $most },
        }
    };
    ($table:literal, $name:literal: $lowest:literal to $highest:literal) => {
        Key {
            table: $table,
            name: $name,
            wanted: Wanted::Number {
                lowest: $lowest,
                highest: $highest,
                power_of_two: false,
            },
        }
    };
    ($table:literal, $name:literal: power $lowest:literal to $highest:literal) => {
        Key {
            table: $table,
            name: $name,
            wanted: Wanted::Number {
                lowest: $lowest,
                highest: $highest,
                power_of_two: true,
            },
        }
    };
}

static KEYS: [Key; 23] = [
    key!("", "width": 1 to 2),
    key!("", "queue": 1 to 8),
    key!("", "horizon": 1 to 4095),
    key!("", "states": 1 to 64),
    key!("fetch": table),
    key!("fetch", "hit": 1 to 1000),
    key!("fetch", "miss": 0 to 1000),
    key!("cache": table),
    key!("cache", "sets": power 1 to 1024),
    key!("cache", "ways": 1 to 16),
    key!("cache", "line": power 4 to 256),
    key!("alu": table),
    key!("alu", "latency": 1 to 1000),
    key!("alu", "occupancy": 1 to 1000),
    key!("mul": table),
    key!("mul", "latency": 1 to 1000),
    key!("mul", "occupancy": 1 to 1000),
    key!("mul", "slow": 0 to 1000),
    key!("mem": table),
    key!("mem", "latency": 1 to 1000),
    key!("mem", "occupancy": 1 to 1000),
    key!("mem", "slow": 0 to 1000),
    key!("region": array, 64),
];

/// The keys in their order, but for those of the regions.
#[tactic(auto, unfolding(crate::specs::Keys::rows))]
pub(crate) fn keys() -> &'static [Key]
    ensures { map row_of result.now ≡ rows }
{
    &KEYS
}

/// The keys of a region that begins at `first`, in their order.
#[tactic(auto, unfolding(crate::specs::Keys::region_rows))]
pub(crate) fn region_keys(first: i64) -> [Key; 4]
    ensures { map row_of result ≡ region_rows first }
{
    let table = "region";
    [
        Key {
            table,
            name: "name",
            wanted: Wanted::Text,
        },
        key!("region", "first": 0 to 4294967295),
        Key {
            table,
            name: "last",
            wanted: Wanted::Number {
                lowest: first,
                highest: 4294967295,
                power_of_two: false,
            },
        },
        Key {
            table,
            name: "slow",
            wanted: Wanted::Truth,
        },
    ]
}

/// Whether a key of this name stands in the table.
pub(crate) fn is_listed(keys: &[Key], table: &str, name: &str) -> bool
    ensures { result ≡ list_any (λ key. is_row table.now name.now (row_of key)) keys.now }
{
    keys.iter()
        .any(|key| key.table == table && key.name == name)
}
