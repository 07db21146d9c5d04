//! Reads the description of a machine, a TOML document, into the machine.
//!
//! One table of keys (`keys`) says which keys there are, in which order they are judged, and what each has to hold.
#![tactic(auto)]

mod check;
mod error;
mod fault;
mod keys;
mod laws;
mod machine;
mod places;
mod read;
mod regions;
mod unknown;

pub use error::MachineError;
pub use laws::{descriptions_are_in_range, one_answer_is_due};
pub use read::read_machine;
pub use wx_base::{Machine, Region, Regions, Shape, Unit};
