//! The commands, a module each.

pub(crate) mod check;
pub(crate) mod flat;
pub(crate) mod migrate;
pub(crate) mod run;
mod straight;
