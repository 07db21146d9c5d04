//! What is known of the events of an unfolding: which fetches hit or miss each time, and which miss at most once while a
//! run stays in a scope.
#![tactic(auto)]

mod chains;
mod class;
mod events;
mod flows;
mod gather;
mod group;
mod kept;
mod laws;
mod lookup;
mod scopes;
mod sets;
mod solving;
mod tables;

pub use class::{Class, ClassTable, Classes, NodeClasses};
pub use events::classify;
pub use gather::groups_of;
pub use group::{Group, Groups};
pub use laws::{classes_are_one, groups_are_one, unfoldings_flow};
