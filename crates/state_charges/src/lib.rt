//! What a miss of each group is charged: the greatest rise of a cost that such a miss makes.
#![tactic(auto)]

mod amounts;
mod answer;
mod edges;
mod events;
mod miss;
mod places;
mod subject;
mod vectors;

pub use answer::charges;
