//! The times of a block as diagrams over its events: what the pipeline makes of a block from a vector at every
//! combination of hits and misses, what an edge hands on, and the different outcomes.
#![tactic(auto)]

mod arrival;
mod columns;
mod diagrams;
mod ending;
mod ends;
mod exits;
mod gather;
mod keeping;
mod key;
mod laws;
mod leaving;
mod memo;
mod outcome;
mod row;
mod site;
mod state;
mod timing;
mod walk;
mod walked;

pub use diagrams::{BlockExit, BlockVector, Leaving, Outcome, OutcomeList, Outcomes};
pub use exits::exit;
pub use keeping::{finish_at, leave_at};
pub use laws::{blocks_are_timed, kept_answers_stay};
pub use memo::EndMemo;
pub use outcome::outcomes;
pub use site::Site;
pub use timing::{block, finish};
