//! Operations on the diagrams of a shared table: pointwise ones, an event given, the greatest time, and the text of a
//! diagram.
#![tactic(auto)]

mod cofactors;
mod diagram_error;
mod difference;
mod given;
mod laws;
mod leaves;
mod lines;
mod memo;
mod operation;
mod pairs;
mod pointwise;
mod print;
mod read;
mod replacement;
mod steps;

pub use diagram_error::DiagramError;
pub use given::{fix, rise};
pub use laws::{a_text_stays, a_text_tells_times, one_text_a_diagram};
pub use leaves::greatest;
pub use pairs::{Pairs, zip};
pub use pointwise::{max, minus, plus};
pub use print::print_diagram;
pub use read::read_diagram;
pub use replacement::replace;
pub use steps::Steps;
