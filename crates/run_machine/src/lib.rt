//! One run of an image on the written machine, from a given start, watched by the rules that flow facts make.
#![tactic(auto)]

mod came;
mod clock;
mod course;
mod frame;
mod look;
mod monitor;
mod report;
mod search;
mod totals;
mod walk;

pub use course::run;
pub use report::{End, Report};
pub use start_file::{Start, StartError, is_a_start, read_start};
pub use wx_base::{FactKind, Why};
