//! What the commands share: the files that they read and write, the stages that most of them begin with, and their replies, each with a
//! status and a line, as they are handed over.
#![tactic(auto)]

mod files;
mod handing;
mod inputs;
mod reply;
mod stages;
mod status;
mod stop;
mod writing;

pub use files::{read_file, read_inputs};
pub use handing::{say, say_memory};
pub use inputs::{InputNames, InputTexts, Inputs};
pub use reply::Reply;
pub use stages::{certificate_in, entry_in, inputs_in, program_of, start_in, unfolding_of};
pub use stop::Stop;
pub use writing::write_file;
