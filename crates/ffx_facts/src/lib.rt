//! Reads flow facts, what a user says of a program's loops, jumps and calls, from a file of the FFX format.
#![tactic(auto)]

mod element;
mod error;
mod gather;
mod judge;
mod judge_all;
mod kind;
mod laws;
mod number;
mod read;
mod says;
mod scan;
mod scanner;
mod seen;
mod state;
mod tag;
mod word;

pub use error::FactsError;
pub use laws::{
    a_document_is_a_file, a_file_is_a_document, a_file_is_spelled, facts_are_one,
    one_answer_is_due, spelled_is_a_file,
};
pub use read::read_facts;
pub use wx_base::{Addresses, Facts, LoopFact, LoopFacts, TargetFact, TargetFacts};
