//! Laws of how numbers are spelled. Nothing is computed here.
#![tactic(auto)]

mod laws;

pub use laws::spellings_are_one;
