//! Laws of unfoldings: each program that was built has one, or too many nodes. Nothing is computed here.
#![tactic(auto)]

mod laws;

pub use laws::programs_are_unfolded_or_too_large;
