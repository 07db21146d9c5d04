//! Laws of the texts that runs start from: each text is read or refused, and in one way. Nothing is computed here.
#![tactic(auto)]

mod laws;

pub use laws::{start_or_refusal_is_one, starts_are_read_or_refused};
