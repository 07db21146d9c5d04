//! Laws of certificates and of the classes that they are judged by: each unfolding has classes, and each certificate is
//! valid or breaks a rule. Nothing is computed here.
#![tactic(auto)]

mod laws;

pub use laws::{certificates_are_valid_or_broken, unfoldings_have_classes};
