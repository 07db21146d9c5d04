//! Laws of certificates and their texts: each text is read or refused, in one way, and each certificate has one.
//! Nothing is computed here.
#![tactic(auto)]

mod laws;

pub use laws::{
    certificate_or_refusal_is_one, certificates_are_read_or_refused, certificates_have_texts,
};
