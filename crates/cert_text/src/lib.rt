//! A certificate and its text.
#![tactic(auto)]

mod cert_error;
mod certificate;
mod laws;
mod nodes;
mod parts;
mod pool;
mod read;
mod spell;
mod write;

pub use cert_error::CertError;
pub use certificate::{CertVector, Certificate, Charge, Families, Family, TotalPrice};
pub use laws::{
    no_text_within, one_count, one_text, text_is_written, what_is_read_is_writable, written_tells,
};
pub use read::read_cert;
pub use write::{count_vectors, write_cert, write_counted};
