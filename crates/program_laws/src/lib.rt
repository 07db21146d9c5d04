//! Laws of programs of images: each image has a program or is refused. Nothing is computed here.
#![tactic(auto)]

mod laws;

pub use laws::{first_refusal_is_one, images_are_programs_or_refused};
