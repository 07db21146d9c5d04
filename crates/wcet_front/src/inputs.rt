//! An image, facts on it and a machine: by the names of their files, as texts, and as what these tell.

use wx_base::{Facts, Image, Machine, Text};

/// The names of three files that most commands read.
#[derive(Clone, Copy)]
pub struct InputNames<'a> {
    /// The name of the image's file.
    pub image: &'a str,
    /// The name of the facts' file.
    pub facts: &'a str,
    /// The name of the file that describes the machine.
    pub machine: &'a str,
}

/// The contents of these files.
#[derive(Drop)]
pub struct InputTexts {
    /// The image.
    pub image: Text,
    /// The facts.
    pub facts: Text,
    /// The description of the machine.
    pub machine: Text,
}

/// What they tell.
#[derive(Drop)]
pub struct Inputs {
    /// The image.
    pub image: Image,
    /// The facts on it.
    pub facts: Facts,
    /// The machine.
    pub machine: Machine,
}
