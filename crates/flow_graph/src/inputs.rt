use wx_base::{Facts, Image, Machine};

/// What a program is made from.
#[derive(Clone, Copy)]
pub(crate) struct Inputs<'a> {
    pub image: &'a Image,
    pub facts: &'a Facts,
    /// Where runs start.
    pub start: u32,
    pub machine: &'a Machine,
}
