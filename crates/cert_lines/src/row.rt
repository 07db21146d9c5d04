use crate::kind::{Kind, Version};
use wx_text::List;

/// A line of a certificate's text.
#[derive(Debug, Drop)]
pub struct Row<'a> {
    /// What the line tells.
    pub kind: Kind,
    /// Its words, the name first.
    pub words: List<&'a [u8]>,
}

/// The lines of a certificate's text.
#[derive(Debug, Drop)]
pub struct Lines<'a> {
    /// The version, as the first line tells it.
    pub version: Version,
    /// All lines, the head first and `end` last.
    pub rows: List<Row<'a>>,
}
