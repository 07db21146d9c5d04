//! What a scanner of facts files keeps.

ghost use Rattle.std.specs.Prelude.{◌≤◌, length};

use crate::element::Element;
use crate::kind::Kind;
use std::collections::BTreeMap;

/// How far a file has come.
#[derive(Clone, Copy, Debug)]
pub(crate) enum Stage {
    /// Nothing was read.
    First,
    /// The XML declaration may still come.
    Ahead,
    /// The XML declaration was read.
    Declared,
    /// The root's start tag was read.
    Rooted,
}

/// In what part of a file the next byte stands.
#[derive(Clone, Copy, Debug)]
pub(crate) enum Part {
    /// Between two pieces: blanks, comments and tags.
    Between,
    /// In a word with which a piece begins.
    Word,
    /// In a comment.
    Comment {
        /// How many dashes stand right before, at most 3.
        dashes: u8,
    },
    /// In the XML declaration.
    Declaration {
        /// Whether a question mark stands right before.
        question: bool,
    },
    /// In a start tag, right behind the element's name or an attribute.
    Behind,
    /// In a start tag, behind a space that follows the element's name or an attribute.
    Gap,
    /// Behind the slash of an empty element.
    Slash,
    /// In the name of an attribute.
    Name,
    /// Behind a space that follows the name of an attribute.
    Named,
    /// Behind the equals sign of an attribute.
    Equals,
    /// In the value of an attribute.
    Value {
        /// The quote that ends the value.
        quote: u8,
    },
    /// In an end tag, behind the element's name.
    Closing,
}

/// What is known of a file after some of its bytes.
#[derive(Drop)]
pub(crate) struct Scanner<'a> {
    /// All bytes of the file.
    pub bytes: &'a [u8],
    /// How many of them were taken.
    pub place: usize,
    /// Where the word, the name or the value began that is read, or was last read.
    pub start: usize,
    /// How far the file has come.
    pub stage: Stage,
    /// The elements that were begun and not ended, the innermost last.
    pub nesting: Vec<Kind>,
    /// The elements whose start tags were read, in their order.
    pub elements: Vec<Element<'a>>,
    /// In what part of the file the next byte stands.
    pub part: Part,
    /// What the element is whose start tag is read, or was last read.
    pub kind: Kind,
    /// Where the `<` of this tag stands.
    pub at: usize,
    /// The attributes of this tag so far.
    pub attributes: BTreeMap<&'a [u8], &'a [u8]>,
    /// The name of the attribute that is read, or was last read.
    pub name: &'a [u8],
    ghost began_here: { start ≤ place },
    ghost in_file: { place ≤ length bytes.now },
}
