ghost use Rattle.std.specs.Prelude.{◌≡◌, ◌↔◌, IsTrue};

use crate::symbol::Symbol;
use wx_text::{List, Text};

/// A part of memory that an image fills.
#[derive(Debug, Drop)]
pub struct Segment {
    /// The first address.
    pub first: u32,
    /// How many bytes it fills, at least 1 in an image that was read.
    pub size: u64,
    /// Whether it holds code.
    pub code: bool,
    /// What it is filled with, from the first address; behind these come zeros.
    pub bytes: Text,
}

/// The segments of an image, in the order of the file's headers: contracts see the list.
pub type Segments = List<Segment>;

/// The symbols of an image, in the order of its symbol table: contracts see the list.
pub type Symbols = List<Symbol>;

/// What lies in memory before the first instruction, where that is, and the symbols.
///
/// The queries look through the segments, which are few, and take no memory.
#[derive(Debug, Drop)]
pub struct Image {
    /// The address of the first instruction.
    pub entry: u32,
    /// The parts of memory that the image fills.
    pub segments: Segments,
    /// The symbols.
    pub symbols: Symbols,
}

impl Image {
    ghost use Rattle.std.specs.Prelude.{IsSome};
    ghost use Rattle.std.specs.Option.{option_copied};
    ghost use Rattle.wx_base.specs.Image.{Covers, IsCodeAt, byte_of, segment_of, has_code, is_code_word, spans, word_of};
    ghost use Rattle.wx_base.specs.Bits.{add_words};

    // The first segment in which an address lies.
    fn segment_at(&self, addr: u32) -> Option<&Segment>
        ensures { option_copied result ≡ segment_of self.now addr }
    {
        self.segments.as_slice().iter().find(|s| s.holds(addr))
    }

    /// The byte at an address: `None` exactly where the address lies in no segment.
    pub fn byte_at(&self, addr: u32) -> Option<u8>
        ensures value { result ≡ byte_of self.now addr }
        ensures found { IsSome result ↔ Covers self.now addr }
    {
        self.segment_at(addr).map(|s| s.byte(addr))
    }

    /// The little-endian word at an address, aligned or not: `None` exactly where one of its four
    /// bytes lies in no segment. Addresses are modulo 2^32.
    #[tactic(auto, unfolding(crate::specs::Image::word_of))]
    pub fn word_at(&self, addr: u32) -> Option<u32>
        ensures value { result ≡ word_of self.now addr }
        ensures found { IsSome result ↔ (Covers self.now addr × Covers self.now (add_words addr 1)
            × Covers self.now (add_words addr 2) × Covers self.now (add_words addr 3)) }
    {
        let bytes = [
            self.byte_at(addr)?,
            self.byte_at(addr.wrapping_add(1))?,
            self.byte_at(addr.wrapping_add(2))?,
            self.byte_at(addr.wrapping_add(3))?,
        ];
        Some(u32::from_le_bytes(bytes))
    }

    /// Whether a word of code stands at an address: a multiple of 4 whose four bytes lie in segments that hold code.
    pub fn is_code_word(&self, addr: u32) -> bool
        ensures { result ≡ is_code_word self.now addr }
    {
        addr % 4 == 0
            && self.is_code(addr)
            && self.is_code(addr + 1)
            && self.is_code(addr + 2)
            && self.is_code(addr + 3)
    }

    /// Whether an address lies in a segment that holds code.
    pub fn is_code(&self, addr: u32) -> bool
        ensures value { result ≡ has_code self.now addr }
        ensures meaning { IsTrue result ↔ IsCodeAt self.now addr }
    {
        self.segments
            .as_slice()
            .iter()
            .any(|s| s.code && s.holds(addr))
    }
}

impl Segment {
    ghost use Rattle.wx_base.specs.Image.{byte_in, spans};

    // Whether an address lies in the segment.
    fn holds(&self, addr: u32) -> bool
        ensures { result ≡ spans addr self.now }
    {
        self.first <= addr && u64::from(addr - self.first) < self.size
    }

    // The byte at an address in the segment, which is not below the first.
    fn byte(&self, addr: u32) -> u8
        ensures { result ≡ byte_in self.now addr }
    {
        let index = addr.saturating_sub(self.first) as usize;
        self.bytes.as_bytes().get(index).copied().unwrap_or(0)
    }
}
