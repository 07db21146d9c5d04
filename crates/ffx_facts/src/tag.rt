//! What a scanner does within tags.

ghost use Rattle.std.specs.Prelude.{◌≡◌, ◌<◌, ◌+◌, ◌-◌, ◌++◌, ◌∷◌, [], codes, map, slice_index, slice_range, IfOk, OnOk};
ghost use Rattle.ffx_facts.specs.Machine.{behind, closing, ended_tag, ended_value, entered, equals, gap, in_name, in_value, named, read_element, slash};
ghost use Rattle.ffx_facts.specs.Pieces.{is_name_byte};
ghost use Rattle.ffx_facts.specs.Scan.{element, goes, value, view};

use crate::element::Element;
use crate::state::{Part, Scanner, Stage};
use std::alloc::AllocError;

// Whether a byte may stand in the name of an attribute.
fn is_name_byte(byte: u8) -> bool
    ensures { result ≡ is_name_byte byte }
{
    byte.is_ascii_alphanumeric() || matches!(byte, b'_' | b'-' | b'.' | b':')
}

impl<'a> Scanner<'a> {
    // A byte right behind the element's name or an attribute.
    pub(crate) fn behind(&mut self, byte: u8) -> Result<bool, AllocError>
        ensures step { IfOk result (λ alive. goes alive (view self.new) (behind (view self.old) byte)) }
        ensures bytes { self.new.bytes.now ≡ self.old.bytes.now }
        ensures place { self.new.place ≡ self.old.place }
    {
        match byte {
            b' ' => {
                self.part = Part::Gap;
                Ok(true)
            }
            b'/' => {
                self.part = Part::Slash;
                Ok(true)
            }
            b'>' => {
                self.enter()?;
                Ok(true)
            }
            _ => Ok(false),
        }
    }

    // A byte behind a space that follows the element's name or an attribute.
    pub(crate) fn gap(&mut self, byte: u8) -> Result<bool, AllocError>
        requires some { 0 < self.old.place }
        requires last { byte ≡ slice_index self.old.bytes.now (self.old.place - 1) }
        ensures step { IfOk result (λ alive. goes alive (view self.new) (gap (view self.old) byte)) }
        ensures bytes { self.new.bytes.now ≡ self.old.bytes.now }
        ensures place { self.new.place ≡ self.old.place }
    {
        if is_name_byte(byte) {
            self.begin(byte, Part::Name);
            return Ok(true);
        }
        self.behind(byte)
    }

    // A byte behind the slash of an empty element.
    pub(crate) fn slash(&mut self, byte: u8) -> Result<bool, AllocError>
        ensures step { IfOk result (λ alive. goes alive (view self.new) (slash (view self.old) byte)) }
        ensures bytes { self.new.bytes.now ≡ self.old.bytes.now }
        ensures place { self.new.place ≡ self.old.place }
    {
        if byte != b'>' {
            return Ok(false);
        }
        self.end_tag()?;
        Ok(true)
    }

    // The start tag ends, and the element's content begins.
    fn enter(&mut self) -> Result<(), AllocError>
        ensures step { OnOk result (view self.new ≡ entered (view self.old)) }
        ensures bytes { self.new.bytes.now ≡ self.old.bytes.now }
        ensures place { self.new.place ≡ self.old.place }
    {
        self.end_tag()?;
        self.nesting.push(self.kind)?;
        Ok(())
    }

    // The start tag ends.
    fn end_tag(&mut self) -> Result<(), AllocError>
        ensures step { OnOk result (view self.new ≡ ended_tag (view self.old)) }
        ensures bytes { self.new.bytes.now ≡ self.old.bytes.now }
        ensures place { self.new.place ≡ self.old.place }
    {
        let element = self.element();
        self.elements.push(element)?;
        self.stage = Stage::Rooted;
        self.part = Part::Between;
        Ok(())
    }

    // The element whose start tag was read.
    fn element(&self) -> Element<'a>
        ensures { element result ≡ read_element (view self.now) }
    {
        Element {
            kind: self.kind,
            at: self.at,
            address: self.attribute(b"address"),
            label: self.attribute(b"label"),
            offset: self.attribute(b"offset"),
            maxcount: self.attribute(b"maxcount"),
            totalcount: self.attribute(b"totalcount"),
        }
    }

    // The value of an attribute.
    fn attribute(&self, name: &[u8]) -> Option<&'a [u8]>
        ensures { value result ≡ (view self.now).attributes name.now }
    {
        self.attributes.get(name).copied()
    }

    // A byte of an attribute's name, or the one that ends it.
    pub(crate) fn name(&mut self, byte: u8) -> bool
        requires begun { self.old.start < self.old.place }
        ensures step { goes result (view self.new)
            (in_name (slice_range self.old.bytes.now self.old.start (self.old.place - 1)) (view self.old) byte) }
        ensures bytes { self.new.bytes.now ≡ self.old.bytes.now }
        ensures place { self.new.place ≡ self.old.place }
    {
        if is_name_byte(byte) {
            return true;
        }
        self.name = &self.bytes[self.start..self.place - 1];
        !self.attributes.contains_key(self.name) && self.named(byte)
    }

    // A byte behind an attribute's name.
    pub(crate) fn named(&mut self, byte: u8) -> bool
        ensures step { goes result (view self.new) (named (view self.old) byte) }
        ensures bytes { self.new.bytes.now ≡ self.old.bytes.now }
        ensures place { self.new.place ≡ self.old.place }
    {
        match byte {
            b' ' => self.part = Part::Named,
            b'=' => self.part = Part::Equals,
            _ => return false,
        }
        true
    }

    // A byte behind an attribute's equals sign.
    pub(crate) fn equals(&mut self, byte: u8) -> bool
        ensures step { goes result (view self.new) (equals (view self.old) byte) }
        ensures bytes { self.new.bytes.now ≡ self.old.bytes.now }
        ensures place { self.new.place ≡ self.old.place }
    {
        match byte {
            b' ' => {}
            b'"' | b'\'' => {
                self.start = self.place;
                self.part = Part::Value { quote: byte };
            }
            _ => return false,
        }
        true
    }

    // A byte of an attribute's value, or the quote that ends it.
    pub(crate) fn value(&mut self, byte: u8, quote: u8) -> Result<bool, AllocError>
        requires begun { self.old.start < self.old.place }
        ensures step { IfOk result
            (λ alive. goes alive (view self.new)
            (in_value (slice_range self.old.bytes.now self.old.start (self.old.place - 1)) (view self.old) quote byte)) }
        ensures bytes { self.new.bytes.now ≡ self.old.bytes.now }
        ensures place { self.new.place ≡ self.old.place }
    {
        if byte == quote {
            self.end_value()?;
            return Ok(true);
        }
        Ok(byte != b'<')
    }

    // The quote that ends an attribute's value was taken.
    fn end_value(&mut self) -> Result<(), AllocError>
        requires begun { self.old.start < self.old.place }
        ensures step { OnOk result (view self.new
            ≡ ended_value (slice_range self.old.bytes.now self.old.start (self.old.place - 1)) (view self.old)) }
        ensures bytes { self.new.bytes.now ≡ self.old.bytes.now }
        ensures place { self.new.place ≡ self.old.place }
    {
        let value = &self.bytes[self.start..self.place - 1];
        self.attributes.insert(self.name, value)?;
        self.part = Part::Behind;
        Ok(())
    }

    // A byte of an end tag behind the element's name.
    pub(crate) fn closing(&mut self, byte: u8) -> bool
        ensures step { goes result (view self.new) (closing (view self.old) byte) }
        ensures bytes { self.new.bytes.now ≡ self.old.bytes.now }
        ensures place { self.new.place ≡ self.old.place }
    {
        if byte == b'>' {
            self.nesting.pop();
            self.part = Part::Between;
        }
        matches!(byte, b' ' | b'>')
    }
}
