//! A reader that takes the bytes of a text of lines one after another.

ghost use Rattle.std.specs.Prelude.{◌≡◌, ◌∷◌, ◌++◌, ℕ, ◌<◌, ◌≤◌, ◌+◌, [], true, length, map, slice_index, slice_range, IfOk, OnOk, Some};
ghost use Rattle.cert_lines.specs.Table.{part_of, next, begins_word};
ghost use Rattle.cert_lines.specs.Grammar.{version_of, version_behind};
ghost use Rattle.cert_lines.specs.Machine.{start, step, is_whole, opened, allowed, lettered, behind_word};
ghost use Rattle.cert_lines.specs.Reading.{lines_of, line_of, state_at, view, IsReady, IsReadyAt, Goes};

use crate::kind::{Kind, Role, Version};
use crate::row::{Lines, Row};
use crate::table::{may_end, next, opened, separator};
use crate::words::{grows, is_word};
use std::alloc::{AllocError, Global};
use std::mem;
use wx_text::List;

/// Where in a text the next byte stands.
#[derive(Clone, Copy, Debug)]
pub(crate) enum Place {
    /// At the begin of a line.
    Between {
        /// The kind of the line before, if there is one.
        last: Option<Kind>,
    },
    /// In a word of a line.
    Within {
        /// The line's kind.
        kind: Kind,
        /// What the word is.
        role: Role,
        /// Where the word begins.
        start: usize,
    },
}

/// What is known of a text after some of its bytes.
#[derive(Drop)]
pub(crate) struct Reader<'a> {
    /// All bytes of the text.
    pub bytes: &'a [u8],
    /// The version, as far as it is known.
    pub version: Version,
    /// The lines that were read.
    pub rows: Vec<Row<'a>>,
    /// The words that were read of the line in which the next byte stands.
    pub words: Vec<&'a [u8]>,
    /// Where the next byte stands.
    pub place: Place,
}

/// The version behind a line with these words.
fn version_behind(version: Version, kind: Kind, words: &[&[u8]]) -> Version
    ensures { result ≡ version_behind version kind (map (λ w. w.now) words.now) }
{
    if !matches!(kind, Kind::Head) {
        return version;
    }
    let [_, word] = words else {
        return Version::One;
    };
    if *word == b"2".as_slice() {
        Version::Two
    } else {
        Version::One
    }
}

impl<'a> Reader<'a> {
    /// A reader that has taken nothing.
    pub(crate) fn new(alloc: Global, bytes: &'a [u8]) -> Reader<'a>
        ensures state { view result 0 ≡ start }
        ensures bytes { result.bytes.now ≡ bytes.now }
        ensures ready { IsReady result 0 }
    {
        Reader {
            bytes,
            version: Version::One,
            rows: Vec::new(alloc),
            words: Vec::new(alloc),
            place: Place::Between { last: None },
        }
    }

    /// Takes the byte behind the first `at`; says whether a text can begin so.
    pub(crate) fn take(&mut self, at: usize) -> Result<bool, AllocError>
        requires more { at < length self.old.bytes.now }
        requires ready { IsReady self.old at }
        ensures step { IfOk result (λ alive. Goes alive (view self.new (at + 1))
            (step (view self.old at) (slice_index self.old.bytes.now at))) }
        ensures ready { IfOk result (λ alive. alive ≡ true → IsReady self.new (at + 1)) }
        ensures bytes { self.new.bytes.now ≡ self.old.bytes.now }
    {
        match self.place {
            Place::Between { last } => Ok(self.open(last, at)),
            Place::Within { kind, role, start } => self.go_on(kind, role, start, at),
        }
    }

    /// A byte at the begin of a line.
    fn open(&mut self, last: Option<Kind>, at: usize) -> bool
        requires more { at < length self.old.bytes.now }
        ensures step { Goes result (view self.new (at + 1))
            (opened self.old.version (lines_of self.old.rows.items) (slice_index self.old.bytes.now at)
            (allowed self.old.version (part_of last) (lettered self.old.version (part_of last) (slice_index self.old.bytes.now at)))) }
        ensures ready { result ≡ true → IsReady self.new (at + 1) }
        ensures bytes { self.new.bytes.now ≡ self.old.bytes.now }
    {
        let Some(kind) = opened(self.version, last, self.bytes[at]) else {
            return false;
        };
        self.words = Vec::new(*self.words.allocator());
        self.place = Place::Within {
            kind,
            role: Role::Name,
            start: at,
        };
        true
    }

    /// A byte behind the front of a word.
    fn go_on(&mut self, kind: Kind, role: Role, start: usize, at: usize) -> Result<bool, AllocError>
        requires more { at < length self.old.bytes.now }
        requires place { self.old.place ≡ Place.Within kind role start }
        requires ready { IsReady self.old at }
        ensures step { IfOk result (λ alive. Goes alive (view self.new (at + 1))
            (step (view self.old at) (slice_index self.old.bytes.now at))) }
        ensures ready { IfOk result (λ alive. alive ≡ true → IsReady self.new (at + 1)) }
        ensures bytes { self.new.bytes.now ≡ self.old.bytes.now }
    {
        if grows(kind, role, &self.bytes[start..at + 1]) {
            return Ok(true);
        }
        let word = &self.bytes[start..at];
        if !is_word(kind, role, word) {
            return Ok(false);
        }
        self.words.push(word)?;
        self.end_word(kind, role, at)
    }

    /// A byte behind a whole word, which is the last of the words.
    fn end_word(&mut self, kind: Kind, role: Role, at: usize) -> Result<bool, AllocError>
        requires more { at < length self.old.bytes.now }
        ensures step { IfOk result (λ alive. Goes alive (view self.new (at + 1))
            (behind_word self.old.version (lines_of self.old.rows.items) kind (map (λ w. w.now) self.old.words.items)
            role (slice_index self.old.bytes.now at))) }
        ensures ready { IfOk result (λ alive. alive ≡ true → IsReady self.new (at + 1)) }
        ensures bytes { self.new.bytes.now ≡ self.old.bytes.now }
    {
        let byte = self.bytes[at];
        if byte == b'\n' && may_end(kind, role) {
            self.end_line(kind)?;
            return Ok(true);
        }
        let Some(following) = next(kind, role) else {
            return Ok(false);
        };
        if byte != separator(following) {
            return Ok(false);
        }
        self.place = Place::Within {
            kind,
            role: following,
            start: at + 1,
        };
        Ok(true)
    }

    /// The line ends.
    fn end_line(&mut self, kind: Kind) -> Result<(), AllocError>
        ensures version { OnOk result (self.new.version ≡ version_behind self.old.version kind (map (λ w. w.now) self.old.words.items)) }
        ensures rows { OnOk result (lines_of self.new.rows.items ≡ lines_of self.old.rows.items ++ record {
          kind = kind;
          words = map (λ w. w.now) self.old.words.items;
        } ∷ []) }
        ensures place { OnOk result (self.new.place ≡ Place.Between (Some kind)) }
        ensures bytes { self.new.bytes.now ≡ self.old.bytes.now }
    {
        let alloc = *self.words.allocator();
        let words = mem::replace(&mut self.words, Vec::new(alloc));
        self.version = version_behind(self.version, kind, words.as_slice());
        self.rows.push(Row {
            kind,
            words: List::new(words),
        })?;
        self.place = Place::Between { last: Some(kind) };
        Ok(())
    }

    /// Whether the text may end here.
    pub(crate) fn is_whole(&self) -> bool
        ensures { (at : ℕ) → result ≡ is_whole (view self.now at) }
    {
        matches!(
            self.place,
            Place::Between {
                last: Some(Kind::End)
            }
        )
    }

    /// The lines that were read.
    pub(crate) fn into_lines(self) -> Lines<'a>
        ensures version { result.version ≡ self.entry.version }
        ensures rows { result.rows ≡ self.entry.rows.items }
    {
        let Reader { version, rows, .. } = self;
        Lines {
            version,
            rows: List::new(rows),
        }
    }
}
