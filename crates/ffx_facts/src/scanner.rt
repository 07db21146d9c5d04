//! A scanner of facts files that takes the bytes one after another.

ghost use Rattle.std.specs.Str.{bytes_eq};
ghost use Rattle.std.specs.Option.{option_copied};
ghost use Rattle.ffx_facts.specs.Pieces.{spelling};
ghost use Rattle.std.specs.Prelude.{find, ◌&&◌, ◌≡◌, ◌≤◌, ◌<◌, ◌+◌, ◌-◌, length, map, slice_index, slice_range, IfOk, reverse};
ghost use Rattle.ffx_facts.specs.Machine.{began, begins_word, begun_tag, behind_word, between, comment_part, declaration, in_word, innermost, is_whole, may_come, may_start, past_first, start, step, step_in, to_part};
ghost use Rattle.ffx_facts.specs.Scan.{element, goes, view};

use crate::element::Element;
use crate::kind::Kind;
use crate::state::{Part, Scanner, Stage};
use crate::word::{WORDS, Word};
use std::alloc::{AllocError, Global};
use std::collections::BTreeMap;

impl Stage {
    // The stage behind a piece; the byte order mark stands at the very front only.
    pub(crate) fn past_first(self) -> Stage
        ensures { result ≡ past_first self }
    {
        match self {
            Stage::First => Stage::Ahead,
            Stage::Ahead | Stage::Declared | Stage::Rooted => self,
        }
    }
}

impl<'a> Scanner<'a> {
    // A scanner that has taken nothing.
    pub(crate) fn new(alloc: Global, bytes: &'a [u8]) -> Scanner<'a>
        ensures state { view result ≡ start }
        ensures bytes { result.bytes.now ≡ bytes.now }
        ensures place { result.place ≡ 0 }
    {
        Scanner {
            bytes,
            place: 0,
            start: 0,
            stage: Stage::First,
            nesting: Vec::new(alloc),
            elements: Vec::new(alloc),
            part: Part::Between,
            kind: Kind::FlowFacts,
            at: 0,
            attributes: BTreeMap::new(alloc),
            name: &[],
        }
    }

    // Takes the next byte; says whether a file can begin so.
    pub(crate) fn take(&mut self, byte: u8) -> Result<bool, AllocError>
        requires next { byte ≡ slice_index self.old.bytes.now self.old.place }
        requires more { self.old.place < length self.old.bytes.now }
        ensures step { IfOk result (λ alive. goes alive (view self.new) (step (view self.old) byte)) }
        ensures bytes { self.new.bytes.now ≡ self.old.bytes.now }
        ensures place { self.new.place ≡ self.old.place + 1 }
    {
        self.place += 1;
        self.act(byte)
    }

    // What the byte that was taken does.
    fn act(&mut self, byte: u8) -> Result<bool, AllocError>
        requires begun { self.old.start < self.old.place }
        requires last { byte ≡ slice_index self.old.bytes.now (self.old.place - 1) }
        ensures step { IfOk result (λ alive. goes alive (view self.new)
            (step_in self.old.part (slice_range self.old.bytes.now self.old.start (self.old.place - 1))
            (view self.old) byte)) }
        ensures bytes { self.new.bytes.now ≡ self.old.bytes.now }
        ensures place { self.new.place ≡ self.old.place }
    {
        match self.part {
            Part::Between => Ok(self.between(byte)),
            Part::Word => Ok(self.word()),
            Part::Comment { dashes } => Ok(self.comment(byte, dashes)),
            Part::Declaration { question } => Ok(self.declaration(byte, question)),
            Part::Behind => self.behind(byte),
            Part::Gap => self.gap(byte),
            Part::Slash => self.slash(byte),
            Part::Name => Ok(self.name(byte)),
            Part::Named => Ok(self.named(byte)),
            Part::Equals => Ok(self.equals(byte)),
            Part::Value { quote } => self.value(byte, quote),
            Part::Closing => Ok(self.closing(byte)),
        }
    }

    // Whether the file may end here.
    pub(crate) fn is_whole(&self) -> bool
        ensures { result ≡ is_whole (view self.now) }
    {
        self.nesting.is_empty()
            && matches!(self.stage, Stage::Rooted)
            && matches!(self.part, Part::Between)
    }

    // The elements whose start tags were read.
    pub(crate) fn into_elements(self) -> Vec<Element<'a>>
        ensures { map element result.items ≡ (view self.entry).elements }
    {
        let Scanner { elements, .. } = self;
        elements
    }

    // A byte between two pieces.
    fn between(&mut self, byte: u8) -> bool
        requires some { 0 < self.old.place }
        requires last { byte ≡ slice_index self.old.bytes.now (self.old.place - 1) }
        ensures step { goes result (view self.new) (between (view self.old) byte) }
        ensures bytes { self.new.bytes.now ≡ self.old.bytes.now }
        ensures place { self.new.place ≡ self.old.place }
    {
        if matches!(byte, b' ' | b'\t' | b'\r' | b'\n') {
            self.stage = self.stage.past_first();
            return true;
        }
        self.begin(byte, Part::Word);
        self.word()
    }

    // A word, a name or a value begins with the byte that was taken.
    pub(crate) fn begin(&mut self, byte: u8, part: Part)
        requires some { 0 < self.old.place }
        requires last { byte ≡ slice_index self.old.bytes.now (self.old.place - 1) }
        ensures step { view self.new ≡ began (view self.old) byte part }
        ensures bytes { self.new.bytes.now ≡ self.old.bytes.now }
        ensures place { self.new.place ≡ self.old.place }
    {
        self.start = self.place - 1;
        self.part = part;
    }

    // Whether a word may come now.
    fn may_come(&self, word: Word) -> bool
        ensures { result ≡ may_come self.now.stage (innermost (reverse self.now.nesting.items)) word }
    {
        match word {
            Word::Mark => matches!(self.stage, Stage::First),
            Word::Comment => true,
            Word::Declaration => matches!(self.stage, Stage::First | Stage::Ahead),
            Word::Start(kind) => self.may_start(kind),
            Word::End(kind) => {
                matches!(self.stage, Stage::Rooted)
                    && self.innermost().is_some_and(|outer| outer.is(kind))
            }
        }
    }

    // The innermost element that was begun and not ended.
    fn innermost(&self) -> Option<Kind>
        ensures { result ≡ innermost (reverse self.now.nesting.items) }
    {
        self.nesting.last().copied()
    }

    // Whether an element may begin now.
    fn may_start(&self, kind: Kind) -> bool
        ensures { result ≡ may_start self.now.stage (innermost (reverse self.now.nesting.items)) kind }
    {
        match self.stage {
            Stage::Rooted => self.innermost().is_some_and(|outer| outer.holds(kind)),
            Stage::First | Stage::Ahead | Stage::Declared => matches!(kind, Kind::FlowFacts),
        }
    }

    // A byte of a word, which may be its last.
    #[tactic(auto, unfolding(crate::specs::Machine::in_word))]
    fn word(&mut self) -> bool
        ensures step { goes result (view self.new) (in_word (view self.old)) }
        ensures bytes { self.new.bytes.now ≡ self.old.bytes.now }
        ensures place { self.new.place ≡ self.old.place }
    {
        let text = &self.bytes[self.start..self.place];
        match self.word_of(&WORDS, text).copied() {
            Some(word) => {
                self.end_word(word);
                true
            }
            None => self.begins_word(text),
        }
    }

    // The first of these words that may come and is spelled so.
    fn word_of<'w>(&self, words: &'w [Word], text: &[u8]) -> Option<&'w Word>
        ensures { option_copied result ≡ find
            (λ w. may_come self.now.stage (innermost (reverse self.now.nesting.items)) w
            && bytes_eq (spelling w) text.now) words.now }
    {
        words
            .iter()
            .find(|word| self.may_come(**word) && word.text() == text)
    }

    // Whether some word that may come begins so.
    fn begins_word(&self, text: &[u8]) -> bool
        ensures { result ≡ begins_word (view self.now) text.now }
    {
        WORDS.iter().any(|word| self.may_come(*word) && word.text().starts_with(text))
    }

    // A word was read to its end.
    fn end_word(&mut self, word: Word)
        ensures step { view self.new ≡ behind_word (view self.old) word }
        ensures bytes { self.new.bytes.now ≡ self.old.bytes.now }
        ensures place { self.new.place ≡ self.old.place }
    {
        self.stage = self.stage.past_first();
        match word {
            Word::Mark => self.part = Part::Between,
            Word::Comment => self.part = Part::Comment { dashes: 0 },
            Word::Declaration => self.part = Part::Declaration { question: false },
            Word::Start(kind) => self.begin_tag(kind),
            Word::End(_) => self.part = Part::Closing,
        }
    }

    // The start tag of an element begins.
    fn begin_tag(&mut self, kind: Kind)
        ensures step { view self.new ≡ begun_tag (view self.old) kind }
        ensures bytes { self.new.bytes.now ≡ self.old.bytes.now }
        ensures place { self.new.place ≡ self.old.place }
    {
        self.kind = kind;
        self.at = self.start;
        self.attributes.clear();
        self.part = Part::Behind;
    }

    // A byte of a comment, which ends at two dashes and a `>`; no other two dashes stand in it.
    fn comment(&mut self, byte: u8, dashes: u8) -> bool
        ensures step { goes result (view self.new) (to_part (view self.old) (comment_part dashes byte)) }
        ensures bytes { self.new.bytes.now ≡ self.old.bytes.now }
        ensures place { self.new.place ≡ self.old.place }
    {
        let (part, goes) = match (dashes, byte) {
            (0 | 1, b'-') => (Part::Comment { dashes: dashes + 1 }, true),
            (0 | 1, _) => (Part::Comment { dashes: 0 }, true),
            (_, b'>') => (Part::Between, true),
            (2, b'-') => (Part::Comment { dashes: 3 }, true),
            (_, _) => (Part::Between, false),
        };
        self.part = part;
        goes
    }

    // A byte of the XML declaration, which ends at the first `?>`.
    fn declaration(&mut self, byte: u8, question: bool) -> bool
        ensures step { goes result (view self.new) (Some (declaration (view self.old) question byte)) }
        ensures bytes { self.new.bytes.now ≡ self.old.bytes.now }
        ensures place { self.new.place ≡ self.old.place }
    {
        if question && byte == b'>' {
            self.stage = Stage::Declared;
            self.part = Part::Between;
        } else {
            let question = byte == b'?';
            self.part = Part::Declaration { question };
        }
        true
    }
}
