ghost use Rattle.std.specs.Prelude.{◌≡◌};
ghost use Rattle.ffx_facts.specs.Pieces.{spelling};
ghost use Rattle.ffx_facts.specs.declared.word.Word.TheVariants as word;

use crate::kind::Kind;

/// A fixed text with which a piece of a facts file begins.
#[derive(Clone, Copy, Debug)]
pub(crate) enum Word {
    /// The byte order mark.
    Mark,
    /// What begins a comment.
    Comment,
    /// What begins the XML declaration.
    Declaration,
    /// What begins the start tag of an element.
    Start(Kind),
    /// What begins the end tag of an element.
    End(Kind),
}

/// All words.
pub(crate) const WORDS: [Word; 15] = [
    Word::Mark,
    Word::Comment,
    Word::Declaration,
    Word::Start(Kind::FlowFacts),
    Word::Start(Kind::Function),
    Word::Start(Kind::Loop),
    Word::Start(Kind::MultiBranch),
    Word::Start(Kind::MultiCall),
    Word::Start(Kind::Target),
    Word::End(Kind::FlowFacts),
    Word::End(Kind::Function),
    Word::End(Kind::Loop),
    Word::End(Kind::MultiBranch),
    Word::End(Kind::MultiCall),
    Word::End(Kind::Target),
];

impl Word {
    // The bytes of the word.
    pub(crate) fn text(self) -> &'static [u8]
        ensures { result.now ≡ spelling self }
    {
        match self {
            Word::Mark => b"\xef\xbb\xbf",
            Word::Comment => b"<!--",
            Word::Declaration => b"<?xml",
            Word::Start(kind) => start_text(kind),
            Word::End(kind) => end_text(kind),
        }
    }
}

fn start_text(kind: Kind) -> &'static [u8]
    ensures { result.now ≡ spelling (word.Start kind) }
{
    match kind {
        Kind::FlowFacts => b"<flowfacts",
        Kind::Function => b"<function",
        Kind::Loop => b"<loop",
        Kind::MultiBranch => b"<multibranch",
        Kind::MultiCall => b"<multicall",
        Kind::Target => b"<target",
    }
}

fn end_text(kind: Kind) -> &'static [u8]
    ensures { result.now ≡ spelling (word.End kind) }
{
    match kind {
        Kind::FlowFacts => b"</flowfacts",
        Kind::Function => b"</function",
        Kind::Loop => b"</loop",
        Kind::MultiBranch => b"</multibranch",
        Kind::MultiCall => b"</multicall",
        Kind::Target => b"</target",
    }
}
