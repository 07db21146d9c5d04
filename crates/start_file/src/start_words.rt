//! The words of a line of a start text.

ghost use Rattle.std.specs.Prelude.{◌≡◌, ◌≢◌, IsTrue, ◌↔◌, MatchOption};
ghost use Rattle.start_file.specs.declared.start_item.Kind.{Kind as KindValue};
ghost use Rattle.start_file.specs.Start.{name_of};

use crate::start_item::Kind;

/// Whether two texts are one.
pub(crate) fn is(text: &[u8], other: &[u8]) -> bool
    ensures { IsTrue result ↔ (text.now ≡ other.now) }
{
    text == other
}

/// The kind of the lines that begin with a word.
pub(crate) fn read_kind(name: &[u8]) -> Option<Kind>
    ensures { MatchOption result ((k : KindValue) → name.now ≢ name_of k) (λ k. name.now ≡ name_of k) }
{
    if is(name, b"wx-start".as_slice()) {
        return Some(Kind::Head);
    }
    if is(name, b"reg".as_slice()) {
        return Some(Kind::Register);
    }
    if is(name, b"flags".as_slice()) {
        return Some(Kind::Flags);
    }
    if is(name, b"fill".as_slice()) {
        return Some(Kind::Fill);
    }
    if is(name, b"byte".as_slice()) {
        return Some(Kind::Byte);
    }
    if is(name, b"set".as_slice()) {
        return Some(Kind::Set);
    }
    if is(name, b"end".as_slice()) {
        return Some(Kind::End);
    }
    None
}
