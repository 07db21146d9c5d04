//! What stands before the operands: the name of an operation, and the suffix of a condition.

ghost use Rattle.std.specs.Prelude.{◌≡◌, ◌≢◌, ◌<◌, ◌++◌, ℕ, List, IsTrue, ◌↔◌, IfSome, IsSomeAnd, Some, length, codes};
ghost use Rattle.std.specs.List.{Contains};
ghost use Rattle.arm_text.specs.Names.{condition_suffix, where_set};
ghost use Rattle.arm_text.specs.Mnemonics.{names, name_text};

use crate::names::{block_name, half_name, mul_long_name, mul_name, opcode_name, single_name};
use crate::parts::{behind, is, read_condition};
use arm_code::{HalfKind, is_compare};

/// The name of an operation, `s` for the flags included: what of it stands before the suffix of the condition.
#[derive(Clone, Copy, Debug, PartialEq, Eq)]
pub(crate) enum Name {
    /// Data processing by its opcode; a comparison always has `s`, and does not say so. A return by a move has the name
    /// of a move.
    Alu {
        op: u8,
        s: bool,
    },
    Mul {
        accumulate: bool,
        s: bool,
    },
    MulLong {
        signed: bool,
        accumulate: bool,
        s: bool,
    },
    Single {
        load: bool,
        byte: bool,
    },
    Half {
        kind: HalfKind,
    },
    Block {
        load: bool,
        before: bool,
        up: bool,
    },
    Branch {
        link: bool,
    },
    Exchange {
        link: bool,
    },
    Svc,
}

/// All names, each once.
fn names() -> [Name; 61]
    ensures { result ≡ names }
{
    [
        Name::Alu { op: 0, s: false },
        Name::Alu { op: 0, s: true },
        Name::Alu { op: 1, s: false },
        Name::Alu { op: 1, s: true },
        Name::Alu { op: 2, s: false },
        Name::Alu { op: 2, s: true },
        Name::Alu { op: 3, s: false },
        Name::Alu { op: 3, s: true },
        Name::Alu { op: 4, s: false },
        Name::Alu { op: 4, s: true },
        Name::Alu { op: 5, s: false },
        Name::Alu { op: 5, s: true },
        Name::Alu { op: 6, s: false },
        Name::Alu { op: 6, s: true },
        Name::Alu { op: 7, s: false },
        Name::Alu { op: 7, s: true },
        Name::Alu { op: 8, s: true },
        Name::Alu { op: 9, s: true },
        Name::Alu { op: 10, s: true },
        Name::Alu { op: 11, s: true },
        Name::Alu { op: 12, s: false },
        Name::Alu { op: 12, s: true },
        Name::Alu { op: 13, s: false },
        Name::Alu { op: 13, s: true },
        Name::Alu { op: 14, s: false },
        Name::Alu { op: 14, s: true },
        Name::Alu { op: 15, s: false },
        Name::Alu { op: 15, s: true },
        Name::Mul {
            accumulate: false,
            s: false,
        },
        Name::Mul {
            accumulate: false,
            s: true,
        },
        Name::Mul {
            accumulate: true,
            s: false,
        },
        Name::Mul {
            accumulate: true,
            s: true,
        },
        Name::MulLong {
            signed: false,
            accumulate: false,
            s: false,
        },
        Name::MulLong {
            signed: false,
            accumulate: false,
            s: true,
        },
        Name::MulLong {
            signed: false,
            accumulate: true,
            s: false,
        },
        Name::MulLong {
            signed: false,
            accumulate: true,
            s: true,
        },
        Name::MulLong {
            signed: true,
            accumulate: false,
            s: false,
        },
        Name::MulLong {
            signed: true,
            accumulate: false,
            s: true,
        },
        Name::MulLong {
            signed: true,
            accumulate: true,
            s: false,
        },
        Name::MulLong {
            signed: true,
            accumulate: true,
            s: true,
        },
        Name::Single {
            load: false,
            byte: false,
        },
        Name::Single {
            load: false,
            byte: true,
        },
        Name::Single {
            load: true,
            byte: false,
        },
        Name::Single {
            load: true,
            byte: true,
        },
        Name::Half {
            kind: HalfKind::Ldrh,
        },
        Name::Half {
            kind: HalfKind::Strh,
        },
        Name::Half {
            kind: HalfKind::Ldrsb,
        },
        Name::Half {
            kind: HalfKind::Ldrsh,
        },
        Name::Block {
            load: false,
            before: false,
            up: false,
        },
        Name::Block {
            load: false,
            before: false,
            up: true,
        },
        Name::Block {
            load: false,
            before: true,
            up: false,
        },
        Name::Block {
            load: false,
            before: true,
            up: true,
        },
        Name::Block {
            load: true,
            before: false,
            up: false,
        },
        Name::Block {
            load: true,
            before: false,
            up: true,
        },
        Name::Block {
            load: true,
            before: true,
            up: false,
        },
        Name::Block {
            load: true,
            before: true,
            up: true,
        },
        Name::Branch { link: false },
        Name::Branch { link: true },
        Name::Exchange { link: false },
        Name::Exchange { link: true },
        Name::Svc,
    ]
}

/// Whether a text is a name and, behind it, an `s` if flags are set.
fn is_with_flags(text: &[u8], name: &[u8], s: bool) -> bool
    ensures { IsTrue result ↔ (text.now ≡ name.now ++ where_set s (codes "s")) }
{
    match behind(text, name) {
        Some(rest) => is(rest, if s { b"s".as_slice() } else { b"".as_slice() }),
        None => false,
    }
}

/// Whether a text is a name.
fn spells(text: &[u8], name: Name) -> bool
    ensures { IsTrue result ↔ (text.now ≡ name_text name) }
{
    match name {
        Name::Alu { op, s } => is_with_flags(text, opcode_name(op), s && !is_compare(op)),
        Name::Mul { accumulate, s } => is_with_flags(text, mul_name(accumulate), s),
        Name::MulLong {
            signed,
            accumulate,
            s,
        } => is_with_flags(text, mul_long_name(signed, accumulate), s),
        Name::Single { load, byte } => is(text, single_name(load, byte)),
        Name::Half { kind } => is(text, half_name(kind)),
        Name::Block { load, before, up } => is(text, block_name(load, before, up)),
        Name::Branch { link: false } => is(text, b"b".as_slice()),
        Name::Branch { link: true } => is(text, b"bl".as_slice()),
        Name::Exchange { link: false } => is(text, b"bx".as_slice()),
        Name::Exchange { link: true } => is(text, b"blx".as_slice()),
        Name::Svc => is(text, b"svc".as_slice()),
    }
}

/// The name that a text is.
fn read_name(text: &[u8]) -> Option<Name>
    ensures sound { IfSome result (λ name. Contains names name × (text.now ≡ name_text name)) }
    ensures complete { (name : Name) → Contains names name → text.now ≡ name_text name → result ≡ Some name }
{
    for name in names() {
        if spells(text, name) {
            return Some(name);
        }
    }
    None
}

/// The name and the condition that a text is. A condition other than "always" is its last two letters.
pub(crate) fn read_mnemonic(text: &[u8]) -> Option<(Name, u8)>
    ensures sound { IfSome result (λ m. Contains names m.0 × (m.1 < 15)
        × (text.now ≡ name_text m.0 ++ condition_suffix m.1)) }
    ensures complete { (name : Name) (cond : ℕ) → Contains names name → cond < 15 → text.now ≡ name_text name
        ++ condition_suffix cond → result ≡ Some (name, cond) }
{
    if let Some(name) = read_name(text) {
        return Some((name, 14));
    }
    if text.len() < 2 {
        return None;
    }
    let (name, suffix) = text.split_at(text.len() - 2);
    Some((read_name(name)?, read_condition(suffix)?))
}
