//! The names of lines, their order, and the words of each.

ghost use Rattle.std.specs.Prelude.{◌≡◌, ◌<◌, ◌-◌, true, take, length};
ghost use Rattle.cert_lines.specs.Table.{name_of, part_of, may_stand, next, may_stop, may_end, separator, is_number, is_word, begins_word};
ghost use Rattle.cert_lines.specs.Machine.{lettered, allowed};

use crate::kind::{Kind, Role, Version};

/// The word that a line begins with.
pub(crate) fn name(kind: Kind) -> &'static [u8]
    ensures { result.now ≡ name_of kind }
{
    match kind {
        Kind::Head => b"wx-cert",
        Kind::Node | Kind::Places => b"node",
        Kind::Vector => b"vec",
        Kind::Count => b"vectors",
        Kind::Listed => b"v",
        Kind::Charge => b"charge",
        Kind::Multiplier => b"multiplier",
        Kind::Total => b"total",
        Kind::Bound => b"bound",
        Kind::End => b"end",
    }
}

/// The part of a text that a line belongs to, counted from the head on; 0 where no line was.
fn part(last: Option<Kind>) -> u32
    ensures { result ≡ part_of last }
{
    match last {
        None => 0,
        Some(Kind::Head) => 1,
        Some(Kind::Count) => 2,
        Some(Kind::Listed) => 3,
        Some(Kind::Node | Kind::Vector | Kind::Places) => 4,
        Some(Kind::Charge) => 5,
        Some(Kind::Multiplier) => 6,
        Some(Kind::Total) => 7,
        Some(Kind::Bound) => 8,
        Some(Kind::End) => 9,
    }
}

/// Whether a line of the kind may stand behind a line of the part.
fn may_stand(version: Version, part: u32, kind: Kind) -> bool
    ensures { result ≡ may_stand version part kind }
{
    let one = matches!(version, Version::One);
    let opening = if one { 1 } else { 2 };
    match kind {
        Kind::Head => part == 0,
        Kind::Node => one && 1 <= part && part <= 4,
        Kind::Vector => one && part == 4,
        Kind::Count => !one && part == 1,
        Kind::Listed => !one && 2 <= part && part <= 3,
        Kind::Places => !one && 2 <= part && part <= 4,
        Kind::Charge => opening <= part && part <= 5,
        Kind::Multiplier => opening <= part && part <= 6,
        Kind::Total => !one && 2 <= part && part <= 7,
        Kind::Bound => opening <= part && part <= 7,
        Kind::End => part == 8,
    }
}

/// The kind of the line that begins with the byte behind a line of the part.
fn lettered(version: Version, part: u32, byte: u8) -> Option<Kind>
    ensures { result ≡ lettered version part byte }
{
    let one = matches!(version, Version::One);
    match byte {
        b'w' => Some(Kind::Head),
        b'n' if one => Some(Kind::Node),
        b'n' => Some(Kind::Places),
        b'v' if one => Some(Kind::Vector),
        b'v' if part == 1 => Some(Kind::Count),
        b'v' => Some(Kind::Listed),
        b'c' => Some(Kind::Charge),
        b'm' => Some(Kind::Multiplier),
        b't' => Some(Kind::Total),
        b'b' => Some(Kind::Bound),
        b'e' => Some(Kind::End),
        _ => None,
    }
}

/// The kind of the line that may stand behind a line and begins with the byte.
pub(crate) fn opened(version: Version, last: Option<Kind>, byte: u8) -> Option<Kind>
    ensures { result ≡ allowed version (part_of last) (lettered version (part_of last) byte) }
{
    let part = part(last);
    let kind = lettered(version, part, byte)?;
    if may_stand(version, part, kind) {
        Some(kind)
    } else {
        None
    }
}

/// What may stand behind a word of a line.
pub(crate) fn next(kind: Kind, role: Role) -> Option<Role>
    ensures { result ≡ next kind role }
{
    match (kind, role) {
        (Kind::Head, Role::Name) => Some(Role::Version),
        (Kind::Node | Kind::Vector | Kind::Places | Kind::Multiplier, Role::Name) => Some(
            Role::First,
        ),
        (Kind::Count | Kind::Bound, Role::Name) => Some(Role::Last),
        (Kind::Listed, Role::Name) => Some(Role::Left),
        (Kind::Charge | Kind::Total, Role::Name) => Some(Role::Address),
        (Kind::Node | Kind::Multiplier, Role::First) => Some(Role::Last),
        (Kind::Vector | Kind::Places, Role::First) => Some(Role::Left),
        (Kind::Vector | Kind::Listed | Kind::Places, Role::Left) => Some(Role::Right),
        (Kind::Vector | Kind::Listed | Kind::Places, Role::Right) => Some(Role::Left),
        (Kind::Charge, Role::Address) => Some(Role::Scope),
        (Kind::Charge, Role::Scope) | (Kind::Total, Role::Address) => Some(Role::Last),
        _ => None,
    }
}

/// Whether the line may end behind a word.
pub(crate) fn may_end(kind: Kind, role: Role) -> bool
    ensures { result ≡ may_end kind role }
{
    may_stop(kind, role) || next(kind, role).is_none()
}

/// Whether the line may end though more might stand behind the word.
fn may_stop(kind: Kind, role: Role) -> bool
    ensures { result ≡ may_stop kind role }
{
    matches!(
        (kind, role),
        (Kind::Vector | Kind::Places, Role::First) | (Kind::Listed, Role::Name) | (_, Role::Right)
    )
}

/// What stands before a word.
pub(crate) fn separator(role: Role) -> u8
    ensures { result ≡ separator role }
{
    if matches!(role, Role::Right) {
        b':'
    } else {
        b' '
    }
}
