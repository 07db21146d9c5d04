//! The registers of a block transfer, read from the whole text of their list.

ghost use Rattle.std.specs.Prelude.{◌≡◌, ℕ, ◌<◌, ◌+◌, ◌^◌, None, Some, IfSome, IsSomeAnd};
ghost use Rattle.arm_text.specs.Text.{list_text};

use crate::names::register_name;
use crate::parts::before;

/// What stands before the last register of a list, if that is `register`.
fn before_last(list: &[u8], register: u8) -> Option<&[u8]>
    requires { register < 16 }
    ensures sound { IfSome result (λ rest. (lower : ℕ) → lower < 2 ^ register → rest.now ≡ list_text lower → list.now
        ≡ list_text (lower + 2 ^ register)) }
    ensures complete { (lower : ℕ) → lower < 2 ^ register → list.now ≡ list_text (lower + 2 ^ register)
        → IsSomeAnd result (λ rest. rest.now ≡ list_text lower) }
    ensures none { (lower : ℕ) → lower < 2 ^ register → list.now ≡ list_text lower → result ≡ None }
{
    let rest = before(list, register_name(register))?;
    if rest.is_empty() {
        return Some(rest);
    }
    let rest = before(rest, b", ".as_slice())?;
    if rest.is_empty() { None } else { Some(rest) }
}

/// The list of registers that a text is, with a bit for each.
pub(crate) fn read_list(text: &[u8]) -> Option<u16>
    ensures sound { IfSome result (λ list. text.now ≡ list_text list) }
    ensures complete { (list : ℕ) → list < 2 ^ 16 → text.now ≡ list_text list → result ≡ Some list }
{
    let mut rest = text;
    let mut list: u16 = 0;
    for higher in 0..16 {
        let register = 15 - higher;
        if let Some(lower) = before_last(rest, register) {
            rest = lower;
            list += 1 << register;
        }
    }
    if rest.is_empty() { Some(list) } else { None }
}
