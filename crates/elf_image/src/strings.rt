//! String tables: names that end with a zero.

ghost use Rattle.std.specs.Prelude.{◌≡◌, ◌<◌, ◌≤◌, ◌==◌, ◌≢◌, ℕ, IfOk, MatchOption, length, slice_index};
ghost use Rattle.std.specs.List.{position_or_len};
ghost use Rattle.elf_image.specs.Meaning.{string_at};

use std::alloc::{AllocError, Global};
use wx_base::Text;

// The place of the last zero of a string table, sought from its end, where it mostly is.
pub(crate) fn last_zero(table: &[u8]) -> Option<usize>
    ensures { MatchOption result
        ((k : ℕ) → k < length table.now → slice_index table.now k ≢ 0)
        (λ z. (z < length table.now) × (slice_index table.now z ≡ 0)
        × ((k : ℕ) → z < k → k < length table.now → slice_index table.now k ≢ 0)) }
{
    let mut k = table.len();
    while k > 0 {
        k -= 1;
        if table[k] == 0 {
            return Some(k);
        }
    }
    None
}

// The string that begins at a place of a string table, up to the first zero, or to the end.
pub(crate) fn read_string(alloc: Global, table: &[u8], at: usize) -> Result<Text, AllocError>
    requires { at ≤ length table.now }
    ensures { IfOk result (λ t. t ≡ string_at table.now at) }
{
    let rest = &table[at..];
    let len = string_len(rest);
    Ok(Text::new(Vec::from_slice(alloc, &rest[..len])?))
}

// How many bytes stand before the first zero.
fn string_len(bytes: &[u8]) -> usize
    ensures value { result ≡ position_or_len (λ b. b == 0) bytes.now }
    ensures within { result ≤ length bytes.now }
{
    for (k, byte) in bytes.iter().enumerate() {
        if *byte == 0 {
            return k;
        }
    }
    bytes.len()
}
