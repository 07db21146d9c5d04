//! Numbers at places of a file.

ghost use Rattle.std.specs.Prelude.{◌≡◌, ◌+◌, ◌≤◌, length};
ghost use Rattle.elf_image.specs.Bytes.{bytes_at, u16_at, u32_at};

use byteorder::{ByteOrder, LittleEndian};

// The number in the two bytes at a place.
#[tactic(auto, using(crate::proofs::Numbers::little_two))]
pub(crate) fn read_u16_at(bytes: &[u8], at: usize) -> u16
    requires { at + 2 ≤ length bytes.now }
    ensures { result ≡ u16_at bytes.now at }
{
    LittleEndian::read_u16(&bytes[at..])
}

// The number in the four bytes at a place.
#[tactic(auto, using(crate::proofs::Numbers::little_four))]
pub(crate) fn read_u32_at(bytes: &[u8], at: usize) -> u32
    requires { at + 4 ≤ length bytes.now }
    ensures { result ≡ u32_at bytes.now at }
{
    LittleEndian::read_u32(&bytes[at..])
}

// As many bytes from a place.
pub(crate) fn part_of(bytes: &[u8], at: usize, size: usize) -> &[u8]
    requires { at + size ≤ length bytes.now }
    ensures { result.now ≡ bytes_at bytes.now at size }
{
    &bytes[at..at + size]
}
