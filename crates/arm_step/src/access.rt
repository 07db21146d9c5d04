//! What lies at addresses, and which of them an access meets.

ghost use Rattle.std.specs.Prelude.{◌≡◌, ◌<◌, ◌^◌, ◌&&◌};
ghost use Rattle.std.specs.List.{list_any};
ghost use Rattle.wx_base.specs.State.{word_in};
ghost use Rattle.wx_base.specs.Transfer.{any_byte, half_in, lies_in, is_slow_access, meets_code};
ghost use Rattle.wx_base.specs.Image.{spans};
ghost use Rattle.arm_step.specs.Cpu.{held};
ghost use Rattle.arm_step.specs.Ranges.{meets};

use wx_base::{Image, Machine, Region, Segment};
use wx_mem::Memory;

/// The byte at an address: the last that was written there, else the image's, else the memory's fill.
pub(crate) fn byte_at(memory: &Memory, image: &Image, addr: u32) -> u8
    ensures { result ≡ held image.now memory.now addr }
{
    if memory.written(addr) {
        return memory.read(addr);
    }
    match image.byte_at(addr) {
        Some(byte) => byte,
        None => memory.read(addr),
    }
}

/// The two bytes at an address, the lowest first.
pub(crate) fn half_at(memory: &Memory, image: &Image, addr: u32) -> u32
    ensures value { result ≡ half_in (held image.now memory.now) addr }
    ensures bound { result < 2 ^ 16 }
{
    let low = byte_at(memory, image, addr);
    let high = byte_at(memory, image, addr.wrapping_add(1));
    u32::from(low) + 256 * u32::from(high)
}

/// The word that the machine finds at an address, the lowest byte first. Addresses are modulo 2^32.
pub fn word_at(memory: &Memory, image: &Image, addr: u32) -> u32
    ensures { result ≡ word_in (held image.now memory.now) addr }
{
    u32::from_le_bytes([
        byte_at(memory, image, addr),
        byte_at(memory, image, addr.wrapping_add(1)),
        byte_at(memory, image, addr.wrapping_add(2)),
        byte_at(memory, image, addr.wrapping_add(3)),
    ])
}

/// Whether one of `count` bytes from an address on, modulo 2^32, is among `size` addresses from `first` on. Either the
/// first of the bytes is, or `first` itself is one of the bytes.
fn meets(first: u32, size: u64, addr: u32, count: u32) -> bool
    ensures { result ≡ meets first size addr count }
{
    let begins = first <= addr && u64::from(addr - first) < size;
    count > 0 && size > 0 && (begins || first.wrapping_sub(addr) < count)
}

/// Whether an access meets a region.
#[tactic(auto, using(crate::proofs::Touched::region_is))]
fn meets_region(region: &Region, addr: u32, count: u32) -> bool
    ensures { result ≡ any_byte addr count (lies_in region.now) }
{
    let size = (u64::from(region.last) + 1).saturating_sub(u64::from(region.first));
    meets(region.first, size, addr, count)
}

/// Whether an access meets a segment.
#[tactic(auto, using(crate::proofs::Touched::segment_is))]
fn meets_segment(segment: &Segment, addr: u32, count: u32) -> bool
    ensures { result ≡ any_byte addr count (λ address. spans address segment.now) }
{
    meets(segment.first, segment.size, addr, count)
}

/// Whether an access meets a slow region.
fn meets_slow_region(machine: &Machine, addr: u32, count: u32) -> bool
    ensures { result ≡ list_any (λ region. region.slow && any_byte addr count (lies_in region)) machine.now.regions }
{
    machine
        .regions
        .as_slice()
        .iter()
        .any(|region| region.slow && meets_region(region, addr, count))
}

/// Whether an access meets a segment that holds code.
fn meets_code_segment(image: &Image, addr: u32, count: u32) -> bool
    ensures { result
        ≡ list_any (λ segment. segment.code && any_byte addr count
        (λ address. spans address segment)) image.now.segments }
{
    image.segments.as_slice().iter().any(|segment| segment.code
        && meets_segment(segment, addr, count))
}

/// Whether an access to bytes from an address on is slow: one of them lies in a slow region.
pub(crate) fn is_slow_access(machine: &Machine, addr: u32, count: u32) -> bool
    ensures { result ≡ is_slow_access machine.now addr count }
{
    meets_slow_region(machine, addr, count)
}

/// Whether one of the bytes from an address on is code.
pub(crate) fn meets_code(image: &Image, addr: u32, count: u32) -> bool
    ensures { result ≡ meets_code image.now addr count }
{
    meets_code_segment(image, addr, count)
}
