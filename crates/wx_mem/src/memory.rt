ghost use Rattle.std.specs.Prelude.{◌≡◌, ◌≤◌, ◌<◌, ◌^◌, ℕ, Bool, true, false, ◌==◌, ◌||◌, length, slice_index, OnOk, OnErr, if◌then◌else◌};
ghost use Rattle.std.specs.FinMap as map;
ghost use Rattle.std.specs.Bool.{OnFalse, OnTrue};
ghost use Rattle.std.specs.HashMap.{spare};
ghost use Rattle.std.specs.Map.{lookup};
ghost use Rattle.wx_base.specs.State.{replaced, overwritten, is_among};
ghost use Rattle.wx_mem.specs.Memory.{HasAll, HasRoom, HoldsBytes, LacksSome, byte_at, is_written, with_bytes};

use std::alloc::Global;
use std::collections::HashMap;
use std::marker::Model;
use wx_base::NoMemory;

/// The bytes of a memory of 32-bit addresses: those that were written, and one byte everywhere else.
///
/// A read or a write of a byte takes the same time however much was written.
#[derive(Drop)]
pub struct Memory {
    fill: u8,
    bytes: HashMap<u32, u8>,
}

impl Model for Memory {
    ghost use Rattle.std.specs.FinMap as map;
    ghost use Rattle.wx_mem.specs.Memory.{Bytes, HoldsBytes, bytes_code};

    ghost Value = { Bytes };

    ghost coded = { bytes_code };

    ghost view = { λ m. record { fill = m.fill; written = map.from_entries m.bytes.entries } };

    ghost invariant = { λ m. HoldsBytes (record { fill = m.fill; written = map.from_entries m.bytes.entries }) };
}

impl Memory {
    /// A memory of which nothing was written: each of its bytes is `fill`.
    pub fn new(alloc: Global, fill: u8) -> Memory
        ensures fill { result.fill ≡ fill }
        ensures written { result.written ≡ map.empty }
        ensures bytes { (at : ℕ) → byte_at result at ≡ fill }
    {
        Memory {
            fill,
            bytes: HashMap::new(alloc),
        }
    }

    /// The byte at an address: the last that was written there, else the fill.
    pub fn read(&self, addr: u32) -> u8
        ensures { result ≡ byte_at self.now addr }
    {
        match self.bytes.get(&addr) {
            Some(byte) => *byte,
            None => self.fill,
        }
    }

    /// Each byte is below 256. A law: nothing is read.
    pub fn bytes_fit(&self)
        ensures { HoldsBytes self.now }
    {
        let _ = &self.bytes;
    }

    /// Whether a byte was written at the address.
    pub fn written(&self, addr: u32) -> bool
        ensures { result ≡ is_written self.now addr }
    {
        self.bytes.contains_key(&addr)
    }

    /// Writes one byte.
    ///
    /// `NoMemory` where there is no room for an address that was never written; then nothing changes.
    pub fn write(&mut self, addr: u32, b: u8) -> Result<(), NoMemory>
        ensures fill { self.new.fill ≡ self.old.fill }
        ensures written { OnOk result (self.new.written ≡ map.insert self.old.written addr b) }
        ensures bytes { OnOk result ((at : ℕ) → byte_at self.new at ≡ replaced (byte_at self.old) addr b at) }
        ensures marks { OnOk result ((at : ℕ) → is_written self.new at ≡ (at == addr || is_written self.old at)) }
        ensures refused { OnErr result (self.new ≡ self.old) }
        ensures absent { OnErr result (is_written self.old addr ≡ false) }
    {
        self.bytes.insert(addr, b)?;
        Ok(())
    }

    /// Writes bytes at `addr` and the addresses behind it, modulo 2^32.
    ///
    /// `NoMemory` where there is no room for all of them, of which some was never written; then nothing changes.
    pub fn write_many(&mut self, addr: u32, bytes: &[u8]) -> Result<(), NoMemory>
        requires { length bytes.now ≤ 64 }
        ensures fill { self.new.fill ≡ self.old.fill }
        ensures written { OnOk result (self.new.written ≡ with_bytes self.old.written addr bytes.now) }
        ensures bytes { OnOk result ((at : ℕ) → byte_at self.new at
            ≡ overwritten (byte_at self.old) addr bytes.now at) }
        ensures marks { OnOk result ((at : ℕ) → is_written self.new at
            ≡ (is_among addr (length bytes.now) at || is_written self.old at)) }
        ensures refused { OnErr result (self.new ≡ self.old) }
        ensures absent { OnErr result (LacksSome self.old.written addr (length bytes.now)) }
    {
        make_room(&mut self.bytes, addr, bytes.len())?;
        put_all(&mut self.bytes, addr, bytes);
        Ok(())
    }
}

/// Whether the map has each of `count` addresses from `addr` on, modulo 2^32.
fn has_all(room: &HashMap<u32, u8>, addr: u32, count: usize) -> bool
    requires { count ≤ 64 }
    ensures all { OnTrue result (HasAll (map.from_entries room.now.entries) addr count) }
    ensures some { OnFalse result (LacksSome (map.from_entries room.now.entries) addr count) }
{
    for i in 0..count {
        if !room.contains_key(&addr.wrapping_add(i as u32)) {
            return false;
        }
    }
    true
}

/// Takes room for bytes at `count` addresses from `addr` on, modulo 2^32, unless the map has all of them.
fn make_room(room: &mut HashMap<u32, u8>, addr: u32, count: usize) -> Result<(), NoMemory>
    requires { count ≤ 64 }
    ensures same { (q : ℕ) → lookup (λ k. q == k) room.new.entries ≡ lookup (λ k. q == k) room.old.entries }
    ensures room { OnOk result (HasRoom (spare room.new) (map.from_entries room.new.entries) addr count) }
    ensures absent { OnErr result (LacksSome (map.from_entries room.old.entries) addr count) }
{
    if has_all(room, addr, count) {
        return Ok(());
    }
    room.reserve(count)?;
    Ok(())
}

/// Puts bytes at `addr` and the addresses behind it, modulo 2^32, into a map that has room for them.
fn put_all(room: &mut HashMap<u32, u8>, addr: u32, bytes: &[u8])
    requires enough { HasRoom (spare room.old) (map.from_entries room.old.entries) addr (length bytes.now) }
    requires few { length bytes.now ≤ 64 }
    ensures { map.from_entries room.new.entries ≡ with_bytes (map.from_entries room.old.entries) addr bytes.now }
{
    let mut at = addr;
    for byte in bytes {
        // There is room, or the address is there: so this is never refused.
        let _ = room.insert(at, *byte);
        at = at.wrapping_add(1);
    }
}
