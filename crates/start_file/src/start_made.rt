//! The processor and the cache that the lines of a start text tell of.

ghost use Rattle.std.specs.Prelude.{◌≡◌, ◌<◌, ◌≤◌, ℕ, All, IfOk, IfErr, OnOk, [], length, slice_index, slice_index_or, is_some, ◌||◌};
ghost use Rattle.std.specs.Option.{unwrap_or};
ghost use Rattle.wx_base.specs.Machine.{IsShape};
ghost use Rattle.wx_base.specs.Cache.{IsCache};
ghost use Rattle.wx_mem.specs.Memory.{byte_at, is_written};
ghost use Rattle.cache_lru.specs.Lru.{lines_of};
ghost use Rattle.start_file.specs.StartSaid.{said, of_register, of_flags, of_fill, of_byte, of_set, no_flags, sets_said, AreRegisters, IsMemory, IsCacheOf};
ghost use Rattle.start_file.specs.StartMade.{NamesRegister, NamesList, IsCacheRefusal};

use crate::start_error::StartError;
use crate::start_item::Item;
use cache_lru::{Lru, LruError};
use std::alloc::{AllocError, Global};
use wx_base::{Flags, NoMemory, Shape};
use wx_mem::Memory;

/// The registers: 0 where no line tells one, and the entry in pc.
pub(crate) fn registers(items: &[Item], entry: u32) -> [u32; 16]
    requires { All NamesRegister items.now }
    ensures { AreRegisters entry items.now result }
{
    let mut registers = [0; 16];
    for item in items {
        set_register(&mut registers, item);
    }
    registers[15] = entry;
    registers
}

/// Sets the register that a line tells.
fn set_register(registers: &mut [u32; 16], item: &Item)
    requires { NamesRegister item.now }
    ensures { (n : ℕ) → slice_index registers.new n ≡ unwrap_or (of_register n item.now) (slice_index registers.old n) }
{
    if let Item::Register { number, value } = item {
        registers[*number as usize] = *value;
    }
}

/// The flags, none of them set where no line tells them.
pub(crate) fn flags(items: &[Item]) -> Flags
    ensures { result ≡ unwrap_or (said of_flags items.now) no_flags }
{
    let mut told = Flags {
        n: false,
        z: false,
        c: false,
        v: false,
    };
    for item in items {
        told = flags_of(item).unwrap_or(told);
    }
    told
}

/// The flags that a line tells.
fn flags_of(item: &Item) -> Option<Flags>
    ensures { result ≡ of_flags item.now }
{
    match item {
        Item::Flags { flags } => Some(*flags),
        _ => None,
    }
}

/// The byte of memory that neither the image nor a line has.
fn fill(items: &[Item]) -> u8
    ensures { result ≡ unwrap_or (said of_fill items.now) 0 }
{
    let mut told = 0;
    for item in items {
        told = fill_of(item).unwrap_or(told);
    }
    told
}

/// The byte with which a line fills memory.
fn fill_of(item: &Item) -> Option<u8>
    ensures { result ≡ of_fill item.now }
{
    match item {
        Item::Fill { byte } => Some(*byte),
        _ => None,
    }
}

/// The memory in which the bytes of the lines are written.
pub(crate) fn memory(alloc: Global, items: &[Item]) -> Result<Memory, NoMemory>
    ensures { IfOk result (IsMemory items.now) }
{
    let mut memory = Memory::new(alloc, fill(items));
    for item in items {
        write_byte(&mut memory, item)?;
    }
    Ok(memory)
}

/// Writes the byte that a line tells.
fn write_byte(memory: &mut Memory, item: &Item) -> Result<(), NoMemory>
    ensures fill { memory.new.fill ≡ memory.old.fill }
    ensures bytes { OnOk result ((at : ℕ) → byte_at memory.new at
        ≡ unwrap_or (of_byte at item.now) (byte_at memory.old at)) }
    ensures written { OnOk result ((at : ℕ) → is_written memory.new at
        ≡ (is_some (of_byte at item.now) || is_written memory.old at)) }
{
    match item {
        Item::Byte { address, byte } => memory.write(*address, *byte),
        _ => Ok(()),
    }
}

/// As many empty lists as there are sets.
fn empty_lists(alloc: Global, sets: u32) -> Result<Vec<Vec<u32>>, AllocError>
    ensures count { IfOk result (λ lists. length lists.items ≡ sets) }
    ensures empty { IfOk result (λ lists. All (λ list. list.items ≡ []) lists.items) }
{
    let mut lists = Vec::new(alloc);
    for _ in 0..sets {
        lists.push(Vec::new(alloc))?;
    }
    Ok(lists)
}

/// The lines of each set.
fn set_lists(alloc: Global, items: &[Item], shape: Shape) -> Result<Vec<Vec<u32>>, AllocError>
    requires { All (NamesList shape.sets) items.now }
    ensures count { IfOk result (λ lists. length lists.items ≡ shape.sets) }
    ensures lists { IfOk result (λ lists. lines_of lists.items ≡ sets_said shape items.now) }
{
    let mut lists = empty_lists(alloc, shape.sets)?;
    fill_lists(alloc, lists.as_mut_slice(), items)?;
    Ok(lists)
}

/// Sets each list that a line tells.
fn fill_lists(alloc: Global, lists: &mut [Vec<u32>], items: &[Item]) -> Result<(), AllocError>
    requires names { All (NamesList (length lists.old)) items.now }
    requires empty { All (λ list. list.items ≡ []) lists.old }
    ensures { OnOk result ((s : ℕ) → s < length lists.old → slice_index_or (lines_of lists.new) s []
        ≡ unwrap_or (said (of_set s) items.now) []) }
{
    for item in items {
        set_list(alloc, lists, item)?;
    }
    Ok(())
}

/// Sets the list that a line tells.
fn set_list(alloc: Global, lists: &mut [Vec<u32>], item: &Item) -> Result<(), AllocError>
    requires { NamesList (length lists.old) item.now }
    ensures { OnOk result ((s : ℕ) → s < length lists.old → slice_index_or (lines_of lists.new) s []
        ≡ unwrap_or (of_set s item.now) (slice_index_or (lines_of lists.old) s [])) }
{
    if let Item::Set { set, lines } = item {
        lists[*set as usize] = lines.as_slice().to_vec(alloc)?;
    }
    Ok(())
}

/// The cache whose sets hold the lines that the text gives them.
pub(crate) fn cache(alloc: Global, items: &[Item], shape: Shape) -> Result<Lru, StartError>
    requires shape { IsShape shape }
    requires sets { All (NamesList shape.sets) items.now }
    ensures made { IfOk result (IsCacheOf shape items.now) }
    ensures cache { OnOk result (IsCache shape (sets_said shape items.now)) }
    ensures refused { IfErr result (λ e. IsCacheRefusal shape items.now e) }
{
    let lists = set_lists(alloc, items, shape)?;
    match Lru::of_lists(alloc, shape, lists) {
        Ok(cache) => Ok(cache),
        Err(LruError::NotACache { set }) => Err(StartError::NotACache { set }),
        Err(LruError::NoMemory) => Err(StartError::NoMemory),
    }
}
