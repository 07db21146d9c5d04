//! Section headers, and the symbols of the first symbol table.

ghost use Rattle.std.specs.Prelude.{◌≡◌, ◌≢◌, ◌<◌, ◌≤◌, ◌+◌, ◌*◌, ◌/◌, ◌%◌, ◌↔◌, ◌==◌, ℕ, IfErr, IfOk, IsTrue, MatchOption, MatchResult, OnOk, filter, find, length, map};
ghost use Rattle.std.specs.List.{range_with_len};
ghost use Rattle.std.specs.Option.{option_copied};
ghost use Rattle.elf_image.specs.Causes.{HasSections, HasStrings, IsRefusal, IsSoundTable, NamesEndWithin, Passes, SectionInFile, SectionIsSound, string_table};
ghost use Rattle.elf_image.specs.Fields.{file_header, section_header, symbol_entry};
ghost use Rattle.elf_image.specs.Meaning.{symbol, symbols_of, table_symbols};

use crate::bytes::part_of;
use crate::error::ElfError;
use crate::fields::{
    FileHeader, SECTION_HEADER_SIZE, SYMBOL_SIZE, SectionHeader, SymbolEntry, read_section_header,
    read_symbol_entry,
};
use crate::strings::{last_zero, read_string};
use std::alloc::{AllocError, Global};
use wx_base::Symbol;

const SYMBOL_TABLE: u32 = 2;

const GLOBAL: u8 = 1;

const WEAK: u8 = 2;

// The symbols of the first symbol table.
//
// Linear in the section headers, the entries of the symbol tables, the bytes of the string table of
// each symbol table, and the names of the symbols.
pub(crate) fn read_symbols(
    alloc: Global,
    bytes: &[u8],
    header: &FileHeader,
) -> Result<Vec<Symbol>, ElfError>
    requires header_of { header.now ≡ file_header bytes.now }
    requires before { Passes 9 bytes.now }
    ensures passes { OnOk result (Passes 10 bytes.now) }
    ensures symbols { IfOk result (λ v. v.items ≡ symbols_of bytes.now) }
    ensures refused { IfErr result (IsRefusal bytes.now) }
{
    if header.shoff == 0 || header.shnum == 0 {
        return Ok(Vec::new(alloc));
    }
    let sections = read_section_headers(alloc, bytes, header)?;
    check_tables(bytes, &sections)?;
    match first_table(&sections) {
        Some(section) => Ok(read_table(alloc, bytes, &sections, section)?),
        None => Ok(Vec::new(alloc)),
    }
}

// The section headers, each of which lies in the file.
fn read_section_headers(
    alloc: Global,
    bytes: &[u8],
    header: &FileHeader,
) -> Result<Vec<SectionHeader>, ElfError>
    requires header_of { header.now ≡ file_header bytes.now }
    requires named { HasSections bytes.now }
    requires before { Passes 9 bytes.now }
    ensures sized { OnOk result ((file_header bytes.now).shentsize ≡ 40) }
    ensures in_file { OnOk result ((i : ℕ) → i < (file_header bytes.now).shnum → SectionInFile bytes.now i) }
    ensures headers { IfOk result
        (λ v. v.items ≡ map (section_header bytes.now) (range_with_len 0 (file_header bytes.now).shnum)) }
    ensures refused { IfErr result (IsRefusal bytes.now) }
{
    if header.shentsize as usize != SECTION_HEADER_SIZE {
        return Err(ElfError::Symbols { index: 0 });
    }
    let mut sections = Vec::new(alloc);
    let mut at = header.shoff as usize;
    for index in 0..header.shnum {
        if at > bytes.len() || bytes.len() - at < SECTION_HEADER_SIZE {
            let index = u64::from(index);
            return Err(ElfError::Symbols { index });
        }
        sections.push(read_section_header(bytes, at))?;
        at += SECTION_HEADER_SIZE;
    }
    Ok(sections)
}

// The first symbol table.
fn first_table(sections: &[SectionHeader]) -> Option<&SectionHeader>
    ensures { option_copied result ≡ find (λ s. s.kind == 2) sections.now }
{
    sections.iter().find(|s| s.kind == SYMBOL_TABLE)
}

// That each symbol table is whole.
fn check_tables(bytes: &[u8], sections: &[SectionHeader]) -> Result<(), ElfError>
    requires headers { sections.now ≡ map (section_header bytes.now) (range_with_len 0 (file_header bytes.now).shnum) }
    requires named { HasSections bytes.now }
    requires sized { (file_header bytes.now).shentsize ≡ 40 }
    requires in_file { (i : ℕ) → i < (file_header bytes.now).shnum → SectionInFile bytes.now i }
    requires before { Passes 9 bytes.now }
    ensures sound { OnOk result ((i : ℕ) → i < (file_header bytes.now).shnum → SectionIsSound bytes.now i) }
    ensures refused { IfErr result (IsRefusal bytes.now) }
{
    for (i, section) in sections.iter().enumerate() {
        if section.kind == SYMBOL_TABLE && !is_sound_table(bytes, sections, section) {
            let index = i as u64;
            return Err(ElfError::Symbols { index });
        }
    }
    Ok(())
}

// Whether a symbol table is whole.
fn is_sound_table(bytes: &[u8], sections: &[SectionHeader], section: &SectionHeader) -> bool
    requires { sections.now ≡ map (section_header bytes.now) (range_with_len 0 (file_header bytes.now).shnum) }
    ensures { IsTrue result ↔ IsSoundTable bytes.now section.now }
{
    if section.entsize as usize != SYMBOL_SIZE || section.size as usize % SYMBOL_SIZE != 0 {
        return false;
    }
    if !lies_in_file(bytes, section) || !has_strings(bytes, sections, section) {
        return false;
    }
    names_end(bytes, section, string_table(bytes, sections, section))
}

// Whether the bytes of a section lie in the file.
fn lies_in_file(bytes: &[u8], section: &SectionHeader) -> bool
    ensures { IsTrue result ↔ (section.now.offset + section.now.size ≤ length bytes.now) }
{
    section.offset as usize + section.size as usize <= bytes.len()
}

// Whether the section that has the names of a symbol table is there and lies in the file.
fn has_strings(bytes: &[u8], sections: &[SectionHeader], section: &SectionHeader) -> bool
    requires { sections.now ≡ map (section_header bytes.now) (range_with_len 0 (file_header bytes.now).shnum) }
    ensures { IsTrue result ↔ HasStrings bytes.now section.now }
{
    let link = section.link as usize;
    link < sections.len() && lies_in_file(bytes, &sections[link])
}

// The string table that has the names of a symbol table.
fn string_table<'a>(
    bytes: &'a [u8],
    sections: &[SectionHeader],
    section: &SectionHeader,
) -> &'a [u8]
    requires headers { sections.now ≡ map (section_header bytes.now) (range_with_len 0 (file_header bytes.now).shnum) }
    requires strings { HasStrings bytes.now section.now }
    ensures { result.now ≡ string_table bytes.now section.now }
{
    let strings = sections[section.link as usize];
    part_of(bytes, strings.offset as usize, strings.size as usize)
}

// Whether each name of a symbol table begins and ends in a string table.
fn names_end(bytes: &[u8], section: &SectionHeader, table: &[u8]) -> bool
    requires { section.now.offset + section.now.size ≤ length bytes.now }
    ensures { IsTrue result ↔ NamesEndWithin bytes.now section.now table.now }
{
    if (section.size as usize) < SYMBOL_SIZE {
        return true;
    }
    match last_zero(table) {
        Some(last) => names_begin_by(bytes, section, last),
        None => false,
    }
}

// Whether each name of a symbol table begins no later than at a place of the string table.
fn names_begin_by(bytes: &[u8], section: &SectionHeader, last: usize) -> bool
    requires { section.now.offset + section.now.size ≤ length bytes.now }
    ensures { IsTrue result
        ↔ ((i : ℕ) → i < section.now.size / 16 → (symbol_entry bytes.now section.now i).name ≤ last) }
{
    for i in 0..section.size as usize / SYMBOL_SIZE {
        let entry = read_symbol_entry(bytes, section.offset as usize + SYMBOL_SIZE * i);
        if entry.name as usize > last {
            return false;
        }
    }
    true
}

// The symbols of a symbol table, without those that are defined elsewhere.
fn read_table(
    alloc: Global,
    bytes: &[u8],
    sections: &[SectionHeader],
    section: &SectionHeader,
) -> Result<Vec<Symbol>, AllocError>
    requires headers { sections.now ≡ map (section_header bytes.now) (range_with_len 0 (file_header bytes.now).shnum) }
    requires sound { IsSoundTable bytes.now section.now }
    ensures { IfOk result (λ v. v.items ≡ table_symbols bytes.now section.now) }
{
    let table = string_table(bytes, sections, section);
    let mut symbols = Vec::new(alloc);
    for i in 0..section.size as usize / SYMBOL_SIZE {
        let entry = read_symbol_entry(bytes, section.offset as usize + SYMBOL_SIZE * i);
        if entry.shndx != 0 {
            symbols.push(read_symbol(alloc, table, &entry)?)?;
        }
    }
    Ok(symbols)
}

// The symbol of an entry of a symbol table.
fn read_symbol(alloc: Global, table: &[u8], entry: &SymbolEntry) -> Result<Symbol, AllocError>
    requires { entry.now.name ≤ length table.now }
    ensures { IfOk result (λ s. s ≡ symbol table.now entry.now) }
{
    let binding = entry.info / 16;
    Ok(Symbol {
        name: read_string(alloc, table, entry.name as usize)?,
        value: entry.value,
        global: binding == GLOBAL || binding == WEAK,
    })
}
