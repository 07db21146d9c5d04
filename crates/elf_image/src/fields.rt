//! The headers and tables of a file, field by field (System V ABI, chapters 4 and 5).

ghost use Rattle.std.specs.Prelude.{◌≡◌, ◌+◌, ◌≤◌, length};
ghost use Rattle.elf_image.specs.Fields.{file_header, program_header_at, section_header_at, symbol_entry_at};

use crate::bytes::{read_u16_at, read_u32_at};

/// How many bytes the file header has.
pub(crate) const FILE_HEADER_SIZE: usize = 52;
/// How many bytes a program header has.
pub(crate) const PROGRAM_HEADER_SIZE: usize = 32;
/// How many bytes a section header has.
pub(crate) const SECTION_HEADER_SIZE: usize = 40;
/// How many bytes an entry of a symbol table has.
pub(crate) const SYMBOL_SIZE: usize = 16;

/// The fields of the file header that count.
#[derive(Clone, Copy, Debug)]
pub(crate) struct FileHeader {
    /// 1 for 32 bit.
    pub class: u8,
    /// 1 for little-endian.
    pub order: u8,
    /// 2 for an executable.
    pub kind: u16,
    /// 40 for ARM.
    pub machine: u16,
    /// The address of the first instruction.
    pub entry: u32,
    /// Where the program headers begin in the file.
    pub phoff: u32,
    /// Where the section headers begin in the file, or 0.
    pub shoff: u32,
    /// The size of a program header in bytes.
    pub phentsize: u16,
    /// How many program headers there are.
    pub phnum: u16,
    /// The size of a section header in bytes.
    pub shentsize: u16,
    /// How many section headers there are.
    pub shnum: u16,
}

/// A program header: what is to lie in memory.
#[derive(Clone, Copy, Debug)]
pub(crate) struct ProgramHeader {
    /// 1 for a load header.
    pub kind: u32,
    /// Where its bytes begin in the file.
    pub offset: u32,
    /// The first address that it fills.
    pub vaddr: u32,
    /// How many bytes it has in the file.
    pub filesz: u32,
    /// How many bytes it fills in memory.
    pub memsz: u32,
    /// Bit 0 is set where it holds code.
    pub flags: u32,
}

/// A section header.
#[derive(Clone, Copy, Debug)]
pub(crate) struct SectionHeader {
    /// 2 for a symbol table.
    pub kind: u32,
    /// Where its bytes begin in the file.
    pub offset: u32,
    /// How many bytes it has.
    pub size: u32,
    /// Of a symbol table, the place of the section that has the names.
    pub link: u32,
    /// Of a table, the size of an entry.
    pub entsize: u32,
}

/// An entry of a symbol table.
#[derive(Clone, Copy, Debug)]
pub(crate) struct SymbolEntry {
    /// Where the name begins in the string table.
    pub name: u32,
    /// The value, mostly an address.
    pub value: u32,
    /// The binding in the upper four bits, the type in the lower.
    pub info: u8,
    /// The section that the symbol belongs to, 0 for one that is defined elsewhere.
    pub shndx: u16,
}

// The file header.
pub(crate) fn read_file_header(bytes: &[u8]) -> FileHeader
    requires { 52 ≤ length bytes.now }
    ensures { result ≡ file_header bytes.now }
{
    FileHeader {
        class: bytes[4],
        order: bytes[5],
        kind: read_u16_at(bytes, 16),
        machine: read_u16_at(bytes, 18),
        entry: read_u32_at(bytes, 24),
        phoff: read_u32_at(bytes, 28),
        shoff: read_u32_at(bytes, 32),
        phentsize: read_u16_at(bytes, 42),
        phnum: read_u16_at(bytes, 44),
        shentsize: read_u16_at(bytes, 46),
        shnum: read_u16_at(bytes, 48),
    }
}

// The program header at a place.
pub(crate) fn read_program_header(bytes: &[u8], at: usize) -> ProgramHeader
    requires { at + 32 ≤ length bytes.now }
    ensures { result ≡ program_header_at bytes.now at }
{
    ProgramHeader {
        kind: read_u32_at(bytes, at),
        offset: read_u32_at(bytes, at + 4),
        vaddr: read_u32_at(bytes, at + 8),
        filesz: read_u32_at(bytes, at + 16),
        memsz: read_u32_at(bytes, at + 20),
        flags: read_u32_at(bytes, at + 24),
    }
}

// The section header at a place.
pub(crate) fn read_section_header(bytes: &[u8], at: usize) -> SectionHeader
    requires { at + 40 ≤ length bytes.now }
    ensures { result ≡ section_header_at bytes.now at }
{
    SectionHeader {
        kind: read_u32_at(bytes, at + 4),
        offset: read_u32_at(bytes, at + 16),
        size: read_u32_at(bytes, at + 20),
        link: read_u32_at(bytes, at + 24),
        entsize: read_u32_at(bytes, at + 36),
    }
}

// The entry of a symbol table at a place.
pub(crate) fn read_symbol_entry(bytes: &[u8], at: usize) -> SymbolEntry
    requires { at + 16 ≤ length bytes.now }
    ensures { result ≡ symbol_entry_at bytes.now at }
{
    SymbolEntry {
        name: read_u32_at(bytes, at),
        value: read_u32_at(bytes, at + 4),
        info: bytes[at + 12],
        shndx: read_u16_at(bytes, at + 14),
    }
}
