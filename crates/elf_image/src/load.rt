//! Program headers, and the segments that they describe.

ghost use Rattle.std.specs.Prelude.{◌≡◌, ◌≤◌, ◌<◌, ◌↔◌, ℕ, All, IfErr, IfOk, IsTrue, MatchOption, OnOk, filter, length, map};
ghost use Rattle.elf_image.specs.Causes.{IsRefusal, IsSoundHeader, IsSoundHeaderAt, IsSoundLoad, Passes};
ghost use Rattle.elf_image.specs.Fields.{file_header, fills, program_header_at, program_headers};
ghost use Rattle.elf_image.specs.Meaning.{segment};

use crate::bytes::part_of;
use crate::error::ElfError;
use crate::fields::{FileHeader, PROGRAM_HEADER_SIZE, ProgramHeader, read_program_header};
use std::alloc::{AllocError, Global};
use wx_base::{Segment, Text};

const LOAD: u32 = 1;

const ADDRESSES: u64 = 0x1_0000_0000;

// The program headers, each of which lies in the file and can be loaded, if it is to be.
pub(crate) fn read_program_headers(
    alloc: Global,
    bytes: &[u8],
    header: &FileHeader,
) -> Result<Vec<ProgramHeader>, ElfError>
    requires header_of { header.now ≡ file_header bytes.now }
    requires before { Passes 6 bytes.now }
    ensures passes { OnOk result (Passes 7 bytes.now) }
    ensures headers { IfOk result (λ v. v.items ≡ program_headers bytes.now) }
    ensures sound { OnOk result ((i : ℕ) → i < (file_header bytes.now).phnum → IsSoundHeader bytes.now i) }
    ensures refused { IfErr result (IsRefusal bytes.now) }
{
    if header.phnum != 0 && header.phentsize as usize != PROGRAM_HEADER_SIZE {
        return Err(ElfError::Header { index: 0 });
    }
    let mut headers = Vec::new(alloc);
    let mut at = header.phoff as usize;
    for index in 0..header.phnum {
        match sound_header(bytes, at) {
            Some(program_header) => headers.push(program_header)?,
            None => {
                let index = u64::from(index);
                return Err(ElfError::Header { index });
            }
        }
        at += PROGRAM_HEADER_SIZE;
    }
    Ok(headers)
}

// The program header at a place, if it lies in the file and can be loaded, if it is to be.
fn sound_header(bytes: &[u8], at: usize) -> Option<ProgramHeader>
    ensures { MatchOption result (IsSoundHeaderAt bytes.now at → ⊥)
        (λ h. IsSoundHeaderAt bytes.now at × (h ≡ program_header_at bytes.now at)) }
{
    if at > bytes.len() || bytes.len() - at < PROGRAM_HEADER_SIZE {
        return None;
    }
    let header = read_program_header(bytes, at);
    if header.kind == LOAD && !is_sound_load(bytes.len() as u64, &header) {
        return None;
    }
    Some(header)
}

// Whether the bytes of a load header lie in a file of this length, fill no more than it takes, and
// end within the address space.
fn is_sound_load(len: u64, header: &ProgramHeader) -> bool
    ensures { IsTrue result ↔ IsSoundLoad len header.now }
{
    u64::from(header.offset) + u64::from(header.filesz) <= len
        && header.filesz <= header.memsz
        && u64::from(header.vaddr) + u64::from(header.memsz) <= ADDRESSES
}

// Whether a program header is a load header that fills memory.
pub(crate) fn is_filling(header: &ProgramHeader) -> bool
    ensures { result ≡ fills header.now }
{
    header.kind == LOAD && header.memsz > 0
}

// The segments of the load headers that fill memory.
pub(crate) fn load_segments(
    alloc: Global,
    bytes: &[u8],
    headers: &[ProgramHeader],
) -> Result<Vec<Segment>, AllocError>
    requires { All (λ h. h.kind ≡ 1 → IsSoundLoad (length bytes.now) h) headers.now }
    ensures { IfOk result (λ v. v.items ≡ map (segment bytes.now) (filter fills headers.now)) }
{
    let mut segments = Vec::new(alloc);
    for header in headers {
        if is_filling(header) {
            segments.push(load_segment(alloc, bytes, header)?)?;
        }
    }
    Ok(segments)
}

// The segment of a load header.
fn load_segment(alloc: Global, bytes: &[u8], header: &ProgramHeader) -> Result<Segment, AllocError>
    requires { IsSoundLoad (length bytes.now) header.now }
    ensures { IfOk result (λ s. s ≡ segment bytes.now header.now) }
{
    let part = part_of(bytes, header.offset as usize, header.filesz as usize);
    Ok(Segment {
        first: header.vaddr,
        size: u64::from(header.memsz),
        code: header.flags % 2 == 1,
        bytes: Text::new(Vec::from_slice(alloc, part)?),
    })
}
