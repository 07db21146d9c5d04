//! From the bytes of a file to its image.

ghost use Rattle.std.specs.Prelude.{◌≡◌, ◌⊎◌, IfErr, IfOk, IsErrAnd, OnOk};
ghost use Rattle.elf_image.specs.Causes.{IsFirstCause, IsRefusal, Passes};
ghost use Rattle.elf_image.specs.declared.error.ElfError.{ElfError};
ghost use Rattle.elf_image.specs.Meaning.{AreLoaded, image_of};

use crate::error::ElfError;
use crate::identity::check_identity;
use crate::load::load_segments;
use crate::overlap::read_apart_headers;
use crate::table::read_symbols;
use std::alloc::Global;
use wx_base::{Image, Segments, Symbols};

/// The most bytes that a file may have.
const MOST_BYTES: usize = 16_777_216;

/// Reads an executable for ARM in the ELF32 format (System V ABI, chapters 4 and 5): its entry, the
/// segments of its load headers and the symbols of its first symbol table.
///
/// A file that is no such executable is refused with the first [`ElfError`] whose cause stands, in
/// the order of the variants from `Short` on. `NoMemory` may come in place of any answer.
///
/// Linear in the bytes, the headers and the symbols with their names, with three exceptions that no
/// compiler's output meets. The headers are sorted by their addresses. Where load headers overlap,
/// each up to the first that does is compared with each later one. The string table of each symbol
/// table is looked through from its end to its last zero, also where many symbol tables share one.
pub fn read_image(alloc: Global, bytes: &[u8]) -> Result<Image, ElfError>
    // What was read has no fault, and is what the file stands for.
    ensures accepted { OnOk result (Passes 11 bytes.now) }
    ensures image { IfOk result (λ image. image ≡ image_of bytes.now) }

    // The segments lie within the address space, hold their bytes, and do not overlap.
    ensures loaded { IfOk result (λ image. AreLoaded image.segments) }

    // What is refused has that fault, and none before it.
    ensures refused { IfErr result (IsRefusal bytes.now) }

    // Unless memory runs out, a file without a fault is read, and one with a fault is refused so.
    ensures read { Passes 11 bytes.now → IfErr result (λ e. e ≡ ElfError.NoMemory) }
    ensures exact { (first : ElfError) → IsFirstCause bytes.now first
        → IsErrAnd result (λ e. (e ≡ ElfError.NoMemory) ⊎ (e ≡ first)) }
{
    read_checked(alloc, bytes)
}

// The image of a file that has no fault.
fn read_checked(alloc: Global, bytes: &[u8]) -> Result<Image, ElfError>
    ensures accepted { OnOk result (Passes 11 bytes.now) }
    ensures image { IfOk result (λ image. image ≡ image_of bytes.now) }
    ensures loaded { IfOk result (λ image. AreLoaded image.segments) }
    ensures refused { IfErr result (IsRefusal bytes.now) }
{
    let header = check_identity(bytes)?;
    let headers = read_apart_headers(alloc, bytes, &header)?;
    if header.entry % 2 == 1 {
        return Err(ElfError::ThumbEntry);
    }
    let symbols = read_symbols(alloc, bytes, &header)?;
    if bytes.len() > MOST_BYTES {
        let bytes = bytes.len() as u64;
        return Err(ElfError::TooLarge { bytes });
    }
    Ok(Image {
        entry: header.entry,
        segments: Segments::new(load_segments(alloc, bytes, &headers)?),
        symbols: Symbols::new(symbols),
    })
}
