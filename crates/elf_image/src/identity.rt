//! What the file header says of the file as a whole.

ghost use Rattle.std.specs.Prelude.{◌≡◌, ◌≤◌, IfErr, IfOk, OnOk, length};
ghost use Rattle.elf_image.specs.Causes.{IsRefusal, Passes};
ghost use Rattle.elf_image.specs.Fields.{file_header};

use crate::error::ElfError;
use crate::fields::{FILE_HEADER_SIZE, FileHeader, read_file_header};

const CLASS_32: u8 = 1;

const LITTLE_ENDIAN: u8 = 1;

const EXECUTABLE: u16 = 2;

const ARM: u16 = 40;

// The file header, of a file that is a little-endian 32-bit executable for ARM.
pub(crate) fn check_identity(bytes: &[u8]) -> Result<FileHeader, ElfError>
    ensures passes { OnOk result (Passes 6 bytes.now) }
    ensures long { OnOk result (52 ≤ length bytes.now) }
    ensures header { IfOk result (λ h. h ≡ file_header bytes.now) }
    ensures refused { IfErr result (IsRefusal bytes.now) }
{
    if bytes.len() < FILE_HEADER_SIZE {
        let at = bytes.len() as u64;
        return Err(ElfError::Short { at });
    }
    if &bytes[..4] != b"\x7fELF".as_slice() {
        return Err(ElfError::NotElf);
    }
    let header = read_file_header(bytes);
    let found = header.class;
    if found != CLASS_32 {
        return Err(ElfError::Class { found });
    }
    let found = header.order;
    if found != LITTLE_ENDIAN {
        return Err(ElfError::Order { found });
    }
    let found = header.kind;
    if found != EXECUTABLE {
        return Err(ElfError::Kind { found });
    }
    let found = header.machine;
    if found != ARM {
        return Err(ElfError::Machine { found });
    }
    Ok(header)
}
