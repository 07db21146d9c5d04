ghost use Rattle.std.specs.Prelude.{◌≡◌, ◌<◌, ◌/◌, ◌%◌, ◌^◌, ◌++◌, OnOk, OnErr};
ghost use Rattle.wx_text.specs.Hexadecimal.{hex_digit, hex_word};

use crate::memory::NoMemory;

/// Appends a word as eight lower-case hexadecimal digits, the highest first.
#[tactic(auto, unfolding(crate::specs::Hexadecimal::hex_word))]
pub fn push_word(out: &mut Vec<u8>, word: u32) -> Result<(), NoMemory>
    ensures written { OnOk result (out.new.items ≡ out.old.items ++ hex_word word) }
    ensures kept { OnErr result (out.new.items ≡ out.old.items) }
{
    let digits = [
        digit(word >> 28),
        digit(word >> 24),
        digit(word >> 20),
        digit(word >> 16),
        digit(word >> 12),
        digit(word >> 8),
        digit(word >> 4),
        digit(word),
    ];
    out.extend_from_slice(&digits)?;
    Ok(())
}

/// The digit of the lowest four bits.
fn digit(bits: u32) -> u8
    ensures { result ≡ hex_digit (bits % 16) }
{
    let value = (bits % 16) as u8;
    if value < 10 {
        b'0' + value
    } else {
        b'a' + (value - 10)
    }
}
