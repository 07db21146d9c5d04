ghost use Rattle.std.specs.Prelude.{◌≡◌, ◌++◌, OnOk, OnErr};
ghost use Rattle.std.specs.Fmt.{decimal, signed_decimal};
ghost use Rattle.wx_text.specs.Decimal.{IsShortestDecimal};

use crate::memory::NoMemory;

/// Appends the shortest decimal spelling of `n`, with `-` before it below 0.
pub fn push_number(out: &mut Vec<u8>, n: i128) -> Result<(), NoMemory>
    ensures written { OnOk result (out.new.items ≡ out.old.items ++ signed_decimal n) }
    ensures kept { OnErr result (out.new.items ≡ out.old.items) }
{
    let text = format!(in *out.allocator(); "{n}")?;
    out.extend_from_slice(text.as_bytes())?;
    Ok(())
}

/// The law of the decimal spelling: digits alone, none but the number 0 begins with a zero, and their value is the number.
pub fn decimal_is_shortest(_n: u128)
    ensures { IsShortestDecimal _n (decimal _n) }
{}
