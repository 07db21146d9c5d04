ghost use Rattle.std.specs.Prelude.{◌≡◌, ◌≢◌, ℕ, List, IfOk, IfErr};
ghost use Rattle.cert_lines.specs.declared.kind.Version.{Version as AVersion};
ghost use Rattle.cert_lines.specs.declared.lines_error.LinesError.{LinesError as Refusal};
ghost use Rattle.cert_lines.specs.declared.lines_error.LinesError.TheVariants as refusal;
ghost use Rattle.cert_lines.specs.Grammar.{Line, IsText};
ghost use Rattle.cert_lines.specs.Reading.{lines_of, IsRefusal, IsRefusedFor};

use crate::lines_error::LinesError;
use crate::reader::Reader;
use crate::row::Lines;
use std::alloc::Global;

/// The lines that the bytes are as a certificate's text, of either version. Linear in the text.
///
/// `Syntax` where the bytes begin no such text, at the end of the longest front that does; `NoEnd` where something is
/// left out at the end.
pub fn read_lines(alloc: Global, bytes: &[u8]) -> Result<Lines<'_>, LinesError>
    ensures read { IfOk result (λ x. IsText bytes.now x.version (lines_of x.rows)) }
    ensures once { (v : AVersion) (lines : List Line) → IsText bytes.now v lines → IfOk result
        (λ x. (x.version ≡ v) × (lines_of x.rows ≡ lines)) }
    ensures taken { (v : AVersion) (lines : List Line) → IsText bytes.now v lines → IfErr result
        (λ e. e ≡ refusal.NoMemory) }
    ensures refused { IfErr result (λ e. IsRefusal bytes.now e) }
    ensures due { (e : Refusal) → IsRefusal bytes.now e → e ≢ refusal.NoMemory → IsRefusedFor result e }
{
    let mut reader = Reader::new(alloc, bytes);
    for at in 0..bytes.len() {
        if !reader.take(at)? {
            return Err(LinesError::Syntax { at: at as u64 });
        }
    }
    if !reader.is_whole() {
        return Err(LinesError::NoEnd);
    }
    Ok(reader.into_lines())
}
