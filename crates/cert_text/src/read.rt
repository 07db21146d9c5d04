ghost use Rattle.std.specs.Prelude.{◌≡◌, ◌≢◌, ◌++◌, ℕ, ◌<◌, ◌^◌, List, [], length, All, IfOk, IfErr};
ghost use Rattle.cert_items.specs.Said.{Fits};
ghost use Rattle.cert_text.specs.declared.certificate.Certificate.{Certificate as ACertificate};
ghost use Rattle.cert_text.specs.declared.cert_error.CertError.{CertError as Refusal};
ghost use Rattle.cert_text.specs.declared.cert_error.CertError.TheVariants as refusal;
ghost use Rattle.cert_text.specs.Told.{certificate_of};
ghost use Rattle.cert_text.specs.Text.{IsTextOf, IsRefusal, IsRefusedFor, of_lines, of_items};
ghost use Rattle.cert_text.specs.Writable.{IsWritable};

use crate::cert_error::CertError;
use crate::certificate::Certificate;
use crate::nodes::families;
use crate::parts::{bound, charges, listed, multipliers, totals};
use cert_items::{Item, ItemsError, read_items};
use cert_lines::{LinesError, read_lines};
use std::alloc::Global;
use wx_text::{List as ListOf, NoMemory};

impl From<LinesError> for CertError {
    ghost from_gives = { λ e r. r ≡ of_lines e };

    fn from(e: LinesError) -> CertError {
        match e {
            LinesError::Syntax { at } => CertError::Syntax { at },
            LinesError::NoEnd => CertError::NoEnd,
            LinesError::NoMemory => CertError::NoMemory,
        }
    }
}

impl From<ItemsError> for CertError {
    ghost from_gives = { λ e r. r ≡ of_items e };

    fn from(e: ItemsError) -> CertError {
        match e {
            ItemsError::Number { line } => CertError::Number { line },
            ItemsError::Order { line } => CertError::Order { line },
            ItemsError::NoMemory => CertError::NoMemory,
        }
    }
}

/// The certificate that the lines of a text tell.
fn certificate_in(alloc: Global, items: &[Item]) -> Result<Certificate, NoMemory>
    requires { All Fits items.now }
    ensures { IfOk result (λ c. c ≡ certificate_of items.now) }
{
    let pool = listed(alloc, items)?;
    Ok(Certificate {
        families: ListOf::new(families(alloc, pool.as_slice(), items)?),
        charges: ListOf::new(charges(alloc, items)?),
        multipliers: ListOf::new(multipliers(alloc, items)?),
        totals: ListOf::new(totals(alloc, items)?),
        bound: bound(items),
    })
}

/// The certificate whose text, of either version, the bytes are. Linear in the text.
///
/// `Syntax` where the bytes begin no certificate's text, at the end of the longest front that does; `NoEnd` where
/// something is left out at the end. Else the first line with a fault is refused: `Number` where one of its numbers has
/// a leading zero or is out of its range, else `Order` where what it tells does not stand in order.
///
/// What is read can be written, as a text of version 2, if there are fewer than 2^32 bytes.
pub fn read_cert(alloc: Global, bytes: &[u8]) -> Result<Certificate, CertError>
    ensures read { IfOk result (λ c. IsTextOf bytes.now c) }
    ensures once { (c : ACertificate) → IsTextOf bytes.now c → IfOk result (λ x. x ≡ c) }
    ensures taken { (c : ACertificate) → IsTextOf bytes.now c → IfErr result (λ e. e ≡ refusal.NoMemory) }
    ensures refused { IfErr result (λ e. IsRefusal bytes.now e) }
    ensures due { (e : Refusal) → IsRefusal bytes.now e → e ≢ refusal.NoMemory → IsRefusedFor result e }
    ensures writable { length bytes.now < 2 ^ 32 → IfOk result (λ c. IsWritable c) }
    ensures front { (more : List ℕ) (c : ACertificate) → more ≢ [] → IsTextOf (bytes.now ++ more) c → IsRefusedFor result
        refusal.NoEnd }
{
    let lines = read_lines(alloc, bytes)?;
    let items = read_items(alloc, lines.rows.as_slice())?;
    Ok(certificate_in(alloc, items.as_slice())?)
}
