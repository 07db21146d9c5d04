ghost use Rattle.std.specs.Prelude.{◌≡◌, ◌⊎◌, List, IfErr, IfOk, IsErrAnd};
ghost use Rattle.wx_base.specs.Facts.{FactsAscend};
ghost use Rattle.ffx_facts.specs.declared.says.Says.{Says};
ghost use Rattle.ffx_facts.specs.declared.error.FactsError.{FactsError as Cause};
ghost use Rattle.ffx_facts.specs.declared.error.FactsError.TheVariants as refusal;
ghost use Rattle.ffx_facts.specs.Causes.{AreFactsOf, IsCause, IsFine};

use crate::error::FactsError;
use crate::gather::gather;
use crate::judge_all::judge_all;
use crate::scan::scan;
use std::alloc::Global;
use wx_base::{Facts, Symbol};

/// Reads a facts file: what its user says of loops, indirect jumps and indirect calls, by the addresses of these. A
/// label stands for the value that [`wx_base::find_symbol`] gives.
///
/// A file that is none, or whose elements say something impossible, is refused as [`FactsError`] says, and the first
/// cause decides. `NoMemory` may come in place of any answer.
///
/// Linear in the bytes, but for the attributes of a tag and the facts of a kind, which are kept in ordered sets (a
/// factor that is logarithmic in their number), and for labels: each one that counts is looked for among all symbols.
pub fn read_facts(alloc: Global, bytes: &[u8], symbols: &[Symbol]) -> Result<Facts, FactsError>
    // What was read is what the file states, and each list is in the order of addresses.
    ensures accepted { IfOk result (AreFactsOf bytes.now symbols.now) }
    ensures ascend { IfOk result FactsAscend }

    // What is refused has that fault, and none before it.
    ensures refused { IfErr result (λ e. (e ≡ refusal.NoMemory) ⊎ IsCause bytes.now symbols.now e) }

    // Unless memory runs out, a file without a fault is read, and one with a fault is refused so.
    ensures read { (all : List Says) → IsFine bytes.now symbols.now all → IfErr result (λ e. e ≡ refusal.NoMemory) }
    ensures exact { (cause : Cause) → IsCause bytes.now symbols.now cause
        → IsErrAnd result (λ e. (e ≡ refusal.NoMemory) ⊎ (e ≡ cause)) }
{
    read_checked(alloc, bytes, symbols)
}

// The facts of a file in which nothing is wrong.
fn read_checked(alloc: Global, bytes: &[u8], symbols: &[Symbol]) -> Result<Facts, FactsError>
    ensures accepted { IfOk result (AreFactsOf bytes.now symbols.now) }
    ensures refused { IfErr result (λ e. (e ≡ refusal.NoMemory) ⊎ IsCause bytes.now symbols.now e) }
{
    let elements = scan(alloc, bytes)?;
    let all = judge_all(alloc, symbols, &elements)?;
    Ok(gather(alloc, &all)?)
}
