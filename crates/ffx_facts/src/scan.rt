ghost use Rattle.std.specs.Prelude.{map, MatchResult};
ghost use Rattle.ffx_facts.specs.File.{IsFile};
ghost use Rattle.ffx_facts.specs.Refusals.{IsSyntax};
ghost use Rattle.ffx_facts.specs.Scan.{element};

use crate::element::Element;
use crate::error::FactsError;
use crate::state::Scanner;
use std::alloc::Global;

// The elements of a facts file, in the order of their `<`.
pub(crate) fn scan(alloc: Global, bytes: &[u8]) -> Result<Vec<Element<'_>>, FactsError>
    ensures { MatchResult result (λ v. IsFile bytes.now (map element v.items)) (IsSyntax bytes.now) }
{
    let mut scanner = Scanner::new(alloc, bytes);
    for (at, byte) in bytes.iter().enumerate() {
        if !scanner.take(*byte)? {
            let at = at as u64;
            return Err(FactsError::Syntax { at });
        }
    }
    if !scanner.is_whole() {
        let at = bytes.len() as u64;
        return Err(FactsError::Syntax { at });
    }
    Ok(scanner.into_elements())
}
