//! Laws of facts files, each the clause of a function without code.

ghost use Rattle.std.specs.Prelude.{List, ℕ};
ghost use Rattle.ffx_facts.specs.Document.{IsDocument};
ghost use Rattle.ffx_facts.specs.File.{IsFile};
ghost use Rattle.ffx_facts.specs.Grammar.{IsSpelled};
ghost use Rattle.ffx_facts.specs.Laws.{FactsAreOne, NotBoth, OneCause, StatedOrRefused};
ghost use Rattle.ffx_facts.specs.Machine.{Element as Read};

/// What the grammar spells, piece by piece, is read byte by byte as a file with the same elements.
pub fn spelled_is_a_file()
    ensures { (bytes : List ℕ) (elements : List Read) → IsSpelled bytes elements → IsFile bytes elements }
{}

/// What is read byte by byte as a file is spelled by the grammar, piece by piece, with the same elements.
pub fn a_file_is_spelled()
    ensures { (bytes : List ℕ) (elements : List Read) → IsFile bytes elements → IsSpelled bytes elements }
{}

/// A document, an element within another, is read byte by byte as a file with the same elements.
pub fn a_document_is_a_file()
    ensures { (bytes : List ℕ) (elements : List Read) → IsDocument bytes elements → IsFile bytes elements }
{}

/// What is read byte by byte as a file is a document with the same elements.
pub fn a_file_is_a_document()
    ensures { (bytes : List ℕ) (elements : List Read) → IsFile bytes elements → IsDocument bytes elements }
{}

/// With the symbols of an image, bytes state one set of facts: what [`crate::read_facts`] accepts has no second
/// reading.
pub fn facts_are_one()
    ensures { FactsAreOne }
{}

/// Exactly one answer of [`crate::read_facts`] is due, whatever the bytes and the symbols, but for want of memory: they
/// state facts, and no others, or one cause of a refusal stands.
pub fn one_answer_is_due()
    ensures some { StatedOrRefused }
    ensures one_set { FactsAreOne }
    ensures one_cause { OneCause }
    ensures not_both { NotBoth }
{}
