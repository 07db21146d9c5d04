//! What stands at an address that is reached.

ghost use Rattle.std.specs.Prelude.{◌≡◌, true, IfOk, Some};
ghost use Rattle.wx_base.specs.Facts.{FactsAscend};
ghost use Rattle.wx_base.specs.Flow.{flow_of};
ghost use Rattle.wx_base.specs.Image.{is_code_word, word_of};
ghost use Rattle.arm_code.specs.Encoding.{decoded};
ghost use Rattle.flow_graph.specs.Reached.{IsSite};

use crate::insn_ways::ways_by;
use arm_code::{FlowKind, Insn, decode, flow, no_flow};
use flow_block::callees;
use smallvec::SmallVec;
use std::alloc::Global;
use wx_base::{Facts, Image, NoMemory};

/// What stands at an address that is reached, and where it leads.
#[derive(Drop)]
pub(crate) struct Site {
    /// The address.
    pub address: u32,
    /// The word there.
    pub word: u32,
    /// The instruction that the word is; none if it is none of the subset.
    pub insn: Option<Insn>,
    /// What it is to the flow.
    pub flow: FlowKind,
    /// Where it leads in its function, ascending.
    pub ways: SmallVec<u32, 4>,
    /// The functions that it may call, ascending.
    pub callees: Vec<u32>,
}

/// The word of code at an address.
fn code_word(image: &Image, address: u32) -> u32
    requires { is_code_word image.now address ≡ true }
    ensures { word_of image.now address ≡ Some result }
{
    // The four bytes of a word of code lie in segments, so the word is there.
    image.word_at(address).unwrap()
}

/// The instruction that a word is, and what it is to the flow at an address.
fn read(word: u32, address: u32) -> (Option<Insn>, FlowKind)
    ensures insn { result.0 ≡ decoded word }
    ensures flow { result.1 ≡ flow_of word address }
{
    match decode(word) {
        Some(insn) => (Some(insn), flow(&insn, address)),
        None => (None, no_flow()),
    }
}

/// Looks at an address where a word of code stands.
pub(crate) fn look(
    alloc: Global,
    image: &Image,
    facts: &Facts,
    address: u32,
) -> Result<Site, NoMemory>
    requires facts { FactsAscend facts.now }
    requires code { is_code_word image.now address ≡ true }
    ensures site { IfOk result (λ s. IsSite image.now facts.now s) }
    ensures address { IfOk result (λ s. s.address ≡ address) }
{
    let word = code_word(image, address);
    let (insn, flow) = read(word, address);
    let ways = ways_by(alloc, flow, address, facts)?;
    let callees = callees(alloc, flow, address, facts)?;
    Ok(Site {
        address,
        word,
        insn,
        flow,
        ways,
        callees,
    })
}
