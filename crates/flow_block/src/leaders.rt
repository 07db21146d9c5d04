//! Where blocks of a function begin whatever stands before: at its entry, at targets of its jumps, and behind
//! instructions that may jump, call, return or end the run.

ghost use Rattle.std.specs.Prelude.{◌≡◌, IfOk, length};
ghost use Rattle.wx_base.specs.Facts.{AreAscending, FactsAscend};
ghost use Rattle.wx_base.specs.Flow.{flow_of};
ghost use Rattle.arm_code.specs.Encoding.{IsValid, word_of};
ghost use Rattle.flow_block.specs.Code.{Subject, IsCode, entered_by, AreMarked, AreLeaders};
ghost use Rattle.flow_block.specs.Sites.{is_end};

use crate::code::{Code, find};
use crate::targets::{is_call, jumps};
use arm_code::{Insn, flow};
use std::alloc::Global;
use wx_base::{Facts, FlowKind, NoMemory};

/// Whether an instruction may jump, call, return or end the run.
pub(crate) fn is_end(flow: FlowKind) -> bool
    ensures { result ≡ is_end flow }
{
    flow.jump.is_some() || is_call(flow) || flow.ret || flow.indirect || flow.stop
}

/// Where an instruction at an address lets blocks begin.
fn starts_by(alloc: Global, insn: &Insn, address: u32, facts: &Facts) -> Result<Vec<u32>, NoMemory>
    requires valid { IsValid insn.now }
    requires ascend { FactsAscend facts.now }
    ensures { IfOk result (λ list. list.items ≡ entered_by facts.now address (flow_of (word_of insn.now) address)) }
{
    let flow = flow(insn, address);
    let mut list = jumps(alloc, flow, address, facts)?;
    if is_end(flow) {
        list.push(address.wrapping_add(4))?;
    }
    Ok(list)
}

/// Sets the marks of the function's instructions at some addresses.
fn mark(marks: &mut Vec<bool>, code: &Code, body: &[bool], list: &[u32])
    requires ascending { AreAscending code.now.addresses.now }
    requires body_each { length body.now ≡ length code.now.addresses.now }
    requires mark_each { length marks.old.items ≡ length code.now.addresses.now }
    ensures { AreMarked code.now.addresses.now body.now marks.old.items marks.new.items list.now }
{
    for address in list {
        if let Some(place) = find(code.addresses, *address) {
            if body[place] {
                marks[place] = true;
            }
        }
    }
}

/// Marks at the instructions of a function where blocks begin whatever stands before.
pub(crate) fn leaders(
    alloc: Global,
    code: &Code,
    body: &[bool],
    facts: &Facts,
    entry: u32,
) -> Result<Vec<bool>, NoMemory>
    ghost of: { Subject }
    requires code { IsCode of code.now.addresses.now code.now.insns.now body.now }
    requires by_facts { of.facts ≡ facts.now }
    requires at { of.entry ≡ entry }
    requires ascend { FactsAscend facts.now }
    ensures { IfOk result (λ marks. AreLeaders of code.now.addresses.now marks.items) }
{
    let mut marks = vec![in alloc; false; code.addresses.len()]?;
    mark(&mut marks, code, body, &[entry]);
    for place in 0..code.addresses.len() {
        if body[place] {
            let list = starts_by(alloc, &code.insns[place], code.addresses[place], facts)?;
            mark(&mut marks, code, body, &list);
        }
    }
    Ok(marks)
}
