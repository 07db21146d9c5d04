//! A reply, or want of memory, as it is handed over to a sink.

ghost use Rattle.std.specs.Prelude.{◌≡◌, ◌≢◌, ◌≤◌, ℕ, List, length, drop};
ghost use Rattle.wcet_front.specs.Handing.{HandsOver, Puts};
ghost use Rattle.wcet_front.specs.Reply.{IsNoFault, IsSaid, memory_line};

use crate::reply::Reply;
use crate::status::{STARVED, UNWRITTEN};
use std::alloc::Global;
use wx_base::{NoMemory, Sink, SinkFault};

/// What is said where memory is wanting.
const MEMORY_LINE: &[u8] = b"memory\n";

/// Hands a reply over to the output, and answers the status with which the call ends. The line is made whole before its first
/// piece is put.
pub fn say<O: Sink>(alloc: Global, reply: Reply, out: &mut O) -> u8
    ensures answer { (status : ℕ) × (text : List ℕ) × IsSaid reply status text
        × HandsOver (O.taken out.old) (O.taken out.new) (O.faults out.old) (O.faults out.new) status text result }
    ensures sound { O.reliable out.old → IsNoFault reply → result ≢ UNWRITTEN }
{
    match reply.line(alloc) {
        Ok(text) => hand_over(out, reply.status(), text.as_slice()),
        Err(NoMemory) => say_memory(out),
    }
}

/// Hands over that memory is wanting, and answers the status with which the call ends.
pub fn say_memory<O: Sink>(out: &mut O) -> u8
    ensures answer { HandsOver (O.taken out.old) (O.taken out.new) (O.faults out.old) (O.faults out.new) STARVED memory_line result }
    ensures sound { O.reliable out.old → result ≢ UNWRITTEN }
{
    hand_over(out, STARVED, MEMORY_LINE)
}

/// Hands a text over to a sink, and answers the status with which the call ends: the given one, unless the sink fails or
/// memory is wanting.
fn hand_over<O: Sink>(out: &mut O, status: u8, text: &[u8]) -> u8
    ensures outcome { let faults = O.faults out.old in
        HandsOver (O.taken out.old) (O.taken out.new) faults (O.faults out.new) status text.now result }
    ensures sound { O.reliable out.old → status ≢ UNWRITTEN → result ≢ UNWRITTEN }
{
    match put_all(out, text) {
        Ok(()) => status,
        Err(SinkFault::Failed) => UNWRITTEN,
        Err(SinkFault::NoMemory) => STARVED,
    }
}

/// Puts piece after piece until the sink has the whole text.
fn put_all<O: Sink>(out: &mut O, text: &[u8]) -> Result<(), SinkFault>
    ensures outcome { Puts (O.taken out.old) (O.taken out.new) (O.faults out.old) (O.faults out.new) text.now result }
    ensures reliable { O.reliable out.old → O.reliable out.new }
    ensures sound { O.reliable out.old → result ≢ Err SinkFault.Failed }
{
    let mut rest = text;
    while !rest.is_empty() {
        match out.put(rest) {
            Ok(taken) => rest = after(rest, taken),
            Err(fault) => return Err(fault),
        }
    }
    Ok(())
}

/// What is left of a piece of which a number of bytes was taken.
fn after(piece: &[u8], taken: usize) -> &[u8]
    requires { taken ≤ length piece.now }
    ensures { result.now ≡ drop taken piece.now }
{
    &piece[taken..]
}
