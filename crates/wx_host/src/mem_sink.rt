ghost use Rattle.std.specs.Prelude.{◌≡◌, ◌≢◌, ◌↔◌, ◌≤◌, ◌<◌, [], length, min, Some, IfOk};
ghost use Rattle.wx_host.specs.Outside.{counted, PutGives};
ghost use Rattle.wx_host.specs.Outages.{FailsAt};

use crate::outages::Outages;
use crate::sink::{Sink, SinkFault};
use std::alloc::Global;
use std::marker::Model;

/// A sink that keeps the bytes in memory, for tests and for callers that want the text.
///
/// Its calls of `put` are counted from 1, up to 2^64 - 1, and so are its faults.
#[derive(Drop)]
pub struct MemSink {
    bytes: Vec<u8>,
    most: usize,
    outages: Outages,
    faults: u64,
}

impl Model for MemSink {
    ghost use Rattle.std.specs.Prelude.{◌<◌};
    ghost use Rattle.wx_host.specs.MemSink.{MemSinkView};

    ghost Value = { MemSinkView };

    ghost view = { λ s. record {
      bytes = s.bytes.items;
      most = s.most;
      failing = s.outages.failing;
      calls = s.outages.calls;
      faults = s.faults;
    } };

    ghost invariant = { λ s. 0 < s.most };
}

impl MemSink {
    /// An empty sink that takes each piece whole, and at which exactly the calls whose number is listed fail. A call of
    /// number 2^64 - 1 or later does not fail. Takes no memory.
    pub fn new(alloc: Global, failing: Vec<u64>) -> MemSink
        ensures bytes { result.bytes ≡ [] }
        ensures most { result.most ≡ usize.MAX }
        ensures failing { result.failing ≡ failing.items }
        ensures calls { result.calls ≡ 0 }
        ensures faults { result.faults ≡ 0 }
    {
        MemSink::with_most(alloc, failing, usize::MAX)
    }

    /// An empty sink that takes at most so many bytes of a piece; all else is as of [`MemSink::new`]. Takes no memory.
    pub fn with_most(alloc: Global, failing: Vec<u64>, most: usize) -> MemSink
        requires { 0 < most }
        ensures bytes { result.bytes ≡ [] }
        ensures most { result.most ≡ most }
        ensures failing { result.failing ≡ failing.items }
        ensures calls { result.calls ≡ 0 }
        ensures faults { result.faults ≡ 0 }
    {
        MemSink {
            bytes: Vec::new(alloc),
            most,
            outages: Outages::new(failing),
            faults: 0,
        }
    }

    /// The bytes put so far, in order.
    pub fn bytes(&self) -> &[u8]
        ensures { result.now ≡ self.now.bytes }
    {
        &self.bytes
    }
}

impl Sink for MemSink {
    ghost taken = { λ s. Some s.bytes };

    ghost faults = { λ s. s.faults };

    ghost reliable = { λ s. s.failing ≡ [] };

    /// Takes as much of the piece as it may, or fails exactly where the list says so.
    fn put(&mut self, piece: &[u8]) -> Result<usize, SinkFault>
        ensures outcome { let before = Some self.old.bytes in
            let after = Some self.new.bytes in
            PutGives before after piece.now self.old.faults self.new.faults result }
        ensures faults { self.old.faults ≤ self.new.faults }
        ensures reliable { self.old.failing ≡ [] → self.new.failing ≡ [] }
        ensures sound { self.old.failing ≡ [] → result ≢ Err SinkFault.Failed }
        ensures count { IfOk result (λ n. n ≡ min (length piece.now) self.old.most) }
        ensures fails { (result ≡ Err SinkFault.Failed) ↔ FailsAt self.old.failing (counted self.old.calls) }
        ensures counts { result ≡ Err SinkFault.Failed → self.new.faults ≡ counted self.old.faults }
        ensures calls { self.new.calls ≡ counted self.old.calls }
        ensures most { self.new.most ≡ self.old.most }
        ensures failing { self.new.failing ≡ self.old.failing }
    {
        if self.outages.next_fails() {
            self.faults = self.faults.saturating_add(1);
            return Err(SinkFault::Failed);
        }
        let front = &piece[..piece.len().min(self.most)];
        self.bytes
            .extend_from_slice(front)
            .map_err(|_| SinkFault::NoMemory)?;
        Ok(front.len())
    }
}
