ghost use Rattle.std.specs.Prelude.{◌≡◌, ◌≤◌, ℕ, length, None, IfOk};

use crate::sink::{Sink, SinkFault};
use std::io;
use std::marker::Model;

// How often a put is tried again after a signal came before the first byte.
const TRIES: usize = 64;

/// Standard output, or whatever `P` prints to: a trusted edge, which tells nothing of what it took.
///
/// Its writes are not buffered, so what was taken has left the program.
#[derive(Drop)]
pub struct HostSink<P: Print> {
    output: P,
    faults: u64,
}

// Contracts see how often it failed.
impl<P: Print> Model for HostSink<P> {
    ghost Value = { ℕ };

    ghost view = { λ s. s.faults };
}

impl<P: Print> HostSink<P> {
    /// A sink that prints to this output, as `HostSink::new(&rt)`.
    pub fn new(output: P) -> HostSink<P>
        ensures { result ≡ 0 }
    {
        HostSink { output, faults: 0 }
    }
}

impl<P: Print> Sink for HostSink<P> {
    ghost taken = { λ _. None };

    ghost faults = { λ count. count };

    ghost reliable = { λ _. ⊥ };

    /// Writes once, and says how much the device took.
    fn put(&mut self, piece: &[u8]) -> Result<usize, SinkFault> {
        match write_some(&self.output, piece) {
            Ok(n) if n > 0 || piece.is_empty() => Ok(n),
            Err(error) if error.kind() == io::ErrorKind::OutOfMemory => Err(SinkFault::NoMemory),
            _ => {
                self.faults = self.faults.saturating_add(1);
                Err(SinkFault::Failed)
            }
        }
    }
}

// One write, tried again where a signal interrupts it.
fn write_some<P: Print>(output: &P, piece: &[u8]) -> io::Result<usize>
    ensures { IfOk result (λ n. n ≤ length piece.now) }
{
    for _ in 0..TRIES {
        match output.write_some(piece) {
            Err(error) if error.kind() == io::ErrorKind::Interrupted => {}
            answer => return answer,
        }
    }
    Err(io::Error::from(io::ErrorKind::Interrupted))
}
