//! A sink in memory that never fails.
#![tactic(auto)]

ghost use Rattle.std.specs.Prelude.{◌≡◌, ◌<◌, length, None, Ok};

use crate::failed::Failed;
use crate::sink::Sink;

/// A sink that takes each piece whole and drops its bytes. It never fails, and its count of faults is always 0. It doesn't
/// tell the bytes written. `close` does nothing.
#[derive(Drop)]
pub struct CalmSink;

impl CalmSink {
    /// A sink.
    pub fn new() -> CalmSink {
        CalmSink
    }
}

impl Default for CalmSink {
    fn default() -> CalmSink {
        CalmSink::new()
    }
}

impl Sink for CalmSink {
    ghost faults = { λ _. 0 };

    ghost tells = { λ _. None };

    fn put(&mut self, piece: &[u8]) -> Result<usize, Failed>
        requires { 0 < length piece.now }
        ensures { result ≡ Ok (length piece.now) }
    {
        Ok(piece.len())
    }

    fn close(&mut self) {}
}
