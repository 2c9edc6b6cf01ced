//! A sink over a writer of the standard library.
#![tactic(auto)]

ghost use Rattle.std.specs.Prelude.{◌≡◌, ◌<◌, ◌≤◌, None, length, IfOk, OnOk, OnErr};
ghost use Rattle.std.specs.Io.KnownBytes.{WriteAppends};
ghost use Rattle.ds_base.specs.Counts.{Rose, Wrote};

use crate::failed::Failed;
use crate::sink::Sink;
use std::io;
use std::io::{ErrorKind, Write};
use std::marker::Model;

/// A sink that writes to `W`. Each error of the writer raises the count of faults and is `Failed`, and so does and is a
/// write that takes 0 bytes. It doesn't tell the bytes written. `close` does nothing.
///
/// A write that was interrupted is no error: it is made again, as writers of the standard library do, up to 2^64 - 1 times.
#[derive(Drop)]
pub struct WriteSink<W: Write + Drop> {
    writer: W,
    faults: u64,
}

impl<W: Write + Drop> Model for WriteSink<W> {
    ghost use Rattle.ds_base.specs.Edge.{Writing};

    ghost Value = { Writing W };

    ghost use Rattle.ds_base.specs.Inside.{writing_of};

    ghost view = { writing_of };
}

impl<W: Write + Drop> WriteSink<W> {
    /// A sink over this writer.
    pub fn new(writer: W) -> WriteSink<W>
        ensures writer { result.writer ≡ writer }
        ensures faults { result.faults ≡ 0 }
    {
        WriteSink { writer, faults: 0 }
    }

    /// The writer. What it holds back is not flushed.
    pub fn into_inner(self) -> W
        ensures { result ≡ self.writer }
    {
        let WriteSink { writer, faults: _ } = self;
        writer
    }
}

/// Writes until a write isn't interrupted.
fn write_retrying<W: Write>(writer: &mut W, piece: &[u8]) -> io::Result<usize>
    ensures bound { IfOk result (λ n. n ≤ length piece.now) }
    ensures bytes { WriteAppends (W.contents writer.old) (W.contents writer.new) result piece.now }
{
    for _ in 0..u64::MAX {
        match writer.write(piece) {
            Err(e) if e.kind() == ErrorKind::Interrupted => {}
            answer => return answer,
        }
    }
    Err(ErrorKind::Interrupted.into())
}

impl<W: Write + Drop> Sink for WriteSink<W> {
    ghost faults = { λ s. s.faults };

    ghost tells = { λ _. None };

    fn put(&mut self, piece: &[u8]) -> Result<usize, Failed>
        requires { 0 < length piece.now }
        ensures faults { self.old.faults ≤ self.new.faults }
        ensures ok { IfOk result (λ n. Wrote None None piece.now n) }
        ensures err { OnErr result (Rose self.old.faults self.new.faults) }
        ensures bytes { WriteAppends (W.contents self.old.writer) (W.contents self.new.writer) result piece.now }
        ensures faultless { OnOk result (self.new.faults ≡ self.old.faults) }
    {
        match write_retrying(&mut self.writer, piece) {
            Ok(n) if n > 0 => Ok(n),
            _ => {
                self.faults = self.faults.saturating_add(1);
                Err(Failed)
            }
        }
    }

    fn close(&mut self)
        ensures { self.new ≡ self.old }
    {}
}
