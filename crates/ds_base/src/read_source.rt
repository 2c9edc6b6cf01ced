//! A source over a reader of the standard library.
#![tactic(auto)]

ghost use Rattle.std.specs.Prelude.{◌≡◌, ◌<◌, ◌≤◌, None, length, IfOk, IfErr, OnErr, OnOk, if◌then◌else◌, ◌==◌};
ghost use Rattle.std.specs.Io.KnownBytes.{ReadConsumes, Keeps};
ghost use Rattle.ds_base.specs.Counts.{Rose, Took};
ghost use Rattle.ds_base.specs.FaultPlans.{one_more};

use crate::failed::Failed;
use crate::source::Source;
use std::io;
use std::io::{ErrorKind, Read};
use std::marker::Model;

/// A source that reads from `R`. Each error of the reader raises the count of faults and is `Failed`, and each read that
/// gives 0 bytes raises the count of ends. It doesn't tell the bytes that are left.
///
/// A read that was interrupted is no error: it is made again, as readers of the standard library do, up to 2^64 - 1 times.
#[derive(Drop)]
pub struct ReadSource<R: Read + Drop> {
    reader: R,
    faults: u64,
    ends: u64,
}

impl<R: Read + Drop> Model for ReadSource<R> {
    ghost use Rattle.ds_base.specs.Edge.{Reading};

    ghost Value = { Reading R };

    ghost use Rattle.ds_base.specs.Inside.{reading_of};

    ghost view = { reading_of };
}

impl<R: Read + Drop> ReadSource<R> {
    /// A source over this reader.
    pub fn new(reader: R) -> ReadSource<R>
        ensures reader { result.reader ≡ reader }
        ensures faults { result.faults ≡ 0 }
        ensures ends { result.ends ≡ 0 }
    {
        ReadSource {
            reader,
            faults: 0,
            ends: 0,
        }
    }

    /// The reader.
    pub fn into_inner(self) -> R
        ensures { result ≡ self.reader }
    {
        let ReadSource {
            reader,
            faults: _,
            ends: _,
        } = self;
        reader
    }
}

/// Reads until a read isn't interrupted.
pub(crate) fn read_retrying<R: Read>(reader: &mut R, room: &mut [u8]) -> io::Result<usize>
    ensures bound { IfOk result (λ n. n ≤ length room.new) }
    ensures bytes { ReadConsumes (R.remaining reader.old) (R.remaining reader.new) result room.new }
{
    for _ in 0..u64::MAX {
        match reader.read(room) {
            Err(e) if e.kind() == ErrorKind::Interrupted => {}
            answer => return answer,
        }
    }
    Err(ErrorKind::Interrupted.into())
}

impl<R: Read + Drop> Source for ReadSource<R> {
    ghost faults = { λ s. s.faults };

    ghost ends = { λ s. s.ends };

    ghost tells = { λ _. None };

    fn take(&mut self, room: &mut [u8]) -> Result<usize, Failed>
        requires { 0 < length room.old }
        ensures faults { self.old.faults ≤ self.new.faults }
        ensures ends { self.old.ends ≤ self.new.ends }
        ensures ok { IfOk result (λ n. Took None None (length room.old) room.new n (Rose self.old.ends self.new.ends)) }
        ensures err { OnErr result (Rose self.old.faults self.new.faults) }
        ensures bytes { ReadConsumes (R.remaining self.old.reader) (R.remaining self.new.reader) result room.new }
        ensures faultless { OnOk result (self.new.faults ≡ self.old.faults) }
        ensures endless { IfOk result (λ n. self.new.ends ≡ (if n == 0 then one_more self.old.ends else self.old.ends)) }
    {
        match read_retrying(&mut self.reader, room) {
            Ok(n) => {
                if n == 0 {
                    self.ends = self.ends.saturating_add(1);
                }
                Ok(n)
            }
            Err(_) => {
                self.faults = self.faults.saturating_add(1);
                Err(Failed)
            }
        }
    }
}
