//! A source in memory that never fails.
#![tactic(auto)]

ghost use Rattle.std.specs.Prelude.{◌≡◌, ◌<◌, ◌≤◌, ◌++◌, Some, length, take, min, IfOk, if◌then◌else◌, ◌==◌};
ghost use Rattle.ds_base.specs.Counts.{Rose, Took};
ghost use Rattle.ds_base.specs.FaultPlans.{one_more};

use crate::failed::Failed;
use crate::source::Source;
use std::marker::Model;

/// Bytes in memory that are read. Each call fills the room as far as bytes are left, and none fails: the count of faults is
/// always 0. It tells the bytes that are left.
#[derive(Drop)]
pub struct CalmSource {
    bytes: Vec<u8>,
    at: usize,
    ends: u64,
}

impl Model for CalmSource {
    ghost use Rattle.ds_base.specs.Memory.{CalmSupply};

    ghost Value = { CalmSupply };

    ghost use Rattle.std.specs.Prelude.{vec_len, ◌≤◌};
    ghost use Rattle.ds_base.specs.Inside.{calm_supply_of};

    ghost view = { calm_supply_of };

    ghost invariant = { λ s. s.at ≤ vec_len s.bytes };
}

impl CalmSource {
    /// A source of these bytes.
    pub fn new(bytes: Vec<u8>) -> CalmSource
        ensures left { result.left ≡ bytes.items }
        ensures ends { result.ends ≡ 0 }
    {
        CalmSource {
            bytes,
            at: 0,
            ends: 0,
        }
    }

    /// Moves bytes into the front of the room, as many as there are and fit.
    fn fill(&mut self, room: &mut [u8]) -> usize
        ensures full { result ≡ min (length room.old) (length self.old.left) }
        ensures moved { self.old.left ≡ take result room.new ++ self.new.left }
        ensures ends { self.new.ends ≡ self.old.ends }
    {
        let n = room.len().min(self.bytes.len() - self.at);
        room[..n].copy_from_slice(&self.bytes[self.at..self.at + n]);
        self.at += n;
        n
    }
}

impl Source for CalmSource {
    ghost faults = { λ _. 0 };

    ghost ends = { λ s. s.ends };

    ghost tells = { λ s. Some s.left };

    fn take(&mut self, room: &mut [u8]) -> Result<usize, Failed>
        requires { 0 < length room.old }
        ensures full { result ≡ Ok (min (length room.old) (length self.old.left)) }
        ensures ok { IfOk result (λ n. Took (Some self.old.left) (Some self.new.left) (length room.old) room.new n (Rose self.old.ends self.new.ends)) }
        ensures ends { IfOk result (λ n. self.new.ends ≡ (if n == 0 then one_more self.old.ends else self.old.ends)) }
    {
        let n = self.fill(room);
        if n == 0 {
            self.ends = self.ends.saturating_add(1);
        }
        Ok(n)
    }
}
