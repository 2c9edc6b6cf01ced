//! Locks that lend their state where a stamp is left.

ghost use Rattle.std.specs.Prelude.{◌≡◌, ℕ, ◌<◌, ◌+◌, ◌-◌, ◌^◌, max};
ghost use Rattle.std.specs.Sync.Mutex.{mutex_guard_value};
ghost use Rattle.ds_box.specs.Boxes as boxes;
ghost use Rattle.ds_inlet.specs.Inlets as inlets;
ghost use Rattle.ds_share.specs.Receipts.{next_stamp};

use ds_box::BoxState;
use ds_inlet::Inlet;
use std::sync::{Mutex, MutexGuard, Wait};

/// A state whose history has stamps.
pub(crate) trait Stamped {
    /// Its last stamp.
    ghost last: { Self → ℕ };

    /// The stamp of the last entry; where there is none, of the last one before the opening, 0 at first.
    fn last_stamp_given(&self) -> u64
        ensures { result ≡ Self.last self.now };
}

impl Stamped for BoxState {
    ghost last = { λ b. boxes.last_stamp b.mailbox };

    fn last_stamp_given(&self) -> u64 {
        self.last()
    }
}

impl Stamped for Inlet {
    ghost last = { λ i. inlets.last_stamp i.inlet };

    fn last_stamp_given(&self) -> u64 {
        self.last_stamp()
    }
}

/// Takes the lock, and again and again until a stamp is left above the caller's and the state's last one.
pub(crate) fn lend<'a, S: Stamped, R: Wait>(
    rt: &R,
    lock: &'a Mutex<S>,
    stamp: u64,
) -> MutexGuard<'a, S>
    ensures { max (S.last (mutex_guard_value result)) stamp < 2 ^ 64 - 1 }
{
    for _ in rt.forever() {
        let state = lock.lock(rt);
        if state.last_stamp_given() < u64::MAX && stamp < u64::MAX {
            return state;
        }
    }
    unreachable!()
}

/// The stamp of an event: one more than the greater of the object's last and the caller's.
pub(crate) fn stamp_after(last: u64, stamp: u64) -> u64
    requires { max last stamp < 2 ^ 64 - 1 }
    ensures { result ≡ next_stamp last stamp }
{
    last.max(stamp) + 1
}
