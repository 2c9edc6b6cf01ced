//! What a walk asks of the machine beside it.

ghost use Rattle.std.specs.Prelude.{◌≡◌, ℕ, List, Bool, Option, IfOk, IsTrue, ◌↔◌, true};
ghost use Rattle.ds_merge.specs.declared.kept.Kept.{Kept as KeptValue};
ghost use Rattle.ds_merge.specs.declared.recorded.Recorded.{Recorded as RecordedValue};

use crate::kept::Kept;
use crate::recorded::{Recorded, same_entry};
use ds_wire::Bytes;
use std::alloc::AllocError;

/// What the step of an event gave.
#[derive(Debug, Drop)]
pub struct Outcome {
    /// Whether the step changed something.
    pub moved: bool,
    /// The entry that it made, if one.
    pub entry: Option<Kept>,
    /// What it handed out, as bytes.
    pub given: Bytes,
}

/// All objects and actors as a plain machine, which takes the recorded events one after another.
pub trait Machine: Drop {
    // The machine after an event, whether the event's step changes something, the entry that it makes, and what it hands out.
    ghost after: { Self → RecordedValue → Self };

    ghost moves: { Self → RecordedValue → Bool };

    ghost entry: { Self → RecordedValue → Option KeptValue };

    ghost answer: { Self → RecordedValue → List ℕ };

    /// Takes one event. After `AllocError`, which says that memory ran out, the machine is of no use.
    fn step(&mut self, event: &Recorded) -> Result<Outcome, AllocError>
        ensures after { IfOk result (λ o. self.new ≡ after self.old event.now) }
        ensures moves { IfOk result (λ o. o.moved ≡ moves self.old event.now) }
        ensures entry { IfOk result (λ o. o.entry ≡ entry self.old event.now) }
        ensures answer { IfOk result (λ o. o.given ≡ answer self.old event.now) };
}

/// Whether the step changed something, and gave the entry and the answer that are recorded.
pub(crate) fn agrees(outcome: &Outcome, event: &Recorded) -> bool
    ensures { IsTrue result ↔
        ((outcome.now.moved ≡ true) × (outcome.now.entry ≡ event.now.touched) × (outcome.now.given ≡ event.now.given)) }
{
    outcome.moved && same_entry(&outcome.entry, &event.touched) && outcome.given.same(&event.given)
}
