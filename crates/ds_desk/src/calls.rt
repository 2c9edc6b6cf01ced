//! What a desk is told: ticks and looks.
#![tactic(auto)]

ghost use Rattle.std.specs.Prelude.{◌≡◌, ◌<◌, ◌≤◌, OnOk, OnErr, max};
ghost use Rattle.ds_model.specs.Desk.{Ticked, Looked, Denied};
ghost use Rattle.ds_desk.specs.Desks.{IsKept, MayStand, kept_of, last_stamp, entered};

use crate::act::{DeskChange, DeskEntry};
use crate::state::DeskState;
use ds_label::Rule;
use ds_script::Actor;
use std::alloc::AllocError;

impl DeskState {
    /// The moment becomes the greater of itself and `to`. `AllocError` where memory runs out; nothing is entered then, and
    /// nothing changed.
    pub fn tick(&mut self, stamp: u64, who: Actor, to: u64) -> Result<(), AllocError>
        requires kept { IsKept self.old }
        requires later { last_stamp self.old < stamp }
        ensures entry { OnOk result (kept_of self.new ≡ entered stamp who (Ticked to) (kept_of self.old)) }
        ensures moment { OnOk result (self.new.moment ≡ max self.old.moment to) }
        ensures err { OnErr result (kept_of self.new ≡ kept_of self.old) }
        ensures kept { IsKept self.new }
        ensures last { last_stamp self.new ≤ stamp }
    {
        self.history.reserve()?;
        let act = DeskChange::Tick { to };
        self.history.enter(DeskEntry { stamp, who, act });
        self.moment = self.moment.max(to);
        Ok(())
    }

    /// Enters that a judgement read the desk. It takes no memory.
    pub fn look(&mut self, stamp: u64, who: Actor)
        requires kept { IsKept self.old }
        requires later { last_stamp self.old < stamp }
        requires room { 0 < self.old.history.spare }
        ensures entry { kept_of self.new ≡ entered stamp who Looked (kept_of self.old) }
        ensures kept { IsKept self.new }
        ensures last { last_stamp self.new ≤ stamp }
    {
        let act = DeskChange::Look;
        self.history.enter(DeskEntry { stamp, who, act });
    }

    /// Enters that a rule refused a call. It takes no memory.
    pub(crate) fn refuse(&mut self, stamp: u64, who: Actor, rule: Rule)
        requires kept { IsKept self.old }
        requires later { last_stamp self.old < stamp }
        requires room { 0 < self.old.history.spare }
        requires may { MayStand (kept_of self.old) (Denied rule) }
        ensures entry { kept_of self.new ≡ entered stamp who (Denied rule) (kept_of self.old) }
        ensures kept { IsKept self.new }
        ensures last { last_stamp self.new ≤ stamp }
    {
        let act = DeskChange::Refused(rule);
        self.history.enter(DeskEntry { stamp, who, act });
    }
}
