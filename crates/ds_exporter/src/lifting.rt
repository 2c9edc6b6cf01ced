//! A lane's worker, with an empty hand.
#![tactic(auto)]

ghost use Rattle.std.specs.Prelude.{◌≡◌, ◌<◌, ◌↔◌, [], false, OnOk, OnErr, IfOk};
ghost use Rattle.ds_lane.specs.Lanes.{last_stamp};
ghost use Rattle.ds_exporter.specs.HostStates.{lane_of};
ghost use Rattle.ds_exporter.specs.Lifting.{lifted_lane};

use crate::parts::LanePart;
use ds_lane::LiftEnd;
use std::alloc::AllocError;

impl LanePart {
    /// The first waiting messages go to the worker's empty hand, where a leaf is left. `AllocError` where memory runs out;
    /// nothing changed then but the room.
    #[tactic(auto, using(crate::proofs::Lifts::lifts_some, crate::proofs::Lifts::lifts_none, crate::proofs::Lifts::not_ready, crate::proofs::Lifts::is_ready))]
    fn lift_waiting(&mut self, stamp: u64) -> Result<(), AllocError>
        requires empty { self.old.end.worker.hand ≡ [] }
        requires later { last_stamp self.old.state.lane < stamp }
        requires one { self.old.end.worker.cert ≡ self.old.state.lane.cert }
        ensures ok { OnOk result (lane_of self.new ≡ lifted_lane stamp (lane_of self.old)) }
        ensures err { OnErr result (lane_of self.new ≡ lane_of self.old) }
    {
        if !self.end.ready() {
            return Ok(());
        }
        self.state.reserve()?;
        match self.state.lift(stamp, self.end.who()) {
            Ok(batch) => {
                self.end.hold(batch);
                Ok(())
            }
            Err(LiftEnd::Idle) => Ok(()),
            Err(LiftEnd::NoMemory) => Err(AllocError),
        }
    }

    /// The same, and whether something is in hand now.
    #[tactic(auto, using(crate::proofs::Lifts::holds_none))]
    pub(crate) fn lift(&mut self, stamp: u64) -> Result<bool, AllocError>
        requires empty { self.old.end.worker.hand ≡ [] }
        requires later { last_stamp self.old.state.lane < stamp }
        requires one { self.old.end.worker.cert ≡ self.old.state.lane.cert }
        ensures ok { OnOk result (lane_of self.new ≡ lifted_lane stamp (lane_of self.old)) }
        ensures held { IfOk result (λ held. (held ≡ false) ↔ ((lifted_lane stamp (lane_of self.old)).worker.hand ≡ [])) }
        ensures err { OnErr result (lane_of self.new ≡ lane_of self.old) }
    {
        self.lift_waiting(stamp)?;
        let none = self.end.hand().is_empty();
        Ok(!none)
    }
}
