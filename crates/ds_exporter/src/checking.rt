//! A lane's worker, with something in hand.
#![tactic(auto)]

ghost use Rattle.std.specs.Prelude.{◌≡◌, ◌<◌, ◌≤◌, Err, length, OnOk, OnErr, IfOk};
ghost use Rattle.ds_base.specs.Counts.{Rose};
ghost use Rattle.ds_desk.specs.Desks.{desk_of};
ghost use Rattle.ds_exporter.specs.HostStates.{lane_of};
ghost use Rattle.ds_exporter.specs.Checking.{lane_rule, checked_as};

use crate::moved::CoreFault;
use crate::parts::LanePart;
use ds_base::Keeper;
use ds_cert::LaneCert;
use ds_desk::DeskState;
use ds_flow::{FlowFault, judge_frame};
use ds_label::Rule;
use ds_lane::LaneFault;
use std::alloc::{AllocError, Global};

/// The rule by which the desk drops the messages of a lane with this certificate, if one fails.
pub(crate) fn frame_rule(
    alloc: Global,
    desk: &mut DeskState,
    cert: &LaneCert,
) -> Result<Option<Rule>, AllocError>
    ensures rule { IfOk result (λ rule. rule ≡ lane_rule (desk_of desk.old) cert.now) }
    ensures same { desk.new ≡ desk.old }
{
    match judge_frame(
        alloc,
        &desk.addresses,
        &mut desk.store,
        desk.moment,
        &cert.receiver,
        &cert.label,
    ) {
        Ok(()) => Ok(None),
        Err(FlowFault::Drop(rule)) => Ok(Some(rule)),
        Err(FlowFault::NoMemory) => Err(AllocError),
    }
}

impl LanePart {
    /// What is in the worker's hand becomes one frame, or is dropped by a rule. Nothing changed after a fault but the room.
    pub(crate) fn settle<K: Keeper>(
        &mut self,
        stamp: u64,
        rule: Option<Rule>,
        keeper: &mut K,
    ) -> Result<(), CoreFault>
        requires some { 0 < length self.old.end.worker.hand }
        ensures ok { OnOk result (lane_of self.new ≡ checked_as stamp rule (lane_of self.old)) }
        ensures err { OnErr result (lane_of self.new ≡ lane_of self.old) }
        ensures faults { K.faults keeper.old ≤ K.faults keeper.new }
        ensures fault { result ≡ Err CoreFault.KeeperFault → Rose (K.faults keeper.old) (K.faults keeper.new) }
        ensures untouched { result ≡ Err CoreFault.NoMemory → keeper.new ≡ keeper.old }
    {
        self.end.reserve()?;
        if let Some(rule) = rule {
            self.end.drop_all(stamp, rule);
            return Ok(());
        }
        match self.end.frame(stamp, keeper) {
            Ok(()) => Ok(()),
            Err(LaneFault::KeeperFault) => Err(CoreFault::KeeperFault),
            Err(LaneFault::NoMemory) => Err(CoreFault::NoMemory),
        }
    }
}
