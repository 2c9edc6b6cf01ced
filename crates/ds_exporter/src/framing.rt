//! Lanes' workers.
#![tactic(auto)]

ghost use Rattle.std.specs.Prelude.{◌≡◌, ◌≢◌, ◌<◌, ◌≤◌, ◌-◌, ◌↔◌, [], Some, Ok, Err, false, length, map, slice_get, IsTrue, OnOk, OnErr, IfOk};
ghost use Rattle.ds_base.specs.Counts.{Rose};
ghost use Rattle.ds_desk.specs.Desks.{desk_of};
ghost use Rattle.ds_model.specs.Lists.{at};
ghost use Rattle.ds_model.specs.Step.{step_lane};
ghost use Rattle.ds_lane.specs.Lanes.{last_stamp};
ghost use Rattle.ds_lane.specs.Workers.{IsHolding};
ghost use Rattle.ds_scheme.specs.TheScheme.{scheme};
ghost use Rattle.ds_exporter.specs.HostStates.{HostLane, lane_of};
ghost use Rattle.ds_exporter.specs.PlainHosts.{host_of, site_of};
ghost use Rattle.ds_exporter.specs.Checking.{checked_as, lane_rule};
ghost use Rattle.ds_exporter.specs.Lifting.{lifted_lane};
ghost use Rattle.ds_exporter.specs.Moving.{Moves};
ghost use Rattle.ds_exporter.specs.Conditions.{lane_actor};
ghost use Rattle.ds_exporter.specs.Entering.{Enters, frame_access};
ghost use Rattle.ds_exporter.specs.Stamping.{IsBefore, IsUpTo};

use crate::checking::frame_rule;
use crate::exporter::Exporter;
use crate::moved::{CoreFault, Moved};
use crate::parts::LaneList;
use ds_base::Keeper;
use ds_desk::DeskState;
use ds_label::Rule;
use ds_script::Actor;
use std::alloc::AllocError;

/// What waits on the lane at a place goes to its worker's empty hand, where a leaf is left.
#[tactic(auto, using(crate::proofs::Places::map_at_here, crate::proofs::Places::map_same))]
fn lift_at(lanes: &mut LaneList, place: usize, stamp: u64) -> Result<bool, AllocError>
    requires place { place < length lanes.old.items }
    requires ready { (l : HostLane) → slice_get (map lane_of lanes.old.items) place ≡ Some l → (l.worker.hand ≡ []) × (last_stamp l.lane < stamp) × (l.worker.cert ≡ l.lane.cert) }
    ensures ok { OnOk result (map lane_of lanes.new.items ≡ at place (lifted_lane stamp) (map lane_of lanes.old.items)) }
    ensures held { IfOk result (λ held. (l : HostLane) → slice_get (map lane_of lanes.old.items) place ≡ Some l → (held ≡ false) ↔ ((lifted_lane stamp l).worker.hand ≡ [])) }
    ensures err { OnErr result (map lane_of lanes.new.items ≡ map lane_of lanes.old.items) }
{
    lanes[place].lift(stamp)
}

/// Whether the worker of the lane at a place has nothing in hand.
#[tactic(auto, using(crate::proofs::Places::stands_now))]
fn is_idle(lanes: &LaneList, place: usize) -> bool
    requires { place < length lanes.now.items }
    ensures idle { (l : HostLane) → slice_get (map lane_of lanes.now.items) place ≡ Some l → (IsTrue result ↔ (l.worker.hand ≡ [])) }
{
    lanes[place].end.hand().is_empty()
}

/// The actor of the lane at a place. What its worker keeps stands in the contract.
fn worker_at(lanes: &LaneList, place: usize) -> Actor
    requires { place < length lanes.now.items }
    ensures keeps { (l : HostLane) → slice_get (map lane_of lanes.now.items) place ≡ Some l → IsHolding l.worker }
    ensures who { (l : HostLane) → slice_get (map lane_of lanes.now.items) place ≡ Some l → result ≡ l.worker.who }
{
    let end = &lanes[place].end;
    let _hand = end.hand();
    end.who()
}

/// The rule by which the desk drops what is in the hand of the worker of the lane at a place, if one fails.
fn rule_at(desk: &mut DeskState, lanes: &LaneList, place: usize) -> Result<Option<Rule>, AllocError>
    requires { place < length lanes.now.items }
    ensures rule { IfOk result (λ rule. (l : HostLane) → slice_get (map lane_of lanes.now.items) place ≡ Some l → rule ≡ lane_rule (desk_of desk.old) l.worker.cert) }
    ensures same { desk.new ≡ desk.old }
{
    frame_rule(*lanes.allocator(), desk, lanes[place].end.cert())
}

/// What is in the hand of the worker of the lane at a place becomes one frame, or is dropped by a rule.
#[tactic(auto, using(crate::proofs::Places::map_at_here, crate::proofs::Places::map_same))]
fn settle_at<K: Keeper>(
    lanes: &mut LaneList,
    place: usize,
    stamp: u64,
    rule: Option<Rule>,
    keeper: &mut K,
) -> Result<(), CoreFault>
    requires place { place < length lanes.old.items }
    requires some { (l : HostLane) → slice_get (map lane_of lanes.old.items) place ≡ Some l → 0 < length l.worker.hand }
    ensures ok { OnOk result (map lane_of lanes.new.items ≡ at place (checked_as stamp rule) (map lane_of lanes.old.items)) }
    ensures err { OnErr result (map lane_of lanes.new.items ≡ map lane_of lanes.old.items) }
    ensures faults { K.faults keeper.old ≤ K.faults keeper.new }
    ensures fault { result ≡ Err CoreFault.KeeperFault → Rose (K.faults keeper.old) (K.faults keeper.new) }
    ensures untouched { result ≡ Err CoreFault.NoMemory → keeper.new ≡ keeper.old }
{
    lanes[place].settle(stamp, rule, keeper)
}

impl Exporter {
    /// A frame event of a lane whose worker's hand is empty: the first waiting messages are lifted, where a leaf is left. It is
    /// still exactly where none is lifted. `AllocError` where memory runs out; nothing changed then.
    fn lift(&mut self, stamp: u64, place: usize) -> Result<Moved, AllocError>
        requires place { place < length self.old.lanes }
        requires empty { (l : HostLane) → slice_get self.old.lanes place ≡ Some l → l.worker.hand ≡ [] }
        requires later { IsBefore stamp self.old }
        ensures ok { IfOk result (λ moved. Moves moved (host_of self.old) (host_of self.new) (step_lane scheme (site_of self.old) (host_of self.old) place (slice_get (host_of self.old).workers place))) }
        ensures site { site_of self.new ≡ site_of self.old }
        ensures conns { self.new.conns ≡ self.old.conns }
        ensures still { result ≡ Ok Moved.Still → self.new ≡ self.old }
        ensures err { OnErr result (self.new ≡ self.old) }
        ensures stamps { IsUpTo stamp self.new }
        ensures entered { OnOk result (Enters stamp (lane_actor self.old.host place) (frame_access place self.old) self.old self.new) }
    {
        if lift_at(&mut self.parts.lanes, place, stamp)? {
            return Ok(Moved::Changed);
        }
        Ok(Moved::Still)
    }

    /// A frame event of a lane whose worker has something in hand: the desk judges it, and it becomes one frame or is dropped.
    /// Nothing changed after a fault.
    fn check<K: Keeper>(
        &mut self,
        stamp: u64,
        place: usize,
        keeper: &mut K,
    ) -> Result<(), CoreFault>
        requires place { place < length self.old.lanes }
        requires some { (l : HostLane) → slice_get self.old.lanes place ≡ Some l → 0 < length l.worker.hand }
        requires later { IsBefore stamp self.old }
        ensures host { OnOk result (host_of self.new ≡ step_lane scheme (site_of self.old) (host_of self.old) place (slice_get (host_of self.old).workers place)) }
        ensures changed { OnOk result (host_of self.new ≢ host_of self.old) }
        ensures site { site_of self.new ≡ site_of self.old }
        ensures conns { self.new.conns ≡ self.old.conns }
        ensures err { OnErr result (self.new ≡ self.old) }
        ensures stamps { IsUpTo stamp self.new }
        ensures entered { OnOk result (Enters stamp (lane_actor self.old.host place) (frame_access place self.old) self.old self.new) }
        ensures faults { K.faults keeper.old ≤ K.faults keeper.new }
        ensures fault { result ≡ Err CoreFault.KeeperFault → Rose (K.faults keeper.old) (K.faults keeper.new) }
        ensures untouched { result ≡ Err CoreFault.NoMemory → keeper.new ≡ keeper.old }
    {
        self.parts.desk.reserve()?;
        let rule = rule_at(&mut self.parts.desk, &self.parts.lanes, place)?;
        let who = worker_at(&self.parts.lanes, place);
        settle_at(&mut self.parts.lanes, place, stamp, rule, keeper)?;
        self.parts.desk.look(stamp, who);
        Ok(())
    }

    /// A frame event of a lane, by its number, from 1. Where its worker's hand is empty, up to 16 waiting messages are lifted to
    /// it, if a leaf of the lane's key is left. Else the desk judges what is in hand: it becomes one frame, whose number is the
    /// key's next leaf and which is appended to the stream, or is dropped by the first rule that fails. It is still exactly where
    /// the host stays as it is.
    ///
    /// # Errors
    ///
    /// - `KeeperFault` where the keeper failed to raise the mark of the lane's key: its count of faults rose.
    /// - `NoMemory` where memory runs out. The keeper is as it was.
    ///
    /// Nothing changed after either.
    pub fn frame<K: Keeper>(
        &mut self,
        stamp: u64,
        lane: u32,
        keeper: &mut K,
    ) -> Result<Moved, CoreFault>
        requires first { 0 < lane }
        requires last { lane ≤ length self.old.lanes }
        requires later { IsBefore stamp self.old }
        ensures ok { IfOk result (λ moved. Moves moved (host_of self.old) (host_of self.new) (step_lane scheme (site_of self.old) (host_of self.old) (lane - 1) (slice_get (host_of self.old).workers (lane - 1)))) }
        ensures site { site_of self.new ≡ site_of self.old }
        ensures conns { self.new.conns ≡ self.old.conns }
        ensures still { result ≡ Ok Moved.Still → self.new ≡ self.old }
        ensures err { OnErr result (self.new ≡ self.old) }
        ensures stamps { IsUpTo stamp self.new }
        ensures entered { OnOk result
            (Enters stamp (lane_actor self.old.host (lane - 1)) (frame_access (lane - 1) self.old) self.old self.new) }
        ensures faults { K.faults keeper.old ≤ K.faults keeper.new }
        ensures fault { result ≡ Err CoreFault.KeeperFault → Rose (K.faults keeper.old) (K.faults keeper.new) }
        ensures untouched { result ≡ Err CoreFault.NoMemory → keeper.new ≡ keeper.old }
    {
        let place = lane as usize - 1;
        if is_idle(&self.parts.lanes, place) {
            let moved = self.lift(stamp, place)?;
            return Ok(moved);
        }
        self.check(stamp, place, keeper)?;
        Ok(Moved::Changed)
    }
}
