//! What setup fixed of a host, as its processes see it.
#![tactic(auto)]

ghost use Rattle.ds_exporter.specs.Sites.{seen_of};

use crate::finding::box_for;
use crate::parts::{BoxList, KeyList, LaneList};
use crate::queueing::lane_for;
use ds_actor::Site;
use ds_desk::DeskState;
use ds_label::{Label, LocalLabel, PubKey};

/// The parts of a host by which its processes ask.
#[derive(Drop)]
pub(crate) struct HostSite<'e> {
    /// The host's public state, of which its key is seen.
    pub(crate) desk: &'e DeskState,
    /// The keys of all hosts.
    pub(crate) keys: &'e KeyList,
    /// Its mailboxes.
    pub(crate) boxes: &'e BoxList,
    /// Its lanes.
    pub(crate) lanes: &'e LaneList,
}

impl<'e> Site for HostSite<'e> {
    ghost seen = { seen_of };

    fn here(&self) -> &PubKey {
        &self.desk.here
    }

    fn key(&self, host: u32) -> &PubKey {
        &self.keys[host as usize]
    }

    fn box_with(&self, slot: u32) -> Option<usize> {
        box_for(self.boxes, slot)
    }

    fn box_label(&self, place: usize) -> &LocalLabel {
        self.boxes[place].state.label()
    }

    fn box_owner(&self, place: usize) -> u32 {
        self.boxes[place].state.owner()
    }

    fn lane_to(&self, to: &PubKey, label: &Label) -> Option<usize> {
        lane_for(self.lanes, to, label)
    }
}
