//! The parts of an exporter.
#![tactic(auto)]

use ds_box::BoxState;
use ds_desk::DeskState;
use ds_inlet::{Conn, Inlet};
use ds_label::PubKey;
use ds_lane::{LaneEnd, LaneState};
use ds_msg::Message;
use ds_script::Proc;

/// A process, and its hand.
#[derive(Drop)]
pub struct ProcPart {
    /// The process.
    pub process: Proc,
    /// A message to another host that was judged and isn't queued yet.
    pub hand: Option<Message>,
}

/// A mailbox, and its slot.
#[derive(Drop)]
pub struct BoxPart {
    /// The number by which messages name it.
    pub slot: u32,
    /// What waits in it, and its history.
    pub state: BoxState,
}

/// A lane.
#[derive(Drop)]
pub struct LanePart {
    /// What its senders share with its worker.
    pub state: LaneState,
    /// The worker's own part.
    pub end: LaneEnd,
}

/// The public keys of all hosts of the document, by their numbers in scripts.
pub type KeyList = Vec<PubKey>;

/// The processes of a host, by their indices.
pub type ProcList = Vec<ProcPart>;

/// Its mailboxes.
pub type BoxList = Vec<BoxPart>;

/// Its lanes: the lane with the number n is at the place n - 1.
pub type LaneList = Vec<LanePart>;

/// Its inlets.
pub type InletList = Vec<Inlet>;

/// The connections to it.
pub type ConnList = Vec<Conn>;

/// All that an exporter is made of.
#[derive(Drop)]
pub struct ExporterParts {
    /// The host's place in the document.
    pub host: u32,
    /// The keys of all hosts.
    pub keys: KeyList,
    /// The host's public state.
    pub desk: DeskState,
    /// Its processes.
    pub procs: ProcList,
    /// Its mailboxes.
    pub boxes: BoxList,
    /// Its lanes.
    pub lanes: LaneList,
    /// Its inlets.
    pub inlets: InletList,
    /// The connections to it.
    pub conns: ConnList,
}
