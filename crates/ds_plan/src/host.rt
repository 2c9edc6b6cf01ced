//! Hosts of a document.

use crate::list::{CategoryList, PartList};
use crate::process::{BoxSpecList, ProcSpecList};
use ds_label::{Label, PubKey};
use ds_wire::Bytes;
use lms_sig::Params;

/// What a host's identity is known by.
#[derive(Clone, Copy, Debug, PartialEq, Eq)]
pub enum Secret {
    /// The secret of a host that runs, of which all its keys are made.
    Seed([u8; 32]),
    /// The public key of a silent host, for which outsiders act.
    Key(PubKey),
}

/// A host.
#[derive(Debug, Drop)]
pub struct HostSpec {
    /// Its name, 1 to 32 bytes.
    pub name: Bytes,
    /// Its secret or its public key.
    pub secret: Secret,
    /// The types of its identity key.
    pub identity: Params,
    /// The types of its lanes' keys.
    pub lanekey: Params,
    /// Where it is reached, if it says so.
    pub address: Option<Bytes>,
    /// The foreign categories that it knows at first, one a row of its table.
    pub map: CategoryList,
    /// Its processes, in order.
    pub procs: ProcSpecList,
    /// Its mailboxes, in order.
    pub boxes: BoxSpecList,
    /// Its lanes, in order; they are numbered from 1.
    pub lanes: LaneSpecList,
    /// The inlets that it has besides those of the document's lanes to it, in order.
    pub inlets: InletSpecList,
}

/// A list of hosts.
pub type HostSpecList = PartList<HostSpec>;

/// A lane of a host.
#[derive(Debug, Drop)]
pub struct LaneSpec {
    /// The place of the host that it leads to.
    pub to: u32,
    /// The label of what it carries.
    pub label: Label,
    /// How many messages may wait, 1 to 256.
    pub room: u32,
    /// The first moment at which its certificate is no longer valid.
    pub until: u64,
}

/// A list of lanes.
pub type LaneSpecList = PartList<LaneSpec>;

/// An inlet of a host.
#[derive(Clone, Copy, Debug, PartialEq, Eq)]
pub struct InletSpec {
    /// The place of the host from which the lane comes.
    pub from: u32,
    /// The lane's number, 1 to 32.
    pub lane: u32,
}

/// A list of inlets.
pub type InletSpecList = PartList<InletSpec>;
