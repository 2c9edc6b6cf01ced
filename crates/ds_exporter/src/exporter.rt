//! One host.
#![tactic(auto)]

ghost use Rattle.std.specs.Prelude.{◌≡◌, map};
ghost use Rattle.ds_desk.specs.Desks.{kept_of};
ghost use Rattle.ds_exporter.specs.HostStates.{state_of, process_of, box_of, lane_of, inlet_of, connection_of};
ghost use Rattle.ds_exporter.specs.Conditions.{IsFit};

use crate::parts::{BoxList, ConnList, ExporterParts, InletList, KeyList, LaneList, ProcList};
use ds_desk::DeskState;
use std::marker::Model;

/// The exporter of one host: its desk, processes, mailboxes, lanes, inlets and connections, which fit together. Contracts see
/// them without the room that their lists have taken.
#[derive(Drop)]
pub struct Exporter {
    pub(crate) parts: ExporterParts,
}

impl Model for Exporter {
    ghost use Rattle.ds_exporter.specs.HostStates.{HostState};

    ghost Value = { HostState };

    ghost use Rattle.ds_exporter.specs.HostStates.{state_of};
    ghost use Rattle.ds_exporter.specs.Conditions.{IsFit};

    ghost view = { λ e. state_of e.parts };

    ghost invariant = { λ e. IsFit (state_of e.parts) };
}

impl Exporter {
    /// The exporter of the host at that place, with the keys of all hosts, by which a script's host number becomes a key. The
    /// lists are in the document's order. It needs parts that fit:
    ///
    /// - The desk is the replay of its history, and its key is the one at the host's place.
    /// - There are at most `2^30` processes.
    /// - Slots differ, no two lanes have one receiver and label, and no two inlets one exporter and lane.
    /// - Owners and the hosts of scripts are in range.
    /// - Each actor is of this host. A lane's index is its number, and the connections' indices rise.
    /// - A lane's two values have one certificate, whose exporter is this host.
    /// - Each connection leads to this host, and its inlet names are the inlets'.
    /// - Each local number in a process, a mailbox or a passed message has a name in the desk's table.
    /// - A message in a process's hand is in the ranges of its format, one of the lanes has its receiver and label, and the
    ///   process hasn't ended.
    /// - A passed message's slot is a mailbox's. Behind its hello alone has a connection a message in hand or a passed one.
    /// - Usable names have the table's local numbers.
    ///
    /// It takes no memory.
    pub fn new(
        host: u32,
        keys: KeyList,
        desk: DeskState,
        procs: ProcList,
        boxes: BoxList,
        lanes: LaneList,
        inlets: InletList,
        conns: ConnList,
    ) -> Exporter
        requires { IsFit (state_of (record { host = host; keys = keys; desk = desk; procs = procs; boxes = boxes; lanes = lanes; inlets = inlets; conns = conns })) }
        ensures { result ≡ state_of (record { host = host; keys = keys; desk = desk; procs = procs; boxes = boxes; lanes = lanes; inlets = inlets; conns = conns }) }
    {
        Exporter {
            parts: ExporterParts {
                host,
                keys,
                desk,
                procs,
                boxes,
                lanes,
                inlets,
                conns,
            },
        }
    }

    /// The parts, which fit. It takes no memory.
    pub fn into_parts(self) -> ExporterParts
        ensures parts { state_of result ≡ self }
        ensures fit { IsFit self }
    {
        self.parts
    }

    /// The host's place in the document.
    pub fn host(&self) -> u32
        ensures { result ≡ self.now.host }
    {
        self.parts.host
    }

    /// The keys of all hosts.
    pub fn keys(&self) -> &KeyList
        ensures { result.now.items ≡ self.now.keys }
    {
        &self.parts.keys
    }

    /// The host's public state.
    pub fn desk(&self) -> &DeskState
        ensures { kept_of result.now ≡ self.now.desk }
    {
        &self.parts.desk
    }

    /// The processes, by their indices.
    pub fn procs(&self) -> &ProcList
        ensures { map process_of result.now.items ≡ self.now.procs }
    {
        &self.parts.procs
    }

    /// The mailboxes.
    pub fn boxes(&self) -> &BoxList
        ensures { map box_of result.now.items ≡ self.now.boxes }
    {
        &self.parts.boxes
    }

    /// The lanes: the lane with the number n is at the place n - 1.
    pub fn lanes(&self) -> &LaneList
        ensures { map lane_of result.now.items ≡ self.now.lanes }
    {
        &self.parts.lanes
    }

    /// The inlets.
    pub fn inlets(&self) -> &InletList
        ensures { map inlet_of result.now.items ≡ self.now.inlets }
    {
        &self.parts.inlets
    }

    /// The connections.
    pub fn conns(&self) -> &ConnList
        ensures { map connection_of result.now.items ≡ self.now.conns }
    {
        &self.parts.conns
    }

    /// What every exporter keeps: its parts fit. It does nothing.
    pub fn fit(&self)
        ensures { IsFit self.now }
    {
        let _host = self.parts.host;
    }
}
