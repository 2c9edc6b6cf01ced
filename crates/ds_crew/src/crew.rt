//! An exporter's parts as its threads take them.

ghost use Rattle.std.specs.Prelude.{IfOk};
ghost use Rattle.ds_crew.specs.Crews.{HasActorsOf, IsNodeOf, MayTakeTurns};
ghost use Rattle.ds_crew.specs.Histories.{HaveOwnNames};

use crate::actors::{begin_conns, begin_procs};
use crate::objects::{seat_boxes, seat_inlets, share_lanes};
use ds_exporter::{Exporter, ExporterParts};
use ds_share::SharedDesk;
use ds_turn::{Node, RecordedConn, RecordedLane, RecordedProc};
use std::alloc::{AllocError, Global};

/// What the threads of a host share, and its actors.
#[derive(Drop)]
pub struct Crew {
    /// What is shared: the host's objects, each behind its lock, and what setup fixed of them.
    pub node: Node,
    /// The processes, by their indices.
    pub procs: Vec<RecordedProc>,
    /// The lanes' workers, in the lanes' order.
    pub lanes: Vec<RecordedLane>,
    /// The connections, in the document's order.
    pub conns: Vec<RecordedConn>,
}

impl Crew {
    /// The parts of an exporter. The objects keep what they are and entered; the actors keep what they are and have in hand, with
    /// nothing recorded and last stamps of 0. Each actor may take turns over what is shared, and no two objects have one name. Nothing
    /// is copied but mailboxes' labels and lanes' certificates.
    ///
    /// # Errors
    ///
    /// `AllocError` where memory runs out. The exporter is lost then.
    pub fn of(alloc: Global, exporter: Exporter) -> Result<Crew, AllocError>
        ensures node { IfOk result (λ crew. IsNodeOf exporter crew.node) }
        ensures actors { IfOk result (HasActorsOf exporter) }
        ensures turns { IfOk result MayTakeTurns }
        ensures names { IfOk result (λ crew. HaveOwnNames crew.node) }
    {
        let ExporterParts {
            host,
            keys,
            desk,
            procs,
            boxes,
            lanes,
            inlets,
            conns,
        } = exporter.into_parts();
        let procs = begin_procs(alloc, host, procs)?;
        let boxes = seat_boxes(alloc, boxes)?;
        let (lanes, workers) = share_lanes(alloc, lanes)?;
        let inlets = seat_inlets(alloc, inlets)?;
        let conns = begin_conns(alloc, conns)?;
        let node = Node {
            host,
            keys,
            desk: SharedDesk::new(alloc, desk),
            boxes,
            lanes,
            inlets,
        };
        Ok(Crew {
            node,
            procs,
            lanes: workers,
            conns,
        })
    }
}
