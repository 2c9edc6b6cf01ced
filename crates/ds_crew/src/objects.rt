//! An exporter's objects, each behind its lock.

ghost use Rattle.std.specs.Prelude.{◌≡◌, map, IfOk};
ghost use Rattle.ds_exporter.specs.HostStates.{box_of, inlet_of, lane_of};
ghost use Rattle.ds_exporter.specs.PlainHosts.{name_of_inlet};
ghost use Rattle.ds_exporter.specs.Sites.{box_site, cert_of};
ghost use Rattle.ds_turn.specs.Nodes.{box_site as seat_site};
ghost use Rattle.ds_turn.specs.ConnTurns.{name_of_seat};
ghost use Rattle.ds_crew.specs.Crews.{begun_lane, lane_in};

use ds_exporter::{BoxList, BoxPart, InletList, LaneList, LanePart};
use ds_inlet::Inlet;
use ds_share::{SharedBox, SharedInlet, SharedLane};
use ds_turn::{BoxSeat, InletSeat, RecordedLane};
use std::alloc::{AllocError, Global};

/// A mailbox behind a lock, with a copy of its label. `AllocError` where memory runs out.
fn seat_box(alloc: Global, part: BoxPart) -> Result<BoxSeat, AllocError>
    ensures { IfOk result (λ seat. seat_site seat ≡ box_site (box_of part)) }
{
    let label = part.state.label().copy()?;
    let owner = part.state.owner();
    let BoxPart { slot, state } = part;
    Ok(BoxSeat {
        slot,
        label,
        owner,
        mailbox: SharedBox::new(alloc, state),
    })
}

/// Mailboxes behind locks, in their order. `AllocError` where memory runs out.
pub(crate) fn seat_boxes(alloc: Global, parts: BoxList) -> Result<Vec<BoxSeat>, AllocError>
    ensures { IfOk result (λ seats. map seat_site seats.items ≡ map box_site (map box_of parts.items)) }
{
    let mut seats = Vec::with_capacity(alloc, parts.len())?;
    for part in parts {
        let seat = seat_box(alloc, part)?;
        seats.push(seat)?;
    }
    Ok(seats)
}

/// A lane behind a lock, with a copy of its certificate, and its worker without events. `AllocError` where memory runs out.
fn share_lane(alloc: Global, part: LanePart) -> Result<(SharedLane, RecordedLane), AllocError>
    ensures lane { IfOk result (λ p. p.0 ≡ cert_of (lane_of part)) }
    ensures worker { IfOk result (λ p. lane_in p.1 ≡ begun_lane (lane_of part)) }
{
    let cert = part.state.cert().copy()?;
    let LanePart { state, end } = part;
    let lane = SharedLane::new(alloc, cert, state);
    Ok((lane, RecordedLane::new(alloc, end)))
}

/// Lanes behind locks, and their workers, in their order. `AllocError` where memory runs out.
pub(crate) fn share_lanes(
    alloc: Global,
    parts: LaneList,
) -> Result<(Vec<SharedLane>, Vec<RecordedLane>), AllocError>
    ensures lanes { IfOk result (λ p. p.0.items ≡ map cert_of (map lane_of parts.items)) }
    ensures workers { IfOk result (λ p. map lane_in p.1.items ≡ map begun_lane (map lane_of parts.items)) }
{
    let mut lanes = Vec::with_capacity(alloc, parts.len())?;
    let mut workers = Vec::with_capacity(alloc, parts.len())?;
    for part in parts {
        let (lane, worker) = share_lane(alloc, part)?;
        lanes.push(lane)?;
        workers.push(worker)?;
    }
    Ok((lanes, workers))
}

/// An inlet behind a lock, with its name. It takes no memory.
fn seat_inlet(alloc: Global, inlet: Inlet) -> InletSeat
    ensures { name_of_seat result ≡ name_of_inlet (inlet_of inlet) }
{
    InletSeat {
        exporter: *inlet.exporter(),
        lane: inlet.lane(),
        inlet: SharedInlet::new(alloc, inlet),
    }
}

/// Inlets behind locks, in their order. `AllocError` where memory runs out.
pub(crate) fn seat_inlets(alloc: Global, parts: InletList) -> Result<Vec<InletSeat>, AllocError>
    ensures { IfOk result (λ seats. map name_of_seat seats.items ≡ map name_of_inlet (map inlet_of parts.items)) }
{
    let mut seats = Vec::with_capacity(alloc, parts.len())?;
    for part in parts {
        seats.push(seat_inlet(alloc, part))?;
    }
    Ok(seats)
}
