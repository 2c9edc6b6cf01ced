//! What the threads of a host share.

ghost use Rattle.std.specs.Prelude.{◌≡◌, ◌<◌, ◌==◌, map, length, position, IfSome, IsTrue};
ghost use Rattle.ds_label.specs.Flow.{same_label};
ghost use Rattle.ds_label.specs.Names.{by_name};
ghost use Rattle.ds_actor.specs.Sites.{is_lane_for};
ghost use Rattle.ds_turn.specs.Nodes.{IsSentOn, box_site, seen_of};

use ds_actor::Site;
use ds_label::{Label, LocalLabel, PubKey};
use ds_msg::Message;
use ds_share::{SharedBox, SharedDesk, SharedInlet, SharedLane};

/// A mailbox, with what setup fixed of it.
#[derive(Drop)]
pub struct BoxSeat {
    /// Its slot.
    pub slot: u32,
    /// Its label, in the host's own numbers.
    pub label: LocalLabel,
    /// The place of the process that takes from it.
    pub owner: u32,
    /// Its messages.
    pub mailbox: SharedBox,
}

/// An inlet, with the lane that it is for.
#[derive(Drop)]
pub struct InletSeat {
    /// The key of the lane's exporter.
    pub exporter: PubKey,
    /// The lane's number.
    pub lane: u32,
    /// Its last number.
    pub inlet: SharedInlet,
}

/// What the threads of a host share: its objects, each behind a lock of its own, and beside them what setup fixed, which never
/// changes and is read without a lock. All lists are in the document's order.
#[derive(Drop)]
pub struct Node {
    /// The host's place in the document.
    pub host: u32,
    /// The keys of all hosts.
    pub keys: Vec<PubKey>,
    /// The desk, with the host's key.
    pub desk: SharedDesk,
    /// The mailboxes.
    pub boxes: Vec<BoxSeat>,
    /// The lanes, each with its certificate.
    pub lanes: Vec<SharedLane>,
    /// The inlets.
    pub inlets: Vec<InletSeat>,
}

/// Whether a mailbox has that slot.
fn has_slot(seat: &BoxSeat, slot: u32) -> bool
    ensures { result ≡ ((box_site seat.now).slot == slot) }
{
    seat.slot == slot
}

/// The place of the mailbox with that slot.
fn box_for(boxes: &[BoxSeat], slot: u32) -> Option<usize>
    ensures place { result ≡ position (λ b. (box_site b).slot == slot) boxes.now }
    ensures within { IfSome result (λ place. place < length boxes.now) }
{
    boxes.iter().position(|seat| has_slot(seat, slot))
}

/// Whether both labels are equal.
fn is_same_label(a: &Label, b: &Label) -> bool
    ensures test { result ≡ same_label by_name a.now b.now }
    ensures equal { IsTrue result → a.now ≡ b.now }
{
    let _first = a.as_slice();
    let _second = b.as_slice();
    a.same(b)
}

/// Whether it is the lane to that exporter with that label.
fn is_for(lane: &SharedLane, to: &PubKey, label: &Label) -> bool
    ensures test { result ≡ is_lane_for to.now label.now lane.now }
    ensures equal { IsTrue result → (to.now ≡ lane.now.receiver) × (label.now ≡ lane.now.label) }
{
    let cert = lane.cert();
    cert.receiver == *to && is_same_label(&cert.label, label)
}

/// The place of the lane to that exporter with that label.
fn lane_for(lanes: &[SharedLane], to: &PubKey, label: &Label) -> Option<usize>
    ensures place { result ≡ position (is_lane_for to.now label.now) lanes.now }
    ensures within { IfSome result (λ place. place < length lanes.now) }
{
    lanes.iter().position(|lane| is_for(lane, to, label))
}

/// Whether a message goes onto a lane.
pub(crate) fn goes_onto(lane: &SharedLane, message: &Message) -> bool
    ensures test { result ≡ is_lane_for message.now.to message.now.label lane.now }
    ensures equal { IsTrue result → IsSentOn lane.now message.now }
{
    is_for(lane, &message.to, &message.label)
}

impl Site for Node {
    ghost seen = { seen_of };

    fn here(&self) -> &PubKey {
        self.desk.here()
    }

    fn key(&self, host: u32) -> &PubKey {
        &self.keys[host as usize]
    }

    fn box_with(&self, slot: u32) -> Option<usize> {
        box_for(self.boxes.as_slice(), slot)
    }

    fn box_label(&self, place: usize) -> &LocalLabel {
        &self.boxes[place].label
    }

    fn box_owner(&self, place: usize) -> u32 {
        self.boxes[place].owner
    }

    fn lane_to(&self, to: &PubKey, label: &Label) -> Option<usize> {
        lane_for(self.lanes.as_slice(), to, label)
    }
}
