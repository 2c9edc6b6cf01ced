//! Mailboxes by their slots.
#![tactic(auto)]

ghost use Rattle.std.specs.Prelude.{◌≡◌, ◌<◌, length, map, position, option_copied, IfSome};
ghost use Rattle.ds_exporter.specs.HostStates.{box_of};
ghost use Rattle.ds_exporter.specs.Mailboxes.{has_slot, label_at, place_of};

use crate::parts::{BoxList, BoxPart};
use ds_label::LocalLabel;

/// Whether a mailbox has that slot.
fn is_for(part: &BoxPart, slot: u32) -> bool
    ensures { result ≡ has_slot slot (box_of part.now) }
{
    part.slot == slot
}

/// The place of the mailbox with that slot.
fn place_for(boxes: &[BoxPart], slot: u32) -> Option<usize>
    ensures place { result ≡ position (λ b. has_slot slot (box_of b)) boxes.now }
    ensures within { IfSome result (λ place. place < length boxes.now) }
{
    boxes.iter().position(|part| is_for(part, slot))
}

/// The same, by what is seen of the mailboxes.
#[tactic(auto, using(crate::proofs::Queues::position_seen))]
pub(crate) fn box_for(boxes: &BoxList, slot: u32) -> Option<usize>
    ensures place { result ≡ place_of (map box_of boxes.now.items) slot }
    ensures within { IfSome result (λ place. place < length boxes.now.items) }
{
    place_for(boxes.as_slice(), slot)
}

/// The label of the mailbox at a place, where there is one.
pub(crate) fn label_of(boxes: &BoxList, place: Option<usize>) -> Option<&LocalLabel>
    requires { IfSome place (λ p. p < length boxes.now.items) }
    ensures { option_copied result ≡ label_at (map box_of boxes.now.items) place }
{
    let place = place?;
    Some(boxes[place].state.label())
}
