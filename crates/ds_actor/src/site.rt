//! What setup fixed of a host.

ghost use Rattle.std.specs.Prelude.{◌≡◌, ◌==◌, ◌<◌, Some, IfSome, length, position};
ghost use Rattle.ds_model.specs.Keys.{key_of};
ghost use Rattle.ds_actor.specs.Sites.{SitePlan, label_at, owner_at, is_lane_for};

use ds_label::{Label, LocalLabel, PubKey};

/// What setup fixed of a host, by which its processes ask: no event changes it. Mailboxes and lanes have places, from 0.
pub trait Site {
    // All of it.
    ghost seen: { Self → SitePlan };

    /// The host's key.
    fn here(&self) -> &PubKey
        ensures { result.now ≡ (seen self.now).here };

    /// The key of the host with this number in scripts.
    fn key(&self, host: u32) -> &PubKey
        requires { host < length (seen self.now).keys }
        ensures { result.now ≡ key_of (seen self.now).keys host };

    /// The place of the first mailbox with this slot; none where there is no such mailbox.
    fn box_with(&self, slot: u32) -> Option<usize>
        ensures place { result ≡ position (λ b. b.slot == slot) (seen self.now).boxes }
        ensures within { IfSome result (λ place. place < length (seen self.now).boxes) };

    /// The label of the mailbox at a place, in the host's own numbers.
    fn box_label(&self, place: usize) -> &LocalLabel
        requires { place < length (seen self.now).boxes }
        ensures { label_at (seen self.now).boxes (Some place) ≡ Some result.now };

    /// The process that takes from the mailbox at a place.
    fn box_owner(&self, place: usize) -> u32
        requires { place < length (seen self.now).boxes }
        ensures { owner_at (seen self.now).boxes (Some place) ≡ Some result };

    /// The place of the first lane to this exporter with exactly this label; none where there is no such lane.
    fn lane_to(&self, to: &PubKey, label: &Label) -> Option<usize>
        ensures place { result ≡ position (is_lane_for to.now label.now) (seen self.now).lanes }
        ensures within { IfSome result (λ place. place < length (seen self.now).lanes) };
}
