//! A running host's lanes, with the certificates that its identity key signs.
#![tactic(auto)]

ghost use Rattle.std.specs.Prelude.{◌≡◌, ◌+◌, ◌<◌, ◌≤◌, [], false, length, map, All, IfOk, OnOk};
ghost use Rattle.lms_sig.specs.Parameters.{leaf_count};
ghost use Rattle.ds_plan.specs.declared.host.HostSpec.{HostSpec};
ghost use Rattle.ds_plan.specs.Documents.{is_silent};
ghost use Rattle.ds_setup.specs.Lists.{each};
ghost use Rattle.ds_setup.specs.Signed.{address_leaves};
ghost use Rattle.ds_exporter.specs.HostStates.{lane_of};
ghost use Rattle.ds_boot.specs.Signers.{identity_tree, lane_signing, signing_at};
ghost use Rattle.ds_boot.specs.AllKeys.{lane_tree, lane_trees};
ghost use Rattle.ds_boot.specs.Lanes.{blank_lane, lane_begun};

use crate::keys::fresh_signer;
use crate::queue::next_key;
use crate::signing::sign_lane;
use ds_cert::LaneCert;
use ds_exporter::{LaneList, LanePart};
use ds_label::PubKey;
use ds_lane::{LaneEnd, LaneState};
use ds_plan::{HostSpec, LaneSpec};
use ds_script::{Actor, ActorKind};
use ds_wire::Bytes;
use lms_sig::TreeKey;
use lms_state::Signer;
use std::alloc::{AllocError, Global};

/// The certificate of the lane at a place, whose frames the lane's signer signs, without a signature.
fn unsigned_lane(
    alloc: Global,
    keys: &[PubKey],
    signer: &Signer,
    lane_key: &Signer,
    place: u32,
    lane: &LaneSpec,
) -> Result<LaneCert, AllocError>
    requires few { place < 32 }
    requires to { lane.now.to < length keys.now }
    ensures { (h : HostSpec) → is_silent h.secret ≡ false → signer.now.key ≡ identity_tree h → lane_key.now ≡ lane_signing h (place + 1)
        → IfOk result (λ cert. cert ≡ blank_lane keys.now h place lane.now) }
{
    Ok(LaneCert {
        exporter: PubKey(signer.public()),
        lane: place + 1,
        receiver: keys[lane.to as usize],
        label: lane.label.copy()?,
        key: PubKey(lane_key.public()),
        from: 0,
        until: lane.until,
        signature: Bytes::new(alloc),
    })
}

/// The lane at a place, with that key. `AllocError` where memory runs out.
fn begin_lane(
    alloc: Global,
    keys: &[PubKey],
    at: u32,
    host: &HostSpec,
    signer: &mut Signer,
    place: u32,
    lane: &LaneSpec,
    tree: TreeKey,
) -> Result<LanePart, AllocError>
    requires runs { is_silent host.now.secret ≡ false }
    requires few { place < 32 }
    requires to { lane.now.to < length keys.now }
    requires signer { signer.old ≡ signing_at (address_leaves host.now + place) (identity_tree host.now) }
    requires leaf { address_leaves host.now + place < leaf_count host.now.identity.lms }
    requires tree { tree ≡ lane_tree host.now place lane.now }
    ensures lane { IfOk result (λ l. lane_of l ≡ lane_begun keys.now at host.now place lane.now) }
    ensures signer { OnOk result (signer.new ≡ signing_at (address_leaves host.now + (place + 1)) (identity_tree host.now)) }
{
    let lane_key = fresh_signer(tree);
    let blank = unsigned_lane(alloc, keys, signer, &lane_key, place, lane)?;
    let cert = sign_lane(signer, blank)?;
    let who = Actor {
        kind: ActorKind::Lane,
        host: at,
        index: place + 1,
    };
    let end = LaneEnd::new(alloc, who, &cert, lane_key)?;
    let state = LaneState::new(alloc, cert, lane.room);
    Ok(LanePart { state, end })
}

/// The lanes of a running host, which are these, with their keys. `AllocError` where memory runs out.
fn begin_each_lane(
    alloc: Global,
    keys: &[PubKey],
    at: u32,
    host: &HostSpec,
    lanes: &[LaneSpec],
    trees: Vec<TreeKey>,
    signer: &mut Signer,
) -> Result<LaneList, AllocError>
    requires lanes { lanes.now ≡ host.now.lanes }
    requires trees { trees.items ≡ lane_trees host.now }
    requires runs { is_silent host.now.secret ≡ false }
    requires few { length host.now.lanes ≤ 32 }
    requires to { All (λ l. l.to < length keys.now) host.now.lanes }
    requires signer { signer.old ≡ signing_at (address_leaves host.now) (identity_tree host.now) }
    requires leaves { address_leaves host.now + length host.now.lanes ≤ leaf_count host.now.identity.lms }
    ensures lanes { IfOk result (λ begun. map lane_of begun.items ≡ each (lane_begun keys.now at host.now) host.now.lanes) }
    ensures signer { OnOk result (signer.new ≡ signing_at (address_leaves host.now + length host.now.lanes) (identity_tree host.now)) }
{
    let mut trees = trees.into_iter();
    let mut begun = Vec::new(alloc);
    for (place, lane) in lanes.iter().enumerate() {
        let tree = next_key(&mut trees);
        begun.push(begin_lane(alloc, keys, at, host, signer, place as u32, lane, tree)?)?;
    }
    Ok(begun)
}

/// The lanes of a running host, by their numbers, with their keys. `AllocError` where memory runs out.
pub fn begin_lanes(
    alloc: Global,
    keys: &[PubKey],
    at: u32,
    host: &HostSpec,
    trees: Vec<TreeKey>,
    signer: &mut Signer,
) -> Result<LaneList, AllocError>
    requires trees { trees.items ≡ lane_trees host.now }
    requires runs { is_silent host.now.secret ≡ false }
    requires few { length host.now.lanes ≤ 32 }
    requires to { All (λ l. l.to < length keys.now) host.now.lanes }
    requires signer { signer.old ≡ signing_at (address_leaves host.now) (identity_tree host.now) }
    requires leaves { address_leaves host.now + length host.now.lanes ≤ leaf_count host.now.identity.lms }
    ensures lanes { IfOk result (λ begun. map lane_of begun.items ≡ each (lane_begun keys.now at host.now) host.now.lanes) }
    ensures signer { OnOk result (signer.new ≡ signing_at (address_leaves host.now + length host.now.lanes) (identity_tree host.now)) }
{
    begin_each_lane(alloc, keys, at, host, host.lanes.as_slice(), trees, signer)
}
