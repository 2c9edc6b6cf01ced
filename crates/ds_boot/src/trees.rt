//! Keys of hosts and of their lanes, made one after another.
#![tactic(auto)]

ghost use Rattle.std.specs.Prelude.{◌≡◌, ◌<◌, ◌≤◌, false, map, length, All, IfOk};
ghost use Rattle.lms_sig.specs.Keys.{derived_seed, derived_id};
ghost use Rattle.ds_plan.specs.Keys.{identity_key};
ghost use Rattle.ds_plan.specs.Documents.{is_silent};
ghost use Rattle.ds_boot.specs.AllKeys.{HasFewLanes, lane_tree_at, lane_trees, trees_of};

use ds_plan::{HostSpec, LaneSpec, Secret};
use lms_sig::{Params, TreeKey, derive};
use std::alloc::{AllocError, Global};

/// The key with this index that a host's secret gives.
fn tree_of(
    alloc: Global,
    params: Params,
    secret: &[u8; 32],
    index: u32,
) -> Result<TreeKey, AllocError>
    ensures { IfOk result (λ t. t ≡ record { params = params; seed = derived_seed secret.now index; id = derived_id secret.now index }) }
{
    let (seed, id) = derive(secret, index);
    TreeKey::make(alloc, params, seed, id)
}

/// A host's identity key; none where the host is silent. `AllocError` where memory runs out.
pub fn identity_tree(alloc: Global, host: &HostSpec) -> Result<Option<TreeKey>, AllocError>
    ensures { IfOk result (λ t. t ≡ identity_key host.now) }
{
    match &host.secret {
        Secret::Seed(secret) => Ok(Some(tree_of(alloc, host.identity, secret, 0)?)),
        Secret::Key(_) => Ok(None),
    }
}

/// The key of a running host's lane at a place. `AllocError` where memory runs out.
pub fn lane_tree(alloc: Global, host: &HostSpec, place: usize) -> Result<TreeKey, AllocError>
    requires runs { is_silent host.now.secret ≡ false }
    requires few { place < 32 }
    ensures { IfOk result (λ t. t ≡ lane_tree_at host.now place) }
{
    match &host.secret {
        Secret::Seed(secret) => tree_of(alloc, host.lanekey, secret, place as u32 + 1),
        Secret::Key(_) => unreachable!(),
    }
}

/// The keys of a running host's lanes, which are these. `AllocError` where memory runs out.
fn trees_of_lanes(
    alloc: Global,
    host: &HostSpec,
    lanes: &[LaneSpec],
) -> Result<Vec<TreeKey>, AllocError>
    requires runs { is_silent host.now.secret ≡ false }
    requires lanes { lanes.now ≡ host.now.lanes }
    requires few { length lanes.now ≤ 32 }
    ensures { IfOk result (λ trees. trees.items ≡ lane_trees host.now) }
{
    let mut trees = Vec::new(alloc);
    for (place, _lane) in lanes.iter().enumerate() {
        trees.push(lane_tree(alloc, host, place)?)?;
    }
    Ok(trees)
}

/// The keys of a host's lanes. `AllocError` where memory runs out.
fn lane_trees(alloc: Global, host: &HostSpec) -> Result<Vec<TreeKey>, AllocError>
    requires { HasFewLanes host.now }
    ensures { IfOk result (λ trees. trees.items ≡ lane_trees host.now) }
{
    match &host.secret {
        Secret::Seed(_) => trees_of_lanes(alloc, host, host.lanes.as_slice()),
        Secret::Key(_) => Ok(Vec::new(alloc)),
    }
}

/// The identity key of each host. `AllocError` where memory runs out.
pub fn identity_trees(alloc: Global, hosts: &[HostSpec]) -> Result<Vec<Option<TreeKey>>, AllocError>
    ensures { IfOk result (λ trees. trees.items ≡ map identity_key hosts.now) }
{
    let mut trees = Vec::new(alloc);
    for host in hosts {
        trees.push(identity_tree(alloc, host)?)?;
    }
    Ok(trees)
}

/// The keys of each host's lanes. `AllocError` where memory runs out.
pub fn each_lane_trees(alloc: Global, hosts: &[HostSpec]) -> Result<Vec<Vec<TreeKey>>, AllocError>
    requires { All HasFewLanes hosts.now }
    ensures { IfOk result (λ trees. map trees_of trees.items ≡ map lane_trees hosts.now) }
{
    let mut trees = Vec::new(alloc);
    for host in hosts {
        trees.push(lane_trees(alloc, host)?)?;
    }
    Ok(trees)
}
