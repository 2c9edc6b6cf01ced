//! Keys of lanes, made at once, each in a thread of its own where one can be made.
#![tactic(auto)]

ghost use Rattle.std.specs.Prelude.{◌≡◌, ◌<◌, ◌≤◌, ℕ, Ok, false, map, length, All, IfOk, slice_index_or};
ghost use Rattle.std.specs.Thread.{IsSync};
ghost use Rattle.ds_plan.specs.Documents.{is_silent};
ghost use Rattle.ds_boot.specs.AllKeys.{HasFewLanes, lane_tree_at, lane_trees, trees_of};

use crate::trees::lane_tree;
use ds_plan::{HostSpec, Secret};
use lms_sig::TreeKey;
use std::alloc::{AllocError, Global};
use std::thread;
use std::thread::Threads;

/// What was made, if all could be made. `AllocError` where memory ran out, for one of them or here.
fn all_made<T: Drop>(alloc: Global, made: Vec<Result<T, AllocError>>) -> Result<Vec<T>, AllocError>
    ensures { IfOk result (λ all. map Ok all.items ≡ made.items) }
{
    let mut all = Vec::new(alloc);
    for one in made {
        all.push(one?)?;
    }
    Ok(all)
}

/// The keys of a running host's lanes, of which there are so many, or that memory ran out for one.
fn lane_results<R: Threads + Sync>(
    rt: &R,
    alloc: Global,
    host: &HostSpec,
    count: usize,
) -> Result<Vec<Result<TreeKey, AllocError>>, AllocError>
    requires runs { is_silent host.now.secret ≡ false }
    requires few { count ≤ 32 }
    ensures count { IfOk result (λ made. length made.items ≡ count) }
    ensures each { IfOk result (λ made. (i : ℕ) (d : _) → i < count → IfOk (slice_index_or made.items i d) (λ t. t ≡ lane_tree_at host.now i)) }
{
    thread::map_indices(
        rt,
        alloc,
        count,
        &|place: usize| -> Result<TreeKey, AllocError>
            requires { (is_silent host.now.secret ≡ false) × (place < 32) }
            ensures { IfOk result (λ t. t ≡ lane_tree_at host.entry.now place) }
        { lane_tree(alloc, host, place) },
    )
}

/// The keys of a running host's lanes. `AllocError` where memory runs out.
fn trees_of_lanes<R: Threads + Sync>(
    rt: &R,
    alloc: Global,
    host: &HostSpec,
) -> Result<Vec<TreeKey>, AllocError>
    requires runs { is_silent host.now.secret ≡ false }
    requires few { length host.now.lanes ≤ 32 }
    ensures { IfOk result (λ trees. trees.items ≡ lane_trees host.now) }
{
    let made = lane_results(rt, alloc, host, host.lanes.len())?;
    let trees = all_made(alloc, made)?;
    Ok(trees)
}

/// The keys of a host's lanes. `AllocError` where memory runs out.
fn lane_trees<R: Threads + Sync>(
    rt: &R,
    alloc: Global,
    host: &HostSpec,
) -> Result<Vec<TreeKey>, AllocError>
    requires { HasFewLanes host.now }
    ensures { IfOk result (λ trees. trees.items ≡ lane_trees host.now) }
{
    match &host.secret {
        Secret::Seed(_) => trees_of_lanes(rt, alloc, host),
        Secret::Key(_) => Ok(Vec::new(alloc)),
    }
}

/// The keys of each host's lanes, or that memory ran out for one.
fn host_results<R: Threads + Sync>(
    rt: &R,
    alloc: Global,
    hosts: &[HostSpec],
) -> Result<Vec<Result<Vec<TreeKey>, AllocError>>, AllocError>
    requires { All HasFewLanes hosts.now }
    ensures count { IfOk result (λ made. length made.items ≡ length hosts.now) }
    ensures each { IfOk result (λ made. (i : ℕ) (d : _) (h : _) → i < length hosts.now
        → IfOk (slice_index_or made.items i d) (λ trees. trees.items ≡ lane_trees (slice_index_or hosts.now i h))) }
{
    thread::map_indices(
        rt,
        alloc,
        hosts.len(),
        &|at: usize| -> Result<Vec<TreeKey>, AllocError>
            requires { IsSync R.row × (at < length hosts.now) × All HasFewLanes hosts.now }
            ensures { IfOk result (λ trees. (h : _) → trees.items ≡ lane_trees (slice_index_or hosts.entry.now at h)) }
        { lane_trees(rt, alloc, &hosts[at]) },
    )
}

/// The keys of each host's lanes, all made at once. `AllocError` where memory runs out.
pub fn each_lane_trees<R: Threads + Sync>(
    rt: &R,
    alloc: Global,
    hosts: &[HostSpec],
) -> Result<Vec<Vec<TreeKey>>, AllocError>
    requires { All HasFewLanes hosts.now }
    ensures { IfOk result (λ trees. map trees_of trees.items ≡ map lane_trees hosts.now) }
{
    let made = host_results(rt, alloc, hosts)?;
    let trees = all_made(alloc, made)?;
    Ok(trees)
}
