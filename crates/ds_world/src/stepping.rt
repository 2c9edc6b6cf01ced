//! Events of one host alone.
#![tactic(auto)]

ghost use Rattle.std.specs.Prelude.{◌≡◌, ◌-◌, ◌+◌, ◌<◌, ◌^◌, ℕ, Some, length, map, slice_get, Ok, OnErr, IfOk};
ghost use Rattle.ds_model.specs.Plan.{HostPlan};
ghost use Rattle.ds_model.specs.World.{Host};
ghost use Rattle.ds_model.specs.Step.{step_lane, step_proc, ticked, Frame, Step, Tick};
ghost use Rattle.ds_scheme.specs.TheScheme.{scheme};
ghost use Rattle.ds_hosts.specs.Nodes.{NodeState, IsEarlier, node_of};
ghost use Rattle.ds_world.specs.Inside.{IsFit, state_of};
ghost use Rattle.ds_world.specs.Afters.{IsAfter, IsSteppedAt, counted};

use crate::parts::WorldParts;
use ds_exporter::Moved;
use ds_hosts::NodeList;
use std::alloc::AllocError;

/// A frame event of the host at a place.
#[tactic(auto, using(ds_exporter::proofs::Places::map_at_here, ds_exporter::proofs::Places::map_same))]
fn frame_at(nodes: &mut NodeList, host: usize, stamp: u64, lane: u32) -> Result<Moved, AllocError>
    requires there { host < length nodes.old.items }
    requires later { (x : NodeState) → slice_get (map node_of nodes.old.items) host ≡ Some x → IsEarlier stamp x }
    ensures ok { IfOk result (λ moved. IsSteppedAt (λ plan x. step_lane scheme plan x (lane - 1) (slice_get x.workers (lane - 1))) moved stamp host (map node_of nodes.old.items) (map node_of nodes.new.items)) }
    ensures still { result ≡ Ok Moved.Still → map node_of nodes.new.items ≡ map node_of nodes.old.items }
    ensures err { OnErr result (map node_of nodes.new.items ≡ map node_of nodes.old.items) }
{
    let moved = nodes[host].frame(stamp, lane)?;
    Ok(moved)
}

/// A tick of the host at a place.
#[tactic(auto, using(ds_exporter::proofs::Places::map_at_here, ds_exporter::proofs::Places::map_same))]
fn tick_at(nodes: &mut NodeList, host: usize, stamp: u64, to: u64) -> Result<Moved, AllocError>
    requires there { host < length nodes.old.items }
    requires later { (x : NodeState) → slice_get (map node_of nodes.old.items) host ≡ Some x → IsEarlier stamp x }
    ensures ok { IfOk result (λ moved. IsSteppedAt (λ plan x. ticked plan to x) moved stamp host (map node_of nodes.old.items) (map node_of nodes.new.items)) }
    ensures still { result ≡ Ok Moved.Still → map node_of nodes.new.items ≡ map node_of nodes.old.items }
    ensures err { OnErr result (map node_of nodes.new.items ≡ map node_of nodes.old.items) }
{
    let moved = nodes[host].tick(stamp, to)?;
    Ok(moved)
}

/// A frame event of a lane, by its host's place and its number, from 1. It is still where there is no such host or lane.
pub(crate) fn frame(parts: &mut WorldParts, host: u32, lane: u32) -> Result<Moved, AllocError>
    requires fit { IsFit parts.old }
    requires more { parts.old.count + 1 < 2 ^ 64 }
    ensures ok { IfOk result (λ moved. IsAfter moved (Frame host (lane - 1)) (state_of parts.old) (counted parts.old.count (state_of parts.new))) }
    ensures same { (parts.new.routes ≡ parts.old.routes) × (parts.new.count ≡ parts.old.count) }
    ensures still { result ≡ Ok Moved.Still → state_of parts.new ≡ state_of parts.old }
    ensures err { OnErr result (state_of parts.new ≡ state_of parts.old) }
{
    let host = host as usize;
    if host >= parts.nodes.len() {
        return Ok(Moved::Still);
    }
    frame_at(&mut parts.nodes, host, parts.count + 1, lane)
}

/// A tick of a host, by its place. It is still where there is no such host.
pub(crate) fn tick(parts: &mut WorldParts, host: u32, to: u64) -> Result<Moved, AllocError>
    requires fit { IsFit parts.old }
    requires more { parts.old.count + 1 < 2 ^ 64 }
    ensures ok { IfOk result (λ moved. IsAfter moved (Tick host to) (state_of parts.old) (counted parts.old.count (state_of parts.new))) }
    ensures same { (parts.new.routes ≡ parts.old.routes) × (parts.new.count ≡ parts.old.count) }
    ensures still { result ≡ Ok Moved.Still → state_of parts.new ≡ state_of parts.old }
    ensures err { OnErr result (state_of parts.new ≡ state_of parts.old) }
{
    let host = host as usize;
    if host >= parts.nodes.len() {
        return Ok(Moved::Still);
    }
    tick_at(&mut parts.nodes, host, parts.count + 1, to)
}

/// A step of the host at a place.
fn step_at(nodes: &mut NodeList, host: usize, stamp: u64, index: u32) -> Result<Moved, AllocError>
    requires there { host < length nodes.old.items }
    requires later { (x : NodeState) → slice_get (map node_of nodes.old.items) host ≡ Some x → IsEarlier stamp x }
    ensures ok { IfOk result (λ moved. IsSteppedAt (λ plan x. step_proc scheme plan x index (slice_get x.procs index)) moved stamp host (map node_of nodes.old.items) (map node_of nodes.new.items)) }
    ensures still { result ≡ Ok Moved.Still → map node_of nodes.new.items ≡ map node_of nodes.old.items }
    ensures err { OnErr result (map node_of nodes.new.items ≡ map node_of nodes.old.items) }
{
    let moved = nodes[host].step(stamp, index)?;
    Ok(moved)
}

/// A step of a process, by its host's place and its own. It is still where there is no such host or process.
pub(crate) fn step(parts: &mut WorldParts, host: u32, index: u32) -> Result<Moved, AllocError>
    requires fit { IsFit parts.old }
    requires more { parts.old.count + 1 < 2 ^ 64 }
    ensures ok { IfOk result (λ moved. IsAfter moved (Step host index) (state_of parts.old) (counted parts.old.count (state_of parts.new))) }
    ensures same { (parts.new.routes ≡ parts.old.routes) × (parts.new.count ≡ parts.old.count) }
    ensures still { result ≡ Ok Moved.Still → state_of parts.new ≡ state_of parts.old }
    ensures err { OnErr result (state_of parts.new ≡ state_of parts.old) }
{
    let host = host as usize;
    if host >= parts.nodes.len() {
        return Ok(Moved::Still);
    }
    step_at(&mut parts.nodes, host, parts.count + 1, index)
}
