//! All hosts of a document.
#![tactic(auto)]

ghost use Rattle.std.specs.Prelude.{◌≡◌, ◌≤◌, ◌<◌, ◌+◌, ℕ, None, Some, get_or, length, map, slice_get, slice_set, All, IfOk};
ghost use Rattle.ds_plan.specs.Keys.{host_keys, identity_key};
ghost use Rattle.ds_plan.specs.Documents.{IsDocument};
ghost use Rattle.ds_setup.specs.Lists.{each};
ghost use Rattle.ds_setup.specs.Starts.{start_of};
ghost use Rattle.ds_hosts.specs.Nodes.{conns_of, node_of, plain_host};
ghost use Rattle.ds_boot.specs.AllKeys.{AreKeysOf, lane_trees, trees_of};
ghost use Rattle.ds_boot.specs.Signing.{signer_behind};
ghost use Rattle.ds_boot.specs.Lanes.{lanes_begun, lanes_of};
ghost use Rattle.ds_boot.specs.Parts.{conns_to};
ghost use Rattle.ds_boot.specs.Beginnings.{AreBegun, IsShared};
ghost use Rattle.ds_boot.specs.Nodes.{AreNodesOf};

use crate::begun::begin_hosts;
use crate::certs::sign_certs;
use crate::conns::conn_ends;
use crate::doc_keys::{DocKeys, make_keys, make_lane_keys};
use crate::hosts::{Shared, begin_node};
use crate::keys::public_keys;
use ds_exporter::LaneList;
use ds_hosts::NodeList;
use ds_plan::{Doc, HostSpec};
use lms_sig::TreeKey;
use lms_state::Signer;
use std::alloc::{AllocError, Global};
use std::mem;

/// Takes the signer of the host at a place.
fn take_signer(signers: &mut [Option<Signer>], place: usize) -> Option<Signer>
    requires { place < length signers.old }
    ensures signer { result ≡ get_or signers.old place None }
    ensures rest { signers.new ≡ slice_set signers.old place None }
{
    signers[place].take()
}

/// Takes the lanes of the host at a place.
fn take_lanes(alloc: Global, lanes: &mut [LaneList], place: usize) -> LaneList
    requires { place < length lanes.old }
    ensures lanes { slice_get lanes.old place ≡ Some result }
    ensures count { length lanes.new ≡ length lanes.old }
    ensures rest { (j : ℕ) → place + 1 ≤ j → slice_get lanes.new j ≡ slice_get lanes.old j }
{
    mem::replace(&mut lanes[place], Vec::new(alloc))
}

/// Each host, which are these, with its signer and its lanes. `AllocError` where memory runs out.
fn begin_nodes(
    alloc: Global,
    doc: &Doc,
    shared: &Shared,
    hosts: &[HostSpec],
    signers: &mut [Option<Signer>],
    lanes: &mut [LaneList],
) -> Result<NodeList, AllocError>
    requires document { IsDocument doc.now }
    requires shared { IsShared doc.now shared.now }
    requires hosts { hosts.now ≡ doc.now.hosts }
    requires signers { signers.old ≡ each (signer_behind doc.now.certs) doc.now.hosts }
    requires lanes { map lanes_of lanes.old ≡ each (lanes_begun (host_keys doc.now.hosts)) doc.now.hosts }
    ensures { IfOk result (λ nodes. AreBegun doc.now (map node_of nodes.items)) }
{
    let mut nodes = Vec::new(alloc);
    for (place, host) in hosts.iter().enumerate() {
        let signer = take_signer(signers, place);
        let own = take_lanes(alloc, lanes, place);
        nodes.push(begin_node(alloc, doc, shared, place as u32, host, signer, own)?)?;
    }
    Ok(nodes)
}

/// The hosts of a document as they begin, with their identity keys and those of their lanes.
fn begin_all(
    alloc: Global,
    doc: &Doc,
    trees: &mut [Option<TreeKey>],
    lane_keys: &mut [Vec<TreeKey>],
) -> Result<NodeList, AllocError>
    requires document { IsDocument doc.now }
    requires trees { trees.old ≡ map identity_key doc.now.hosts }
    requires lane_keys { map trees_of lane_keys.old ≡ map lane_trees doc.now.hosts }
    ensures { IfOk result (λ nodes. AreBegun doc.now (map node_of nodes.items)) }
{
    let hosts = doc.hosts.as_slice();
    let keys = public_keys(alloc, hosts, trees)?;
    let begun = begin_hosts(alloc, hosts, keys.as_slice(), trees, lane_keys)?;
    let mut signers = begun.signers;
    let mut lanes = begun.lanes;
    let certs = sign_certs(alloc, doc, keys.as_slice(), &mut signers)?;
    let shared = Shared {
        keys,
        own: begun.addresses,
        certs,
        ends: conn_ends(alloc, doc)?,
    };
    begin_nodes(alloc, doc, &shared, hosts, &mut signers, &mut lanes)
}

/// The hosts of a document as they are before the first event, with the keys that they and their lanes sign with: each running
/// one an exporter, and of each silent one the connections to it. `AllocError` where memory runs out.
pub fn boot_with(alloc: Global, doc: &Doc, keys: DocKeys) -> Result<NodeList, AllocError>
    requires document { IsDocument doc.now }
    requires keys { AreKeysOf doc.now keys }
    ensures hosts { IfOk result (λ nodes. map plain_host (map node_of nodes.items) ≡ (start_of doc.now).hosts) }
    ensures nodes { IfOk result (λ nodes. AreNodesOf doc.now (map node_of nodes.items)) }
    ensures conns { IfOk result (λ nodes. map conns_of (map node_of nodes.items) ≡ each (conns_to doc.now) doc.now.hosts) }
{
    let mut trees = keys.identities;
    let mut lane_keys = keys.lanes;
    let nodes = begin_all(alloc, doc, &mut trees, &mut lane_keys)?;
    Ok(nodes)
}

/// The hosts of a document as they are before the first event, with the identity keys of those that run, by their places.
/// `AllocError` where memory runs out.
pub fn boot_keyed(
    alloc: Global,
    doc: &Doc,
    trees: Vec<Option<TreeKey>>,
) -> Result<NodeList, AllocError>
    requires document { IsDocument doc.now }
    requires trees { trees.items ≡ map identity_key doc.now.hosts }
    ensures hosts { IfOk result (λ nodes. map plain_host (map node_of nodes.items) ≡ (start_of doc.now).hosts) }
    ensures nodes { IfOk result (λ nodes. AreNodesOf doc.now (map node_of nodes.items)) }
    ensures conns { IfOk result (λ nodes. map conns_of (map node_of nodes.items) ≡ each (conns_to doc.now) doc.now.hosts) }
{
    let keys = make_lane_keys(alloc, doc, trees)?;
    boot_with(alloc, doc, keys)
}

/// The hosts of a document as they are before the first event: each running one an exporter, and of each silent one the
/// connections to it. `AllocError` where memory runs out.
pub fn boot(alloc: Global, doc: &Doc) -> Result<NodeList, AllocError>
    requires { IsDocument doc.now }
    ensures hosts { IfOk result (λ nodes. map plain_host (map node_of nodes.items) ≡ (start_of doc.now).hosts) }
    ensures nodes { IfOk result (λ nodes. AreNodesOf doc.now (map node_of nodes.items)) }
    ensures conns { IfOk result (λ nodes. map conns_of (map node_of nodes.items) ≡ each (conns_to doc.now) doc.now.hosts) }
{
    let keys = make_keys(alloc, doc)?;
    boot_with(alloc, doc, keys)
}
