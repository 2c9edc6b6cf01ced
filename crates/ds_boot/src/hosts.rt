//! Each host of a document as it begins.
#![tactic(auto)]

ghost use Rattle.std.specs.Prelude.{◌≡◌, ◌≤◌, ◌<◌, false, Some, length, map, slice_get, All, IfOk};
ghost use Rattle.ds_desk.specs.Desks.{kept_of};
ghost use Rattle.ds_exporter.specs.HostStates.{connection_of, process_of, box_of, lane_of, inlet_of, state_of};
ghost use Rattle.ds_plan.specs.Keys.{host_key, host_keys};
ghost use Rattle.ds_plan.specs.Documents.{IsDocument, is_silent};
ghost use Rattle.ds_setup.specs.Signed.{doc_certs, leaf_behind};
ghost use Rattle.ds_setup.specs.Plans.{inlets_of};
ghost use Rattle.ds_setup.specs.Starts.{own_addresses};
ghost use Rattle.ds_hosts.specs.Nodes.{node_of};
ghost use Rattle.ds_boot.specs.Signers.{identity_tree, signing_at};
ghost use Rattle.ds_boot.specs.Signing.{signer_behind};
ghost use Rattle.ds_boot.specs.Lanes.{lanes_begun, lanes_of};
ghost use Rattle.ds_boot.specs.Parts.{conns_to};
ghost use Rattle.ds_boot.specs.Beginnings.{IsBegun, IsNodeBegun, IsShared};

use crate::certs::KeptCertList;
use crate::conns::{begin_conns, begin_inlets, inlet_names};
use crate::desks::begin_desk;
use crate::procs::{begin_boxes, begin_processes};
use ds_cert::Address;
use ds_exporter::{ConnList, Exporter, LaneList};
use ds_hosts::Node;
use ds_inlet::InletNames;
use ds_label::PubKey;
use ds_plan::{Doc, HostSpec};
use lms_state::Signer;
use std::alloc::{AllocError, Global};

/// What all hosts of a document share when they begin: the keys, each host's own address certificate, the document's
/// certificates, and the hosts to which connections lead.
#[derive(Drop)]
pub struct Shared {
    pub keys: Vec<PubKey>,
    pub own: Vec<Address>,
    pub certs: KeptCertList,
    pub ends: Vec<u32>,
}

/// The same keys. `AllocError` where memory runs out.
fn copy_keys(alloc: Global, keys: &[PubKey]) -> Result<Vec<PubKey>, AllocError>
    ensures { IfOk result (λ copies. copies.items ≡ keys.now) }
{
    keys.to_vec(alloc)
}

/// The key of the host at a place.
fn key_of(keys: &[PubKey], place: u32) -> PubKey
    requires { place < length keys.now }
    ensures { slice_get keys.now place ≡ Some result }
{
    keys[place as usize]
}

/// A running host. `AllocError` where memory runs out.
fn begin_exporter(
    alloc: Global,
    doc: &Doc,
    shared: &Shared,
    place: u32,
    host: &HostSpec,
    names: &InletNames,
    conns: ConnList,
    signer: Signer,
    lanes: LaneList,
) -> Result<Exporter, AllocError>
    requires document { IsDocument doc.now }
    requires shared { IsShared doc.now shared.now }
    requires there { slice_get doc.now.hosts place ≡ Some host.now }
    requires runs { is_silent host.now.secret ≡ false }
    requires names { names.now ≡ inlets_of doc.now.hosts place host.now }
    requires conns { map connection_of conns.items ≡ conns_to doc.now place host.now }
    requires signer { signer ≡ signing_at (leaf_behind host.now place doc.now.certs) (identity_tree host.now) }
    requires lanes { lanes_of lanes ≡ lanes_begun (host_keys doc.now.hosts) place host.now }
    ensures { IfOk result (λ e. IsBegun doc.now place host.now e) }
{
    let desk = begin_desk(
        alloc,
        doc,
        place,
        host,
        shared.own.as_slice(),
        shared.certs.as_slice(),
        signer,
    )?;
    let procs = begin_processes(alloc, &desk.table, host.procs.as_slice())?;
    let boxes = begin_boxes(alloc, &desk.table, host.boxes.as_slice())?;
    let inlets = begin_inlets(alloc, names)?;
    let keys = copy_keys(alloc, shared.keys.as_slice())?;
    Ok(Exporter::new(place, keys, desk, procs, boxes, lanes, inlets, conns))
}

/// The connections to a host, and its inlets' names. `AllocError` where memory runs out.
fn begin_ends(
    alloc: Global,
    doc: &Doc,
    shared: &Shared,
    place: u32,
    host: &HostSpec,
    names: &InletNames,
) -> Result<ConnList, AllocError>
    requires document { IsDocument doc.now }
    requires shared { IsShared doc.now shared.now }
    requires there { slice_get doc.now.hosts place ≡ Some host.now }
    requires names { names.now ≡ inlets_of doc.now.hosts place host.now }
    ensures { IfOk result (λ conns. map connection_of conns.items ≡ conns_to doc.now place host.now) }
{
    let key = key_of(shared.keys.as_slice(), place);
    let conns = begin_conns(alloc, place, key, names, shared.ends.as_slice())?;
    Ok(conns)
}

/// The host at a place, with its signer if it runs, and its lanes. `AllocError` where memory runs out.
pub fn begin_node(
    alloc: Global,
    doc: &Doc,
    shared: &Shared,
    place: u32,
    host: &HostSpec,
    signer: Option<Signer>,
    lanes: LaneList,
) -> Result<Node, AllocError>
    requires document { IsDocument doc.now }
    requires shared { IsShared doc.now shared.now }
    requires there { slice_get doc.now.hosts place ≡ Some host.now }
    requires signer { signer ≡ signer_behind doc.now.certs place host.now }
    requires lanes { lanes_of lanes ≡ lanes_begun (host_keys doc.now.hosts) place host.now }
    ensures { IfOk result (λ node. IsNodeBegun doc.now place host.now (node_of node)) }
{
    let hosts = doc.hosts.as_slice();
    let names = inlet_names(alloc, hosts, shared.keys.as_slice(), place, host)?;
    let conns = begin_ends(alloc, doc, shared, place, host, &names)?;
    match signer {
        None => Ok(Node::Silent(conns)),
        Some(signer) => Ok(Node::Running(begin_exporter(
            alloc, doc, shared, place, host, &names, conns, signer, lanes,
        )?)),
    }
}
