//! A host's inlets, and the connections to it.
#![tactic(auto)]

ghost use Rattle.std.specs.Prelude.{All, List, ◌∷◌, ◌≡◌, ◌++◌, ◌+◌, ◌<◌, ◌≤◌, ◌^◌, [], map, length, flat_map, IfOk, OnOk, Some, slice_get};
ghost use Rattle.ds_model.specs.Scheme.{InletName as Name};
ghost use Rattle.ds_plan.specs.declared.host.HostSpec.{HostSpec};
ghost use Rattle.ds_plan.specs.Keys.{host_key, host_keys};
ghost use Rattle.ds_plan.specs.Documents.{IsDocument, is_silent};
ghost use Rattle.ds_setup.specs.Lists.{each, joined};
ghost use Rattle.ds_setup.specs.Plans.{declared_inlet, inlets_from, inlets_of, lane_inlet};
ghost use Rattle.ds_exporter.specs.HostStates.{connection_of, inlet_of};
ghost use Rattle.ds_boot.specs.Parts.{HasInlets, conn_begun, conns_to, ends_of, inlet_begun, lane_ends};

use ds_exporter::{ConnList, InletList};
use ds_inlet::{Conn, Inlet, InletName, InletNames};
use ds_label::PubKey;
use ds_plan::{Doc, HostSpec, InletSpec, LaneSpec, Secret};
use ds_script::{Actor, ActorKind};
use std::alloc::{AllocError, Global};

// ---- the hosts to which connections lead

/// Appends the hosts to which a host's lanes lead.
fn push_lane_ends(ends: &mut Vec<u32>, host: &HostSpec) -> Result<(), AllocError>
    ensures { OnOk result (ends.new.items ≡ ends.old.items ++ lane_ends host.now) }
{
    for lane in host.lanes.as_slice() {
        ends.push(lane.to)?;
    }
    Ok(())
}

/// The hosts to which connections lead, by the connections' numbers. `AllocError` where memory runs out.
pub fn conn_ends(alloc: Global, doc: &Doc) -> Result<Vec<u32>, AllocError>
    ensures { IfOk result (λ ends. ends.items ≡ ends_of doc.now) }
{
    let mut ends = Vec::new(alloc);
    for host in doc.hosts.as_slice() {
        push_lane_ends(&mut ends, host)?;
    }
    ends.extend_from_slice(doc.links.as_slice())?;
    Ok(ends)
}

// ---- inlets

/// Appends the inlet of a host's lane, where it leads to the host at a place.
fn push_lane_inlet(
    names: &mut InletNames,
    exporter: PubKey,
    here: u32,
    place: usize,
    lane: &LaneSpec,
) -> Result<(), AllocError>
    requires room { length names.old < 1024 }
    requires few { place < 32 }
    ensures ok { (h : HostSpec) → exporter ≡ host_key h → OnOk result (names.new ≡ names.old ++ lane_inlet here h place lane.now) }
    ensures more { OnOk result (length names.new ≤ length names.old + 1) }
{
    if lane.to != here {
        return Ok(());
    }
    let lane = place as u32 + 1;
    names.push(InletName { exporter, lane })
}

/// Appends the inlets of a host's lanes that lead to the host at a place.
fn push_lane_inlets(
    names: &mut InletNames,
    exporter: PubKey,
    here: u32,
    host: &HostSpec,
    lanes: &[LaneSpec],
) -> Result<(), AllocError>
    requires lanes { lanes.now ≡ host.now.lanes }
    requires key { exporter ≡ host_key host.now }
    requires few { length host.now.lanes ≤ 32 }
    requires room { length names.old + length host.now.lanes ≤ 1024 }
    ensures ok { OnOk result (names.new ≡ names.old ++ inlets_from here host.now) }
    ensures more { OnOk result (length names.new ≤ length names.old + length host.now.lanes) }
{
    for (place, lane) in lanes.iter().enumerate() {
        push_lane_inlet(names, exporter, here, place, lane)?;
    }
    Ok(())
}

/// Appends a declared inlet.
fn push_declared(
    names: &mut InletNames,
    keys: &[PubKey],
    inlet: &InletSpec,
) -> Result<(), AllocError>
    requires there { inlet.now.from < length keys.now }
    requires room { length names.old < 1024 }
    ensures ok { (hosts : List HostSpec) → keys.now ≡ host_keys hosts → OnOk result (names.new ≡ names.old ++ declared_inlet hosts inlet.now ∷ []) }
    ensures more { OnOk result (length names.new ≤ length names.old + 1) }
{
    let exporter = keys[inlet.from as usize];
    names.push(InletName {
        exporter,
        lane: inlet.lane,
    })
}

/// The inlets of all hosts' lanes that lead to the host at a place. `AllocError` where memory runs out.
fn lane_names(
    alloc: Global,
    hosts: &[HostSpec],
    keys: &[PubKey],
    here: u32,
) -> Result<InletNames, AllocError>
    requires few { length hosts.now ≤ 16 }
    requires keys { keys.now ≡ host_keys hosts.now }
    requires lanes { All (λ h. length h.lanes ≤ 32) hosts.now }
    ensures names { IfOk result (λ names. names ≡ flat_map (inlets_from here) hosts.now) }
    ensures few { IfOk result (λ names. length names ≤ 512) }
{
    let mut names = InletNames::new(alloc);
    for (place, host) in hosts.iter().enumerate() {
        push_lane_inlets(&mut names, keys[place], here, host, host.lanes.as_slice())?;
    }
    Ok(names)
}

/// Appends the declared inlets.
fn push_each_declared(
    names: &mut InletNames,
    keys: &[PubKey],
    inlets: &[InletSpec],
) -> Result<(), AllocError>
    requires there { All (λ i. i.from < length keys.now) inlets.now }
    requires few { length inlets.now ≤ 64 }
    requires room { length names.old ≤ 512 }
    ensures ok { (hosts : List HostSpec) → keys.now ≡ host_keys hosts → OnOk result (names.new ≡ names.old ++ map (declared_inlet hosts) inlets.now) }
{
    for inlet in inlets {
        push_declared(names, keys, inlet)?;
    }
    Ok(())
}

/// The names of the inlets of a running host: those of all hosts' lanes to it, and then the declared ones.
fn running_names(
    alloc: Global,
    hosts: &[HostSpec],
    keys: &[PubKey],
    here: u32,
    inlets: &[InletSpec],
) -> Result<InletNames, AllocError>
    requires few { length hosts.now ≤ 16 }
    requires keys { keys.now ≡ host_keys hosts.now }
    requires lanes { All (λ h. length h.lanes ≤ 32) hosts.now }
    requires there { All (λ i. i.from < length keys.now) inlets.now }
    requires few_inlets { length inlets.now ≤ 64 }
    ensures { IfOk result (λ names. names ≡ flat_map (inlets_from here) hosts.now ++ map (declared_inlet hosts.now) inlets.now) }
{
    let mut names = lane_names(alloc, hosts, keys, here)?;
    push_each_declared(&mut names, keys, inlets)?;
    Ok(names)
}

/// The names of the inlets of the host at a place, in order. `AllocError` where memory runs out.
pub fn inlet_names(
    alloc: Global,
    hosts: &[HostSpec],
    keys: &[PubKey],
    here: u32,
    host: &HostSpec,
) -> Result<InletNames, AllocError>
    requires few { length hosts.now ≤ 16 }
    requires keys { keys.now ≡ host_keys hosts.now }
    requires lanes { All (λ h. length h.lanes ≤ 32) hosts.now }
    requires own { HasInlets (length keys.now) host.now }
    ensures { IfOk result (λ names. names ≡ inlets_of hosts.now here host.now) }
{
    match &host.secret {
        Secret::Seed(_) => {
            let names = running_names(alloc, hosts, keys, here, host.inlets.as_slice())?;
            Ok(names)
        }
        Secret::Key(_) => Ok(InletNames::new(alloc)),
    }
}

/// The inlet with the name at a place, of which no frame was taken.
fn inlet_at(alloc: Global, names: &InletNames, place: usize) -> Inlet
    requires { place < length names.now }
    ensures { (name : Name) → slice_get names.now place ≡ Some name → inlet_of result ≡ inlet_begun name }
{
    let Some(name) = names.get(place) else {
        unreachable!();
    };
    Inlet::new(alloc, name.exporter, name.lane)
}

/// A host's inlets, of which no frame was taken. `AllocError` where memory runs out.
pub fn begin_inlets(alloc: Global, names: &InletNames) -> Result<InletList, AllocError>
    ensures { IfOk result (λ l. map inlet_of l.items ≡ map inlet_begun names.now) }
{
    let mut inlets = Vec::new(alloc);
    for place in 0..names.len() {
        inlets.push(inlet_at(alloc, names, place))?;
    }
    Ok(inlets)
}

// ---- connections

/// Appends the connection with a number, where it leads to the host at a place.
fn push_conn(
    alloc: Global,
    conns: &mut ConnList,
    place: u32,
    key: PubKey,
    names: &InletNames,
    number: u32,
    to: u32,
) -> Result<(), AllocError>
    ensures { OnOk result (map connection_of conns.new.items ≡ map connection_of conns.old.items ++ conn_begun place key names.now number to) }
{
    if to != place {
        return Ok(());
    }
    let who = Actor {
        kind: ActorKind::Conn,
        host: place,
        index: number,
    };
    conns.push(Conn::new(alloc, who, key, names.copy()?))?;
    Ok(())
}

/// The connections to the host at a place, of which nothing arrived. `AllocError` where memory runs out.
pub fn begin_conns(
    alloc: Global,
    place: u32,
    key: PubKey,
    names: &InletNames,
    ends: &[u32],
) -> Result<ConnList, AllocError>
    requires few { length ends.now < 2 ^ 32 }
    ensures { IfOk result (λ l. map connection_of l.items ≡ joined (each (conn_begun place key names.now) ends.now)) }
{
    let mut conns = Vec::new(alloc);
    for (number, to) in ends.iter().enumerate() {
        push_conn(alloc, &mut conns, place, key, names, number as u32, *to)?;
    }
    Ok(conns)
}
