//! Hosts with what they have.

ghost use Rattle.std.specs.Prelude.{◌≡◌, map, option_map, codes, IfOk};
ghost use Rattle.ds_doc.specs.Draft as drafts;
ghost use Rattle.ds_doc.specs.Places.{items};
ghost use Rattle.ds_doc.specs.Places as places;
ghost use Rattle.ds_doc.specs.Seen.{seen};

use crate::draft::{
    CategoryName, DraftBox, DraftHost, DraftInlet, DraftLane, DraftProc, Placed, Written,
};
use crate::reading::basics::{
    Names, first, host_at, label_at, long_at, nearest_at, set_of, word_at,
};
use crate::reading::scripts::operations;
use crate::reading::secrets::{secret_of, types_at};
use crate::spot::Spot;
use crate::text::{is_address, is_name};
use ds_plan::PartList;
use ds_wire::Bytes;
use std::alloc::{AllocError, Global};

/// Most categories of a map.
const MAP_MOST: usize = 1_024;

/// Most operations of a script.
const SCRIPT_MOST: usize = 4_096;

/// Most processes of a host.
const PROC_MOST: usize = 32;

/// Most mailboxes of a host.
const BOX_MOST: usize = 64;

/// Most lanes of a host.
const LANE_MOST: usize = 32;

/// Most inlets that a host declares.
const INLET_MOST: usize = 64;

/// The host that an object says.
#[tactic(auto, unfolding(crate::specs::Draft::host_of))]
pub(crate) fn host_of(alloc: Global, names: &Names, host: &Spot) -> Result<DraftHost, AllocError>
    ensures { IfOk result (λ h. h ≡ drafts.host_of names.now (seen host.now)) }
{
    Ok(DraftHost {
        at: host.at,
        name: name_at(alloc, host)?,
        secret: secret_of(host),
        identity: types_at(host, "identity"),
        lanekey: types_at(host, "lanekey"),
        address: address_of(alloc, host)?,
        map: map_at(alloc, names, host)?,
        procs: procs_at(alloc, names, host)?,
        boxes: boxes_at(alloc, names, host)?,
        lanes: lanes_at(alloc, names, host)?,
        inlets: inlets_at(alloc, names, host)?,
    })
}

fn name_or(alloc: Global, name: &[u8]) -> Result<Bytes, AllocError>
    ensures { IfOk result (λ b. b ≡ drafts.name_or name.now) }
{
    Bytes::from_slice(alloc, if is_name(name) { name } else { b"-" })
}

fn name_at(alloc: Global, host: &Spot) -> Result<Placed<Bytes>, AllocError>
    ensures { IfOk result (λ n. n ≡ drafts.at_member (codes "name") (codes "-") (λ t. drafts.name_or (places.text t)) (seen host.now)) }
{
    match host.member("name") {
        Some(name) => Ok(Placed {
            at: name.at,
            value: name_or(alloc, name.text())?,
        }),
        None => Ok(Placed {
            at: host.at,
            value: Bytes::from_slice(alloc, b"-")?,
        }),
    }
}

fn address_or(alloc: Global, address: &[u8]) -> Result<Bytes, AllocError>
    ensures { IfOk result (λ b. b ≡ drafts.address_or address.now) }
{
    Bytes::from_slice(alloc, if is_address(address) { address } else { b"-" })
}

#[tactic(auto, unfolding(crate::specs::Draft::address_of))]
fn address_of(alloc: Global, host: &Spot) -> Result<Option<Placed<Bytes>>, AllocError>
    ensures { IfOk result (λ a. a ≡ drafts.address_of (seen host.now)) }
{
    match host.member("address") {
        Some(address) => Ok(Some(Placed {
            at: address.at,
            value: address_or(alloc, address.text())?,
        })),
        None => Ok(None),
    }
}

fn map_at(
    alloc: Global,
    names: &Names,
    host: &Spot,
) -> Result<Written<Placed<CategoryName>>, AllocError>
    ensures { IfOk result (λ m. m ≡ option_map (λ t. record { at = t.at; value = drafts.set_of 1024 names.now (items t) }) (places.member (codes "map") (seen host.now))) }
{
    match host.member("map") {
        Some(map) => {
            let spots = map.items(alloc)?;
            Ok(Some(Placed {
                at: map.at,
                value: set_of(alloc, names, MAP_MOST, spots.as_slice())?,
            }))
        }
        None => Ok(None),
    }
}

fn procs_at(alloc: Global, names: &Names, host: &Spot) -> Result<Written<DraftProc>, AllocError>
    ensures { IfOk result (λ w. w ≡ drafts.written (codes "procs") 32 (map (drafts.proc_of names.now)) (seen host.now)) }
{
    match host.member("procs") {
        Some(procs) => {
            let spots = procs.items(alloc)?;
            Ok(Some(Placed {
                at: procs.at,
                value: procs_of(alloc, names, first(spots.as_slice(), PROC_MOST))?,
            }))
        }
        None => Ok(None),
    }
}

fn procs_of(alloc: Global, names: &Names, spots: &[Spot]) -> Result<PartList<DraftProc>, AllocError>
    ensures { IfOk result (λ l. l ≡ map (drafts.proc_of names.now) (map seen spots.now)) }
{
    let mut list = PartList::new(alloc);
    for spot in spots {
        list.push(proc_of(alloc, names, spot)?)?;
    }
    Ok(list)
}

#[tactic(auto, unfolding(crate::specs::Draft::proc_of))]
fn proc_of(alloc: Global, names: &Names, process: &Spot) -> Result<DraftProc, AllocError>
    ensures { IfOk result (λ p. p ≡ drafts.proc_of names.now (seen process.now)) }
{
    let script = process.member_items(alloc, "script")?;
    Ok(DraftProc {
        made: nearest_at(process, "made", 0, 0, 2_147_483_647),
        label: label_at(alloc, names, process, "label")?,
        own: label_at(alloc, names, process, "own")?,
        clear: label_at(alloc, names, process, "clear")?,
        script: operations(alloc, names, first(script.as_slice(), SCRIPT_MOST))?,
    })
}

fn boxes_at(alloc: Global, names: &Names, host: &Spot) -> Result<Written<DraftBox>, AllocError>
    ensures { IfOk result (λ w. w ≡ drafts.written (codes "boxes") 64 (map (drafts.box_of names.now)) (seen host.now)) }
{
    match host.member("boxes") {
        Some(boxes) => {
            let spots = boxes.items(alloc)?;
            Ok(Some(Placed {
                at: boxes.at,
                value: boxes_of(alloc, names, first(spots.as_slice(), BOX_MOST))?,
            }))
        }
        None => Ok(None),
    }
}

fn boxes_of(alloc: Global, names: &Names, spots: &[Spot]) -> Result<PartList<DraftBox>, AllocError>
    ensures { IfOk result (λ l. l ≡ map (drafts.box_of names.now) (map seen spots.now)) }
{
    let mut list = PartList::new(alloc);
    for spot in spots {
        list.push(box_of(alloc, names, spot)?)?;
    }
    Ok(list)
}

#[tactic(auto, unfolding(crate::specs::Draft::box_of))]
fn box_of(alloc: Global, names: &Names, mailbox: &Spot) -> Result<DraftBox, AllocError>
    ensures { IfOk result (λ b. b ≡ drafts.box_of names.now (seen mailbox.now)) }
{
    Ok(DraftBox {
        slot: word_at(mailbox, "slot"),
        owner: word_at(mailbox, "proc"),
        label: label_at(alloc, names, mailbox, "label")?,
        room: nearest_at(mailbox, "room", 1, 1, 256),
    })
}

fn lanes_at(alloc: Global, names: &Names, host: &Spot) -> Result<Written<DraftLane>, AllocError>
    ensures { IfOk result (λ w. w ≡ drafts.written (codes "lanes") 32 (map (drafts.lane_of names.now)) (seen host.now)) }
{
    match host.member("lanes") {
        Some(lanes) => {
            let spots = lanes.items(alloc)?;
            Ok(Some(Placed {
                at: lanes.at,
                value: lanes_of(alloc, names, first(spots.as_slice(), LANE_MOST))?,
            }))
        }
        None => Ok(None),
    }
}

fn lanes_of(alloc: Global, names: &Names, spots: &[Spot]) -> Result<PartList<DraftLane>, AllocError>
    ensures { IfOk result (λ l. l ≡ map (drafts.lane_of names.now) (map seen spots.now)) }
{
    let mut list = PartList::new(alloc);
    for spot in spots {
        list.push(lane_of(alloc, names, spot)?)?;
    }
    Ok(list)
}

#[tactic(auto, unfolding(crate::specs::Draft::lane_of))]
fn lane_of(alloc: Global, names: &Names, lane: &Spot) -> Result<DraftLane, AllocError>
    ensures { IfOk result (λ l. l ≡ drafts.lane_of names.now (seen lane.now)) }
{
    Ok(DraftLane {
        at: lane.at,
        to: host_at(alloc, names, lane, "to")?,
        label: label_at(alloc, names, lane, "label")?,
        room: nearest_at(lane, "room", 1, 1, 256),
        until: long_at(lane, "until", u64::MAX),
    })
}

fn inlets_at(alloc: Global, names: &Names, host: &Spot) -> Result<Written<DraftInlet>, AllocError>
    ensures { IfOk result (λ w. w ≡ drafts.written (codes "inlets") 64 (map (drafts.inlet_of names.now)) (seen host.now)) }
{
    match host.member("inlets") {
        Some(inlets) => {
            let spots = inlets.items(alloc)?;
            Ok(Some(Placed {
                at: inlets.at,
                value: inlets_of(alloc, names, first(spots.as_slice(), INLET_MOST))?,
            }))
        }
        None => Ok(None),
    }
}

fn inlets_of(
    alloc: Global,
    names: &Names,
    spots: &[Spot],
) -> Result<PartList<DraftInlet>, AllocError>
    ensures { IfOk result (λ l. l ≡ map (drafts.inlet_of names.now) (map seen spots.now)) }
{
    let mut list = PartList::new(alloc);
    for spot in spots {
        list.push(inlet_of(alloc, names, spot)?)?;
    }
    Ok(list)
}

#[tactic(auto, unfolding(crate::specs::Draft::inlet_of))]
fn inlet_of(alloc: Global, names: &Names, inlet: &Spot) -> Result<DraftInlet, AllocError>
    ensures { IfOk result (λ i. i ≡ drafts.inlet_of names.now (seen inlet.now)) }
{
    Ok(DraftInlet {
        at: inlet.at,
        from: host_at(alloc, names, inlet, "from")?,
        lane: nearest_at(inlet, "lane", 1, 1, 32),
    })
}
