//! Copies of documents.
#![tactic(auto)]

ghost use Rattle.std.specs.Prelude.{◌≡◌, IfOk};
ghost use Rattle.ds_sim.specs.Sims.{without_events};

use ds_label::Category;
use ds_plan::{
    BoxSpec, BoxSpecList, CategoryList, CertSpec, CertSpecList, Doc, HostSpec, HostSpecList,
    InletSpec, InletSpecList, LaneSpec, LaneSpecList, PlaceList, ProcSpec, ProcSpecList,
};
use ds_wire::Bytes;
use std::alloc::{AllocError, Global};

fn copy_address(address: &Option<Bytes>) -> Result<Option<Bytes>, AllocError>
    ensures { IfOk result (λ copy. copy ≡ address.now) }
{
    match address {
        Some(bytes) => Ok(Some(bytes.copy()?)),
        None => Ok(None),
    }
}

/// The same categories. `AllocError` where memory runs out.
pub(crate) fn copy_categories(alloc: Global, rows: &[Category]) -> Result<CategoryList, AllocError>
    ensures { IfOk result (λ copies. copies ≡ rows.now) }
{
    Ok(CategoryList::from_vec(rows.to_vec(alloc)?))
}

fn copy_places(alloc: Global, places: &[u32]) -> Result<PlaceList, AllocError>
    ensures { IfOk result (λ copies. copies ≡ places.now) }
{
    Ok(PlaceList::from_vec(places.to_vec(alloc)?))
}

fn copy_inlets(alloc: Global, inlets: &[InletSpec]) -> Result<InletSpecList, AllocError>
    ensures { IfOk result (λ copies. copies ≡ inlets.now) }
{
    Ok(InletSpecList::from_vec(inlets.to_vec(alloc)?))
}

fn copy_process(process: &ProcSpec) -> Result<ProcSpec, AllocError>
    ensures { IfOk result (λ copy. copy ≡ process.now) }
{
    Ok(ProcSpec {
        made: process.made,
        label: process.label.copy()?,
        own: process.own.copy()?,
        clear: process.clear.copy()?,
        script: process.script.copy()?,
    })
}

fn copy_processes(alloc: Global, procs: &[ProcSpec]) -> Result<ProcSpecList, AllocError>
    ensures { IfOk result (λ copies. copies ≡ procs.now) }
{
    let mut copies = ProcSpecList::new(alloc);
    for process in procs {
        copies.push(copy_process(process)?)?;
    }
    Ok(copies)
}

fn copy_mailbox(mailbox: &BoxSpec) -> Result<BoxSpec, AllocError>
    ensures { IfOk result (λ copy. copy ≡ mailbox.now) }
{
    Ok(BoxSpec {
        slot: mailbox.slot,
        owner: mailbox.owner,
        label: mailbox.label.copy()?,
        room: mailbox.room,
    })
}

fn copy_mailboxes(alloc: Global, boxes: &[BoxSpec]) -> Result<BoxSpecList, AllocError>
    ensures { IfOk result (λ copies. copies ≡ boxes.now) }
{
    let mut copies = BoxSpecList::new(alloc);
    for mailbox in boxes {
        copies.push(copy_mailbox(mailbox)?)?;
    }
    Ok(copies)
}

fn copy_lane(lane: &LaneSpec) -> Result<LaneSpec, AllocError>
    ensures { IfOk result (λ copy. copy ≡ lane.now) }
{
    Ok(LaneSpec {
        to: lane.to,
        label: lane.label.copy()?,
        room: lane.room,
        until: lane.until,
    })
}

fn copy_lanes(alloc: Global, lanes: &[LaneSpec]) -> Result<LaneSpecList, AllocError>
    ensures { IfOk result (λ copies. copies ≡ lanes.now) }
{
    let mut copies = LaneSpecList::new(alloc);
    for lane in lanes {
        copies.push(copy_lane(lane)?)?;
    }
    Ok(copies)
}

fn copy_host(alloc: Global, host: &HostSpec) -> Result<HostSpec, AllocError>
    ensures { IfOk result (λ copy. copy ≡ host.now) }
{
    Ok(HostSpec {
        name: host.name.copy()?,
        secret: host.secret,
        identity: host.identity,
        lanekey: host.lanekey,
        address: copy_address(&host.address)?,
        map: copy_categories(alloc, host.map.as_slice())?,
        procs: copy_processes(alloc, host.procs.as_slice())?,
        boxes: copy_mailboxes(alloc, host.boxes.as_slice())?,
        lanes: copy_lanes(alloc, host.lanes.as_slice())?,
        inlets: copy_inlets(alloc, host.inlets.as_slice())?,
    })
}

fn copy_hosts(alloc: Global, hosts: &[HostSpec]) -> Result<HostSpecList, AllocError>
    ensures { IfOk result (λ copies. copies ≡ hosts.now) }
{
    let mut copies = HostSpecList::new(alloc);
    for host in hosts {
        copies.push(copy_host(alloc, host)?)?;
    }
    Ok(copies)
}

fn copy_cert(alloc: Global, cert: &CertSpec) -> Result<CertSpec, AllocError>
    ensures { IfOk result (λ copy. copy ≡ cert.now) }
{
    match cert {
        CertSpec::Made {
            by,
            category,
            to,
            from,
            until,
            at,
        } => Ok(CertSpec::Made {
            by: *by,
            category: *category,
            to: *to,
            from: *from,
            until: *until,
            at: copy_places(alloc, at.as_slice())?,
        }),
        CertSpec::Given { cert, at } => Ok(CertSpec::Given {
            cert: cert.copy()?,
            at: copy_places(alloc, at.as_slice())?,
        }),
    }
}

fn copy_certs(alloc: Global, certs: &[CertSpec]) -> Result<CertSpecList, AllocError>
    ensures { IfOk result (λ copies. copies ≡ certs.now) }
{
    let mut copies = CertSpecList::new(alloc);
    for cert in certs {
        copies.push(copy_cert(alloc, cert)?)?;
    }
    Ok(copies)
}

/// An equal document, but without events. `AllocError` where memory runs out.
pub(crate) fn copy_without_events(alloc: Global, doc: &Doc) -> Result<Doc, AllocError>
    ensures { IfOk result (λ copy. copy ≡ without_events doc.now) }
{
    Ok(Doc {
        hosts: copy_hosts(alloc, doc.hosts.as_slice())?,
        moment: doc.moment,
        budget: doc.budget,
        certs: copy_certs(alloc, doc.certs.as_slice())?,
        links: copy_places(alloc, doc.links.as_slice())?,
        events: None,
    })
}
