//! The three hosts.

ghost use Rattle.std.specs.Prelude.{◌≡◌, ◌++◌, ◌∷◌, [], ℕ, List, IfOk, OnOk, codes, map};
ghost use Rattle.ds_gen.specs.Generated.{host, host_a, host_b, host_c, lane, mailbox, process, s, takes};

use crate::labels::{TYPES, label_of, rows_of};
use crate::scripts::{sends, takes};
use ds_label::{Category, Label};
use ds_plan::{
    BoxSpec, BoxSpecList, CategoryList, HostSpec, InletSpecList, LaneSpec, LaneSpecList, ProcSpec,
    ProcSpecList, Secret,
};
use ds_script::OpList;
use ds_wire::Bytes;
use std::alloc::{AllocError, Global};

/// How many messages may wait in each mailbox and lane.
const ROOM: u32 = 16;

/// A process without clearance. Takes no memory.
fn process(alloc: Global, made: u32, label: Label, own: Label, script: OpList) -> ProcSpec
    ensures { result ≡ process made label own script }
{
    ProcSpec {
        made,
        label,
        own,
        clear: Label::new(alloc),
        script,
    }
}

fn mailbox(slot: u32, owner: u32, label: Label) -> BoxSpec
    ensures { result ≡ mailbox slot owner label }
{
    BoxSpec {
        slot,
        owner,
        label,
        room: ROOM,
    }
}

fn lane(to: u32, label: Label) -> LaneSpec
    ensures { result ≡ lane to label }
{
    LaneSpec {
        to,
        label,
        room: ROOM,
        until: u64::MAX,
    }
}

/// What a host has, beside its name, secret and address.
struct Parts {
    map: CategoryList,
    procs: ProcSpecList,
    boxes: BoxSpecList,
    lanes: LaneSpecList,
}

/// A running host. `AllocError` where memory runs out.
fn host(
    alloc: Global,
    name: &[u8],
    byte: u8,
    address: &[u8],
    parts: Parts,
) -> Result<HostSpec, AllocError>
    ensures { IfOk result (λ h. h ≡ host name.now byte address.now parts.map parts.procs parts.boxes parts.lanes) }
{
    let Parts {
        map,
        procs,
        boxes,
        lanes,
    } = parts;
    Ok(HostSpec {
        name: Bytes::from_slice(alloc, name)?,
        secret: Secret::Seed([byte; 32]),
        identity: TYPES,
        lanekey: TYPES,
        address: Some(Bytes::from_slice(alloc, address)?),
        map,
        procs,
        boxes,
        lanes,
        inlets: InletSpecList::new(alloc),
    })
}

/// The list of one process. `AllocError` where memory runs out.
fn one_process(alloc: Global, process: ProcSpec) -> Result<ProcSpecList, AllocError>
    ensures { IfOk result (λ l. l ≡ process ∷ []) }
{
    let mut procs = ProcSpecList::new(alloc);
    procs.push(process)?;
    Ok(procs)
}

/// The process that sends so many messages. `AllocError` where memory runs out.
fn sender(alloc: Global, category: Category, count: u32) -> Result<ProcSpecList, AllocError>
    requires { category ≡ s }
    ensures { IfOk result (λ l. l ≡ (host_a count).procs) }
{
    let own = label_of(alloc, category)?;
    let script = sends(alloc, category, count)?;
    one_process(alloc, process(alloc, 1, Label::new(alloc), own, script))
}

/// The lanes on which it sends. `AllocError` where memory runs out.
fn lanes_out(alloc: Global, category: Category) -> Result<LaneSpecList, AllocError>
    requires { category ≡ s }
    ensures { IfOk result (λ l. (n : ℕ) → l ≡ (host_a n).lanes) }
{
    let mut lanes = LaneSpecList::new(alloc);
    lanes.push(lane(1, Label::new(alloc)))?;
    lanes.push(lane(1, label_of(alloc, category)?))?;
    lanes.push(lane(2, label_of(alloc, category)?))?;
    Ok(lanes)
}

/// The host that sends so many messages. `AllocError` where memory runs out.
pub(crate) fn host_a(alloc: Global, category: Category, count: u32) -> Result<HostSpec, AllocError>
    requires { category ≡ s }
    ensures { IfOk result (λ h. h ≡ host_a count) }
{
    let parts = Parts {
        map: CategoryList::new(alloc),
        procs: sender(alloc, category, count)?,
        boxes: BoxSpecList::new(alloc),
        lanes: lanes_out(alloc, category)?,
    };
    host(alloc, b"a", 1, b"127.0.0.1:7001", parts)
}

/// The processes that take and print what comes of so many messages. `AllocError` where memory runs out.
fn takers(alloc: Global, category: Category, count: u32) -> Result<ProcSpecList, AllocError>
    requires { category ≡ s }
    ensures { IfOk result (λ l. l ≡ (host_b count).procs) }
{
    let mut procs = ProcSpecList::new(alloc);
    let plain = takes(alloc, 1, 0, count)?;
    procs.push(process(alloc, 0, Label::new(alloc), Label::new(alloc), plain))?;
    let secret = takes(alloc, 2, 1, count)?;
    let label = label_of(alloc, category)?;
    procs.push(process(alloc, 0, label, Label::new(alloc), secret))?;
    Ok(procs)
}

/// The mailboxes from which they take. `AllocError` where memory runs out.
fn boxes_in(alloc: Global, category: Category) -> Result<BoxSpecList, AllocError>
    requires { category ≡ s }
    ensures { IfOk result (λ l. (n : ℕ) → l ≡ (host_b n).boxes) }
{
    let mut boxes = BoxSpecList::new(alloc);
    boxes.push(mailbox(1, 0, Label::new(alloc)))?;
    boxes.push(mailbox(2, 1, label_of(alloc, category)?))?;
    Ok(boxes)
}

/// The host that takes and prints what comes of so many messages. `AllocError` where memory runs out.
pub(crate) fn host_b(alloc: Global, category: Category, count: u32) -> Result<HostSpec, AllocError>
    requires { category ≡ s }
    ensures { IfOk result (λ h. h ≡ host_b count) }
{
    let parts = Parts {
        map: rows_of(alloc, category)?,
        procs: takers(alloc, category, count)?,
        boxes: boxes_in(alloc, category)?,
        lanes: LaneSpecList::new(alloc),
    };
    host(alloc, b"b", 2, b"127.0.0.1:7002", parts)
}

/// The mailbox of the host that does nothing. `AllocError` where memory runs out.
fn boxes_of_c(alloc: Global) -> Result<BoxSpecList, AllocError>
    ensures { IfOk result (λ l. l ≡ host_c.boxes) }
{
    let mut boxes = BoxSpecList::new(alloc);
    boxes.push(mailbox(1, 0, Label::new(alloc)))?;
    Ok(boxes)
}

/// The process of the host that does nothing. `AllocError` where memory runs out.
fn idle(alloc: Global) -> Result<ProcSpecList, AllocError>
    ensures { IfOk result (λ l. l ≡ host_c.procs) }
{
    let script = OpList::new(alloc);
    one_process(
        alloc,
        process(alloc, 0, Label::new(alloc), Label::new(alloc), script),
    )
}

/// The host that does nothing. `AllocError` where memory runs out.
pub(crate) fn host_c(alloc: Global) -> Result<HostSpec, AllocError>
    ensures { IfOk result (λ h. h ≡ host_c) }
{
    let parts = Parts {
        map: CategoryList::new(alloc),
        procs: idle(alloc)?,
        boxes: boxes_of_c(alloc)?,
        lanes: LaneSpecList::new(alloc),
    };
    host(alloc, b"c", 3, b"127.0.0.1:7003", parts)
}
