//! Hosts with what they have.

ghost use Rattle.std.specs.Prelude.{◌≡◌, map, IfOk};
ghost use Rattle.ds_doc.specs.Values as values;

use crate::draft::{
    DraftBox, DraftHost, DraftInlet, DraftLane, DraftOp, DraftProc, Placed, items_of,
};
use crate::values::categories::{Keys, category_of, label_of, rows_of};
use ds_plan::{
    BoxSpec, BoxSpecList, HostSpec, HostSpecList, InletSpec, InletSpecList, LaneSpec, LaneSpecList,
    ProcSpec, ProcSpecList,
};
use ds_script::{Op, OpList};
use ds_wire::Bytes;
use std::alloc::{AllocError, Global};

#[tactic(auto, unfolding(crate::specs::Values::op))]
fn op_of(alloc: Global, keys: &Keys, op: &DraftOp) -> Result<Op, AllocError>
    ensures { IfOk result (λ o. o ≡ values.op keys.now op.now) }
{
    Ok(match op {
        DraftOp::Set { reg, text } => Op::Set {
            reg: *reg,
            text: text.copy()?,
        },
        DraftOp::Join { reg, left, right } => Op::Join {
            reg: *reg,
            left: *left,
            right: *right,
        },
        DraftOp::IfEq { left, right, to } => Op::IfEq {
            left: *left,
            right: *right,
            to: to.value,
        },
        DraftOp::Jump { to } => Op::Jump { to: to.value },
        DraftOp::Print { reg } => Op::Print { reg: *reg },
        DraftOp::Send {
            host,
            slot,
            reg,
            label,
            own,
            clear,
        } => Op::Send {
            host: host.value.number(),
            slot: *slot,
            reg: *reg,
            label: label_of(alloc, keys, label)?,
            own: label_of(alloc, keys, own)?,
            clear: label_of(alloc, keys, clear)?,
        },
        DraftOp::Take { reg, slot } => Op::Take {
            reg: *reg,
            slot: *slot,
        },
        DraftOp::SetLabel { label } => Op::SetLabel {
            label: label_of(alloc, keys, label)?,
        },
        DraftOp::NewCat { kind } => Op::NewCat { kind: *kind },
        DraftOp::Delegate {
            reg,
            category,
            to,
            from,
            until,
        } => Op::Delegate {
            reg: *reg,
            category: category_of(keys, category),
            to: to.value.number(),
            from: *from,
            until: *until,
        },
        DraftOp::Map { category } => Op::Map {
            category: category_of(keys, category),
        },
        DraftOp::Import { reg } => Op::Import { reg: *reg },
    })
}

fn script_of(alloc: Global, keys: &Keys, ops: &[DraftOp]) -> Result<OpList, AllocError>
    ensures { IfOk result (λ l. l ≡ map (values.op keys.now) ops.now) }
{
    let mut script = OpList::new(alloc);
    for op in ops {
        script.push(op_of(alloc, keys, op)?)?;
    }
    Ok(script)
}

#[tactic(auto, unfolding(crate::specs::Values::process))]
fn proc_of(alloc: Global, keys: &Keys, process: &DraftProc) -> Result<ProcSpec, AllocError>
    ensures { IfOk result (λ p. p ≡ values.process keys.now process.now) }
{
    Ok(ProcSpec {
        made: process.made,
        label: label_of(alloc, keys, &process.label)?,
        own: label_of(alloc, keys, &process.own)?,
        clear: label_of(alloc, keys, &process.clear)?,
        script: script_of(alloc, keys, process.script.as_slice())?,
    })
}

fn procs_of(alloc: Global, keys: &Keys, procs: &[DraftProc]) -> Result<ProcSpecList, AllocError>
    ensures { IfOk result (λ l. l ≡ map (values.process keys.now) procs.now) }
{
    let mut list = ProcSpecList::new(alloc);
    for process in procs {
        list.push(proc_of(alloc, keys, process)?)?;
    }
    Ok(list)
}

#[tactic(auto, unfolding(crate::specs::Values::mailbox))]
fn box_of(alloc: Global, keys: &Keys, mailbox: &DraftBox) -> Result<BoxSpec, AllocError>
    ensures { IfOk result (λ b. b ≡ values.mailbox keys.now mailbox.now) }
{
    Ok(BoxSpec {
        slot: mailbox.slot.value,
        owner: mailbox.owner.value,
        label: label_of(alloc, keys, &mailbox.label)?,
        room: mailbox.room,
    })
}

fn boxes_of(alloc: Global, keys: &Keys, boxes: &[DraftBox]) -> Result<BoxSpecList, AllocError>
    ensures { IfOk result (λ l. l ≡ map (values.mailbox keys.now) boxes.now) }
{
    let mut list = BoxSpecList::new(alloc);
    for mailbox in boxes {
        list.push(box_of(alloc, keys, mailbox)?)?;
    }
    Ok(list)
}

#[tactic(auto, unfolding(crate::specs::Values::lane))]
fn lane_of(alloc: Global, keys: &Keys, lane: &DraftLane) -> Result<LaneSpec, AllocError>
    ensures { IfOk result (λ l. l ≡ values.lane keys.now lane.now) }
{
    Ok(LaneSpec {
        to: lane.to.value.number(),
        label: label_of(alloc, keys, &lane.label)?,
        room: lane.room,
        until: lane.until,
    })
}

fn lanes_of(alloc: Global, keys: &Keys, lanes: &[DraftLane]) -> Result<LaneSpecList, AllocError>
    ensures { IfOk result (λ l. l ≡ map (values.lane keys.now) lanes.now) }
{
    let mut list = LaneSpecList::new(alloc);
    for lane in lanes {
        list.push(lane_of(alloc, keys, lane)?)?;
    }
    Ok(list)
}

fn inlets_of(alloc: Global, inlets: &[DraftInlet]) -> Result<InletSpecList, AllocError>
    ensures { IfOk result (λ l. l ≡ map values.inlet inlets.now) }
{
    let mut list = InletSpecList::new(alloc);
    for inlet in inlets {
        list.push(InletSpec {
            from: inlet.from.value.number(),
            lane: inlet.lane,
        })?;
    }
    Ok(list)
}

fn address_of(address: &Option<Placed<Bytes>>) -> Result<Option<Bytes>, AllocError>
    ensures { IfOk result (λ a. a ≡ values.address address.now) }
{
    match address {
        Some(address) => Ok(Some(address.value.copy()?)),
        None => Ok(None),
    }
}

#[tactic(auto, unfolding(crate::specs::Values::host))]
fn host_of(alloc: Global, keys: &Keys, host: &DraftHost) -> Result<HostSpec, AllocError>
    ensures { IfOk result (λ h. h ≡ values.host keys.now host.now) }
{
    Ok(HostSpec {
        name: host.name.value.copy()?,
        secret: host.secret.value,
        identity: host.identity,
        lanekey: host.lanekey,
        address: address_of(&host.address)?,
        map: rows_of(alloc, keys, items_of(&host.map))?,
        procs: procs_of(alloc, keys, items_of(&host.procs))?,
        boxes: boxes_of(alloc, keys, items_of(&host.boxes))?,
        lanes: lanes_of(alloc, keys, items_of(&host.lanes))?,
        inlets: inlets_of(alloc, items_of(&host.inlets))?,
    })
}

pub(crate) fn hosts_of(
    alloc: Global,
    keys: &Keys,
    hosts: &[DraftHost],
) -> Result<HostSpecList, AllocError>
    ensures { IfOk result (λ l. l ≡ map (values.host keys.now) hosts.now) }
{
    let mut list = HostSpecList::new(alloc);
    for host in hosts {
        list.push(host_of(alloc, keys, host)?)?;
    }
    Ok(list)
}
