//! The entries and notes of hosts.

ghost use Rattle.std.specs.Prelude.{◌≡◌, ◌++◌, OnOk, flat_map, map};
ghost use Rattle.ds_exporter.specs.HostStates.{box_of, lane_of, process_of};
ghost use Rattle.ds_hosts.specs.Nodes.{node_of};
ghost use Rattle.ds_summary.specs.Counts.{note_counts};
ghost use Rattle.ds_summary.specs.Parts.{box_act_counts, box_part, host_part, kept_box_counts, kept_lane_counts, kept_worker_counts, lane_act_counts, lane_part, node_part, process_part, worker_act_counts};

use crate::counted::Counted;
use ds_box::{BoxAct, BoxEntry};
use ds_exporter::{BoxPart, Exporter, LanePart, ProcPart};
use ds_hosts::Node;
use ds_label::Rule;
use ds_lane::{LaneAct, LaneEntry, WorkerAct, WorkerEntry};
use ds_script::Note;
use std::alloc::AllocError;

fn push_note(out: &mut Vec<Counted>, note: &Note) -> Result<(), AllocError>
    ensures { OnOk result (out.new.items ≡ out.old.items ++ note_counts note.now) }
{
    match note {
        Note::Print(_) => Ok(()),
        Note::Sent => Ok(()),
        Note::Took { .. } => Ok(()),
        Note::SetLabel(_) => Ok(()),
        Note::NewCat(_) => Ok(()),
        Note::Delegated { .. } => Ok(()),
        Note::Mapped { .. } => Ok(()),
        Note::Imported => Ok(()),
        Note::Refused(rule) => {
            out.push(Counted::Refused(rule.number()))?;
            Ok(())
        }
    }
}

fn push_notes(out: &mut Vec<Counted>, notes: &[Note]) -> Result<(), AllocError>
    ensures { OnOk result (out.new.items ≡ out.old.items ++ flat_map note_counts notes.now) }
{
    for note in notes {
        push_note(out, note)?;
    }
    Ok(())
}

fn push_box_act(out: &mut Vec<Counted>, act: &BoxAct) -> Result<(), AllocError>
    ensures { OnOk result (out.new.items ≡ out.old.items ++ box_act_counts act.now) }
{
    match act {
        BoxAct::Put(_) => {
            out.push(Counted::Put)?;
            Ok(())
        }
        BoxAct::Full(_) => {
            out.push(Counted::Refused(Rule::BoxFull.number()))?;
            Ok(())
        }
        BoxAct::Took => {
            out.push(Counted::Took)?;
            Ok(())
        }
    }
}

fn push_box_entries(out: &mut Vec<Counted>, entries: &[BoxEntry]) -> Result<(), AllocError>
    ensures { OnOk result (out.new.items ≡ out.old.items ++ flat_map kept_box_counts entries.now) }
{
    for entry in entries {
        push_box_act(out, &entry.act)?;
    }
    Ok(())
}

fn push_lane_act(out: &mut Vec<Counted>, act: &LaneAct) -> Result<(), AllocError>
    ensures { OnOk result (out.new.items ≡ out.old.items ++ lane_act_counts act.now) }
{
    match act {
        LaneAct::Queued(_) => {
            out.push(Counted::Queued)?;
            Ok(())
        }
        LaneAct::Full(_) => {
            out.push(Counted::Refused(Rule::LaneFull.number()))?;
            Ok(())
        }
        LaneAct::Lifted(_) => Ok(()),
    }
}

fn push_lane_entries(out: &mut Vec<Counted>, entries: &[LaneEntry]) -> Result<(), AllocError>
    ensures { OnOk result (out.new.items ≡ out.old.items ++ flat_map kept_lane_counts entries.now) }
{
    for entry in entries {
        push_lane_act(out, &entry.act)?;
    }
    Ok(())
}

fn push_worker_act(out: &mut Vec<Counted>, act: &WorkerAct) -> Result<(), AllocError>
    ensures { OnOk result (out.new.items ≡ out.old.items ++ worker_act_counts act.now) }
{
    match act {
        WorkerAct::Framed { .. } => {
            out.push(Counted::Framed)?;
            Ok(())
        }
        WorkerAct::Dropped { rule, .. } => {
            out.push(Counted::Refused(rule.number()))?;
            Ok(())
        }
    }
}

fn push_worker_entries(out: &mut Vec<Counted>, entries: &[WorkerEntry]) -> Result<(), AllocError>
    ensures { OnOk result (out.new.items ≡ out.old.items ++ flat_map kept_worker_counts entries.now) }
{
    for entry in entries {
        push_worker_act(out, &entry.act)?;
    }
    Ok(())
}

fn push_process(out: &mut Vec<Counted>, process: &ProcPart) -> Result<(), AllocError>
    ensures { OnOk result (out.new.items ≡ out.old.items ++ process_part (process_of process.now)) }
{
    push_notes(out, process.process.notes())
}

fn push_box(out: &mut Vec<Counted>, mailbox: &BoxPart) -> Result<(), AllocError>
    ensures { OnOk result (out.new.items ≡ out.old.items ++ box_part (box_of mailbox.now)) }
{
    push_box_entries(out, mailbox.state.history())
}

fn push_lane(out: &mut Vec<Counted>, lane: &LanePart) -> Result<(), AllocError>
    ensures { OnOk result (out.new.items ≡ out.old.items ++ lane_part (lane_of lane.now)) }
{
    push_lane_entries(out, lane.state.history())?;
    push_worker_entries(out, lane.end.entries())?;
    Ok(())
}

fn push_processes(out: &mut Vec<Counted>, processes: &[ProcPart]) -> Result<(), AllocError>
    ensures { OnOk result (out.new.items ≡ out.old.items ++ flat_map process_part (map process_of processes.now)) }
{
    for process in processes {
        push_process(out, process)?;
    }
    Ok(())
}

fn push_boxes(out: &mut Vec<Counted>, boxes: &[BoxPart]) -> Result<(), AllocError>
    ensures { OnOk result (out.new.items ≡ out.old.items ++ flat_map box_part (map box_of boxes.now)) }
{
    for mailbox in boxes {
        push_box(out, mailbox)?;
    }
    Ok(())
}

fn push_lanes(out: &mut Vec<Counted>, lanes: &[LanePart]) -> Result<(), AllocError>
    ensures { OnOk result (out.new.items ≡ out.old.items ++ flat_map lane_part (map lane_of lanes.now)) }
{
    for lane in lanes {
        push_lane(out, lane)?;
    }
    Ok(())
}

fn push_host(out: &mut Vec<Counted>, host: &Exporter) -> Result<(), AllocError>
    ensures { OnOk result (out.new.items ≡ out.old.items ++ host_part host.now) }
{
    push_processes(out, host.procs().as_slice())?;
    push_boxes(out, host.boxes().as_slice())?;
    push_lanes(out, host.lanes().as_slice())?;
    Ok(())
}

fn push_node(out: &mut Vec<Counted>, node: &Node) -> Result<(), AllocError>
    ensures { OnOk result (out.new.items ≡ out.old.items ++ node_part (node_of node.now)) }
{
    match node {
        Node::Running(host) => push_host(out, host),
        Node::Silent(_) => Ok(()),
    }
}

/// Appends what the entries and notes of hosts are counted as.
pub(crate) fn push_nodes(out: &mut Vec<Counted>, nodes: &[Node]) -> Result<(), AllocError>
    ensures { OnOk result (out.new.items ≡ out.old.items ++ flat_map node_part (map node_of nodes.now)) }
{
    for node in nodes {
        push_node(out, node)?;
    }
    Ok(())
}
