//! Lanes with their entries.
#![tactic(auto)]

ghost use Rattle.std.specs.Prelude.{◌≡◌, ◌<◌, ◌^◌, ◌++◌, ℕ, List, IfOk, OnOk, drop, length, map, flat_map};
ghost use Rattle.ds_model.specs.Print.{entry, lane_words};
ghost use Rattle.ds_model.specs.World.{QueuedLine, FullLine};
ghost use Rattle.ds_plan.specs.Keys.{host_keys};
ghost use Rattle.ds_exporter.specs.HostStates.{lane_of};
ghost use Rattle.ds_exporter.specs.Merging.{Stamped, entry_lines, merged, plain_waiting, worker_stamped};
ghost use Rattle.ds_exporter.specs.PlainHosts.{log_of, plain_queue, plain_worker, plan_of_lane};
ghost use Rattle.ds_report.specs.Printings.{printing_of, planned};
ghost use Rattle.ds_report.specs.Lanes.{before, behind, dropped_line, lane_counts, lane_front, lane_head, lane_pieces, lane_text, lines_text, stamped_text, waiting_line};

use crate::names::{push_host_name, push_key_name, push_label, push_rule};
use crate::plain::{push, push_counted, push_shown};
use crate::processes::push_digest_of;
use ds_exporter::LanePart;
use ds_label::{PubKey, Rule};
use ds_lane::{LaneAct, LaneEntry, Waiting, WorkerAct, WorkerEntry};
use ds_plan::Doc;
use std::alloc::AllocError;

/// Appends the process and the slot of a message on a lane, and its payload.
fn push_waiting(out: &mut Vec<u8>, word: &[u8], waiting: &Waiting) -> Result<(), AllocError>
    ensures { OnOk result (out.new.items ≡ out.old.items ++ waiting_line word.now waiting.now) }
{
    push_counted(out, word, u64::from(waiting.from))?;
    push_counted(out, b".", u64::from(waiting.message.slot))?;
    push(out, b" ")?;
    push_shown(out, waiting.message.payload.as_slice())?;
    push(out, b"\n")
}

/// Appends that a message was dropped, by which rule.
fn push_dropped(
    out: &mut Vec<u8>,
    doc: &Doc,
    keys: &[PubKey],
    rule: &Rule,
    from: u32,
    slot: u32,
) -> Result<(), AllocError>
    requires { keys.now ≡ host_keys doc.now.hosts }
    ensures { OnOk result (out.new.items ≡ out.old.items ++ dropped_line (printing_of doc.now) (planned doc.now) rule.now from slot) }
{
    push(out, b"  dropped ")?;
    push_rule(out, doc, keys, rule)?;
    push_counted(out, b" ", u64::from(from))?;
    push_counted(out, b".", u64::from(slot))?;
    push(out, b"\n")
}

/// Appends an entry of a lane's worker.
#[tactic(auto, using(crate::proofs::Spaced::dropped_words))]
fn push_worker_entry(
    out: &mut Vec<u8>,
    doc: &Doc,
    keys: &[PubKey],
    entry: &WorkerEntry,
) -> Result<(), AllocError>
    requires { keys.now ≡ host_keys doc.now.hosts }
    ensures { OnOk result (out.new.items ≡ out.old.items ++ stamped_text (printing_of doc.now) (planned doc.now) (worker_stamped entry.now)) }
{
    match &entry.act {
        WorkerAct::Framed { number, count } => {
            push_counted(out, b"  framed ", u64::from(*number))?;
            push_counted(out, b" ", u64::from(*count))?;
            push(out, b"\n")
        }
        WorkerAct::Dropped { rule, from, slot } => push_dropped(out, doc, keys, rule, *from, *slot),
    }
}

/// Appends the entries of a lane's worker from a place on that came before a stamp, and says where the next one is.
fn push_before(
    out: &mut Vec<u8>,
    doc: &Doc,
    keys: &[PubKey],
    worker: &[WorkerEntry],
    from: usize,
    stamp: u64,
) -> Result<usize, AllocError>
    requires keys { keys.now ≡ host_keys doc.now.hosts }
    ensures text { OnOk result (out.new.items ≡ out.old.items ++ lines_text (printing_of doc.now) (planned doc.now) (before stamp (map worker_stamped (drop from worker.now)))) }
    ensures place { IfOk result (λ place. map worker_stamped (drop place worker.now) ≡ behind stamp (map worker_stamped (drop from worker.now))) }
{
    for place in from..worker.len() {
        let entry = &worker[place];
        if stamp <= entry.stamp {
            return Ok(place);
        }
        push_worker_entry(out, doc, keys, entry)?;
    }
    Ok(worker.len())
}

/// Appends an entry of a lane's senders, behind those of its worker that came before it, and says where the worker's next one is.
fn push_entry(
    out: &mut Vec<u8>,
    doc: &Doc,
    keys: &[PubKey],
    entry: &LaneEntry,
    worker: &[WorkerEntry],
    from: usize,
) -> Result<usize, AllocError>
    requires keys { keys.now ≡ host_keys doc.now.hosts }
    ensures { (more : List Stamped) → IfOk result (λ place.
        out.old.items ++ lines_text (printing_of doc.now) (planned doc.now) (merged (entry_lines entry.now ++ more) (map worker_stamped (drop from worker.now)))
        ≡ out.new.items ++ lines_text (printing_of doc.now) (planned doc.now) (merged more (map worker_stamped (drop place worker.now)))) }
{
    match &entry.act {
        LaneAct::Queued(waiting) => {
            let place = push_before(out, doc, keys, worker, from, entry.stamp)?;
            push_waiting(out, b"  queued ", waiting)?;
            Ok(place)
        }
        LaneAct::Full(waiting) => {
            let place = push_before(out, doc, keys, worker, from, entry.stamp)?;
            push_waiting(out, b"  full ", waiting)?;
            Ok(place)
        }
        LaneAct::Lifted(_count) => Ok(from),
    }
}

/// Appends the entries of a lane's worker from a place on.
fn push_rest(
    out: &mut Vec<u8>,
    doc: &Doc,
    keys: &[PubKey],
    worker: &[WorkerEntry],
) -> Result<(), AllocError>
    requires { keys.now ≡ host_keys doc.now.hosts }
    ensures { OnOk result (out.new.items ≡ out.old.items ++ lines_text (printing_of doc.now) (planned doc.now) (map worker_stamped worker.now)) }
{
    for entry in worker {
        push_worker_entry(out, doc, keys, entry)?;
    }
    Ok(())
}

/// Appends the entries of a lane's senders and of its worker, by their stamps.
fn push_entries(
    out: &mut Vec<u8>,
    doc: &Doc,
    keys: &[PubKey],
    senders: &[LaneEntry],
    worker: &[WorkerEntry],
) -> Result<(), AllocError>
    requires { keys.now ≡ host_keys doc.now.hosts }
    ensures { OnOk result (out.new.items ≡ out.old.items ++ lines_text (printing_of doc.now) (planned doc.now) (merged (flat_map entry_lines senders.now) (map worker_stamped worker.now))) }
{
    let mut place = 0usize;
    for entry in senders {
        place = push_entry(out, doc, keys, entry, worker, place)?;
    }
    push_rest(out, doc, keys, worker.get(place..).unwrap_or(&[]))
}

/// Appends the front of a lane's line: its name, and where it leads.
fn push_head(
    out: &mut Vec<u8>,
    doc: &Doc,
    keys: &[PubKey],
    host: usize,
    number: u64,
    to: &PubKey,
) -> Result<(), AllocError>
    requires { keys.now ≡ host_keys doc.now.hosts }
    ensures { OnOk result (out.new.items ≡ out.old.items ++ lane_head (printing_of doc.now) (planned doc.now) host number to.now) }
{
    push(out, b"lane ")?;
    push_host_name(out, doc, host)?;
    push_counted(out, b".", number)?;
    push(out, b" to ")?;
    push_key_name(out, doc, keys, to)?;
    push(out, b" label ")
}

/// Appends how much a lane has.
#[tactic(auto, using(crate::proofs::Spaced::counts_of_lane))]
fn push_counts(out: &mut Vec<u8>, lane: &LanePart) -> Result<(), AllocError>
    ensures { OnOk result (out.new.items ≡ out.old.items ++ lane_counts (plan_of_lane (lane_of lane.now)) (plain_queue (lane_of lane.now)) (plain_worker (lane_of lane.now))) }
{
    push_counted(out, b" room ", u64::from(lane.state.room()))?;
    push_counted(out, b" waits ", lane.state.waits() as u64)?;
    push_counted(out, b" hand ", lane.end.hand().len() as u64)?;
    push_counted(out, b" leaf ", u64::from(lane.end.next()))?;
    push_counted(out, b" bytes ", lane.end.stream().len() as u64)
}

/// Appends the front of a lane's line, up to its stream.
fn push_front(
    out: &mut Vec<u8>,
    doc: &Doc,
    keys: &[PubKey],
    host: usize,
    number: u64,
    lane: &LanePart,
) -> Result<(), AllocError>
    requires { keys.now ≡ host_keys doc.now.hosts }
    ensures { OnOk result (out.new.items ≡ out.old.items ++ lane_front (printing_of doc.now) (planned doc.now) host number (lane_of lane.now)) }
{
    let cert = lane.state.cert();
    push_head(out, doc, keys, host, number, &cert.receiver)?;
    push_label(out, doc, keys, cert.label.as_slice())?;
    push_counts(out, lane)?;
    push(out, b" stream ")
}

/// Appends a lane, piece by piece.
fn push_pieces(
    out: &mut Vec<u8>,
    doc: &Doc,
    keys: &[PubKey],
    host: usize,
    number: u64,
    lane: &LanePart,
) -> Result<(), AllocError>
    requires { keys.now ≡ host_keys doc.now.hosts }
    ensures { OnOk result (out.new.items ≡ out.old.items ++ lane_pieces (printing_of doc.now) (planned doc.now) host number (lane_of lane.now)) }
{
    push_front(out, doc, keys, host, number, lane)?;
    push_digest_of(out, doc, lane.end.stream())?;
    push(out, b"\n")?;
    push_entries(out, doc, keys, lane.state.history(), lane.end.entries())
}

/// Appends a lane: its line, and its entries under it.
pub fn push_lane(
    out: &mut Vec<u8>,
    doc: &Doc,
    keys: &[PubKey],
    host: usize,
    place: usize,
    lane: &LanePart,
) -> Result<(), AllocError>
    requires keys { keys.now ≡ host_keys doc.now.hosts }
    requires place { place < 2 ^ 63 }
    ensures { OnOk result (out.new.items ≡ out.old.items ++ lane_text (printing_of doc.now) (planned doc.now) host place
        (plan_of_lane (lane_of lane.now)) (plain_queue (lane_of lane.now)) (plain_worker (lane_of lane.now)) (log_of (lane_of lane.now))) }
{
    push_pieces(out, doc, keys, host, place as u64 + 1, lane)
}
