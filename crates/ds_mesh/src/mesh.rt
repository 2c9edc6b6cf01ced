//! From a document to the text of its run in threads.
#![tactic(auto)]

ghost use Rattle.std.specs.Prelude.{◌≡◌, ◌++◌, None, OnOk, IfOk, flat_map, map, decimal, length};
ghost use Rattle.ds_plan.specs.Documents.{IsDocument};
ghost use Rattle.ds_plan.specs.Keys.{identity_key};
ghost use Rattle.ds_report.specs.Events.{event_line};
ghost use Rattle.ds_sim.specs.Sims.{text_now};
ghost use Rattle.ds_mesh.specs.Meshes.{IsMeshTextOf, event_lines};

use crate::running::run_in_threads;
use ds_base::Gate;
use ds_boot::make_lane_keys_in_threads;
use ds_plan::{Doc, Event};
use ds_report::{push_event, text};
use ds_sim::setup_with;
use ds_world::World;
use itoa::Buffer;
use lms_sig::TreeKey;
use std::alloc::{AllocError, Global};
use std::thread::Threads;

/// Appends bytes.
fn push(out: &mut Vec<u8>, piece: &[u8]) -> Result<(), AllocError>
    ensures { OnOk result (out.new.items ≡ out.old.items ++ piece.now) }
{
    out.extend_from_slice(piece)
}

/// Appends a number in decimal.
fn push_number(out: &mut Vec<u8>, number: u64) -> Result<(), AllocError>
    ensures { OnOk result (out.new.items ≡ out.old.items ++ decimal number) }
{
    push(out, Buffer::new().format(number).as_bytes())
}

/// Appends the line of each event.
fn push_events(out: &mut Vec<u8>, doc: &Doc, events: &[Event]) -> Result<(), AllocError>
    ensures { OnOk result (out.new.items ≡ out.old.items ++ flat_map (event_line doc.now) events.now) }
{
    for event in events {
        push_event(out, doc, event)?;
    }
    Ok(())
}

/// Appends how many events there are, and each.
fn push_lines(out: &mut Vec<u8>, doc: &Doc, events: &[Event]) -> Result<(), AllocError>
    ensures { OnOk result (out.new.items ≡ out.old.items ++ event_lines doc.now events.now) }
{
    push(out, b"mesh ")?;
    push_number(out, events.len() as u64)?;
    push(out, b"\n")?;
    push_events(out, doc, events)
}

/// The events' lines, and the text of the world to which they led.
fn print_run(alloc: Global, world: &World, events: &[Event]) -> Result<Vec<u8>, AllocError>
    ensures { IfOk result (λ out. out.items ≡ event_lines world.now.doc events.now ++ text_now world.now) }
{
    let mut out = Vec::new(alloc);
    push_lines(&mut out, world.doc(), events)?;
    let mut rest = text(alloc, world)?;
    out.append(&mut rest)?;
    Ok(out)
}

/// The text of a run in threads of a document that was read, with the identity key of each host, none of a silent one: `mesh N`, the
/// N events that the hosts made, each on a line, and the text of the run by these events. First the keys of all lanes are made at
/// once, each in a thread of its own where one can be made. In a phase all hosts run at once, each in a thread; the events are
/// listed phase by phase, and in a phase host by host. Events that the document lists aren't read. A gate is passed before a message
/// is put into a mailbox. `AllocError` where memory runs out.
pub fn mesh_text<R: Threads + Sync, G: Gate + Sync>(
    rt: &R,
    gate: &G,
    alloc: Global,
    doc: Doc,
    identities: Vec<Option<TreeKey>>,
) -> Result<Vec<u8>, AllocError>
    requires document { IsDocument doc }
    requires identities { identities.items ≡ map identity_key doc.hosts }
    ensures { IfOk result (λ text. IsMeshTextOf doc text.items) }
{
    let budget = doc.budget;
    let keys = make_lane_keys_in_threads(rt, alloc, &doc, identities)?;
    let world = setup_with(alloc, doc, keys)?;
    world.hands();
    let ran = run_in_threads(rt, gate, world, budget)?;
    let text = print_run(alloc, &ran.world, ran.events.as_slice())?;
    Ok(text)
}
