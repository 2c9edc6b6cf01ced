//! From a document to the text of its run.
#![tactic(auto)]

ghost use Rattle.std.specs.Prelude.{◌≡◌, ◌≤◌, ℕ, List, Option, IfOk, OnOk, length};
ghost use Rattle.ds_boot.specs.AllKeys.{AreKeysOf};
ghost use Rattle.ds_plan.specs.Documents.{IsDocument, events_of};
ghost use Rattle.ds_sim.specs.Sims.{Happened, IsTextOf, text_now, without_events};

use crate::beginning::setup_with;
use ds_boot::{DocKeys, make_keys};
use ds_plan::{Doc, EventList};
use ds_report::text;
use ds_world::World;
use std::alloc::{AllocError, Global};

/// The document without its events, and these.
fn apart(doc: Doc) -> (Doc, Option<EventList>)
    ensures doc { result.0 ≡ without_events doc }
    ensures events { result.1 ≡ doc.events }
{
    let Doc {
        hosts,
        moment,
        budget,
        certs,
        links,
        events,
    } = doc;
    let begins = Doc {
        hosts,
        moment,
        budget,
        certs,
        links,
        events: None,
    };
    (begins, events)
}

/// What a run does: the events that are given, or else those of the canonical schedule, at most so many.
fn happen(world: &mut World, events: &Option<EventList>, budget: u32) -> Result<(), AllocError>
    requires first { world.old.count ≡ 0 }
    requires few { length (events_of events.now) ≤ 20000 }
    ensures { OnOk result (Happened budget events.now world.old world.new) }
{
    match events {
        Some(events) => {
            world.run(events)?;
            Ok(())
        }
        None => {
            let _events = world.canonical(budget)?;
            Ok(())
        }
    }
}

/// The text of a run as it stands.
fn text_of(alloc: Global, world: &World) -> Result<Vec<u8>, AllocError>
    ensures { IfOk result (λ text. text.items ≡ text_now world.now) }
{
    text(alloc, world)
}

/// The text of the run of a document that was read: by the events that it gives, or else by those of the canonical schedule.
/// `AllocError` where memory runs out.
pub fn run_text(alloc: Global, doc: Doc) -> Result<Vec<u8>, AllocError>
    requires { IsDocument doc }
    ensures { IfOk result (λ text. IsTextOf doc text.items) }
{
    let keys = make_keys(alloc, &doc)?;
    run_text_with(alloc, doc, keys)
}

/// The text of the run of a document that was read, with the keys that its hosts and lanes sign with: by the events that it gives, or
/// else by those of the canonical schedule. `AllocError` where memory runs out.
pub fn run_text_with(alloc: Global, doc: Doc, keys: DocKeys) -> Result<Vec<u8>, AllocError>
    requires document { IsDocument doc }
    requires keys { AreKeysOf doc keys }
    ensures { IfOk result (λ text. IsTextOf doc text.items) }
{
    let budget = doc.budget;
    let (begins, events) = apart(doc);
    let mut world = setup_with(alloc, begins, keys)?;
    happen(&mut world, &events, budget)?;
    text_of(alloc, &world)
}
