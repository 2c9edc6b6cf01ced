//! Events.
#![tactic(auto)]

ghost use Rattle.std.specs.Prelude.{◌≡◌, ◌+◌, ◌<◌, ◌^◌, Ok, OnErr, IfOk};
ghost use Rattle.ds_setup.specs.Events.{meant};
ghost use Rattle.ds_world.specs.Inside.{IsFit, state_of};
ghost use Rattle.ds_world.specs.Afters.{IsAfter, IsAfterUnlessStill, counted};

use crate::arriving::arrive;
use crate::connecting::{accept, deliver};
use crate::injecting::{copy, inject};
use crate::parts::WorldParts;
use crate::stepping::{frame, step, tick};
use ds_exporter::Moved;
use ds_plan::Event;
use std::alloc::AllocError;

/// An event happens, and isn't counted yet.
fn act(parts: &mut WorldParts, event: &Event) -> Result<Moved, AllocError>
    requires fit { IsFit parts.old }
    requires more { parts.old.count + 1 < 2 ^ 64 }
    ensures ok { IfOk result (λ moved. IsAfter moved (meant event.now) (state_of parts.old) (counted parts.old.count (state_of parts.new))) }
    ensures same { (parts.new.routes ≡ parts.old.routes) × (parts.new.count ≡ parts.old.count) }
    ensures still { result ≡ Ok Moved.Still → state_of parts.new ≡ state_of parts.old }
    ensures err { OnErr result (state_of parts.new ≡ state_of parts.old) }
{
    match event {
        Event::Step { host, index } => step(parts, *host, *index),
        Event::Frame { host, lane } => frame(parts, *host, *lane),
        Event::Arrive { conn, count } => arrive(parts, *conn, *count),
        Event::Accept { conn } => accept(parts, *conn),
        Event::Deliver { conn } => deliver(parts, *conn),
        Event::Tick { host, to } => tick(parts, *host, *to),
        Event::Inject { conn, bytes } => inject(parts, *conn, bytes.as_slice()),
        Event::CopyBytes {
            conn,
            source,
            from,
            until,
        } => copy(parts, *conn, *source, *from, *until),
    }
}

/// An event happens.
pub(crate) fn happen(parts: &mut WorldParts, event: &Event) -> Result<Moved, AllocError>
    requires fit { IsFit parts.old }
    requires more { parts.old.count + 1 < 2 ^ 64 }
    ensures ok { IfOk result (λ moved. IsAfter moved (meant event.now) (state_of parts.old) (state_of parts.new)) }
    ensures same { parts.new.routes ≡ parts.old.routes }
    ensures err { OnErr result (state_of parts.new ≡ state_of parts.old) }
{
    let moved = act(parts, event)?;
    parts.count += 1;
    Ok(moved)
}

/// An event happens, and is counted where it changes something.
pub(crate) fn happen_unless_still(
    parts: &mut WorldParts,
    event: &Event,
) -> Result<Moved, AllocError>
    requires fit { IsFit parts.old }
    requires more { parts.old.count + 1 < 2 ^ 64 }
    ensures ok { IfOk result (λ moved. IsAfterUnlessStill moved (meant event.now) (state_of parts.old) (state_of parts.new)) }
    ensures same { parts.new.routes ≡ parts.old.routes }
    ensures err { OnErr result (state_of parts.new ≡ state_of parts.old) }
{
    let moved = act(parts, event)?;
    if moved == Moved::Changed {
        parts.count += 1;
    }
    Ok(moved)
}
