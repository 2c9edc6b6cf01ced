//! Outsiders' bytes.
#![tactic(auto)]

ghost use Rattle.std.specs.Prelude.{◌≡◌, ◌↔◌, ◌+◌, ◌<◌, ◌^◌, ◌++◌, ℕ, [], Some, length, map, take, drop, slice_get, OnOk, Ok, OnErr, IfOk, IsTrue};
ghost use Rattle.ds_model.specs.Lists.{at};
ghost use Rattle.ds_model.specs.Step.{Inject, Copy, stream_at};
ghost use Rattle.ds_setup.specs.Plans.{plan_of};
ghost use Rattle.ds_world.specs.Worlds.{longer, world_of};
ghost use Rattle.ds_world.specs.Inside.{IsFit, state_of};
ghost use Rattle.ds_world.specs.Afters.{IsAfter, counted};

use crate::connecting::route_of;
use crate::parts::{LinkList, WorldParts};
use crate::reading::part_of;
use crate::route::Feed;
use ds_exporter::Moved;
use ds_wire::Bytes;
use std::alloc::AllocError;

/// Whether a connection reads a link.
fn is_link(source: Feed) -> bool
    ensures { IsTrue result ↔ (source ≡ Feed.Link) }
{
    match source {
        Feed::Link => true,
        Feed::Lane { host: _, lane: _ } => false,
    }
}

/// Bytes are appended to the stream of the link at a place.
#[tactic(auto, using(ds_exporter::proofs::Places::map_at_here, ds_exporter::proofs::Places::map_same))]
fn append_at(links: &mut LinkList, place: usize, bytes: &[u8]) -> Result<(), AllocError>
    requires { place < length links.old.items }
    ensures ok { OnOk result (links.new.items ≡ at place (longer bytes.now) links.old.items) }
    ensures err { OnErr result (links.new.items ≡ links.old.items) }
{
    links[place].append(bytes)?;
    Ok(())
}

/// Bytes are appended to a link's stream, by the connection's number. It is still where there are none, where the connection reads
/// a lane, and where there is no such connection.
pub(crate) fn inject(parts: &mut WorldParts, conn: u32, bytes: &[u8]) -> Result<Moved, AllocError>
    requires fit { IsFit parts.old }
    requires more { parts.old.count + 1 < 2 ^ 64 }
    ensures ok { IfOk result (λ moved. IsAfter moved (Inject conn bytes.now) (state_of parts.old) (counted parts.old.count (state_of parts.new))) }
    ensures same { (parts.new.routes ≡ parts.old.routes) × (parts.new.count ≡ parts.old.count) }
    ensures still { result ≡ Ok Moved.Still → state_of parts.new ≡ state_of parts.old }
    ensures err { OnErr result (state_of parts.new ≡ state_of parts.old) }
{
    let Some(route) = route_of(&parts.routes, conn) else {
        return Ok(Moved::Still);
    };
    if !is_link(route.source) {
        return Ok(Moved::Still);
    }
    if bytes.is_empty() {
        return Ok(Moved::Still);
    }
    append_at(&mut parts.links, conn as usize, bytes)?;
    Ok(Moved::Changed)
}

/// The part of a connection's stream from a place up to another, by its number, as far as there is one.
fn copied(parts: &WorldParts, conn: u32, from: u64, until: u64) -> Result<Bytes, AllocError>
    requires { IsFit parts.now }
    ensures { IfOk result (λ bytes. bytes ≡ drop from (take until (stream_at (world_of (state_of parts.now)) (plan_of parts.now.doc) conn (slice_get (world_of (state_of parts.now)).conns conn)))) }
{
    let Some(route) = route_of(&parts.routes, conn) else {
        return Ok(Bytes::new(*parts.nodes.allocator()));
    };
    part_of(parts, conn, route, from, until)
}

/// A part of another connection's stream is appended to a link's, as far as there is one.
pub(crate) fn copy(
    parts: &mut WorldParts,
    conn: u32,
    source: u32,
    from: u64,
    until: u64,
) -> Result<Moved, AllocError>
    requires fit { IsFit parts.old }
    requires more { parts.old.count + 1 < 2 ^ 64 }
    ensures ok { IfOk result (λ moved. IsAfter moved (Copy conn source from until) (state_of parts.old) (counted parts.old.count (state_of parts.new))) }
    ensures same { (parts.new.routes ≡ parts.old.routes) × (parts.new.count ≡ parts.old.count) }
    ensures still { result ≡ Ok Moved.Still → state_of parts.new ≡ state_of parts.old }
    ensures err { OnErr result (state_of parts.new ≡ state_of parts.old) }
{
    let bytes = copied(parts, source, from, until)?;
    inject(parts, conn, bytes.as_slice())
}
