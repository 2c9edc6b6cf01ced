//! A run before its first event.
#![tactic(auto)]

ghost use Rattle.std.specs.Prelude.{◌≡◌, ℕ, List, [], IfOk, replicate};
ghost use Rattle.ds_plan.specs.Documents.{IsDocument};
ghost use Rattle.ds_setup.specs.Starts.{start_of};
ghost use Rattle.ds_boot.specs.AllKeys.{AreKeysOf};
ghost use Rattle.ds_world.specs.Worlds.{world_of};

use crate::routing::routes;
use ds_boot::{DocKeys, boot_with, make_keys};
use ds_plan::Doc;
use ds_wire::Bytes;
use ds_world::{LinkList, World};
use std::alloc::{AllocError, Global};

/// So many links on which nothing was written.
fn empty_links(alloc: Global, count: usize) -> Result<LinkList, AllocError>
    ensures { IfOk result (λ links. links.items ≡ replicate count []) }
{
    let mut links = Vec::with_capacity(alloc, count)?;
    for _made in 0..count {
        links.push(Bytes::new(alloc))?;
    }
    Ok(links)
}

/// The run of a document that was read, before its first event, with the keys that its hosts and lanes sign with: each host as
/// setup makes it, and no byte on its way. `AllocError` where memory runs out.
pub fn setup_with(alloc: Global, doc: Doc, keys: DocKeys) -> Result<World, AllocError>
    requires document { IsDocument doc }
    requires keys { AreKeysOf doc keys }
    ensures doc { IfOk result (λ world. world.doc ≡ doc) }
    ensures start { IfOk result (λ world. world_of world ≡ start_of doc) }
    ensures count { IfOk result (λ world. world.count ≡ 0) }
{
    let nodes = boot_with(alloc, &doc, keys)?;
    let routes = routes(alloc, &doc)?;
    let links = empty_links(alloc, routes.len())?;
    Ok(World::new(doc, nodes, links, routes))
}

/// The run of a document that was read, before its first event: each host as setup makes it, and no byte on its way.
/// `AllocError` where memory runs out.
pub fn setup(alloc: Global, doc: Doc) -> Result<World, AllocError>
    requires { IsDocument doc }
    ensures doc { IfOk result (λ world. world.doc ≡ doc) }
    ensures start { IfOk result (λ world. world_of world ≡ start_of doc) }
    ensures count { IfOk result (λ world. world.count ≡ 0) }
{
    let keys = make_keys(alloc, &doc)?;
    setup_with(alloc, doc, keys)
}
