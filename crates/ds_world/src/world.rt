//! A world.
#![tactic(auto)]

ghost use Rattle.std.specs.Prelude.{◌≡◌, ◌+◌, ◌<◌, ◌^◌, length, map, OnOk, OnErr, IfOk};
ghost use Rattle.ds_model.specs.Lawful.{Lawful};
ghost use Rattle.ds_model.specs.Step.{step, run};
ghost use Rattle.ds_setup.specs.Plans.{plan_of};
ghost use Rattle.ds_setup.specs.Starts.{start_of};
ghost use Rattle.ds_setup.specs.Events.{meant};
ghost use Rattle.ds_scheme.specs.TheScheme.{scheme};
ghost use Rattle.ds_exporter.specs.Moving.{Moves};
ghost use Rattle.ds_hosts.specs.Nodes.{node_of};
ghost use Rattle.ds_world.specs.Worlds.{IsFresh, IsWorld, routes_of, world_of};
ghost use Rattle.ds_world.specs.Afters.{IsStoppedIn};
ghost use Rattle.ds_world.specs.Hands.{AreSpelledAfter, HandsAreSpelled};

use crate::acting::happen;
use crate::parts::{LinkList, WorldParts};
use crate::reading::hands_of;
use crate::route::RouteList;
use ds_exporter::Moved;
use ds_hosts::NodeList;
use ds_plan::{Doc, Event, EventList};
use std::alloc::AllocError;
use std::marker::Model;

/// The hosts of a document in a run, with the connections between them. Contracts see them without the room that their lists have
/// taken, and say what they are in the plain world.
#[derive(Drop)]
pub struct World {
    pub(crate) parts: WorldParts,
}

impl Model for World {
    ghost use Rattle.ds_world.specs.Worlds.{WorldState};

    ghost Value = { WorldState };

    ghost use Rattle.ds_world.specs.Inside.{IsFit, state_of};

    ghost view = { λ w. state_of w.parts };

    ghost invariant = { λ w. IsFit w.parts };
}

impl World {
    /// The world of a document whose hosts are these, before any event of it. It needs parts that fit:
    ///
    /// - There is a host for each of the document, in order, and what setup fixed of it is by the document's plan.
    /// - Each host has the connections that lead to it, in the order of their numbers.
    /// - There is a link's stream for each connection, and nothing in its place where the connection reads a lane.
    /// - What arrived at a connection is the front of the stream that it reads.
    /// - No entry has a stamp.
    ///
    /// It takes no memory.
    pub fn new(doc: Doc, nodes: NodeList, links: LinkList, routes: RouteList) -> World
        requires routes { routes.items ≡ routes_of doc }
        requires world { IsWorld (record { doc = doc; nodes = map node_of nodes.items; links = links.items; count = 0 }) }
        ensures { result ≡ record { doc = doc; nodes = map node_of nodes.items; links = links.items; count = 0 } }
    {
        World {
            parts: WorldParts {
                doc,
                nodes,
                links,
                routes,
                count: 0,
            },
        }
    }

    /// The document.
    pub fn doc(&self) -> &Doc
        ensures { result.now ≡ self.now.doc }
    {
        &self.parts.doc
    }

    /// The hosts, in order.
    pub fn nodes(&self) -> &NodeList
        ensures { map node_of result.now.items ≡ self.now.nodes }
    {
        &self.parts.nodes
    }

    /// The streams of the links, by the connections' numbers.
    pub fn links(&self) -> &LinkList
        ensures { result.now.items ≡ self.now.links }
    {
        &self.parts.links
    }

    /// Where each connection leads.
    pub fn routes(&self) -> &RouteList
        ensures { result.now.items ≡ routes_of self.now.doc }
    {
        &self.parts.routes
    }

    /// How many events there were.
    pub fn count(&self) -> u64
        ensures { result ≡ self.now.count }
    {
        self.parts.count
    }

    /// What every world keeps. It does nothing.
    pub fn fit(&self)
        ensures { IsWorld self.now }
    {
        let _count = self.parts.count;
    }

    /// An event happens: the world becomes what the plain world's step makes of it. It is still exactly where that stays as it is,
    /// so where the event names what doesn't exist. `AllocError` where memory runs out; nothing changed then.
    pub fn apply(&mut self, event: &Event) -> Result<Moved, AllocError>
        requires more { self.old.count + 1 < 2 ^ 64 }
        ensures ok { IfOk result (λ moved. Moves moved (world_of self.old) (world_of self.new) (step scheme (plan_of self.old.doc) (world_of self.old) (meant event.now))) }
        ensures doc { self.new.doc ≡ self.old.doc }
        ensures count { OnOk result (self.new.count ≡ self.old.count + 1) }
        ensures err { OnErr result (self.new ≡ self.old) }
    {
        let moved = happen(&mut self.parts, event)?;
        Ok(moved)
    }

    /// Each message that a process has in hand has a spelling. It does nothing.
    pub fn hands(&self)
        ensures { HandsAreSpelled (world_of self.now) }
    {
        hands_of(&self.parts.nodes);
    }

    /// The events happen, one after another, and messages in hand have spellings all through.
    fn run_each(&mut self, events: &[Event]) -> Result<(), AllocError>
        requires more { self.old.count + length events.now < 2 ^ 64 }
        ensures ok { OnOk result (world_of self.new ≡ run scheme (plan_of self.old.doc) (world_of self.old) (map meant events.now)) }
        ensures doc { self.new.doc ≡ self.old.doc }
        ensures count { OnOk result (self.new.count ≡ self.old.count + length events.now) }
        ensures err { OnErr result (IsStoppedIn (plan_of self.old.doc) (map meant events.now) (world_of self.old) (world_of self.new)) }
        ensures spelled { OnOk result (AreSpelledAfter (plan_of self.old.doc) (world_of self.old) (map meant events.now)) }
    {
        self.hands();
        for event in events {
            self.apply(event)?;
            self.hands();
        }
        Ok(())
    }

    /// The events happen, one after another. `AllocError` where memory runs out; the first of them happened then, up to some one.
    pub fn run(&mut self, events: &EventList) -> Result<(), AllocError>
        requires more { self.old.count + length events.now < 2 ^ 64 }
        ensures ok { OnOk result (world_of self.new ≡ run scheme (plan_of self.old.doc) (world_of self.old) (map meant events.now)) }
        // Of a world as setup makes it, messages are delivered only where the rules hold.
        ensures lawful { OnOk result (IsFresh self.old → Lawful scheme (plan_of self.old.doc) (start_of self.old.doc) (map meant events.now)) }
        ensures doc { self.new.doc ≡ self.old.doc }
        ensures count { OnOk result (self.new.count ≡ self.old.count + length events.now) }
        ensures err { OnErr result (IsStoppedIn (plan_of self.old.doc) (map meant events.now) (world_of self.old) (world_of self.new)) }
    {
        self.run_each(events.as_slice())?;
        Ok(())
    }
}
