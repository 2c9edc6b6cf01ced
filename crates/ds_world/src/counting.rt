//! How many things a document has, as events number them, and how many bytes are still to arrive.
#![tactic(auto)]

ghost use Rattle.std.specs.Prelude.{◌≡◌, length, IfOk, slice_get};
ghost use Rattle.ds_model.specs.Plan.{host_plan};
ghost use Rattle.ds_model.specs.Schedule.{bytes_left};
ghost use Rattle.ds_setup.specs.Plans.{plan_of};
ghost use Rattle.ds_world.specs.Inside.{state_of};
ghost use Rattle.ds_world.specs.Worlds.{arrived_by, world_of};

use crate::connecting::route_of;
use crate::parts::WorldParts;
use crate::reading::{count_of, stream_of};
use crate::route::Route;
use crate::world::World;
use std::alloc::{AllocError, Global};

/// A count as events number things. `AllocError` where it is 2^32 or more: a list of events can't name so many things.
fn number(count: usize) -> Result<u32, AllocError>
    ensures { IfOk result (λ n. n ≡ count) }
{
    u32::try_from(count).map_err(|_| AllocError)
}

/// How many bytes arrived at a connection.
fn arrived_of(parts: &WorldParts, route: Route) -> usize
    ensures { result ≡ length (arrived_by (state_of parts.now) route) }
{
    if route.host as usize >= parts.nodes.len() {
        return 0;
    }
    count_of(&parts.nodes, route)
}

impl World {
    /// Where its lists have their memory.
    pub fn memory(&self) -> Global {
        *self.parts.links.allocator()
    }

    /// How many hosts there are. `AllocError` where they are 2^32 or more.
    pub fn hosts(&self) -> Result<u32, AllocError>
        ensures { IfOk result (λ n. n ≡ length (plan_of self.now.doc).hosts) }
    {
        number(self.parts.doc.hosts.len())
    }

    /// How many connections there are. `AllocError` where they are 2^32 or more.
    pub fn conns(&self) -> Result<u32, AllocError>
        ensures { IfOk result (λ n. n ≡ length (plan_of self.now.doc).conn_plans) }
    {
        number(self.parts.routes.len())
    }

    /// How many processes the host at a place has; 0 where there is none. `AllocError` where they are 2^32 or more.
    pub fn procs_of(&self, host: u32) -> Result<u32, AllocError>
        ensures { IfOk result (λ n. n ≡ (host_plan (plan_of self.now.doc) host).procs) }
    {
        match self.parts.doc.hosts.get(host as usize) {
            Some(spec) => number(spec.procs.len()),
            None => Ok(0),
        }
    }

    /// How many lanes the host at a place has; 0 where there is none. `AllocError` where they are 2^32 or more.
    pub fn lanes_of(&self, host: u32) -> Result<u32, AllocError>
        ensures { IfOk result (λ n. n ≡ length (host_plan (plan_of self.now.doc) host).lanes) }
    {
        match self.parts.doc.hosts.get(host as usize) {
            Some(spec) => number(spec.lanes.len()),
            None => Ok(0),
        }
    }

    /// How many bytes of the stream of the connection with that number haven't arrived; 0 where there is none.
    pub fn bytes_left(&self, conn: u32) -> u64
        ensures { result ≡ bytes_left (plan_of self.now.doc) (world_of self.now) conn }
    {
        let Some(route) = route_of(&self.parts.routes, conn) else {
            return 0;
        };
        let arrived = arrived_of(&self.parts, route);
        let stream = stream_of(&self.parts, conn, route.source).len();
        stream.saturating_sub(arrived) as u64
    }
}
