//! The canonical schedule, part by part.
#![tactic(auto)]

ghost use Rattle.std.specs.Prelude.{◌≡◌, ◌-◌, ◌+◌, ◌<◌, ◌^◌, ◌∷◌, ◌++◌, [], length, map, OnOk, IfOk};
ghost use Rattle.ds_model.specs.Lists.{gathered};
ghost use Rattle.ds_model.specs.Lawful.{Lawful};
ghost use Rattle.ds_model.specs.Step.{Accept, Frame, Step, run};
ghost use Rattle.ds_model.specs.Schedule.{IsCanonical, host_events};
ghost use Rattle.ds_scheme.specs.TheScheme.{scheme};
ghost use Rattle.ds_setup.specs.Events.{meant};
ghost use Rattle.ds_setup.specs.Plans.{plan_of};
ghost use Rattle.ds_setup.specs.Starts.{start_of};
ghost use Rattle.ds_world.specs.Afters.{IsAfterUnlessStill};
ghost use Rattle.ds_world.specs.Worlds.{IsFresh, world_of};
ghost use Rattle.ds_world.specs.Hands.{AreSpelledAfter};
ghost use Rattle.ds_world.specs.Makings.{GoesOn, HasRoom, connects, connects_all, delivers, goes_round, goes_rounds, schedule_of, takes_turns, tries, tries_all};

use crate::acting::happen_unless_still;
use crate::world::World;
use ds_exporter::Moved;
use ds_plan::{Event, EventList};
use std::alloc::AllocError;

/// A schedule as it is made.
#[derive(Drop)]
pub(crate) struct Making {
    /// Its events so far.
    pub(crate) events: EventList,
    /// How many more it may have.
    pub(crate) left: u32,
}

/// With an event.
fn keep(making: &mut Making, event: Event) -> Result<(), AllocError>
    requires { 0 < making.old.left }
    ensures events { OnOk result (making.new.events ≡ making.old.events ++ event ∷ []) }
    ensures left { OnOk result (making.new.left ≡ making.old.left - 1) }
{
    making.events.push(event)?;
    making.left -= 1;
    Ok(())
}

impl World {
    /// An event happens, and is counted where it changes something.
    fn try_event(&mut self, event: &Event) -> Result<Moved, AllocError>
        requires more { self.old.count + 1 < 2 ^ 64 }
        ensures ok { IfOk result (λ moved. IsAfterUnlessStill moved (meant event.now) self.old self.new) }
        ensures doc { self.new.doc ≡ self.old.doc }
    {
        let moved = happen_unless_still(&mut self.parts, event)?;
        Ok(moved)
    }
}

/// An event, unless it is still or no more may come.
pub(crate) fn attempt(
    world: &mut World,
    making: &mut Making,
    event: Event,
) -> Result<(), AllocError>
    requires room { HasRoom world.old making.old }
    ensures made { OnOk result (schedule_of world.new making.new ≡ tries world.old.doc (meant event) (schedule_of world.old making.old)) }
    ensures goes { OnOk result (GoesOn world.old making.old world.new making.new) }
    ensures room { OnOk result (HasRoom world.new making.new) }
    ensures doc { world.new.doc ≡ world.old.doc }
{
    if making.left == 0 {
        return Ok(());
    }
    match world.try_event(&event)? {
        Moved::Still => Ok(()),
        Moved::Changed => {
            keep(making, event)?;
            world.hands();
            Ok(())
        }
    }
}

/// Deliveries as long as they change something; at most so many.
fn deliveries(
    world: &mut World,
    making: &mut Making,
    conn: u32,
    most: u32,
) -> Result<(), AllocError>
    requires room { HasRoom world.old making.old }
    ensures made { OnOk result (schedule_of world.new making.new ≡ delivers world.old.doc conn most (schedule_of world.old making.old)) }
    ensures goes { OnOk result (GoesOn world.old making.old world.new making.new) }
    ensures room { OnOk result (HasRoom world.new making.new) }
    ensures doc { world.new.doc ≡ world.old.doc }
{
    for _ in 0..most {
        let before = making.events.len();
        attempt(world, making, Event::Deliver { conn })?;
        if making.events.len() == before {
            return Ok(());
        }
    }
    Ok(())
}

/// An accept and then deliveries.
fn turn(world: &mut World, making: &mut Making, conn: u32, budget: u32) -> Result<(), AllocError>
    requires room { HasRoom world.old making.old }
    ensures made { OnOk result (schedule_of world.new making.new ≡ delivers world.old.doc conn budget (tries world.old.doc (Accept conn) (schedule_of world.old making.old))) }
    ensures goes { OnOk result (GoesOn world.old making.old world.new making.new) }
    ensures room { OnOk result (HasRoom world.new making.new) }
    ensures doc { world.new.doc ≡ world.old.doc }
{
    attempt(world, making, Event::Accept { conn })?;
    deliveries(world, making, conn, budget)?;
    Ok(())
}

/// Turns until one changes nothing.
fn turns(world: &mut World, making: &mut Making, conn: u32, budget: u32) -> Result<(), AllocError>
    requires room { HasRoom world.old making.old }
    ensures made { OnOk result (schedule_of world.new making.new ≡ takes_turns world.old.doc conn budget budget (schedule_of world.old making.old)) }
    ensures goes { OnOk result (GoesOn world.old making.old world.new making.new) }
    ensures room { OnOk result (HasRoom world.new making.new) }
    ensures doc { world.new.doc ≡ world.old.doc }
{
    for _ in 0..budget {
        let before = making.events.len();
        turn(world, making, conn, budget)?;
        if making.events.len() == before {
            return Ok(());
        }
    }
    Ok(())
}

/// The rest of a connection's bytes arrives, and is accepted and delivered.
fn connect(world: &mut World, making: &mut Making, conn: u32, budget: u32) -> Result<(), AllocError>
    requires room { HasRoom world.old making.old }
    ensures made { OnOk result (schedule_of world.new making.new ≡ connects world.old.doc budget conn (schedule_of world.old making.old)) }
    ensures goes { OnOk result (GoesOn world.old making.old world.new making.new) }
    ensures room { OnOk result (HasRoom world.new making.new) }
    ensures doc { world.new.doc ≡ world.old.doc }
{
    let count = world.bytes_left(conn);
    attempt(world, making, Event::Arrive { conn, count })?;
    turns(world, making, conn, budget)?;
    Ok(())
}

/// The first so many connections.
fn all_connect(
    world: &mut World,
    making: &mut Making,
    conns: u32,
    budget: u32,
) -> Result<(), AllocError>
    requires room { HasRoom world.old making.old }
    ensures made { OnOk result (schedule_of world.new making.new ≡ connects_all world.old.doc budget conns (schedule_of world.old making.old)) }
    ensures goes { OnOk result (GoesOn world.old making.old world.new making.new) }
    ensures room { OnOk result (HasRoom world.new making.new) }
    ensures doc { world.new.doc ≡ world.old.doc }
{
    for conn in 0..conns {
        connect(world, making, conn, budget)?;
    }
    Ok(())
}

/// A step of each of the first so many processes of a host.
fn steps(world: &mut World, making: &mut Making, host: u32, procs: u32) -> Result<(), AllocError>
    requires room { HasRoom world.old making.old }
    ensures made { OnOk result (schedule_of world.new making.new ≡ tries_all world.old.doc (gathered (λ p. Step host p ∷ []) procs) (schedule_of world.old making.old)) }
    ensures goes { OnOk result (GoesOn world.old making.old world.new making.new) }
    ensures room { OnOk result (HasRoom world.new making.new) }
    ensures doc { world.new.doc ≡ world.old.doc }
{
    for index in 0..procs {
        attempt(world, making, Event::Step { host, index })?;
    }
    Ok(())
}

/// A frame of a lane of a host, twice; the lane is named by its number, from 1.
fn two_frames(
    world: &mut World,
    making: &mut Making,
    host: u32,
    lane: u32,
) -> Result<(), AllocError>
    requires room { HasRoom world.old making.old }
    ensures made { OnOk result (schedule_of world.new making.new ≡ tries_all world.old.doc (Frame host (lane - 1) ∷ Frame host (lane - 1) ∷ []) (schedule_of world.old making.old)) }
    ensures goes { OnOk result (GoesOn world.old making.old world.new making.new) }
    ensures room { OnOk result (HasRoom world.new making.new) }
    ensures doc { world.new.doc ≡ world.old.doc }
{
    attempt(world, making, Event::Frame { host, lane })?;
    attempt(world, making, Event::Frame { host, lane })?;
    Ok(())
}

/// Two frames of each of the first so many lanes of a host.
fn frames(world: &mut World, making: &mut Making, host: u32, lanes: u32) -> Result<(), AllocError>
    requires room { HasRoom world.old making.old }
    ensures made { OnOk result (schedule_of world.new making.new ≡ tries_all world.old.doc (gathered (λ l. Frame host l ∷ Frame host l ∷ []) lanes) (schedule_of world.old making.old)) }
    ensures goes { OnOk result (GoesOn world.old making.old world.new making.new) }
    ensures room { OnOk result (HasRoom world.new making.new) }
    ensures doc { world.new.doc ≡ world.old.doc }
{
    for place in 0..lanes {
        two_frames(world, making, host, place + 1)?;
    }
    Ok(())
}

/// What a round tries of a host.
fn host_round(world: &mut World, making: &mut Making, host: u32) -> Result<(), AllocError>
    requires room { HasRoom world.old making.old }
    ensures made { OnOk result (schedule_of world.new making.new ≡ tries_all world.old.doc (host_events (plan_of world.old.doc) host) (schedule_of world.old making.old)) }
    ensures goes { OnOk result (GoesOn world.old making.old world.new making.new) }
    ensures room { OnOk result (HasRoom world.new making.new) }
    ensures doc { world.new.doc ≡ world.old.doc }
{
    let procs = world.procs_of(host)?;
    let lanes = world.lanes_of(host)?;
    steps(world, making, host, procs)?;
    frames(world, making, host, lanes)?;
    Ok(())
}

/// What a round tries of the first so many hosts.
fn hosts_round(world: &mut World, making: &mut Making, hosts: u32) -> Result<(), AllocError>
    requires room { HasRoom world.old making.old }
    ensures made { OnOk result (schedule_of world.new making.new ≡ tries_all world.old.doc (gathered (host_events (plan_of world.old.doc)) hosts) (schedule_of world.old making.old)) }
    ensures goes { OnOk result (GoesOn world.old making.old world.new making.new) }
    ensures room { OnOk result (HasRoom world.new making.new) }
    ensures doc { world.new.doc ≡ world.old.doc }
{
    for host in 0..hosts {
        host_round(world, making, host)?;
    }
    Ok(())
}

/// A round: the hosts, then the connections.
fn round(world: &mut World, making: &mut Making, budget: u32) -> Result<(), AllocError>
    requires room { HasRoom world.old making.old }
    ensures made { OnOk result (schedule_of world.new making.new ≡ goes_round world.old.doc budget (schedule_of world.old making.old)) }
    ensures goes { OnOk result (GoesOn world.old making.old world.new making.new) }
    ensures room { OnOk result (HasRoom world.new making.new) }
    ensures doc { world.new.doc ≡ world.old.doc }
{
    let hosts = world.hosts()?;
    let conns = world.conns()?;
    hosts_round(world, making, hosts)?;
    all_connect(world, making, conns, budget)?;
    Ok(())
}

/// Rounds until one keeps nothing; at most so many.
fn rounds(world: &mut World, making: &mut Making, budget: u32, most: u64) -> Result<(), AllocError>
    requires room { HasRoom world.old making.old }
    ensures made { OnOk result (schedule_of world.new making.new ≡ goes_rounds world.old.doc budget most (schedule_of world.old making.old)) }
    ensures goes { OnOk result (GoesOn world.old making.old world.new making.new) }
    ensures room { OnOk result (HasRoom world.new making.new) }
    ensures doc { world.new.doc ≡ world.old.doc }
{
    for _ in 0..most {
        let before = making.events.len();
        round(world, making, budget)?;
        if making.events.len() == before {
            return Ok(());
        }
    }
    Ok(())
}

impl World {
    /// Lets the hosts take turns until nothing changes, or until there were so many events, and answers these events: the
    /// canonical schedule. `AllocError` where memory ran out; it isn't told then how many of the events happened.
    pub fn canonical(&mut self, budget: u32) -> Result<EventList, AllocError>
        requires more { self.old.count + budget < 2 ^ 64 }
        ensures list { IfOk result (λ events. IsCanonical scheme (plan_of self.old.doc) budget (world_of self.old) (map meant events)) }
        ensures ok { IfOk result (λ events. world_of self.new ≡ run scheme (plan_of self.old.doc) (world_of self.old) (map meant events)) }
        // Of a world as setup makes it, messages are delivered only where the rules hold.
        ensures lawful { IfOk result (λ events. IsFresh self.old → Lawful scheme (plan_of self.old.doc) (start_of self.old.doc) (map meant events)) }
        // Messages in hand have spellings all through.
        ensures spelled { IfOk result (λ events. AreSpelledAfter (plan_of self.old.doc) (world_of self.old) (map meant events)) }
        ensures doc { self.new.doc ≡ self.old.doc }
        ensures count { IfOk result (λ events. self.new.count ≡ self.old.count + length events) }
    {
        let alloc = self.memory();
        self.hands();
        let mut making = Making {
            events: EventList::new(alloc),
            left: budget,
        };
        let most = u64::from(budget) + 1;
        rounds(self, &mut making, budget, most)?;
        Ok(making.events)
    }
}
