//! Last stamps of actors and objects, and how many entries of each object are taken.

ghost use Rattle.std.specs.Prelude.{◌≡◌, ◌<◌, ◌^◌, ◌-◌, ◌+◌, OnOk, if◌then◌else◌};
ghost use Rattle.ds_script.specs.declared.actor.Actor.{Actor as Who};
ghost use Rattle.ds_merge.specs.declared.kept.ObjectName.{ObjectName as Name};
ghost use Rattle.ds_merge.specs.Standing.{same_name};
ghost use Rattle.ds_merge.specs.Tables.{seen, at_start, one_more};

use crate::kept::ObjectName;
use crate::recorded::Recorded;
use ds_script::Actor;
use std::alloc::{AllocError, Global};
use std::collections::BTreeMap;

/// How far a walk has come: of each actor the last stamp, of each object the last stamp and how many of its entries are taken.
/// What a table has no entry for is 0. Contracts see three functions.
#[derive(Drop)]
pub(crate) struct Tables {
    actors: BTreeMap<Actor, u64>,
    objects: BTreeMap<ObjectName, u64>,
    counts: BTreeMap<ObjectName, usize>,
}

impl Tables {
    /// Nothing is taken. Takes no memory.
    pub(crate) fn new(alloc: Global) -> Tables
        ensures { seen result ≡ at_start }
    {
        Tables {
            actors: BTreeMap::new(alloc),
            objects: BTreeMap::new(alloc),
            counts: BTreeMap::new(alloc),
        }
    }

    /// The actor's last stamp.
    pub(crate) fn actor_last(&self, who: Actor) -> u64
        ensures { result ≡ (seen self.now).actor_last who }
    {
        self.actors.get(&who).copied().unwrap_or(0)
    }

    /// The object's last stamp.
    pub(crate) fn object_last(&self, name: ObjectName) -> u64
        ensures { result ≡ (seen self.now).object_last name }
    {
        self.objects.get(&name).copied().unwrap_or(0)
    }

    /// How many entries of the object are taken.
    pub(crate) fn taken(&self, name: ObjectName) -> usize
        ensures { result ≡ (seen self.now).taken name }
    {
        self.counts.get(&name).copied().unwrap_or(0)
    }

    /// Takes one event more. `AllocError` where memory runs out.
    pub(crate) fn take(&mut self, event: &Recorded) -> Result<(), AllocError>
        requires { (name : Name) → (seen self.old).taken name < 2 ^ 64 - 1 }
        ensures { OnOk result (seen self.new ≡ one_more event.now (seen self.old)) }
    {
        self.actors.insert(event.who, event.stamp)?;
        match &event.touched {
            None => Ok(()),
            Some(kept) => {
                self.take_entry(kept.object, event.stamp)?;
                Ok(())
            }
        }
    }

    /// Takes one entry more of the object. `AllocError` where memory runs out.
    fn take_entry(&mut self, name: ObjectName, stamp: u64) -> Result<(), AllocError>
        requires { (seen self.old).taken name < 2 ^ 64 - 1 }
        ensures actors { OnOk result ((who : Who) → (seen self.new).actor_last who ≡ (seen self.old).actor_last who) }
        ensures objects { OnOk result ((other : Name) →
            (seen self.new).object_last other ≡ (if same_name name other then stamp else (seen self.old).object_last other)) }
        ensures counts { OnOk result ((other : Name) →
            (seen self.new).taken other ≡ (if same_name name other then (seen self.old).taken other + 1 else (seen self.old).taken other)) }
    {
        let count = self.taken(name);
        self.objects.insert(name, stamp)?;
        self.counts.insert(name, count + 1)?;
        Ok(())
    }
}
