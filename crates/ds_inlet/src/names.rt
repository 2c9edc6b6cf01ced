//! The names of a host's inlets.

ghost use Rattle.std.specs.Prelude.{◌≡◌, ◌<◌, ◌-◌, ◌^◌, ◌++◌, [], ◌∷◌, length, option_copied, slice_get, IfOk, IfSome, OnOk, OnErr};
ghost use Rattle.ds_inlet.specs.Hosts.{inlet_at};

use ds_cert::LaneCert;
use ds_label::PubKey;
use std::alloc::{AllocError, Global};
use std::marker::Model;

/// The name of an inlet: the exporter and the number of its lane.
#[derive(Debug, Drop)]
pub struct InletName {
    /// The exporter's key.
    pub exporter: PubKey,
    /// The lane's number there.
    pub lane: u32,
}

impl Model for InletName {
    ghost use Rattle.ds_model.specs.Scheme.{InletName as Name};

    ghost Value = { Name };

    ghost view = { λ n. record { exporter = n.exporter; lane = n.lane } };
}

impl InletName {
    /// An equal name. Takes no memory.
    fn copy(&self) -> InletName
        ensures { result ≡ self.now }
    {
        InletName {
            exporter: self.exporter,
            lane: self.lane,
        }
    }
}

/// The names of a host's inlets, in their order: fewer than `2^32`. Contracts see the list.
#[derive(Debug, Drop)]
pub struct InletNames {
    names: Vec<InletName>,
}

impl Model for InletNames {
    ghost use Rattle.std.specs.Prelude.{List, length, ◌<◌, ◌^◌};
    ghost use Rattle.ds_model.specs.Scheme.{InletName as NameSeen};

    ghost Value = { List NameSeen };

    ghost view = { λ l. l.names.items };

    ghost invariant = { λ l. length l.names.items < 2 ^ 32 };
}

impl InletNames {
    /// None. It takes no memory.
    pub fn new(alloc: Global) -> InletNames
        ensures { result ≡ [] }
    {
        InletNames {
            names: Vec::new(alloc),
        }
    }

    /// How many there are.
    pub fn len(&self) -> usize
        ensures count { result ≡ length self.now }
        ensures limit { length self.now < 2 ^ 32 }
    {
        self.names.len()
    }

    /// The name at a place, from 0.
    pub fn get(&self, place: usize) -> Option<&InletName>
        ensures { option_copied result ≡ slice_get self.now place }
    {
        self.names.get(place)
    }

    /// An equal list. `AllocError` where memory runs out.
    pub fn copy(&self) -> Result<InletNames, AllocError>
        ensures { IfOk result (λ names. names ≡ self.now) }
    {
        let _fewer = self.len();
        Ok(InletNames {
            names: copies_of(*self.names.allocator(), self.names.as_slice())?,
        })
    }

    /// Appends one. After `AllocError`, which says that memory ran out, nothing changed.
    pub fn push(&mut self, name: InletName) -> Result<(), AllocError>
        requires { length self.old < 2 ^ 32 - 1 }
        ensures ok { OnOk result (self.new ≡ self.old ++ name ∷ []) }
        ensures err { OnErr result (self.new ≡ self.old) }
    {
        self.names.push(name)?;
        Ok(())
    }

    /// The place of the inlet for a lane, from 0; none where there is no such inlet.
    pub fn find(&self, lane: &LaneCert) -> Option<u32>
        ensures place { result ≡ inlet_at self.now lane.now }
        ensures within { IfSome result (λ place. place < length self.now) }
    {
        let place = place_of(&self.names, lane)?;
        Some(place as u32)
    }
}

/// Equal names. `AllocError` where memory runs out.
fn copies_of(alloc: Global, names: &[InletName]) -> Result<Vec<InletName>, AllocError>
    ensures { IfOk result (λ copies. copies.items ≡ names.now) }
{
    let mut copies = Vec::with_capacity(alloc, names.len())?;
    for name in names {
        copies.push(name.copy())?;
    }
    Ok(copies)
}

/// The place of the name for a lane.
fn place_of(names: &[InletName], lane: &LaneCert) -> Option<usize>
    ensures place { result ≡ inlet_at names.now lane.now }
    ensures within { IfSome result (λ place. place < length names.now) }
{
    names
        .iter()
        .position(|n| n.exporter == lane.exporter && n.lane == lane.lane)
}
