//! The delegations that a host made.
#![tactic(auto)]

ghost use Rattle.std.specs.Prelude.{◌≡◌, ◌≤◌, ◌<◌, ◌++◌, ◌↔◌, [], ◌∷◌, length, slice_get, option_copied, IfOk, IsOk, IsTrue, OnOk, OnErr};

use ds_cert::Delegation;
use std::alloc::{AllocError, Global};
use std::marker::Model;

/// The delegations that a host made, in order. There may be any number, and equal ones. Contracts see the list, and whether
/// there is room for one more (`spare`, 0 or 1).
#[derive(Debug, Drop)]
pub struct IssuedList {
    certs: Vec<Delegation>,
}

impl Model for IssuedList {
    ghost use Rattle.std.specs.Prelude.{◌-◌, min, vec_len, vec_capacity};
    ghost use Rattle.ds_chain.specs.Stored.{Stored};
    ghost use Rattle.ds_cert.specs.declared.delegation.Delegation.{Delegation};

    ghost Value = { Stored Delegation };

    ghost view = { λ l. record { items = l.certs.items; spare = min 1 (vec_capacity l.certs - vec_len l.certs) } };
}

impl IssuedList {
    /// No delegation. Takes no memory.
    pub fn new(alloc: Global) -> IssuedList
        ensures { result.items ≡ [] }
    {
        IssuedList {
            certs: Vec::new(alloc),
        }
    }

    /// How many delegations there are.
    pub fn len(&self) -> usize
        ensures { result ≡ length self.now.items }
    {
        self.certs.len()
    }

    /// Whether there is none.
    pub fn is_empty(&self) -> bool
        ensures { IsTrue result ↔ (self.now.items ≡ []) }
    {
        self.certs.as_slice().is_empty()
    }

    /// The delegation at a place, from 0.
    pub fn get(&self, place: usize) -> Option<&Delegation>
        ensures { option_copied result ≡ slice_get self.now.items place }
    {
        self.certs.get(place)
    }

    /// The delegations, in order.
    pub fn as_slice(&self) -> &[Delegation]
        ensures { result.now ≡ self.now.items }
    {
        self.certs.as_slice()
    }

    /// Makes room for one delegation. After `AllocError`, which says that memory ran out, the delegations are the same.
    pub fn reserve(&mut self) -> Result<(), AllocError>
        ensures same { self.new.items ≡ self.old.items }
        ensures room { OnOk result (self.new.spare ≡ 1) }
        ensures kept { self.old.spare ≤ self.new.spare }
    {
        self.certs.reserve(1)
    }

    /// Adds a delegation behind the others. `AllocError` comes where memory runs out, which it can't after `reserve`; nothing
    /// changed then.
    pub fn push(&mut self, cert: Delegation) -> Result<(), AllocError>
        ensures ok { OnOk result (self.new.items ≡ self.old.items ++ cert ∷ []) }
        ensures reserved { 0 < self.old.spare → IsOk result }
        ensures err { OnErr result (self.new.items ≡ self.old.items) }
    {
        self.certs.reserve(1)?;
        self.certs.push_reserved(cert);
        Ok(())
    }

    /// Adds a delegation behind the others, where there is room. Takes no memory.
    pub(crate) fn push_reserved(&mut self, cert: Delegation)
        requires { 0 < self.old.spare }
        ensures { self.new.items ≡ self.old.items ++ cert ∷ [] }
    {
        self.certs.push_reserved(cert);
    }

    /// An equal list. `AllocError` where memory runs out.
    pub fn copy(&self) -> Result<IssuedList, AllocError>
        ensures { IfOk result (λ l. l.items ≡ self.now.items) }
    {
        Ok(IssuedList {
            certs: copies_of(*self.certs.allocator(), self.certs.as_slice())?,
        })
    }

    /// The allocator that the list came with.
    pub(crate) fn allocator(&self) -> Global {
        *self.certs.allocator()
    }
}

/// Equal delegations. `AllocError` where memory runs out.
fn copies_of(alloc: Global, certs: &[Delegation]) -> Result<Vec<Delegation>, AllocError>
    ensures { IfOk result (λ copies. copies.items ≡ certs.now) }
{
    let mut copies = Vec::with_capacity(alloc, certs.len())?;
    for cert in certs {
        copies.push(cert.copy()?)?;
    }
    Ok(copies)
}
