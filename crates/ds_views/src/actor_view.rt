//! Views.
#![tactic(auto)]

ghost use Rattle.std.specs.Prelude.{◌≡◌};

use ds_chain::{AddressList, CertList};
use ds_desk::IssuedList;
use ds_label::Label;
use ds_plan::CategoryList;
use ds_script::{BytesList, NoteList};
use std::marker::Model;

/// What a process sees of a run: its label, its registers and its notes. Contracts see it as the plain world has it.
#[derive(Debug, Drop)]
pub struct ProcView {
    pub(crate) label: Label,
    pub(crate) registers: BytesList,
    pub(crate) notes: NoteList,
}

impl Model for ProcView {
    ghost use Rattle.ds_model.specs.Views.{ProcView as PlainProcView};

    ghost Value = { PlainProcView };

    ghost view = { λ v. record { label = v.label; registers = v.registers; notes = v.notes } };
}

impl ProcView {
    /// The label, by the names of its categories.
    pub fn label(&self) -> &Label
        ensures { result.now ≡ self.now.label }
    {
        &self.label
    }

    /// The bytes of the eight registers, by their numbers.
    pub fn registers(&self) -> &BytesList
        ensures { result.now ≡ self.now.registers }
    {
        &self.registers
    }

    /// The notes, in order.
    pub fn notes(&self) -> &NoteList
        ensures { result.now ≡ self.now.notes }
    {
        &self.notes
    }
}

/// What a host sees of a run: its public state, and the bytes that arrived at each connection to it. Contracts see it as the plain
/// world has it. A silent host's public state is empty.
#[derive(Debug, Drop)]
pub struct HostView {
    pub(crate) moment: u64,
    pub(crate) rows: CategoryList,
    pub(crate) store: CertList,
    pub(crate) addresses: AddressList,
    pub(crate) issued: IssuedList,
    pub(crate) leaf: u32,
    pub(crate) arrived: BytesList,
}

impl Model for HostView {
    ghost use Rattle.ds_model.specs.Views.{HostView as PlainHostView};

    ghost Value = { PlainHostView };

    ghost view = { λ v. record {
      moment = v.moment;
      rows = v.rows;
      store = v.store.items;
      addresses = v.addresses.items;
      issued = v.issued.items;
      leaf = v.leaf;
      arrived = v.arrived;
    } };
}

impl HostView {
    /// The moment, in seconds.
    pub fn moment(&self) -> u64
        ensures { result ≡ self.now.moment }
    {
        self.moment
    }

    /// The foreign categories that it knows, one a row of its table.
    pub fn rows(&self) -> &CategoryList
        ensures { result.now ≡ self.now.rows }
    {
        &self.rows
    }

    /// The delegations that it keeps.
    pub fn store(&self) -> &CertList
        ensures { result.now.items ≡ self.now.store }
    {
        &self.store
    }

    /// The address certificates that it keeps.
    pub fn addresses(&self) -> &AddressList
        ensures { result.now.items ≡ self.now.addresses }
    {
        &self.addresses
    }

    /// The delegations that it made.
    pub fn issued(&self) -> &IssuedList
        ensures { result.now.items ≡ self.now.issued }
    {
        &self.issued
    }

    /// The next leaf of its identity key.
    pub fn leaf(&self) -> u32
        ensures { result ≡ self.now.leaf }
    {
        self.leaf
    }

    /// The bytes that arrived at each connection to the host, by the connections' numbers.
    pub fn arrived(&self) -> &BytesList
        ensures { result.now ≡ self.now.arrived }
    {
        &self.arrived
    }
}

/// What an actor sees of a run.
#[derive(Debug, Drop)]
pub enum View {
    /// What a process sees.
    Proc(ProcView),
    /// What a host sees, for its clock.
    Host(HostView),
}
