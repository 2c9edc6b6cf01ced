//! A desk and its history.
#![tactic(auto)]

ghost use Rattle.std.specs.Prelude.{◌≡◌, [], IfOk, OnOk};
ghost use Rattle.lms_sig.specs.Merkle.{public_key};
ghost use Rattle.ds_desk.specs.Desks.{IsKept, kept_of, desk_of, desk_then, last_stamp};

use crate::history::DeskHistory;
use crate::issued::IssuedList;
use crate::opening::DeskOpening;
use ds_chain::{AddressList, CertBook};
use ds_label::PubKey;
use ds_map::MapTable;
use lms_state::Signer;
use std::alloc::AllocError;

/// A host's public state. The type keeps no fact of its own, so that a judge can be lent the store beside the other fields;
/// each call needs that the state is the replay of its history from its opening, that its signer's public key is `here` and
/// that its table was made for `here`, and leaves it so.
#[derive(Drop)]
pub struct DeskState {
    /// The host's key.
    pub here: PubKey,
    /// The moment, in seconds. It never falls.
    pub moment: u64,
    /// The delegations that it keeps.
    pub store: CertBook,
    /// The address certificates that it keeps.
    pub addresses: AddressList,
    /// The delegations that it made.
    pub issued: IssuedList,
    /// Its table of foreign categories.
    pub table: MapTable,
    /// Its identity key, which signs the delegations.
    pub signer: Signer,
    /// The desk as it was when the history began.
    pub opening: DeskOpening,
    /// The entries since.
    pub history: DeskHistory,
}

impl DeskState {
    /// A desk without entries, of the host with this key: the moment in seconds, the certificates that it keeps and those
    /// that it made, its table and its identity key. Its opening is a copy. `AllocError` where memory runs out.
    pub fn new(
        here: PubKey,
        moment: u64,
        store: CertBook,
        addresses: AddressList,
        issued: IssuedList,
        table: MapTable,
        signer: Signer,
    ) -> Result<DeskState, AllocError>
        requires signer { here.0 ≡ public_key signer.key.params signer.key.seed signer.key.id }
        requires table { table.here ≡ here }
        ensures kept { IfOk result IsKept }
        ensures parts { IfOk result (λ s. (s.here ≡ here) × (s.moment ≡ moment)) }
        ensures lists { IfOk result (λ s. (s.store ≡ store) × (s.addresses ≡ addresses) × (s.issued ≡ issued)) }
        ensures whole { IfOk result (λ s. (s.table ≡ table) × (s.signer ≡ signer)) }
        ensures opening { IfOk result (λ s. desk_then s.opening ≡ desk_of s) }
        ensures begins { IfOk result (λ s. (s.opening.before ≡ 0) × (s.history.items ≡ []) × (s.opening.table.here ≡ here)) }
    {
        let alloc = issued.allocator();
        let opening = DeskOpening {
            moment,
            store: store.list().copy()?,
            addresses: addresses.copy()?,
            issued: issued.copy()?,
            table: table.copy()?,
            leaf: signer.next(),
            before: 0,
        };
        Ok(DeskState {
            here,
            moment,
            store,
            addresses,
            issued,
            table,
            signer,
            opening,
            history: DeskHistory::new(alloc),
        })
    }

    /// Makes room for one entry. After `AllocError`, which says that memory ran out, the desk and its history are the same.
    pub fn reserve(&mut self) -> Result<(), AllocError>
        ensures room { OnOk result (self.new.history.spare ≡ 1) }
        ensures same { kept_of self.new ≡ kept_of self.old }
        ensures kept { IsKept self.old → IsKept self.new }
        ensures last { last_stamp self.new ≡ last_stamp self.old }
    {
        self.history.reserve()
    }
}
