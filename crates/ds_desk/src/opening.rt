//! A desk as it was when its history began.
#![tactic(auto)]

use crate::issued::IssuedList;
use ds_chain::{AddressList, CertList};
use ds_map::MapTable;

/// A copy of a desk as it was when its history began.
#[derive(Drop)]
pub struct DeskOpening {
    /// The moment, in seconds.
    pub moment: u64,
    /// The delegations that were kept.
    pub store: CertList,
    /// The address certificates that were kept.
    pub addresses: AddressList,
    /// The delegations that the host had made.
    pub issued: IssuedList,
    /// The table of foreign categories.
    pub table: MapTable,
    /// The identity key's next leaf.
    pub leaf: u32,
    /// The stamp of the last entry before, 0 where there was none.
    pub before: u64,
}
