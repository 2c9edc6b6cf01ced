//! Chains of certificates. A category's creator holds it. A certificate that counts makes the key that it names a holder
//! where the key that signed it is one. A chain is the list of certificates that leads from the creator to a holder.
//!
//! [`CertList`] and [`AddressList`] keep the certificates of a host, [`search`] finds the chain to a key. A [`CertBook`] is a
//! list with an index and a cache, whose own search gives the same chains sooner.
#![tactic(auto)]

mod address_list;
mod cert_book;
mod cert_list;
mod chain;
mod delegated;
mod distance;
mod edge;
mod edge_list;
mod fault;
mod key_search;
mod laws;
mod numbers;
mod place_index;
mod question;
mod walk;

pub use address_list::AddressList;
pub use cert_book::CertBook;
pub use cert_list::CertList;
pub use chain::Chain;
pub use delegated::{holds, search};
pub use edge::Edge;
pub use edge_list::EdgeList;
pub use fault::{ADDRESS_LIMIT, CERT_LIMIT, ListFault};
pub use laws::{chain_laws, delegation_laws};
