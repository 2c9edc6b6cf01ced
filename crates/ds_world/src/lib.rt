//! The hosts of a document in a run: each event, and runs of them, are the plain world's.
#![tactic(auto)]

mod acting;
mod apart;
mod arriving;
mod connecting;
mod counting;
mod injecting;
mod parts;
mod reading;
mod route;
mod scheduling;
mod stepping;
mod world;

pub use parts::{LinkList, WorldParts};
pub use route::{Feed, Route, RouteList};
pub use world::World;
