//! The parts of a world.

use crate::route::RouteList;
use ds_hosts::NodeList;
use ds_plan::Doc;
use ds_wire::Bytes;

/// The streams of links, by the connections' numbers; nothing stands where a connection reads a lane.
pub type LinkList = Vec<Bytes>;

/// All that a world is made of.
#[derive(Drop)]
pub struct WorldParts {
    /// The document.
    pub doc: Doc,
    /// Its hosts, in order.
    pub nodes: NodeList,
    /// The streams of the links.
    pub links: LinkList,
    /// Where each connection leads.
    pub routes: RouteList,
    /// How many events there were.
    pub count: u64,
}
