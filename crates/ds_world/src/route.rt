//! Where connections lead.

/// Whose stream a connection reads.
#[derive(Clone, Copy, Debug, PartialEq, Eq)]
pub enum Feed {
    /// An outsider's link.
    Link,
    /// The lane of a host.
    Lane {
        /// The host's place.
        host: u32,
        /// The lane's place on its host, from 0.
        lane: u32,
    },
}

/// Where a connection leads, and what it reads.
#[derive(Clone, Copy, Debug, PartialEq, Eq)]
pub struct Route {
    /// The host's place.
    pub host: u32,
    /// The connection's place among those to that host.
    pub place: u32,
    /// Whose stream it reads.
    pub source: Feed,
}

/// All connections, by their numbers.
pub type RouteList = Vec<Route>;
