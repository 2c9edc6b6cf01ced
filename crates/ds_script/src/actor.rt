//! Who makes an event.

/// The kinds of actors, in their order.
#[derive(Clone, Copy, Debug, PartialEq, Eq, PartialOrd, Ord)]
pub enum ActorKind {
    /// A host's clock.
    Clock,
    /// A process.
    Proc,
    /// The worker of a lane.
    Lane,
    /// The worker of a connection.
    Conn,
}

/// Who makes an event. Actors order by kind, then by host, then by index.
#[derive(Clone, Copy, Debug, PartialEq, Eq, PartialOrd, Ord)]
pub struct Actor {
    /// What it is.
    pub kind: ActorKind,
    /// The host's place in the document.
    pub host: u32,
    /// A process's place on its host, a lane's number or a connection's number; 0 for a clock.
    pub index: u32,
}
