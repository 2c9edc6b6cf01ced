//! A document as it is written: each thing that a rule can blame stands with its place, and names are hosts' places where
//! there are such hosts.

ghost use Rattle.std.specs.Prelude.{◌≡◌};
ghost use Rattle.ds_doc.specs.Names as names;

use ds_cert::Cert;
use ds_label::Kind;
use ds_plan::{PartList, Secret};
use ds_wire::Bytes;
use lms_sig::Params;

/// A value, and its place in the document.
#[derive(Drop)]
pub(crate) struct Placed<T> {
    /// The place.
    pub(crate) at: u32,
    /// The value.
    pub(crate) value: T,
}

/// A host as a name names it.
#[derive(Drop)]
pub(crate) enum HostName {
    /// The first host with that name, by its place among the hosts.
    Known(u32),
    /// No host has that name.
    Unknown(Bytes),
}

/// A category as a name names it.
#[derive(Drop)]
pub(crate) struct CategoryName {
    /// The host that made it.
    pub(crate) host: HostName,
    /// The process that made it.
    pub(crate) process: u32,
    /// Which of the process's categories.
    pub(crate) number: u32,
    /// What it protects.
    pub(crate) kind: Kind,
}

/// Hosts by their names.
pub(crate) type HostNames = PartList<Placed<HostName>>;

/// Categories by their names.
pub(crate) type Categories = PartList<Placed<CategoryName>>;

/// A list that is written, with its place, or none.
pub(crate) type Written<T> = Option<Placed<PartList<T>>>;

/// An operation.
#[derive(Drop)]
pub(crate) enum DraftOp {
    Set {
        reg: u8,
        text: Bytes,
    },
    Join {
        reg: u8,
        left: u8,
        right: u8,
    },
    IfEq {
        left: u8,
        right: u8,
        to: Placed<u32>,
    },
    Jump {
        to: Placed<u32>,
    },
    Print {
        reg: u8,
    },
    Send {
        host: Placed<HostName>,
        slot: u32,
        reg: u8,
        label: Categories,
        own: Categories,
        clear: Categories,
    },
    Take {
        reg: u8,
        slot: u32,
    },
    SetLabel {
        label: Categories,
    },
    NewCat {
        kind: Kind,
    },
    Delegate {
        reg: u8,
        category: Placed<CategoryName>,
        to: Placed<HostName>,
        from: u64,
        until: u64,
    },
    Map {
        category: Placed<CategoryName>,
    },
    Import {
        reg: u8,
    },
}

/// A process.
#[derive(Drop)]
pub(crate) struct DraftProc {
    pub(crate) made: u32,
    pub(crate) label: Categories,
    pub(crate) own: Categories,
    pub(crate) clear: Categories,
    pub(crate) script: PartList<DraftOp>,
}

/// A mailbox.
#[derive(Drop)]
pub(crate) struct DraftBox {
    pub(crate) slot: Placed<u32>,
    pub(crate) owner: Placed<u32>,
    pub(crate) label: Categories,
    pub(crate) room: u32,
}

/// A lane.
#[derive(Drop)]
pub(crate) struct DraftLane {
    pub(crate) at: u32,
    pub(crate) to: Placed<HostName>,
    pub(crate) label: Categories,
    pub(crate) room: u32,
    pub(crate) until: u64,
}

/// An inlet that a host declares.
#[derive(Drop)]
pub(crate) struct DraftInlet {
    pub(crate) at: u32,
    pub(crate) from: Placed<HostName>,
    pub(crate) lane: u32,
}

/// A host.
#[derive(Drop)]
pub(crate) struct DraftHost {
    pub(crate) at: u32,
    pub(crate) name: Placed<Bytes>,
    pub(crate) secret: Placed<Secret>,
    pub(crate) identity: Params,
    pub(crate) lanekey: Params,
    pub(crate) address: Option<Placed<Bytes>>,
    pub(crate) map: Written<Placed<CategoryName>>,
    pub(crate) procs: Written<DraftProc>,
    pub(crate) boxes: Written<DraftBox>,
    pub(crate) lanes: Written<DraftLane>,
    pub(crate) inlets: Written<DraftInlet>,
}

/// A certificate.
#[derive(Drop)]
pub(crate) enum DraftCert {
    Made {
        by: Placed<HostName>,
        category: Placed<CategoryName>,
        to: Placed<HostName>,
        from: u64,
        until: u64,
        at: HostNames,
    },
    Given {
        cert: Placed<Cert>,
        at: HostNames,
    },
}

/// An event.
#[derive(Drop)]
pub(crate) enum DraftEvent {
    Step {
        host: Placed<HostName>,
        index: Placed<u32>,
    },
    Frame {
        host: Placed<HostName>,
        lane: Placed<u32>,
    },
    Arrive {
        conn: Placed<u32>,
        count: u64,
    },
    Accept {
        conn: Placed<u32>,
    },
    Deliver {
        conn: Placed<u32>,
    },
    Tick {
        host: Placed<HostName>,
        to: u64,
    },
    Inject {
        conn: Placed<u32>,
        bytes: Bytes,
    },
    CopyBytes {
        conn: Placed<u32>,
        source: Placed<u32>,
        from: u64,
        until: u64,
    },
}

/// A document.
#[derive(Drop)]
pub(crate) struct Draft {
    pub(crate) hosts: PartList<DraftHost>,
    pub(crate) moment: u64,
    pub(crate) budget: u32,
    pub(crate) certs: PartList<DraftCert>,
    pub(crate) links: HostNames,
    pub(crate) events: Option<PartList<DraftEvent>>,
}

impl HostName {
    /// The place of the host; 4,294,967,295, which no host has, where it is unknown.
    pub(crate) fn number(&self) -> u32
        ensures { result ≡ names.number_of self.now }
    {
        match self {
            HostName::Known(place) => *place,
            HostName::Unknown(_) => u32::MAX,
        }
    }

    /// Whether both name one host, or have one name.
    pub(crate) fn same(&self, other: &HostName) -> bool
        ensures { result ≡ names.same_host self.now other.now }
    {
        match (self, other) {
            (HostName::Known(first), HostName::Known(second)) => *first == *second,
            (HostName::Unknown(first), HostName::Unknown(second)) => {
                first.as_slice() == second.as_slice()
            }
            _ => false,
        }
    }
}

impl CategoryName {
    /// Whether both name one category.
    pub(crate) fn same(&self, other: &CategoryName) -> bool
        ensures { result ≡ names.same_named self.now other.now }
    {
        self.host.same(&other.host)
            && self.process == other.process
            && self.number == other.number
            && self.kind == other.kind
    }
}

/// The items of a list that is written; none where it isn't.
pub(crate) fn items_of<T: Drop>(written: &Written<T>) -> &[T]
    ensures { result.now ≡ names.or_empty written.now }
{
    match written {
        Some(list) => list.value.as_slice(),
        None => &[],
    }
}
