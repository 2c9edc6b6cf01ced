//! What is asked of a shared desk, and what it answers.

ghost use Rattle.std.specs.Prelude.{◌≡◌};
ghost use Rattle.ds_share.specs.declared.desk_act.TurnFault.TheVariants as turn_faults;

use ds_cert::LaneCert;
use ds_label::{Category, Label, LocalLabel, PubKey, Rule};
use ds_msg::{CertBytes, Message};
use ds_wire::Bytes;
use std::alloc::AllocError;
use thiserror::Error;

/// What is asked of a desk: a public act, or a judgement by what the desk keeps.
#[derive(Debug, Drop)]
pub enum DeskAct {
    /// The moment becomes the greater of itself and `to`.
    Tick {
        /// A moment, in seconds.
        to: u64,
    },
    /// A delegation is made and signed.
    Delegate {
        /// The category that it is about.
        category: Category,
        /// The key that may act for it.
        to: PubKey,
        /// The first moment at which it is valid.
        from: u64,
        /// The first moment at which it is no longer valid.
        until: u64,
    },
    /// A delegation or address certificate is kept.
    Import {
        /// Its spelling.
        cert: Bytes,
    },
    /// A category gets a number.
    MapForeign {
        /// The category. Its creator isn't the host, or its number is below `2^62`.
        name: Category,
    },
    /// The desk is read.
    Look,
    /// A process's message to another host is judged.
    JudgeSend {
        /// The number of the lane with its receiver and label, if there is one.
        lane: Option<u32>,
        /// The receiving exporter's key.
        to: PubKey,
        /// The message's label.
        label: Label,
        /// The ownership that it grants.
        own: Label,
        /// The clearance that it grants.
        clear: Label,
    },
    /// A lane's hand is judged before it is framed.
    JudgeFrame {
        /// The lane's receiver.
        to: PubKey,
        /// The lane's label.
        label: Label,
    },
    /// A message that arrived is judged.
    JudgeArrive {
        /// The certificate of the lane on which it arrived.
        lane: LaneCert,
        /// The message.
        message: Message,
    },
}

/// What a desk answers.
#[derive(Debug, Drop)]
pub enum DeskReply {
    /// It is done: a tick, an import or a look.
    Done,
    /// The delegation that was made, spelled.
    Made(Bytes),
    /// The category's number on this host.
    Local(u64),
    /// The send passes, and these certificates go with the message.
    Attached(CertBytes),
    /// The frame passes, and the receiver is reached at this address.
    Found(Bytes),
    /// The arrival passes. The message's label, ownership and clearance in the host's own numbers.
    Named(LocalLabel, LocalLabel, LocalLabel),
    /// A rule refuses it.
    Refused(Rule),
}

/// Why an act isn't done. Nothing is entered then.
#[derive(Clone, Copy, Debug, PartialEq, Eq, Error)]
pub enum TurnFault {
    /// The keeper failed to raise the identity key's mark: its count of faults rose.
    #[error("the keeper failed to raise the mark")]
    KeeperFault,
    /// Memory ran out.
    #[error("out of memory")]
    NoMemory,
}

impl From<AllocError> for TurnFault {
    ghost from_gives = { λ _ e. e ≡ turn_faults.NoMemory };

    fn from(_fault: AllocError) -> TurnFault {
        TurnFault::NoMemory
    }
}
