//! The rules by which an event is refused.

ghost use Rattle.std.specs.Prelude.{◌≡◌};

use crate::category::Category;
use thiserror::Error;

/// The rules by which an event is refused. Three say at which category. As an error its text is its name.
#[derive(Clone, Copy, Debug, PartialEq, Eq, Error)]
pub enum Rule {
    /// The process's label doesn't flow to the message's label under its ownership.
    #[error("NotFlow")]
    NotFlow,
    /// A granted ownership isn't owned.
    #[error("GrantNotOwned")]
    GrantNotOwned,
    /// A granted clearance is neither held nor owned.
    #[error("ClearNotHeld")]
    ClearNotHeld,
    /// The host has no lane to that exporter with exactly the message's label.
    #[error("NoLane")]
    NoLane,
    /// No Good address certificate of that exporter is valid now.
    #[error("NoAddress")]
    NoAddress,
    /// The first secrecy category of the message for which the receiving exporter doesn't hold.
    #[error("PeerNotTrusted")]
    PeerNotTrusted(Category),
    /// The lane's waiting list is full.
    #[error("LaneFull")]
    LaneFull,
    /// The lane certificate isn't valid at the receiver's moment.
    #[error("LaneLapsed")]
    LaneLapsed,
    /// The message is for another exporter.
    #[error("WrongHost")]
    WrongHost,
    /// The message's label isn't the lane certificate's label.
    #[error("WrongLabel")]
    WrongLabel,
    /// The first integrity, then owned, then clearance category of the message for which the sending exporter doesn't hold.
    #[error("SenderNotTrusted")]
    SenderNotTrusted(Category),
    /// The first category that is neither home nor mapped.
    #[error("NotKnown")]
    NotKnown(Category),
    /// There is no such mailbox, or, for a take, it isn't the process's own.
    #[error("NoBox")]
    NoBox,
    /// The message's label doesn't flow to the mailbox's label.
    #[error("NotFlowToBox")]
    NotFlowToBox,
    /// The mailbox is full.
    #[error("BoxFull")]
    BoxFull,
    /// The mailbox's label doesn't flow to the process's label under its ownership.
    #[error("NotFlowToTaker")]
    NotFlowToTaker,
    /// The label may not be changed so.
    #[error("LabelRefused")]
    LabelRefused,
    /// A secrecy category of the process's label isn't owned by it.
    #[error("NotPublic")]
    NotPublic,
    /// A process delegates a category that it doesn't own.
    #[error("NotHeld")]
    NotHeld,
    /// The identity key has no leaf left.
    #[error("KeySpent")]
    KeySpent,
    /// The bytes aren't a delegation or address certificate, or its signature isn't Good.
    #[error("BadCert")]
    BadCert,
    /// The desk keeps as many certificates of that kind as it may.
    #[error("StoreFull")]
    StoreFull,
    /// The mapping table has as many rows as it may.
    #[error("TableFull")]
    TableFull,
    /// A join would exceed 16,384 bytes.
    #[error("TooLong")]
    TooLong,
    /// A label, ownership or clearance would get a 65th member, or no further category can be made.
    #[error("TooMany")]
    TooMany,
    /// The frame's number isn't above the inlet's last.
    #[error("Stale")]
    Stale,
}

impl Rule {
    ghost use Rattle.ds_label.specs.Rules.{rule_number, rule_name};

    /// The rule's number, from 1 to 26.
    pub fn number(&self) -> u8
        ensures { result ≡ rule_number self.now }
    {
        match self {
            Rule::NotFlow => 1,
            Rule::GrantNotOwned => 2,
            Rule::ClearNotHeld => 3,
            Rule::NoLane => 4,
            Rule::NoAddress => 5,
            Rule::PeerNotTrusted(_) => 6,
            Rule::LaneFull => 7,
            Rule::LaneLapsed => 8,
            Rule::WrongHost => 9,
            Rule::WrongLabel => 10,
            Rule::SenderNotTrusted(_) => 11,
            Rule::NotKnown(_) => 12,
            Rule::NoBox => 13,
            Rule::NotFlowToBox => 14,
            Rule::BoxFull => 15,
            Rule::NotFlowToTaker => 16,
            Rule::LabelRefused => 17,
            Rule::NotPublic => 18,
            Rule::NotHeld => 19,
            Rule::KeySpent => 20,
            Rule::BadCert => 21,
            Rule::StoreFull => 22,
            Rule::TableFull => 23,
            Rule::TooLong => 24,
            Rule::TooMany => 25,
            Rule::Stale => 26,
        }
    }

    /// The rule's name, as it is printed.
    pub fn name(&self) -> &'static str
        ensures { result.now ≡ rule_name self.now }
    {
        match self {
            Rule::NotFlow => "NotFlow",
            Rule::GrantNotOwned => "GrantNotOwned",
            Rule::ClearNotHeld => "ClearNotHeld",
            Rule::NoLane => "NoLane",
            Rule::NoAddress => "NoAddress",
            Rule::PeerNotTrusted(_) => "PeerNotTrusted",
            Rule::LaneFull => "LaneFull",
            Rule::LaneLapsed => "LaneLapsed",
            Rule::WrongHost => "WrongHost",
            Rule::WrongLabel => "WrongLabel",
            Rule::SenderNotTrusted(_) => "SenderNotTrusted",
            Rule::NotKnown(_) => "NotKnown",
            Rule::NoBox => "NoBox",
            Rule::NotFlowToBox => "NotFlowToBox",
            Rule::BoxFull => "BoxFull",
            Rule::NotFlowToTaker => "NotFlowToTaker",
            Rule::LabelRefused => "LabelRefused",
            Rule::NotPublic => "NotPublic",
            Rule::NotHeld => "NotHeld",
            Rule::KeySpent => "KeySpent",
            Rule::BadCert => "BadCert",
            Rule::StoreFull => "StoreFull",
            Rule::TableFull => "TableFull",
            Rule::TooLong => "TooLong",
            Rule::TooMany => "TooMany",
            Rule::Stale => "Stale",
        }
    }
}
