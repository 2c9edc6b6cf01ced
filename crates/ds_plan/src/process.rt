//! Processes and mailboxes of a document.

use crate::list::PartList;
use ds_label::Label;
use ds_script::OpList;

/// A process.
#[derive(Debug, Drop)]
pub struct ProcSpec {
    /// How many categories it has made, at most 2,147,483,647.
    pub made: u32,
    /// Its label.
    pub label: Label,
    /// What it owns.
    pub own: Label,
    /// Its clearance.
    pub clear: Label,
    /// Its script.
    pub script: OpList,
}

/// A list of processes.
pub type ProcSpecList = PartList<ProcSpec>;

/// A mailbox.
#[derive(Debug, Drop)]
pub struct BoxSpec {
    /// The number by which a send and a take name it.
    pub slot: u32,
    /// The place of the process that takes from it.
    pub owner: u32,
    /// Its label.
    pub label: Label,
    /// How many messages may wait, 1 to 256.
    pub room: u32,
}

/// A list of mailboxes.
pub type BoxSpecList = PartList<BoxSpec>;
