//! One host of a run.
#![tactic(auto)]

use ds_exporter::{ConnList, Exporter};

/// A host of a run.
#[derive(Drop)]
pub enum Node {
    /// A host with an exporter.
    Running(Exporter),
    /// A silent host, for which outsiders act: the connections to it, of which nobody reads anything.
    Silent(ConnList),
}

/// The hosts of a run, by their places in the document.
pub type NodeList = Vec<Node>;
