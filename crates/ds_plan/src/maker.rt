//! What hosts may have made.

use crate::list::PartList;

/// What a host may have made when a document starts: a silent host any category, a running one so many with each of its
/// processes.
#[derive(Debug, Drop)]
pub enum Maker {
    /// Any category.
    Anything,
    /// So many categories with each process.
    Processes(PartList<u32>),
}
