//! A place where a run can be held.
#![tactic(auto)]

/// What workers pass just before they put a message into a mailbox. A test can hold them there, to choose who comes first.
pub trait Gate: Drop {
    /// Returns once the caller may go on. `spot` is the mailbox's slot. It changes no state of the exporter.
    fn pass(&self, spot: u32);
}

/// A gate that is always open.
#[derive(Clone, Copy, PartialEq, Eq, Debug, Default)]
pub struct NoGate;

impl Gate for NoGate {
    fn pass(&self, _spot: u32) {}
}
