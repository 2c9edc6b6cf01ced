//! What holds of every document's setup. The functions do nothing: their contracts are the laws.

ghost use Rattle.ds_plan.specs.declared.doc.Doc.{Doc};
ghost use Rattle.ds_setup.specs.Events.{EachHasARun, EachHasOneRun};
ghost use Rattle.ds_setup.specs.Setups.{ConnsAreInOrder, EachIssuesInOrder, EachLaneIsReceived, EachSetupFits, SilentDesksAreEmpty};

/// Setup sees to what both theorems about runs ask of it, for every document that was read.
pub fn setups_fit()
    ensures { EachSetupFits }
{}

/// A running host to which a lane leads is that lane's receiver: it reads all that the lane writes.
pub fn lanes_are_received()
    ensures { EachLaneIsReceived }
{}

/// Each lane has one connection, the lanes of all hosts in order, and the links stand behind them.
pub fn connections_are_in_order()
    ensures { (d : Doc) → ConnsAreInOrder d }
{}

/// A running host's desk begins with the document's delegations that the host signs, in order, and a silent host's with
/// nothing.
pub fn desks_begin_so()
    ensures issued { EachIssuesInOrder }
    ensures silent { SilentDesksAreEmpty }
{}

/// A document's run has the events that the document gives, or else those of the canonical schedule: there is one list
/// of them, and one alone.
pub fn runs_are_one()
    ensures some { EachHasARun }
    ensures one { EachHasOneRun }
{}
