//! Delivered only where the rules hold: in each run from setup, each message that gets into a mailbox met the rules of its
//! process, of both exporters and of the mailbox, each judged at its own moment, in that order.
#![tactic(auto)]

ghost use Rattle.ds_delivery.specs.Delivered.{DeliveredLawfully};
ghost use Rattle.ds_delivery.specs.Puts.{EachIsPut};
ghost use Rattle.ds_delivery.specs.Checked.{EachChecked};
ghost use Rattle.ds_delivery.specs.Example.{by_lane, by_link, PremisesHold, IsPut};
ghost use Rattle.ds_model.specs.Step.{Deliver};

/// In each run from setup, over a scheme that reads what was written, each message that an event puts into a mailbox was
/// delivered lawfully.
pub fn delivered_lawfully()
    ensures { DeliveredLawfully }
{}

/// Whatever message an event of a run puts into a mailbox, a process of the host puts it there, or a connection does: of
/// these two ways `delivered_lawfully` speaks, and there is no other.
pub fn each_is_put()
    ensures { EachIsPut }
{}

/// The five checks of a message, in every world: at each either a rule fails, and the first one in the check's order stands
/// in a note or an entry, or the message goes on.
pub fn five_checks()
    ensures { EachChecked }
{}

/// Two runs that meet the premises, computed: a letter is delivered from a lane's own connection, and over a link on which
/// an outsider wrote a copy of the lane's stream.
pub fn an_example()
    ensures lane_met { PremisesHold by_lane }
    ensures lane_put { IsPut by_lane (Deliver 0) }
    ensures link_met { PremisesHold by_link }
    ensures link_put { IsPut by_link (Deliver 1) }
{}
