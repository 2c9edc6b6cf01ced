//! The headline: what is promised of every list of events, at this repository's signatures, chains and spelling.
#![tactic(auto)]

ghost use Rattle.ds_noninterference.specs.Law.{SameProcesses, SameHosts, SameSections};
ghost use Rattle.ds_scheme.specs.Premises.{AfterBoth, IsDeliveredLawfully};
ghost use Rattle.ds_headline.specs.Headline.{FiveChecks, OwnersAct, OwnersRelease, TwoWaysIn};

use ds_delivery::{each_is_put, five_checks};
use ds_noninterference::only_owners_release;
use ds_scheme::{delivered_lawfully, two_runs};

/// What is promised of every list of events. It computes nothing: its contract is the promise.
///
/// Messages are delivered only where the rules hold: what gets into a mailbox met the rules of its process, of both exporters and
/// of the mailbox, each judged at its own moment, by valid certificates. And what is secret stays in: for each secrecy category,
/// two runs with equal outside events and equal releases look the same to everyone outside it, while the exporters that are
/// trusted for it obey and no signature is forged; only owners release.
pub fn headline()
    // Each message that gets into a mailbox was delivered lawfully, and there are two ways in.
    ensures delivered { IsDeliveredLawfully }
    ensures ways { TwoWaysIn }
    // What each event makes of a message: it goes on, or the first rule that fails stops it.
    ensures checks { FiveChecks }
    // At the end of both runs each process that isn't high has equal views, each host that isn't trusted, and each section of the
    // printed text that isn't high.
    ensures processes { AfterBoth SameProcesses }
    ensures hosts { AfterBoth SameHosts }
    ensures outside { AfterBoth SameSections }
    // Only owners release: a message without the category, or the public state of a host.
    ensures releases { OwnersRelease }
    ensures acts { OwnersAct }
{
    delivered_lawfully();
    two_runs();
    each_is_put();
    five_checks();
    only_owners_release();
}
