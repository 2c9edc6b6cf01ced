//! A take from a mailbox of the own host.

ghost use Rattle.std.specs.Prelude.{◌≡◌, ◌<◌, ◌∷◌, ◌==◌, [], Option};
ghost use Rattle.ds_label.specs.declared.rule.Rule.TheVariants as rules;
ghost use Rattle.ds_label.specs.Numbers.{by_number};
ghost use Rattle.ds_msg.specs.declared.message.Message.{Message};
ghost use Rattle.ds_model.specs.World.{Process};
ghost use Rattle.ds_model.specs.Plan.{HostPlan};
ghost use Rattle.ds_model.specs.FirstRule.{first_rule, unless};
ghost use Rattle.ds_model.specs.ProcessRules.{may_take};
ghost use Rattle.ds_model.specs.ProcessStep.{box_of, take_from, take_rule};
ghost use Rattle.ds_actor.specs.Sites.{with_site};
ghost use Rattle.ds_actor.specs.Seen.{UnderTables, process_of};
ghost use Rattle.ds_actor.specs.Asks.{IsAsked, IsAskInRange};
ghost use Rattle.ds_actor.specs.Asking.{SendsNothing};

use crate::ask::ProcessAsk;
use crate::site::Site;
use ds_label::{LocalLabel, Rule};
use ds_monitor::Monitor;
use ds_script::Proc;

/// The rule by which a process may not take from a mailbox with this owner and label: `NoBox` where it isn't the owner, then
/// `NotFlowToTaker`.
fn refusal(process: &Proc, index: u32, owner: u32, label: &LocalLabel) -> Option<Rule>
    ensures { result ≡ first_rule (unless (index == owner) rules.NoBox
        ∷ may_take by_number label.now process.now.process.label process.now.process.own ∷ []) }
{
    if index != owner {
        return Some(Rule::NoBox);
    }
    if let Err(rule) = process.may_take(label) {
        return Some(rule);
    }
    None
}

/// What a process asks that takes from the mailbox with this slot. Takes no memory.
pub(crate) fn ask_take<S: Site>(
    site: &S,
    index: u32,
    process: &Proc,
    reg: u8,
    slot: u32,
) -> ProcessAsk
    requires { reg < 8 }
    ensures sends_nothing { SendsNothing result }
    ensures range { IsAskInRange (S.seen site.now) result }
    ensures asked { UnderTables (S.seen site.now).here (S.seen site.now).boxes process.now.process (λ rows.
        (plan : HostPlan) (hand : Option Message) (y : Process) → let q = with_site (S.seen site.now) rows plan in
        let x = process_of (S.seen site.now).here rows hand process.now.process in
        IsAsked (S.seen site.now).here rows x y result (take_from x reg slot (box_of q slot) (take_rule q index x (box_of q slot)))) }
{
    let Some(place) = site.box_with(slot) else {
        return ProcessAsk::Refused(Rule::NoBox);
    };
    let owner = site.box_owner(place);
    if let Some(rule) = refusal(process, index, owner, site.box_label(place)) {
        return ProcessAsk::Refused(rule);
    }
    ProcessAsk::TakeFrom { place, reg, slot }
}
