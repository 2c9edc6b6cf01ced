//! The rules of processes, over a host's own numbers.

ghost use Rattle.std.specs.Prelude.{◌≡◌, ◌||◌};
ghost use Rattle.std.specs.Result.{result_err};
ghost use Rattle.ds_label.specs.Numbers.{by_number};
ghost use Rattle.ds_label.specs.Flow.{has};
ghost use Rattle.ds_model.specs.FirstRule.{each_secret};
ghost use Rattle.ds_model.specs.ProcessRules.{may_send, may_take, may_publish, may_relabel, may_make};

use crate::inside::{is_within, is_within_either, secrecy_is_covered, secrecy_is_within};
use ds_label::{LocalLabel, MEMBER_LIMIT, Rule};
use ds_script::Proc;

/// A send of a message with this label that grants this ownership and this clearance.
pub fn judge_send(
    process: &Proc,
    label: &LocalLabel,
    own: &LocalLabel,
    clear: &LocalLabel,
) -> Result<(), Rule>
    ensures { result_err result ≡ may_send by_number process.now.process.label process.now.process.own process.now.process.clear label.now own.now clear.now }
{
    if !process.label().flows_under(label, process.own()) {
        return Err(Rule::NotFlow);
    }
    if !is_within(own, process.own()) {
        return Err(Rule::GrantNotOwned);
    }
    if !is_within_either(clear, process.clear(), process.own()) {
        return Err(Rule::ClearNotHeld);
    }
    Ok(())
}

/// A take from a mailbox with this label.
pub fn judge_take(process: &Proc, label: &LocalLabel) -> Result<(), Rule>
    ensures { result_err result ≡ may_take by_number label.now process.now.process.label process.now.process.own }
{
    if !label.flows_under(process.label(), process.own()) {
        return Err(Rule::NotFlowToTaker);
    }
    Ok(())
}

/// An act in public, of a process with this label and this ownership.
pub fn judge_publish(label: &LocalLabel, own: &LocalLabel) -> Result<(), Rule>
    ensures { result_err result ≡ may_publish by_number label.now own.now }
{
    if secrecy_is_within(label, own) {
        Ok(())
    } else {
        Err(Rule::NotPublic)
    }
}

/// A change from a label to another, with this ownership and this clearance.
pub fn judge_label(
    label: &LocalLabel,
    own: &LocalLabel,
    clear: &LocalLabel,
    to: &LocalLabel,
) -> Result<(), Rule>
    ensures { result_err result ≡ may_relabel by_number label.now own.now clear.now to.now }
{
    if !label.flows_under(to, own) {
        return Err(Rule::LabelRefused);
    }
    judge_new_secrecy(to, label, clear, own)
}

/// The secrecy categories of a new label, which are in the label, the clearance or the ownership.
fn judge_new_secrecy(
    to: &LocalLabel,
    label: &LocalLabel,
    clear: &LocalLabel,
    own: &LocalLabel,
) -> Result<(), Rule>
    ensures { result_err result ≡ each_secret by_number (λ c. has by_number c label.now || (has by_number c clear.now || has by_number c own.now)) (λ c. Rule.LabelRefused) to.now }
{
    if secrecy_is_covered(to, label, clear, own) {
        Ok(())
    } else {
        Err(Rule::LabelRefused)
    }
}

/// A category more that the process makes and owns.
pub fn judge_make(process: &Proc, local: u64) -> Result<(), Rule>
    ensures { result_err result ≡ may_make by_number process.now.process.own process.now.process.made local }
{
    if process.made() == u32::MAX {
        return Err(Rule::TooMany);
    }
    if process.own().len() == MEMBER_LIMIT && !process.own().contains(local) {
        return Err(Rule::TooMany);
    }
    Ok(())
}
