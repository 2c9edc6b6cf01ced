//! The judgements of exporters.

ghost use Rattle.std.specs.Prelude.{◌≡◌, ◌++◌, ◌∷◌, [], ◌&&◌, ◌||◌, List, IfOk, nat_le, nat_lt, option_copied, option_map, IsTrue};
ghost use Rattle.std.specs.Result.{result_err};
ghost use Rattle.ds_label.specs.declared.category.PubKey.{PubKey};
ghost use Rattle.ds_label.specs.declared.category.Category.{Category};
ghost use Rattle.ds_label.specs.declared.rule.Rule.TheVariants as rules;
ghost use Rattle.ds_label.specs.Flow.{same_label};
ghost use Rattle.ds_label.specs.Names.{by_name};
ghost use Rattle.ds_label.specs.Numbers.{by_number};
ghost use Rattle.ds_model.specs.ExporterRules.{judge_send, known_rule, receiver_rule, sender_rule};
ghost use Rattle.ds_model.specs.FirstRule.{each_member, first_rule, or_else, unless};
ghost use Rattle.ds_model.specs.Keys.{same_key};
ghost use Rattle.ds_model.specs.Mapping.{is_known};
ghost use Rattle.ds_model.specs.ProcessRules.{mailbox_rule};
ghost use Rattle.ds_model.specs.Scheme.{Scheme};
ghost use Rattle.ds_map.specs.Labels.{have_names, named};
ghost use Rattle.ds_map.specs.Table.{IsTable};
ghost use Rattle.ds_flow.specs.Asked.{arrival_rule, framing_rule, holds_by, holds_integrity, kept_all, shown};
ghost use Rattle.ds_flow.specs.Chains.{flow_scheme};
ghost use Rattle.ds_flow.specs.Judged.{Judges, box_labels};

use crate::fault::FlowFault;
use crate::holding::{first_integrity_not_held, first_not_held, first_not_trusted_with};
use crate::shown::shown_by;
use ds_cert::LaneCert;
use ds_chain::{AddressList, CertBook, CertList};
use ds_label::{Category, Label, LocalLabel, PubKey, Rule};
use ds_map::MapTable;
use ds_msg::Message;
use std::alloc::{AllocError, Global};

/// Ok where there is no rule, else dropped by it.
fn unless_dropped(rule: Option<Rule>) -> Result<(), FlowFault>
    ensures { Judges rule result }
{
    match rule {
        None => Ok(()),
        Some(rule) => Err(FlowFault::Drop(rule)),
    }
}

/// Judges a message with this label to the exporter `to` that a process sends, at the moment `now`: there is a lane with
/// exactly that receiver and label, its number being `lane`; a good address certificate of the receiver is valid; and the
/// receiver holds each secrecy category of the label by the delegations that the host keeps.
///
/// # Errors
///
/// `Drop` with the first rule that fails: NoLane, NoAddress, PeerNotTrusted with the first such category in the label's order.
/// `NoMemory` where memory runs out.
pub fn judge_send(
    alloc: Global,
    lane: Option<u32>,
    addresses: &AddressList,
    store: &mut CertBook,
    now: u64,
    to: &PubKey,
    label: &Label,
) -> Result<(), FlowFault>
    ensures judged { (s : Scheme) → Judges (judge_send (flow_scheme s) lane addresses.now.items store.old.items now to.now label.now) result }
    ensures same { store.new ≡ store.old }
{
    let Some(_number) = lane else {
        return Err(FlowFault::Drop(Rule::NoLane));
    };
    judge_frame(alloc, addresses, store, now, to, label)
}

/// What is asked of a message that is to be framed, by the delegations that the host keeps and others.
fn framing_judged(
    addresses: &AddressList,
    store: &mut CertBook,
    extra: &CertList,
    now: u64,
    to: &PubKey,
    label: &Label,
) -> Result<(), FlowFault>
    ensures judged { Judges (framing_rule addresses.now.items (store.old.items ++ extra.now.items) now to.now label.now) result }
    ensures same { store.new ≡ store.old }
{
    if addresses.find(to, now).is_none() {
        return Err(FlowFault::Drop(Rule::NoAddress));
    }
    let rule = first_not_trusted_with(store, extra, now, to, label.as_slice())?;
    unless_dropped(rule)
}

/// Judges the messages in a lane's hand before they are framed, which all have the lane's receiver and label: as a send, but
/// for the lane.
///
/// # Errors
///
/// `Drop` with the first rule that fails: NoAddress, PeerNotTrusted with the first such category in the label's order.
/// `NoMemory` where memory runs out.
pub fn judge_frame(
    alloc: Global,
    addresses: &AddressList,
    store: &mut CertBook,
    now: u64,
    to: &PubKey,
    label: &Label,
) -> Result<(), FlowFault>
    ensures judged { (s : Scheme) → Judges (sender_rule (flow_scheme s) addresses.now.items store.old.items now to.now label.now) result }
    ensures same { store.new ≡ store.old }
{
    let none = CertList::new(alloc);
    framing_judged(addresses, store, &none, now, to, label)
}

/// Whether both keys are equal.
fn is_same_key(a: &PubKey, b: &PubKey) -> bool
    ensures { result ≡ same_key a.now b.now }
{
    a == b
}

/// Whether both labels are equal.
fn is_same_label(a: &Label, b: &Label) -> bool
    ensures { result ≡ same_label by_name a.now b.now }
{
    let _first = a.as_slice();
    let _second = b.as_slice();
    a.same(b)
}

/// The rule of the lane certificate that a message breaks: it is valid now, leads here, and has the message's label.
fn lane_rule(now: u64, here: &PubKey, lane: &LaneCert, message: &Message) -> Option<Rule>
    ensures { result ≡ first_rule (unless (nat_le lane.now.from now && nat_lt now lane.now.until) rules.LaneLapsed
        ∷ unless (same_key message.now.to here.now) rules.WrongHost
        ∷ unless (same_label by_name lane.now.label message.now.label) rules.WrongLabel ∷ []) }
{
    if !(lane.from <= now && now < lane.until) {
        return Some(Rule::LaneLapsed);
    }
    if !is_same_key(&message.to, here) {
        return Some(Rule::WrongHost);
    }
    if !is_same_label(&lane.label, &message.label) {
        return Some(Rule::WrongLabel);
    }
    None
}

/// The rule of the first integrity category of the message's label, then of its ownership and its clearance, that the sender
/// doesn't hold by what the host keeps and the message shows.
fn sender_trust_rule(
    alloc: Global,
    store: &mut CertBook,
    now: u64,
    by: &PubKey,
    message: &Message,
) -> Result<Option<Rule>, AllocError>
    ensures rule { IfOk result (λ rule. rule ≡ first_rule (
        each_member (holds_integrity (store.old.items ++ kept_all [] (shown message.now.certs)) now by.now) rules.SenderNotTrusted message.now.label
        ∷ each_member (holds_by (store.old.items ++ kept_all [] (shown message.now.certs)) now by.now) rules.SenderNotTrusted message.now.own
        ∷ each_member (holds_by (store.old.items ++ kept_all [] (shown message.now.certs)) now by.now) rules.SenderNotTrusted message.now.clear ∷ [])) }
    ensures same { store.new ≡ store.old }
{
    let extra = shown_by(alloc, &message.certs)?;
    let label = message.label.as_slice();
    if let Some(rule) = first_integrity_not_held(store, &extra, now, by, label)? {
        return Ok(Some(rule));
    }
    if let Some(rule) = first_not_held(store, &extra, now, by, message.own.as_slice())? {
        return Ok(Some(rule));
    }
    first_not_held(store, &extra, now, by, message.clear.as_slice())
}

/// Whether the category is home or in a row of the table.
fn knows(table: &MapTable, c: &Category) -> bool
    ensures { result ≡ is_known table.now.here table.now.rows c.now }
{
    table.to_local(c).is_some()
}

/// The rule of the first category that isn't known.
fn first_not_known(table: &MapTable, members: &[Category]) -> Option<Rule>
    ensures { result ≡ each_member (is_known table.now.here table.now.rows) rules.NotKnown members.now }
{
    for c in members {
        if !knows(table, c) {
            return Some(Rule::NotKnown(*c));
        }
    }
    None
}

/// The rule of the first category of the message's label, ownership and clearance, in this order, that isn't known.
fn names_rule(table: &MapTable, message: &Message) -> Option<Rule>
    ensures { result ≡ first_rule (each_member (is_known table.now.here table.now.rows) rules.NotKnown message.now.label
        ∷ each_member (is_known table.now.here table.now.rows) rules.NotKnown message.now.own
        ∷ each_member (is_known table.now.here table.now.rows) rules.NotKnown message.now.clear ∷ []) }
{
    if let Some(rule) = first_not_known(table, message.label.as_slice()) {
        return Some(rule);
    }
    if let Some(rule) = first_not_known(table, message.own.as_slice()) {
        return Some(rule);
    }
    first_not_known(table, message.clear.as_slice())
}

/// The first rule that a message that arrived breaks.
fn first_broken(
    alloc: Global,
    store: &mut CertBook,
    table: &MapTable,
    now: u64,
    here: &PubKey,
    lane: &LaneCert,
    message: &Message,
) -> Result<Option<Rule>, AllocError>
    requires { here.now ≡ table.now.here }
    ensures rule { IfOk result (λ rule. rule ≡ arrival_rule (store.old.items ++ kept_all [] (shown message.now.certs)) table.now.rows now here.now lane.now message.now) }
    ensures same { store.new ≡ store.old }
{
    if let Some(rule) = lane_rule(now, here, lane, message) {
        return Ok(Some(rule));
    }
    if let Some(rule) = sender_trust_rule(alloc, store, now, &lane.exporter, message)? {
        return Ok(Some(rule));
    }
    Ok(names_rule(table, message))
}

/// Judges a message that arrived on a lane with this certificate at the host with the key `here`, at the moment `now`: the lane
/// certificate is valid; the message is for this host; it has the lane's label; the lane's exporter holds each integrity
/// category of the label, each granted ownership and each granted clearance, by the delegations that the host keeps and
/// those that the message shows (one that isn't good counts for nothing); and each category is home or mapped.
///
/// # Errors
///
/// `Drop` with the first rule that fails: LaneLapsed, WrongHost, WrongLabel, SenderNotTrusted and NotKnown, the last two with
/// the first such category. `NoMemory` where memory runs out.
pub fn judge_arrive(
    alloc: Global,
    store: &mut CertBook,
    table: &MapTable,
    now: u64,
    here: &PubKey,
    lane: &LaneCert,
    message: &Message,
) -> Result<(), FlowFault>
    requires { here.now ≡ table.now.here }
    ensures judged { (s : Scheme) → Judges (receiver_rule (flow_scheme s) store.old.items table.now.rows now here.now lane.now message.now) result }
    ensures same { store.new ≡ store.old }
{
    unless_dropped(first_broken(alloc, store, table, now, here, lane, message)?)
}

/// The same judgement, over numbers.
fn judge_numbers(target: Option<&LocalLabel>, label: &LocalLabel) -> Result<(), Rule>
    ensures { result_err result ≡ mailbox_rule by_number (option_copied target.entry) label.now }
{
    let Some(box_label) = target else {
        return Err(Rule::NoBox);
    };
    if !label.flows(box_label) {
        return Err(Rule::NotFlowToBox);
    }
    Ok(())
}

/// Judges a message with this label for a mailbox with the label `target`, over the host's own numbers, and so over their
/// names under each table that has them: the mailbox exists, and the message's label flows to its label.
///
/// # Errors
///
/// The first rule that fails: NoBox, NotFlowToBox.
pub fn judge_box(target: Option<&LocalLabel>, label: &LocalLabel) -> Result<(), Rule>
    ensures numbers { result_err result ≡ mailbox_rule by_number (option_copied target.entry) label.now }
    ensures names { (here : PubKey) (rows : List Category) → IsTable here rows → IsTrue (have_names here rows (box_labels (option_copied target.entry) label.now)) →
        result_err result ≡ mailbox_rule by_name (option_map (named here rows) (option_copied target.entry)) (named here rows label.now) }
{
    judge_numbers(target, label)
}
