//! The judgements of a desk: each is answered, and enters a look.

ghost use Rattle.std.specs.Prelude.{◌≡◌, ◌<◌, ◌≤◌, ◌∷◌, ◌++◌, [], Option, IfOk, IfErr, IsTrue, OnOk, OnErr};
ghost use Rattle.std.specs.Int.{w8, to_be_bytes};
ghost use Rattle.ds_label.specs.declared.rule.Rule.{Rule};
ghost use Rattle.ds_msg.specs.Ranges.{AreShort};
ghost use Rattle.ds_msg.specs.Spelling.{spelling_of_certs};
ghost use Rattle.ds_chain.specs.Addresses.{find_address};
ghost use Rattle.ds_model.specs.Scheme.{Scheme};
ghost use Rattle.ds_model.specs.Plan.{HostPlan};
ghost use Rattle.ds_model.specs.ExporterRules.{attach, judge_send, receiver_rule, sender_rule};
ghost use Rattle.ds_model.specs.Desk.{Looked};
ghost use Rattle.ds_map.specs.Labels.{are_known, numbered};
ghost use Rattle.ds_flow.specs.Chains.{flow_scheme};
ghost use Rattle.ds_flow.specs.Judged.{Judges};
ghost use Rattle.ds_desk.specs.Desks.{IsKept, entered, kept_of, last_stamp};
ghost use Rattle.ds_share.specs.declared.desk_act.DeskAct.TheVariants as acts;
ghost use Rattle.ds_share.specs.declared.desk_act.DeskReply.TheVariants as replies;
ghost use Rattle.ds_share.specs.Desks.{HasShortCerts, IsArrivalAnswer, IsFrameAnswer, IsSendAnswer, SaysOfJudging};
ghost use Rattle.ds_share.specs.Desks.{address_in, answer_for, given_by_judge, judged, spelling_of_rule};
ghost use Rattle.ds_share.specs.Spelling.{spelling_of_numbers};
ghost use Rattle.ds_share.specs.Tells.{Tells, told};

use crate::desk_act::{DeskReply, TurnFault};
use crate::spelling::{append_category, append_certs, append_numbers};
use crate::told::Told;
use ds_cert::LaneCert;
use ds_chain::AddressList;
use ds_desk::DeskState;
use ds_flow::{FlowFault, attach, judge_arrive, judge_frame, judge_send};
use ds_label::{Label, LocalLabel, PubKey, Rule};
use ds_map::MapTable;
use ds_msg::{CertBytes, Message};
use ds_script::Actor;
use ds_wire::{Bytes, put_u8};
use std::alloc::{AllocError, Global};

/// The number of a look.
const LOOK: u8 = 1;

/// A rule: its number, and its category where it carries one.
fn append_rule(out: &mut Bytes, rule: &Rule) -> Result<(), AllocError>
    ensures { OnOk result (out.new ≡ out.old ++ spelling_of_rule rule.now) }
{
    put_u8(out, rule.number())?;
    match rule {
        Rule::PeerNotTrusted(category)
        | Rule::SenderNotTrusted(category)
        | Rule::NotKnown(category) => append_category(out, category),
        _ => Ok(()),
    }
}

/// A rule that refuses, spelled.
fn rule_bytes(alloc: Global, rule: &Rule) -> Result<Bytes, AllocError>
    ensures { IfOk result (λ bytes. bytes ≡ spelling_of_rule rule.now) }
{
    let mut out = Bytes::new(alloc);
    append_rule(&mut out, rule)?;
    Ok(out)
}

/// The byte 0, which says that a judgement passes.
fn passed_bytes(alloc: Global) -> Result<Bytes, AllocError>
    ensures { IfOk result (λ bytes. bytes ≡ to_be_bytes w8 0) }
{
    let mut out = Bytes::new(alloc);
    put_u8(&mut out, 0)?;
    Ok(out)
}

/// The certificates of a send that passes, spelled.
fn attached_bytes(alloc: Global, certs: &CertBytes) -> Result<Bytes, AllocError>
    requires { AreShort certs.now }
    ensures { IfOk result (λ bytes. bytes ≡ to_be_bytes w8 0 ++ spelling_of_certs certs.now) }
{
    let mut out = passed_bytes(alloc)?;
    append_certs(&mut out, certs)?;
    Ok(out)
}

/// The labels of an arrival that passes, spelled.
fn named_bytes(
    alloc: Global,
    label: &LocalLabel,
    own: &LocalLabel,
    clear: &LocalLabel,
) -> Result<Bytes, AllocError>
    ensures { IfOk result (λ bytes.
        bytes ≡ to_be_bytes w8 0 ++ spelling_of_numbers label.now ++ spelling_of_numbers own.now ++ spelling_of_numbers clear.now) }
{
    let mut out = passed_bytes(alloc)?;
    append_numbers(&mut out, label)?;
    append_numbers(&mut out, own)?;
    append_numbers(&mut out, clear)?;
    Ok(out)
}

/// What a judgement hands out, spelled. `AllocError` where memory runs out.
fn given_bytes(alloc: Global, reply: &DeskReply) -> Result<Bytes, AllocError>
    requires { HasShortCerts reply.now }
    ensures { IfOk result (λ bytes. bytes ≡ given_by_judge reply.now) }
{
    match reply {
        DeskReply::Attached(certs) => attached_bytes(alloc, certs),
        DeskReply::Found(_) => passed_bytes(alloc),
        DeskReply::Named(label, own, clear) => named_bytes(alloc, label, own, clear),
        DeskReply::Refused(rule) => rule_bytes(alloc, rule),
        DeskReply::Done | DeskReply::Made(_) | DeskReply::Local(_) => Ok(Bytes::new(alloc)),
    }
}

/// Enters that a judgement read the desk, and tells its answer. `NoMemory` where memory runs out; nothing is entered then.
fn looked(
    desk: &mut DeskState,
    alloc: Global,
    stamp: u64,
    who: Actor,
    reply: DeskReply,
) -> Result<Told, TurnFault>
    requires kept { IsKept desk.old }
    requires later { last_stamp desk.old < stamp }
    requires short { HasShortCerts reply }
    ensures told { IfOk result (λ t. t ≡ told Looked (given_by_judge reply) reply) }
    ensures state { OnOk result (kept_of desk.new ≡ entered stamp who Looked (kept_of desk.old)) }
    ensures fault { IfErr result (λ e. e ≡ TurnFault.NoMemory) }
    ensures err { OnErr result (kept_of desk.new ≡ kept_of desk.old) }
    ensures kept { IsKept desk.new }
{
    let given = given_bytes(alloc, &reply)?;
    desk.reserve()?;
    desk.look(stamp, who);
    Ok(Told {
        act: LOOK,
        body: Bytes::new(alloc),
        given,
        reply,
    })
}

/// The rule of a judgement, if one fails. `AllocError` where memory ran out.
fn verdict(judged: Result<(), FlowFault>) -> Result<Option<Rule>, AllocError>
    ensures { (rule : Option Rule) → Judges rule judged → IfOk result (λ found. found ≡ rule) }
{
    match judged {
        Ok(()) => Ok(None),
        Err(FlowFault::Drop(rule)) => Ok(Some(rule)),
        Err(FlowFault::NoMemory) => Err(AllocError),
    }
}

/// The rule by which the desk's judge refuses a message that a process sends, if one fails. `AllocError` where memory runs out.
fn send_rule(
    desk: &mut DeskState,
    alloc: Global,
    lane: Option<u32>,
    to: &PubKey,
    label: &Label,
) -> Result<Option<Rule>, AllocError>
    ensures rule { (s : Scheme) → IfOk result (λ rule. rule ≡
        judge_send (flow_scheme s) lane desk.old.addresses.items desk.old.store.items desk.old.moment to.now label.now) }
    ensures same { desk.new ≡ desk.old }
{
    verdict(judge_send(
        alloc,
        lane,
        &desk.addresses,
        &mut desk.store,
        desk.moment,
        to,
        label,
    ))
}

/// What the desk's judge answers of a message that a process sends. `NoMemory` where memory runs out.
fn send_reply(
    desk: &mut DeskState,
    alloc: Global,
    lane: Option<u32>,
    to: &PubKey,
    label: &Label,
    own: &Label,
    clear: &Label,
) -> Result<DeskReply, TurnFault>
    ensures reply { (s : Scheme) → IfOk result (λ reply. reply ≡
        judged (judge_send (flow_scheme s) lane desk.old.addresses.items desk.old.store.items desk.old.moment to.now label.now)
        (replies.Attached (attach (flow_scheme s) desk.old.store.items desk.old.moment desk.old.here label.now own.now clear.now))) }
    ensures answer { IfOk result (IsSendAnswer lane) }
    ensures short { IfOk result HasShortCerts }
    ensures fault { IfErr result (λ e. e ≡ TurnFault.NoMemory) }
    ensures same { desk.new ≡ desk.old }
{
    if let Some(rule) = send_rule(desk, alloc, lane, to, label)? {
        return Ok(DeskReply::Refused(rule));
    }
    let certs = attach(
        alloc,
        &mut desk.store,
        desk.moment,
        &desk.here,
        label,
        own,
        clear,
    )?;
    Ok(DeskReply::Attached(certs))
}

/// Where the exporter is reached, by the first good address certificate that is valid now; no bytes where there is none.
fn address_of(
    alloc: Global,
    addresses: &AddressList,
    to: &PubKey,
    now: u64,
) -> Result<Bytes, AllocError>
    ensures { IfOk result (λ bytes. bytes ≡ address_in (find_address addresses.now.items now to.now)) }
{
    match addresses.find(to, now) {
        None => Ok(Bytes::new(alloc)),
        Some(cert) => cert.address.copy(),
    }
}

/// The rule by which the desk's judge refuses a lane's hand, if one fails. `AllocError` where memory runs out.
fn frame_rule(
    desk: &mut DeskState,
    alloc: Global,
    to: &PubKey,
    label: &Label,
) -> Result<Option<Rule>, AllocError>
    ensures rule { (s : Scheme) → IfOk result (λ rule. rule ≡
        sender_rule (flow_scheme s) desk.old.addresses.items desk.old.store.items desk.old.moment to.now label.now) }
    ensures same { desk.new ≡ desk.old }
{
    verdict(judge_frame(
        alloc,
        &desk.addresses,
        &mut desk.store,
        desk.moment,
        to,
        label,
    ))
}

/// What the desk's judge answers of a lane's hand. `NoMemory` where memory runs out.
fn frame_reply(
    desk: &mut DeskState,
    alloc: Global,
    to: &PubKey,
    label: &Label,
) -> Result<DeskReply, TurnFault>
    ensures reply { (s : Scheme) → IfOk result (λ reply. reply ≡
        judged (sender_rule (flow_scheme s) desk.old.addresses.items desk.old.store.items desk.old.moment to.now label.now)
        (replies.Found (address_in (find_address desk.old.addresses.items desk.old.moment to.now)))) }
    ensures answer { IfOk result IsFrameAnswer }
    ensures short { IfOk result HasShortCerts }
    ensures fault { IfErr result (λ e. e ≡ TurnFault.NoMemory) }
    ensures same { desk.new ≡ desk.old }
{
    if let Some(rule) = frame_rule(desk, alloc, to, label)? {
        return Ok(DeskReply::Refused(rule));
    }
    let address = address_of(alloc, &desk.addresses, to, desk.moment)?;
    Ok(DeskReply::Found(address))
}

/// A message's label, ownership and clearance in the table's numbers. `AllocError` where memory runs out.
fn named(table: &MapTable, message: &Message) -> Result<DeskReply, AllocError>
    requires label { IsTrue (are_known table.now.here table.now.rows (message.now.label ∷ [])) }
    requires own { IsTrue (are_known table.now.here table.now.rows (message.now.own ∷ [])) }
    requires clear { IsTrue (are_known table.now.here table.now.rows (message.now.clear ∷ [])) }
    ensures { IfOk result (λ reply. reply ≡ replies.Named (numbered table.now.here table.now.rows message.now.label)
        (numbered table.now.here table.now.rows message.now.own) (numbered table.now.here table.now.rows message.now.clear)) }
{
    Ok(DeskReply::Named(
        table.numbers_of(&message.label)?,
        table.numbers_of(&message.own)?,
        table.numbers_of(&message.clear)?,
    ))
}

/// The rule by which the desk's judge refuses a message that arrived, if one fails. `AllocError` where memory runs out.
fn arrival_rule(
    desk: &mut DeskState,
    alloc: Global,
    lane: &LaneCert,
    message: &Message,
) -> Result<Option<Rule>, AllocError>
    requires table { desk.old.table.here ≡ desk.old.here }
    ensures rule { (s : Scheme) → IfOk result (λ rule. rule ≡
        receiver_rule (flow_scheme s) desk.old.store.items desk.old.table.rows desk.old.moment desk.old.here lane.now message.now) }
    ensures same { desk.new ≡ desk.old }
{
    verdict(judge_arrive(
        alloc,
        &mut desk.store,
        &desk.table,
        desk.moment,
        &desk.here,
        lane,
        message,
    ))
}

/// What the desk's judge answers of a message that arrived. `NoMemory` where memory runs out.
fn arrival_reply(
    desk: &mut DeskState,
    alloc: Global,
    lane: &LaneCert,
    message: &Message,
) -> Result<DeskReply, TurnFault>
    requires table { desk.old.table.here ≡ desk.old.here }
    ensures reply { (s : Scheme) → IfOk result (λ reply. reply ≡
        judged (receiver_rule (flow_scheme s) desk.old.store.items desk.old.table.rows desk.old.moment desk.old.here lane.now message.now)
        (replies.Named (numbered desk.old.here desk.old.table.rows message.now.label) (numbered desk.old.here desk.old.table.rows message.now.own)
        (numbered desk.old.here desk.old.table.rows message.now.clear))) }
    ensures answer { IfOk result IsArrivalAnswer }
    ensures short { IfOk result HasShortCerts }
    ensures fault { IfErr result (λ e. e ≡ TurnFault.NoMemory) }
    ensures same { desk.new ≡ desk.old }
{
    if let Some(rule) = arrival_rule(desk, alloc, lane, message)? {
        return Ok(DeskReply::Refused(rule));
    }
    let reply = named(&desk.table, message)?;
    Ok(reply)
}

/// A process's message to another host is judged, which enters a look. `NoMemory` where memory runs out; nothing is entered then.
pub(crate) fn judge_sent(
    desk: &mut DeskState,
    alloc: Global,
    stamp: u64,
    who: Actor,
    lane: Option<u32>,
    to: PubKey,
    label: Label,
    own: Label,
    clear: Label,
) -> Result<Told, TurnFault>
    requires kept { IsKept desk.old }
    requires later { last_stamp desk.old < stamp }
    ensures told { (s : Scheme) (plan : HostPlan) → IfOk result (λ t.
        t ≡ told Looked (given_by_judge t.reply) (answer_for s plan (kept_of desk.old) (acts.JudgeSend lane to label own clear))) }
    ensures says { IfOk result (Tells (SaysOfJudging (IsSendAnswer lane))) }
    ensures state { OnOk result (kept_of desk.new ≡ entered stamp who Looked (kept_of desk.old)) }
    ensures fault { IfErr result (λ e. e ≡ TurnFault.NoMemory) }
    ensures err { OnErr result (kept_of desk.new ≡ kept_of desk.old) }
    ensures kept { IsKept desk.new }
{
    let reply = send_reply(desk, alloc, lane, &to, &label, &own, &clear)?;
    looked(desk, alloc, stamp, who, reply)
}

/// A lane's hand is judged, which enters a look. `NoMemory` where memory runs out; nothing is entered then.
pub(crate) fn judge_framed(
    desk: &mut DeskState,
    alloc: Global,
    stamp: u64,
    who: Actor,
    to: PubKey,
    label: Label,
) -> Result<Told, TurnFault>
    requires kept { IsKept desk.old }
    requires later { last_stamp desk.old < stamp }
    ensures told { (s : Scheme) (plan : HostPlan) → IfOk result (λ t.
        t ≡ told Looked (given_by_judge t.reply) (answer_for s plan (kept_of desk.old) (acts.JudgeFrame to label))) }
    ensures says { IfOk result (Tells (SaysOfJudging IsFrameAnswer)) }
    ensures state { OnOk result (kept_of desk.new ≡ entered stamp who Looked (kept_of desk.old)) }
    ensures fault { IfErr result (λ e. e ≡ TurnFault.NoMemory) }
    ensures err { OnErr result (kept_of desk.new ≡ kept_of desk.old) }
    ensures kept { IsKept desk.new }
{
    let reply = frame_reply(desk, alloc, &to, &label)?;
    looked(desk, alloc, stamp, who, reply)
}

/// A message that arrived is judged, which enters a look. `NoMemory` where memory runs out; nothing is entered then.
pub(crate) fn judge_arrived(
    desk: &mut DeskState,
    alloc: Global,
    stamp: u64,
    who: Actor,
    lane: LaneCert,
    message: Message,
) -> Result<Told, TurnFault>
    requires kept { IsKept desk.old }
    requires later { last_stamp desk.old < stamp }
    ensures told { (s : Scheme) (plan : HostPlan) → IfOk result (λ t.
        t ≡ told Looked (given_by_judge t.reply) (answer_for s plan (kept_of desk.old) (acts.JudgeArrive lane message))) }
    ensures says { IfOk result (Tells (SaysOfJudging IsArrivalAnswer)) }
    ensures state { OnOk result (kept_of desk.new ≡ entered stamp who Looked (kept_of desk.old)) }
    ensures fault { IfErr result (λ e. e ≡ TurnFault.NoMemory) }
    ensures err { OnErr result (kept_of desk.new ≡ kept_of desk.old) }
    ensures kept { IsKept desk.new }
{
    let reply = arrival_reply(desk, alloc, &lane, &message)?;
    looked(desk, alloc, stamp, who, reply)
}
