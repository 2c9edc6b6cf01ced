//! A send, to the own host or to another.

ghost use Rattle.std.specs.Prelude.{◌≡◌, ◌<◌, ◌∷◌, ◌==◌, [], ℕ, List, length, Option, Some, None, IsTrue, IfOk, IfSome, option_copied};
ghost use Rattle.ds_label.specs.declared.category.Category.{Category};
ghost use Rattle.ds_label.specs.declared.rule.Rule.TheVariants as rules;
ghost use Rattle.ds_script.specs.Inner.{register};
ghost use Rattle.ds_script.specs.Fits.{IsShort};
ghost use Rattle.ds_msg.specs.declared.message.Message.{Message};
ghost use Rattle.ds_model.specs.Keys.{key_of, same_key};
ghost use Rattle.ds_model.specs.World.{Process};
ghost use Rattle.ds_model.specs.Plan.{HostPlan};
ghost use Rattle.ds_model.specs.FirstRule.{each_member, first_rule};
ghost use Rattle.ds_model.specs.Mapping.{is_known};
ghost use Rattle.ds_model.specs.ExporterRules.{known_rule};
ghost use Rattle.ds_model.specs.ProcessStep.{message_of, send, send_away, send_here, send_rule, judge_box};
ghost use Rattle.ds_map.specs.Labels.{named, have_names};
ghost use Rattle.ds_actor.specs.Usable.{categories, numbers_by};
ghost use Rattle.ds_actor.specs.Sites.{label_at, with_site};
ghost use Rattle.ds_actor.specs.Seen.{UnderTables, process_of};
ghost use Rattle.ds_actor.specs.Asks.{IsAsked, IsCopied, IsAskInRange, HasMailNames};
ghost use Rattle.ds_actor.specs.Asking.{IsOutside};
ghost use Rattle.ds_actor.specs.Sending.{IsJudged};

use crate::ask::ProcessAsk;
use crate::names::{first_unknown, numbers_of};
use crate::site::Site;
use ds_flow::judge_box;
use ds_label::{Label, LocalLabel, PubKey, Rule};
use ds_monitor::Monitor;
use ds_msg::{CertBytes, LocalMessage, Message};
use ds_script::Proc;
use std::alloc::{AllocError, Global};

/// The first category that the process may not use, of three labels.
fn three_unknown(
    here: &PubKey,
    process: &Proc,
    label: &Label,
    own: &Label,
    clear: &Label,
) -> Option<Rule>
    ensures { result ≡ first_rule (each_member (is_known here.now (categories process.now.process.names)) rules.NotKnown label.now
        ∷ each_member (is_known here.now (categories process.now.process.names)) rules.NotKnown own.now
        ∷ each_member (is_known here.now (categories process.now.process.names)) rules.NotKnown clear.now ∷ []) }
{
    if let Some(rule) = first_unknown(here, process.names(), label.as_slice()) {
        return Some(rule);
    }
    if let Some(rule) = first_unknown(here, process.names(), own.as_slice()) {
        return Some(rule);
    }
    first_unknown(here, process.names(), clear.as_slice())
}

/// The first category that the process may not use, of a label, an ownership and a clearance.
pub(crate) fn unknown_rule(
    here: &PubKey,
    process: &Proc,
    label: &Label,
    own: &Label,
    clear: &Label,
) -> Option<Rule>
    ensures { result ≡ known_rule here.now (categories process.now.process.names) label.now own.now clear.now }
{
    three_unknown(here, process, label, own, clear)
}

/// The three labels of a message in the host's own numbers.
#[derive(Debug, Drop)]
pub struct Numbers {
    pub label: LocalLabel,
    pub own: LocalLabel,
    pub clear: LocalLabel,
}

/// Each of them. `AllocError` where memory runs out.
fn in_numbers(
    alloc: Global,
    here: &PubKey,
    process: &Proc,
    label: &Label,
    own: &Label,
    clear: &Label,
) -> Result<Numbers, AllocError>
    ensures label { IfOk result (λ n. n.label ≡ numbers_by here.now process.now.process.names label.now) }
    ensures own { IfOk result (λ n. n.own ≡ numbers_by here.now process.now.process.names own.now) }
    ensures clear { IfOk result (λ n. n.clear ≡ numbers_by here.now process.now.process.names clear.now) }
{
    Ok(Numbers {
        label: numbers_of(alloc, here, process.names(), label.as_slice())?,
        own: numbers_of(alloc, here, process.names(), own.as_slice())?,
        clear: numbers_of(alloc, here, process.names(), clear.as_slice())?,
    })
}

/// Judges a send by the process's own rules: `NotKnown`, then `NotFlow`, `GrantNotOwned` and `ClearNotHeld`. Where all
/// pass it gives the labels in numbers. `AllocError` where memory runs out.
fn judge_own(
    alloc: Global,
    here: &PubKey,
    process: &Proc,
    label: &Label,
    own: &Label,
    clear: &Label,
) -> Result<Result<Numbers, Rule>, AllocError>
    ensures { UnderTables here.now [] process.now.process (λ rows. IfOk result (λ r. IsJudged here.now rows process.now.process label.now own.now clear.now r)) }
{
    let _label = label.as_slice();
    let _own = own.as_slice();
    let _clear = clear.as_slice();
    if let Some(rule) = unknown_rule(here, process, label, own, clear) {
        return Ok(Err(rule));
    }
    let numbers = in_numbers(alloc, here, process, label, own, clear)?;
    if let Err(rule) = process.may_send(&numbers.label, &numbers.own, &numbers.clear) {
        return Ok(Err(rule));
    }
    Ok(Ok(numbers))
}

/// The message that a process sends, in numbers. `AllocError` where memory runs out.
fn mail(
    here: &PubKey,
    process: &Proc,
    reg: u8,
    numbers: Numbers,
) -> Result<LocalMessage, AllocError>
    requires { reg < 8 }
    ensures from { IfOk result (λ m. m.from ≡ here.now) }
    ensures labels { IfOk result (λ m. (m.label ≡ numbers.label) × (m.own ≡ numbers.own) × (m.clear ≡ numbers.clear)) }
    ensures payload { IfOk result (λ m. m.payload ≡ register reg process.now.process.course) }
    ensures short { IfOk result (λ m. IsShort m.payload) }
{
    let Numbers { label, own, clear } = numbers;
    let payload = process.register(reg).copy()?;
    Ok(LocalMessage {
        from: *here,
        label,
        own,
        clear,
        payload,
    })
}

/// The label of the mailbox at a place, where there is one.
pub(crate) fn label_of<S: Site>(site: &S, place: Option<usize>) -> Option<&LocalLabel>
    requires { IfSome place (λ p. p < length (S.seen site.now).boxes) }
    ensures { option_copied result ≡ label_at (S.seen site.now).boxes place }
{
    let place = place?;
    Some(site.box_label(place))
}

/// The message for a mailbox of the own host, or the rule by which that mailbox refuses it: `NoBox`, then `NotFlowToBox`.
fn put_into<S: Site>(
    site: &S,
    process: &Proc,
    slot: u32,
    reg: u8,
    numbers: Numbers,
) -> Result<ProcessAsk, AllocError>
    requires { reg < 8 }
    ensures copied { IfOk result IsCopied }
    ensures outside { IfOk result IsOutside }
    ensures range { IfOk result (IsAskInRange (S.seen site.now)) }
    ensures names { (rows : List Category) → IsTrue (have_names (S.seen site.now).here rows (numbers.label ∷ numbers.own ∷ numbers.clear ∷ []))
        → IfOk result (HasMailNames (S.seen site.now).here rows) }
    ensures asked { UnderTables (S.seen site.now).here (S.seen site.now).boxes process.now.process (λ rows.
        IsTrue (have_names (S.seen site.now).here rows (numbers.label ∷ numbers.own ∷ numbers.clear ∷ []))
        → (plan : HostPlan) (hand : Option Message) (y : Process) (host : ℕ) → let here = (S.seen site.now).here in let q = with_site (S.seen site.now) rows plan in
        let x = process_of here rows hand process.now.process in
        let m = message_of q x host slot reg (named here rows numbers.label) (named here rows numbers.own) (named here rows numbers.clear) in
        IfOk result (λ a. IsAsked here rows x y a (send_here q x m None (judge_box q m.slot m.label)))) }
{
    let place = site.box_with(slot);
    if let Err(rule) = judge_box(label_of(site, place), &numbers.label) {
        return Ok(ProcessAsk::Refused(rule));
    }
    let Some(place) = place else {
        unreachable!();
    };
    let message = mail(site.here(), process, reg, numbers)?;
    let kept = message.copy()?;
    Ok(ProcessAsk::Put(place, message, kept))
}

/// A send to a mailbox of the own host.
fn ask_here<S: Site>(
    alloc: Global,
    site: &S,
    process: &Proc,
    slot: u32,
    reg: u8,
    label: &Label,
    own: &Label,
    clear: &Label,
) -> Result<ProcessAsk, AllocError>
    requires { reg < 8 }
    ensures copied { IfOk result IsCopied }
    ensures outside { IfOk result IsOutside }
    ensures range { IfOk result (IsAskInRange (S.seen site.now)) }
    ensures names { UnderTables (S.seen site.now).here [] process.now.process (λ rows. IfOk result (HasMailNames (S.seen site.now).here rows)) }
    ensures asked { UnderTables (S.seen site.now).here (S.seen site.now).boxes process.now.process (λ rows.
        (plan : HostPlan) (hand : Option Message) (y : Process) (host : ℕ) → let q = with_site (S.seen site.now) rows plan in
        let x = process_of (S.seen site.now).here rows hand process.now.process in let m = message_of q x host slot reg label.now own.now clear.now in
        IfOk result (λ a. IsAsked (S.seen site.now).here rows x y a (send_here q x m (send_rule q x m) (judge_box q m.slot m.label)))) }
{
    match judge_own(alloc, site.here(), process, label, own, clear)? {
        Ok(numbers) => put_into(site, process, slot, reg, numbers),
        Err(rule) => Ok(ProcessAsk::Refused(rule)),
    }
}

/// The message to another host. `AllocError` where memory runs out.
fn message(
    alloc: Global,
    to: &PubKey,
    process: &Proc,
    slot: u32,
    reg: u8,
    label: &Label,
    own: &Label,
    clear: &Label,
) -> Result<Message, AllocError>
    requires { reg < 8 }
    ensures message { IfOk result (λ m. m ≡ record { to = to.now; slot = slot; label = label.now; own = own.now; clear = clear.now; certs = []; payload = register reg process.now.process.course }) }
    ensures short { IfOk result (λ m. IsShort m.payload) }
{
    Ok(Message {
        to: *to,
        slot,
        label: label.copy()?,
        own: own.copy()?,
        clear: clear.copy()?,
        certs: CertBytes::new(alloc),
        payload: process.register(reg).copy()?,
    })
}

/// A send to another host.
fn ask_away<S: Site>(
    alloc: Global,
    site: &S,
    process: &Proc,
    host: u32,
    slot: u32,
    reg: u8,
    label: &Label,
    own: &Label,
    clear: &Label,
) -> Result<ProcessAsk, AllocError>
    requires reg { reg < 8 }
    requires host { host < length (S.seen site.now).keys }
    ensures copied { IfOk result IsCopied }
    ensures outside { IfOk result IsOutside }
    ensures range { IfOk result (IsAskInRange (S.seen site.now)) }
    ensures names { (rows : List Category) → IfOk result (HasMailNames (S.seen site.now).here rows) }
    ensures asked { UnderTables (S.seen site.now).here [] process.now.process (λ rows.
        (plan : HostPlan) (hand : Option Message) (y : Process) → let q = with_site (S.seen site.now) rows plan in
        let x = process_of (S.seen site.now).here rows hand process.now.process in let m = message_of q x host slot reg label.now own.now clear.now in
        IfOk result (λ a. IsAsked (S.seen site.now).here rows x y a (send_away x m (send_rule q x m)))) }
{
    match judge_own(alloc, site.here(), process, label, own, clear)? {
        Ok(_) => {
            let message = message(alloc, site.key(host), process, slot, reg, label, own, clear)?;
            Ok(ProcessAsk::AsksJudgement(message))
        }
        Err(rule) => Ok(ProcessAsk::Refused(rule)),
    }
}

/// Whether both keys are equal.
fn is_same_key(one: &PubKey, other: &PubKey) -> bool
    ensures { result ≡ same_key one.now other.now }
{
    *one == *other
}

/// Whether it is the number of the own host.
fn is_own<S: Site>(site: &S, host: u32) -> bool
    requires { host < length (S.seen site.now).keys }
    ensures { result ≡ same_key (key_of (S.seen site.now).keys host) (S.seen site.now).here }
{
    is_same_key(site.key(host), site.here())
}

/// What a process asks that sends its register's bytes to a mailbox of the host with this number in scripts.
pub(crate) fn ask_send<S: Site>(
    alloc: Global,
    site: &S,
    process: &Proc,
    host: u32,
    slot: u32,
    reg: u8,
    label: &Label,
    own: &Label,
    clear: &Label,
) -> Result<ProcessAsk, AllocError>
    requires reg { reg < 8 }
    requires host { host < length (S.seen site.now).keys }
    ensures copied { IfOk result IsCopied }
    ensures outside { IfOk result IsOutside }
    ensures range { IfOk result (IsAskInRange (S.seen site.now)) }
    ensures names { UnderTables (S.seen site.now).here [] process.now.process (λ rows. IfOk result (HasMailNames (S.seen site.now).here rows)) }
    ensures asked { UnderTables (S.seen site.now).here (S.seen site.now).boxes process.now.process (λ rows.
        (plan : HostPlan) (hand : Option Message) (y : Process) → let q = with_site (S.seen site.now) rows plan in
        let x = process_of (S.seen site.now).here rows hand process.now.process in
        IfOk result (λ a. IsAsked (S.seen site.now).here rows x y a (send q x (message_of q x host slot reg label.now own.now clear.now)))) }
{
    if is_own(site, host) {
        ask_here(alloc, site, process, slot, reg, label, own, clear)
    } else {
        ask_away(alloc, site, process, host, slot, reg, label, own, clear)
    }
}
