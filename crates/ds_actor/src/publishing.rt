//! Acts in public: a delegation, an import, and the mapping of a category.

ghost use Rattle.std.specs.Prelude.{◌≡◌, ◌<◌, ◌^◌, ◌∷◌, [], Option, IfOk};
ghost use Rattle.ds_label.specs.declared.category.Category.{Category};
ghost use Rattle.ds_label.specs.declared.category.PubKey.{PubKey as Key};
ghost use Rattle.ds_label.specs.declared.rule.Rule.TheVariants as rules;
ghost use Rattle.ds_label.specs.Flow.{has};
ghost use Rattle.ds_label.specs.Names.{by_name};
ghost use Rattle.ds_label.specs.Numbers.{by_number};
ghost use Rattle.ds_script.specs.Inner.{register};
ghost use Rattle.ds_msg.specs.declared.message.Message.{Message};
ghost use Rattle.ds_model.specs.World.{Process};
ghost use Rattle.ds_model.specs.FirstRule.{first_rule, unless};
ghost use Rattle.ds_model.specs.Mapping.{is_known};
ghost use Rattle.ds_model.specs.Desk.{Delegating, Importing, Mapping};
ghost use Rattle.ds_model.specs.ProcessStep.{publish, publish_rule};
ghost use Rattle.ds_actor.specs.Sites.{SitePlan};
ghost use Rattle.ds_actor.specs.Seen.{UnderTables, process_of};
ghost use Rattle.ds_actor.specs.Asks.{IsAsked, IsAskInRange};
ghost use Rattle.ds_actor.specs.Asking.{SendsNothing};

use crate::ask::{DeskRequest, ProcessAsk};
use crate::names::number_in;
use ds_label::{Category, PubKey, Rule};
use ds_monitor::Monitor;
use ds_script::Proc;
use std::alloc::AllocError;

/// The rule by which a process may not act in public.
fn publish_refusal(process: &Proc) -> Option<Rule>
    ensures { (here : Key) → UnderTables here [] process.now.process
        (λ rows. (hand : Option Message) → result ≡ publish_rule (process_of here rows hand process.now.process)) }
{
    if let Err(rule) = process.may_publish() {
        return Some(rule);
    }
    None
}

/// Whether the process owns the category with this number.
fn owns(process: &Proc, number: u64) -> bool
    ensures { result ≡ has by_number number process.now.process.own }
{
    process.own().contains(number)
}

/// The rule by which a process may not delegate a category: `NotKnown`, `NotHeld`, then `NotPublic`.
fn delegate_refusal(here: &PubKey, process: &Proc, category: &Category) -> Option<Rule>
    ensures { UnderTables here.now [] process.now.process (λ rows. (hand : Option Message) → let x = process_of here.now rows hand process.now.process in
        result ≡ first_rule (unless (is_known here.now x.names category.now) (rules.NotKnown category.now) ∷ unless (has by_name category.now x.own) rules.NotHeld ∷ publish_rule x ∷ [])) }
{
    let Some(number) = number_in(here, process.names(), category) else {
        return Some(Rule::NotKnown(*category));
    };
    if !owns(process, number) {
        return Some(Rule::NotHeld);
    }
    publish_refusal(process)
}

/// What a process asks that delegates a category to the host with this number and key. Takes no memory.
pub(crate) fn ask_delegate(
    here: &PubKey,
    process: &Proc,
    reg: u8,
    category: &Category,
    host: u32,
    to: &PubKey,
    from: u64,
    until: u64,
) -> ProcessAsk
    requires { reg < 8 }
    ensures sends_nothing { SendsNothing result }
    ensures range { (site : SitePlan) → IsAskInRange site result }
    ensures asked { UnderTables here.now [] process.now.process (λ rows. (hand : Option Message) (y : Process) → let x = process_of here.now rows hand process.now.process in
        IsAsked here.now rows x y result (publish x (Delegating category.now to.now from until) reg host
        (first_rule (unless (is_known here.now x.names category.now) (rules.NotKnown category.now) ∷ unless (has by_name category.now x.own) rules.NotHeld ∷ publish_rule x ∷ [])))) }
{
    if let Some(rule) = delegate_refusal(here, process, category) {
        return ProcessAsk::Refused(rule);
    }
    ProcessAsk::PublicAct {
        request: DeskRequest::Delegating {
            category: *category,
            to: *to,
            from,
            until,
        },
        reg,
        host,
    }
}

/// What a process asks that imports the certificate in a register. `AllocError` where memory runs out.
pub(crate) fn ask_import(process: &Proc, reg: u8) -> Result<ProcessAsk, AllocError>
    requires { reg < 8 }
    ensures sends_nothing { IfOk result SendsNothing }
    ensures range { (site : SitePlan) → IfOk result (IsAskInRange site) }
    ensures asked { (here : Key) → UnderTables here [] process.now.process (λ rows. (hand : Option Message) (y : Process) → let x = process_of here rows hand process.now.process in
        IfOk result (λ a. IsAsked here rows x y a (publish x (Importing (register reg x.course)) 0 0 (publish_rule x)))) }
{
    if let Some(rule) = publish_refusal(process) {
        return Ok(ProcessAsk::Refused(rule));
    }
    let request = DeskRequest::Importing(process.register(reg).copy()?);
    Ok(ProcessAsk::PublicAct {
        request,
        reg: 0,
        host: 0,
    })
}

/// What a process asks that maps a category. Takes no memory.
pub(crate) fn ask_map(process: &Proc, category: &Category) -> ProcessAsk
    requires { category.now.number < 2 ^ 62 }
    ensures sends_nothing { SendsNothing result }
    ensures range { (site : SitePlan) → IsAskInRange site result }
    ensures asked { (here : Key) → UnderTables here [] process.now.process (λ rows. (hand : Option Message) (y : Process) → let x = process_of here rows hand process.now.process in
        IsAsked here rows x y result (publish x (Mapping category.now) 0 0 (publish_rule x))) }
{
    if let Some(rule) = publish_refusal(process) {
        return ProcessAsk::Refused(rule);
    }
    ProcessAsk::PublicAct {
        request: DeskRequest::Mapping(*category),
        reg: 0,
        host: 0,
    }
}
