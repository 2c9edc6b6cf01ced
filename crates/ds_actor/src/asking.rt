//! What a process asks by the operation at its place.

ghost use Rattle.std.specs.Prelude.{◌≡◌, ◌<◌, ◌^◌, [], Option, All, IfOk, OnErr, IsTrue, length, slice_get};
ghost use Rattle.ds_msg.specs.declared.message.Message.{Message};
ghost use Rattle.ds_model.specs.Plan.{HostPlan};
ghost use Rattle.ds_model.specs.ProcessStep.{ask_outer as asks_outer};
ghost use Rattle.ds_map.specs.Labels.{have_names};
ghost use Rattle.ds_actor.specs.Usable.{IsAgreed};
ghost use Rattle.ds_actor.specs.Sites.{with_site};
ghost use Rattle.ds_actor.specs.Seen.{UnderTables, proc_labels, process_of};
ghost use Rattle.ds_actor.specs.Asks.{HasMailNames, IsAmongHosts, IsAskInRange, IsAsked, IsCopied, StaysUnless};
ghost use Rattle.ds_actor.specs.Asking.{HasTable, IsAnswer, IsOfOperation, IsReady, MovesInside};

use crate::ask::ProcessAsk;
use crate::labels::{new_category, set_label};
use crate::publishing::{ask_delegate, ask_import, ask_map};
use crate::sending::ask_send;
use crate::site::Site;
use crate::taking::ask_take;
use ds_script::{Op, Proc};
use std::alloc::{AllocError, Global};

/// What a process asks by the operation at its place, where there is room for what follows.
fn ask_current<S: Site>(
    alloc: Global,
    site: &S,
    index: u32,
    process: &mut Proc,
) -> Result<ProcessAsk, AllocError>
    requires index { index < 2 ^ 30 }
    requires scripts { All (IsAmongHosts (length (S.seen site.now).keys)) process.old.process.script }
    requires agreed { HasTable (S.seen site.now).here process.old.process.names }
    requires room { 0 < process.old.room }
    requires spare { 0 < process.old.spare }
    ensures ok { IfOk result
        (IsAnswer (S.seen site.now) index (slice_get process.old.process.script process.old.process.course.place) process.old process.new) }
    ensures script { process.new.process.script ≡ process.old.process.script }
    ensures err { OnErr result (process.new.process ≡ process.old.process) }
{
    let Some(op) = process.current() else {
        return Ok(ProcessAsk::Waits);
    };
    match op {
        Op::Send {
            host,
            slot,
            reg,
            label,
            own,
            clear,
        } => ask_send(alloc, site, process, *host, *slot, *reg, label, own, clear),
        Op::Take { reg, slot } => Ok(ask_take(site, index, process, *reg, *slot)),
        Op::SetLabel { label } => {
            let label = label.copy()?;
            set_label(alloc, site.here(), process, label)
        }
        Op::NewCat { kind } => {
            let kind = *kind;
            new_category(site.here(), index, process, kind)
        }
        Op::Delegate {
            reg,
            category,
            to,
            from,
            until,
        } => Ok(ask_delegate(
            site.here(),
            process,
            *reg,
            category,
            *to,
            site.key(*to),
            *from,
            *until,
        )),
        Op::Map { category } => Ok(ask_map(process, category)),
        Op::Import { reg } => ask_import(process, *reg),
        Op::Set { .. } | Op::Join { .. } | Op::IfEq { .. } | Op::Jump { .. } | Op::Print { .. } =>
            Ok(ProcessAsk::Waits),
    }
}

/// What the process with this index asks by the operation at its place. A change of its label and a new category are done at
/// once: `Internal`. An operation that stays inside the process waits here, and so does an ended process. For whatever is
/// asked of a shared object there is room for the end of the operation and for a grant.
///
/// It needs an index below 2^30, a script whose hosts are among the site's, and usable names that have the numbers of one
/// table. After `AllocError`, which says that memory ran out, the process is the same.
pub fn ask_outer<S: Site>(
    alloc: Global,
    site: &S,
    index: u32,
    process: &mut Proc,
) -> Result<ProcessAsk, AllocError>
    requires index { index < 2 ^ 30 }
    requires scripts { All (IsAmongHosts (length (S.seen site.now).keys)) process.old.process.script }
    requires agreed { HasTable (S.seen site.now).here process.old.process.names }
    ensures copied { IfOk result IsCopied }
    ensures range { IfOk result (IsAskInRange (S.seen site.now)) }
    ensures operation { IfOk result IsOfOperation }
    ensures ready { IfOk result (λ a. IsReady a process.new) }
    ensures still { IfOk result (λ a. StaysUnless a process.old process.new) }
    ensures moved { IfOk result (λ a. MovesInside a process.old.process process.new.process) }
    ensures script { process.new.process.script ≡ process.old.process.script }
    ensures err { OnErr result (process.new.process ≡ process.old.process) }
    ensures names { UnderTables (S.seen site.now).here [] process.old.process (λ rows. IsAgreed (S.seen site.now).here rows process.new.process.names) }
    ensures labels { UnderTables (S.seen site.now).here [] process.old.process
        (λ rows. IsTrue (have_names (S.seen site.now).here rows (proc_labels process.new.process))) }
    ensures mail { UnderTables (S.seen site.now).here [] process.old.process (λ rows. IfOk result (HasMailNames (S.seen site.now).here rows)) }
    ensures asked { UnderTables (S.seen site.now).here (S.seen site.now).boxes process.old.process (λ rows. (plan : HostPlan) (hand : Option Message) →
        let here = (S.seen site.now).here in let q = with_site (S.seen site.now) rows plan in
        let x = process_of here rows hand process.old.process in let y = process_of here rows hand process.new.process in
        IfOk result (λ a. IsAsked here rows x y a (asks_outer q index x (slice_get x.script x.course.place)))) }
{
    process.reserve()?;
    ask_current(alloc, site, index, process)
}
