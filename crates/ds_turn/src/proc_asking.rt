//! What a process asks of its host.

ghost use Rattle.std.specs.Prelude.{◌≡◌, ◌+◌, IfOk, IsTrue, OnErr};
ghost use Rattle.ds_label.specs.declared.category.PubKey.{PubKey as Key};
ghost use Rattle.ds_actor.specs.Asking.{HasTable};
ghost use Rattle.ds_turn.specs.Nodes.{seen_of};
ghost use Rattle.ds_turn.specs.ProcAsks.{Answers, IsChecked, MayStep};

use crate::node::Node;
use crate::proc_names::went_on;
use crate::proc_record::RecordedProc;
use ds_actor::{ProcessAsk, Site, ask_outer};
use ds_label::PubKey;
use ds_script::{Op, Proc, Usable};
use std::alloc::{AllocError, Global};
use std::sync::Wait;

/// Goes on where that holds; where it doesn't it waits forever.
pub(crate) fn wait_for<R: Wait>(rt: &R, holds: bool)
    ensures { IsTrue holds }
{
    for _ in rt.forever() {
        if holds {
            return;
        }
    }
    unreachable!()
}

/// One above this stamp; where there is none it waits forever.
pub(crate) fn stamp_above<R: Wait>(rt: &R, stamp: u64) -> u64
    ensures { result ≡ stamp + 1 }
{
    wait_for(rt, stamp < u64::MAX);
    stamp + 1
}

/// The process's usable names, where its operation may change them; else none.
fn names_before(alloc: Global, process: &Proc) -> Result<Vec<Usable>, AllocError>
    ensures { IfOk result (λ names. (here : Key) → HasTable here process.now.process.names → HasTable here names.items) }
{
    match process.current() {
        Some(Op::SetLabel { .. } | Op::NewCat { .. }) => process.names().to_vec(alloc),
        _ => Ok(Vec::new(alloc)),
    }
}

/// Goes on where an operation asks for something, and where its names have the numbers of a table after a step inside the
/// process; else it waits forever.
fn check<R: Wait>(rt: &R, here: &PubKey, before: &[Usable], process: &Proc, ask: &ProcessAsk)
    ensures { IsChecked here.now before.now process.now.process.names ask.now }
{
    match ask {
        ProcessAsk::Waits => wait_for(rt, false),
        ProcessAsk::Internal => wait_for(rt, went_on(here, before, process.names())),
        _ => {}
    }
}

/// What a process with an empty hand asks, whose script hasn't ended and whose operation isn't one inside it. A change of its
/// label and a new category are done at once. There is room for what follows. `AllocError` where memory runs out; only the room
/// changed then.
pub(crate) fn ask_turn<R: Wait>(
    rt: &R,
    node: &Node,
    process: &mut RecordedProc,
) -> Result<ProcessAsk, AllocError>
    requires may { MayStep (seen_of node.now) process.old.proc }
    ensures ok { IfOk result (Answers (seen_of node.now) process.old.proc process.new) }
    ensures err { OnErr result (process.new.proc ≡ process.old.proc) }
{
    process.reserve()?;
    let before = names_before(process.allocator(), process.process())?;
    let ask = process.ask(node)?;
    check(rt, node.here(), before.as_slice(), process.process(), &ask);
    Ok(ask)
}
