//! A judged message in a process's hand.

ghost use Rattle.std.specs.Prelude.{List, IfOk};
ghost use Rattle.ds_label.specs.declared.category.Category.{Category};
ghost use Rattle.ds_label.specs.declared.category.PubKey.{PubKey};
ghost use Rattle.ds_model.specs.World.{Process};
ghost use Rattle.ds_model.specs.Plan.{HostPlan};
ghost use Rattle.ds_model.specs.ProcessStep.{lane_of, queue_at};
ghost use Rattle.ds_actor.specs.Sites.{with_site};
ghost use Rattle.ds_actor.specs.Asks.{IsAsked, IsCopied, IsAskInRange};
ghost use Rattle.ds_actor.specs.Asking.{IsOfHand};

use crate::ask::ProcessAsk;
use crate::site::Site;
use ds_msg::Message;
use std::alloc::AllocError;

/// What a process asks with this judged message in its hand: that it goes onto its lane. `AllocError` where memory runs out.
pub fn ask_queue<S: Site>(site: &S, message: &Message) -> Result<ProcessAsk, AllocError>
    ensures hand { IfOk result IsOfHand }
    ensures copied { IfOk result IsCopied }
    ensures range { IfOk result (IsAskInRange (S.seen site.now)) }
    ensures asked { (here : PubKey) (rows : List Category) (plan : HostPlan) (x y : Process) →
        IfOk result (λ a. IsAsked here rows x y a (queue_at x message.now (lane_of (with_site (S.seen site.now) rows plan) message.now.to message.now.label))) }
{
    let Some(place) = site.lane_to(&message.to, &message.label) else {
        return Ok(ProcessAsk::Waits);
    };
    let queued = message.copy()?;
    let kept = message.copy()?;
    Ok(ProcessAsk::Admit(place, queued, kept))
}
