//! Processes that step.
#![tactic(auto)]

ghost use Rattle.std.specs.Prelude.{◌≡◌, ◌<◌, ◌≤◌, ◌+◌, ℕ, List, None, Some, Ok, Err, length, slice_get, OnOk, OnErr, IfOk};
ghost use Rattle.ds_base.specs.Counts.{Rose};
ghost use Rattle.ds_base.specs.Marks.{MayBeRaised};
ghost use Rattle.ds_model.specs.Step.{step_proc};
ghost use Rattle.ds_scheme.specs.TheScheme.{scheme};
ghost use Rattle.ds_exporter.specs.HostStates.{HostProcess};
ghost use Rattle.ds_exporter.specs.PlainHosts.{arrived_at, conn_at, host_of, site_of};
ghost use Rattle.ds_exporter.specs.Moving.{Moves};
ghost use Rattle.ds_exporter.specs.Running.{inside_of};
ghost use Rattle.ds_exporter.specs.Entering.{Enters, step_access};
ghost use Rattle.ds_exporter.specs.Stamping.{IsBefore, IsUpTo};
ghost use Rattle.ds_exporter.specs.Stepping.{GoesAlong, Steps, proc_actor};

use crate::exporter::Exporter;
use crate::moved::{CoreFault, Moved};
use crate::queueing::has_hand;
use ds_actor::ProcessAsk;
use ds_base::Keeper;

impl Exporter {
    /// A step of a process with an empty hand whose operation isn't one inside it. Nothing changed after a fault.
    fn step_outside<K: Keeper>(
        &mut self,
        stamp: u64,
        index: u32,
        keeper: &mut K,
    ) -> Result<Moved, CoreFault>
        requires there { index < length self.old.procs }
        requires free { (x : HostProcess) → slice_get self.old.procs index ≡ Some x → x.hand ≡ None }
        requires outer { (x : HostProcess) → slice_get self.old.procs index ≡ Some x → inside_of x ≡ None }
        requires later { IsBefore stamp self.old }
        ensures ok { IfOk result (λ moved. Steps moved stamp index self.old self.new) }
        ensures err { OnErr result (self.new ≡ self.old) }
        ensures faults { K.faults keeper.old ≤ K.faults keeper.new }
        ensures fault { result ≡ Err CoreFault.KeeperFault → Rose (K.faults keeper.old) (K.faults keeper.new) }
        ensures untouched { result ≡ Err CoreFault.NoMemory → keeper.new ≡ keeper.old }
        ensures raised { OnOk result (GoesAlong self.old self.new (keeper.new ≡ keeper.old) (K.tells keeper.old) (K.tells keeper.new)) }
        ensures may_be_raised { result ≡ Err CoreFault.KeeperFault → MayBeRaised (K.tells keeper.old) self.old.desk.key.id (self.old.desk.desk.leaf + 1) (K.tells keeper.new) }
    {
        match self.ask(index)? {
            ProcessAsk::Waits => Ok(Moved::Still),
            ProcessAsk::Internal => Ok(Moved::Changed),
            ProcessAsk::Refused(rule) => {
                self.refuse_operation(index as usize, rule)?;
                Ok(Moved::Changed)
            }
            ProcessAsk::Put(place, message, kept) => {
                self.put_mail(stamp, index, place, message, kept)?;
                Ok(Moved::Changed)
            }
            ProcessAsk::Admit(_place, _message, _kept) => unreachable!(),
            ProcessAsk::TakeFrom { place, reg, slot } => {
                let moved = self.take_mail(stamp, index, place, reg, slot)?;
                Ok(moved)
            }
            ProcessAsk::PublicAct { request, reg, host } => {
                self.act(stamp, index, request, reg, host, keeper)?;
                Ok(Moved::Changed)
            }
            ProcessAsk::AsksJudgement(message) => {
                self.judge_sent(stamp, index, message)?;
                Ok(Moved::Changed)
            }
        }
    }

    /// A step of a process, by its place. With a judged message in hand it queues that on its lane, where there is room; else it
    /// does the operation at its place, or notes the rule that refuses it. A message to a mailbox of this host is put there or,
    /// where that is full, dropped; one to another host is judged by the desk and comes to the process's hand. It is still
    /// exactly where the host stays as it is: where the script has ended, the mailbox that it takes from is empty, or it jumps
    /// to itself.
    ///
    /// # Errors
    ///
    /// - `KeeperFault` where the keeper failed to raise the mark of the host's identity key, for a delegation: its count of faults
    ///   rose, and the mark may be raised all the same.
    /// - `NoMemory` where memory runs out. The keeper is as it was.
    ///
    /// Nothing changed after either.
    pub fn step<K: Keeper>(
        &mut self,
        stamp: u64,
        index: u32,
        keeper: &mut K,
    ) -> Result<Moved, CoreFault>
        requires later { IsBefore stamp self.old }
        requires there { index < length self.old.procs }
        ensures ok { IfOk result (λ moved. Moves moved (host_of self.old) (host_of self.new) (step_proc scheme (site_of self.old) (host_of self.old) index (slice_get (host_of self.old).procs index))) }
        ensures site { site_of self.new ≡ site_of self.old }
        ensures conns { self.new.conns ≡ self.old.conns }
        ensures named { (link : List ℕ) (place : ℕ) → conn_at link place self.new ≡ conn_at link place self.old }
        ensures arrived { (place : ℕ) → arrived_at place self.new ≡ arrived_at place self.old }
        ensures still { result ≡ Ok Moved.Still → self.new ≡ self.old }
        ensures err { OnErr result (self.new ≡ self.old) }
        ensures stamps { IsUpTo stamp self.new }
        ensures entered { OnOk result (Enters stamp (proc_actor self.old.host index) (step_access index self.old) self.old self.new) }
        ensures faults { K.faults keeper.old ≤ K.faults keeper.new }
        ensures fault { result ≡ Err CoreFault.KeeperFault → Rose (K.faults keeper.old) (K.faults keeper.new) }
        ensures untouched { result ≡ Err CoreFault.NoMemory → keeper.new ≡ keeper.old }
        ensures raised { OnOk result (GoesAlong self.old self.new (keeper.new ≡ keeper.old) (K.tells keeper.old) (K.tells keeper.new)) }
        ensures may_be_raised { result ≡ Err CoreFault.KeeperFault → MayBeRaised (K.tells keeper.old) self.old.desk.key.id (self.old.desk.desk.leaf + 1) (K.tells keeper.new) }
    {
        if has_hand(&self.parts.procs, index as usize) {
            let moved = self.queue(stamp, index)?;
            return Ok(moved);
        }
        if let Some(moved) = self.step_inside(stamp, index as usize)? {
            return Ok(moved);
        }
        let moved = self.step_outside(stamp, index, keeper)?;
        Ok(moved)
    }
}
