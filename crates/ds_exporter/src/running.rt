//! Operations inside a process.
#![tactic(auto)]

ghost use Rattle.std.specs.Prelude.{◌≡◌, ◌≢◌, ◌↔◌, ◌<◌, Some, None, length, map, slice_get, OnOk, OnErr, IfOk};
ghost use Rattle.ds_model.specs.Lists.{at};
ghost use Rattle.ds_model.specs.Step.{step_proc};
ghost use Rattle.ds_scheme.specs.TheScheme.{scheme};
ghost use Rattle.ds_exporter.specs.HostStates.{HostProcess, process_of};
ghost use Rattle.ds_exporter.specs.PlainHosts.{host_of, site_of};
ghost use Rattle.ds_exporter.specs.Running.{inside_of, ran_inside};
ghost use Rattle.ds_exporter.specs.Entering.{Enters, step_access};
ghost use Rattle.ds_exporter.specs.Stamping.{IsBefore, IsUpTo};
ghost use Rattle.ds_exporter.specs.Stepping.{proc_actor};

use crate::exporter::Exporter;
use crate::moved::Moved;
use crate::parts::{ProcList, ProcPart};
use std::alloc::AllocError;

impl ProcPart {
    /// Runs the next operation where it stays inside the process, and says what it did; none where it doesn't. After
    /// `AllocError`, which says that memory ran out, the process is the same.
    #[tactic(auto, using(crate::proofs::Runs::ran_is, crate::proofs::Runs::none_ran, crate::proofs::Runs::place_same, crate::proofs::Runs::inside_some))]
    pub(crate) fn run_inside(&mut self) -> Result<Option<Moved>, AllocError>
        ensures ok { OnOk result (process_of self.new ≡ ran_inside (process_of self.old)) }
        ensures outer { IfOk result (λ ran. (ran ≡ None) ↔ (inside_of (process_of self.old) ≡ None)) }
        ensures still { IfOk result (λ ran. ran ≡ Some Moved.Still → ran_inside (process_of self.old) ≡ process_of self.old) }
        ensures changed { IfOk result (λ ran. ran ≡ Some Moved.Changed → ran_inside (process_of self.old) ≢ process_of self.old) }
        ensures err { OnErr result (process_of self.new ≡ process_of self.old) }
    {
        let before = self.process.place();
        if !self.process.inner_step()? {
            return Ok(None);
        }
        if self.process.place() == before {
            return Ok(Some(Moved::Still));
        }
        Ok(Some(Moved::Changed))
    }
}

/// Runs the next operation of the process at a place where it stays inside the process, and says what it did; none where it
/// doesn't.
#[tactic(auto, using(crate::proofs::Places::map_at_here, crate::proofs::Places::map_same))]
fn run_at(procs: &mut ProcList, place: usize) -> Result<Option<Moved>, AllocError>
    requires { place < length procs.old.items }
    ensures ok { OnOk result (map process_of procs.new.items ≡ at place ran_inside (map process_of procs.old.items)) }
    ensures outer { IfOk result (λ ran. (x : HostProcess) → slice_get (map process_of procs.old.items) place ≡ Some x → (ran ≡ None) ↔ (inside_of x ≡ None)) }
    ensures still { IfOk result (λ ran. (x : HostProcess) → slice_get (map process_of procs.old.items) place ≡ Some x → ran ≡ Some Moved.Still → ran_inside x ≡ x) }
    ensures changed { IfOk result (λ ran. (x : HostProcess) → slice_get (map process_of procs.old.items) place ≡ Some x → ran ≡ Some Moved.Changed → ran_inside x ≢ x) }
    ensures err { OnErr result (map process_of procs.new.items ≡ map process_of procs.old.items) }
{
    procs[place].run_inside()
}

impl Exporter {
    /// A step of a process with an empty hand, by its place: the next operation, where it stays inside the process, and whether
    /// that changed anything. None where there is no such operation; nothing changed then. After `AllocError`, which says that
    /// memory ran out, nothing changed.
    pub(crate) fn step_inside(
        &mut self,
        stamp: u64,
        place: usize,
    ) -> Result<Option<Moved>, AllocError>
        requires place { place < length self.old.procs }
        requires free { (x : HostProcess) → slice_get self.old.procs place ≡ Some x → x.hand ≡ None }
        requires later { IsBefore stamp self.old }
        ensures state { OnOk result (self.new ≡ record self.old { procs = at place ran_inside self.old.procs }) }
        ensures host { IfOk result (λ ran. ran ≢ None → host_of self.new ≡ step_proc scheme (site_of self.old) (host_of self.old) place (slice_get (host_of self.old).procs place)) }
        ensures outer { IfOk result (λ ran. ran ≡ None → (self.new ≡ self.old) × ((x : HostProcess) → slice_get self.old.procs place ≡ Some x → inside_of x ≡ None)) }
        ensures still { IfOk result (λ ran. ran ≡ Some Moved.Still → self.new ≡ self.old) }
        ensures changed { IfOk result (λ ran. ran ≡ Some Moved.Changed → host_of self.new ≢ host_of self.old) }
        ensures site { OnOk result (site_of self.new ≡ site_of self.old) }
        ensures entered { IfOk result (λ ran. ran ≢ None
            → Enters stamp (proc_actor self.old.host place) (step_access place self.old) self.old self.new) }
        ensures err { OnErr result (self.new ≡ self.old) }
        ensures stamps { IsUpTo stamp self.new }
    {
        let ran = run_at(&mut self.parts.procs, place)?;
        Ok(ran)
    }
}
