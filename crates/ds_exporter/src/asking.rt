//! What a process asks by the operation at its place.
#![tactic(auto)]

ghost use Rattle.std.specs.Prelude.{◌≡◌, ◌<◌, ◌^◌, None, Some, All, length, map, slice_get, IfOk, OnErr};
ghost use Rattle.ds_actor.specs.Asks.{IsAmongHosts, IsCopied};
ghost use Rattle.ds_actor.specs.Asking.{HasTable};
ghost use Rattle.ds_exporter.specs.HostStates.{HostProcess, process_of};
ghost use Rattle.ds_exporter.specs.Asking.{AsksSo, IsFreeFor, IsInRange, IsSameUnless, OuterAsks};
ghost use Rattle.ds_exporter.specs.Running.{inside_of};
ghost use Rattle.ds_exporter.specs.Sites.{seen_of};

use crate::exporter::Exporter;
use crate::parts::ProcList;
use crate::site::HostSite;
use ds_actor::{ProcessAsk, ask_outer};
use std::alloc::AllocError;

/// What the process at a place asks by its operation. A change of its label and a new category are done at once. `AllocError`
/// where memory runs out; nothing changed then.
#[tactic(auto, using(crate::proofs::Places::map_same))]
fn ask_at(
    procs: &mut ProcList,
    place: usize,
    index: u32,
    site: &HostSite,
) -> Result<ProcessAsk, AllocError>
    requires place { place < length procs.old.items }
    requires index { index < 2 ^ 30 }
    requires scripts { (x : HostProcess) → slice_get (map process_of procs.old.items) place ≡ Some x → All (IsAmongHosts (length (seen_of site.now).keys)) x.process.script }
    requires agreed { (x : HostProcess) → slice_get (map process_of procs.old.items) place ≡ Some x → HasTable (seen_of site.now).here x.process.names }
    ensures asked { IfOk result (λ a. (x : HostProcess) → slice_get (map process_of procs.old.items) place ≡ Some x
        → OuterAsks (seen_of site.now) index place x (map process_of procs.old.items) (map process_of procs.new.items) a) }
    ensures copied { IfOk result IsCopied }
    ensures err { OnErr result (map process_of procs.new.items ≡ map process_of procs.old.items) }
{
    let alloc = *procs.allocator();
    let ask = ask_outer(alloc, site, index, &mut procs[place].process)?;
    Ok(ask)
}

impl Exporter {
    /// What a process with an empty hand asks, whose operation isn't one inside it. A change of its label and a new category are
    /// done at once. `AllocError` where memory runs out; nothing changed then.
    pub(crate) fn ask(&mut self, index: u32) -> Result<ProcessAsk, AllocError>
        requires there { index < length self.old.procs }
        requires free { (x : HostProcess) → slice_get self.old.procs index ≡ Some x → x.hand ≡ None }
        requires outer { (x : HostProcess) → slice_get self.old.procs index ≡ Some x → inside_of x ≡ None }
        ensures same { IfOk result (IsSameUnless index self.old self.new) }
        ensures free { IfOk result (IsFreeFor index self.new) }
        ensures asks { IfOk result (AsksSo index self.new) }
        ensures range { IfOk result (IsInRange self.new) }
        ensures copied { IfOk result IsCopied }
        ensures desk { self.new.desk ≡ self.old.desk }
        ensures err { OnErr result (self.new ≡ self.old) }
    {
        let _rows = self.parts.desk.table.rows();
        let site = HostSite {
            desk: &self.parts.desk,
            keys: &self.parts.keys,
            boxes: &self.parts.boxes,
            lanes: &self.parts.lanes,
        };
        let ask = ask_at(&mut self.parts.procs, index as usize, index, &site)?;
        Ok(ask)
    }
}
