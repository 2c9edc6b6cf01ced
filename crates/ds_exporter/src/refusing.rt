//! Operations that are refused.
#![tactic(auto)]

ghost use Rattle.std.specs.Prelude.{◌≡◌, ◌<◌, ℕ, length, OnOk, OnErr};
ghost use Rattle.ds_model.specs.ProcessStep.{refused};
ghost use Rattle.ds_exporter.specs.Stamping.{IsBefore};
ghost use Rattle.ds_exporter.specs.Stepping.{Asks, IsFree, IsStepped};

use crate::exporter::Exporter;
use crate::noting::{refused_at, reserve_proc};
use ds_label::Rule;
use std::alloc::AllocError;

impl Exporter {
    /// A process whose operation a rule refuses: it notes the rule and moves on. `AllocError` where memory runs out; nothing
    /// changed then.
    pub(crate) fn refuse_operation(&mut self, place: usize, rule: Rule) -> Result<(), AllocError>
        requires there { place < length self.old.procs }
        requires free { IsFree place self.old }
        requires asks { Asks place self.old (refused rule) }
        ensures ok { (stamp : ℕ) → IsBefore stamp self.old → OnOk result (IsStepped stamp place self.old self.new) }
        ensures desk { self.new.desk ≡ self.old.desk }
        ensures err { OnErr result (self.new ≡ self.old) }
    {
        reserve_proc(&mut self.parts.procs, place)?;
        refused_at(&mut self.parts.procs, place, rule);
        Ok(())
    }
}
