//! Clocks.
#![tactic(auto)]

ghost use Rattle.std.specs.Prelude.{◌≡◌, OnErr, OnOk, IfOk, Ok};
ghost use Rattle.ds_model.specs.Step.{ticked};
ghost use Rattle.ds_exporter.specs.PlainHosts.{host_of, site_of};
ghost use Rattle.ds_exporter.specs.Moving.{Moves};
ghost use Rattle.ds_exporter.specs.Conditions.{clock_actor};
ghost use Rattle.ds_exporter.specs.Entering.{Enters, tick_access};
ghost use Rattle.ds_exporter.specs.Stamping.{IsBefore, IsUpTo};

use crate::exporter::Exporter;
use crate::moved::Moved;
use ds_script::{Actor, ActorKind};
use std::alloc::AllocError;

impl Exporter {
    /// The host's moment, in seconds, becomes the greater of itself and `to`. Where `to` isn't above it, it is still, and the
    /// desk enters nothing. `AllocError` where memory runs out; nothing changed then.
    pub fn tick(&mut self, stamp: u64, to: u64) -> Result<Moved, AllocError>
        requires later { IsBefore stamp self.old }
        ensures ok { IfOk result (λ moved. Moves moved (host_of self.old) (host_of self.new) (ticked (site_of self.old) to (host_of self.old))) }
        ensures site { site_of self.new ≡ site_of self.old }
        ensures conns { self.new.conns ≡ self.old.conns }
        ensures still { result ≡ Ok Moved.Still → self.new ≡ self.old }
        ensures err { OnErr result (self.new ≡ self.old) }
        ensures stamps { IsUpTo stamp self.new }
        ensures entered { OnOk result (Enters stamp (clock_actor self.old.host) (tick_access to self.old) self.old self.new) }
    {
        if to <= self.parts.desk.moment {
            return Ok(Moved::Still);
        }
        let who = Actor {
            kind: ActorKind::Clock,
            host: self.parts.host,
            index: 0,
        };
        self.parts.desk.tick(stamp, who, to)?;
        Ok(Moved::Changed)
    }
}
