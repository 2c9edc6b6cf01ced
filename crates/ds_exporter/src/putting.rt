//! Messages to mailboxes of the own host.
#![tactic(auto)]

ghost use Rattle.std.specs.Prelude.{◌≡◌, ◌<◌, length, OnOk, OnErr};
ghost use Rattle.ds_box.specs.Boxes.{IsShortMail};
ghost use Rattle.ds_exporter.specs.PlainHosts.{plain_mail};
ghost use Rattle.ds_exporter.specs.Conditions.{IsMailNamed};
ghost use Rattle.ds_exporter.specs.Stamping.{IsBefore};
ghost use Rattle.ds_exporter.specs.Stepping.{Asks, IsFree, IsStepped, put_ask};

use crate::exporter::Exporter;
use crate::noting::{reserve_proc, sent_at};
use crate::posting::{put_at, reserve_box};
use ds_msg::LocalMessage;
use ds_script::{Actor, ActorKind};
use std::alloc::AllocError;

impl Exporter {
    /// A process puts a message into the mailbox at a place, or drops it where that is full; it notes that it sent either way.
    /// The entry has `kept`, which is equal to the message. `AllocError` where memory runs out; nothing changed then.
    pub(crate) fn put_mail(
        &mut self,
        stamp: u64,
        index: u32,
        place: usize,
        message: LocalMessage,
        kept: LocalMessage,
    ) -> Result<(), AllocError>
        requires there { index < length self.old.procs }
        requires free { IsFree index self.old }
        requires place { place < length self.old.boxes }
        requires asks { Asks index self.old (put_ask place (plain_mail self.old.desk.here self.old.desk.desk.rows message)) }
        requires named { IsMailNamed self.old.desk.here self.old.desk.desk.rows message }
        requires short { IsShortMail message }
        requires same { kept ≡ message }
        requires later { IsBefore stamp self.old }
        ensures ok { OnOk result (IsStepped stamp index self.old self.new) }
        ensures desk { self.new.desk ≡ self.old.desk }
        ensures err { OnErr result (self.new ≡ self.old) }
    {
        let who = Actor {
            kind: ActorKind::Proc,
            host: self.parts.host,
            index,
        };
        reserve_proc(&mut self.parts.procs, index as usize)?;
        reserve_box(&mut self.parts.boxes, place)?;
        put_at(&mut self.parts.boxes, place, stamp, who, message, kept);
        sent_at(&mut self.parts.procs, index as usize);
        Ok(())
    }
}
