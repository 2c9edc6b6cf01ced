//! Writes a text whole.

ghost use Rattle.std.specs.Prelude.{◌≤◌, OnOk, OnErr};
ghost use Rattle.ds_base.specs.Counts.{Rose, Appended};
ghost use Rattle.dstar.specs.Outside.{WroteFront};

use ds_base::{Failed, Sink};

/// Writes all of a text, piece by piece as the sink takes it.
pub(crate) fn write_all<W: Sink>(out: &mut W, text: &[u8]) -> Result<(), Failed>
    ensures faults { W.faults out.old ≤ W.faults out.new }
    ensures ok { OnOk result (Appended (W.tells out.old) text.now (W.tells out.new)) }
    ensures rose { OnErr result (Rose (W.faults out.old) (W.faults out.new)) }
    ensures front { OnErr result (WroteFront (W.tells out.old) text.now (W.tells out.new)) }
{
    let mut at = 0;
    while at < text.len() {
        at += out.put(&text[at..])?;
    }
    Ok(())
}
