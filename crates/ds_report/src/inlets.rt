//! Inlets.
#![tactic(auto)]

ghost use Rattle.std.specs.Prelude.{◌≡◌, ◌++◌, ℕ, List, OnOk};
ghost use Rattle.ds_model.specs.Print.{last_text};
ghost use Rattle.ds_plan.specs.Keys.{host_keys};
ghost use Rattle.ds_exporter.specs.HostStates.{inlet_of};
ghost use Rattle.ds_exporter.specs.PlainHosts.{name_of_inlet, plain_inlet};
ghost use Rattle.ds_report.specs.Printings.{printing_of, planned};
ghost use Rattle.ds_report.specs.Inlets.{inlet_head, inlet_text};

use crate::names::{push_host_name, push_key_name};
use crate::plain::{push, push_counted, push_number};
use ds_inlet::Inlet;
use ds_label::PubKey;
use ds_plan::Doc;
use std::alloc::AllocError;

fn push_last(out: &mut Vec<u8>, doc: &Doc, last: Option<u32>) -> Result<(), AllocError>
    ensures { OnOk result (out.new.items ≡ out.old.items ++ last_text (printing_of doc.now) (planned doc.now) last) }
{
    match last {
        Some(number) => push_number(out, u64::from(number)),
        None => push(out, b"none"),
    }
}

/// Appends the front of an inlet's line: its host, and whose lane it is for.
fn push_head(
    out: &mut Vec<u8>,
    doc: &Doc,
    keys: &[PubKey],
    host: usize,
    exporter: &PubKey,
    lane: u32,
) -> Result<(), AllocError>
    requires { keys.now ≡ host_keys doc.now.hosts }
    ensures { OnOk result (out.new.items ≡ out.old.items ++ inlet_head (printing_of doc.now) (planned doc.now) host exporter.now lane) }
{
    push(out, b"inlet ")?;
    push_host_name(out, doc, host)?;
    push(out, b" from ")?;
    push_key_name(out, doc, keys, exporter)?;
    push_counted(out, b".", u64::from(lane))?;
    push(out, b" last ")
}

/// Appends an inlet's line.
#[tactic(auto, using(crate::proofs::Ended::section_of_inlet))]
pub fn push_inlet(
    out: &mut Vec<u8>,
    doc: &Doc,
    keys: &[PubKey],
    host: usize,
    inlet: &Inlet,
) -> Result<(), AllocError>
    requires { keys.now ≡ host_keys doc.now.hosts }
    ensures { OnOk result (out.new.items ≡ out.old.items ++ inlet_text (printing_of doc.now) (planned doc.now) host (name_of_inlet (inlet_of inlet.now)) (plain_inlet (inlet_of inlet.now))) }
{
    push_head(out, doc, keys, host, inlet.exporter(), inlet.lane())?;
    push_last(out, doc, inlet.last())?;
    push(out, b"\n")
}
