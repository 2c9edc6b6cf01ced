//! The lines of a summary.

ghost use Rattle.std.specs.Prelude.{◌≡◌, ◌≤◌, ◌-◌, ◌++◌, [], ◌∷◌, IfOk, OnOk, codes, decimal, get_or};
ghost use Rattle.ds_summary.specs.Counts.{count};
ghost use Rattle.ds_summary.specs.Summaries.{count_lines, head_lines, rule_line, rule_lines, rule_names, summary};

use crate::counted::{Counted, times};
use crate::lines::{push, push_digest_line, push_line, push_number};
use std::alloc::{AllocError, Global};

/// The name of the rule with that number.
fn name_of(number: u8) -> &'static str
    ensures { result.now ≡ get_or rule_names (number - 1) [] }
{
    match number {
        0 | 1 => "NotFlow",
        2 => "GrantNotOwned",
        3 => "ClearNotHeld",
        4 => "NoLane",
        5 => "NoAddress",
        6 => "PeerNotTrusted",
        7 => "LaneFull",
        8 => "LaneLapsed",
        9 => "WrongHost",
        10 => "WrongLabel",
        11 => "SenderNotTrusted",
        12 => "NotKnown",
        13 => "NoBox",
        14 => "NotFlowToBox",
        15 => "BoxFull",
        16 => "NotFlowToTaker",
        17 => "LabelRefused",
        18 => "NotPublic",
        19 => "NotHeld",
        20 => "KeySpent",
        21 => "BadCert",
        22 => "StoreFull",
        23 => "TableFull",
        24 => "TooLong",
        25 => "TooMany",
        26 => "Stale",
        _ => "",
    }
}

/// Appends how often a rule refused, if it did.
fn push_rule(out: &mut Vec<u8>, name: &str, times: u64) -> Result<(), AllocError>
    ensures { OnOk result (out.new.items ≡ out.old.items ++ rule_line name.now times) }
{
    if times == 0 {
        return Ok(());
    }
    push(out, b"rule ")?;
    push(out, name.as_bytes())?;
    push(out, b" ")?;
    push_number(out, times)?;
    push(out, b"\n")
}

/// Appends how often each rule refused.
fn push_rules(out: &mut Vec<u8>, all: &[Counted]) -> Result<(), AllocError>
    ensures { OnOk result (out.new.items ≡ out.old.items ++ rule_lines (count all.now) 1 rule_names) }
{
    for number in 1..27u8 {
        push_rule(
            out,
            name_of(number),
            times(all, Counted::Refused(number)) as u64,
        )?;
    }
    Ok(())
}

fn push_head(out: &mut Vec<u8>, number: u32, events: usize) -> Result<(), AllocError>
    ensures { OnOk result (out.new.items ≡ out.old.items ++ head_lines number events) }
{
    push_line(out, b"gen ", u64::from(number))?;
    push_line(out, b"events ", events as u64)
}

fn push_counts(out: &mut Vec<u8>, all: &[Counted]) -> Result<(), AllocError>
    ensures { OnOk result (out.new.items ≡ out.old.items ++ count_lines (count all.now)) }
{
    push_line(out, b"queued ", times(all, Counted::Queued) as u64)?;
    push_line(out, b"frames ", times(all, Counted::Framed) as u64)?;
    push_line(out, b"put ", times(all, Counted::Put) as u64)?;
    push_line(out, b"took ", times(all, Counted::Took) as u64)
}

/// The summary, by its number, how many events there were, what was counted, and the run's text. `AllocError` where memory runs
/// out.
pub(crate) fn written(
    alloc: Global,
    number: u32,
    events: usize,
    all: &[Counted],
    text: &[u8],
) -> Result<Vec<u8>, AllocError>
    ensures { IfOk result (λ made. made.items ≡ summary number events (count all.now) text.now) }
{
    let mut out = Vec::new(alloc);
    push_head(&mut out, number, events)?;
    push_counts(&mut out, all)?;
    push_rules(&mut out, all)?;
    push_digest_line(&mut out, text)?;
    Ok(out)
}
