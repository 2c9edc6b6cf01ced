//! Shows the runs in threads of worked documents. No part of the product: the gate runs it and compares what it prints.
//!
//! A line of the input that begins with `#` says what the document below it shows, and is printed as it is. Any other line is a
//! document, and is answered by the text of its run in threads, or by `document CODE at PLACE`. The workers of the slots 1 and 2
//! are held until both have come where the line before said `# both`; then `met` and whether each met the other is printed besides.
#![tactic(auto)]

mod gate;

use crate::gate::Both;
use ds_base::{Gate, NoGate};
use ds_doc::{DocFault, read_without_events};
use ds_mesh::mesh_text;
use std::alloc::{AllocError, Global};
use std::io;
use std::io::{BufRead, BufReader};
use std::sync::atomic::Ordering;
use std::thread::Threads;

/// The text of the run in threads of a document that the bytes say.
fn run<T: Threads + Sync, G: Gate + Sync>(
    rt: &T,
    gate: &G,
    alloc: Global,
    bytes: &[u8],
) -> Result<Vec<u8>, DocFault> {
    let (doc, identities) = read_without_events(rt, alloc, bytes)?;
    let text = mesh_text(rt, gate, alloc, doc, identities)?;
    Ok(text)
}

/// What a line is answered.
fn answer<T: Threads + Sync, G: Gate + Sync>(
    rt: &T,
    gate: &G,
    alloc: Global,
    line: &str,
    out: &mut String,
) -> Result<(), AllocError> {
    match run(rt, gate, alloc, line.as_bytes()) {
        Ok(text) => {
            if let Ok(text) = str::from_utf8(text.as_slice()) {
                out.push_str(text)?;
            }
            Ok(())
        }
        Err(DocFault::Refused(code, place)) => {
            out.push_str("document ")?;
            push_number(out, u64::from(code))?;
            out.push_str(" at ")?;
            push_number(out, place as u64)?;
            out.push_str("\n")?;
            Ok(())
        }
        Err(DocFault::NoMemory) => Err(AllocError),
    }
}

/// What a line is answered where its workers meet at a gate.
fn answer_both<T: Threads + Sync>(
    rt: &T,
    alloc: Global,
    line: &str,
    out: &mut String,
) -> Result<(), AllocError> {
    let gate = Both::new();
    answer(rt, &gate, alloc, line, out)?;
    out.push_str("met ")?;
    push_number(out, gate.met[0].load(Ordering::SeqCst))?;
    out.push_str(" ")?;
    push_number(out, gate.met[1].load(Ordering::SeqCst))?;
    out.push_str("\n")?;
    Ok(())
}

/// Appends a number in decimal.
fn push_number(out: &mut String, number: u64) -> Result<(), AllocError> {
    let mut buffer = itoa::Buffer::new();
    out.push_str(buffer.format(number))?;
    Ok(())
}

fn main(rt: HostRuntime) -> io::Result<()> {
    let alloc = rt.alloc();
    let mut both = false;
    for line in BufReader::new(alloc, rt.reader())?.lines(alloc) {
        let line = line?;
        let mut out = String::new(alloc);
        if line.starts_with('#') {
            out.push_str(line.as_str())?;
            out.push_str("\n")?;
        } else if both {
            answer_both(&rt, alloc, line.as_str(), &mut out)?;
        } else {
            answer(&rt, &NoGate, alloc, line.as_str(), &mut out)?;
        }
        both = line.starts_with("# both");
        print!(rt; "{out}")?;
    }
    Ok(())
}
