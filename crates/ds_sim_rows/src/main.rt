//! Shows the runs of worked documents. No part of the product: the gate runs it and compares what it prints.
//!
//! A line of the input that begins with `#` says what the document below it shows, and is printed as it is. Any other line is a
//! document, and is answered by the text of its run, or by `document CODE at PLACE`. Expected answers come from the rules and
//! formats and from another program, and not from this one.
#![tactic(auto)]

use ds_doc::{DocFault, read};
use ds_sim::run_text;
use std::alloc::{AllocError, Global};
use std::io;
use std::io::{BufRead, BufReader};

/// The text of the run of a document that the bytes say.
fn simulate(alloc: Global, bytes: &[u8]) -> Result<Vec<u8>, DocFault> {
    let doc = read(alloc, bytes)?;
    let text = run_text(alloc, doc)?;
    Ok(text)
}

/// What a line is answered.
fn answer(alloc: Global, line: &str, out: &mut String) -> Result<(), AllocError> {
    match simulate(alloc, line.as_bytes()) {
        Ok(text) => {
            if let Ok(text) = str::from_utf8(text.as_slice()) {
                out.push_str(text)?;
            }
            Ok(())
        }
        Err(DocFault::Refused(code, place)) => {
            out.push_str("document ")?;
            push_number(out, u64::from(code))?;
            out.push_str(" at ")?;
            push_number(out, place as u64)?;
            out.push_str("\n")?;
            Ok(())
        }
        Err(DocFault::NoMemory) => Err(AllocError),
    }
}

/// Appends a number in decimal.
fn push_number(out: &mut String, number: u64) -> Result<(), AllocError> {
    let mut buffer = itoa::Buffer::new();
    out.push_str(buffer.format(number))?;
    Ok(())
}

fn main(rt: HostRuntime) -> io::Result<()> {
    let alloc = rt.alloc();
    for line in BufReader::new(alloc, rt.reader())?.lines(alloc) {
        let line = line?;
        let mut out = String::new(alloc);
        if line.starts_with('#') {
            out.push_str(line.as_str())?;
            out.push_str("\n")?;
        } else {
            answer(alloc, line.as_str(), &mut out)?;
        }
        print!(rt; "{out}")?;
    }
    Ok(())
}
