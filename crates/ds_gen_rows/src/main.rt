//! Shows the summaries of the runs of generated documents. No part of the product: the gate runs it and compares what it prints.
//!
//! A line of the input is a number from 1 to 1,000, and is answered by the summary of the run of the document for it. Expected
//! answers come from another program, and not from this one.
#![tactic(auto)]

use ds_gen::generate;
use ds_summary::run_summary;
use std::alloc::{AllocError, Global};
use std::io;
use std::io::{BufRead, BufReader};

/// What a line is answered.
fn answer(alloc: Global, line: &str) -> Result<Vec<u8>, AllocError> {
    match line.parse::<u32>() {
        Ok(number) => if number <= 1000 {
            let doc = generate(alloc, number)?;
            run_summary(alloc, number, doc)
        } else {
            Ok(Vec::new(alloc))
        },
        Err(_) => Ok(Vec::new(alloc)),
    }
}

fn main(rt: HostRuntime) -> io::Result<()> {
    let alloc = rt.alloc();
    for line in BufReader::new(alloc, rt.reader())?.lines(alloc) {
        let line = line?;
        let text = answer(alloc, line.as_str())?;
        if let Ok(text) = str::from_utf8(text.as_slice()) {
            print!(rt; "{text}")?;
        }
    }
    Ok(())
}
