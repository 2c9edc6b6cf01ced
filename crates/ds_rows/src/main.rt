//! Shows the libraries by worked calls. No part of the product: the gate runs it and compares what it prints.
//!
//! A line of the input names a call by its words; the answer is the line with `->` and what the call answered. A line that
//! begins with `#` says what the lines below it show, and is printed as it is. A line that has no meaning is answered by
//! `bad line`. Expected answers come from the rules and formats, from other makers' keys and signatures, and not from
//! this program.
#![tactic(auto)]

mod names;
mod reading;
mod row;
mod rows_base;
mod rows_box;
mod rows_cert;
mod rows_chain;
mod rows_command;
mod rows_desk;
mod rows_flow;
mod rows_frame;
mod rows_inlet;
mod rows_label;
mod rows_lane;
mod rows_map;
mod rows_monitor;
mod rows_script;
mod rows_sig;
mod rows_wire;

use crate::names::Names;
use crate::reading::Stop;
use crate::row::Row;
use std::alloc::{AllocError, Global};
use std::io;
use std::io::{BufRead, BufReader};

/// The words of a line.
fn words<'a>(alloc: Global, line: &'a str) -> Result<Vec<&'a [u8]>, AllocError> {
    let mut all = Vec::new(alloc);
    for word in line.split_whitespace() {
        all.push(word.as_bytes())?;
    }
    Ok(all)
}

/// Whether the first word is one of these.
fn is_among(row: &Row<'_>, groups: &str) -> bool {
    groups.split(' ').any(|group| row.is(0, group))
}

/// Makes the call that the words name, and says what it answered.
fn answer(row: &mut Row<'_>, rt: &HostRuntime, names: &mut Names) {
    if is_among(row, "let tree show") {
        names::row(row, names);
        return;
    }
    if is_among(row, "wire") {
        rows_wire::row(row, names);
        return;
    }
    if is_among(row, "label numbers rules") {
        rows_label::row(row, names);
        return;
    }
    if is_among(row, "outside") {
        rows_base::row(row, rt, names);
        return;
    }
    if is_among(row, "script load fits actors") {
        rows_script::row(row, names);
        return;
    }
    if is_among(row, "verify verify-each verify-keys signer") {
        rows_sig::row(row, names);
        return;
    }
    if is_among(row, "read fronts good") {
        rows_cert::row(row, names);
        return;
    }
    if is_among(row, "stream spaces frame hello causes") {
        rows_frame::row(row, names);
        return;
    }
    if is_among(row, "edges ladder chain book store addresses") {
        rows_chain::row(row, names);
        return;
    }
    answer_above(row, names);
}

/// The same for the parts of a host.
fn answer_above(row: &mut Row<'_>, names: &mut Names) {
    if is_among(row, "map") {
        rows_map::row(row, names);
        return;
    }
    if is_among(row, "monitor") {
        rows_monitor::row(row);
        return;
    }
    if is_among(row, "desk") {
        rows_desk::row(row, names);
        return;
    }
    if is_among(row, "flow") {
        rows_flow::row(row, names);
        return;
    }
    if is_among(row, "given signs keeper") {
        rows_command::row(row, names);
        return;
    }
    if is_among(row, "mailbox") {
        rows_box::row(row);
        return;
    }
    if is_among(row, "lane") {
        rows_lane::row(row);
        return;
    }
    if is_among(row, "inlet connection copies cuts") {
        rows_inlet::row(row, names);
        return;
    }
    row.bad();
}

/// Appends what a line is answered.
fn answered(
    alloc: Global,
    rt: &HostRuntime,
    names: &mut Names,
    words: Vec<&[u8]>,
    out: &mut String,
) -> Result<(), AllocError> {
    let mut row = Row::new(alloc, words);
    answer(&mut row, rt, names);
    match row.end() {
        Ok(said) => out.push_str(said.as_str()),
        Err(Stop::BadLine) => out.push_str(" bad line"),
        Err(Stop::NoMemory) => Err(AllocError),
    }
}

/// What is printed for a line.
fn printed(
    alloc: Global,
    rt: &HostRuntime,
    names: &mut Names,
    line: &str,
) -> Result<String, AllocError> {
    let words = words(alloc, line)?;
    let mut out = String::new(alloc);
    if words.is_empty() || line.starts_with('#') {
        out.push_str(line)?;
        return Ok(out);
    }
    out.push_str(line.get(..100).unwrap_or(line))?;
    out.push_str(if line.len() > 100 { " .. ->" } else { " ->" })?;
    answered(alloc, rt, names, words, &mut out)?;
    Ok(out)
}

fn main(rt: HostRuntime) -> io::Result<()> {
    let alloc = rt.alloc();
    let mut names = Names::new(alloc);
    for line in BufReader::new(alloc, rt.reader())?.lines(alloc) {
        let line = line?;
        let text = printed(alloc, &rt, &mut names, line.as_str())?;
        println!(rt; "{text}")?;
    }
    Ok(())
}
