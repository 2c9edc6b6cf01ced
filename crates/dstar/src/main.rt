//! The program: its words, the real input and output, and the status with which the process ends.
#![tactic(auto)]

mod call;
mod generated;
mod input;
mod mesh;
mod output;
mod respond;
mod simulate;
mod status;
#[cfg(test)]
mod tests;
mod top;

use crate::mesh::{dstar_mesh, is_mesh};
use crate::status::Status;
use crate::top::dstar_run;
use ds_base::{FileKeeper, NoGate, ReadSource, WriteSink};
use std::io::ErrorKind;
use std::process::ExitCode;
use std::thread::Threads;
use std::time::{SystemTime, UNIX_EPOCH};
use std::{env, io};

/// What `--help` prints.
const HELP: &str = "dstar: the exporter daemon of DStar\n\n\
    dstar sim < DOCUMENT         runs a JSON document of hosts and prints what happened\n\
    dstar mesh < DOCUMENT        runs all hosts of the document at once, on threads, and prints the events that they made and\n\
    \x20                            what happened\n\
    dstar keygen T I < SECRET    prints the public key of types T and index I, and its next leaf\n\
    dstar sign T I < INPUT       signs a message at the key's next leaf; the input is a secret, a line feed, the message\n\
    dstar verify < INPUT         says whether a signature is good; the input is a key, a line feed, a signature, a line\n\
    \x20                            feed, the message\n\
    dstar chain [MOMENT] < LINES prints the chain by which a key holds a category at a moment; the lines are the category,\n\
    \x20                            the key, and delegations\n\
    dstar gen N                  prints the summary of the run of a document made for N, a number from 1 to 1,000\n\
    dstar --help                 prints this\n\
    dstar --version              prints the version\n\n\
    Secrets, keys, signatures and certificates are in hex. T is 5.3, 5.4, 6.3 or 6.4, I a number from 0 to 32. The marks of\n\
    keys, which say which leaves are used up, are kept in the folder keep.\n\n\
    The status is 0 where all was written, 1 where the words have no form, 2 where the input failed, 3 where the output\n\
    failed, 4 where the input is longer than 16,777,216 bytes, 5 where it breaks a rule, 6 where memory ran out, 7 where the\n\
    marks can't be read or raised, 8 where the key has no leaf left, 10 where the answer is no.\n";

/// What `--version` prints.
const VERSION: &str = "dstar 1\n";

/// The words without the program's name.
fn words(rt: &HostRuntime) -> io::Result<Vec<String>> {
    let mut words = Vec::new(rt.alloc());
    for word in env::args(rt)?.skip(1) {
        words.push(word)?;
    }
    Ok(words)
}

/// The moment, in seconds since 1970; 0 where the clock can't be read or stands before it.
fn now(rt: &HostRuntime) -> u64 {
    match SystemTime::now(rt) {
        Ok(moment) => match moment.duration_since(UNIX_EPOCH) {
            Ok(since) => since.as_secs(),
            Err(_) => 0,
        },
        Err(_) => 0,
    }
}

/// Answers the words `--help` and `--version`, where these are all.
fn answer_of(words: &[String]) -> Option<&'static str> {
    match words {
        [word] => if word.as_str() == "--help" {
            Some(HELP)
        } else if word.as_str() == "--version" {
            Some(VERSION)
        } else {
            None
        },
        _ => None,
    }
}

/// How the call ends, with what it writes. Words that can't be read as text have no form.
fn ended<T: Threads + Sync>(rt: &HostRuntime, threads: &T) -> Status {
    let words = match words(rt) {
        Ok(words) => words,
        Err(error) => if error.kind() == ErrorKind::OutOfMemory {
            return Status::NoMemory;
        } else {
            return Status::Usage;
        },
    };
    if let Some(text) = answer_of(&words) {
        return match print!(rt; "{text}") {
            Ok(()) => Status::Ok,
            Err(_) => Status::WriteFault,
        };
    }
    let mut input = ReadSource::new(rt.stdin());
    let mut out = WriteSink::new(rt.stdout());
    if is_mesh(words.as_slice()) {
        return dstar_mesh(threads, rt.alloc(), &words, &mut input, &mut out, &NoGate);
    }
    let Ok(mut keeper) = FileKeeper::new(rt.alloc(), *rt, "keep") else {
        return Status::NoMemory;
    };
    dstar_run(
        rt.alloc(),
        &words,
        &mut input,
        &mut out,
        &mut keeper,
        now(rt),
    )
}

/// Says on standard error how the call ended, unless all was written.
fn report(rt: &HostRuntime, status: Status) {
    let _ = match status {
        Status::Ok => Ok(()),
        Status::Document(code, place) => eprintln!(rt; "dstar: document {code} at {place}"),
        other => eprintln!(rt; "dstar: status {}", other.code()),
    };
}

fn main(rt: HostRuntime) -> ExitCode {
    let status = ended(&rt, &rt);
    report(&rt, status);
    ExitCode::from(status.code())
}
