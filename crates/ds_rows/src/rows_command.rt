//! The commands, over a keeper that goes on from line to line.

use crate::names::Names;
use crate::row::Row;
use crate::rows_base::raise_to;
use ds_base::MemKeeper;
use ds_commands::{Command, CommandFault, Reply, answer, command_of};
use std::alloc::{AllocError, Global};

/// The words from a place on as texts; one that is no text is left out.
fn texts(alloc: Global, words: &[&[u8]], from: usize) -> Result<Vec<String>, AllocError> {
    let mut all = Vec::new(alloc);
    for word in words.get(from..).unwrap_or(&[]) {
        if let Ok(text) = str::from_utf8(word) {
            all.push(String::from_str(alloc, text)?)?;
        }
    }
    Ok(all)
}

/// Says a reply, and gives the bytes that are printed after a yes.
fn say_reply(row: &mut Row<'_>, reply: Result<Reply, CommandFault>) -> Option<Vec<u8>> {
    match reply {
        Ok(Reply::Prints(bytes)) => {
            row.say("prints");
            row.say_text(bytes.as_slice());
            return Some(bytes.into_vec());
        }
        Ok(Reply::Denies(bytes)) => {
            row.say("denies");
            row.say_text(bytes.as_slice());
        }
        Ok(Reply::Breaks(code, line)) => {
            row.say("breaks");
            row.say_number(code as u64);
            row.say_number(line as u64);
        }
        Ok(Reply::Spends) => row.say("spends"),
        Err(CommandFault::KeeperFault) => row.say("KeeperFault"),
        Err(CommandFault::NoMemory) => row.full(),
    }
    None
}

/// Answers a command at moment 15 over this input, and gives what is printed after a yes.
fn answers(
    row: &mut Row<'_>,
    keeper: &mut MemKeeper,
    command: Option<Command>,
    input: &[u8],
) -> Option<Vec<u8>> {
    let Some(command) = command else {
        row.say("no form");
        return None;
    };
    if input.len() > 16_777_216 {
        row.bad();
        return None;
    }
    let reply = answer(row.alloc, keeper, command, 15, input);
    say_reply(row, reply)
}

/// The command of the words from a place on.
fn command(row: &mut Row<'_>, place: usize) -> Option<Command> {
    match texts(row.alloc, &row.words, place) {
        Ok(words) => command_of(&words),
        Err(_) => {
            row.full();
            None
        }
    }
}

/// Three texts, with a line feed between each.
fn lines(alloc: Global, first: &[u8], second: &[u8], third: &[u8]) -> Result<Vec<u8>, AllocError> {
    let mut all = Vec::from_slice(alloc, first)?;
    all.push(b'\n')?;
    all.extend_from_slice(second)?;
    all.push(b'\n')?;
    all.extend_from_slice(third)?;
    Ok(all)
}

/// A line's text without what follows it, from a place on.
fn line(text: &[u8], from: usize) -> &[u8] {
    let rest = text.get(from..).unwrap_or(&[]);
    match rest.iter().position(|byte| *byte == b'\n') {
        Some(place) => rest.get(..place).unwrap_or(&[]),
        None => rest,
    }
}

/// Says what `verify` says of the signature that `sign` printed.
fn verifies(row: &mut Row<'_>, keeper: &mut MemKeeper, key: &[u8], made: &[u8], message: &[u8]) {
    let head = line(made, 0);
    row.say_text(head);
    let signature = line(made, head.len().saturating_add(1));
    match lines(row.alloc, key, signature, message) {
        Ok(input) => {
            let _ = answers(row, keeper, Some(Command::Verify), &input);
        }
        Err(_) => row.full(),
    }
}

/// Signs so often over the keeper, by `sign 5.3 0`, and verifies each signature.
fn signs(row: &mut Row<'_>, names: &mut Names) {
    let times = row.small(1, 99);
    let said = row.bytes(names, 2);
    let message = row.bytes(names, 3);
    let key = row.bytes(names, 4);
    let command = command(row, 5);
    for _ in 0..times {
        match answers(row, &mut names.keeper, command, &said) {
            Some(made) => verifies(row, &mut names.keeper, &key, &made, &message),
            None => return,
        }
    }
}

/// Answers a command over the bytes of a name.
fn given(row: &mut Row<'_>, names: &mut Names, place: usize) -> Option<Vec<u8>> {
    let input = row.bytes(names, 1);
    let command = command(row, place);
    answers(row, &mut names.keeper, command, &input)
}

/// `given INPUT dstar WORDS`; `given INPUT as NAME dstar WORDS`, by which what is printed gets that name;
/// `signs N INPUT MESSAGE KEY WORDS`; `keeper fails CALLS keeps CALLS` begins a keeper without marks, `keeper mark ID M` raises
/// a mark.
pub(crate) fn row(row: &mut Row<'_>, names: &mut Names) {
    if row.fits("given _ dstar ..") {
        let _ = given(row, names, 3);
        return;
    }
    if row.fits("given _ as _ dstar ..") {
        if let Some(bytes) = given(row, names, 5) {
            let kept = names.keep(row.alloc, row.word(3), bytes);
            let _ = row.got(kept);
        }
        return;
    }
    if row.is(0, "signs") {
        signs(row, names);
        return;
    }
    if row.is(1, "mark") {
        let (id, mark) = (row.bytes(names, 2), row.number(3));
        raise_to(row, &mut names.keeper, &id, mark);
        return;
    }
    let (calls, kept) = (row.numbers(2), row.numbers(4));
    names.keeper = MemKeeper::new(Vec::new(row.alloc), calls, kept);
    row.say("new");
}
