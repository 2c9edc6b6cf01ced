//! Processes: operations, and the order of actors.

ghost use Rattle.std.specs.Prelude.{◌≡◌, ◌≤◌, IfOk};

use crate::names::Names;
use crate::reading::{at, is};
use crate::row::Row;
use ds_label::LocalLabel;
use ds_script::{Actor, ActorKind, Op, OpList, Proc, REGISTER_LIMIT, UsableList};
use ds_wire::Bytes;

/// An operation at a place: `print R`, `jump P`, `take R SLOT`, `join R A B`, `set R BYTES`.
fn op(row: &mut Row<'_>, names: &Names, place: usize) -> Op {
    let word = row.word(place);
    let reg = row.byte(place.saturating_add(1));
    if is(word, "print") {
        return Op::Print { reg };
    }
    if is(word, "jump") {
        return Op::Jump { to: reg as u32 };
    }
    if is(word, "take") {
        return Op::Take {
            reg,
            slot: row.small(place.saturating_add(2), 9),
        };
    }
    if is(word, "set") {
        return Op::Set {
            reg,
            text: Bytes::from_vec(row.bytes(names, place.saturating_add(2))),
        };
    }
    Op::Join {
        reg,
        left: row.byte(place.saturating_add(2)),
        right: row.byte(place.saturating_add(3)),
    }
}

/// A process with this script and nothing else. None where it is no script.
fn process(row: &mut Row<'_>, script: OpList) -> Option<Proc> {
    if !script.is_script() {
        row.bad();
        return None;
    }
    let (label, own) = (LocalLabel::new(row.alloc), LocalLabel::new(row.alloc));
    let clear = LocalLabel::new(row.alloc);
    Some(Proc::new(
        row.alloc,
        script,
        0,
        label,
        own,
        clear,
        UsableList::new(row.alloc),
    ))
}

/// Says where the process is, what its registers hold that hold something, and its notes.
fn say_process(row: &mut Row<'_>, process: &Proc) {
    row.say("at");
    row.say_number(process.place() as u64);
    for register in process.registers() {
        if register.len() > 32 {
            row.say_number(register.len() as u64);
        } else if !register.is_empty() {
            row.say_hex(register.as_slice());
        }
    }
    row.say_notes(process.notes());
    row.say(if process.ended() { "ended" } else { "waits" });
}

/// Steps that stay inside the process, at most nine.
fn steps(row: &mut Row<'_>, process: &mut Proc) {
    for _ in 0..9 {
        match process.inner_step() {
            Ok(true) => {}
            Ok(false) => return,
            Err(_) => return row.full(),
        }
    }
}

/// Loads a register at an operation that waits.
fn loads(row: &mut Row<'_>, process: &mut Proc, reg: u8, bytes: Bytes) {
    if process.reserve().is_err() {
        return row.full();
    }
    let ended = process.place() as usize >= process.script().len();
    if ended || reg > 7 || bytes.len() > REGISTER_LIMIT {
        return row.bad();
    }
    process.finish(None, Some((reg, bytes)));
}

/// Reads a script, `op` words at each of these places, and goes through it.
fn script(row: &mut Row<'_>, names: &Names, places: &[usize]) {
    let mut script = OpList::new(row.alloc);
    for place in places {
        let op = op(row, names, *place);
        if script.push(op).is_err() {
            row.full();
        }
    }
    let Some(mut process) = process(row, script) else {
        return;
    };
    if row.is(0, "load") {
        let reg = row.byte(1);
        let bytes = Bytes::from_vec(row.bytes(names, 2));
        loads(row, &mut process, reg, bytes);
    } else {
        steps(row, &mut process);
    }
    say_process(row, &process);
}

fn actor_kind(word: &[u8]) -> ActorKind {
    if is(word, "clock") {
        ActorKind::Clock
    } else if is(word, "process") {
        ActorKind::Proc
    } else if is(word, "lane") {
        ActorKind::Lane
    } else {
        ActorKind::Conn
    }
}

/// An actor at a place, as in `clock 0 0`.
fn actor(row: &mut Row<'_>, place: usize) -> Actor {
    Actor {
        kind: actor_kind(row.word(place)),
        host: row.small(place.saturating_add(1), 9),
        index: row.small(place.saturating_add(2), 9),
    }
}

/// `script OPERATION`, `joins BYTES BYTES`, `load R BYTES OPERATION`, `fits SIZE OPERATION`, `actors LOWER HIGHER`.
pub(crate) fn row(row: &mut Row<'_>, names: &Names) {
    if row.is(0, "script") {
        if row.len() > 7 {
            script(row, names, &[1, 4, 7]);
        } else {
            script(row, names, &[1]);
        }
        return;
    }
    if row.is(0, "load") {
        script(row, names, &[3]);
        return;
    }
    if row.is(0, "fits") {
        let op = op(row, names, 2);
        let size = row.small(1, 9) as usize;
        row.say_if(op.fits(size));
        return;
    }
    let (lower, higher) = (actor(row, 1), actor(row, 4));
    row.say_if(lower < higher);
}
