//! The objects of the outside: in memory with planned faults, over a reader and writer that breaks, and over files.

ghost use Rattle.std.specs.Prelude.{◌≤◌};

use crate::names::Names;
use crate::row::Row;
use ds_base::{
    CalmKeeper, CalmSink, CalmSource, Clock, FileKeeper, FixedClock, Gate, Keeper, MemKeeper,
    MemSink, MemSource, MemWire, NoGate, ReadSource, Sink, Source, Wire, WriteSink,
};
use std::io::{ErrorKind, Read, Write};
use std::{fs, io};

/// A reader and writer that is interrupted, moves one byte, fails, and then moves none.
#[derive(Drop)]
struct Broken {
    calls: u64,
}

impl Broken {
    fn step(&mut self) -> io::Result<bool> {
        self.calls = self.calls.saturating_add(1);
        match self.calls {
            1 => Err(ErrorKind::Interrupted.into()),
            2 => Ok(true),
            3 => Err(ErrorKind::Other.into()),
            _ => Ok(false),
        }
    }
}

impl Read for Broken {
    fn read(&mut self, buf: &mut [u8]) -> io::Result<usize> {
        if self.step()? && !buf.is_empty() {
            buf[0] = 7;
            return Ok(1);
        }
        Ok(0)
    }
}

impl Write for Broken {
    fn write(&mut self, buf: &[u8]) -> io::Result<usize> {
        if self.step()? && !buf.is_empty() {
            return Ok(1);
        }
        Ok(0)
    }

    fn flush(&mut self) -> io::Result<()> {
        Ok(())
    }
}

/// Takes of at most two bytes.
fn takes<S: Source>(row: &mut Row<'_>, source: &mut S, times: u32) {
    for _ in 0..times {
        let mut room = [0u8; 2];
        match source.take(&mut room) {
            Ok(0) => row.say("end"),
            Ok(count) => row.say_hex(room.get(..count).unwrap_or(&[])),
            Err(_) => row.say("Failed"),
        }
    }
}

/// Puts of 1, 2, 3; the sink is closed before the last.
fn puts<W: Sink>(row: &mut Row<'_>, sink: &mut W, times: u32) {
    for left in 0..times {
        if left + 1 == times {
            sink.close();
        }
        match sink.put(&[1, 2, 3]) {
            Ok(count) => row.say_number(count as u64),
            Err(_) => row.say("Failed"),
        }
    }
}

/// The mark of a name of 16 equal bytes.
fn says_mark<K: Keeper>(row: &mut Row<'_>, keeper: &mut K, name: u8) {
    match keeper.mark(&[name; 16]) {
        Ok(mark) => row.say_number(mark),
        Err(_) => row.say("Failed"),
    }
}

/// Raises the mark of the name whose bytes are all 7, and asks for it each time.
fn raises<K: Keeper>(row: &mut Row<'_>, keeper: &mut K, marks: &[u64]) {
    for to in marks {
        row.say(if keeper.raise(&[7; 16], *to).is_ok() {
            "raised"
        } else {
            "Failed"
        });
        says_mark(row, keeper, 7);
    }
}

/// Raises the mark of a name of 16 bytes.
pub(crate) fn raise_to<K: Keeper>(row: &mut Row<'_>, keeper: &mut K, name: &[u8], mark: u64) {
    let mut own = [0u8; 16];
    if name.len() != own.len() {
        return row.bad();
    }
    own.copy_from_slice(name);
    row.say(if keeper.raise(&own, mark).is_ok() {
        "raised"
    } else {
        "Failed"
    });
}

/// Listens, and then makes a connection of each kind so often.
fn connects<N: Wire<In = u64, Out = u64>>(row: &mut Row<'_>, wire: &mut N, times: u32) {
    row.say(if wire.listen(b"here").is_ok() {
        "listens"
    } else {
        "Failed"
    });
    for _ in 0..times {
        match wire.accept() {
            Ok(end) => row.say_number(end),
            Err(_) => row.say("Failed"),
        }
        match wire.connect(b"here") {
            Ok(end) => row.say_number(end),
            Err(_) => row.say("Failed"),
        }
    }
}

/// A keeper over files in this folder. It raises the marks of the name whose bytes are all 7, or tells that of another.
fn files(row: &mut Row<'_>, rt: &HostRuntime, folder: &str) {
    let Ok(mut keeper) = FileKeeper::new(row.alloc, *rt, folder) else {
        return row.full();
    };
    if row.is(2, "mark") {
        let name = row.byte(3);
        says_mark(row, &mut keeper, name);
    } else {
        let marks = row.numbers(3);
        raises(row, &mut keeper, &marks);
    }
}

/// What a file says.
fn text(row: &mut Row<'_>, rt: &HostRuntime) {
    let Ok(path) = str::from_utf8(row.word(2)) else {
        return row.bad();
    };
    match fs::read_to_string(rt, path) {
        Ok(text) => row.say(text.as_str()),
        Err(_) => row.bad(),
    }
}

fn source(row: &mut Row<'_>, names: &Names) {
    if row.fits("_ _ calm _ takes _") {
        let mut source = CalmSource::new(row.bytes(names, 3));
        let times = row.small(5, 9);
        takes(row, &mut source, times);
        return;
    }
    if row.fits("_ _ fails _ _ takes _") {
        let calls = row.numbers(3);
        let mut source = MemSource::new(row.bytes(names, 4), calls);
        let times = row.small(6, 9);
        takes(row, &mut source, times);
        return;
    }
    takes(row, &mut ReadSource::new(Broken { calls: 0 }), 3);
}

fn sink(row: &mut Row<'_>) {
    if row.fits("_ _ fails _ pieces _ puts _") {
        let calls = row.numbers(3);
        let room = row.small(5, 9).max(1) as usize;
        let mut sink = MemSink::new(Vec::new(row.alloc), room, calls);
        let times = row.small(7, 9);
        puts(row, &mut sink, times);
        row.say("holds");
        row.say_hex(sink.written());
        return;
    }
    if row.is(2, "calm") {
        puts(row, &mut CalmSink::new(), 1);
        return;
    }
    puts(row, &mut WriteSink::new(Broken { calls: 0 }), 3);
}

fn keeper(row: &mut Row<'_>) {
    if row.fits("_ _ calm raises _") {
        let marks = row.numbers(4);
        raises(row, &mut CalmKeeper::new(), &marks);
        return;
    }
    let (calls, kept) = (row.numbers(3), row.numbers(5));
    let mut keeper = MemKeeper::new(Vec::new(row.alloc), calls, kept);
    let marks = row.numbers(7);
    raises(row, &mut keeper, &marks);
}

fn wire(row: &mut Row<'_>) {
    let (accepts, others) = (row.numbers(2), row.numbers(3));
    let calls = row.numbers(5);
    let mut wire = MemWire::new(accepts, others, calls);
    let times = row.small(7, 9);
    connects(row, &mut wire, times);
}

/// `outside source calm BYTES takes N`, `outside source fails CALLS BYTES takes N`, `outside source breaks`,
/// `outside sink calm`, `outside sink fails CALLS pieces N puts N`, `outside sink breaks`, `outside keeper calm raises MARKS`,
/// `outside keeper fails CALLS keeps CALLS raises MARKS`, `outside wire ENDS ENDS fails CALLS meets N`, `outside clock N`,
/// `outside files OPERATION` over the files where the program runs, `outside new OPERATION` in a folder of their own, with
/// `mark NAME` and `raises MARKS`, `outside text PATH`.
pub(crate) fn row(row: &mut Row<'_>, rt: &HostRuntime, names: &Names) {
    if row.is(1, "source") {
        source(row, names);
        return;
    }
    if row.is(1, "sink") {
        sink(row);
        return;
    }
    if row.is(1, "keeper") {
        keeper(row);
        return;
    }
    if row.is(1, "wire") {
        wire(row);
        return;
    }
    if row.is(1, "clock") {
        NoGate.pass(3);
        let moment = row.number(2);
        row.say_number(FixedClock::new(moment).now());
        return;
    }
    if row.is(1, "text") {
        text(row, rt);
        return;
    }
    if row.is(1, "files") {
        files(row, rt, ".");
        return;
    }
    files(row, rt, "new");
}
