//! A row: its words, what is said to it, and why nothing can be said.
//!
//! A word that can't be read makes the row a bad line, and stands for 0 or for nothing until the row ends.

ghost use Rattle.std.specs.Prelude.{◌≤◌};

use crate::names::{Names, category, key, pieces};
use crate::reading::{Stop, at, fits, is, number, numbers, small};
use ds_label::{Category, Kind, Label, LocalLabel, PubKey};
use ds_script::Note;
use std::alloc::Global;

/// A row.
#[derive(Drop)]
pub(crate) struct Row<'a> {
    pub(crate) alloc: Global,
    pub(crate) words: Vec<&'a [u8]>,
    said: String,
    stop: Option<Stop>,
}

impl<'a> Row<'a> {
    pub(crate) fn new(alloc: Global, words: Vec<&'a [u8]>) -> Row<'a> {
        Row {
            alloc,
            words,
            said: String::new(alloc),
            stop: None,
        }
    }

    /// What was said, or why nothing can be said.
    pub(crate) fn end(self) -> Result<String, Stop> {
        match self.stop {
            Some(stop) => Err(stop),
            None => Ok(self.said),
        }
    }

    /// The row is a bad line.
    pub(crate) fn bad(&mut self) {
        self.stop = Some(Stop::BadLine);
    }

    /// Memory ran out.
    pub(crate) fn full(&mut self) {
        self.stop = Some(Stop::NoMemory);
    }

    /// What was read, where it was read.
    pub(crate) fn got<T: Drop>(&mut self, read: Result<T, Stop>) -> Option<T> {
        match read {
            Ok(value) => Some(value),
            Err(stop) => {
                self.stop = Some(stop);
                None
            }
        }
    }

    /// Whether the words have this form: `_` stands for any word, `..` for any others.
    pub(crate) fn fits(&self, form: &str) -> bool {
        fits(&self.words, form)
    }

    /// How many words there are.
    pub(crate) fn len(&self) -> usize {
        self.words.len()
    }

    /// The word at a place, empty where there is none.
    pub(crate) fn word(&self, place: usize) -> &'a [u8] {
        at(&self.words, place)
    }

    /// Whether the word at a place is this text.
    pub(crate) fn is(&self, place: usize, text: &str) -> bool {
        is(self.word(place), text)
    }

    /// The number at a place.
    pub(crate) fn number(&mut self, place: usize) -> u64 {
        let read = number(self.word(place));
        self.got(read).unwrap_or(0)
    }

    /// The number at a place, of at most `most`.
    pub(crate) fn small(&mut self, place: usize, most: u32) -> u32
        ensures { result ≤ most }
    {
        match small(self.word(place), most) {
            Ok(value) => value,
            Err(stop) => {
                self.stop = Some(stop);
                0
            }
        }
    }

    /// The number of one byte at a place.
    pub(crate) fn byte(&mut self, place: usize) -> u8 {
        self.small(place, 255) as u8
    }

    /// The numbers at a place.
    pub(crate) fn numbers(&mut self, place: usize) -> Vec<u64> {
        match numbers(self.alloc, self.word(place)) {
            Ok(all) => all,
            Err(stop) => {
                self.stop = Some(stop);
                Vec::new(self.alloc)
            }
        }
    }

    /// The label in a host's own numbers at a place.
    pub(crate) fn local(&mut self, place: usize) -> LocalLabel {
        let all = self.numbers(place);
        self.local_of(&all)
    }

    /// The label of these numbers.
    pub(crate) fn local_of(&mut self, all: &[u64]) -> LocalLabel {
        let mut label = LocalLabel::new(self.alloc);
        for member in all {
            if label.insert(*member).is_err() {
                self.stop = Some(Stop::BadLine);
            }
        }
        label
    }

    /// The bytes of the piece at a place.
    pub(crate) fn bytes(&mut self, names: &Names, place: usize) -> Vec<u8> {
        match pieces(self.alloc, names, &[self.word(place)], 0) {
            Ok(bytes) => bytes,
            Err(stop) => {
                self.stop = Some(stop);
                Vec::new(self.alloc)
            }
        }
    }

    /// The key at a place.
    pub(crate) fn key(&mut self, names: &Names, place: usize) -> PubKey {
        match key(names, self.word(place)) {
            Ok(key) => key,
            Err(stop) => {
                self.stop = Some(stop);
                PubKey([0; 56])
            }
        }
    }

    /// The category at a place.
    pub(crate) fn category(&mut self, names: &Names, place: usize) -> Category {
        self.category_of(names, self.word(place))
    }

    fn category_of(&mut self, names: &Names, word: &[u8]) -> Category {
        match category(self.alloc, names, word) {
            Ok(category) => category,
            Err(stop) => {
                self.stop = Some(stop);
                Category {
                    creator: PubKey([0; 56]),
                    kind: Kind::Secrecy,
                    number: 0,
                }
            }
        }
    }

    /// The pieces of the word at a place between marks.
    pub(crate) fn parts(&mut self, place: usize, mark: u8) -> Vec<&'a [u8]> {
        match crate::reading::split(self.alloc, self.word(place), mark) {
            Ok(parts) => parts,
            Err(stop) => {
                self.stop = Some(stop);
                Vec::new(self.alloc)
            }
        }
    }

    /// The label at a place.
    pub(crate) fn label(&mut self, names: &Names, place: usize) -> Label {
        let mut label = Label::new(self.alloc);
        if self.is(place, "-") {
            return label;
        }
        for part in &self.parts(place, b',') {
            let member = self.category_of(names, part);
            if label.insert(member).is_err() {
                self.stop = Some(Stop::BadLine);
            }
        }
        label
    }

    /// Says a word.
    pub(crate) fn say(&mut self, word: &str) {
        if self.said.push_str(" ").is_err() || self.said.push_str(word).is_err() {
            self.stop = Some(Stop::NoMemory);
        }
    }

    /// Says yes or no.
    pub(crate) fn say_if(&mut self, holds: bool) {
        self.say(if holds { "yes" } else { "no" });
    }

    /// Says a number.
    pub(crate) fn say_number(&mut self, value: u64) {
        if write!(self.said, " {value}").is_err() {
            self.stop = Some(Stop::NoMemory);
        }
    }

    /// Says a number of four bytes.
    pub(crate) fn say_small(&mut self, value: u32) {
        self.say_number(value as u64);
    }

    /// Says bytes in hex.
    pub(crate) fn say_hex(&mut self, bytes: &[u8]) {
        if bytes.is_empty() {
            return self.say("nothing");
        }
        self.say("");
        for byte in bytes {
            if write!(self.said, "{byte:02x}").is_err() {
                self.stop = Some(Stop::NoMemory);
            }
        }
    }

    /// Says a label in a host's own numbers.
    pub(crate) fn say_local(&mut self, label: &LocalLabel) {
        self.say("{");
        for member in label.as_slice() {
            self.say_number(*member);
        }
        self.say("}");
    }

    /// Says a text: `|` for the end of each line, and where it is long, how long it is.
    pub(crate) fn say_text(&mut self, bytes: &[u8]) {
        if bytes.len() > 200 {
            self.say_number(bytes.len() as u64);
            return self.say("bytes");
        }
        self.say("");
        for byte in bytes {
            let shown = if *byte == b'\n' { b'|' } else { *byte & 127 };
            if self.said.push(shown as char).is_err() {
                self.stop = Some(Stop::NoMemory);
            }
        }
    }

    /// Says notes.
    pub(crate) fn say_notes(&mut self, notes: &[Note]) {
        for note in notes {
            if write!(self.said, " {note:?}").is_err() {
                self.stop = Some(Stop::NoMemory);
            }
        }
    }

    /// What was said so far is forgotten.
    pub(crate) fn forget(&mut self) {
        self.said = String::new(self.alloc);
    }

    /// What was said so far.
    pub(crate) fn said(&self) -> &str {
        self.said.as_str()
    }
}
