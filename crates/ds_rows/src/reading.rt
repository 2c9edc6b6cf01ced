//! Words as numbers.

ghost use Rattle.std.specs.Prelude.{◌≤◌, IfOk};

use lms_sig::{LmsType, OtsType, Params};
use std::alloc::{AllocError, AllocFailed, Global};

/// Why a line has no answer.
#[derive(Clone, Copy, Debug, Drop)]
pub(crate) enum Stop {
    /// It has no meaning.
    BadLine,
    /// Memory ran out.
    NoMemory,
}

impl From<AllocError> for Stop {
    fn from(_fault: AllocError) -> Stop {
        Stop::NoMemory
    }
}

impl<T: Drop> From<AllocFailed<T>> for Stop {
    fn from(_fault: AllocFailed<T>) -> Stop {
        Stop::NoMemory
    }
}

/// Whether a word is this text.
pub(crate) fn is(word: &[u8], text: &str) -> bool {
    word == text.as_bytes()
}

/// Whether words have this form: `_` stands for any word, `..` for any others.
pub(crate) fn fits(words: &[&[u8]], form: &str) -> bool {
    let mut others = words.iter();
    for part in form.split(' ') {
        if part == ".." {
            return true;
        }
        match others.next() {
            Some(word) => if part != "_" && !is(word, part) {
                return false;
            },
            None => return false,
        }
    }
    others.next().is_none()
}

/// The word at a place, empty where there is none.
pub(crate) fn at<'a>(words: &[&'a [u8]], place: usize) -> &'a [u8] {
    words.get(place).copied().unwrap_or(&[])
}

/// The pieces of a text between marks.
pub(crate) fn split<'a>(alloc: Global, text: &'a [u8], mark: u8) -> Result<Vec<&'a [u8]>, Stop> {
    let mut all = Vec::new(alloc);
    let mut from = 0usize;
    for (place, byte) in text.iter().enumerate() {
        if *byte == mark {
            all.push(text.get(from..place).unwrap_or(&[]))?;
            from = place.saturating_add(1);
        }
    }
    all.push(text.get(from..).unwrap_or(&[]))?;
    Ok(all)
}

/// A decimal number.
pub(crate) fn number(word: &[u8]) -> Result<u64, Stop> {
    if word.is_empty() {
        return Err(Stop::BadLine);
    }
    let mut value = 0u64;
    for digit in word {
        if !digit.is_ascii_digit() {
            return Err(Stop::BadLine);
        }
        value = value
            .saturating_mul(10)
            .saturating_add((*digit & 15) as u64);
    }
    Ok(value)
}

/// A decimal number of at most `most`.
pub(crate) fn small(word: &[u8], most: u32) -> Result<u32, Stop>
    ensures { IfOk result (λ n. n ≤ most) }
{
    let value = number(word)?;
    if value <= most as u64 {
        Ok(value as u32)
    } else {
        Err(Stop::BadLine)
    }
}

/// Numbers between commas, or `-` for none.
pub(crate) fn numbers(alloc: Global, word: &[u8]) -> Result<Vec<u64>, Stop> {
    let mut all = Vec::new(alloc);
    if is(word, "-") {
        return Ok(all);
    }
    for part in &split(alloc, word, b',')? {
        all.push(number(part)?)?;
    }
    Ok(all)
}

/// The types of a key.
pub(crate) fn params(word: &[u8]) -> Result<Params, Stop> {
    let (lms, ots) = if is(word, "5.3") {
        (LmsType::H5, OtsType::W4)
    } else if is(word, "5.4") {
        (LmsType::H5, OtsType::W8)
    } else if is(word, "6.3") {
        (LmsType::H10, OtsType::W4)
    } else if is(word, "6.4") {
        (LmsType::H10, OtsType::W8)
    } else {
        return Err(Stop::BadLine);
    };
    Ok(Params { lms, ots })
}
