//! The words of the commands.

ghost use Rattle.std.specs.Prelude.{◌≡◌, map, string_bytes};
ghost use Rattle.std.specs.List.{list_all};
ghost use Rattle.ds_commands.specs.Words.{command_in, is_decimal, is_digit, keyed, alone, number_in, params_in, timed};

use crate::command::Command;
use lms_sig::{LmsType, OtsType, Params};

fn is_digit(byte: u8) -> bool
    ensures { result ≡ is_digit byte }
{
    48 <= byte && byte <= 57
}

fn are_digits(bytes: &[u8]) -> bool
    ensures { result ≡ list_all is_digit bytes.now }
{
    bytes.iter().all(|byte| is_digit(*byte))
}

/// Whether a text has decimal digits alone, at least one, and no zero before others.
fn is_decimal(text: &[u8]) -> bool
    ensures { result ≡ is_decimal text.now }
{
    match text {
        [] => false,
        [digit] => is_digit(*digit),
        [first, others @ ..] => is_digit(*first) && 48 < *first && are_digits(others),
    }
}

/// The number that a text writes, at most `most`.
pub fn number_of(most: u64, text: &str) -> Option<u64>
    ensures { result ≡ number_in most text.now }
{
    if !is_decimal(text.as_bytes()) {
        return None;
    }
    match text.parse::<u64>() {
        Ok(number) => if number <= most { Some(number) } else { None },
        Err(_) => None,
    }
}

/// The two types of a key.
fn params_of(text: &str) -> Option<Params>
    ensures { result ≡ params_in text.now }
{
    if text == "5.3" {
        Some(Params {
            lms: LmsType::H5,
            ots: OtsType::W4,
        })
    } else if text == "5.4" {
        Some(Params {
            lms: LmsType::H5,
            ots: OtsType::W8,
        })
    } else if text == "6.3" {
        Some(Params {
            lms: LmsType::H10,
            ots: OtsType::W4,
        })
    } else if text == "6.4" {
        Some(Params {
            lms: LmsType::H10,
            ots: OtsType::W8,
        })
    } else {
        None
    }
}

fn keyed(word: &str, params: Params, index: u32) -> Option<Command>
    ensures { result ≡ keyed word.now params index }
{
    if word == "keygen" {
        Some(Command::Keygen(params, index))
    } else if word == "sign" {
        Some(Command::Sign(params, index))
    } else {
        None
    }
}

fn alone(word: &str) -> Option<Command>
    ensures { result ≡ alone word.now }
{
    if word == "verify" {
        Some(Command::Verify)
    } else if word == "chain" {
        Some(Command::Chain(None))
    } else {
        None
    }
}

fn timed(word: &str, moment: u64) -> Option<Command>
    ensures { result ≡ timed word.now moment }
{
    if word == "chain" {
        Some(Command::Chain(Some(moment)))
    } else {
        None
    }
}

/// The command that words are: `keygen T I`, `sign T I`, `verify`, `chain` or `chain T`. T of a key is 5.3, 5.4, 6.3 or 6.4
/// and I an index from 0 to 32; T of a chain is a moment. Numbers are decimal without sign or leading zero.
pub fn command_of(words: &[String]) -> Option<Command>
    ensures { result ≡ command_in (map string_bytes words.now) }
{
    match words {
        [word] => alone(word.as_str()),
        [word, moment] => timed(word.as_str(), number_of(u64::MAX, moment.as_str())?),
        [word, types, index] => {
            let params = params_of(types.as_str())?;
            let index = number_of(32, index.as_str())?;
            keyed(word.as_str(), params, index as u32)
        }
        _ => None,
    }
}
