//! The summary of a generated document's run, for which nothing is read.

ghost use Rattle.std.specs.Prelude.{◌≡◌, ◌↔◌, ◌≤◌, ℕ, None, Some, IfOk};
ghost use Rattle.ds_summary.specs.Runs.{IsSummaryOf};
ghost use Rattle.ds_gen.specs.Generated.{generated};
ghost use Rattle.dstar.specs.Summaries.{SummaryCaused};
ghost use Rattle.dstar.specs.Words.{from_one, gen_in, texts};

use crate::output::write_all;
use crate::status::Status;
use ds_base::Sink;
use ds_commands::number_of;
use ds_gen::generate;
use ds_summary::run_summary;
use std::alloc::{AllocError, Global};

/// The most messages of a generated document.
const MOST: u64 = 1000;

/// A number from 1 to 1,000.
fn from_one(number: Option<u64>) -> Option<u32>
    ensures { result ≡ from_one number }
{
    match number {
        Some(number) => if 1 <= number && number <= MOST {
            Some(number as u32)
        } else {
            None
        },
        None => None,
    }
}

/// The number of the words `gen N`.
fn number_asked(words: &[String]) -> Option<u32>
    ensures { result ≡ gen_in (texts words.now) }
{
    match words {
        [word, number] => if word.as_str() == "gen" {
            from_one(number_of(MOST, number.as_str()))
        } else {
            None
        },
        [] | [_] | [_, _, _, ..] => None,
    }
}

/// The summary of the run of the document for a number.
fn summary(alloc: Global, number: u32) -> Result<Vec<u8>, AllocError>
    requires { number ≤ 1000 }
    ensures { IfOk result (λ text. IsSummaryOf number (generated number) text.items) }
{
    let doc = generate(alloc, number)?;
    run_summary(alloc, number, doc)
}

/// Writes the summary of the run of the document for a number.
fn write_summary<W: Sink>(alloc: Global, number: u32, out: &mut W) -> Status
    requires { number ≤ 1000 }
    ensures caused { SummaryCaused number (W.tells out.old) (W.tells out.new) (W.faults out.old) (W.faults out.new) result }
    ensures write_faults { W.faults out.old ≤ W.faults out.new }
{
    let Ok(text) = summary(alloc, number) else {
        return Status::NoMemory;
    };
    match write_all(out, text.as_slice()) {
        Ok(()) => Status::Ok,
        Err(_) => Status::WriteFault,
    }
}

/// Answers words for which nothing is read: `gen N`. Other words have no form.
pub(crate) fn answer_unread<W: Sink>(alloc: Global, words: &[String], out: &mut W) -> Status
    ensures usage { result ≡ Status.Usage ↔ (gen_in (texts words.now) ≡ None) }
    ensures unused { result ≡ Status.Usage → out.new ≡ out.old }
    ensures caused { (number : ℕ) → gen_in (texts words.now) ≡ Some number
        → SummaryCaused number (W.tells out.old) (W.tells out.new) (W.faults out.old) (W.faults out.new) result }
    ensures write_faults { W.faults out.old ≤ W.faults out.new }
{
    match number_asked(words) {
        Some(number) => write_summary(alloc, number, out),
        None => Status::Usage,
    }
}
