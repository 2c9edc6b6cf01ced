//! The top call.

ghost use Rattle.std.specs.Prelude.{◌≡◌, ◌≢◌, ◌≤◌, ◌↔◌, ℕ, List, false, true, Some, None};
ghost use Rattle.ds_base.specs.Counts.{Rose};
ghost use Rattle.dstar.specs.declared.call.Call.{Call};
ghost use Rattle.dstar.specs.declared.call.Call.TheVariants.{Sim};
ghost use Rattle.dstar.specs.Causes.{Caused, Answers, asks_keeper};
ghost use Rattle.dstar.specs.Headline.{Ran};
ghost use Rattle.dstar.specs.Sims.{IsDeliveredLawfully, LooksTheSame};
ghost use Rattle.dstar.specs.Summaries.{SummaryCaused};
ghost use Rattle.dstar.specs.Words.{texts, is_sim, call_in, gen_in};

use crate::call::Call;
use crate::generated::answer_unread;
use crate::respond::respond;
use crate::status::Status;
use ds_base::{Keeper, Sink, Source};
use ds_commands::command_of;
use std::alloc::Global;

fn is_sim(words: &[String]) -> bool
    ensures { result ≡ is_sim (texts words.now) }
{
    match words {
        [word] => word.as_str() == "sim",
        _ => false,
    }
}

/// The call that the words ask for.
fn call_of(words: &[String]) -> Option<Call>
    ensures { result ≡ call_in (texts words.now) }
{
    if is_sim(words) {
        return Some(Call::Sim);
    }
    match command_of(words) {
        Some(command) => Some(Call::Small(command)),
        None => None,
    }
}

/// Answers a call of the program. The words exclude the program's name; their forms are these, where T is a key's types
/// (5.3, 5.4, 6.3 or 6.4) or a moment in seconds, and I an index from 0 to 32.
///
/// | words | input | what is written |
/// |---|---|---|
/// | `sim` | a document | the text of the document's run, by its events or else by the canonical schedule |
/// | `keygen T I` | a secret in hex | `key HEX` and `next Q` |
/// | `sign T I` | a secret in hex, a line feed, a message | `q Q` and the signature in hex |
/// | `verify` | a key and a signature in hex, a line each, and a message | `good`, or `bad NAME` |
/// | `chain` or `chain T` | a category, a key and delegations in hex, a line each | `holds N` and the places, or `none` |
/// | `gen N` | none | the summary of the run of the document for N, a number from 1 to 1,000 |
///
/// But for `gen`, which doesn't read it, the input is read to its end, of which at most 16,777,217 bytes. `keygen` and `sign`
/// look at the mark of their key's identifier; `sign` raises it past the leaf that it used before anything is written. `now`
/// is the present moment.
pub fn dstar_run<R: Source, W: Sink, K: Keeper>(
    alloc: Global,
    words: &Vec<String>,
    input: &mut R,
    out: &mut W,
    keeper: &mut K,
    now: u64,
) -> Status
    // Usage comes exactly where the words have no form; nothing was read then, nothing written, and the keeper not touched.
    ensures usage { result ≡ Status.Usage ↔ (call_in (texts words.now.items) ≡ None) × (gen_in (texts words.now.items) ≡ None) }
    ensures unused { result ≡ Status.Usage → (input.new ≡ input.old) × (out.new ≡ out.old) × (keeper.new ≡ keeper.old) }
    // Only `keygen` and `sign` touch the keeper.
    ensures kept { (call : Call) → call_in (texts words.now.items) ≡ Some call → asks_keeper call ≡ false → keeper.new ≡ keeper.old }

    // Each other status has its cause.
    ensures caused { (call : Call) → call_in (texts words.now.items) ≡ Some call → Caused call now (record {
      told = R.tells input.old;
      left = R.tells input.new;
      read_faults = R.faults input.old;
      read_faults_after = R.faults input.new;
      ends = R.ends input.old;
      ends_after = R.ends input.new;
      written = W.tells out.old;
      written_after = W.tells out.new;
      write_faults = W.faults out.old;
      write_faults_after = W.faults out.new;
      marks = K.tells keeper.old;
      marks_after = K.tells keeper.new;
      keeper_faults = K.faults keeper.old;
      keeper_faults_after = K.faults keeper.new;
    }) result }
    // `gen N` reads nothing, and doesn't touch the keeper; what it writes is the summary of the run of the document for N.
    ensures unread { (number : ℕ) → gen_in (texts words.now.items) ≡ Some number → (input.new ≡ input.old) × (keeper.new ≡ keeper.old) }
    ensures summary { (number : ℕ) → gen_in (texts words.now.items) ≡ Some number
        → SummaryCaused number (W.tells out.old) (W.tells out.new) (W.faults out.old) (W.faults out.new) result }
    // The headline, of the run whose text `sim` wrote. What it delivers it delivers only where the sender's, both exporters' and the
    // mailbox's rules hold.
    ensures lawful { call_in (texts words.now.items) ≡ Some Sim → result ≡ Status.Ok
        → Ran (R.tells input.old) (R.tells input.new) (W.tells out.old) (W.tells out.new) IsDeliveredLawfully }
    // For each secrecy category, outside of it that text is the same as the text of each run of each document that agrees, with equal
    // observations, while the hosts that are trusted for it obey and nothing is forged.
    ensures outside { call_in (texts words.now.items) ≡ Some Sim → result ≡ Status.Ok
        → Ran (R.tells input.old) (R.tells input.new) (W.tells out.old) (W.tells out.new) LooksTheSame }
    // Where the input tells its bytes and no count rose, the bytes alone decide, and for `sign` the mark, unless memory ran out.
    ensures answers { (call : Call) → call_in (texts words.now.items) ≡ Some call → (bytes : List ℕ) → R.tells input.old ≡ Some bytes
        → ¬ Rose (R.faults input.old) (R.faults input.new) → ¬ Rose (W.faults out.old) (W.faults out.new)
        → ¬ Rose (K.faults keeper.old) (K.faults keeper.new) → Answers call now (K.tells keeper.old) bytes result }
    ensures read_faults { R.faults input.old ≤ R.faults input.new }
    ensures ends { R.ends input.old ≤ R.ends input.new }
    ensures write_faults { W.faults out.old ≤ W.faults out.new }
    ensures keeper_faults { K.faults keeper.old ≤ K.faults keeper.new }
{
    match call_of(words.as_slice()) {
        Some(call) => respond(alloc, call, input, out, keeper, now),
        None => answer_unread(alloc, words.as_slice(), out),
    }
}
