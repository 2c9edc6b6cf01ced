//! From the input to the output of a call.

ghost use Rattle.std.specs.Prelude.{◌≡◌, ◌≤◌, ◌^◌, false, length, IfOk, IfErr};
ghost use Rattle.ds_commands.specs.declared.reply.CommandFault.TheVariants.{NoMemory};
ghost use Rattle.dstar.specs.Causes.{Answered, Caused, Unanswered, asks_keeper};
ghost use Rattle.dstar.specs.Sims.{SimGives};
ghost use Rattle.dstar.specs.Outside.{input_limit};

use crate::call::Call;
use crate::input::{InputFault, read_all};
use crate::output::write_all;
use crate::simulate::simulate;
use crate::status::Status;
use ds_base::{Keeper, Sink, Source};
use ds_commands::{CommandFault, Reply, answer};
use ds_doc::DocFault;
use ds_wire::Bytes;
use std::alloc::Global;

/// The answer of `sim`.
#[tactic(auto, unfolding(crate::specs::Sims::SimGives))]
fn simulated(alloc: Global, bytes: &[u8]) -> Result<Reply, CommandFault>
    ensures ok { IfOk result (SimGives bytes.now) }
    ensures err { IfErr result (λ e. e ≡ NoMemory) }
{
    match simulate(alloc, bytes) {
        Ok(text) => Ok(Reply::Prints(Bytes::from_vec(text))),
        Err(DocFault::Refused(code, place)) => Ok(Reply::Breaks(code, place)),
        Err(DocFault::NoMemory) => Err(CommandFault::NoMemory),
    }
}

/// The answer of a call over its whole input.
fn reply_to<K: Keeper>(
    alloc: Global,
    call: Call,
    keeper: &mut K,
    now: u64,
    bytes: &[u8],
) -> Result<Reply, CommandFault>
    requires { length bytes.now ≤ input_limit }
    ensures faults { K.faults keeper.old ≤ K.faults keeper.new }
    ensures ok { IfOk result (Answered call now bytes.now (K.tells keeper.old) (K.tells keeper.new)) }
    ensures err { IfErr result (λ e. Unanswered e call bytes.now (K.faults keeper.old) (K.faults keeper.new) (K.tells keeper.old) (K.tells keeper.new)) }
    ensures kept { asks_keeper call ≡ false → keeper.new ≡ keeper.old }
{
    match call {
        Call::Sim => simulated(alloc, bytes),
        Call::Small(command) => answer(alloc, keeper, command, now, bytes),
    }
}

/// Reads the input to its end, answers the call, and writes the answer's text, where it has one.
pub(crate) fn respond<R: Source, W: Sink, K: Keeper>(
    alloc: Global,
    call: Call,
    input: &mut R,
    out: &mut W,
    keeper: &mut K,
    now: u64,
) -> Status
    ensures caused { Caused call now (record {
      told = R.tells input.old;
      left = R.tells input.new;
      read_faults = R.faults input.old;
      read_faults_after = R.faults input.new;
      ends = R.ends input.old;
      ends_after = R.ends input.new;
      written = W.tells out.old;
      written_after = W.tells out.new;
      write_faults = W.faults out.old;
      write_faults_after = W.faults out.new;
      marks = K.tells keeper.old;
      marks_after = K.tells keeper.new;
      keeper_faults = K.faults keeper.old;
      keeper_faults_after = K.faults keeper.new;
    }) result }
    ensures kept { asks_keeper call ≡ false → keeper.new ≡ keeper.old }
    ensures read_faults { R.faults input.old ≤ R.faults input.new }
    ensures ends { R.ends input.old ≤ R.ends input.new }
    ensures write_faults { W.faults out.old ≤ W.faults out.new }
    ensures keeper_faults { K.faults keeper.old ≤ K.faults keeper.new }
{
    let bytes = match read_all(alloc, input) {
        Ok(bytes) => bytes,
        Err(InputFault::ReadFault) => return Status::ReadFault,
        Err(InputFault::TooLong) => return Status::TooLong,
        Err(InputFault::NoMemory) => return Status::NoMemory,
    };
    let reply = match reply_to(alloc, call, keeper, now, &bytes) {
        Ok(reply) => reply,
        Err(CommandFault::KeeperFault) => return Status::KeeperFault,
        Err(CommandFault::NoMemory) => return Status::NoMemory,
    };
    match reply {
        Reply::Prints(text) => match write_all(out, text.as_slice()) {
            Ok(()) => Status::Ok,
            Err(_) => Status::WriteFault,
        },
        Reply::Denies(text) => match write_all(out, text.as_slice()) {
            Ok(()) => Status::No,
            Err(_) => Status::WriteFault,
        },
        Reply::Breaks(code, place) => Status::Document(code, place),
        Reply::Spends => Status::Spent,
    }
}
