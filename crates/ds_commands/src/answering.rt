//! The answer to a command.

ghost use Rattle.std.specs.Prelude.{◌≡◌, ◌≤◌, IfOk, IfErr, false, length};
ghost use Rattle.ds_commands.specs.Outcome.{Failed, Replied, asks_mark};

use crate::chains::chained;
use crate::command::Command;
use crate::keys::{keygen, sign};
use crate::reply::{CommandFault, Reply};
use crate::verifying::verified;
use ds_base::Keeper;
use std::alloc::Global;

/// Answers a command over its whole input, which has at most 16,777,216 bytes. `now` is the present moment in seconds; only
/// a chain without a moment of its own asks for it. `keygen` reads its key's mark; `sign` makes a signature at the mark,
/// raises the mark past it, and then answers.
///
/// # Errors
///
/// `KeeperFault` only where the keeper's count of faults rose in this call; `NoMemory` where an allocation was refused, and
/// then no mark was raised.
pub fn answer<K: Keeper>(
    alloc: Global,
    keeper: &mut K,
    command: Command,
    now: u64,
    input: &[u8],
) -> Result<Reply, CommandFault>
    requires { length input.now ≤ 16777216 }
    ensures faults { K.faults keeper.old ≤ K.faults keeper.new }
    ensures ok { IfOk result (Replied command now input.now (K.tells keeper.old) (K.tells keeper.new)) }
    ensures err { IfErr result (λ e. Failed e command input.now (K.faults keeper.old) (K.faults keeper.new) (K.tells keeper.old) (K.tells keeper.new)) }
    ensures kept { asks_mark command ≡ false → keeper.new ≡ keeper.old }
{
    match command {
        Command::Keygen(params, index) => keygen(alloc, keeper, params, index, input),
        Command::Sign(params, index) => sign(alloc, keeper, params, index, input),
        Command::Verify => verified(alloc, input),
        Command::Chain(moment) => chained(alloc, moment.unwrap_or(now), input),
    }
}
