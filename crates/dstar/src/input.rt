//! Reads an input to its end.

ghost use Rattle.std.specs.Prelude.{◌≡◌, ◌≤◌, ◌<◌, ◌^◌, IfOk, IfErr, length};
ghost use Rattle.ds_base.specs.Counts.{Rose, Told, NoneLeft};
ghost use Rattle.dstar.specs.Outside.{Unread, Grew, IsFault, input_limit};

use ds_base::Source;
use std::alloc::Global;

/// The most bytes that an input may have.
const INPUT_LIMIT: usize = 16_777_216;

/// How many bytes are asked for at once.
const PIECE: usize = 65_536;

/// Why an input was not read to its end.
#[derive(Clone, Copy, Drop, Debug, PartialEq, Eq)]
pub(crate) enum InputFault {
    /// The source failed.
    ReadFault,
    /// More than 16,777,216 bytes were read.
    TooLong,
    /// An allocation was refused.
    NoMemory,
}

/// One piece of the source goes to the end of `bytes`: its size, 0 at the end of the input.
fn take_piece<R: Source>(
    input: &mut R,
    room: &mut [u8],
    bytes: &mut Vec<u8>,
) -> Result<usize, InputFault>
    requires { 0 < length room.old }
    ensures faults { R.faults input.old ≤ R.faults input.new }
    ensures ends { R.ends input.old ≤ R.ends input.new }
    ensures ok { IfOk result (λ n. Grew bytes.old.items bytes.new.items (R.tells input.old) (R.tells input.new) n) }
    ensures fits { IfOk result (λ n. n ≤ length room.old) }
    ensures ended { IfOk result (λ n. n ≡ 0 → Rose (R.ends input.old) (R.ends input.new) × NoneLeft (R.tells input.new)) }
    ensures err { IfErr result (λ e. IsFault e (R.faults input.old) (R.faults input.new)) }
{
    let Ok(count) = input.take(room) else {
        return Err(InputFault::ReadFault);
    };
    let Ok(()) = bytes.extend_from_slice(&room[..count]) else {
        return Err(InputFault::NoMemory);
    };
    Ok(count)
}

/// All bytes of a source, up to its end, where they are at most `limit`. At most one byte more is taken.
fn read_within<R: Source>(
    alloc: Global,
    input: &mut R,
    room: &mut [u8],
    limit: usize,
) -> Result<Vec<u8>, InputFault>
    requires room { 0 < length room.old }
    requires limit { limit < 2 ^ 62 }
    ensures faults { R.faults input.old ≤ R.faults input.new }
    ensures ends { R.ends input.old ≤ R.ends input.new }
    ensures ok { IfOk result (λ v. Told (R.tells input.old) v.items (R.tells input.new)) }
    ensures short { IfOk result (λ v. length v.items ≤ limit) }
    ensures ended { IfOk result (λ v. Rose (R.ends input.old) (R.ends input.new)) }
    ensures left { IfOk result (λ v. NoneLeft (R.tells input.new)) }
    ensures err { IfErr result (λ e. Unread limit e (R.tells input.old) (R.tells input.new) (R.faults input.old) (R.faults input.new)) }
{
    let mut bytes = Vec::new(alloc);
    while bytes.len() <= limit {
        let most = room.len().min(limit + 1 - bytes.len());
        if take_piece(input, &mut room[..most], &mut bytes)? == 0 {
            return Ok(bytes);
        }
    }
    Err(InputFault::TooLong)
}

/// All bytes of a source, up to its end. At most 16,777,217 bytes are taken.
pub(crate) fn read_all<R: Source>(alloc: Global, input: &mut R) -> Result<Vec<u8>, InputFault>
    ensures faults { R.faults input.old ≤ R.faults input.new }
    ensures ends { R.ends input.old ≤ R.ends input.new }
    ensures ok { IfOk result (λ v. Told (R.tells input.old) v.items (R.tells input.new)) }
    ensures short { IfOk result (λ v. length v.items ≤ input_limit) }
    ensures ended { IfOk result (λ v. Rose (R.ends input.old) (R.ends input.new)) }
    ensures left { IfOk result (λ v. NoneLeft (R.tells input.new)) }
    ensures err { IfErr result (λ e. Unread input_limit e (R.tells input.old) (R.tells input.new) (R.faults input.old) (R.faults input.new)) }
{
    let Ok(mut room) = vec![in alloc; 0u8; PIECE] else {
        return Err(InputFault::NoMemory);
    };
    read_within(alloc, input, &mut room, INPUT_LIMIT)
}
