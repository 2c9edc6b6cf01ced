//! Copies of what waits.
#![tactic(auto)]

ghost use Rattle.std.specs.Prelude.{◌≡◌, IfOk};

use ds_msg::LocalMessage;
use ds_queue::Queue;
use std::alloc::{AllocError, Global};

/// Copies of all messages, in order.
pub(crate) fn copies_of(
    alloc: Global,
    messages: &Queue<LocalMessage>,
) -> Result<Vec<LocalMessage>, AllocError>
    ensures { IfOk result (λ copied. copied.items ≡ messages.now.items) }
{
    let mut copied = Vec::with_capacity(alloc, messages.len())?;
    for place in 0..messages.len() {
        let Some(message) = messages.get(place) else {
            unreachable!();
        };
        copied.push(message.copy()?)?;
    }
    Ok(copied)
}
