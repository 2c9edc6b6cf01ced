//! Copies of what waits.
#![tactic(auto)]

ghost use Rattle.std.specs.Prelude.{◌≡◌, IfOk};

use crate::batch::Waiting;
use ds_queue::Queue;
use std::alloc::{AllocError, Global};

/// Copies of all that wait, in order.
pub(crate) fn copies_of(alloc: Global, waiting: &Queue<Waiting>) -> Result<Vec<Waiting>, AllocError>
    ensures { IfOk result (λ copied. copied.items ≡ waiting.now.items) }
{
    let mut copied = Vec::with_capacity(alloc, waiting.len())?;
    for place in 0..waiting.len() {
        let Some(message) = waiting.get(place) else {
            unreachable!();
        };
        copied.push(message.copy()?)?;
    }
    Ok(copied)
}
