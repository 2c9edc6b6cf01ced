//! What one thread does in a phase with a connection.

ghost use Rattle.std.specs.Prelude.{◌≡◌, IfOk, OnErr, ℕ};
ghost use Rattle.std.specs.Bool.{MatchBool};
ghost use Rattle.ds_turn.specs.ConnTurns.{LeadsTo};
ghost use Rattle.ds_worker.specs.Actors.{ConnLeft, ConnRests, ConnStopped, ConnTurned, ConnWorked};

use crate::limit::TURN_LIMIT;
use ds_base::Gate;
use ds_turn::{Node, RecordedConn, conn_turn};
use std::alloc::AllocError;
use std::sync::Wait;

/// A turn of a connection, with what the plain world's connection asks.
fn turn<G: Gate, R: Wait>(
    rt: &R,
    gate: &G,
    node: &Node,
    conn: &mut RecordedConn,
) -> Result<bool, AllocError>
    requires leads { LeadsTo node.now conn.old.link.conn }
    ensures ok { IfOk result (λ made. MatchBool made (ConnTurned node.now.boxes.items conn.old.link conn.new.link)
        ((conn.new.link ≡ conn.old.link) × ConnRests node.now.boxes.items conn.old.link)) }
    ensures err { OnErr result (ConnLeft conn.old.link conn.new.link) }
    ensures leads { LeadsTo node.now conn.new.link.conn }
{
    let made = conn_turn(rt, gate, node, conn)?;
    Ok(made)
}

/// Lets a connection make turns over what the threads of its host share until one makes no event, at most 16. Answers how
/// many events it made, each of which is recorded; fewer than 16 only where the connection rests.
///
/// It needs what a turn needs, and leaves it so.
///
/// # Errors
///
/// `AllocError` where memory runs out. What was done before that stays and is recorded. The turn that met it entered
/// nothing; a frame that it read stays offered, and a later turn settles it.
#[tactic(auto, using(crate::proofs::Running::turns_in_a_loop))]
pub fn work_conn<G: Gate, R: Wait>(
    rt: &R,
    gate: &G,
    node: &Node,
    conn: &mut RecordedConn,
) -> Result<u32, AllocError>
    requires leads { LeadsTo node.now conn.old.link.conn }
    ensures ok { IfOk result (λ n. ConnWorked node.now.boxes.items n conn.old.link conn.new.link) }
    ensures err { OnErr result ((n : ℕ) × ConnStopped node.now.boxes.items n conn.old.link conn.new.link) }
    ensures leads { LeadsTo node.now conn.new.link.conn }
{
    for made in 0..TURN_LIMIT {
        if !turn(rt, gate, node, conn)? {
            return Ok(made);
        }
    }
    Ok(TURN_LIMIT)
}
