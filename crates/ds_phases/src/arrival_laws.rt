//! What holds of arrivals. The function does nothing: its contract is the laws.

ghost use Rattle.std.specs.Prelude.{◌≡◌, ◌≢◌, ◌+◌, ℕ, List, Option, []};
ghost use Rattle.ds_turn.specs.declared.node.Node.{Node};
ghost use Rattle.ds_turn.specs.LaneRecords.{LaneRecord};
ghost use Rattle.ds_turn.specs.ConnRecords.{ConnRecord};
ghost use Rattle.ds_worker.specs.declared.task.Task.{Task};
ghost use Rattle.ds_worker.specs.Actors.{Arrives};
ghost use Rattle.ds_worker.specs.Tasks.{HasRun};
ghost use Rattle.ds_phases.specs.Arrivals.{HasArrived, after_arrival, events_of};

/// Bytes that arrive at a connection are an arrival of a run, and what arrives at a task is a run of its actor, of as many events
/// as it recorded: so all that an actor records in phases, with arrivals between them, is one run.
pub fn arrivals_run<K>()
    ensures arrives { (piece : List ℕ) (least : ℕ) (a b : ConnRecord)
        → piece ≢ [] → b ≡ after_arrival piece least a → Arrives a b }
    ensures runs { (node : Node) (source : Option LaneRecord) (a b : Task K) → HasArrived source a b
        → (n : ℕ) × HasRun node n a.actor b.actor × (events_of b ≡ events_of a + n) }
{}
