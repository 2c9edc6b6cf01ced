//! What holds of the definitions. The functions do nothing: their contracts are the laws.
#![tactic(auto)]

ghost use Rattle.std.specs.Prelude.{ℕ, ◌+◌, List};
ghost use Rattle.ds_actor.specs.Sites.{SitePlan};
ghost use Rattle.ds_turn.specs.declared.node.BoxSeat.{BoxSeat};
ghost use Rattle.ds_turn.specs.ProcRecords.{ProcRecord};
ghost use Rattle.ds_turn.specs.ProcTurns.{TookProcTurn};
ghost use Rattle.ds_turn.specs.LaneRecords.{LaneRecord};
ghost use Rattle.ds_turn.specs.LaneTurns.{TookTurn};
ghost use Rattle.ds_turn.specs.ConnRecords.{ConnRecord};
ghost use Rattle.ds_worker.specs.Actors.{Arrives, ConnRan, ConnTurned};
ghost use Rattle.ds_worker.specs.Logs.{Grew, log_of_conn, log_of_lane, log_of_proc};
ghost use Rattle.ds_worker.specs.Runs.{Ran};

/// Two runs of an actor, one after the other, are a run with the turns of both.
pub fn runs_join()
    ensures procs { (site : SitePlan) (n m : ℕ) (a b c : ProcRecord)
        → Ran (TookProcTurn site) n a b → Ran (TookProcTurn site) m b c → Ran (TookProcTurn site) (n + m) a c }
    ensures lanes { (n m : ℕ) (a b c : LaneRecord)
        → Ran TookTurn n a b → Ran TookTurn m b c → Ran TookTurn (n + m) a c }
    ensures conns { (boxes : List BoxSeat) (n m : ℕ) (a b c : ConnRecord)
        → ConnRan boxes n a b → ConnRan boxes m b c → ConnRan boxes (n + m) a c }
{}

/// A run of so many turns records so many events behind those that were recorded: each is of its actor, and so is the entry
/// that it made, and their stamps rise above the one that was its last.
pub fn records_grow()
    ensures procs { (site : SitePlan) (n : ℕ) (a b : ProcRecord)
        → Ran (TookProcTurn site) n a b → Grew n (log_of_proc a) (log_of_proc b) }
    ensures lanes { (n : ℕ) (a b : LaneRecord) → Ran TookTurn n a b → Grew n (log_of_lane a) (log_of_lane b) }
    ensures conns { (boxes : List BoxSeat) (n : ℕ) (a b : ConnRecord)
        → ConnRan boxes n a b → Grew n (log_of_conn a) (log_of_conn b) }
{}

/// What arrives at a connection is a run of one event, and its turns in a phase are a run: so with arrivals between the
/// phases, and by `runs_join`, all that it records is one run.
pub fn connections_run_on()
    ensures arrives { (boxes : List BoxSeat) (a b : ConnRecord) → Arrives a b → ConnRan boxes 1 a b }
    ensures turns { (boxes : List BoxSeat) (n : ℕ) (a b : ConnRecord)
        → Ran (ConnTurned boxes) n a b → ConnRan boxes n a b }
{}
