//! What holds of actors at work. The functions do nothing: their contracts are the laws.

ghost use Rattle.std.specs.Prelude.{◌≡◌, ℕ, ◌+◌, List, None, Some, slice_get};
ghost use Rattle.ds_turn.specs.declared.node.Node.{Node};
ghost use Rattle.ds_worker.specs.declared.task.Task.{Task};
ghost use Rattle.ds_worker.specs.declared.task.TaskActor.{TaskActor};
ghost use Rattle.ds_worker.specs.Logs.{Grew};
ghost use Rattle.ds_worker.specs.Tasks.{HasRun, HasWorked, log_of_actor};

/// Work of a phase without a fault is a run, and two runs, one after the other, are a run with the events of both. So all
/// that an actor records in its phases is one run, and of a connection with what arrives between them.
pub fn tasks_run<K>()
    ensures phases { (faults_of : K → ℕ) (nodes : List Node) (node : Node) (a b : Task K) → HasWorked faults_of nodes a b
        → b.fault ≡ None → slice_get nodes a.host ≡ Some node → HasRun node b.made a.actor b.actor }
    ensures join { (node : Node) (n m : ℕ) (a b c : TaskActor K)
        → HasRun node n a b → HasRun node m b c → HasRun node (n + m) a c }
{}

/// A run records its events behind those that were recorded; so does work of a phase, with a fault or without: as many as
/// the task tells.
pub fn tasks_grow<K>()
    ensures runs { (node : Node) (n : ℕ) (a b : TaskActor K)
        → HasRun node n a b → Grew n (log_of_actor a) (log_of_actor b) }
    ensures phases { (faults_of : K → ℕ) (nodes : List Node) (a b : Task K) → HasWorked faults_of nodes a b
        → Grew b.made (log_of_actor a.actor) (log_of_actor b.actor) }
{}
