//! What the threads of a phase do.

ghost use Rattle.std.specs.Prelude.{◌≡◌, ℕ, ◌<◌, length, slice_index_or, All};
ghost use Rattle.ds_worker.specs.Tasks.{HasWorked, MayWork};

use crate::task::Task;
use crate::task_work::work;
use ds_base::{Gate, Keeper};
use ds_turn::Node;
use std::sync::Wait;
use std::thread;
use std::thread::Threads;

/// Lets all actors work at once, each as `work` does, in at most that many threads, of which there is one at least.
///
/// It needs of each what `work` needs, and leaves it so.
pub fn phase<K: Keeper + Send, G: Gate + Sync, R: Threads + Wait + Sync>(
    rt: &R,
    gate: &G,
    nodes: &[Node],
    tasks: &mut [Task<K>],
    workers: u32,
)
    requires may { All (MayWork nodes.now) tasks.old }
    ensures each { (i : ℕ) (d : _) → i < length tasks.old
        → HasWorked K.faults nodes.now (slice_index_or tasks.old i d) (slice_index_or tasks.new i d) }
    ensures may { All (MayWork nodes.now) tasks.new }
    ensures count { length tasks.new ≡ length tasks.old }
{
    thread::for_each_mut(
        rt,
        tasks,
        workers.max(1) as usize,
        &|_place: usize, task: &mut Task<K>|
            requires { MayWork nodes.now task.now }
            ensures { HasWorked K.faults nodes.entry.now task.entry.now task.exit.now
                × MayWork nodes.entry.now task.exit.now }
        { work(rt, gate, nodes, task) },
    );
}
