//! A gate that two workers pass together.
#![tactic(auto)]

use ds_base::Gate;
use std::sync::atomic::{AtomicU64, Ordering};
use std::thread;

/// How often a worker looks whether the other has come.
const TURNS: u32 = 1_000_000;

/// Holds the worker of each of the slots 1 and 2 until the other has come, or until it has looked often.
#[derive(Drop)]
pub struct Both {
    pub came: [AtomicU64; 2],
    pub met: [AtomicU64; 2],
}

impl Both {
    /// Nobody has come.
    pub fn new() -> Both {
        Both {
            came: [AtomicU64::new(0), AtomicU64::new(0)],
            met: [AtomicU64::new(0), AtomicU64::new(0)],
        }
    }
}

impl Gate for Both {
    fn pass(&self, spot: u32) {
        let mine = if spot == 1 { 0 } else { 1 };
        self.came[mine].store(1, Ordering::SeqCst);
        for _ in 0..TURNS {
            if self.came[1 - mine].load(Ordering::SeqCst) == 1 {
                self.met[mine].store(1, Ordering::SeqCst);
                return;
            }
            thread::yield_now();
        }
    }
}
