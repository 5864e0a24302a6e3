//! A gate that holds a worker until another one comes.
use std::sync::atomic::{AtomicU64, Ordering};
use sw_edge::Gate;

// The most turns for which a worker is held.
const MOST_TURNS: u32 = 100_000_000;

/// Holds the call with part 0 until the call with the awaited part was made.
#[derive(Drop)]
pub struct Holder {
    awaited: u64,
    // 1 once the call with the awaited part was made
    came: AtomicU64,
    // 1 once the worker who is held has seen that
    seen: AtomicU64,
}

impl Holder {
    pub fn new(awaited: u64) -> Holder {
        Holder {
            awaited,
            came: AtomicU64::new(0),
            seen: AtomicU64::new(0),
        }
    }

    fn hold(&self) {
        for _ in 0..MOST_TURNS {
            if self.came.load(Ordering::SeqCst) == 1 {
                self.seen.store(1, Ordering::SeqCst);
                return;
            }
        }
    }

    /// Whether the turns did not run out.
    pub fn has_seen(&self) -> bool {
        self.seen.load(Ordering::SeqCst) == 1
    }
}

impl Gate for Holder {
    fn pass(&self, _worker: u32, part: u64) {
        if part == 0 {
            self.hold();
        } else if part == self.awaited {
            self.came.store(1, Ordering::SeqCst);
        }
    }
}

/// A gate that lets each worker pass.
#[derive(Drop)]
pub struct Open;

impl Gate for Open {
    fn pass(&self, _worker: u32, _part: u64) {}
}
