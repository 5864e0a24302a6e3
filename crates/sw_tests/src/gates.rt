//! When the workers of a search pass its gate.
use crate::asserts::is;
use crate::running::{is_ended, run_on};
use crate::runs::{SWAP, SWAP_REPORT};
use std::sync::atomic::{AtomicU64, Ordering};
use std::test::Fail;
use sw_edge::Gate;

// A gate that counts how often it is passed.
#[derive(Drop)]
struct Counter {
    passages: AtomicU64,
}

impl Gate for Counter {
    fn pass(&self, _worker: u32, _part: u64) {
        self.passages.fetch_add(1, Ordering::SeqCst);
    }
}

// The most turns for which a worker is held.
const MOST_TURNS: u32 = 100_000_000;

// A gate that holds the worker who comes first until another one passes.
#[derive(Drop)]
struct Holder {
    // one more than the worker who came first
    first: AtomicU64,
    // 1 once another one has passed
    passed: AtomicU64,
    // 1 once the worker who is held has seen that
    seen: AtomicU64,
}

impl Holder {
    fn hold(&self) {
        for _ in 0..MOST_TURNS {
            if self.passed.load(Ordering::SeqCst) == 1 {
                self.seen.store(1, Ordering::SeqCst);
                return;
            }
        }
    }
}

impl Gate for Holder {
    fn pass(&self, worker: u32, _part: u64) {
        let own = u64::from(worker) + 1;
        let came = self
            .first
            .compare_exchange(0, own, Ordering::SeqCst, Ordering::SeqCst);
        match came {
            Ok(_) => self.hold(),
            Err(first) => {
                if first != own {
                    self.passed.store(1, Ordering::SeqCst);
                }
            }
        }
    }
}

// The one worker draws each of the eight parts once: what refutes the classes that are not kept is live
// under the whole list.
#[test]
fn a_search_passes_its_gate_after_each_draw(rt: HostRuntime) -> Result<(), Fail> {
    let gate = Counter {
        passages: AtomicU64::new(0),
    };
    let ended = run_on(
        &rt,
        rt.alloc(),
        "synth|--breadth|literals 2",
        SWAP.as_bytes(),
        &[],
        &[],
        &gate,
    )?;
    is_ended(&rt, &ended, 0, SWAP_REPORT, "");
    is(&rt, gate.passages.load(Ordering::SeqCst) == 8, "passages");
    Ok(())
}

#[test]
fn two_workers_search_at_once(rt: HostRuntime) -> Result<(), Fail> {
    let gate = Holder {
        first: AtomicU64::new(0),
        passed: AtomicU64::new(0),
        seen: AtomicU64::new(0),
    };
    let ended = run_on(
        &rt,
        rt.alloc(),
        "synth|--breadth|literals 2|--workers|2",
        SWAP.as_bytes(),
        &[],
        &[],
        &gate,
    )?;
    is(&rt, ended.status == 0, "the status");
    is(&rt, gate.seen.load(Ordering::SeqCst) == 1, "seen");
    Ok(())
}
