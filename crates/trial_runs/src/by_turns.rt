use exec_run::workers::Gate;
use std::sync::atomic::{AtomicU64, Ordering};

/// How many passes two workers make by turns, the first one before the second; after them every call passes.
const PASSES: u64 = 4;

/// How often a worker looks whether it is its turn.
const LOOKS: u64 = 1000000000;

/// A gate that lets two workers pass by turns. A pass is over when its worker has called again.
#[derive(Drop)]
pub struct ByTurns {
    over: AtomicU64,
    first: AtomicU64,
    second: AtomicU64,
    ran_out: AtomicU64,
}

impl ByTurns {
    pub fn new() -> ByTurns {
        ByTurns {
            over: AtomicU64::new(0),
            first: AtomicU64::new(0),
            second: AtomicU64::new(0),
            ran_out: AtomicU64::new(0),
        }
    }

    /// Whether some worker gave up waiting for its turn.
    pub fn ran_out(&self) -> bool {
        self.ran_out.load(Ordering::SeqCst) > 0
    }

    /// How often this worker has called before, which has now called again.
    fn calls(&self, worker: u32) -> u64 {
        if worker == 0 {
            self.first.fetch_add(1, Ordering::SeqCst)
        } else {
            self.second.fetch_add(1, Ordering::SeqCst)
        }
    }
}

impl Gate for ByTurns {
    fn before(&self, worker: u32) {
        let calls = self.calls(worker);
        if calls > 0 {
            self.over.fetch_add(1, Ordering::SeqCst);
        }
        let turn = calls.saturating_mul(2).saturating_add(u64::from(worker));
        for _ in 0..LOOKS {
            if self.over.load(Ordering::SeqCst) >= turn.min(PASSES) {
                return;
            }
        }
        self.ran_out.fetch_add(1, Ordering::SeqCst);
    }
}
