// A gate of one's own.

use jm_par_copy::Gate;
use jm_shared::TurnGate;
use std::sync::atomic::{AtomicU64, Ordering};

/// A gate that counts who passes it: copiers before their claims, or workers before their turns.
#[derive(Drop)]
pub struct CountingGate<'a> {
    pub passed: &'a AtomicU64,
}

impl Gate for CountingGate<'_> {
    fn at_claim(&self, _copier: usize, _nth: u64) {
        self.passed.fetch_add(1, Ordering::SeqCst);
    }
}

impl TurnGate for CountingGate<'_> {
    fn at_turn(&self, _seat: usize, _nth: u64) {
        self.passed.fetch_add(1, Ordering::SeqCst);
    }
}
