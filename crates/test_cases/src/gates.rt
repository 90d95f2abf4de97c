// A gate that holds workers at their passes.

use crate::fault::Fault;
use crate::said::numbers_said;
use ppd_io::Gate;
use std::alloc::Global;
use std::sync::atomic::{AtomicU64, Ordering};
use std::thread;

/// Holds two workers at some of their passes. Each hold is three numbers: the worker, the number of the pass, from 0,
/// at which it is held, and to how many passes the other worker must have come by then. Each waits for 1,000,000 yields
/// at most.
#[derive(Drop)]
pub(crate) struct HoldingGate {
    holds: Vec<u32>,
    zero: AtomicU64,
    one: AtomicU64,
    gave_up: AtomicU64,
}

impl HoldingGate {
    /// The gate with the holds that a call has.
    pub(crate) fn new(alloc: Global, under: &str) -> Result<HoldingGate, Fault> {
        Ok(HoldingGate {
            holds: numbers_said(alloc, under, "holds")?,
            zero: AtomicU64::new(0),
            one: AtomicU64::new(0),
            gave_up: AtomicU64::new(0),
        })
    }

    /// Whether no wait was longer than it may be.
    pub(crate) fn is_kept(&self) -> bool {
        self.gave_up.load(Ordering::SeqCst) == 0
    }

    /// Waits until a worker has come to so many passes.
    fn wait_for(&self, passes: &AtomicU64, least: u32) {
        for _ in 0..1_000_000 {
            if passes.load(Ordering::SeqCst) >= u64::from(least) {
                return;
            }
            thread::yield_now();
        }
        self.gave_up.store(1, Ordering::SeqCst);
    }
}

impl Gate for HoldingGate {
    fn pass(&self, worker: u8, turn: u32) {
        let (own, other) = match worker {
            0 => (&self.zero, &self.one),
            _ => (&self.one, &self.zero),
        };
        own.store(u64::from(turn) + 1, Ordering::SeqCst);
        for hold in self.holds.chunks_exact(3) {
            if hold[0] == u32::from(worker) && hold[1] == turn {
                self.wait_for(other, hold[2]);
            }
        }
    }
}
