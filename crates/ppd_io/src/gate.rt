/// What a worker passes while it holds no lock: before it copies its process, before it commits steps of the copy,
/// and before a turn that follows a commit in vain.
pub trait Gate: Sync {
    /// Called by this worker, from 0; `turn` counts its passes, from 0.
    fn pass(&self, worker: u8, turn: u32);
}

/// A gate that holds nobody up.
#[derive(Clone, Copy)]
pub struct FreeGate;

impl Gate for FreeGate {
    fn pass(&self, _worker: u8, _turn: u32) {}
}
