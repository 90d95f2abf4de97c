ghost use Rattle.std.specs.Prelude.{◌≡◌, []};

use ppd_ast::{Bytes, Seq};
use std::alloc::Global;

/// How the program ended: its status, and the numbers of the processes that were stepped, in the run of a source or in
/// the run again of a `rerun` that answered yes. They are empty where no run came to its end and `rerun` did not answer
/// yes.
#[derive(Drop)]
pub struct Outcome {
    pub status: u8,
    pub schedule: Bytes,
}

/// An end before any run.
pub fn ended(alloc: Global, status: u8) -> Outcome
    ensures status { result.status ≡ status }
    ensures schedule { result.schedule ≡ [] }
{
    Outcome {
        status,
        schedule: Seq::new(alloc),
    }
}
