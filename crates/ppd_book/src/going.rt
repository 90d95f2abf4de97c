use crate::job::Job;
use crate::turn::Turn;
use crate::view::View;

/// What a worker goes on by: a copy of its process, where the next step needs nothing but the process itself; or the
/// turn that was taken, where it needs more.
#[derive(Drop)]
pub enum Going<'a, J: Job> {
    Viewed(View<'a, J>),
    Turned(Turn),
}
