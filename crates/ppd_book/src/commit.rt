/// What a commit did: the view's steps were taken, or the process is no longer in the state that was copied.
#[derive(Clone, Copy)]
pub enum Commit {
    Done,
    Stale,
}
