use ppd_ast::Bytes;
use ppd_model::Closed;

/// What a turn did: this process took its step, or nobody can take one.
#[derive(Clone, Copy)]
pub enum Turn {
    Stepped(u8),
    Over,
}

/// A whole schedule, the numbers of the processes in the order of their steps, with its closed state.
#[derive(Drop)]
pub struct Ran {
    pub schedule: Bytes,
    pub closed: Closed,
}
