/// The call of an activation that has no interval of its own and goes on: its item in the interval, and its
/// statement.
#[derive(Clone, Copy)]
pub struct LeafCall {
    pub item: u32,
    pub stmt: u32,
}
