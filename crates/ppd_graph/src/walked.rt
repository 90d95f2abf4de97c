/// What a walk back over an internal edge comes to first.
#[derive(Clone, Copy)]
pub enum Walked {
    /// A synchronization, where the edge begins.
    Stopped,
    /// The start of what is walked over.
    Passed,
    /// A write of the cell: its interval, its item and the value.
    Found {
        interval: u32,
        item: u32,
        value: i64,
    },
}
