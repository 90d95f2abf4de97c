/// An interval of a process.
#[derive(Clone, Copy)]
pub struct Interval {
    /// The block that it runs.
    pub block: u16,
    /// The interval directly round it, by its number in the process.
    pub parent: Option<u32>,
    /// The number of the entry that is its prelog.
    pub first: u32,
    /// The number of the entry that is its postlog, or of the End where it has none.
    pub last: u32,
    /// Whether it has a postlog.
    pub closed: bool,
    /// How many intervals of functions are among it and those round it.
    pub depth: u8,
}
