/// An item that is asked for: the name of its process, its interval there, and its number in that.
#[derive(Clone, Copy)]
pub struct AskedItem<'a> {
    pub process: &'a str,
    pub interval: u32,
    pub item: u32,
}

/// What is asked of a recording, without an input.
#[derive(Clone, Copy)]
pub enum Query<'a> {
    /// Every item that an item came from.
    Slice(AskedItem<'a>),
    /// The whole trace, by so many workers; none count as one.
    Whole(u32),
    /// Whether a run under the recorded synchronization is the recorded one.
    Rerun,
    /// An item with its edges, where no race touches its past.
    Clean(AskedItem<'a>),
}
