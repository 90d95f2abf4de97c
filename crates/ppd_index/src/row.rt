use ppd_ast::Seq;

/// A piece of an interval's log, by the numbers of entries.
#[derive(Clone, Copy)]
pub enum Mark {
    /// An entry of the interval's own.
    Own(u32),
    /// An interval directly inside it that was left: its number, its block, its prelog and its postlog.
    Left {
        interval: u32,
        block: u16,
        first: u32,
        last: u32,
    },
    /// An interval directly inside it that was not left: its number, its block and its prelog.
    Open {
        interval: u32,
        block: u16,
        first: u32,
    },
}

/// An interval of a process: its block, the interval round it, the entries that are its prelog and its postlog,
/// or the End inside it, whether it was left, how many intervals of functions it is in and is, and its pieces.
#[derive(Drop)]
pub struct Row {
    pub(crate) block: u16,
    pub(crate) parent: Option<u32>,
    pub(crate) first: u32,
    pub(crate) last: Option<u32>,
    pub(crate) closed: bool,
    pub(crate) depth: u8,
    pub(crate) marks: Seq<Mark>,
}
