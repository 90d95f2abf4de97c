/// An interval of a process, by number.
#[derive(Clone, Copy, PartialEq, Eq, Hash)]
pub(crate) struct Place {
    pub(crate) process: u8,
    pub(crate) interval: u32,
}
