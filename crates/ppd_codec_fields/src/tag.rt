/// What an entry of a log is, as its first byte says.
#[derive(Clone, Copy)]
pub enum Tag {
    Prelog,
    Unit,
    Sync,
    Postlog,
    End,
}
