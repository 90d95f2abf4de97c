use ppd_flow_shared::{Past, WritingEdges};
use ppd_whole_link::Marks;

/// A past with what the events of each process leave, and the internal edges that write each shared cell.
#[derive(Clone, Copy)]
pub struct LinkedPast<'a> {
    pub past: &'a Past<'a>,
    pub marks: &'a [Marks],
    pub writing: &'a WritingEdges,
}
