use crate::busy::Accessor;
use crate::lists::Lists;

/// The busy edges of a process by the cells that they read, and by those that they write, in order.
#[derive(Drop)]
pub struct ByCell {
    pub readers: Lists<Accessor>,
    pub writers: Lists<Accessor>,
}
