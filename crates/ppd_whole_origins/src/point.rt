use crate::linked_past::LinkedPast;
use ppd_whole_link::Linker;

/// A process of a linked past before one of its events, with what is kept of it there.
#[derive(Clone, Copy)]
pub struct Point<'a> {
    pub linked: &'a LinkedPast<'a>,
    pub process: u8,
    pub linker: &'a Linker,
}
