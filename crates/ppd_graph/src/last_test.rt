/// The latest test of a statement among the items of an interval: its item, and whether its value was true.
#[derive(Clone, Copy)]
pub struct LastTest {
    pub item: u32,
    pub passed: bool,
}
