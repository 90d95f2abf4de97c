use ppd_model::EdgeId;

/// What is asked: an item of an interval. Beside it stand the least edge of each process in a race, and the least edge
/// of the item's process whose past has a race, from the one in which the interval begins.
#[derive(Clone, Copy)]
pub struct Asked<'a> {
    pub firsts: &'a [EdgeId],
    pub process: u8,
    pub interval: u32,
    pub item: u32,
    pub first: Option<u32>,
}
