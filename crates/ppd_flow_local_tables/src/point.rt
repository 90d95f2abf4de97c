use ppd_graph::LeafCall;

/// What is known of the activations at a place: the call of the one without an interval of its own that goes on,
/// and the item that began the latest such one.
#[derive(Clone, Copy)]
pub(crate) struct Point {
    pub leaf: Option<LeafCall>,
    pub begun: Option<u32>,
}
