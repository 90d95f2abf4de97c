use ppd_model::NodeId;

/// What led to a synchronization by its number.
#[derive(Clone, Copy)]
pub enum Paired {
    /// It needs nothing: a `V`, a send whose place was free from the start, or the first send on a channel of
    /// capacity 0.
    Nothing,
    /// A `P` that the semaphore's initial value let through.
    Initial,
    /// The `V` of a `P`, the send of a receive, the receive that freed the place of a send; on a channel of
    /// capacity 0 the receive of a completion, and the completion before a send.
    Node(NodeId),
}
