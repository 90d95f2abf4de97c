/// Why a process ends before its time: a step that it could not take.
#[derive(Clone, Copy, PartialEq)]
pub enum Trap {
    /// A result outside the 64-bit numbers.
    Overflow,
    /// A zero divisor.
    Zero,
    /// An index below 0 or at least the array's length.
    Index,
    /// An assertion whose value is 0.
    Assert,
    /// A call while 64 calls of the process have not returned.
    Depth,
}

/// How a process ended.
#[derive(Clone, Copy, PartialEq)]
pub enum Status {
    /// It came to its closing brace.
    Ended,
    /// A step trapped.
    Trap(Trap),
    /// Its next step would have cost more than was left.
    Budget,
    /// It waited at a synchronization when nobody could take a step.
    Blocked,
}

/// The kinds of synchronization.
#[derive(Clone, Copy)]
pub enum SyncKind {
    P,
    V,
    /// A send; on a channel of capacity 0 the offer.
    Send,
    Recv,
    /// The completion of a send on a channel of capacity 0.
    Done,
}
