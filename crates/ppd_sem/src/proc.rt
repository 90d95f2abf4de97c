ghost use Rattle.std.specs.Prelude.{◌≡◌};
ghost use Rattle.ppd_sem.specs.Process.{value_of};

use crate::stack::Stack;
use ppd_ast::{Nums, Status, Trap};

/// What the next step of a process needs. A `unit` is the synchronization unit that starts
/// after the step; a `block` is the block that the step enters or leaves.
#[derive(Clone, Copy)]
pub enum Need {
    /// The value of a shared cell.
    Read(u16),
    /// To write a value to a shared cell.
    Write(u16, i64),
    /// Nothing but the process itself.
    Plain,
    /// To enter a block loop.
    Enter {
        block: u16,
        unit: u16,
    },
    /// To leave a block loop.
    Leave {
        block: u16,
        unit: u16,
    },
    /// To call a function, which may be a block.
    Invoke {
        block: Option<u16>,
        unit: u16,
    },
    /// To return; `unit` is None where the frame is the first of its process state.
    Back {
        block: Option<u16>,
        unit: Option<u16>,
    },
    /// To take from a semaphore.
    P {
        sem: u8,
        unit: u16,
    },
    /// To give to a semaphore.
    V {
        sem: u8,
        unit: u16,
    },
    /// To send a value on a channel.
    Send {
        chan: u8,
        value: i64,
        unit: u16,
    },
    /// To offer a value on a channel of capacity 0.
    Offer {
        chan: u8,
        value: i64,
    },
    /// To complete a send on a channel of capacity 0, once its value was received.
    Done {
        chan: u8,
        unit: u16,
    },
    /// To receive from a channel.
    Recv {
        chan: u8,
        unit: u16,
    },
    /// To end at the process's closing brace.
    End {
        block: u16,
    },
    /// A step that traps.
    Trap(Trap),
    /// To stop, since the next step would cost more than is left.
    Budget,
    /// Nothing: the process takes no further step.
    Stopped,
}

/// What a step is given.
#[derive(Clone, Copy)]
pub enum Answer {
    /// The value that was read or received.
    Value(i64),
    /// Leave to take a step that needs no value.
    Go,
}

impl Answer {
    /// The value that the step is given, and 0 without one.
    pub fn value_given(self) -> i64
        ensures { result ≡ value_of self }
    {
        match self {
            Answer::Value(value) => value,
            Answer::Go => 0,
        }
    }
}

/// An activation: its body, its local cells and the `Call` statement that began it, if any.
#[derive(Drop, PartialEq)]
pub struct Frame {
    pub body: u16,
    pub cells: Nums,
    pub call: Option<u32>,
}

/// A statement that is still to do; a running block loop is marked as entered, a send whose offer
/// was taken as offered.
#[derive(Clone, Copy, PartialEq)]
pub struct Todo {
    pub stmt: u32,
    pub entered: bool,
    pub offered: bool,
}

/// The state of one process, without any shared value. `todo` holds the statements still to do,
/// the head statement at the top; `answers` the values that its shared reads got so far. `below`
/// counts the calls that were open when the first frame had just begun, its own among them: 0 in
/// a process's body, 64 at most. `spent` is what the `steps` counted so far cost; `status` is
/// there once the process stopped.
#[derive(Drop)]
pub struct Proc {
    pub frames: Stack<Frame>,
    pub todo: Stack<Todo>,
    pub answers: Nums,
    pub below: u8,
    pub budget: u32,
    pub spent: u32,
    pub steps: u32,
    pub prints: Nums,
    pub status: Option<Status>,
}
