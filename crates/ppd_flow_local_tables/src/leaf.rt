ghost use Rattle.std.specs.Prelude.{◌≡◌};
ghost use Rattle.ppd_graph.specs.Locals.{frame_in as frame_by, leaf_after as leaf_by};

use crate::calls::Code;
use ppd_graph::LeafCall;
use ppd_sem::Event;

/// The call whose activation goes on without an interval of its own after an event, which is this item.
pub fn leaf_after(code: &Code, item: u32, event: &Event, leaf: Option<LeafCall>) -> Option<LeafCall>
    ensures { result ≡ leaf_by code.now.program.now code.now.plan.now item event.now leaf }
{
    if code.begins_leaf(event) {
        Some(LeafCall {
            item,
            stmt: event.stmt,
        })
    } else if code.returns(event.stmt) {
        None
    } else {
        leaf
    }
}

/// The frame of a place: 1 where the activation of such a call goes on, and 0 in the interval's own.
pub fn frame_in(leaf: Option<LeafCall>) -> u8
    ensures { result ≡ frame_by leaf }
{
    match leaf {
        Some(_) => 1,
        None => 0,
    }
}
