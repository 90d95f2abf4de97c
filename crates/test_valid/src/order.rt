ghost use Rattle.std.specs.Prelude.{◌≡◌, ◌↔◌, IsTrue, Some};
ghost use Rattle.std.specs.List.{flat_map};
ghost use Rattle.ppd_ast.specs.Order.{inner, preorder, StandIn};
ghost use Rattle.test_valid.specs.Counting.{counted};

use ppd_ast::{Kind, Stmt};

// The number after the list's statements and those inside them, where in pre-order they count up
// from `from`, down to this depth. It calls itself no deeper.
#[cycle(counting)]
pub(crate) fn counted_in(stmts: &[Stmt], list: &[u32], from: usize, depth: u32) -> Option<usize>
    ensures { result ≡ counted (flat_map (preorder depth stmts.now) list.now) from }
{
    if depth == 0 {
        return Some(from);
    }
    let mut next = from;
    for number in list {
        let place = *number as usize;
        if place != next {
            return None;
        }
        next = match stmts.get(place) {
            None => place + 1,
            Some(stmt) => counted_inside(stmts, &stmt.kind, place + 1, depth - 1)?,
        };
    }
    Some(next)
}

#[cycle(counting)]
fn counted_inside(stmts: &[Stmt], kind: &Kind, from: usize, depth: u32) -> Option<usize>
    ensures { result ≡ counted (flat_map (preorder depth stmts.now) (inner kind.now)) from }
{
    match kind {
        Kind::If(_, first, second) => {
            let next = counted_in(stmts, first.as_slice(), from, depth)?;
            counted_in(stmts, second.as_slice(), next, depth)
        }
        Kind::While(_, body) => counted_in(stmts, body.as_slice(), from, depth),
        _ => Some(from),
    }
}

// Whether each statement of the list stands directly in `parent`, in this body.
pub(crate) fn do_stand_in(stmts: &[Stmt], parent: Option<u32>, body: u16, list: &[u32]) -> bool
    ensures { IsTrue result ↔ StandIn stmts.now parent body list.now }
{
    for number in list {
        match stmts.get(*number as usize) {
            None => return false,
            Some(stmt) => {
                if stmt.parent != parent || stmt.body != body {
                    return false;
                }
            }
        }
    }
    true
}

// The same of what stands in a statement of this kind.
pub(crate) fn does_stand_inside(stmts: &[Stmt], parent: Option<u32>, body: u16, kind: &Kind) -> bool
    ensures { IsTrue result ↔ StandIn stmts.now parent body (inner kind.now) }
{
    match kind {
        Kind::If(_, first, second) => {
            do_stand_in(stmts, parent, body, first.as_slice())
                && do_stand_in(stmts, parent, body, second.as_slice())
        }
        Kind::While(_, list) => do_stand_in(stmts, parent, body, list.as_slice()),
        _ => true,
    }
}
