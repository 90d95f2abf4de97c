ghost use Rattle.std.specs.Option.{option_or};
ghost use Rattle.std.specs.Prelude.{◌≡◌, ◌++◌, IfOk, OnOk, option_to_list, slice_get};
ghost use Rattle.ppd_ast.specs.Lookups.{kind_of, body_numbered};
ghost use Rattle.ppd_sets.specs.Lists.{rising};
ghost use Rattle.ppd_sets.specs.Flow.{next_in, follow_within, follow_at, successors};

use ppd_ast::{Ids, Kind, Memory, Program};
use std::alloc::Global;

fn first(list: &[u32], after: Option<u32>) -> Option<u32>
    ensures { result ≡ option_or (slice_get list.now 0) after }
{
    match list.first() {
        Some(item) => Some(*item),
        None => after,
    }
}

// The statement behind this one in its list, or what follows the list.
#[tactic(auto, using(crate::proofs::Searches::next_here, crate::proofs::Searches::next_on, crate::proofs::Searches::nothing_left))]
fn next_in_list(list: &[u32], stmt: u32, after: Option<u32>) -> Option<u32>
    ensures { result ≡ next_in list.now stmt after }
{
    for (index, item) in list.iter().enumerate() {
        if *item == stmt {
            return first(&list[index + 1..], after);
        }
    }
    None
}

fn top(program: &Program, body: u16) -> &[u32]
    ensures { result.now ≡ (body_numbered program.now body).top }
{
    match program.body(body) {
        Some(found) => found.top.as_slice(),
        None => &[],
    }
}

// What follows a statement that stands directly in `outer`, which `after` follows.
fn follow_inside(program: &Program, outer: u32, stmt: u32, after: Option<u32>) -> Option<u32>
    ensures { result ≡ follow_within outer (kind_of program.now outer) stmt after }
{
    match program.stmt(outer) {
        Some(found) => match &found.kind {
            Kind::If(_, yes, no) => {
                if yes.as_slice().contains(&stmt) {
                    next_in_list(yes.as_slice(), stmt, after)
                } else {
                    next_in_list(no.as_slice(), stmt, after)
                }
            }
            Kind::While(_, body) => next_in_list(body.as_slice(), stmt, Some(outer)),
            _ => None,
        },
        None => None,
    }
}

// What follows a statement, which stands in at most so many lists. It calls itself no deeper.
pub(crate) fn follow(program: &Program, stmt: u32, depth: u32) -> Option<u32>
    ensures { result ≡ follow_at depth program.now stmt }
{
    if depth == 0 {
        return None;
    }
    match program.stmt(stmt) {
        None => None,
        Some(found) => match found.parent {
            None => next_in_list(top(program, found.body), stmt, None),
            Some(outer) => {
                let after = follow(program, outer, depth - 1);
                follow_inside(program, outer, stmt, after)
            }
        },
    }
}

// The numbers that are there, the lower one first, each once.
fn in_order(a: Option<u32>, b: Option<u32>) -> (Option<u32>, Option<u32>)
    ensures { option_to_list result.0 ++ option_to_list result.1 ≡ rising a b }
{
    match (a, b) {
        (Some(x), Some(y)) => {
            if x < y {
                (Some(x), Some(y))
            } else if x == y {
                (Some(x), None)
            } else {
                (Some(y), Some(x))
            }
        }
        (Some(x), None) => (Some(x), None),
        (None, b) => (b, None),
    }
}

// Appends the number, if it is there.
fn push_some(ids: &mut Ids, number: Option<u32>) -> Result<(), Memory>
    ensures { OnOk result (ids.new ≡ ids.old ++ option_to_list number) }
{
    match number {
        Some(id) => ids.push(id),
        None => Ok(()),
    }
}

// The numbers, rising, each once.
fn rising_list(alloc: Global, a: Option<u32>, b: Option<u32>) -> Result<Ids, Memory>
    ensures { IfOk result (λ ids. ids ≡ rising a b) }
{
    let (first, second) = in_order(a, b);
    let mut ids = Ids::new(alloc);
    push_some(&mut ids, first)?;
    push_some(&mut ids, second)?;
    Ok(ids)
}

// The successors of a statement of this kind, which `after` follows.
pub(crate) fn successors_by(
    alloc: Global,
    stmt: u32,
    kind: &Kind,
    after: Option<u32>,
) -> Result<Ids, Memory>
    ensures { IfOk result (λ ids. ids ≡ successors stmt kind.now after) }
{
    match kind {
        Kind::If(_, yes, no) => rising_list(
            alloc,
            first(yes.as_slice(), after),
            first(no.as_slice(), after),
        ),
        Kind::While(_, body) => rising_list(alloc, first(body.as_slice(), Some(stmt)), after),
        Kind::Return(_) | Kind::End => rising_list(alloc, None, None),
        _ => rising_list(alloc, after, None),
    }
}
