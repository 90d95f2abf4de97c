// Which bodies and statements a policy numbers.
ghost use Rattle.std.specs.Prelude.{◌≡◌, ◌-◌, length};
ghost use Rattle.std.specs.List.{flat_map};
ghost use Rattle.ppd_ast.specs.Numbered.{in_while, is_block_loop, has_call, is_block_body};
ghost use Rattle.ppd_ast.specs.Order.{inner, preorder};

use ppd_ast::limits::MOST_NESTING;
use ppd_ast::{Body, Kind, Policy, Stmt};
use ppd_sets::end_of;

// Whether a `while` is among this parent and those that it stands in. It calls itself no deeper.
fn is_in_while(stmts: &[Stmt], parent: Option<u32>, depth: u32) -> bool
    ensures { result ≡ in_while depth stmts.now parent }
{
    if depth == 0 {
        return false;
    }
    match parent {
        None => false,
        Some(number) => match stmts.get(number as usize) {
            None => false,
            Some(stmt) => stmt.kind.is_while() || is_in_while(stmts, stmt.parent, depth - 1),
        },
    }
}

// How many are wanted beside the statements of the list and those inside them.
#[cycle(missing)]
fn missing_in(stmts: &[Stmt], list: &[u32], wanted: u16, depth: u32) -> u16
    ensures { result ≡ wanted - length (flat_map (preorder depth stmts.now) list.now) }
{
    if depth == 0 {
        return wanted;
    }
    let mut missing = wanted;
    for number in list {
        if missing == 0 {
            return 0;
        }
        missing = match stmts.get(*number as usize) {
            None => missing - 1,
            Some(stmt) => missing_inside(stmts, &stmt.kind, missing - 1, depth - 1),
        };
    }
    missing
}

#[cycle(missing)]
fn missing_inside(stmts: &[Stmt], kind: &Kind, wanted: u16, depth: u32) -> u16
    ensures { result ≡ wanted - length (flat_map (preorder depth stmts.now) (inner kind.now)) }
{
    match kind {
        Kind::If(_, first, second) => {
            let missing = missing_in(stmts, first.as_slice(), wanted, depth);
            missing_in(stmts, second.as_slice(), missing, depth)
        }
        Kind::While(_, body) => missing_in(stmts, body.as_slice(), wanted, depth),
        _ => wanted,
    }
}

/// Whether the statement is a `while` that the policy makes a block.
pub fn is_block_loop(stmts: &[Stmt], policy: Policy, stmt: &Stmt) -> bool
    ensures { result ≡ is_block_loop stmts.now policy stmt.now }
{
    stmt.kind.is_while()
        && policy.loops > 0
        && !is_in_while(stmts, stmt.parent, MOST_NESTING)
        && missing_inside(stmts, &stmt.kind, policy.loops, MOST_NESTING) == 0
}

fn has_call(stmts: &[Stmt], body: &Body) -> bool
    ensures { result ≡ has_call stmts.now body.now }
{
    for number in body.first..end_of(stmts, body) {
        if stmts[number as usize].kind.is_call() {
            return true;
        }
    }
    false
}

/// Whether the policy makes the body a block.
pub fn is_block_body(stmts: &[Stmt], policy: Policy, body: &Body) -> bool
    ensures { result ≡ is_block_body stmts.now policy body.now }
{
    body.process
        || has_call(stmts, body)
        || policy.leaf as u32 <= body.end.saturating_sub(body.first)
}
