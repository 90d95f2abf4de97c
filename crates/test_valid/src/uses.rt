ghost use Rattle.std.specs.Prelude.{◌≡◌, ◌<◌, ◌≤◌, ◌↔◌, ◌+◌, ℕ, IsTrue, length, min, slice_index};
ghost use Rattle.std.specs.List.{flat_map, fold};
ghost use Rattle.ppd_ast.specs.Table.{EachAt, AreChildrenBelow};
ghost use Rattle.ppd_ast.specs.Tally.{IsOnce};
ghost use Rattle.ppd_ast.specs.Term.{term};
ghost use Rattle.ppd_ast.specs.Uses.{children, kind_uses, stmt_uses, operators_of, depth_of, uses_of};
ghost use Rattle.test_valid.specs.Tally.{tally};

use ppd_ast::limits::MOST_OPERATORS;
use ppd_ast::{Expr, Kind, Stmt, Target};

// How many numbers are marked in one pass.
const WINDOW: usize = 65_536;

fn are_children_below(expr: &Expr, index: usize) -> bool
    ensures { IsTrue result ↔ AreChildrenBelow index expr.now }
{
    match *expr {
        Expr::Const(_) | Expr::Local(_) | Expr::Shared(_) => true,
        Expr::LocalAt { at, .. } | Expr::SharedAt { at, .. } => (at as usize) < index,
        Expr::Neg(a) | Expr::Not(a) => (a as usize) < index,
        Expr::Two(_, a, b) | Expr::And(a, b) | Expr::Or(a, b) => {
            (a as usize) < index && (b as usize) < index
        }
    }
}

fn tally_children(expr: &Expr, marks: &mut [u8], start: usize)
    ensures { marks.new ≡ fold (tally start) marks.old (children expr.now) }
{
    match *expr {
        Expr::Const(_) | Expr::Local(_) | Expr::Shared(_) => {}
        Expr::LocalAt { at, .. } | Expr::SharedAt { at, .. } => mark(marks, start, at),
        Expr::Neg(a) | Expr::Not(a) => mark(marks, start, a),
        Expr::Two(_, a, b) | Expr::And(a, b) | Expr::Or(a, b) => {
            mark(marks, start, a);
            mark(marks, start, b);
        }
    }
}

// How many expressions the statement uses.
pub(crate) fn use_count(kind: &Kind) -> usize
    ensures { result ≡ length (kind_uses kind.now) }
{
    match kind {
        Kind::Set(Target::LocalAt { .. } | Target::SharedAt { .. }, _) => 2,
        Kind::Set(Target::Local(_) | Target::Shared(_), _) => 1,
        Kind::If(_, _, _) | Kind::While(_, _) | Kind::Send(_, _) => 1,
        Kind::Print(_) | Kind::Assert(_) => 1,
        Kind::Call { args, .. } => args.len(),
        Kind::Return(Some(_)) => 1,
        Kind::Return(None) | Kind::Zero { .. } | Kind::P(_) | Kind::V(_) => 0,
        Kind::Recv(_, _) | Kind::End => 0,
    }
}

// The expression that the statement uses at this place among those that it uses.
pub(crate) fn use_at(kind: &Kind, place: usize) -> u32
    requires { place < length (kind_uses kind.now) }
    ensures { result ≡ slice_index (kind_uses kind.now) place }
{
    match kind {
        Kind::Set(Target::LocalAt { at, .. } | Target::SharedAt { at, .. }, value) => {
            if place == 0 { *at } else { *value }
        }
        Kind::Set(Target::Local(_) | Target::Shared(_), value) => *value,
        Kind::If(value, _, _) | Kind::While(value, _) | Kind::Send(_, value) => *value,
        Kind::Print(value) | Kind::Assert(value) => *value,
        Kind::Call { args, .. } => args.as_slice()[place],
        Kind::Return(Some(value)) => *value,
        Kind::Return(None) | Kind::Zero { .. } | Kind::P(_) | Kind::V(_) => 0,
        Kind::Recv(_, _) | Kind::End => 0,
    }
}

fn tally_uses(kind: &Kind, marks: &mut [u8], start: usize)
    ensures { marks.new ≡ fold (tally start) marks.old (kind_uses kind.now) }
{
    for place in 0..use_count(kind) {
        mark(marks, start, use_at(kind, place));
    }
}

// Marks the number, if it is one of the window's.
fn mark(marks: &mut [u8], start: usize, number: u32)
    ensures { marks.new ≡ tally start marks.old number }
{
    let number = number as usize;
    if number >= start && number - start < marks.len() {
        let place = number - start;
        marks[place] = if marks[place] == 0 { 1 } else { 2 };
    }
}

fn tally_exprs(marks: &mut [u8], start: usize, exprs: &[Expr])
    ensures { marks.new ≡ fold (tally start) marks.old (flat_map children exprs.now) }
{
    for expr in exprs {
        tally_children(expr, marks, start);
    }
}

fn tally_stmts(marks: &mut [u8], start: usize, stmts: &[Stmt])
    ensures { marks.new ≡ fold (tally start) marks.old (flat_map stmt_uses stmts.now) }
{
    for stmt in stmts {
        tally_uses(&stmt.kind, marks, start);
    }
}

fn is_window_used_once(exprs: &[Expr], stmts: &[Stmt], start: usize) -> bool
    requires { start < length exprs.now }
    ensures { IsTrue result ↔
        ((n : ℕ) → start ≤ n → n < start + WINDOW → n < length exprs.now → IsOnce (uses_of exprs.now stmts.now) n) }
{
    let mut marks = [0u8; WINDOW];
    tally_exprs(&mut marks, start, exprs);
    tally_stmts(&mut marks, start, stmts);
    for place in 0..WINDOW {
        if place < exprs.len() - start && marks[place] != 1 {
            return false;
        }
    }
    true
}

// Whether each expression is used once, window by window, so that no memory is taken.
pub(crate) fn are_used_once(exprs: &[Expr], stmts: &[Stmt]) -> bool
    ensures { IsTrue result ↔ ((n : ℕ) → n < length exprs.now → IsOnce (uses_of exprs.now stmts.now) n) }
{
    let mut start = 0;
    while start < exprs.len() {
        if !is_window_used_once(exprs, stmts, start) {
            return false;
        }
        start += WINDOW;
    }
    true
}

pub(crate) fn are_ordered(exprs: &[Expr]) -> bool
    ensures { IsTrue result ↔ EachAt AreChildrenBelow exprs.now }
{
    for index in 0..exprs.len() {
        if !are_children_below(&exprs[index], index) {
            return false;
        }
    }
    true
}

// Whether the expression is at most so many nodes deep. It calls itself no deeper.
pub(crate) fn is_within_depth(exprs: &[Expr], number: u32, depth: u32) -> bool
    requires ordered { EachAt AreChildrenBelow exprs.now }
    requires there { number < length exprs.now }
    ensures { IsTrue result ↔ (depth_of (term exprs.now number) ≤ depth) }
{
    if depth == 0 {
        return false;
    }
    let expr = exprs[number as usize];
    match expr {
        Expr::Const(_) | Expr::Local(_) | Expr::Shared(_) => true,
        Expr::LocalAt { at, .. } | Expr::SharedAt { at, .. } => {
            is_within_depth(exprs, at, depth - 1)
        }
        Expr::Neg(a) | Expr::Not(a) => is_within_depth(exprs, a, depth - 1),
        Expr::Two(_, a, b) | Expr::And(a, b) | Expr::Or(a, b) => {
            is_within_depth(exprs, a, depth - 1) && is_within_depth(exprs, b, depth - 1)
        }
    }
}

// The operators of the expression, of which one more than is allowed stands for any greater number.
pub(crate) fn operators(exprs: &[Expr], number: u32) -> u32
    requires ordered { EachAt AreChildrenBelow exprs.now }
    requires there { number < length exprs.now }
    ensures { result ≡ min (MOST_OPERATORS + 1) (operators_of (term exprs.now number)) }
{
    let expr = exprs[number as usize];
    let count = match expr {
        Expr::Const(_) | Expr::Local(_) | Expr::Shared(_) => 0,
        Expr::LocalAt { at, .. } | Expr::SharedAt { at, .. } => operators(exprs, at),
        Expr::Neg(a) | Expr::Not(a) => 1 + operators(exprs, a),
        Expr::Two(_, a, b) | Expr::And(a, b) | Expr::Or(a, b) => {
            1 + operators(exprs, a) + operators(exprs, b)
        }
    };
    count.min(MOST_OPERATORS + 1)
}
