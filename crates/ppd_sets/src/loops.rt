ghost use Rattle.ppd_ast.specs.declared.limits.TheConstants.{MOST_NESTING};
ghost use Rattle.std.specs.Prelude.{false};
ghost use Rattle.std.specs.List.{flat_map};
ghost use Rattle.ppd_ast.specs.Order.{inner, preorder};
ghost use Rattle.ppd_ast.specs.Table.{EachAt, AreChildrenBelow};
ghost use Rattle.ppd_sets.specs.Used.{reads_at, writes_at};
ghost use Rattle.ppd_sets.specs.Gained.{GainsBoth, HasBoth};

use crate::touched::Touched;
use ppd_ast::limits::MOST_NESTING;
use ppd_ast::{Kind, Program};

// Adds the local cells of the statements of the list and of those inside them, at most so deep. It
// calls itself no deeper.
#[cycle(within)]
fn add_within(touched: &mut Touched, program: &Program, list: &[u32], depth: u32)
    requires { EachAt AreChildrenBelow program.now.exprs }
    ensures { GainsBoth touched.old touched.new
        (flat_map (reads_at false program.now) (flat_map (preorder depth program.now.stmts) list.now))
        (flat_map (writes_at false program.now) (flat_map (preorder depth program.now.stmts) list.now)) }
{
    for number in list {
        add_stmt(touched, program, *number, depth);
    }
}

#[cycle(within)]
fn add_stmt(touched: &mut Touched, program: &Program, number: u32, depth: u32)
    requires { EachAt AreChildrenBelow program.now.exprs }
    ensures { GainsBoth touched.old touched.new
        (flat_map (reads_at false program.now) (preorder depth program.now.stmts number))
        (flat_map (writes_at false program.now) (preorder depth program.now.stmts number)) }
{
    if depth == 0 {
        return;
    }
    match program.stmts.as_slice().get(number as usize) {
        None => {}
        Some(stmt) => {
            touched.add(false, program, &stmt.kind);
            add_inside(touched, program, &stmt.kind, depth - 1);
        }
    }
}

#[cycle(within)]
#[tactic(auto, using(crate::proofs::Inside::both_lists))]
fn add_inside(touched: &mut Touched, program: &Program, kind: &Kind, depth: u32)
    requires { EachAt AreChildrenBelow program.now.exprs }
    ensures { GainsBoth touched.old touched.new
        (flat_map (reads_at false program.now) (flat_map (preorder depth program.now.stmts) (inner kind.now)))
        (flat_map (writes_at false program.now) (flat_map (preorder depth program.now.stmts) (inner kind.now))) }
{
    match kind {
        Kind::If(_, first, second) => {
            add_within(touched, program, first.as_slice(), depth);
            add_within(touched, program, second.as_slice(), depth);
        }
        Kind::While(_, body) => add_within(touched, program, body.as_slice(), depth),
        _ => {}
    }
}

// The local cells of a loop and of the statements inside it.
pub(crate) fn loop_touched(program: &Program, number: u32) -> Touched
    requires { EachAt AreChildrenBelow program.now.exprs }
    ensures { HasBoth result
        (flat_map (reads_at false program.now) (preorder MOST_NESTING program.now.stmts number))
        (flat_map (writes_at false program.now) (preorder MOST_NESTING program.now.stmts number)) }
{
    let mut touched = Touched::new();
    add_stmt(&mut touched, program, number, MOST_NESTING);
    touched
}
