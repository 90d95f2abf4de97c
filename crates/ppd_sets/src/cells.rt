ghost use Rattle.std.specs.Prelude.{[], ◌∷◌, true, not};
ghost use Rattle.ppd_ast.specs.Table.{EachAt, AreChildrenBelow};
ghost use Rattle.ppd_ast.specs.Term.{term};
ghost use Rattle.ppd_ast.specs.Valid.{IsValid};
ghost use Rattle.ppd_sets.specs.Named.{cells_in, reads, writes, cells_if};
ghost use Rattle.ppd_sets.specs.Gained.{Gains};
ghost use Rattle.std.specs.List.{flat_map, range_with_len};

use crate::cell_set::CellSet;
use ppd_ast::limits::MOST_SHARED_CELLS;
use ppd_ast::{Expr, Kind, Program, Target};

/// Adds the cell. None of a valid program is `MOST_SHARED_CELLS` or more; such a one is left out.
pub fn add_cell(cells: &mut CellSet, cell: u32)
    ensures { Gains cells.old cells.new (cell ∷ []) }
{
    if cell as usize >= MOST_SHARED_CELLS {
        return;
    }
    cells.insert(cell as u16);
}

// Adds so many cells from this one on.
fn add_range(cells: &mut CellSet, base: u16, len: u16)
    ensures { Gains cells.old cells.new (range_with_len base len) }
{
    for place in 0..len {
        add_cell(cells, base as u32 + place as u32);
    }
}

fn add_shared(cells: &mut CellSet, wants_shared: bool, base: u16, len: u16)
    ensures { Gains cells.old cells.new (cells_if wants_shared base len) }
{
    if wants_shared {
        add_range(cells, base, len);
    }
}

fn add_local(cells: &mut CellSet, wants_shared: bool, base: u16, len: u16)
    ensures { Gains cells.old cells.new (cells_if (not wants_shared) base len) }
{
    if !wants_shared {
        add_range(cells, base, len);
    }
}

// Adds the shared cells that an expression may read, or the local ones. A child has a smaller
// number, so that it comes to an end.
#[tactic(auto, using(crate::proofs::Expressions::gains_past_end))]
fn add_expr(cells: &mut CellSet, wants_shared: bool, exprs: &[Expr], number: u32)
    requires { EachAt AreChildrenBelow exprs.now }
    ensures { Gains cells.old cells.new (cells_in wants_shared (term exprs.now number)) }
{
    if number as usize >= exprs.len() {
        return;
    }
    let expr = exprs[number as usize];
    match expr {
        Expr::Const(_) => {}
        Expr::Local(cell) => add_local(cells, wants_shared, cell, 1),
        Expr::LocalAt { base, len, at } => {
            add_local(cells, wants_shared, base, len);
            add_expr(cells, wants_shared, exprs, at);
        }
        Expr::Shared(cell) => add_shared(cells, wants_shared, cell, 1),
        Expr::SharedAt { base, len, at } => {
            add_shared(cells, wants_shared, base, len);
            add_expr(cells, wants_shared, exprs, at);
        }
        Expr::Neg(a) | Expr::Not(a) => add_expr(cells, wants_shared, exprs, a),
        Expr::Two(_, a, b) | Expr::And(a, b) | Expr::Or(a, b) => {
            add_expr(cells, wants_shared, exprs, a);
            add_expr(cells, wants_shared, exprs, b);
        }
    }
}

fn add_exprs(cells: &mut CellSet, wants_shared: bool, exprs: &[Expr], numbers: &[u32])
    requires { EachAt AreChildrenBelow exprs.now }
    ensures { Gains cells.old cells.new (flat_map (λ e. cells_in wants_shared (term exprs.now e)) numbers.now) }
{
    for number in numbers {
        add_expr(cells, wants_shared, exprs, *number);
    }
}

/// Adds the cells that a statement's expressions may read, arrays whole: the shared ones, or those of the frame.
#[tactic(auto, using(crate::proofs::Gaining::gains_none))]
pub fn add_reads(cells: &mut CellSet, wants_shared: bool, exprs: &[Expr], kind: &Kind)
    requires { EachAt AreChildrenBelow exprs.now }
    ensures { Gains cells.old cells.new (reads wants_shared exprs.now kind.now) }
{
    match kind {
        Kind::Set(Target::LocalAt { at, .. } | Target::SharedAt { at, .. }, value) => {
            add_exprs(cells, wants_shared, exprs, &[*at, *value])
        }
        Kind::Set(Target::Local(_) | Target::Shared(_), value) => {
            add_exprs(cells, wants_shared, exprs, &[*value])
        }
        Kind::If(value, _, _) | Kind::While(value, _) | Kind::Send(_, value) => {
            add_exprs(cells, wants_shared, exprs, &[*value])
        }
        Kind::Print(value) | Kind::Assert(value) | Kind::Return(Some(value)) => {
            add_exprs(cells, wants_shared, exprs, &[*value])
        }
        Kind::Call { args, .. } => add_exprs(cells, wants_shared, exprs, args.as_slice()),
        Kind::Return(None) | Kind::Zero { .. } | Kind::P(_) | Kind::V(_) => {}
        Kind::Recv(_, _) | Kind::End => {}
    }
}

/// Adds the shared cells that a statement's expressions may read, arrays whole.
pub fn add_shared_reads(cells: &mut CellSet, program: &Program, kind: &Kind)
    requires { IsValid program.now }
    ensures { Gains cells.old cells.new (reads true program.now.exprs kind.now) }
{
    add_reads(cells, true, program.exprs.as_slice(), kind)
}

/// Adds the cells that a statement writes, arrays whole: the shared ones, or those of the frame. A call counts as
/// writing its receiving local.
pub fn add_writes(cells: &mut CellSet, wants_shared: bool, kind: &Kind)
    ensures { Gains cells.old cells.new (writes wants_shared kind.now) }
{
    match kind {
        Kind::Set(Target::Local(cell), _) => add_local(cells, wants_shared, *cell, 1),
        Kind::Set(Target::LocalAt { base, len, .. }, _) => {
            add_local(cells, wants_shared, *base, *len)
        }
        Kind::Set(Target::Shared(cell), _) => add_shared(cells, wants_shared, *cell, 1),
        Kind::Set(Target::SharedAt { base, len, .. }, _) => {
            add_shared(cells, wants_shared, *base, *len)
        }
        Kind::Zero { base, len } => add_local(cells, wants_shared, *base, *len),
        Kind::Call {
            into: Some(into),
            ..
        }
        | Kind::Recv(_, into) => { add_local(cells, wants_shared, *into, 1) }
        _ => {}
    }
}
