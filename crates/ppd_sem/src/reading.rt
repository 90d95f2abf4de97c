ghost use Rattle.std.specs.Prelude.{◌≡◌, ◌<◌, ◌^◌, ◌++◌, length, OnOk, get_or, pos, ◌∷◌, []};
ghost use Rattle.std.specs.List.{All};
ghost use Rattle.ppd_ast.specs.Table.{AreChildrenBelow, EachAt};
ghost use Rattle.ppd_ast.specs.Term.{term};
ghost use Rattle.ppd_sem.specs.Parts.{AreCellsBelow, element_read, index_reads, leaf_read};
ghost use Rattle.ppd_sem.specs.Reads.{reads_of, reads_of_all, reads_of_kind, shared_read, local_accesses};
ghost use Rattle.ppd_sem.specs.Runs.{AreUses, IsTargetWithin, IsUse};
ghost use Rattle.ppd_sem.specs.Within.{IsWithin};

use crate::asking::{ask, expr_at, first_operand, second_operand};
use crate::effect::{target_cell, valued};
use crate::eval::element;
use crate::event::{Access, Spot};
use ppd_ast::{Expr, Kind, Memory, Seq, Target};

/// Adds the read of a local cell.
fn read_local(reads: &mut Seq<Access>, frame: u8, cells: &[i64], cell: u16) -> Result<(), Memory>
    requires { cell < length cells.now }
    ensures { OnOk result (reads.new ≡ reads.old ++ local_accesses frame cell (get_or cells.now cell (pos 0) ∷ [])) }
{
    let spot = Spot::Local { frame, cell };
    let value = cells[cell as usize];
    reads.push(Access { spot, value })
}

/// Adds the read of a shared cell, where its answer is there.
fn read_shared(reads: &mut Seq<Access>, cell: u16, answers: &[i64]) -> Result<(), Memory>
    ensures { OnOk result (reads.new ≡ reads.old ++ shared_read cell answers.now) }
{
    match answers {
        [] => Ok(()),
        [value, ..] => {
            let spot = Spot::Shared(cell);
            let value = *value;
            reads.push(Access { spot, value })
        }
    }
}

/// Adds the read of an expression without operands.
fn push_leaf(
    reads: &mut Seq<Access>,
    frame: u8,
    expr: Expr,
    cells: &[i64],
    answers: &[i64],
) -> Result<(), Memory>
    requires { AreCellsBelow (length cells.now) expr }
    ensures { OnOk result (reads.new ≡ reads.old ++ leaf_read frame expr cells.now answers.now) }
{
    match expr {
        Expr::Local(cell) => read_local(reads, frame, cells, cell),
        Expr::Shared(cell) => read_shared(reads, cell, answers),
        _ => Ok(()),
    }
}

/// Adds the read of an array's element, whose index is tested; other expressions read nothing of their own.
fn push_element(
    reads: &mut Seq<Access>,
    frame: u8,
    expr: Expr,
    index: i64,
    cells: &[i64],
    answers: &[i64],
) -> Result<(), Memory>
    requires cells { AreCellsBelow (length cells.now) expr }
    requires limit { length cells.now < 2 ^ 16 }
    ensures { OnOk result (reads.new ≡ reads.old ++ element_read frame expr index cells.now answers.now) }
{
    match expr {
        Expr::LocalAt { base, len, .. } => match element(base, len, index) {
            Ok(cell) => read_local(reads, frame, cells, cell),
            Err(_) => Ok(()),
        },
        Expr::SharedAt { base, len, .. } => match element(base, len, index) {
            Ok(cell) => read_shared(reads, cell, answers),
            Err(_) => Ok(()),
        },
        _ => Ok(()),
    }
}

/// Adds the reads of expression `at` over the top frame's cells, in order of evaluation, as far
/// as it is evaluated. `Memory` is want of memory.
#[tactic(auto, using(crate::proofs::Readings::reading))]
pub(crate) fn push_reads(
    reads: &mut Seq<Access>,
    frame: u8,
    exprs: &[Expr],
    at: u32,
    cells: &[i64],
    answers: &[i64],
) -> Result<(), Memory>
    requires children { EachAt AreChildrenBelow exprs.now }
    requires at_in { at < length exprs.now }
    requires within { IsWithin (length cells.now) (term exprs.now at) }
    requires limit { length cells.now < 2 ^ 16 }
    ensures { OnOk result (reads.new ≡ reads.old ++ reads_of frame (term exprs.now at) cells.now answers.now) }
{
    let expr = expr_at(exprs, at);
    let Some(first) = first_operand(expr) else {
        return push_leaf(reads, frame, expr, cells, answers);
    };
    push_reads(reads, frame, exprs, first, cells, answers)?;
    let Ok((x, rest)) = ask(exprs, first, cells, answers) else {
        return Ok(());
    };
    match second_operand(expr, x) {
        Some(second) => push_reads(reads, frame, exprs, second, cells, rest),
        None => push_element(reads, frame, expr, x, cells, rest),
    }
}

/// Adds the reads of the arguments, left to right.
fn push_all(
    reads: &mut Seq<Access>,
    frame: u8,
    exprs: &[Expr],
    arguments: &[u32],
    cells: &[i64],
    answers: &[i64],
) -> Result<(), Memory>
    requires children { EachAt AreChildrenBelow exprs.now }
    requires limit { length cells.now < 2 ^ 16 }
    requires uses { All (IsUse exprs.now (length cells.now)) arguments.now }
    ensures { OnOk result (reads.new ≡ reads.old ++ reads_of_all frame exprs.now arguments.now cells.now answers.now) }
{
    match arguments {
        [] => Ok(()),
        [first, rest @ ..] => {
            push_reads(reads, frame, exprs, *first, cells, answers)?;
            match ask(exprs, *first, cells, answers) {
                Ok((_, left)) => push_all(reads, frame, exprs, rest, cells, left),
                Err(_) => Ok(()),
            }
        }
    }
}

/// Adds the reads of a target's index.
fn push_index(
    reads: &mut Seq<Access>,
    frame: u8,
    exprs: &[Expr],
    target: Target,
    cells: &[i64],
    answers: &[i64],
) -> Result<(), Memory>
    requires children { EachAt AreChildrenBelow exprs.now }
    requires limit { length cells.now < 2 ^ 16 }
    requires target { IsTargetWithin exprs.now (length cells.now) target }
    ensures { OnOk result (reads.new ≡ reads.old ++ index_reads frame exprs.now target cells.now answers.now) }
{
    match target {
        Target::LocalAt { at, .. } | Target::SharedAt { at, .. } => {
            push_reads(reads, frame, exprs, at, cells, answers)
        }
        Target::Local(_) | Target::Shared(_) => Ok(()),
    }
}

/// Adds the reads of a statement of this kind, in order of evaluation, as far as it is
/// evaluated. `Memory` is want of memory.
pub(crate) fn push_kind_reads(
    reads: &mut Seq<Access>,
    frame: u8,
    exprs: &[Expr],
    kind: &Kind,
    cells: &[i64],
    answers: &[i64],
) -> Result<(), Memory>
    requires children { EachAt AreChildrenBelow exprs.now }
    requires limit { length cells.now < 2 ^ 16 }
    requires uses { AreUses exprs.now (length cells.now) kind.now }
    ensures { OnOk result (reads.new ≡ reads.old ++ reads_of_kind frame exprs.now kind.now cells.now answers.now) }
{
    match kind {
        Kind::Set(target, value) => {
            push_index(reads, frame, exprs, *target, cells, answers)?;
            match target_cell(exprs, *target, cells, answers) {
                Ok((_, rest)) => push_reads(reads, frame, exprs, *value, cells, rest),
                Err(_) => Ok(()),
            }
        }
        Kind::Call { args, .. } => {
            push_all(reads, frame, exprs, args.as_slice(), cells, answers)
        }
        _ => match valued(kind) {
            Some(value) => push_reads(reads, frame, exprs, value, cells, answers),
            None => Ok(()),
        },
    }
}
