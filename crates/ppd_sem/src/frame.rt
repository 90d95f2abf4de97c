ghost use Rattle.std.specs.Prelude.{◌≡◌, ◌-◌, ◌<◌, ◌^◌, ◌++◌, [], length, pos, replicate, IfOk, OnOk};
ghost use Rattle.std.specs.List.{All};
ghost use Rattle.ppd_ast.specs.Table.{AreChildrenBelow, EachAt};
ghost use Rattle.ppd_sem.specs.Effects.{given};
ghost use Rattle.ppd_sem.specs.Process.{new_frame as new_frame_of};
ghost use Rattle.ppd_sem.specs.Runs.{IsUse, size_of};

use crate::asking::ask;
use crate::proc::Frame;
use ppd_ast::{Expr, Memory, Nums, Program};
use std::alloc::Global;

/// Appends the arguments' values, left to right, up to the first that is not there.
fn push_values(
    values: &mut Nums,
    exprs: &[Expr],
    arguments: &[u32],
    cells: &[i64],
    answers: &[i64],
) -> Result<(), Memory>
    requires children { EachAt AreChildrenBelow exprs.now }
    requires limit { length cells.now < 2 ^ 16 }
    requires uses { All (IsUse exprs.now (length cells.now)) arguments.now }
    ensures { OnOk result (values.new ≡ values.old ++ given exprs.now arguments.now cells.now answers.now) }
{
    match arguments {
        [] => Ok(()),
        [first, rest @ ..] => match ask(exprs, *first, cells, answers) {
            Ok((value, left)) => {
                values.push(value)?;
                push_values(values, exprs, rest, cells, left)
            }
            Err(_) => Ok(()),
        },
    }
}

/// The arguments' values, left to right, up to the first that is not there.
pub(crate) fn values_given(
    alloc: Global,
    exprs: &[Expr],
    arguments: &[u32],
    cells: &[i64],
    answers: &[i64],
) -> Result<Nums, Memory>
    requires children { EachAt AreChildrenBelow exprs.now }
    requires limit { length cells.now < 2 ^ 16 }
    requires uses { All (IsUse exprs.now (length cells.now)) arguments.now }
    ensures { IfOk result (λ values. values ≡ given exprs.now arguments.now cells.now answers.now) }
{
    let mut values = Nums::new(alloc);
    push_values(&mut values, exprs, arguments, cells, answers)?;
    Ok(values)
}

/// Appends zeros up to this size.
fn pad(values: &mut Nums, size: u16) -> Result<(), Memory>
    ensures { OnOk result (values.new ≡ values.old ++ replicate (size - length values.old) (pos 0)) }
{
    let missing = (size as usize).saturating_sub(values.len());
    for _index in 0..missing {
        values.push(0)?;
    }
    Ok(())
}

/// The size in cells of the frame of the body with this number, from 0, and 0 past the table.
pub fn size_at(program: &Program, body: u16) -> u16
    ensures { result ≡ size_of program.now body }
{
    match program.bodies.get(body as usize) {
        Some(body) => body.cells,
        None => 0,
    }
}

/// The frame of a body that begins with these values.
#[tactic(auto, using(crate::proofs::Cells::padded))]
pub(crate) fn new_frame(
    program: &Program,
    body: u16,
    mut values: Nums,
    call: Option<u32>,
) -> Result<Frame, Memory>
    ensures { IfOk result (λ frame. frame ≡ new_frame_of program.now body values call) }
{
    pad(&mut values, size_at(program, body))?;
    Ok(Frame {
        body,
        cells: values,
        call,
    })
}
