ghost use Rattle.std.specs.Prelude.{◌≡◌, map, IfOk};
ghost use Rattle.std.specs.List.{flat_map};
ghost use Rattle.ppd_ast.specs.Bare.{bare};
ghost use Rattle.ppd_ast.specs.Valid.{IsValid};
ghost use Rattle.ppd_ast.specs.ValidPlan.{IsValidPlan, IsValidPolicy};
ghost use Rattle.ppd_blocks.specs.Blocks.{filled, loop_in, plan_of};
ghost use Rattle.ppd_blocks.specs.Starts.{units_of};

use crate::bare::bare_plan;
use crate::blocks::{fill, loops_among};
use crate::numbering::units;
use ppd_ast::{Block, Memory, Plan, Policy, Program, Seq, Unit};
use ppd_sets::sets;
use std::alloc::Global;

// The units of a program with these blocks.
fn units_with(alloc: Global, program: &Program, blocks: &[Block]) -> Result<Seq<Unit>, Memory>
    requires { IsValid program.now }
    ensures { IfOk result
        (λ units. units ≡ units_of program.now (flat_map (λ b. loop_in b.kind) blocks.now)) }
{
    let loops = loops_among(alloc, blocks)?;
    units(alloc, program, loops.as_slice())
}

// The blocks with their cells.
fn blocks_with(alloc: Global, program: &Program, bare: &[Block]) -> Result<Seq<Block>, Memory>
    requires { IsValid program.now }
    ensures { IfOk result (λ blocks. blocks ≡ map (filled program.now) bare.now) }
{
    let sets = sets(alloc, program)?;
    fill(alloc, program, &sets, bare)
}

// The plan of a policy by its blocks without cells.
fn plan_with(
    alloc: Global,
    program: &Program,
    policy: &Policy,
    plain: &[Block],
) -> Result<Plan, Memory>
    requires program { IsValid program.now }
    requires policy { IsValidPolicy policy.now }
    requires blocks { plain.now ≡ (bare program.now policy.now).blocks }
    ensures plan { IfOk result (λ plan. plan ≡ plan_of program.now policy.now) }
    ensures valid { IfOk result (λ plan. IsValidPlan program.now plan) }
{
    let units = units_with(alloc, program, plain)?;
    let blocks = blocks_with(alloc, program, plain)?;
    Ok(Plan {
        policy: *policy,
        blocks,
        units,
    })
}

/// The plan of a policy, in the order of the blocks' and the units' numbers. A function's prelog
/// holds its parameters, and its postlog the value that it returns, if any; a block loop's prelog
/// holds the local cells that its test or a statement inside may read or write, and its postlog
/// those that a statement inside may write, where a call counts as writing its receiving local; a
/// process's hold nothing. A unit's cells are those that it may read. `Memory` is want of memory.
pub fn partition(alloc: Global, program: &Program, policy: &Policy) -> Result<Plan, Memory>
    requires program { IsValid program.now }
    requires policy { IsValidPolicy policy.now }
    ensures plan { IfOk result (λ plan. plan ≡ plan_of program.now policy.now) }
    ensures valid { IfOk result (λ plan. IsValidPlan program.now plan) }
{
    let bare = bare_plan(alloc, program, policy)?;
    plan_with(alloc, program, policy, bare.blocks.as_slice())
}
