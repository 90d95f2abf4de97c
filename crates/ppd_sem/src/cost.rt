ghost use Rattle.std.specs.Prelude.{◌≡◌, ◌+◌, ◌<◌, ◌≤◌, ◌^◌, length};
ghost use Rattle.ppd_sem.specs.Process.{cost as cost_of, values_of, within_budget as within_budget_of};
ghost use Rattle.ppd_sem.specs.Tables.{postlog_cells, prelog_cells, returned_length as returned_length_of, unit_length as unit_length_of};

use crate::blocks::{postlog_cells, prelog_cells};
use crate::proc::{Need, Proc};
use ppd_ast::Plan;

// Lengths are counted with 128 bits, so that no sum of them is too large.

fn prelog_length(plan: &Plan, block: u16) -> u128
    ensures is { result ≡ length (prelog_cells plan.now block) }
    ensures small { result < 2 ^ 64 }
{
    prelog_cells(plan, block).len() as u128
}

fn postlog_length(plan: &Plan, block: u16) -> u128
    ensures is { result ≡ length (postlog_cells plan.now block) }
    ensures small { result < 2 ^ 64 }
{
    postlog_cells(plan, block).len() as u128
}

fn unit_length(plan: &Plan, unit: u16) -> u128
    ensures is { result ≡ unit_length_of plan.now unit }
    ensures small { result < 2 ^ 64 }
{
    match plan.units.get(unit as usize) {
        Some(unit) => unit.cells.len() as u128,
        None => 0,
    }
}

fn returned_length(plan: &Plan, block: Option<u16>) -> u128
    ensures is { result ≡ returned_length_of plan.now block }
    ensures small { result < 2 ^ 64 }
{
    let Some(block) = block else {
        return 0;
    };
    match plan.blocks.get(block as usize) {
        Some(block) => u128::from(block.value),
        None => 0,
    }
}

/// How many values the step of a need writes in its entries.
fn value_count(plan: &Plan, need: Need) -> u128
    ensures is { result ≡ values_of plan.now need }
    ensures small { result < 2 ^ 64 + 2 ^ 64 }
{
    match need {
        Need::Enter { block, unit } => prelog_length(plan, block) + unit_length(plan, unit),
        Need::Leave { block, unit } => postlog_length(plan, block) + unit_length(plan, unit),
        Need::Invoke { block: None, unit } => unit_length(plan, unit),
        Need::Invoke {
            block: Some(block),
            unit,
        } => prelog_length(plan, block) + unit_length(plan, unit),
        Need::Back { block, unit: None } => returned_length(plan, block),
        Need::Back {
            block,
            unit: Some(unit),
        } => returned_length(plan, block) + unit_length(plan, unit),
        Need::P { unit, .. }
        | Need::V { unit, .. }
        | Need::Send { unit, .. }
        | Need::Done { unit, .. }
        | Need::Recv { unit, .. } => unit_length(plan, unit),
        _ => 0,
    }
}

/// What the step of a need costs.
pub(crate) fn cost(plan: &Plan, need: Need) -> u128
    ensures { result ≡ cost_of plan.now need }
{
    1 + value_count(plan, need)
}

/// The need, where its step can still be paid for.
pub(crate) fn within_budget(plan: &Plan, proc: &Proc, need: Need) -> Need
    requires { proc.now.spent ≤ proc.now.budget }
    ensures { result ≡ within_budget_of plan.now proc.now need }
{
    let left = proc.budget - proc.spent;
    if (left as u128) < cost(plan, need) {
        Need::Budget
    } else {
        need
    }
}
