ghost use Rattle.std.specs.Prelude.{◌≡◌, get_or, map, option_to_list, pos, IfOk};
ghost use Rattle.ppd_model.specs.Marks.{closed, marked};
ghost use Rattle.ppd_sem.specs.Runs.{IsRunnable, IsRunning};

use ppd_ast::{Memory, Nums, Plan, Program};
use ppd_sem::{Need, Proc, local_cells, postlog_cells, returned_value};
use std::alloc::Global;

/// The value at this place, and 0 past the end.
pub fn value_at(values: &[i64], place: usize) -> i64
    ensures { result ≡ get_or values.now place (pos 0) }
{
    match values.get(place) {
        Some(value) => *value,
        None => 0,
    }
}

/// The values at these places, 0 for each past the end. `Memory` is want of memory.
pub fn values_at(alloc: Global, values: &[i64], places: &[u16]) -> Result<Nums, Memory>
    ensures { IfOk result (λ found. found ≡ map (λ c. get_or values.now c (pos 0)) places.now) }
{
    let mut found = Nums::new(alloc);
    for place in places {
        found.push(value_at(values, *place as usize))?;
    }
    Ok(found)
}

/// The list of the value, if there is one.
fn listed(alloc: Global, value: Option<i64>) -> Result<Nums, Memory>
    ensures { IfOk result (λ list. list ≡ option_to_list value) }
{
    let mut list = Nums::new(alloc);
    if let Some(value) = value {
        list.push(value)?;
    }
    Ok(list)
}

/// The block that a step of this need leaves, with the values of its postlog. `Memory` is want of memory.
pub fn closed_block(
    alloc: Global,
    program: &Program,
    plan: &Plan,
    proc: &Proc,
    need: Need,
) -> Result<Option<(u16, Nums)>, Memory>
    requires program { IsRunnable program.now }
    requires proc { IsRunning program.now proc.now }
    ensures { IfOk result (λ left. marked left ≡ closed program.now plan.now proc.now need) }
{
    match need {
        Need::Leave { block, .. } => {
            let values = values_at(alloc, local_cells(proc), postlog_cells(plan, block))?;
            Ok(Some((block, values)))
        }
        Need::Back {
            block: Some(block),
            ..
        } => Ok(Some((block, listed(alloc, returned_value(program, proc))?))),
        Need::End { block } => Ok(Some((block, Nums::new(alloc)))),
        _ => Ok(None),
    }
}
