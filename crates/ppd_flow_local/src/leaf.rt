ghost use Rattle.std.specs.Prelude.{◌≡◌, IfOk};
ghost use Rattle.ppd_flow_local.specs.Scans.{leaf_past as leaf_past_by};
ghost use Rattle.ppd_graph.specs.Locals.{leaf_at as leaf_among};

use ppd_ast::Memory;
use ppd_flow_local_tables::{Code, leaf_after};
use ppd_flow_tables::number;
use ppd_graph::LeafCall;
use ppd_model::Item;

/// The call whose activation goes on without an interval of its own after an item.
fn leaf_past(code: &Code, number: u32, item: &Item, leaf: Option<LeafCall>) -> Option<LeafCall>
    ensures { result ≡ leaf_past_by code.now.program.now code.now.plan.now number leaf item.now }
{
    match item {
        Item::Own(event) => leaf_after(code, number, event, leaf),
        Item::Nested { .. } => leaf,
    }
}

/// The call whose activation goes on without an interval of its own after these items of an interval. `Memory` is
/// want of memory, for items that have no 32-bit numbers.
pub(crate) fn leaf_at(code: &Code, items: &[Item]) -> Result<Option<LeafCall>, Memory>
    ensures { IfOk result (λ leaf. leaf ≡ leaf_among code.now.program.now code.now.plan.now items.now) }
{
    let mut leaf = None;
    for (i, item) in items.iter().enumerate() {
        let Ok(n) = number(i) else {
            return Err(Memory);
        };
        leaf = leaf_past(code, n, item, leaf);
    }
    Ok(leaf)
}
