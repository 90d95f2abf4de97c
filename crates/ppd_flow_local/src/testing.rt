ghost use Rattle.std.specs.Prelude.{◌≡◌, IfOk};
ghost use Rattle.ppd_model.specs.FullTrace.{is_passed as is_passed_by};
ghost use Rattle.ppd_graph.specs.Control.{last_test as last_test_among, test_item};

use ppd_ast::Memory;
use ppd_flow_local_tables::Code;
use ppd_flow_tables::number;
use ppd_graph::LastTest;
use ppd_model::Item;

/// Whether a value is there and not 0.
fn is_passed(value: Option<i64>) -> bool
    ensures { result ≡ is_passed_by value }
{
    match value {
        Some(value) => value != 0,
        None => false,
    }
}

/// The latest test of a statement through this item, where it was this one before it.
fn test_past(
    code: &Code,
    wanted: (u8, u32),
    number: u32,
    item: &Item,
    found: Option<LastTest>,
) -> Option<LastTest>
    ensures { result
        ≡ (test_item code.now.program.now code.now.plan.now wanted.0 wanted.1
        (record { next = number; found = found }) item.now).found }
{
    let (frame, stmt) = wanted;
    let Item::Own(event) = item else {
        return found;
    };
    if code.begins_leaf(event) && frame == 1 {
        return None;
    }
    if event.stmt == stmt && event.trap.is_none() {
        return Some(LastTest {
            item: number,
            passed: is_passed(event.value),
        });
    }
    found
}

/// The latest test of a statement in the activation of a frame among these items. `Memory` is want of memory, for
/// items that have no 32-bit numbers.
pub(crate) fn last_test(
    code: &Code,
    frame: u8,
    stmt: u32,
    items: &[Item],
) -> Result<Option<LastTest>, Memory>
    ensures { IfOk result (λ found. found
        ≡ last_test_among code.now.program.now code.now.plan.now frame stmt items.now) }
{
    let mut found = None;
    for (i, item) in items.iter().enumerate() {
        let Ok(n) = number(i) else {
            return Err(Memory);
        };
        found = test_past(code, (frame, stmt), n, item, found);
    }
    Ok(found)
}
