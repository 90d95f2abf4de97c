ghost use Rattle.std.specs.Prelude.{◌≡◌, IfOk, None, OnOk, OnErr, slice_get};
ghost use Rattle.std.specs.List.{All};
ghost use Rattle.ppd_model.specs.Laws.{logged_moment};
ghost use Rattle.ppd_model.specs.Logs.{log_step};
ghost use Rattle.ppd_model.specs.Story.{number_of as number_of_need};
ghost use Rattle.ppd_model.specs.World.{answer as answer_of, change, step as step_of};
ghost use Rattle.ppd_world.specs.Parts.{IsReady, need_of_logging, needs_of, sent, world_of};
ghost use Rattle.ppd_world_steps.specs.Entries.{moment_with};
ghost use Rattle.ppd_world_steps.specs.Objects.{IsSmallChan, IsSmallSem};

use crate::logging::step_at;
use crate::needs::{need_at, set_need};
use crate::store::Store;
use ppd_ast::Memory;
use ppd_model::{Logging, Taken};
use ppd_sem::Need;
use ppd_world_steps::Code;

/// A step of this need, without the writer of what it reads.
pub(crate) fn next_step(store: &Store, need: Need) -> Taken
    requires sems { All IsSmallSem store.now.sems }
    requires chans { All IsSmallChan store.now.chans }
    ensures { result
        ≡ record {
          need = need;
          answer = answer_of store.now need;
          writer = None;
          number = number_of_need store.now need;
        } }
{
    Taken {
        need,
        answer: store.answer_to(need),
        writer: None,
        number: store.number_of(need),
    }
}

/// Sends what the step sends and takes the step of its process, and answers what that needs next. `Memory` is
/// want of memory: nothing changes.
fn send_and_step(
    code: &Code,
    store: &mut Store,
    loggings: &mut Vec<Logging>,
    place: usize,
    taken: Taken,
) -> Result<Need, Memory>
    requires ready { IsReady code.now.program.now code.now.plan.now store.old loggings.old.items }
    requires need { taken.need
        ≡ need_of_logging code.now.program.now code.now.plan.now (slice_get loggings.old.items place) }
    ensures store { OnOk result (store.new ≡ sent store.old taken.need) }
    ensures loggings { OnOk result
        (loggings.new.items
        ≡ change (λ l. log_step code.now.program.now code.now.plan.now l
        (moment_with code.now.plan.now store.old.shared taken)) place loggings.old.items) }
    ensures need { IfOk result
        (λ need. need
        ≡ need_of_logging code.now.program.now code.now.plan.now (slice_get loggings.new.items place)) }
    ensures same_store { OnErr result (store.new ≡ store.old) }
    ensures same_loggings { OnErr result (loggings.new.items ≡ loggings.old.items) }
{
    store.send(taken.need)?;
    let stepped = step_at(code, store.cells(), loggings, place, taken);
    if stepped.is_err() {
        store.take_back(taken.need);
    }
    stepped
}

/// Takes the step of the process at this place. `Memory` is want of memory: nothing changes.
pub(crate) fn take_step(
    code: &Code,
    store: &mut Store,
    loggings: &mut Vec<Logging>,
    needs: &mut Vec<Need>,
    place: usize,
) -> Result<(), Memory>
    requires ready { IsReady code.now.program.now code.now.plan.now store.old loggings.old.items }
    requires needs { needs.old.items ≡ needs_of code.now.program.now code.now.plan.now loggings.old.items }
    ensures world { OnOk result
        (world_of store.new loggings.new.items
        ≡ step_of code.now.program.now code.now.plan.now (world_of store.old loggings.old.items) place) }
    ensures loggings { OnOk result
        (loggings.new.items
        ≡ change (λ l. log_step code.now.program.now code.now.plan.now l
        (logged_moment code.now.program.now code.now.plan.now
        (world_of store.old loggings.old.items) place)) place loggings.old.items) }
    ensures needs { OnOk result
        (needs.new.items ≡ needs_of code.now.program.now code.now.plan.now loggings.new.items) }
    ensures same_store { OnErr result (store.new ≡ store.old) }
    ensures same_loggings { OnErr result (loggings.new.items ≡ loggings.old.items) }
    ensures same_needs { OnErr result (needs.new.items ≡ needs.old.items) }
{
    let taken = next_step(store, need_at(needs.as_slice(), place));
    let need = send_and_step(code, store, loggings, place, taken)?;
    store.finish(taken.need);
    set_need(needs, place, need);
    Ok(())
}
