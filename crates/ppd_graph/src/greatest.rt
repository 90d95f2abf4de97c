ghost use Rattle.std.specs.Prelude.{◌≡◌, ◌≤◌, ◌+◌, ◌*◌, ℕ, ◌∷◌, [], fold, get_or, length, max, IfOk, OnOk};
ghost use Rattle.ppd_graph.specs.ByNumber.{AllGreatest, AreGreatest, greatest_kept};
ghost use Rattle.ppd_graph.specs.Refusals.{numbers_of, sync_placed};

use crate::placed::Placed;
use ppd_ast::limits::MOST_NAMED;
use ppd_ast::{Ids, Memory, Steps, SyncKind};
use ppd_model::same_kind;
use std::alloc::Global;
use std::sync::ledger::Ledger;

/// The greatest numbers of the synchronizations of each kind, by object, for all that an entry can name.
#[derive(Drop)]
pub(crate) struct Greatest {
    takes: Ids,
    gives: Ids,
    sends: Ids,
    receives: Ids,
    completions: Ids,
}

// So many numbers, all 0.
fn no_numbers<L: Ledger>(alloc: Global, count: usize, steps: &mut Steps<L>) -> Result<Ids, Memory>
    ensures cost { steps.new ≤ steps.old + count }
    ensures taken { OnOk result (steps.new ≡ steps.old + count) }
    ensures long { IfOk result (λ numbers. length numbers ≡ count) }
    ensures none { IfOk result (λ numbers. (o : ℕ) → get_or numbers o 0 ≡ 0) }
{
    let mut numbers = Ids::new(alloc);
    for _object in 0..count {
        steps.tick();
        numbers.push(0)?;
    }
    Ok(numbers)
}

// The number of a synchronization of this kind raises that of its object.
fn raise(numbers: &mut Ids, kind: SyncKind, one: &Placed)
    requires { length numbers.old ≡ MOST_NAMED }
    ensures long { length numbers.new ≡ MOST_NAMED }
    ensures raised { (o : ℕ)
        → get_or numbers.new o 0
        ≡ fold max (get_or numbers.old o 0) (numbers_of kind o (sync_placed one.now ∷ [])) }
{
    if !same_kind(one.kind, kind) {
        return;
    }
    let place = one.object as usize;
    let number = numbers.as_slice()[place].max(one.number);
    numbers.set(place, number);
}

// The greatest numbers of one kind.
fn greatest_of<L: Ledger>(
    alloc: Global,
    placed: &[Placed],
    kind: SyncKind,
    steps: &mut Steps<L>,
) -> Result<Ids, Memory>
    ensures cost { steps.new ≤ steps.old + MOST_NAMED + length placed.now }
    ensures taken { OnOk result (steps.new ≡ steps.old + MOST_NAMED + length placed.now) }
    ensures greatest { IfOk result (AreGreatest kind placed.now) }
{
    let mut numbers = no_numbers(alloc, MOST_NAMED, steps)?;
    for one in placed {
        steps.tick();
        raise(&mut numbers, kind, one);
    }
    Ok(numbers)
}

// The greatest numbers of two kinds of which each answers the other.
#[derive(Drop)]
struct Sides {
    first: Ids,
    second: Ids,
}

fn sides_of<L: Ledger>(
    alloc: Global,
    placed: &[Placed],
    kind: SyncKind,
    other: SyncKind,
    steps: &mut Steps<L>,
) -> Result<Sides, Memory>
    ensures cost { steps.new ≤ steps.old + 2 * (MOST_NAMED + length placed.now) }
    ensures taken { OnOk result (steps.new ≡ steps.old + 2 * (MOST_NAMED + length placed.now)) }
    ensures first { IfOk result (λ sides. AreGreatest kind placed.now sides.first) }
    ensures second { IfOk result (λ sides. AreGreatest other placed.now sides.second) }
{
    let first = greatest_of(alloc, placed, kind, steps)?;
    let second = greatest_of(alloc, placed, other, steps)?;
    Ok(Sides { first, second })
}

fn number_at(numbers: &Ids, object: u8) -> u32
    ensures { result ≡ get_or numbers.now object 0 }
{
    match numbers.get(object as usize) {
        Some(number) => *number,
        None => 0,
    }
}

impl Greatest {
    pub(crate) fn among<L: Ledger>(
        alloc: Global,
        placed: &[Placed],
        steps: &mut Steps<L>,
    ) -> Result<Greatest, Memory>
        ensures cost { steps.new ≤ steps.old + 5 * (MOST_NAMED + length placed.now) }
        ensures taken { OnOk result (steps.new ≡ steps.old + 5 * (MOST_NAMED + length placed.now)) }
        ensures greatest { IfOk result (AllGreatest placed.now) }
    {
        let sems = sides_of(alloc, placed, SyncKind::P, SyncKind::V, steps)?;
        let chans = sides_of(alloc, placed, SyncKind::Send, SyncKind::Recv, steps)?;
        let completions = greatest_of(alloc, placed, SyncKind::Done, steps)?;
        Ok(Greatest {
            takes: sems.first,
            gives: sems.second,
            sends: chans.first,
            receives: chans.second,
            completions,
        })
    }

    /// The greatest number of this kind and object, 0 where there is none.
    pub(crate) fn of(&self, kind: SyncKind, object: u8) -> u32
        ensures { result ≡ greatest_kept self.now kind object }
    {
        match kind {
            SyncKind::P => number_at(&self.takes, object),
            SyncKind::V => number_at(&self.gives, object),
            SyncKind::Send => number_at(&self.sends, object),
            SyncKind::Recv => number_at(&self.receives, object),
            SyncKind::Done => number_at(&self.completions, object),
        }
    }
}
