// What a source declares in the scope that all of it sees.
ghost use Rattle.std.specs.Prelude.{◌≡◌, ◌++◌, OnOk, IfOk, nat_le, pos, [], ◌∷◌, replicate, length, None, Some, ◌≤◌, ◌+◌, ◌*◌};
ghost use Rattle.ppd_ast.specs.declared.limits.TheConstants.{MOST_FUNCTIONS, MOST_PROCESSES, MOST_SEMAPHORES, MOST_CHANNELS};
ghost use Rattle.ppd_check_names.specs.Faults.{first, first_of_both, if_so};
ghost use Rattle.ppd_check_names.specs.Names.{innermost, semaphore, channel};
ghost use Rattle.ppd_check_names.specs.Fitted.{fitted};
ghost use Rattle.ppd_check_names.specs.Nodes.{label_name};
ghost use Rattle.ppd_check_names.specs.Frames.{twice_faults};
ghost use Rattle.ppd_check_names.specs.Declaring.{nothing, named, placed, with_shared, with_numbered, with_function, with_process, twice, counted, celled, numbered_over};
ghost use Rattle.ppd_check_names.specs.declared.fault.Cause.TheVariants.{TooMany};
ghost use Rattle.ppd_check_names.specs.declared.fault.Limit.TheVariants.{Functions, Processes, Semaphores, Channels};
ghost use Rattle.ppd_check_names.specs.Cost.{starts_left, SameHeads};

use crate::fault::{Cause, Fault, Limit, note_if};
use crate::fitted::{as_byte, as_short, as_word};
use crate::frame::{Variable, after_cells, bytes_of, push_variable};
use crate::meaning::Meaning;
use crate::nodes::Label;
use crate::scopes::Scopes;
use ppd_ast::limits::{
    MOST_CHANNELS, MOST_FUNCTIONS, MOST_PROCESSES, MOST_SEMAPHORES, MOST_SHARED_CELLS,
};
use ppd_ast::{Chan, Ids, Memory, Nums, Sem, Seq, Steps};
use std::alloc::Global;
use std::sync::ledger::Ledger;

/// The one scope, the shared variables with the first cell after them and their start values, the semaphores and
/// channels, and the nodes of functions and processes.
#[derive(Drop)]
pub struct Globals {
    pub scopes: Scopes,
    pub shared: Seq<Variable>,
    pub cells: u16,
    pub starts: Nums,
    pub sems: Seq<Sem>,
    pub chans: Seq<Chan>,
    pub functions: Ids,
    pub processes: Ids,
}

/// What is declared with a number: an array with its length, a semaphore with its start value, a channel with its
/// capacity.
#[derive(Clone, Copy)]
pub enum Sort {
    Array,
    Semaphore,
    Channel,
}

// How many parameters a function has, and whether it gives a value.
#[derive(Clone, Copy)]
pub struct Signature {
    pub params: usize,
    pub gives: bool,
}

// What the next name means, and whether it is one too many of those that are counted.
#[derive(Clone, Copy)]
struct Next {
    meaning: Meaning,
    over: bool,
    limit: Limit,
}

// Nothing yet, in one scope.
pub fn no_globals<L: Ledger>(alloc: Global, steps: &mut Steps<L>) -> Result<Globals, Memory>
    ensures value { IfOk result (λ globals. globals ≡ nothing) }
    ensures cost { steps.new ≤ steps.old + 1 }
{
    let mut scopes = Scopes::new(alloc);
    scopes.open(steps)?;
    Ok(Globals {
        scopes,
        shared: Seq::new(alloc),
        cells: 0,
        starts: Seq::new(alloc),
        sems: Seq::new(alloc),
        chans: Seq::new(alloc),
        functions: Seq::new(alloc),
        processes: Seq::new(alloc),
    })
}

// Gives the next name its meaning, and notes it where it has one or is one too many.
#[tactic(auto, using(crate::proofs::Found::First::found_in_both))]
fn name_next<L: Ledger>(
    scopes: &mut Scopes,
    label: Label<'_>,
    next: Next,
    found: &mut Option<Fault>,
    steps: &mut Steps<L>,
) -> Result<(), Memory>
    ensures scopes { OnOk result (scopes.new ≡ named (label_name label.entry) next.meaning scopes.old) }
    ensures faults { OnOk result
        (found.new ≡ first_of_both found.old
        (first (twice_faults (innermost scopes.old) (label_name label.entry)
        ++ if_so next.over label.entry.place (TooMany next.limit)))) }
    ensures cost { steps.new ≤ steps.old + 3 }
{
    let twice = scopes.declare(label.text, next.meaning, steps)?;
    note_if(found, twice, label.place, Cause::Twice);
    note_if(found, next.over, label.place, Cause::TooMany(next.limit));
    Ok(())
}

// Appends zeros.
fn push_zeros<L: Ledger>(starts: &mut Nums, count: u16, steps: &mut Steps<L>) -> Result<(), Memory>
    ensures zeros { OnOk result (starts.new ≡ starts.old ++ replicate count (pos 0)) }
    ensures cost { steps.new ≤ steps.old + 2 * count }
{
    for _zero in 0..count {
        steps.tick();
        steps.tick();
        starts.push(0)?;
    }
    Ok(())
}

// Adds a shared variable without its start values.
fn place_shared<L: Ledger>(
    globals: &mut Globals,
    label: Label<'_>,
    length: Option<u16>,
    found: &mut Option<Fault>,
    steps: &mut Steps<L>,
) -> Result<(), Memory>
    ensures globals { OnOk result (globals.new ≡ placed (label_name label.entry) length globals.old) }
    ensures faults { OnOk result
        (found.new ≡ first_of_both found.old
        (first (twice (label_name label.entry) globals.old ++ celled (label_name label.entry) length globals.old))) }
    ensures cost { steps.new ≤ steps.old + 5 }
    ensures cells { globals.old.cells ≤ globals.new.cells }
    ensures heads { SameHeads globals.old globals.new }
{
    let alloc = globals.scopes.alloc();
    let cells = globals.cells;
    let after = after_cells(cells, length);
    let next = Next {
        meaning: Meaning::Shared(cells, length),
        over: MOST_SHARED_CELLS < usize::from(after),
        limit: Limit::Shared,
    };
    name_next(&mut globals.scopes, label, next, found, steps)?;
    push_variable(alloc, &mut globals.shared, label, length, steps)?;
    globals.cells = after;
    Ok(())
}

// Adds a shared scalar with its start value.
pub fn add_scalar<L: Ledger>(
    globals: &mut Globals,
    label: Label<'_>,
    start: i64,
    found: &mut Option<Fault>,
    steps: &mut Steps<L>,
) -> Result<(), Memory>
    ensures globals { OnOk result (globals.new ≡ with_shared (label_name label.entry) None (start ∷ []) globals.old) }
    ensures faults { OnOk result
        (found.new ≡ first_of_both found.old
        (first (twice (label_name label.entry) globals.old ++ celled (label_name label.entry) None globals.old))) }
    ensures cost { steps.new ≤ steps.old + 6 }
    ensures cells { globals.old.cells ≤ globals.new.cells }
    ensures heads { SameHeads globals.old globals.new }
{
    place_shared(globals, label, None, found, steps)?;
    if usize::from(globals.cells) <= MOST_SHARED_CELLS {
        steps.tick();
        return globals.starts.push(start);
    }
    Ok(())
}

// The next semaphore, after so many.
fn next_semaphore(count: usize) -> Next
    ensures { result ≡ record {
      meaning = semaphore (fitted 8 count);
      over = nat_le MOST_SEMAPHORES count;
      limit = Semaphores;
    } }
{
    Next {
        meaning: Meaning::Semaphore(as_byte(count as u64)),
        over: MOST_SEMAPHORES <= count,
        limit: Limit::Semaphores,
    }
}

// The next channel, after so many.
fn next_channel(count: usize) -> Next
    ensures { result ≡ record {
      meaning = channel (fitted 8 count);
      over = nat_le MOST_CHANNELS count;
      limit = Channels;
    } }
{
    Next {
        meaning: Meaning::Channel(as_byte(count as u64)),
        over: MOST_CHANNELS <= count,
        limit: Limit::Channels,
    }
}

// One more semaphore with its start value.
fn push_semaphore<L: Ledger>(
    alloc: Global,
    sems: &mut Seq<Sem>,
    name: &[u8],
    number: u64,
    steps: &mut Steps<L>,
) -> Result<(), Memory>
    ensures pushed { OnOk result
        (sems.new ≡ sems.old ++ record { name = name.now; start = fitted 32 number } ∷ []) }
    ensures cost { steps.new ≤ steps.old + 2 }
{
    steps.tick();
    let name = bytes_of(alloc, name, steps)?;
    sems.push(Sem {
        name,
        start: as_word(number),
    })
}

// One more channel with its capacity.
fn push_channel<L: Ledger>(
    alloc: Global,
    chans: &mut Seq<Chan>,
    name: &[u8],
    number: u64,
    steps: &mut Steps<L>,
) -> Result<(), Memory>
    ensures pushed { OnOk result
        (chans.new ≡ chans.old ++ record { name = name.now; capacity = fitted 8 number } ∷ []) }
    ensures cost { steps.new ≤ steps.old + 2 }
{
    steps.tick();
    let name = bytes_of(alloc, name, steps)?;
    chans.push(Chan {
        name,
        capacity: as_byte(number),
    })
}

// Adds what is declared with a number. The elements of an array start at 0.
#[tactic(auto, unfolding(crate::specs::Cost::starts_left))]
pub fn add_numbered<L: Ledger>(
    sort: Sort,
    label: Label<'_>,
    number: u64,
    globals: &mut Globals,
    found: &mut Option<Fault>,
    steps: &mut Steps<L>,
) -> Result<(), Memory>
    ensures globals { OnOk result
        (globals.new ≡ with_numbered sort (label_name label.entry) number globals.old) }
    ensures faults { OnOk result
        (found.new ≡ first_of_both found.old
        (first (twice (label_name label.entry) globals.old
        ++ numbered_over sort (label_name label.entry) number globals.old))) }
    ensures cost { steps.new + starts_left globals.new ≤ steps.old + starts_left globals.old + 5 }
    ensures heads { SameHeads globals.old globals.new }
{
    let alloc = globals.scopes.alloc();
    match sort {
        Sort::Array => {
            let length = as_short(number);
            place_shared(globals, label, Some(length), found, steps)?;
            if usize::from(globals.cells) <= MOST_SHARED_CELLS {
                return push_zeros(&mut globals.starts, length, steps);
            }
            Ok(())
        }
        Sort::Semaphore => {
            let next = next_semaphore(globals.sems.len());
            name_next(&mut globals.scopes, label, next, found, steps)?;
            push_semaphore(alloc, &mut globals.sems, label.text, number, steps)
        }
        Sort::Channel => {
            let next = next_channel(globals.chans.len());
            name_next(&mut globals.scopes, label, next, found, steps)?;
            push_channel(alloc, &mut globals.chans, label.text, number, steps)
        }
    }
}

// Adds the function at a node.
pub fn add_function<L: Ledger>(
    globals: &mut Globals,
    node: u32,
    label: Label<'_>,
    signature: Signature,
    found: &mut Option<Fault>,
    steps: &mut Steps<L>,
) -> Result<(), Memory>
    ensures globals { OnOk result (globals.new ≡ with_function node (label_name label.entry) signature.params
        signature.gives globals.old) }
    ensures faults { OnOk result
        (found.new ≡ first_of_both found.old
        (first (twice (label_name label.entry) globals.old
        ++ counted MOST_FUNCTIONS (length globals.old.functions) Functions (label_name label.entry).place))) }
    ensures cost { steps.new ≤ steps.old + 4 }
    ensures cells { globals.new.cells ≡ globals.old.cells }
{
    let count = globals.functions.len();
    let next = Next {
        meaning: Meaning::Function(as_short(count as u64), signature.params, signature.gives),
        over: MOST_FUNCTIONS <= count,
        limit: Limit::Functions,
    };
    name_next(&mut globals.scopes, label, next, found, steps)?;
    steps.tick();
    globals.functions.push(node)
}

// Adds the process at a node.
pub fn add_process<L: Ledger>(
    globals: &mut Globals,
    node: u32,
    label: Label<'_>,
    found: &mut Option<Fault>,
    steps: &mut Steps<L>,
) -> Result<(), Memory>
    ensures globals { OnOk result (globals.new ≡ with_process node (label_name label.entry) globals.old) }
    ensures faults { OnOk result
        (found.new ≡ first_of_both found.old
        (first (twice (label_name label.entry) globals.old
        ++ counted MOST_PROCESSES (length globals.old.processes) Processes (label_name label.entry).place))) }
    ensures cost { steps.new ≤ steps.old + 4 }
    ensures cells { globals.new.cells ≡ globals.old.cells }
{
    let count = globals.processes.len();
    let next = Next {
        meaning: Meaning::Process,
        over: MOST_PROCESSES <= count,
        limit: Limit::Processes,
    };
    name_next(&mut globals.scopes, label, next, found, steps)?;
    steps.tick();
    globals.processes.push(node)
}
