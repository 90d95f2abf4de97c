ghost use Rattle.std.specs.Prelude.{◌≡◌, ◌++◌, None, IfOk, OnOk, ◌≤◌, ◌+◌, filter_map, length, map};
ghost use Rattle.std.specs.List.{sum_by};
ghost use Rattle.ppd_graph.specs.Spending.{list_cost};
ghost use Rattle.ppd_graph.specs.ByNumber.{partner_kept};
ghost use Rattle.ppd_model.specs.RecordedSets.{sync_in};
ghost use Rattle.ppd_graph.specs.Partners.{listed, paired_by as paired_as};
ghost use Rattle.ppd_model.specs.Numbers.{sync};

use crate::by_number::ByNumber;
use crate::paired::Paired;
use ppd_ast::{Memory, Program, Seq, Steps, SyncKind};
use ppd_graph_partners::wanted;
use ppd_model::{Entry, capacity_of};
use std::alloc::Global;
use std::sync::ledger::Ledger;

// Where none leads to it.
fn unpaired(kind: SyncKind) -> Paired
    ensures { result ≡ paired_as kind None }
{
    match kind {
        SyncKind::P => Paired::Initial,
        _ => Paired::Nothing,
    }
}

// What led to a synchronization.
fn partner(program: &Program, nodes: &ByNumber, kind: SyncKind, object: u8, number: u32) -> Paired
    ensures { result ≡ partner_kept program.now nodes.now (sync kind object number) }
{
    let Some((other, of)) = wanted(capacity_of(program, object), kind, number) else {
        return unpaired(kind);
    };
    match nodes.find(other, object, of) {
        Some(node) => Paired::Node(node),
        None => unpaired(kind),
    }
}

fn take_entry(
    program: &Program,
    nodes: &ByNumber,
    pairs: &mut Seq<Paired>,
    entry: &Entry,
) -> Result<(), Memory>
    ensures { OnOk result
        (pairs.new ≡ pairs.old ++ map (partner_kept program.now nodes.now) (listed (sync_in entry.now))) }
{
    match entry {
        Entry::Sync {
            kind,
            object,
            number,
            ..
        } => pairs.push(partner(program, nodes, *kind, *object, *number)),
        _ => Ok(()),
    }
}

fn own_pairs<L: Ledger>(
    alloc: Global,
    program: &Program,
    nodes: &ByNumber,
    entries: &[Entry],
    steps: &mut Steps<L>,
) -> Result<Seq<Paired>, Memory>
    ensures cost { steps.new ≤ steps.old + length entries.now }
    ensures taken { OnOk result (steps.new ≡ steps.old + length entries.now) }
    ensures pairs { IfOk result
        (λ pairs. pairs ≡ map (partner_kept program.now nodes.now) (filter_map sync_in entries.now)) }
{
    let mut pairs = Seq::new(alloc);
    for entry in entries {
        steps.tick();
        take_entry(program, nodes, &mut pairs, entry)?;
    }
    Ok(pairs)
}

/// What led to each synchronization, a list for each process.
pub(crate) fn all_pairs<L: Ledger>(
    alloc: Global,
    program: &Program,
    nodes: &ByNumber,
    lists: &[Seq<Entry>],
    steps: &mut Steps<L>,
) -> Result<Seq<Seq<Paired>>, Memory>
    ensures cost { steps.new ≤ steps.old + sum_by list_cost lists.now }
    ensures taken { OnOk result (steps.new ≡ steps.old + sum_by list_cost lists.now) }
    ensures pairs { IfOk result
        (λ all. all ≡ map (map (partner_kept program.now nodes.now)) (map (filter_map sync_in) lists.now)) }
{
    let mut all = Seq::new(alloc);
    for list in lists {
        steps.tick();
        let pairs = own_pairs(alloc, program, nodes, list.as_slice(), steps)?;
        all.push(pairs)?;
    }
    Ok(all)
}
