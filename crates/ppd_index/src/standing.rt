ghost use Rattle.std.specs.Prelude.{◌≡◌, ◌||◌, [], nat_eq, Some};
ghost use Rattle.std.specs.Option.{option_eq};
ghost use Rattle.ppd_model.specs.declared.entry.Entry.TheVariants as entry_of;
ghost use Rattle.ppd_model.specs.Entries.{is_end as is_end_of};
ghost use Rattle.ppd_index.specs.Refusals.{is_fitting as is_fitting_in, is_paired as is_paired_in, may_begin as may_begin_there, refusal};

use ppd_ast::limits::MOST_CALLS;
use ppd_ast::{BlockKind, Plan, Status};
use ppd_model::{At, BadLog, Entry};

/// A process by its number, and by that of its body.
#[derive(Clone, Copy)]
pub(crate) struct Owner {
    pub process: u8,
    pub body: u32,
}

/// Where an entry stands: its number, whether an End stood before, the block of the innermost running interval,
/// and how many intervals of functions run.
#[derive(Clone, Copy)]
pub struct Standing {
    pub entry: u32,
    pub ended: bool,
    pub innermost: Option<u16>,
    pub functions: u8,
}

fn fits_prelog(plan: &Plan, block: u16, values: &[i64]) -> bool
    ensures { result ≡ is_fitting_in plan.now (entry_of.Prelog block values.now) }
{
    match plan.blocks.get(block as usize) {
        Some(block) => values.len() == block.prelog.len(),
        None => false,
    }
}

fn fits_postlog(plan: &Plan, block: u16, values: &[i64]) -> bool
    ensures { result ≡ is_fitting_in plan.now (entry_of.Postlog block values.now) }
{
    let Some(block) = plan.blocks.get(block as usize) else {
        return false;
    };
    let cells = block.postlog.as_slice();
    if block.value {
        values.len() == cells.len() + 1
    } else {
        values.len() == cells.len()
    }
}

fn fits_unit(plan: &Plan, unit: u16, values: &[i64]) -> bool
    ensures { result ≡ is_fitting_in plan.now (entry_of.Unit unit values.now) }
{
    match plan.units.get(unit as usize) {
        Some(unit) => values.len() == unit.cells.len(),
        None => false,
    }
}

fn is_fitting(plan: &Plan, entry: &Entry) -> bool
    ensures { result ≡ is_fitting_in plan.now entry.now }
{
    match entry {
        Entry::Prelog { block, values } => fits_prelog(plan, *block, values.as_slice()),
        Entry::Unit { unit, values } => fits_unit(plan, *unit, values.as_slice()),
        Entry::Postlog { block, values } => fits_postlog(plan, *block, values.as_slice()),
        Entry::Sync { .. } | Entry::End { .. } => true,
    }
}

fn is_end(entry: &Entry) -> bool
    ensures { result ≡ is_end_of entry.now }
{
    matches!(entry, Entry::End { .. })
}

/// Whether an End stood before or is this entry.
pub(crate) fn is_over(ended: bool, entry: &Entry) -> bool
    ensures { result ≡ (ended || is_end_of entry.now) }
{
    ended || is_end(entry)
}

fn may_begin(body: u32, standing: &Standing, kind: BlockKind) -> bool
    ensures { result ≡ may_begin_there body standing.now (Some kind) }
{
    match kind {
        BlockKind::Process(own) => standing.entry == 0 && own as u32 == body,
        BlockKind::Function(_) => {
            let is_full = standing.functions as usize >= MOST_CALLS;
            standing.innermost.is_some() && !is_full
        }
        BlockKind::Loop(_) => standing.innermost.is_some(),
    }
}

fn begins(plan: &Plan, body: u32, standing: &Standing, block: u16) -> bool
    ensures { result ≡ is_paired_in plan.now body standing.now (entry_of.Prelog block []) }
{
    match plan.blocks.get(block as usize) {
        Some(block) => may_begin(body, standing, block.kind),
        None => standing.innermost.is_some(),
    }
}

fn is_same(block: u16, innermost: Option<u16>) -> bool
    ensures { result ≡ option_eq nat_eq innermost (Some block) }
{
    match innermost {
        Some(own) => own == block,
        None => false,
    }
}

fn is_paired(plan: &Plan, body: u32, standing: &Standing, entry: &Entry) -> bool
    ensures { result ≡ is_paired_in plan.now body standing.now entry.now }
{
    match entry {
        Entry::Prelog { block, .. } => begins(plan, body, standing, *block),
        Entry::Unit { .. } | Entry::Sync { .. } => standing.innermost.is_some(),
        Entry::Postlog { block, .. } => is_same(*block, standing.innermost),
        Entry::End { status, .. } => match *status {
            Status::Ended => standing.entry != 0 && standing.innermost.is_none(),
            _ => standing.innermost.is_some(),
        },
    }
}

/// The refusal of an entry of the process, by the first test that it fails.
pub(crate) fn first_refusal(
    plan: &Plan,
    owner: Owner,
    standing: &Standing,
    entry: &Entry,
) -> Option<BadLog>
    ensures { result ≡ refusal plan.now owner.body owner.process standing.now entry.now }
{
    let at = At {
        process: owner.process,
        entry: standing.entry,
    };
    if standing.ended {
        return Some(BadLog::AfterEnd(at));
    }
    if !is_paired(plan, owner.body, standing, entry) {
        return Some(BadLog::Unpaired(at));
    }
    if !is_fitting(plan, entry) {
        return Some(BadLog::WrongValues(at));
    }
    None
}
