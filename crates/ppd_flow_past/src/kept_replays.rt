// Replays that are kept while questions about them go on.
ghost use Rattle.std.specs.Prelude.{◌≡◌, ◌+◌, [], IfErr, IfOk, OnOk, get_or, length};
ghost use Rattle.ppd_flow_past.specs.ByReplays.{IsReplayFailure};
ghost use Rattle.ppd_flow_past.specs.Keeping.{AreFirstItems, AreKeptOf, AreOthersKept, IsAllKept, IsNoneKept, RoseByKept, count_in, process_steps};
ghost use Rattle.ppd_flow_past.specs.Pasts.{IsPast};

use crate::intervals::count_of;
use crate::past::Past;
use crate::replaying::replayed;
use ppd_ast::{Memory, Seq, Steps};
use ppd_model::{FlowError, Item};
use std::alloc::Global;
use std::marker::Model;
use std::sync::ledger::Ledger;

/// The items of intervals by replays that were done: of each process those of its first intervals.
#[derive(Drop)]
pub struct KeptReplays {
    processes: Seq<Seq<Seq<Item>>>,
}

impl Model for KeptReplays {
    ghost use Rattle.std.specs.Prelude.{List};
    ghost use Rattle.ppd_model.specs.declared.flow.Item.{Item};

    ghost Value = { List (List (List Item)) };

    ghost view = { λ s. s.processes };
}

/// Replays the intervals of a process in order, and puts the items of each behind these rows. `Diverged`: the replay of
/// one of them fails at this entry, and the rows are those before it. `Memory` is want of memory.
fn replay_all<L: Ledger>(
    alloc: Global,
    past: &Past,
    process: u8,
    rows: &mut Seq<Seq<Item>>,
    steps: &mut Steps<L>,
) -> Result<(), FlowError>
    requires past { IsPast past.now }
    requires none { rows.old ≡ [] }
    ensures first { AreFirstItems past.now process rows.new }
    ensures all { OnOk result (length rows.new ≡ count_in past.now process) }
    ensures cost { OnOk result (steps.new ≡ steps.old + process_steps past.now process) }
    ensures error { IfErr result (IsReplayFailure past.now) }
{
    for interval in 0..count_of(past, process) {
        match replayed(alloc, past, process, interval, steps) {
            Ok(items) => rows.push(items)?,
            Err(error) => return Err(error),
        }
    }
    Ok(())
}

impl KeptReplays {
    /// None yet, of the processes of a past. `Memory` is want of memory.
    pub fn new(alloc: Global, past: &Past) -> Result<KeptReplays, Memory>
        ensures of { IfOk result (AreKeptOf past.now) }
        ensures none { IfOk result IsNoneKept }
    {
        let mut processes = Seq::new(alloc);
        for _process in 0..past.cut.lists.len() {
            processes.push(Seq::new(alloc))?;
        }
        Ok(KeptReplays { processes })
    }

    /// The items, by process and interval.
    pub fn as_slice(&self) -> &[Seq<Seq<Item>>]
        ensures { result.now ≡ self.now }
    {
        self.processes.as_slice()
    }

    /// How many intervals of a process are kept.
    fn count(&self, process: u8) -> usize
        ensures { result ≡ length (get_or self.now process []) }
    {
        match self.processes.get(process as usize) {
            Some(rows) => rows.len(),
            None => 0,
        }
    }

    /// Keeps the items of all intervals of a process. They are replayed if they are not kept yet, each once, and the
    /// counter rises by the steps that they take then.
    ///
    /// `Diverged`: the replay of one of them fails at this entry; those before it are kept. `Memory` is want of memory.
    /// No other error comes.
    pub fn keep<L: Ledger>(
        &mut self,
        alloc: Global,
        past: &Past,
        process: u8,
        steps: &mut Steps<L>,
    ) -> Result<(), FlowError>
        requires past { IsPast past.now }
        requires kept { AreKeptOf past.now self.old }
        ensures kept { AreKeptOf past.now self.new }
        ensures all { OnOk result (IsAllKept past.now self.new process) }
        ensures others { AreOthersKept process self.old self.new }
        ensures cost { OnOk result (RoseByKept past.now self.old self.new steps.old steps.new) }
        ensures error { IfErr result (IsReplayFailure past.now) }
    {
        if self.count(process) == count_of(past, process) as usize {
            return Ok(());
        }
        let mut rows = Seq::new(alloc);
        let replays = replay_all(alloc, past, process, &mut rows, steps);
        self.processes.set(process as usize, rows);
        replays
    }
}
