ghost use Rattle.std.specs.Prelude.{◌≡◌};

use ppd_ast::{Plan, Program, Seq};
use ppd_emul::LogIndex;
use ppd_graph::SyncGraph;
use ppd_model::{Item, Logs};

/// What is kept of a run: its program with the plan and the budget of each process, its logs, and their index and
/// graph. The intervals that are replayed are those of `cut`, the logs themselves or logs that were cut off, which have
/// an index of their own. The items of some intervals may be kept from replays that were done before, of each process
/// those of its first intervals; these are not replayed again.
#[derive(Clone, Copy)]
pub struct Past<'a> {
    pub program: &'a Program,
    pub plan: &'a Plan,
    pub logs: &'a Logs,
    pub index: &'a LogIndex,
    pub graph: &'a SyncGraph,
    pub cut: &'a Logs,
    pub cut_index: &'a LogIndex,
    pub budget: u32,
    pub kept: &'a [Seq<Seq<Item>>],
}

impl<'a> Past<'a> {
    /// The same past, with these items kept.
    pub fn with_kept(&self, kept: &'a [Seq<Seq<Item>>]) -> Past<'a>
        ensures { result ≡ record self.now { kept = kept.entry } }
    {
        Past {
            program: self.program,
            plan: self.plan,
            logs: self.logs,
            index: self.index,
            graph: self.graph,
            cut: self.cut,
            cut_index: self.cut_index,
            budget: self.budget,
            kept,
        }
    }
}
