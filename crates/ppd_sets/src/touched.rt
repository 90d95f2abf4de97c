ghost use Rattle.std.specs.Prelude.{◌≡◌, []};
ghost use Rattle.ppd_ast.specs.Table.{EachAt, AreChildrenBelow};
ghost use Rattle.ppd_sets.specs.Named.{reads, writes};
ghost use Rattle.ppd_sets.specs.Gained.{GainsBoth};

use crate::cell_set::CellSet;
use crate::cells::{add_reads, add_writes};
use ppd_ast::{Kind, Program};

// The cells that some statements may read, and those that they write.
#[derive(Drop)]
pub(crate) struct Touched {
    pub(crate) reads: CellSet,
    pub(crate) writes: CellSet,
}

impl Touched {
    pub(crate) fn new() -> Touched
        ensures reads { result.reads ≡ [] }
        ensures writes { result.writes ≡ [] }
    {
        Touched {
            reads: CellSet::new(),
            writes: CellSet::new(),
        }
    }

    // Adds the shared cells of a statement, or the local ones.
    pub(crate) fn add(&mut self, wants_shared: bool, program: &Program, kind: &Kind)
        requires { EachAt AreChildrenBelow program.now.exprs }
        ensures { GainsBoth self.old self.new (reads wants_shared program.now.exprs kind.now)
            (writes wants_shared kind.now) }
    {
        let exprs = program.exprs.as_slice();
        add_reads(&mut self.reads, wants_shared, exprs, kind);
        add_writes(&mut self.writes, wants_shared, kind);
    }

    // Adds the cells of other statements.
    pub(crate) fn add_all(&mut self, other: &Touched)
        ensures { GainsBoth self.old self.new other.now.reads other.now.writes }
    {
        self.reads.insert_all(&other.reads);
        self.writes.insert_all(&other.writes);
    }
}
