ghost use Rattle.std.specs.Prelude.{◌≡◌, ◌↔◌, ◌<◌, length, IsTrue, IfOk};
ghost use Rattle.ppd_sets.specs.Flow.{follow, next_of};
ghost use Rattle.ppd_sets.specs.Cfgs.{HasStmt, row_of, IsGraphOf};

use crate::follow::{follow, successors_by};
use ppd_ast::limits::MOST_NESTING;
use ppd_ast::{Ids, Memory, Program, Seq};
use std::alloc::Global;

/// The flow graph of a body: for each of its statements, from the first one's number on, its
/// successors.
#[derive(Drop)]
pub struct Cfg {
    first: u32,
    rows: Seq<Ids>,
}

impl Cfg {
    /// Whether the statement is one of the body's.
    pub fn has(&self, stmt: u32) -> bool
        ensures { IsTrue result ↔ HasStmt self.now stmt }
    {
        self.first <= stmt && ((stmt - self.first) as usize) < self.rows.len()
    }

    /// The successors of a statement of the body, rising, each once.
    pub fn next(&self, stmt: u32) -> &[u32]
        requires { HasStmt self.now stmt }
        ensures { result.now ≡ row_of self.now stmt }
    {
        self.rows.as_slice()[(stmt - self.first) as usize].as_slice()
    }
}

/// What follows a statement: the next of its list, or else what follows the list; after the last of
/// a `while` body the `while`.
pub fn next_after(program: &Program, stmt: u32) -> Option<u32>
    ensures { result ≡ follow program.now stmt }
{
    follow(program, stmt, MOST_NESTING)
}

/// The successors of a statement, rising, each once; none where there is no such statement.
/// `Memory` is want of memory.
pub fn successors_of(alloc: Global, program: &Program, stmt: u32) -> Result<Ids, Memory>
    ensures { IfOk result (λ ids. ids ≡ next_of program.now stmt) }
{
    match program.stmt(stmt) {
        Some(found) => {
            let after = follow(program, stmt, MOST_NESTING);
            let ids = successors_by(alloc, stmt, &found.kind, after)?;
            Ok(ids)
        }
        None => Ok(Ids::new(alloc)),
    }
}

/// The flow graph of a body, by its number. A statement's successors are the next of its list; for
/// an `if` the first of each branch, an empty branch giving what follows the `if`; for a `while`
/// the first of its body, itself where the body is empty, and what follows it; after the last of a
/// `while` body the `while`; after the last of a branch what follows the `if`. A `return` and the
/// end of a process have none. `Memory` is want of memory.
pub fn flow_graph(alloc: Global, program: &Program, body: u16) -> Result<Cfg, Memory>
    requires { body < length program.now.bodies }
    ensures { IfOk result (λ graph. IsGraphOf program.now body graph) }
{
    let found = &program.bodies.as_slice()[body as usize];
    let mut rows = Seq::new(alloc);
    for stmt in found.first..found.end {
        let row = successors_of(alloc, program, stmt)?;
        rows.push(row)?;
    }
    Ok(Cfg {
        first: found.first,
        rows,
    })
}
