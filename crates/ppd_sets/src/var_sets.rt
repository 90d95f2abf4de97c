ghost use Rattle.std.specs.Prelude.{◌≡◌, ◌↔◌, ◌<◌, length, IsTrue, IfOk, get_or, []};
ghost use Rattle.ppd_ast.specs.Valid.{IsValid};
ghost use Rattle.ppd_sets.specs.SetsOf.{AreSetsOf};

use crate::rows::{body_rows, loop_rows};
use ppd_ast::{Cells, Memory, Program, Seq};
use std::alloc::Global;

/// USED and DEFINED: for each body, by number, the shared variables, by number, that are read and
/// written in some body that a chain of calls reaches from it, itself included; for each `while`
/// the local cells that its test or a statement inside reads, and that a statement inside writes,
/// arrays whole. A call counts as writing its receiving local. Each list rises and has each number
/// once.
#[derive(Drop)]
pub struct VarSets {
    used: Seq<Cells>,
    defined: Seq<Cells>,
    loop_used: Seq<Cells>,
    loop_defined: Seq<Cells>,
}

impl VarSets {
    /// Whether there is a body with this number.
    pub fn has_body(&self, body: u16) -> bool
        ensures { IsTrue result ↔ ((body < length self.now.used) × (body < length self.now.defined)) }
    {
        (body as usize) < self.used.len() && (body as usize) < self.defined.len()
    }

    /// Whether there is a statement with this number.
    pub fn has_stmt(&self, stmt: u32) -> bool
        ensures { IsTrue result ↔ ((stmt < length self.now.loop_used) × (stmt < length self.now.loop_defined)) }
    {
        (stmt as usize) < self.loop_used.len() && (stmt as usize) < self.loop_defined.len()
    }

    /// The shared variables that a body may read, by number, rising.
    pub fn used(&self, body: u16) -> &[u16]
        requires { body < length self.now.used }
        ensures { result.now ≡ get_or self.now.used body [] }
    {
        self.used.as_slice()[body as usize].as_slice()
    }

    /// The shared variables that a body may write, by number, rising.
    pub fn defined(&self, body: u16) -> &[u16]
        requires { body < length self.now.defined }
        ensures { result.now ≡ get_or self.now.defined body [] }
    {
        self.defined.as_slice()[body as usize].as_slice()
    }

    /// The local cells that a `while` may read, rising; none for another statement.
    pub fn loop_used(&self, stmt: u32) -> &[u16]
        requires { stmt < length self.now.loop_used }
        ensures { result.now ≡ get_or self.now.loop_used stmt [] }
    {
        self.loop_used.as_slice()[stmt as usize].as_slice()
    }

    /// The local cells that a statement inside a `while` may write, rising; none for another
    /// statement.
    pub fn loop_defined(&self, stmt: u32) -> &[u16]
        requires { stmt < length self.now.loop_defined }
        ensures { result.now ≡ get_or self.now.loop_defined stmt [] }
    {
        self.loop_defined.as_slice()[stmt as usize].as_slice()
    }
}

/// USED and DEFINED of a program's bodies and loops. Each body's chains of calls are followed by a
/// work list, which goes on from each body once. `Memory` is want of memory.
pub fn sets(alloc: Global, program: &Program) -> Result<VarSets, Memory>
    requires { IsValid program.now }
    ensures { IfOk result (λ sets. AreSetsOf program.now sets) }
{
    let bodies = body_rows(alloc, program)?;
    let loops = loop_rows(alloc, program)?;
    Ok(VarSets {
        used: bodies.used,
        defined: bodies.defined,
        loop_used: loops.used,
        loop_defined: loops.defined,
    })
}
