ghost use Rattle.std.specs.Prelude.{◌≡◌, is_some};
ghost use Rattle.ppd_ast.specs.declared.plan.BlockKind.TheVariants as block;
ghost use Rattle.ppd_ast.specs.Lookups.{kind_of};
ghost use Rattle.ppd_sem.specs.Process.{into_of};
ghost use Rattle.ppd_sem.specs.Runs.{returns as returns_by};
ghost use Rattle.ppd_sem.specs.Tables.{block_of, same_block};
ghost use Rattle.ppd_graph.specs.Locals.{begins_leaf as begins_leaf_by, is_leaf_call as is_leaf_call_by};

use ppd_ast::{BlockKind, Kind, Plan, Program};
use ppd_sem::Event;

fn is_body_of(kind: BlockKind, function: u16) -> bool
    ensures { result ≡ same_block kind (block.Function function) }
{
    matches!(kind, BlockKind::Function(found) if found == function)
}

/// Whether the body of a function is a block.
fn is_block(plan: &Plan, function: u16) -> bool
    ensures { result ≡ is_some (block_of plan.now (block.Function function)) }
{
    for block in plan.blocks.as_slice() {
        if is_body_of(block.kind, function) {
            return true;
        }
    }
    false
}

/// A call of a function that is no block.
fn is_leaf_call(plan: &Plan, kind: &Kind) -> bool
    ensures { result ≡ is_leaf_call_by plan.now kind.now }
{
    match kind {
        Kind::Call { function, .. } => !is_block(plan, *function),
        _ => false,
    }
}

/// What is looked up while items are read: the program and its plan.
#[derive(Clone, Copy)]
pub struct Code<'a> {
    pub program: &'a Program,
    pub plan: &'a Plan,
}

impl<'a> Code<'a> {
    /// Whether the event begins an activation that has no interval of its own.
    pub fn begins_leaf(&self, event: &Event) -> bool
        ensures { result ≡ begins_leaf_by self.now.program.now self.now.plan.now event.now }
    {
        if event.trap.is_some() {
            return false;
        }
        match self.program.stmt(event.stmt) {
            Some(stmt) => is_leaf_call(self.plan, &stmt.kind),
            None => false,
        }
    }

    /// Whether the statement is a `Return`.
    pub fn returns(&self, stmt: u32) -> bool
        ensures { result ≡ returns_by (kind_of self.now.program.now stmt) }
    {
        match self.program.stmt(stmt) {
            Some(stmt) => matches!(stmt.kind, Kind::Return(_)),
            None => false,
        }
    }

    /// The local cell that receives the value of a call.
    pub fn receiver(&self, stmt: u32) -> Option<u16>
        ensures { result ≡ into_of (kind_of self.now.program.now stmt) }
    {
        match self.program.stmt(stmt) {
            Some(stmt) => match stmt.kind {
                Kind::Call { into, .. } => into,
                _ => None,
            },
            None => None,
        }
    }
}
