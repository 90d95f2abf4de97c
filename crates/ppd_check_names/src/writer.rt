// The table while it grows.
ghost use Rattle.std.specs.Prelude.{◌≡◌, ◌++◌, [], ◌∷◌, OnOk, length, ◌≤◌, ◌+◌};

use crate::fault::Fault;
use ppd_ast::{Expr, Ids, Kind, Memory, Place, Seq, Steps, Stmt};
use std::sync::ledger::Ledger;

/// The expressions and statements so far, and the first broken rule.
#[derive(Drop)]
pub struct Writer {
    pub exprs: Seq<Expr>,
    pub stmts: Seq<Stmt>,
    pub found: Option<Fault>,
}

/// The table, and the numbers of the row that statements are added to.
#[derive(Drop)]
pub struct Output {
    pub table: Writer,
    pub row: Ids,
}

/// Where statements stand: their body, and the `If` or `While` directly round them.
#[derive(Clone, Copy)]
pub struct Site {
    pub body: u16,
    pub parent: Option<u32>,
}

/// One more statement; its number is added to its row. `Memory` is want of memory, or of numbers.
pub fn put_stmt<L: Ledger>(
    out: &mut Output,
    site: Site,
    place: Place,
    kind: Kind,
    steps: &mut Steps<L>,
) -> Result<(), Memory>
    ensures exprs { out.new.table.exprs ≡ out.old.table.exprs }
    ensures found { out.new.table.found ≡ out.old.table.found }
    ensures stmts { OnOk result
        (out.new.table.stmts ≡ out.old.table.stmts
        ++ record { place = place; body = site.body; parent = site.parent; kind = kind } ∷ []) }
    ensures row { OnOk result (out.new.row ≡ out.old.row ++ length out.old.table.stmts ∷ []) }
    ensures cost { steps.new ≤ steps.old + 2 }
{
    let Ok(number) = u32::try_from(out.table.stmts.len()) else {
        return Err(Memory);
    };
    steps.tick();
    out.table.stmts.push(Stmt {
        place,
        body: site.body,
        parent: site.parent,
        kind,
    })?;
    steps.tick();
    out.row.push(number)
}
