// Statements with statements inside them.
ghost use Rattle.std.specs.Prelude.{◌≡◌, ◌++◌, [], ◌∷◌, OnOk, IfOk, length, slice_set, ◌≤◌, ◌+◌};
ghost use Rattle.ppd_ast.specs.declared.program.Kind.TheVariants.{End};

use ppd_ast::{Kind, Memory, Place, Steps, Stmt};
use ppd_check_names::{Output, Site, Writer, put_stmt};
use std::sync::ledger::Ledger;

// One more statement, whose place is held until the statements inside it are known; its number.
pub fn hold<L: Ledger>(
    site: Site,
    place: Place,
    out: &mut Output,
    steps: &mut Steps<L>,
) -> Result<u32, Memory>
    ensures exprs { out.new.table.exprs ≡ out.old.table.exprs }
    ensures found { out.new.table.found ≡ out.old.table.found }
    ensures stmts { OnOk result
        (out.new.table.stmts ≡ out.old.table.stmts
        ++ record { place = place; body = site.body; parent = site.parent; kind = End } ∷ []) }
    ensures row { OnOk result (out.new.row ≡ out.old.row ++ length out.old.table.stmts
        ∷ []) }
    ensures number { IfOk result (λ n. n ≡ length out.old.table.stmts) }
    ensures cost { steps.new ≤ steps.old + 2 }
{
    let Ok(number) = u32::try_from(out.table.stmts.len()) else {
        return Err(Memory);
    };
    put_stmt(out, site, place, Kind::End, steps)?;
    Ok(number)
}

// The statement whose place was held.
pub fn set_stmt(out: &mut Writer, site: Site, place: Place, number: u32, kind: Kind)
    ensures exprs { out.new.exprs ≡ out.old.exprs }
    ensures found { out.new.found ≡ out.old.found }
    ensures stmts { out.new.stmts
        ≡ slice_set out.old.stmts number
        (record { place = place; body = site.body; parent = site.parent; kind = kind }) }
{
    out.stmts.set(
        number as usize,
        Stmt {
            place,
            body: site.body,
            parent: site.parent,
            kind,
        },
    );
}
