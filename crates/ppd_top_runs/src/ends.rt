// How the processes of a run ended, and what they printed.
ghost use Rattle.std.specs.Prelude.{◌≡◌, ◌++◌, ◌+◌, ◌<◌, ◌^◌, length, OnOk, slice_get};
ghost use Rattle.std.specs.Option.{option_map_or};
ghost use Rattle.std.specs.List.{enumerate_from, flat_map};
ghost use Rattle.ppd_top_runs.specs.Ends.{end_text};
ghost use Rattle.ppd_ast.specs.Lookups.{body_numbered};

use crate::text::{put_prints, put_status};
use ppd_ast::{Memory, Place, Program};
use ppd_model::ProcEnd;
use ppd_text::{body_name, put, put_number};

fn place_at(program: &Program, stmt: u32) -> Place
    ensures { result
        ≡ option_map_or (λ s. s.place) (slice_get program.now.stmts stmt) (record { line = 1; column = 1 }) }
{
    match program.stmts.get(stmt as usize) {
        Some(stmt) => stmt.place,
        None => Place { line: 1, column: 1 },
    }
}

/// Appends how a process ended and what it printed.
fn put_end(text: &mut Vec<u8>, program: &Program, name: &[u8], end: &ProcEnd) -> Result<(), Memory>
    ensures { OnOk result (text.new.items ≡ text.old.items ++ end_text program.now name.now end.now) }
{
    let place = place_at(program, end.stmt);
    put(text, b"process ")?;
    put(text, name)?;
    put(text, b" ")?;
    put_status(text, end.status, place)?;
    put(text, b" steps ")?;
    put_number(text, end.steps)?;
    put(text, b"\n")?;
    put_prints(text, name, end.prints.as_slice())
}

/// How the processes ended, and what they printed. Their bodies are those from number `first` on.
pub fn put_ends(
    text: &mut Vec<u8>,
    program: &Program,
    first: u16,
    ends: &[ProcEnd],
) -> Result<(), Memory>
    requires { length ends.now < 2 ^ 62 }
    ensures { OnOk result (text.new.items
        ≡ text.old.items
        ++ flat_map (λ e. end_text program.now (body_numbered program.now e.0).name e.1)
        (enumerate_from first ends.now)) }
{
    for index in 0..ends.len() {
        let name = body_name(program, first as usize + index);
        put_end(text, program, name, &ends[index])?;
    }
    Ok(())
}
