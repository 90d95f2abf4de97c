// The race list as a text.
ghost use Rattle.std.specs.Option.{unwrap_or};
ghost use Rattle.std.specs.Prelude.{◌≡◌, ◌++◌, [], OnOk, codes, decimal};
ghost use Rattle.std.specs.List.{flat_map};
ghost use Rattle.ppd_session.specs.Texts.{race_line, race_word, races_text, races_refusal};
ghost use Rattle.ppd_text.specs.CellNames.{process_name as process_name_of};

use ppd_ast::{Memory, Program};
use ppd_model::{Race, RaceKind};
use ppd_text::{process_name, put, put_cell, put_count, put_number};

fn put_kind(text: &mut Vec<u8>, kind: RaceKind) -> Result<(), Memory>
    ensures { OnOk result (text.new.items ≡ text.old.items ++ race_word kind) }
{
    match kind {
        RaceKind::ReadWrite => put(text, b"read-write"),
        RaceKind::WriteRead => put(text, b"write-read"),
        RaceKind::WriteWrite => put(text, b"write-write"),
    }
}

// Appends an edge of a process: its name and a number, each before a space.
fn put_edge(text: &mut Vec<u8>, program: &Program, process: u8, edge: u32) -> Result<(), Memory>
    ensures { OnOk result
        (text.new.items
        ≡ text.old.items ++ (process_name_of program.now process ++ codes " " ++ decimal edge ++ codes " ")) }
{
    put(text, process_name(program, process))?;
    put(text, b" ")?;
    put_number(text, edge)?;
    put(text, b" ")
}

fn put_race(text: &mut Vec<u8>, program: &Program, race: Race) -> Result<(), Memory>
    ensures { OnOk result (text.new.items ≡ text.old.items ++ race_line program.now race) }
{
    put(text, b"race ")?;
    put_edge(text, program, race.p, race.i)?;
    put_edge(text, program, race.q, race.j)?;
    put_cell(text, program.shared.as_slice(), race.cell)?;
    put(text, b" ")?;
    put_kind(text, race.kind)?;
    put(text, b"\n")
}

fn put_lines(text: &mut Vec<u8>, program: &Program, races: &[Race]) -> Result<(), Memory>
    ensures { OnOk result (text.new.items ≡ text.old.items ++ flat_map (race_line program.now) races.now) }
{
    for race in races {
        put_race(text, program, *race)?;
    }
    Ok(())
}

/// Appends the race list: how many races there are, and a line for each.
pub(crate) fn put_races(text: &mut Vec<u8>, program: &Program, races: &[Race]) -> Result<(), Memory>
    ensures { OnOk result (text.new.items ≡ text.old.items ++ races_text program.now races.now) }
{
    put(text, b"races ")?;
    put_count(text, races.len())?;
    put(text, b"\n")?;
    put_lines(text, program, races)
}

/// Appends how many races there are, where there are some: then no answer may rest on the order of accesses.
pub fn put_racy(text: &mut Vec<u8>, races: &[Race]) -> Result<(), Memory>
    ensures { OnOk result (text.new.items ≡ text.old.items ++ unwrap_or (races_refusal races.now) []) }
{
    if races.is_empty() {
        return Ok(());
    }
    put(text, b"? races ")?;
    put_count(text, races.len())?;
    put(text, b"\n")
}
