ghost use Rattle.std.specs.List.{flat_map};
ghost use Rattle.std.specs.Prelude.{◌≡◌, ◌++◌, OnOk};
ghost use Rattle.ppd_top_runs.specs.Ends.{status_text, print_text};

use ppd_ast::{Memory, Place, Status};
use ppd_text::{put, put_place, put_trap, put_value};

pub(crate) fn put_status(text: &mut Vec<u8>, status: Status, place: Place) -> Result<(), Memory>
    ensures { OnOk result (text.new.items ≡ text.old.items ++ status_text status place) }
{
    match status {
        Status::Ended => put(text, b"ended"),
        Status::Trap(trap) => {
            put(text, b"trap ")?;
            put_trap(text, trap)?;
            put(text, b" ")?;
            put_place(text, place)
        }
        Status::Budget => {
            put(text, b"budget ")?;
            put_place(text, place)
        }
        Status::Blocked => {
            put(text, b"blocked ")?;
            put_place(text, place)
        }
    }
}

fn put_print(text: &mut Vec<u8>, name: &[u8], value: i64) -> Result<(), Memory>
    ensures { OnOk result (text.new.items ≡ text.old.items ++ print_text name.now value) }
{
    put(text, b"print ")?;
    put(text, name)?;
    put(text, b" ")?;
    put_value(text, value)?;
    put(text, b"\n")
}

pub(crate) fn put_prints(text: &mut Vec<u8>, name: &[u8], values: &[i64]) -> Result<(), Memory>
    ensures { OnOk result (text.new.items ≡ text.old.items ++ flat_map (print_text name.now) values.now) }
{
    for value in values {
        put_print(text, name, *value)?;
    }
    Ok(())
}
