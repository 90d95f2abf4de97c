ghost use Rattle.std.specs.Prelude.{◌≡◌, ◌++◌, OnOk};
ghost use Rattle.ppd_rerun_guide.specs.declared.verdict.Verdict.TheVariants.{No as verdict_no};
ghost use Rattle.ppd_top.specs.VerdictTexts.{verdict_text};

use ppd_ast::{Memory, Program};
use ppd_rerun_guide::{No, Verdict};
use ppd_text::{process_name, put, put_count, put_number};

/// Appends the line that says why a recording is not confirmed.
fn put_no(text: &mut Vec<u8>, program: &Program, no: No) -> Result<(), Memory>
    ensures { OnOk result (text.new.items ≡ text.old.items ++ verdict_text program.now (verdict_no no)) }
{
    match no {
        No::Record { taken } => {
            put(text, b"rerun no 1 Record ")?;
            put_number(text, taken)?;
            put(text, b"\n")
        }
        No::Interval { process, interval } => {
            put(text, b"rerun no 2 Interval ")?;
            put(text, process_name(program, process))?;
            put(text, b" ")?;
            put_number(text, interval)?;
            put(text, b"\n")
        }
    }
}

/// Appends the line of a verdict.
pub fn put_verdict(text: &mut Vec<u8>, program: &Program, verdict: &Verdict) -> Result<(), Memory>
    ensures { OnOk result (text.new.items ≡ text.old.items ++ verdict_text program.now verdict.now) }
{
    match verdict {
        Verdict::Yes(schedule) => {
            put(text, b"rerun yes ")?;
            put_count(text, schedule.len())?;
            put(text, b"\n")
        }
        Verdict::No(no) => put_no(text, program, *no),
    }
}
