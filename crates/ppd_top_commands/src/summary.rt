// What is written of a run.
ghost use Rattle.std.specs.Prelude.{◌≡◌, ◌<◌, ◌^◌, length, IfOk};
ghost use Rattle.ppd_top_commands.specs.Summary.{summary_of};

use ppd_ast::{Memory, Program};
use ppd_codec_runs::Session;
use ppd_model::ProcEnd;
use ppd_text::put;
use ppd_top_runs::put_ends;
use std::alloc::Global;

/// The summary of a run whose processes ended so, with the races that a session found.
pub(crate) fn summary(
    alloc: Global,
    program: &Program,
    ends: &[ProcEnd],
    session: &Session<'_>,
) -> Result<Vec<u8>, Memory>
    requires program { session.now.known.program ≡ program.now }
    requires few { length ends.now < 2 ^ 62 }
    ensures { IfOk result (λ text. text.items ≡ summary_of program.now ends.now session.now.known.races) }
{
    let mut text = Vec::new(alloc);
    put_ends(&mut text, program, program.functions, ends)?;
    let races = session.summary_races()?;
    put(&mut text, &races)?;
    Ok(text)
}
