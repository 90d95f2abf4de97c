ghost use Rattle.std.specs.Prelude.{◌≤◌};
ghost use Rattle.ppd_top_output.specs.Finishing.{Finished};

use ppd_io::{Sink, put_all};

/// Writes all that there is to write, and answers the status.
pub fn finish<O: Sink>(output: &mut O, text: &[u8], status: u8) -> u8
    ensures end { Finished (O.written output.old) (O.written output.new) (O.faults output.old)
        (O.faults output.new) result status text.now }
    ensures later { O.faults output.old ≤ O.faults output.new }
{
    match put_all(output, text) {
        Ok(()) => status,
        Err(_) => 4,
    }
}
