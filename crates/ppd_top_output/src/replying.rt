ghost use Rattle.std.specs.Prelude.{◌≤◌};
ghost use Rattle.ppd_top_output.specs.Finishing.{IsReplied};

use ppd_io::{Sink, put_all};

/// Writes a reply, and says with which status that ends, if it ends: it does where it is the last one.
pub fn finish_reply<O: Sink>(output: &mut O, text: &[u8], is_last: bool) -> Option<u8>
    ensures end { IsReplied (O.written output.old) (O.written output.new) (O.faults output.old)
        (O.faults output.new) text.now is_last result }
    ensures later { O.faults output.old ≤ O.faults output.new }
{
    match put_all(output, text) {
        Err(_) => Some(4),
        Ok(()) => {
            if is_last {
                return Some(0);
            }
            None
        }
    }
}
