ghost use Rattle.ppd_io.specs.Causes.{HasCause};
ghost use Rattle.ppd_io.specs.Content.{PutsAll};

use crate::sink::{Failed, Sink};

/// Writes all the bytes. `Failed` comes only where the sink's count of faults rose; then a proper
/// prefix of the bytes was written.
pub fn put_all<O: Sink>(out: &mut O, bytes: &[u8]) -> Result<(), Failed>
    ensures bytes { PutsAll (O.written out.old) (O.written out.new) result bytes.now }
    ensures cause { HasCause (O.faults out.old) (O.faults out.new) result }
{
    let mut at = 0;
    while at < bytes.len() {
        at += out.write(&bytes[at..])?;
    }
    Ok(())
}
