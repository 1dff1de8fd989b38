ghost use Rattle.sc_top.specs.Prelude.{Wrote};

use sc_edge::{Failed, Sink};

/// Writes all the bytes, in as many pieces as the sink takes.
#[tactic(auto, using(crate::proofs::Streams::writing))]
pub(crate) fn write_text<O: Sink>(sink: &mut O, bytes: &[u8]) -> Result<(), Failed>
    ensures { Wrote bytes.now result (O.written sink.old) (O.written sink.new) (O.faults sink.old) (O.faults sink.new) }
{
    let mut written = 0;
    while written < bytes.len() {
        written += sink.write(&bytes[written..])?;
    }
    Ok(())
}
