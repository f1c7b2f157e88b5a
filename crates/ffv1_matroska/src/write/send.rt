//! Sends bytes to a writer.

ghost use Rattle.ffv1_wire.specs.Passage.{passage};
ghost use Rattle.ffv1_reads.specs.Writes.{Writes};

use ffv1_reads::FileFault;
use ffv1_wire::{ByteOut, write_all};

/// Writes all the bytes.
pub(crate) fn send<W: ByteOut>(out: &mut W, bytes: &[u8]) -> Result<(), FileFault>
    ensures { Writes (passage W.contents W.failures out.old out.new) bytes.now result }
{
    match write_all(out, bytes) {
        Ok(()) => Ok(()),
        Err(_) => Err(FileFault::Write),
    }
}
