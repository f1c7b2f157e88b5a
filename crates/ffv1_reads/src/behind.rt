//! What stands behind the end of a file.

ghost use Rattle.std.specs.Prelude.{◌≡◌, Bool};
ghost use Rattle.ffv1_wire.specs.Passage.{passage};
ghost use Rattle.ffv1_reads.specs.Behind.{begins_file, behind_read};
ghost use Rattle.ffv1_reads.specs.Ends.{AnswersOrEnds};

use crate::fault::FileFault;
use ffv1_wire::{ByteIn, read_full};

/// Whether another file begins with these four bytes: the ID of EBML (RFC 8794, 11.2.1), or RIFF.
#[tactic(auto, unfolding(crate::specs::Behind::begins_file))]
pub fn begins_file(bytes: &[u8]) -> bool
    ensures { result ≡ begins_file bytes.now }
{
    bytes == b"\x1A\x45\xDF\xA3".as_slice() || bytes == b"RIFF".as_slice()
}

/// Looks at the four bytes behind the end of a file, or at as many as there are: whether there are
/// any.
///
/// `Another` if another file begins there, `Read` if a read failed.
#[tactic(auto, unfolding(crate::specs::Behind::behind_read))]
pub fn look_behind<R: ByteIn>(input: &mut R) -> Result<bool, FileFault>
    ensures { AnswersOrEnds (λ (some : Bool). some) behind_read
        (passage R.remaining R.failures input.old input.new) result }
{
    let mut bytes = [0u8; 4];
    let Ok(len) = read_full(input, &mut bytes) else {
        return Err(FileFault::Read);
    };
    if begins_file(&bytes[..len]) {
        return Err(FileFault::Another);
    }
    Ok(len > 0)
}
