//! Codes a mono picture and decodes it again.

ghost use Rattle.std.specs.Prelude.{◌≡◌, ◌⊎◌, true, ◌*◌, ◌≤◌, ◌<◌, ℕ, length, replicate, IfErr};
ghost use Rattle.std.specs.Prelude.{OnOk};
ghost use Rattle.ffv1_wire.specs.Passage.{passage};
ghost use Rattle.ffv1_video.specs.declared.fault.Fault.TheVariants as fault;
ghost use Rattle.ffv1_pack.specs.Picture.{is_mono_fault};
ghost use Rattle.ffv1_pack.specs.Trial.{TrialDone, TrialRefused};

use crate::comparison::decodes_to;
use crate::picture::read_mono;
use crate::plane::code_plane;
use crate::report::report;
use ffv1_video::Fault;
use ffv1_wire::{ByteIn, ByteOut, write_all};
use std::alloc::Allocator;

/// Codes the first picture of a YUV4MPEG2 text as the content of one slice, decodes the code, and
/// writes four lines:
///
/// ```text
/// samples {n}
/// decisions {n}
/// code {upper-case hexadecimal}
/// same yes
/// ```
///
/// The last line says that the code was decoded to the picture's own samples. Each trial compares
/// them, and they are the same each time (`laws::plane_code_is_read_back`).
///
/// The picture has to be mono: `Unsupported` otherwise, once its header was judged. After the
/// picture nothing is read. The faults are those of the text, the first one from the left
/// (`Header`, `Tag`, `Unsupported`, `FrameLine`, `FrameTruncated`), `NoFrames` if there is no
/// picture, `Read` if a read failed, `OutOfMemory`, each with nothing written; and `Write` if
/// a write failed, a beginning of the lines then written.
pub fn trial<R: ByteIn, W: ByteOut, A: Allocator + Copy>(
    alloc: A,
    input: &mut R,
    output: &mut W,
) -> Result<(), Fault>
    ensures ok { OnOk result (TrialDone (passage R.remaining R.failures input.old input.new)
        (passage W.contents W.failures output.old output.new)) }
    ensures err { IfErr result (TrialRefused (passage R.remaining R.failures input.old input.new)
        (passage W.contents W.failures output.old output.new)) }
    ensures own { IfErr result (λ f. (is_mono_fault f ≡ true) ⊎ (f ≡ fault.Write)) }
{
    let mono = read_mono(alloc, input)?;
    let coded = code_plane(alloc, mono.width, mono.height, &mono.samples)?;
    let same = decodes_to(alloc, &coded.code, mono.width, mono.height, &mono.samples)?;
    let text = report(
        alloc,
        mono.samples.len() as u64,
        coded.decisions,
        &coded.code,
        same,
    )?;
    if write_all(output, &text).is_err() {
        return Err(Fault::Write);
    }
    Ok(())
}
