//! What is made of the samples of a line of RCT of 16 bits: red, green, blue and transparency.

ghost use Rattle.std.specs.Prelude.{◌≡◌, ◌*◌, ◌^◌, ◌≤◌, ◌<◌, ℕ, OnOk, IfErr};
ghost use Rattle.std.specs.Prelude.{length, slice_index, true, false};
ghost use Rattle.ffv1_samples.specs.Samples.{bytes_of, samples_of};
ghost use Rattle.ffv1_decode.specs.Internal.Finished.{AreMade, IsFirstWithout, words_colouring};

use ffv1_rct::{CodedWide, inverse_wide, narrow_wide};

/// Red, green and blue of a line, or the first place that has none.
fn straight(width: usize, samples: &[u32], out: &mut [u8]) -> Result<(), usize>
    requires samples { length samples.now ≡ 3 * width }
    requires out { length out.old ≡ 2 * (3 * width) }
    requires few { width ≤ 8192 }
    ensures ok { OnOk result (AreMade (words_colouring 16 width false false) samples.now
        (samples_of 16 out.new)) }
    ensures err { IfErr result (IsFirstWithout (words_colouring 16 width false false)
        samples.now) }
{
    let (y, chroma) = samples.split_at(width);
    let (cb, cr) = chroma.split_at(width);
    let (red, rest) = out.split_at_mut(2 * width);
    let (green, blue) = rest.split_at_mut(2 * width);
    let coded = CodedWide { y, cb, cr };
    match inverse_wide(&coded, red, green, blue) {
        Ok(()) => Ok(()),
        Err(none) => Err(none.x),
    }
}

/// Transparency of a line, or the first place that has more than 16 bits.
fn transparency(samples: &[u32], out: &mut [u8]) -> Result<(), usize>
    requires out { length out.old ≡ 2 * length samples.now }
    ensures ok { OnOk result (out.new ≡ bytes_of 16 samples.now) }
    ensures small { OnOk result ((x : ℕ) → slice_index samples.now x < 2 ^ 16) }
    ensures inside { IfErr result (λ x. x < length samples.now) }
    ensures above { IfErr result (λ x. 2 ^ 16 ≤ slice_index samples.now x) }
    ensures before { IfErr result (λ x. (y : ℕ) → y < x → slice_index samples.now y < 2 ^ 16) }
{
    match narrow_wide(samples, out) {
        Ok(()) => Ok(()),
        Err(none) => Err(none.x),
    }
}

/// Both, or the first place that has no colour or no transparency of so many bits.
fn transparent(width: usize, samples: &[u32], out: &mut [u8]) -> Result<(), usize>
    requires samples { length samples.now ≡ 4 * width }
    requires out { length out.old ≡ 2 * (4 * width) }
    requires few { width ≤ 8192 }
    ensures ok { OnOk result (AreMade (words_colouring 16 width false true) samples.now
        (samples_of 16 out.new)) }
    ensures err { IfErr result (IsFirstWithout (words_colouring 16 width false true)
        samples.now) }
{
    let (coded, alpha) = samples.split_at(3 * width);
    let (three, fourth) = out.split_at_mut(2 * (3 * width));
    match straight(width, coded, three) {
        Ok(()) => transparency(alpha, fourth),
        Err(x) => {
            transparency(&alpha[..x], &mut fourth[..2 * x])?;
            Err(x)
        }
    }
}

/// The colours of a line, and transparency if there is one.
pub(crate) fn wide_colours(
    extra: bool,
    width: usize,
    samples: &[u32],
    out: &mut [u8],
) -> Result<(), usize>
    requires four { extra ≡ true → length samples.now ≡ 4 * width }
    requires three { extra ≡ false → length samples.now ≡ 3 * width }
    requires out { length out.old ≡ 2 * length samples.now }
    requires few { width ≤ 8192 }
    ensures ok { OnOk result (AreMade (words_colouring 16 width false extra) samples.now
        (samples_of 16 out.new)) }
    ensures err { IfErr result (IsFirstWithout (words_colouring 16 width false extra)
        samples.now) }
{
    if extra {
        return transparent(width, samples, out);
    }
    straight(width, samples, out)
}
