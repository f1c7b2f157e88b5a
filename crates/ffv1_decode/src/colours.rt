//! What is made of the samples of a line: the same, or red, green, blue and transparency.

ghost use Rattle.std.specs.Prelude.{◌≡◌, ◌*◌, ◌^◌, ◌≤◌, ◌<◌, ℕ, OnOk, IfErr};
ghost use Rattle.std.specs.Prelude.{Bool, length, slice_index, true, false};
ghost use Rattle.ffv1_rct.specs.Lines.{HasColourAtIn};
ghost use Rattle.ffv1_samples.specs.Samples.{AreBelow, bytes_of, sample_bytes, samples_of};
ghost use Rattle.ffv1_decode.specs.Internal.Finished.{AreMade, AreInOrder, IsFirstWithout};
ghost use Rattle.ffv1_decode.specs.Internal.Finished.{bytes_colouring, words_colouring};

use ffv1_rct::{CodedWords, inverse_line, inverse_words, narrow_line, narrow_words};

/// Bytes are below 256.
pub(crate) fn are_bytes(bytes: &[u8])
    ensures { AreBelow 256 bytes.now }
{}

/// Samples of 8 bits as bytes.
fn copy(samples: &[u16], out: &mut [u8])
    requires { length out.old ≡ length samples.now }
    ensures { ((x : ℕ) → x < length samples.now → slice_index samples.now x < 256) →
        out.new ≡ samples.now }
{
    let _ = narrow_line(samples, out);
}

/// Samples of more bits as bytes.
fn copy_words(depth: u8, samples: &[u16], out: &mut [u8])
    requires deep { 8 < depth }
    requires few { depth ≤ 16 }
    requires out { length out.old ≡ 2 * length samples.now }
    ensures { ((x : ℕ) → x < length samples.now → slice_index samples.now x < 2 ^ depth) →
        out.new ≡ bytes_of depth samples.now }
{
    let _ = narrow_words(samples, out, depth);
}

/// Samples of a depth as bytes.
pub(crate) fn copy_to(depth: u32, samples: &[u16], out: &mut [u8])
    requires least { 8 ≤ depth }
    requires most { depth ≤ 16 }
    requires out { length out.old ≡ sample_bytes depth * length samples.now }
    ensures { ((x : ℕ) → x < length samples.now → slice_index samples.now x < 2 ^ depth) →
        out.new ≡ bytes_of depth samples.now }
{
    if depth == 8 {
        return copy(samples, out);
    }
    copy_words(depth as u8, samples, out)
}

/// Red, green and blue of a line, or the first place that has none.
fn colours(width: usize, samples: &[u16], out: &mut [u8]) -> Result<(), usize>
    requires samples { length samples.now ≡ 3 * width }
    requires out { length out.old ≡ 3 * width }
    requires few { width ≤ 8192 }
    ensures ok { OnOk result (AreMade (bytes_colouring width false) samples.now out.new) }
    ensures err { IfErr result (IsFirstWithout (bytes_colouring width false) samples.now) }
{
    let (luma, chroma) = samples.split_at(width);
    let (first, second) = chroma.split_at(width);
    let (red, rest) = out.split_at_mut(width);
    let (green, blue) = rest.split_at_mut(width);
    match inverse_line(luma, first, second, red, green, blue) {
        Ok(()) => Ok(()),
        Err(none) => Err(none.x),
    }
}

/// Transparency of a line, or the first place that has more than 8 bits.
fn transparency(samples: &[u16], out: &mut [u8]) -> Result<(), usize>
    requires { length out.old ≡ length samples.now }
    ensures ok { OnOk result (out.new ≡ samples.now) }
    ensures small { OnOk result ((x : ℕ) → slice_index samples.now x < 256) }
    ensures inside { IfErr result (λ x. x < length samples.now) }
    ensures above { IfErr result (λ x. 255 < slice_index samples.now x) }
    ensures before { IfErr result (λ x. (y : ℕ) → y < x → slice_index samples.now y < 256) }
{
    match narrow_line(samples, out) {
        Ok(()) => Ok(()),
        Err(none) => Err(none.x),
    }
}

/// Both, or the first place that has no colour or no transparency of 8 bits.
fn transparent_colours(width: usize, samples: &[u16], out: &mut [u8]) -> Result<(), usize>
    requires samples { length samples.now ≡ 4 * width }
    requires out { length out.old ≡ 4 * width }
    requires few { width ≤ 8192 }
    ensures ok { OnOk result (AreMade (bytes_colouring width true) samples.now out.new) }
    ensures err { IfErr result (IsFirstWithout (bytes_colouring width true) samples.now) }
{
    let (coded, alpha) = samples.split_at(3 * width);
    let (three, fourth) = out.split_at_mut(3 * width);
    match colours(width, coded, three) {
        Ok(()) => transparency(alpha, fourth),
        Err(x) => {
            transparency(&alpha[..x], &mut fourth[..x])?;
            Err(x)
        }
    }
}

/// Both, if there is transparency.
pub(crate) fn byte_colours(
    extra: bool,
    width: usize,
    samples: &[u16],
    out: &mut [u8],
) -> Result<(), usize>
    requires four { extra ≡ true → length samples.now ≡ 4 * width }
    requires three { extra ≡ false → length samples.now ≡ 3 * width }
    requires out { length out.old ≡ length samples.now }
    requires few { width ≤ 8192 }
    ensures ok { OnOk result (AreMade (bytes_colouring width extra) samples.now out.new) }
    ensures err { IfErr result (IsFirstWithout (bytes_colouring width extra) samples.now) }
{
    if extra {
        return transparent_colours(width, samples, out);
    }
    colours(width, samples, out)
}

/// How a line of samples of more than 8 bits is made of what was read.
#[derive(Clone, Copy)]
pub struct Words {
    /// The bits of a sample, from 9 to 15.
    pub depth: u8,
    /// How many places the line has.
    pub width: usize,
    /// Whether green and blue change places.
    pub swaps: bool,
    /// Whether there is transparency.
    pub extra: bool,
}

/// Red of coded lines, and green and blue in the lines after it, or the other way round.
fn inverse_in_order(
    swaps: bool,
    coded: &CodedWords<'_>,
    red: &mut [u8],
    second: &mut [u8],
    third: &mut [u8],
) -> Result<(), usize>
    requires deep { 8 < coded.now.depth }
    requires shallow { coded.now.depth ≤ 15 }
    requires cb { length coded.now.cb.now ≡ length coded.now.y.now }
    requires cr { length coded.now.cr.now ≡ length coded.now.y.now }
    requires red { length red.old ≡ 2 * length coded.now.y.now }
    requires second { length second.old ≡ 2 * length coded.now.y.now }
    requires third { length third.old ≡ 2 * length coded.now.y.now }
    ensures ok { OnOk result (AreInOrder swaps coded.now.depth (length coded.now.y.now)
        coded.now.y.now coded.now.cb.now coded.now.cr.now (samples_of coded.now.depth red.new)
        (samples_of coded.now.depth second.new) (samples_of coded.now.depth third.new)) }
    ensures inside { IfErr result (λ x. x < length coded.now.y.now) }
    ensures filled { IfErr result (λ x. AreInOrder swaps coded.now.depth x
        coded.now.y.now coded.now.cb.now coded.now.cr.now (samples_of coded.now.depth red.new)
        (samples_of coded.now.depth second.new) (samples_of coded.now.depth third.new)) }
    ensures none { IfErr result (λ x. HasColourAtIn coded.now.depth coded.now.y.now
        coded.now.cb.now coded.now.cr.now x → ⊥) }
{
    if swaps {
        return match inverse_words(coded, red, third, second) {
            Ok(()) => Ok(()),
            Err(none) => Err(none.x),
        };
    }
    match inverse_words(coded, red, second, third) {
        Ok(()) => Ok(()),
        Err(none) => Err(none.x),
    }
}

/// Red, green and blue of a line of samples of more than 8 bits, or the first place that has none.
fn coloured_words(words: &Words, samples: &[u16], out: &mut [u8]) -> Result<(), usize>
    requires deep { 8 < words.now.depth }
    requires shallow { words.now.depth ≤ 15 }
    requires samples { length samples.now ≡ 3 * words.now.width }
    requires out { length out.old ≡ 2 * (3 * words.now.width) }
    requires few { words.now.width ≤ 8192 }
    ensures ok { OnOk result (AreMade (words_colouring words.now.depth words.now.width
        words.now.swaps false) samples.now (samples_of words.now.depth out.new)) }
    ensures err { IfErr result (IsFirstWithout (words_colouring words.now.depth words.now.width
        words.now.swaps false) samples.now) }
{
    let Words {
        depth,
        width,
        swaps,
        ..
    } = *words;
    let (y, chroma) = samples.split_at(width);
    let (cb, cr) = chroma.split_at(width);
    let (red, rest) = out.split_at_mut(2 * width);
    let (second, third) = rest.split_at_mut(2 * width);
    let coded = CodedWords { y, cb, cr, depth };
    inverse_in_order(swaps, &coded, red, second, third)
}

/// Transparency of a line of samples of more than 8 bits, or the first place that has more bits.
fn transparency_words(depth: u8, samples: &[u16], out: &mut [u8]) -> Result<(), usize>
    requires deep { 8 < depth }
    requires shallow { depth ≤ 15 }
    requires out { length out.old ≡ 2 * length samples.now }
    ensures ok { OnOk result (out.new ≡ bytes_of depth samples.now) }
    ensures small { OnOk result ((x : ℕ) → slice_index samples.now x < 2 ^ depth) }
    ensures inside { IfErr result (λ x. x < length samples.now) }
    ensures above { IfErr result (λ x. 2 ^ depth ≤ slice_index samples.now x) }
    ensures before { IfErr result (λ x. (y : ℕ) → y < x → slice_index samples.now y < 2 ^ depth) }
{
    match narrow_words(samples, out, depth) {
        Ok(()) => Ok(()),
        Err(none) => Err(none.x),
    }
}

/// Both, or the first place that has no colour or no transparency of so many bits.
fn transparent_words(words: &Words, samples: &[u16], out: &mut [u8]) -> Result<(), usize>
    requires deep { 8 < words.now.depth }
    requires shallow { words.now.depth ≤ 15 }
    requires samples { length samples.now ≡ 4 * words.now.width }
    requires out { length out.old ≡ 2 * (4 * words.now.width) }
    requires few { words.now.width ≤ 8192 }
    ensures ok { OnOk result (AreMade (words_colouring words.now.depth words.now.width
        words.now.swaps true) samples.now (samples_of words.now.depth out.new)) }
    ensures err { IfErr result (IsFirstWithout (words_colouring words.now.depth words.now.width
        words.now.swaps true) samples.now) }
{
    let Words { depth, width, .. } = *words;
    let (coded, alpha) = samples.split_at(3 * width);
    let (three, fourth) = out.split_at_mut(2 * (3 * width));
    match coloured_words(words, coded, three) {
        Ok(()) => transparency_words(depth, alpha, fourth),
        Err(x) => {
            transparency_words(depth, &alpha[..x], &mut fourth[..2 * x])?;
            Err(x)
        }
    }
}

/// The colours of a line of samples of more than 8 bits, and transparency if there is one.
pub(crate) fn word_colours(words: &Words, samples: &[u16], out: &mut [u8]) -> Result<(), usize>
    requires deep { 8 < words.now.depth }
    requires shallow { words.now.depth ≤ 15 }
    requires four { words.now.extra ≡ true → length samples.now ≡ 4 * words.now.width }
    requires three { words.now.extra ≡ false → length samples.now ≡ 3 * words.now.width }
    requires out { length out.old ≡ 2 * length samples.now }
    requires few { words.now.width ≤ 8192 }
    ensures ok { OnOk result (AreMade (words_colouring words.now.depth words.now.width
        words.now.swaps words.now.extra) samples.now (samples_of words.now.depth out.new)) }
    ensures err { IfErr result (IsFirstWithout (words_colouring words.now.depth words.now.width
        words.now.swaps words.now.extra) samples.now) }
{
    if words.extra {
        return transparent_words(words, samples, out);
    }
    coloured_words(words, samples, out)
}
