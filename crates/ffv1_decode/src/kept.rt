//! What is kept of the last line of a row of slices, for the row below.

ghost use Rattle.std.specs.Prelude.{◌≡◌, ℕ, ◌-◌, ◌*◌, ◌≤◌, ◌<◌, length, take};
ghost use Rattle.ffv1_frame.specs.Picture.{plane_width};
ghost use Rattle.ffv1_decode.specs.Internal.Shared.{IsChroma, KeepsChroma, KeepsLine};
ghost use Rattle.ffv1_record.specs.Configuration.{Configuration};

use ffv1_frame::line_word::LineWord;

/// Where the line of a plane begins and ends in a line of Cb and one of Cr, of so many samples in
/// all: neither is there if no two rows of slices share a line. Another plane has nothing of them.
pub(crate) fn kept_range(plane: u8, long: usize) -> (usize, usize)
    requires { plane < 4 }
    ensures rises { result.0 ≤ result.1 }
    ensures inside { result.1 ≤ long }
    ensures line { (c : Configuration) → KeepsChroma c long →
        KeepsLine c plane (result.1 - result.0) }
    ensures chroma { (c : Configuration) → KeepsChroma c long → 0 < long → IsChroma plane →
        (result.0 ≡ (plane - 1) * plane_width c 1) × (result.1 - result.0 ≡ plane_width c 1) }
    ensures other { (IsChroma plane → ⊥) → result.1 ≡ 0 }
{
    let width = long / 2;
    match plane {
        1 => (0, width),
        2 => (width, long),
        _ => (0, 0),
    }
}

/// What is kept, if line y is one of those that are shared; else nothing.
pub(crate) fn kept_at<'a, W: LineWord>(y: u32, shared: u32, kept: &'a [W]) -> &'a [W]
    ensures yes { y < shared → result.now ≡ kept.now }
    ensures no { shared ≤ y → length result.now ≡ 0 }
{
    if y < shared {
        return kept;
    }
    &kept[..0]
}

/// Keeps the last line, if there is room for it.
pub(crate) fn keep<W: LineWord>(last: &[W], kept: &mut [W])
    requires { length kept.old ≤ length last.now }
    ensures { W.samples kept.new ≡ take (length kept.old) (W.samples last.now) }
{
    kept.copy_from_slice(&last[..kept.len()]);
}
