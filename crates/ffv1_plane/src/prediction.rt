//! The samples around a sample, and the prediction from them.

ghost use Rattle.std.specs.Prelude.{◌≡◌, ◌≤◌, min, max};
ghost use Rattle.ffv1_plane.specs.declared.prediction.Around.{Around};
ghost use Rattle.ffv1_plane.specs.Prediction.{predicted, predicted_signed};

/// The samples around a sample, as RFC 9043, 3.1 and 3.2 names them: left, top, top left, top
/// right, two to the left and two above.
#[derive(Clone, Copy, Debug, PartialEq, Eq)]
pub struct Around {
    /// To the left.
    pub l: u16,
    /// Above.
    pub t: u16,
    /// Above, to the left.
    pub tl: u16,
    /// Above, to the right.
    pub tr: u16,
    /// Two to the left (`L` of the standard).
    pub ll: u16,
    /// Two above (`T` of the standard).
    pub tt: u16,
}

/// The prediction of a sample: the median of `l`, `t` and `l + t - tl` (RFC 9043, 3.3), from 0 to
/// 65535.
#[inline(always)]
pub fn predict(around: &Around) -> i32
    ensures { result ≡ predicted around.now }
{
    let least = around.l.min(around.t);
    let most = around.l.max(around.t);
    (most - (around.tl.max(least).min(most) - least)) as i32
}

/// The same by the lesser and the greater one of the samples above and above to the left: the
/// sample to the left, brought between them, is left out of the sum of those to the left and above.
#[inline(always)]
pub fn predict_late(l: u16, t: u16, least: u16, most: u16) -> i32
    requires { least ≤ t }
    ensures { (a : Around) → a.l ≡ l → a.t ≡ t → least ≡ min a.tl a.t → most ≡ max a.tl a.t →
        result ≡ predicted a }
{
    (u32::from(l) + u32::from(t) - u32::from(l.max(least).min(most))) as i32
}

/// The prediction of a sample among samples of 16 bits, which are read as signed numbers: the
/// median of `l`, `t` and `l + t - tl` if a sample from 32768 on stands for itself less 65536
/// (RFC 9043, 3.3), from -32768 to 32767.
#[inline(always)]
pub fn predict_signed(around: &Around) -> i32
    ensures { result ≡ predicted_signed around.now }
{
    let raised = Around {
        l: around.l.wrapping_add(32768),
        t: around.t.wrapping_add(32768),
        tl: around.tl.wrapping_add(32768),
        ..*around
    };
    predict(&raised) - 32768
}
