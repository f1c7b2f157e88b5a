//! From red, green and blue to Y, Cb and Cr.

ghost use Rattle.std.specs.Prelude.{◌≡◌, ◌≤◌, ◌+◌, length};
ghost use Rattle.ffv1_rct.specs.Transform.{IsCoded};
ghost use Rattle.ffv1_rct.specs.Lines.{AreCoded};

use crate::ranges::are_bytes;
use std::simd::prelude::*;

/// A line of red, green and blue, of one length.
#[derive(Clone, Copy)]
struct RgbLine<'a> {
    r: &'a [u8],
    g: &'a [u8],
    b: &'a [u8],
}

/// The transform of a sample. Y is `floor((r + 2 g + b) / 4)`, which is `g + floor((b - g + r - g)
/// / 4)`.
#[inline(always)]
fn coded_of(r: u8, g: u8, b: u8) -> (u16, u16, u16)
    ensures { IsCoded r g b result.0 result.1 result.2 }
{
    let red = u16::from(r);
    let green = u16::from(g);
    let blue = u16::from(b);
    (
        (red + 2 * green + blue) / 4,
        blue + 256 - green,
        red + 256 - green,
    )
}

/// The transform of 16 places from `at` on.
#[inline(always)]
fn forward_block(at: usize, line: &RgbLine<'_>, y: &mut [u16], cb: &mut [u16], cr: &mut [u16])
    requires at { at + 16 ≤ length line.now.r.now }
    requires g { length line.now.g.now ≡ length line.now.r.now }
    requires b { length line.now.b.now ≡ length line.now.r.now }
    requires y { length y.old ≡ length line.now.r.now }
    requires cb { length cb.old ≡ length line.now.r.now }
    requires cr { length cr.old ≡ length line.now.r.now }
    requires done { AreCoded at line.now.r.now line.now.g.now line.now.b.now y.old cb.old cr.old }
    ensures { AreCoded (at + 16) line.now.r.now line.now.g.now line.now.b.now y.new cb.new cr.new }
{
    let RgbLine { r, g, b } = *line;
    are_bytes(r);
    are_bytes(g);
    are_bytes(b);
    let red = u8x16::from_slice(&r[at..]).cast::<u16>();
    let green = u8x16::from_slice(&g[at..]).cast::<u16>();
    let blue = u8x16::from_slice(&b[at..]).cast::<u16>();
    let sum = red + (green + green) + blue;
    (sum >> 2).copy_to_slice(&mut y[at..]);
    let raised = u16x16::splat(256) - green;
    (blue + raised).copy_to_slice(&mut cb[at..]);
    (red + raised).copy_to_slice(&mut cr[at..]);
}

/// The transform of each place from `at` on.
fn forward_rest(at: usize, line: &RgbLine<'_>, y: &mut [u16], cb: &mut [u16], cr: &mut [u16])
    requires at { at ≤ length line.now.r.now }
    requires g { length line.now.g.now ≡ length line.now.r.now }
    requires b { length line.now.b.now ≡ length line.now.r.now }
    requires y { length y.old ≡ length line.now.r.now }
    requires cb { length cb.old ≡ length line.now.r.now }
    requires cr { length cr.old ≡ length line.now.r.now }
    requires done { AreCoded at line.now.r.now line.now.g.now line.now.b.now y.old cb.old cr.old }
    ensures { AreCoded (length line.now.r.now) line.now.r.now line.now.g.now line.now.b.now y.new
        cb.new cr.new }
{
    let RgbLine { r, g, b } = *line;
    for x in at..r.len() {
        let (luma, blue, red) = coded_of(r[x], g[x], b[x]);
        y[x] = luma;
        cb[x] = blue;
        cr[x] = red;
    }
}

/// The transform of a line (RFC 9043, 3.7.2), place by place: `Y = g + floor((b - g + r - g) / 4)`,
/// `Cb = b - g + 256` and `Cr = r - g + 256`, so that Y lies from 0 to 255, and Cb and Cr from 1 to
/// 511. The six lines have one length, any.
pub fn forward_line(r: &[u8], g: &[u8], b: &[u8], y: &mut [u16], cb: &mut [u16], cr: &mut [u16])
    requires g { length g.now ≡ length r.now }
    requires b { length b.now ≡ length r.now }
    requires y { length y.old ≡ length r.now }
    requires cb { length cb.old ≡ length r.now }
    requires cr { length cr.old ≡ length r.now }
    ensures { AreCoded (length r.now) r.now g.now b.now y.new cb.new cr.new }
{
    let line = RgbLine { r, g, b };
    let mut at = 0;
    while r.len() - at >= 16 {
        forward_block(at, &line, y, cb, cr);
        at += 16;
    }
    forward_rest(at, &line, y, cb, cr);
}
