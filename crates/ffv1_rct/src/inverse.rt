//! From Y, Cb and Cr back to red, green and blue.

ghost use Rattle.std.specs.Prelude.{◌≡◌, ℕ, ◌≤◌, ◌<◌, ◌↔◌, length, OnOk, IfErr, IsErr, IfSome};
ghost use Rattle.std.specs.Prelude.{IsNone, IsTrue, IsFalse, ◌+◌};
ghost use Rattle.ffv1_rct.specs.Transform.{HasColour, IsOnlyColour};
ghost use Rattle.ffv1_rct.specs.Lines.{AreOnlyColours, HasColourAt, IsKeptFrom};

use crate::fault::NoColour;
use crate::ranges::are_words;
use std::simd::prelude::*;

/// A line of Y, Cb and Cr, of one length.
#[derive(Clone, Copy)]
struct YcbcrLine<'a> {
    y: &'a [u16],
    cb: &'a [u16],
    cr: &'a [u16],
}

/// The colour of a sample, or `None` if it has none. Sums and differences are taken modulo
/// 65536, as lanes take them: if red, green and blue come out from 0 to 255, then Cb and Cr are
/// below 512, and nothing was cut.
#[inline(always)]
fn colour_of(y: u16, cb: u16, cr: u16) -> Option<(u8, u8, u8)>
    ensures some { IfSome result (λ p. IsOnlyColour y cb cr p.0 p.1 p.2) }
    ensures none { IsNone result → HasColour y cb cr → ⊥ }
{
    let green = y.wrapping_add(128).wrapping_sub(cb.wrapping_add(cr) / 4);
    let red = cr.wrapping_add(green).wrapping_sub(256);
    let blue = cb.wrapping_add(green).wrapping_sub(256);
    if red > 255 || green > 255 || blue > 255 {
        return None;
    }
    Some((red as u8, green as u8, blue as u8))
}

/// The colours of 16 places from `at` on, or `false` and nothing done if not each of them has
/// one. The numbers are those of `colour_of`: all of them lie from 0 to 255 if no bit above the
/// lowest eight is set in any.
#[inline(always)]
fn inverse_block(at: usize, line: &YcbcrLine<'_>, r: &mut [u8], g: &mut [u8], b: &mut [u8]) -> bool
    requires at { at + 16 ≤ length line.now.y.now }
    requires cb { length line.now.cb.now ≡ length line.now.y.now }
    requires cr { length line.now.cr.now ≡ length line.now.y.now }
    requires r { length r.old ≡ length line.now.y.now }
    requires g { length g.old ≡ length line.now.y.now }
    requires b { length b.old ≡ length line.now.y.now }
    requires done { AreOnlyColours at line.now.y.now line.now.cb.now line.now.cr.now r.old g.old
        b.old }
    ensures all { IsTrue result → AreOnlyColours (at + 16) line.now.y.now line.now.cb.now
        line.now.cr.now r.new g.new b.new }
    ensures red { IsTrue result → IsKeptFrom (at + 16) r.old r.new }
    ensures green { IsTrue result → IsKeptFrom (at + 16) g.old g.new }
    ensures blue { IsTrue result → IsKeptFrom (at + 16) b.old b.new }
    ensures none { IsFalse result → (r.new ≡ r.old) × (g.new ≡ g.old) × (b.new ≡ b.old) }
{
    let YcbcrLine { y, cb, cr } = *line;
    are_words(y);
    are_words(cb);
    are_words(cr);
    let luma = u16x16::from_slice(&y[at..]);
    let above_blue = u16x16::from_slice(&cb[at..]);
    let above_red = u16x16::from_slice(&cr[at..]);
    let green = luma + u16x16::splat(128) - ((above_blue + above_red) >> 2);
    let low = green - u16x16::splat(256);
    let red = above_red + low;
    let blue = above_blue + low;
    let bits = red | green | blue;
    if bits.simd_gt(u16x16::splat(255)).to_bitmask() != 0 {
        return false;
    }
    red.cast::<u8>().copy_to_slice(&mut r[at..]);
    green.cast::<u8>().copy_to_slice(&mut g[at..]);
    blue.cast::<u8>().copy_to_slice(&mut b[at..]);
    true
}

/// The colour of each place from `at` on, up to the first that has none.
fn inverse_rest(
    at: usize,
    line: &YcbcrLine<'_>,
    r: &mut [u8],
    g: &mut [u8],
    b: &mut [u8],
) -> Result<(), NoColour>
    requires at { at ≤ length line.now.y.now }
    requires cb { length line.now.cb.now ≡ length line.now.y.now }
    requires cr { length line.now.cr.now ≡ length line.now.y.now }
    requires r { length r.old ≡ length line.now.y.now }
    requires g { length g.old ≡ length line.now.y.now }
    requires b { length b.old ≡ length line.now.y.now }
    requires done { AreOnlyColours at line.now.y.now line.now.cb.now line.now.cr.now r.old g.old
        b.old }
    ensures ok { OnOk result (AreOnlyColours (length line.now.y.now) line.now.y.now
        line.now.cb.now line.now.cr.now r.new g.new b.new) }
    ensures behind { IfErr result (λ c. at ≤ c.x) }
    ensures inside { IfErr result (λ c. c.x < length line.now.y.now) }
    ensures none { IfErr result (λ c. HasColourAt line.now.y.now line.now.cb.now line.now.cr.now
        c.x → ⊥) }
    ensures filled { IfErr result (λ c. AreOnlyColours c.x line.now.y.now line.now.cb.now
        line.now.cr.now r.new g.new b.new) }
    ensures red { IfErr result (λ c. IsKeptFrom c.x r.old r.new) }
    ensures green { IfErr result (λ c. IsKeptFrom c.x g.old g.new) }
    ensures blue { IfErr result (λ c. IsKeptFrom c.x b.old b.new) }
{
    let YcbcrLine { y, cb, cr } = *line;
    for x in at..y.len() {
        let Some((red, green, blue)) = colour_of(y[x], cb[x], cr[x]) else {
            return Err(NoColour { x });
        };
        r[x] = red;
        g[x] = green;
        b[x] = blue;
    }
    Ok(())
}

/// The inverse of the transform of a line (RFC 9043, 3.7.2), for any values of Y, Cb and Cr: at
/// each place the only red, green and blue whose transform the place is. The six lines have one
/// length, any.
///
/// Refuses exactly if a sample has no red, green and blue from 0 to 255, with the first such
/// place `x`: the places before `x` are filled then, `x` and all after it are as before.
pub fn inverse_line(
    y: &[u16],
    cb: &[u16],
    cr: &[u16],
    r: &mut [u8],
    g: &mut [u8],
    b: &mut [u8],
) -> Result<(), NoColour>
    requires cb { length cb.now ≡ length y.now }
    requires cr { length cr.now ≡ length y.now }
    requires r { length r.old ≡ length y.now }
    requires g { length g.old ≡ length y.now }
    requires b { length b.old ≡ length y.now }
    ensures exact { IsErr result ↔ ((x : ℕ) × (x < length y.now)
        × (HasColourAt y.now cb.now cr.now x → ⊥)) }
    ensures ok { OnOk result (AreOnlyColours (length y.now) y.now cb.now cr.now r.new g.new b.new) }
    ensures inside { IfErr result (λ c. c.x < length y.now) }
    ensures none { IfErr result (λ c. HasColourAt y.now cb.now cr.now c.x → ⊥) }
    ensures filled { IfErr result (λ c. AreOnlyColours c.x y.now cb.now cr.now r.new g.new b.new) }
    ensures red { IfErr result (λ c. IsKeptFrom c.x r.old r.new) }
    ensures green { IfErr result (λ c. IsKeptFrom c.x g.old g.new) }
    ensures blue { IfErr result (λ c. IsKeptFrom c.x b.old b.new) }
{
    let line = YcbcrLine { y, cb, cr };
    let mut at = 0;
    while y.len() - at >= 16 && inverse_block(at, &line, r, g, b) {
        at += 16;
    }
    inverse_rest(at, &line, r, g, b)?;
    Ok(())
}
