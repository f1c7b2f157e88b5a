//! Lines of samples of 16 bits, whose differences have 17 bits, in words of 32 bits.

ghost use Rattle.std.specs.Prelude.{◌≡◌, ℕ, ◌*◌, ◌^◌, ◌≤◌, ◌<◌, ◌↔◌, length, slice_index};
ghost use Rattle.std.specs.Prelude.{OnOk, IfErr, IsErr, IfSome, IsNone};
ghost use Rattle.ffv1_samples.specs.Samples.{samples_of, bytes_of};
ghost use Rattle.ffv1_rct.specs.Transform.{IsCodedIn, HasColourIn, IsOnlyColourIn};
ghost use Rattle.ffv1_rct.specs.Lines.{AreCodedIn, HasColourAtIn, AreOnlyColoursIn, IsKeptFrom};

use crate::fault::NoColour;
use crate::words::put_word;

/// Y, Cb and Cr of a line of samples of 16 bits as they were read, of one length.
#[derive(Drop)]
pub struct CodedWide<'a> {
    /// Y at each place.
    pub y: &'a [u32],
    /// Cb at each place.
    pub cb: &'a [u32],
    /// Cr at each place.
    pub cr: &'a [u32],
}

/// The transform of a sample of colours below `top`, a power of 2.
#[inline(always)]
fn coded_wide(r: u32, g: u32, b: u32, top: u32) -> (u32, u32, u32)
    requires few { top ≤ 65536 }
    requires r { r < top }
    requires g { g < top }
    requires b { b < top }
    ensures { (depth : ℕ) → top ≡ 2 ^ depth → IsCodedIn depth r g b result.0 result.1 result.2 }
{
    ((r + 2 * g + b) / 4, b + top - g, r + top - g)
}

/// The transform of a line of samples of 16 bits in place (RFC 9043, 3.7.2), as `forward_words` has
/// it for fewer: Y is below 2^16, and Cb and Cr below 2^17. Each sample is below 2^16, and the
/// three lines have one length, any.
pub fn forward_wide(first: &mut [u32], second: &mut [u32], third: &mut [u32])
    requires second { length second.old ≡ length first.old }
    requires third { length third.old ≡ length first.old }
    requires red { (x : ℕ) → slice_index first.old x < 2 ^ 16 }
    requires green { (x : ℕ) → slice_index second.old x < 2 ^ 16 }
    requires blue { (x : ℕ) → slice_index third.old x < 2 ^ 16 }
    ensures { AreCodedIn 16 (length first.old) first.old second.old third.old first.new second.new
        third.new }
{
    for x in 0..first.len() {
        let (luma, blue, red) = coded_wide(first[x], second[x], third[x], 65536);
        first[x] = luma;
        second[x] = blue;
        third[x] = red;
    }
}

/// The colour of a sample, with colours below `2 * half`, a power of 2, or `None` if it has
/// none. Differences are taken modulo 2^32: if red, green and blue come out below `2 * half`,
/// nothing was cut.
#[inline(always)]
fn colour_wide(y: u32, cb: u32, cr: u32, half: u32) -> Option<(u16, u16, u16)>
    requires some { 0 < half }
    requires few { half ≤ 32768 }
    ensures some { (depth : ℕ) → 2 * half ≡ 2 ^ depth →
        IfSome result (λ p. IsOnlyColourIn depth y cb cr p.0 p.1 p.2) }
    ensures none { (depth : ℕ) → 2 * half ≡ 2 ^ depth → IsNone result →
        HasColourIn depth y cb cr → ⊥ }
{
    let top = 2 * half;
    if y >= top || cb >= 2 * top || cr >= 2 * top {
        return None;
    }
    let green = (y + half).wrapping_sub((cb + cr) / 4);
    let red = cr.wrapping_add(green).wrapping_sub(top);
    let blue = cb.wrapping_add(green).wrapping_sub(top);
    if red >= top || green >= top || blue >= top {
        return None;
    }
    Some((red as u16, green as u16, blue as u16))
}

/// The inverse of the transform of a line of samples of 16 bits (RFC 9043, 3.7.2), as
/// `inverse_words` has it for fewer, for any values of Y, Cb and Cr.
///
/// Refuses exactly if a sample has no red, green and blue below 2^16, with the first such place
/// `x`: the places before `x` are filled then, `x` and all after it are as before.
pub fn inverse_wide(
    coded: &CodedWide<'_>,
    r: &mut [u8],
    g: &mut [u8],
    b: &mut [u8],
) -> Result<(), NoColour>
    requires cb { length coded.now.cb.now ≡ length coded.now.y.now }
    requires cr { length coded.now.cr.now ≡ length coded.now.y.now }
    requires r { length r.old ≡ 2 * length coded.now.y.now }
    requires g { length g.old ≡ 2 * length coded.now.y.now }
    requires b { length b.old ≡ 2 * length coded.now.y.now }
    ensures exact { IsErr result ↔ ((x : ℕ) × (x < length coded.now.y.now)
        × (HasColourAtIn 16 coded.now.y.now coded.now.cb.now coded.now.cr.now x
        → ⊥)) }
    ensures ok { OnOk result (AreOnlyColoursIn 16 (length coded.now.y.now)
        coded.now.y.now coded.now.cb.now coded.now.cr.now (samples_of 16 r.new)
        (samples_of 16 g.new) (samples_of 16 b.new)) }
    ensures inside { IfErr result (λ c. c.x < length coded.now.y.now) }
    ensures none { IfErr result (λ c. HasColourAtIn 16 coded.now.y.now
        coded.now.cb.now coded.now.cr.now c.x → ⊥) }
    ensures filled { IfErr result (λ c. AreOnlyColoursIn 16 c.x coded.now.y.now
        coded.now.cb.now coded.now.cr.now (samples_of 16 r.new)
        (samples_of 16 g.new) (samples_of 16 b.new)) }
    ensures red { IfErr result (λ c. IsKeptFrom (2 * c.x) r.old r.new) }
    ensures green { IfErr result (λ c. IsKeptFrom (2 * c.x) g.old g.new) }
    ensures blue { IfErr result (λ c. IsKeptFrom (2 * c.x) b.old b.new) }
{
    let CodedWide { y, cb, cr } = *coded;
    for x in 0..y.len() {
        let Some((red, green, blue)) = colour_wide(y[x], cb[x], cr[x], 32768) else {
            return Err(NoColour { x });
        };
        put_word(r, x, red);
        put_word(g, x, green);
        put_word(b, x, blue);
    }
    Ok(())
}

/// The samples of a coded line, any, unchanged: each as two bytes, the low byte first. `out` has
/// twice the length of `a`, any.
///
/// Refuses exactly if a sample lies at 2^16 or above, with the first such place `x`: the places
/// before `x` are filled then, `x` and all after it are as before.
pub fn narrow_wide(a: &[u32], out: &mut [u8]) -> Result<(), NoColour>
    requires out { length out.old ≡ 2 * length a.now }
    ensures exact { IsErr result ↔ ((x : ℕ) × (x < length a.now) × (2 ^ 16 ≤ slice_index a.now x)) }
    ensures ok { OnOk result (out.new ≡ bytes_of 16 a.now) }
    ensures inside { IfErr result (λ c. c.x < length a.now) }
    ensures above { IfErr result (λ c. 2 ^ 16 ≤ slice_index a.now c.x) }
    ensures before { IfErr result (λ c. (x : ℕ) → x < c.x → slice_index a.now x < 2 ^ 16) }
    ensures filled { IfErr result (λ c. (k : ℕ) → k < 2 * c.x →
        slice_index out.new k ≡ slice_index (bytes_of 16 a.now) k) }
    ensures kept { IfErr result (λ c. IsKeptFrom (2 * c.x) out.old out.new) }
{
    for x in 0..a.len() {
        if a[x] >= 65536 {
            return Err(NoColour { x });
        }
        put_word(out, x, a[x] as u16);
    }
    Ok(())
}
