//! Lines of samples of more than 8 bits, in words of 16 bits.

ghost use Rattle.std.specs.Prelude.{◌≡◌, ℕ, ◌+◌, ◌*◌, ◌/◌, ◌%◌, ◌^◌, ◌≤◌, ◌<◌, ◌↔◌, length};
ghost use Rattle.std.specs.Prelude.{slice_index};
ghost use Rattle.std.specs.Prelude.{slice_set, OnOk, IfErr, IsErr, IfSome, IsNone};
ghost use Rattle.ffv1_samples.specs.Samples.{samples_of, bytes_of};
ghost use Rattle.ffv1_rct.specs.Transform.{IsCodedIn, HasColourIn, IsOnlyColourIn};
ghost use Rattle.ffv1_rct.specs.Lines.{AreCodedIn, HasColourAtIn, AreOnlyColoursIn, IsKeptFrom};

use crate::fault::NoColour;

/// Y, Cb and Cr of a line as they were read, of one length, and the bits of the samples that they
/// are the transform of.
#[derive(Drop)]
pub struct CodedWords<'a> {
    /// Y at each place.
    pub y: &'a [u16],
    /// Cb at each place.
    pub cb: &'a [u16],
    /// Cr at each place.
    pub cr: &'a [u16],
    /// The bits of a sample of red, green and blue.
    pub depth: u8,
}

/// The transform of a sample of colours below `top`, a power of 2.
#[inline(always)]
fn coded_word(r: u16, g: u16, b: u16, top: u32) -> (u16, u16, u16)
    requires few { top ≤ 32768 }
    requires r { r < top }
    requires g { g < top }
    requires b { b < top }
    ensures { (depth : ℕ) → top ≡ 2 ^ depth → IsCodedIn depth r g b result.0 result.1 result.2 }
{
    let red = r as u32;
    let green = g as u32;
    let blue = b as u32;
    (
        ((red + 2 * green + blue) / 4) as u16,
        (blue + top - green) as u16,
        (red + top - green) as u16,
    )
}

/// The transform of a line of samples of `depth` bits in place (RFC 9043, 3.7.2), from red, green
/// and blue to Y, Cb and Cr: `Y = g + floor((b - g + r - g) / 4)`, `Cb = b - g + 2^depth` and `Cr =
/// r - g + 2^depth`, so that Y is below `2^depth`, and Cb and Cr below `2^(depth+1)`. `depth` is at
/// most 15, each sample is below `2^depth`, and the three lines have one length, any.
///
/// At 9 to 15 bits without transparency green and blue change places: then the second line is given
/// blue and the third green, and Y, Cb and Cr come out if they do here.
pub fn forward_words(first: &mut [u16], second: &mut [u16], third: &mut [u16], depth: u8)
    requires depth { depth ≤ 15 }
    requires second { length second.old ≡ length first.old }
    requires third { length third.old ≡ length first.old }
    requires red { (x : ℕ) → slice_index first.old x < 2 ^ depth }
    requires green { (x : ℕ) → slice_index second.old x < 2 ^ depth }
    requires blue { (x : ℕ) → slice_index third.old x < 2 ^ depth }
    ensures { AreCodedIn depth (length first.old) first.old second.old third.old first.new
        second.new third.new }
{
    let top = 1u32 << depth;
    for x in 0..first.len() {
        let (luma, blue, red) = coded_word(first[x], second[x], third[x], top);
        first[x] = luma;
        second[x] = blue;
        third[x] = red;
    }
}

/// The colour of a sample, with colours below `2 * half`, a power of 2, or `None` if it has
/// none. Differences are taken modulo 2^32: if red, green and blue come out below `2 * half`,
/// nothing was cut.
#[inline(always)]
fn colour_word(y: u16, cb: u16, cr: u16, half: u32) -> Option<(u16, u16, u16)>
    requires some { 0 < half }
    requires few { half ≤ 16384 }
    ensures some { (depth : ℕ) → 2 * half ≡ 2 ^ depth →
        IfSome result (λ p. IsOnlyColourIn depth y cb cr p.0 p.1 p.2) }
    ensures none { (depth : ℕ) → 2 * half ≡ 2 ^ depth → IsNone result →
        HasColourIn depth y cb cr → ⊥ }
{
    let top = 2 * half;
    let above_blue = cb as u32;
    let above_red = cr as u32;
    let green = (y as u32 + half).wrapping_sub((above_blue + above_red) / 4);
    let red = above_red.wrapping_add(green).wrapping_sub(top);
    let blue = above_blue.wrapping_add(green).wrapping_sub(top);
    if red >= top || green >= top || blue >= top {
        return None;
    }
    Some((red as u16, green as u16, blue as u16))
}

/// A word of a line of two bytes a sample, the low byte first.
#[inline(always)]
pub(crate) fn put_word(line: &mut [u8], x: usize, word: u16)
    requires { 2 * x + 1 < length line.old }
    ensures { line.new ≡
        slice_set (slice_set line.old (2 * x) (word % 256)) (2 * x + 1) (word / 256) }
{
    line[2 * x] = (word % 256) as u8;
    line[2 * x + 1] = (word / 256) as u8;
}

/// The inverse of the transform of a line of samples of `depth` bits (RFC 9043, 3.7.2), for any
/// values of Y, Cb and Cr: at each place the only red, green and blue whose transform the place is,
/// each as two bytes, the low byte first. `depth` lies from 9 to 15; Y, Cb and Cr have one length,
/// any, and each line of bytes has twice that.
///
/// Refuses exactly if a sample has no red, green and blue below `2^depth`, with the first such
/// place `x`: the places before `x` are filled then, `x` and all after it are as before.
///
/// At 9 to 15 bits without transparency green and blue change places: then `g` takes blue, and `b`
/// green.
pub fn inverse_words(
    coded: &CodedWords<'_>,
    r: &mut [u8],
    g: &mut [u8],
    b: &mut [u8],
) -> Result<(), NoColour>
    requires deep { 8 < coded.now.depth }
    requires few { coded.now.depth ≤ 15 }
    requires cb { length coded.now.cb.now ≡ length coded.now.y.now }
    requires cr { length coded.now.cr.now ≡ length coded.now.y.now }
    requires r { length r.old ≡ 2 * length coded.now.y.now }
    requires g { length g.old ≡ 2 * length coded.now.y.now }
    requires b { length b.old ≡ 2 * length coded.now.y.now }
    ensures exact { IsErr result ↔ ((x : ℕ) × (x < length coded.now.y.now)
        × (HasColourAtIn coded.now.depth coded.now.y.now coded.now.cb.now coded.now.cr.now x
        → ⊥)) }
    ensures ok { OnOk result (AreOnlyColoursIn coded.now.depth (length coded.now.y.now)
        coded.now.y.now coded.now.cb.now coded.now.cr.now (samples_of coded.now.depth r.new)
        (samples_of coded.now.depth g.new) (samples_of coded.now.depth b.new)) }
    ensures inside { IfErr result (λ c. c.x < length coded.now.y.now) }
    ensures none { IfErr result (λ c. HasColourAtIn coded.now.depth coded.now.y.now
        coded.now.cb.now coded.now.cr.now c.x → ⊥) }
    ensures filled { IfErr result (λ c. AreOnlyColoursIn coded.now.depth c.x coded.now.y.now
        coded.now.cb.now coded.now.cr.now (samples_of coded.now.depth r.new)
        (samples_of coded.now.depth g.new) (samples_of coded.now.depth b.new)) }
    ensures red { IfErr result (λ c. IsKeptFrom (2 * c.x) r.old r.new) }
    ensures green { IfErr result (λ c. IsKeptFrom (2 * c.x) g.old g.new) }
    ensures blue { IfErr result (λ c. IsKeptFrom (2 * c.x) b.old b.new) }
{
    let CodedWords { y, cb, cr, depth } = *coded;
    let half = 1u32 << (depth - 1);
    for x in 0..y.len() {
        let Some((red, green, blue)) = colour_word(y[x], cb[x], cr[x], half) else {
            return Err(NoColour { x });
        };
        put_word(r, x, red);
        put_word(g, x, green);
        put_word(b, x, blue);
    }
    Ok(())
}

/// The samples of a coded line, any, unchanged: each as two bytes, the low byte first. `depth` lies
/// from 9 to 16, and `out` has twice the length of `a`, any.
///
/// Refuses exactly if a sample lies at `2^depth` or above, with the first such place `x`: the
/// places before `x` are filled then, `x` and all after it are as before.
pub fn narrow_words(a: &[u16], out: &mut [u8], depth: u8) -> Result<(), NoColour>
    requires deep { 8 < depth }
    requires few { depth ≤ 16 }
    requires out { length out.old ≡ 2 * length a.now }
    ensures exact { IsErr result ↔ ((x : ℕ) × (x < length a.now)
        × (2 ^ depth ≤ slice_index a.now x)) }
    ensures ok { OnOk result (out.new ≡ bytes_of depth a.now) }
    ensures inside { IfErr result (λ c. c.x < length a.now) }
    ensures above { IfErr result (λ c. 2 ^ depth ≤ slice_index a.now c.x) }
    ensures before { IfErr result (λ c. (x : ℕ) → x < c.x → slice_index a.now x < 2 ^ depth) }
    ensures filled { IfErr result (λ c. (k : ℕ) → k < 2 * c.x →
        slice_index out.new k ≡ slice_index (bytes_of depth a.now) k) }
    ensures kept { IfErr result (λ c. IsKeptFrom (2 * c.x) out.old out.new) }
{
    let top = 1u32 << depth;
    for x in 0..a.len() {
        if a[x] as u32 >= top {
            return Err(NoColour { x });
        }
        put_word(out, x, a[x]);
    }
    Ok(())
}
