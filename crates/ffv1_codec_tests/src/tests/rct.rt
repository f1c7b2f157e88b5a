//! The colour transform: each call against a plain formula, at each place of lines of many lengths.

ghost use Rattle.std.specs.Prelude.{◌≡◌, ◌≤◌, length};

use ffv1_rct::{NoColour, forward_line, inverse_line, narrow_line};

/// Y of a colour.
fn luma(r: u8, g: u8, b: u8) -> i32 {
    let (r, g, b) = (i32::from(r), i32::from(g), i32::from(b));
    g.wrapping_add((b - g + (r - g)).div_euclid(4))
}

/// Cb of a colour by its blue, or Cr by its red.
fn chroma(v: u8, g: u8) -> i32 {
    i32::from(v) - i32::from(g) + 256
}

/// Red, green and blue of coded samples.
fn colour(y: u16, cb: u16, cr: u16) -> (i32, i32, i32) {
    let (blue, red) = (i32::from(cb) - 256, i32::from(cr) - 256);
    let g = i32::from(y).wrapping_sub((blue + red).div_euclid(4));
    (red.wrapping_add(g), g, blue.wrapping_add(g))
}

/// Whether a number lies from 0 to 255.
fn is_byte(v: i32) -> bool {
    (0..=255).contains(&v)
}

/// Whether coded samples have a colour.
fn has_colour(y: u16, cb: u16, cr: u16) -> bool {
    let (r, g, b) = colour(y, cb, cr);
    is_byte(r) && is_byte(g) && is_byte(b)
}

/// Y, Cb and Cr of a colour, as a line has them.
fn transformed(r: u8, g: u8, b: u8) -> (i32, i32, i32) {
    (luma(r, g, b), chroma(b, g), chroma(r, g))
}

/// Bytes with no order.
fn scatter(line: &mut [u8], seed: u32) {
    let mut state = seed;
    for v in line.iter_mut() {
        state = state.wrapping_mul(1664525).wrapping_add(1013904223);
        *v = (state >> 24) as u8;
    }
}

/// Whether the transform of these lines is the formula's at each place.
fn forward_agrees(
    r: &[u8],
    g: &[u8],
    b: &[u8],
    y: &mut [u16],
    cb: &mut [u16],
    cr: &mut [u16],
) -> bool
    requires g { length g.now ≡ length r.now }
    requires b { length b.now ≡ length r.now }
    requires y { length y.old ≡ length r.now }
    requires cb { length cb.old ≡ length r.now }
    requires cr { length cr.old ≡ length r.now }
{
    forward_line(r, g, b, y, cb, cr);
    for x in 0..r.len() {
        let line = (i32::from(y[x]), i32::from(cb[x]), i32::from(cr[x]));
        if line != transformed(r[x], g[x], b[x]) {
            return false;
        }
    }
    true
}

/// Whether the inverse fills lines of sevens by the formula up to the first place with no colour,
/// is refused there, and leaves the sevens from there on.
fn inverse_agrees(
    y: &[u16],
    cb: &[u16],
    cr: &[u16],
    r: &mut [u8],
    g: &mut [u8],
    b: &mut [u8],
) -> bool
    requires cb { length cb.now ≡ length y.now }
    requires cr { length cr.now ≡ length y.now }
    requires r { length r.old ≡ length y.now }
    requires g { length g.old ≡ length y.now }
    requires b { length b.old ≡ length y.now }
{
    r.fill(7);
    g.fill(7);
    b.fill(7);
    let result = inverse_line(y, cb, cr, r, g, b);
    let mut refused = None;
    for x in 0..y.len() {
        if refused.is_none() && !has_colour(y[x], cb[x], cr[x]) {
            refused = Some(NoColour { x });
        }
        let expected = match refused {
            None => colour(y[x], cb[x], cr[x]),
            Some(_) => (7, 7, 7),
        };
        if (i32::from(r[x]), i32::from(g[x]), i32::from(b[x])) != expected {
            return false;
        }
    }
    match refused {
        None => result == Ok(()),
        Some(colour) => result == Err(colour),
    }
}

/// The same of the narrowing.
fn narrow_agrees(a: &[u16], out: &mut [u8]) -> bool
    requires { length out.old ≡ length a.now }
{
    out.fill(7);
    let result = narrow_line(a, out);
    let mut refused = None;
    for x in 0..a.len() {
        if refused.is_none() && a[x] > 255 {
            refused = Some(NoColour { x });
        }
        let sample = match refused {
            None => a[x],
            Some(_) => 7,
        };
        if u16::from(out[x]) != sample {
            return false;
        }
    }
    match refused {
        None => result == Ok(()),
        Some(colour) => result == Err(colour),
    }
}

#[test]
fn example(rt: HostRuntime) {
    let (mut y, mut cb, mut cr) = ([0u16], [0u16], [0u16]);
    forward_line(&[0], &[255], &[0], &mut y, &mut cb, &mut cr);
    let (mut r, mut g, mut b) = ([7u8], [7u8], [7u8]);
    let inverse = inverse_line(&y, &cb, &cr, &mut r, &mut g, &mut b);
    let forward = (y, cb, cr) == ([127], [1], [1]);
    assert!(rt; (forward, inverse, r, g, b) == (true, Ok(()), [0], [255], [0]));
}

#[test]
fn worked_colours(rt: HostRuntime) {
    let (mut y, mut cb, mut cr) = ([0u16; 2], [0u16; 2], [0u16; 2]);
    forward_line(&[0, 255], &[255, 0], &[0, 0], &mut y, &mut cb, &mut cr);
    let (mut r, mut g, mut b) = ([7u8; 1], [7u8; 1], [7u8; 1]);
    let refused = inverse_line(&[511], &[256], &[256], &mut r, &mut g, &mut b);
    let forward = (y, cb, cr) == ([127, 63], [1, 256], [1, 511]);
    let none = Err(NoColour { x: 0 });
    assert!(rt; (forward, refused, r, g, b) == (true, none, [7], [7], [7]));
}

/// Whether lines of bytes with no order are transformed, transformed back and narrowed by the
/// formulas.
fn lines_agree(
    r: &mut [u8],
    g: &mut [u8],
    b: &mut [u8],
    y: &mut [u16],
    cb: &mut [u16],
    cr: &mut [u16],
) -> (bool, bool, bool)
    requires g { length g.old ≡ length r.old }
    requires b { length b.old ≡ length r.old }
    requires y { length y.old ≡ length r.old }
    requires cb { length cb.old ≡ length r.old }
    requires cr { length cr.old ≡ length r.old }
{
    scatter(r, 1);
    scatter(g, 2);
    scatter(b, 3);
    let forward = forward_agrees(r, g, b, y, cb, cr);
    // Other bytes, so that what comes back is seen to be written.
    scatter(r, 4);
    scatter(g, 5);
    scatter(b, 6);
    let inverse = inverse_agrees(y, cb, cr, r, g, b);
    (forward, inverse, narrow_agrees(y, r))
}

/// The same of so many places.
fn places_agree(n: usize) -> (bool, bool, bool)
    requires { n ≤ 8192 }
{
    let (mut r, mut g, mut b) = ([0u8; 8192], [0u8; 8192], [0u8; 8192]);
    let (mut y, mut cb, mut cr) = ([0u16; 8192], [0u16; 8192], [0u16; 8192]);
    lines_agree(
        &mut r[..n],
        &mut g[..n],
        &mut b[..n],
        &mut y[..n],
        &mut cb[..n],
        &mut cr[..n],
    )
}

#[test]
fn lines_of_many_lengths(rt: HostRuntime) {
    for k in 0..72usize {
        let n = if k < 71 { k } else { 8192 };
        assert!(rt; places_agree(n) == (true, true, true), "{n} places");
    }
}

/// Whether a line of 70 places of which some have no colour is refused at the first of them.
fn refused_at(first: usize, second: usize, y: u16, cb: u16, cr: u16) -> bool
    requires first { first ≤ 69 }
    requires second { second ≤ 69 }
{
    let (mut lumas, mut blues, mut reds) = ([127u16; 70], [1u16; 70], [1u16; 70]);
    for x in [first, second] {
        lumas[x] = y;
        blues[x] = cb;
        reds[x] = cr;
    }
    let (mut r, mut g, mut b) = ([0u8; 70], [0u8; 70], [0u8; 70]);
    inverse_agrees(&lumas, &blues, &reds, &mut r, &mut g, &mut b)
        && narrow_agrees(&reds, &mut r)
        && narrow_agrees(&lumas, &mut r)
}

/// Whether each of four places with no colour is refused there.
fn each_is_refused_at(x: usize) -> [bool; 4]
    requires { x ≤ 69 }
{
    [
        refused_at(x, 69, 65535, 65535, 65535),
        refused_at(x, 69, 65535, 1, 1),
        refused_at(x, 69, 127, 65535, 1),
        refused_at(x, 69, 127, 1, 65535),
    ]
}

#[test]
fn refused_places(rt: HostRuntime) {
    assert!(rt; refused_at(3, 40, 511, 256, 256));
    assert!(rt; refused_at(69, 69, 511, 256, 256));
    for x in 0..70usize {
        assert!(rt; each_is_refused_at(x) == [true; 4], "{x}");
    }
}

#[test]
fn first_of_two_refused_places(rt: HostRuntime) {
    let (mut r, mut g, mut b) = ([7u8; 70], [7u8; 70], [7u8; 70]);
    let mut y = [127u16; 70];
    y[3] = 511;
    y[40] = 511;
    let refused = inverse_line(&y, &[1; 70], &[1; 70], &mut r, &mut g, &mut b);
    let first = Err(NoColour { x: 3 });
    assert!(rt; (refused, narrow_line(&y, &mut r)) == (first, first));
}
