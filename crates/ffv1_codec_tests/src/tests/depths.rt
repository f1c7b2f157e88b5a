//! Samples of more than 8 bits, by values that were worked out by hand or coded by FFmpeg.

ghost use Rattle.std.specs.Prelude.{◌<◌, ◌≤◌};

use crate::tests::plane::around_of;
use ffv1_plane::{predict, predict_signed, residual_of_bits, sample_of_bits};
use ffv1_rct::{CodedWords, NoColour, forward_words, inverse_words, narrow_words};
use ffv1_samples::{are_in_depth, sample_bytes};

/// Depth, red, green and blue, as they are given to the transform; Y, Cb and Cr.
static COLOURS: [(u8, [u16; 3], [u16; 3]); 6] = [
    (10, [1023, 0, 0], [255, 1024, 2047]),
    (10, [0, 0, 1023], [255, 2047, 1024]),
    (10, [0, 1023, 0], [511, 1, 1]),
    (12, [4095, 0, 0], [1023, 4096, 8191]),
    (14, [16383, 0, 0], [4095, 16384, 32767]),
    (10, [1023, 1023, 1023], [1023, 1024, 1024]),
];

/// Whether a colour is transformed so.
fn is_transformed(depth: u8, colour: [u16; 3], coded: [u16; 3]) -> bool
    requires { (8 < depth) × (depth ≤ 15) }
{
    let top = 1u16 << depth;
    let [r, g, b] = colour;
    if r >= top || g >= top || b >= top {
        return false;
    }
    let (mut first, mut second, mut third) = ([r], [g], [b]);
    forward_words(&mut first, &mut second, &mut third, depth);
    [first[0], second[0], third[0]] == coded
}

/// The colour of coded samples, or that they have none.
fn colour_of(depth: u8, coded: [u16; 3]) -> Result<[u16; 3], NoColour>
    requires { (8 < depth) × (depth ≤ 15) }
{
    let [y, cb, cr] = coded;
    let (y, cb, cr) = ([y], [cb], [cr]);
    let (mut r, mut g, mut b) = ([0u8; 2], [0u8; 2], [0u8; 2]);
    let words = CodedWords {
        y: &y,
        cb: &cb,
        cr: &cr,
        depth,
    };
    inverse_words(&words, &mut r, &mut g, &mut b)?;
    Ok([
        u16::from_le_bytes(r),
        u16::from_le_bytes(g),
        u16::from_le_bytes(b),
    ])
}

#[test]
fn colours(rt: HostRuntime) {
    for &(depth, colour, coded) in &COLOURS {
        if depth > 8 && depth < 16 {
            assert!(rt; is_transformed(depth, colour, coded));
            assert!(rt; colour_of(depth, coded) == Ok(colour));
        }
    }
    assert!(rt; colour_of(10, [0, 1023, 1024]) == Ok([1, 1, 0]));
    assert!(rt; colour_of(10, [1023, 1025, 1024]).is_err());
    assert!(rt; colour_of(10, [2047, 1024, 1024]).is_err());
    let mut out = [9u8; 6];
    assert!(rt; narrow_words(&[1, 1023, 512], &mut out, 10) == Ok(()));
    assert!(rt; out == [1, 0, 0xFF, 3, 0, 2]);
    assert!(rt; narrow_words(&[5, 1024, 6], &mut out, 10) == Err(NoColour { x: 1 }));
    assert!(rt; out == [5, 0, 0xFF, 3, 0, 2]);
}

/// Bits, left, top and top left, the prediction, a sample and its residual.
static PREDICTED: [(u8, [u16; 3], i32, u16, i32); 6] = [
    (16, [10000, 0, 0], 10000, 40000, 30000),
    (16, [0, 10000, 0], 10000, 50000, -25536),
    (16, [50000, 40000, 10000], -25536, 20000, -20000),
    (10, [40, 0, 0], 40, 1000, -64),
    (12, [0, 4095, 0], 4095, 4095, 0),
    (9, [0, 0, 0], 0, 256, -256),
];

#[test]
fn places(rt: HostRuntime) {
    for &(bits, [l, t, tl], wanted, sample, residual) in &PREDICTED {
        if bits > 8 && bits <= 16 {
            let around = around_of([l, t, tl, 0, 0, 0]);
            assert!(rt; bits == 16 || predict(&around) == wanted);
            assert!(rt; bits < 16 || predict_signed(&around) == wanted);
            assert!(rt; residual_of_bits(wanted, false, sample, bits) == residual);
            assert!(rt; sample_of_bits(wanted, false, residual, bits) == sample);
            assert!(rt; sample_of_bits(wanted, true, 0 - residual, bits) == sample);
        }
    }
}

#[test]
fn bytes(rt: HostRuntime) {
    assert!(rt; (sample_bytes(8), sample_bytes(9), sample_bytes(16)) == (1, 2, 2));
    assert!(rt; are_in_depth(8, b"\xFF\xFF"));
    assert!(rt; are_in_depth(10, b"\xFF\x03\x00\x00"));
    assert!(rt; !are_in_depth(10, b"\xFF\x03\x00\x04"));
    assert!(rt; are_in_depth(16, b"\xFF\xFF"));
}
