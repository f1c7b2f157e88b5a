//! Samples and rows of 17 bits, beside values computed outside the program.

ghost use Rattle.std.specs.Prelude.{◌≡◌, ◌<◌, ◌*◌, length, replicate};
ghost use Rattle.ffv1_plane.specs.Quantisation.{contexts_of};
ghost use Rattle.ffv1_range.specs.Symbols.{AreHeld};

use ffv1_line::{Above, Coding, decode_wide, encode_wide, reset};
use ffv1_plane::{QuantSet, WideAround, context, low_around, wide_residual, wide_sample};
use ffv1_range::{Fault, RangeDecoder, RangeEncoder, StateTable};
use ffv1_rct::{CodedWide, NoColour, forward_wide, inverse_wide, narrow_wide};
use std::alloc::Global;
use std::test::Fail;

/// Bits, left, top and top left, a sample and its residual.
static PLACES: [(u8, [u32; 3], u32, i32); 8] = [
    (17, [0, 0, 0], 16383, 16383),
    (17, [0, 0, 0], 65536, -65536),
    (17, [0, 0, 0], 131071, -1),
    (17, [131071, 100000, 70000], 5, 6),
    (17, [40000, 50000, 60000], 40000, 0),
    (17, [131071, 0, 131071], 0, 0),
    (16, [10000, 0, 0], 40000, 30000),
    (16, [50000, 40000, 10000], 20000, -20000),
];

#[test]
fn places(rt: HostRuntime) {
    for &(bits, [l, t, tl], sample, residual) in &PLACES {
        if bits == 16 || bits == 17 {
            let around = WideAround {
                l,
                t,
                tl,
                tr: 0,
                ll: 0,
                tt: 0,
            };
            assert!(rt; wide_residual(&around, false, sample, bits) == residual);
            assert!(rt; wide_sample(&around, false, residual, bits) == sample);
            assert!(rt; wide_sample(&around, true, 0i32.wrapping_sub(residual), bits) == sample);
        }
    }
}

/// The context of a position whose samples are alike in their low eight bits is that of zeros.
#[test]
fn contexts(rt: HostRuntime) -> Result<(), Fail> {
    let set = QuantSet::small(rt.alloc())?;
    let around = WideAround {
        l: 65536,
        t: 131072,
        tl: 256,
        tr: 0,
        ll: 65792,
        tt: 512,
    };
    assert!(rt; context(&set, &low_around(&around)) == (0, false));
    let around = WideAround { l: 65537, ..around };
    assert!(rt;
        context(&set, &low_around(&around))
            == context(&set, &low_around(&WideAround { l: 1, ..around }))
    );
    Ok(())
}

/// The bytes of three rows of one sample, the first by states of its own.
fn coded(
    alloc: Global,
    table: &StateTable,
    set: &QuantSet,
    states: &mut [u8],
    rows: &[u32; 3],
) -> Result<Vec<u8>, Fault>
    requires rows { length states.old ≡ contexts_of set.now * 32 }
    requires fresh { AreHeld table.now (replicate 32 128) }
{
    let mut encoder = RangeEncoder::new(alloc);
    let coding = Coding {
        table,
        set,
        bits: 17,
    };
    let zeros = [0u32];
    let above = Above {
        two: &zeros,
        one: &zeros,
    };
    reset(states);
    encode_wide(&mut encoder, &coding, states, &above, &[rows[0]])?;
    reset(states);
    encode_wide(&mut encoder, &coding, states, &above, &[rows[1]])?;
    encode_wide(&mut encoder, &coding, states, &above, &[rows[2]])?;
    encoder.finish_sentinel()
}

/// The three rows again.
fn decoded(
    table: &StateTable,
    set: &QuantSet,
    states: &mut [u8],
    bytes: &[u8],
) -> Result<[u32; 3], Fail>
    requires rows { length states.old ≡ contexts_of set.now * 32 }
    requires fresh { AreHeld table.now (replicate 32 128) }
{
    let mut decoder = RangeDecoder::new(bytes)?;
    let coding = Coding {
        table,
        set,
        bits: 17,
    };
    let zeros = [0u32];
    let above = Above {
        two: &zeros,
        one: &zeros,
    };
    let (mut y, mut cb, mut cr) = ([7u32], [7u32], [7u32]);
    reset(states);
    decode_wide(&mut decoder, &coding, states, &above, &mut y)?;
    reset(states);
    decode_wide(&mut decoder, &coding, states, &above, &mut cb)?;
    decode_wide(&mut decoder, &coding, states, &above, &mut cr)?;
    Ok([y[0], cb[0], cr[0]])
}

/// Whether three rows of one sample have these bytes, and are read from them again.
fn come_back(alloc: Global, samples: &[u32; 3], wanted: &[u8]) -> Result<bool, Fail> {
    let table = StateTable::standard();
    let set = QuantSet::small(alloc)?;
    let mut states = vec![in alloc; 128u8; 666 * 32]?;
    let bytes = coded(alloc, &table, &set, &mut states, samples)?;
    if bytes.as_slice() != wanted {
        return Ok(false);
    }
    Ok(decoded(&table, &set, &mut states, &bytes)? == *samples)
}

/// Y, Cb and Cr of one sample: red alone, and green with a little blue. Their residuals are 16383,
/// -65536 and -1, and 32767, 2 and 1 (RFC 9043, 3.7.2 and 3.8).
#[test]
fn rows(rt: HostRuntime) -> Result<(), Fail> {
    let red = [0x7F, 0x7C, 0xE9, 0xEF, 0x97, 0xF2, 0xDA, 0x06, 0x39];
    assert!(rt; come_back(rt.alloc(), &[16383, 65536, 131071], &red)?);
    let green = [0x7F, 0x7E, 0x1B, 0xF9, 0x85];
    assert!(rt; come_back(rt.alloc(), &[32767, 2, 1], &green)?);
    Ok(())
}

/// Red, green and blue of 16 bits, and Y, Cb and Cr (RFC 9043, 3.7.2).
static COLOURS: [([u32; 3], [u32; 3]); 4] = [
    ([65535, 0, 0], [16383, 65536, 131071]),
    ([0, 65535, 1], [32767, 2, 1]),
    ([0, 1023, 0], [511, 64513, 64513]),
    ([65535, 65535, 65535], [65535, 65536, 65536]),
];

/// What a sample is made, as pairs of bytes.
fn colour_of(coded: [u32; 3]) -> Result<[[u8; 2]; 3], NoColour> {
    let [y, cb, cr] = coded;
    let (mut r, mut g, mut b) = ([9u8; 2], [9u8; 2], [9u8; 2]);
    let line = CodedWide {
        y: &[y],
        cb: &[cb],
        cr: &[cr],
    };
    inverse_wide(&line, &mut r, &mut g, &mut b)?;
    Ok([r, g, b])
}

/// The low and the high byte of a number of 16 bits.
fn pair(number: u32) -> [u8; 2]
    requires { number < 65536 }
{
    [(number % 256) as u8, (number / 256) as u8]
}

#[test]
fn colours(rt: HostRuntime) {
    for &([r, g, b], coded) in &COLOURS {
        if r < 65536 && g < 65536 && b < 65536 {
            let (mut first, mut second, mut third) = ([r], [g], [b]);
            forward_wide(&mut first, &mut second, &mut third);
            assert!(rt; [first[0], second[0], third[0]] == coded);
            assert!(rt; colour_of(coded) == Ok([pair(r), pair(g), pair(b)]));
        }
    }
    assert!(rt; colour_of([65535, 65537, 65536]) == Err(NoColour { x: 0 }));
    assert!(rt; colour_of([0, 4294967295, 4294967295]) == Err(NoColour { x: 0 }));
    let mut out = [9u8; 6];
    assert!(rt; narrow_wide(&[1, 65535, 512], &mut out) == Ok(()));
    assert!(rt; out == [1, 0, 0xFF, 0xFF, 0, 2]);
    assert!(rt; narrow_wide(&[5, 65536, 6], &mut out) == Err(NoColour { x: 1 }));
    assert!(rt; out == [5, 0, 0xFF, 0xFF, 0, 2]);
}
