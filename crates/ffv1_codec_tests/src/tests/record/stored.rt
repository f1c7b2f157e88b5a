//! Records as others write them.

ghost use Rattle.std.specs.Prelude.{◌≡◌, ◌<◌, IfOk, IfErr};

use super::made::{MONO, Made, made_record, mono, mono_large};
use ffv1_plane::QuantSet;
use ffv1_record::{
    Checked, Coder, Colour, Config, RecordFault, Sets, laws as record_laws, parity, read_record,
    read_record_in, write_record,
};
use std::alloc::Global;
use std::process::Abort;
use std::test::Fail;

/// Mono 1 by 1, small set, ec and intra 1.
pub(super) static SMALL: [u8; 26] = [
    0x56, 0x00, 0x30, 0x29, 0xE1, 0x4F, 0x76, 0x38, 0xB8, 0x2B, 0x67, 0xDB, 0x66, 0x4A, 0x1B, 0x2F,
    0x41, 0xA0, 0xE7, 0xCD, 0x48, 0x00, 0xA3, 0x9A, 0xAA, 0x45,
];

/// The same by the large set.
static LARGE: [u8; 29] = [
    0x56, 0x00, 0x30, 0x29, 0xE1, 0x4F, 0x76, 0x38, 0xB8, 0x2B, 0x67, 0xDB, 0x66, 0x4A, 0x1B, 0x2F,
    0x31, 0x30, 0xAD, 0x60, 0x70, 0x37, 0xB4, 0x1F, 0x00, 0xD1, 0xE9, 0xA9, 0xD8,
];

/// The first by coder 2 with deltas 0.
static TWO: [u8; 31] = [
    0x56, 0x08, 0x73, 0xFF, 0xFF, 0xBC, 0x8E, 0x23, 0x83, 0x19, 0xE0, 0xD4, 0xCF, 0xA9, 0x16, 0x39,
    0xA1, 0x33, 0xFB, 0xBD, 0x4D, 0x6B, 0x95, 0x2A, 0x2A, 0x00, 0x00, 0xE0, 0x1B, 0xB7, 0x03,
];

/// What FFmpeg 5.1 writes of gray pictures in four slices.
static FFMPEG: [u8; 42] = [
    0x56, 0x00, 0x2F, 0xD3, 0xC8, 0x18, 0xCE, 0x09, 0xEB, 0x7F, 0x68, 0x23, 0xD0, 0x46, 0xC2, 0x44,
    0x28, 0x0A, 0x38, 0x20, 0x41, 0x1C, 0x8F, 0xFD, 0x0B, 0xD7, 0xA0, 0xDD, 0x7D, 0xC7, 0xE2, 0xBE,
    0x16, 0x99, 0xB1, 0xE0, 0xB6, 0xDF, 0xBB, 0xD7, 0x04, 0x33,
];

/// A configuration is written so, and read back equal.
fn stored(rt: &impl Abort, alloc: Global, config: Config, bytes: &[u8]) -> Result<(), RecordFault> {
    let checked = config.check()?;
    let record = write_record(alloc, &checked)?;
    read_as(rt, alloc, &record, bytes, &checked)
}

/// A record has these bytes and no remainder, and is read as this configuration.
fn read_as(
    rt: &impl Abort,
    alloc: Global,
    record: &[u8],
    bytes: &[u8],
    checked: &Checked,
) -> Result<(), RecordFault> {
    assert!(rt; record == bytes);
    assert!(rt; parity(record) == 0);
    let (width, height) = (checked.config().width, checked.config().height);
    let again = read_record(alloc, record, width, height)?;
    assert!(rt; again == *checked);
    Ok(())
}

/// The example of the crate's root.
#[test]
fn example(rt: HostRuntime) -> Result<(), Fail> {
    let heap = rt.alloc();
    let mut sets = Sets::new(heap);
    sets.push(QuantSet::small(heap)?)?;
    let (columns, rows) = (2, 2);
    let config = Config {
        width: 352,
        height: 288,
        coder: Coder::One,
        colour: Colour::Rct,
        chroma_planes: true,
        extra_plane: false,
        log2_h: 0,
        log2_v: 0,
        columns,
        rows,
        sets,
        ec: true,
        intra: true,
    };
    let checked = config.check()?;
    let record = write_record(heap, &checked)?;
    assert!(rt; read_record(heap, &record, 352, 288)? == checked);
    Ok(())
}

/// What is written of a checked configuration is read in its profile as that one, unless memory is
/// refused.
fn written_and_read_back(
    alloc: Global,
    checked: &Checked<Global>,
) -> Result<Checked<Global>, RecordFault>
    ensures same { IfOk result (λ c. c ≡ checked.now) }
    ensures memory { IfErr result (λ f. f ≡ RecordFault.OutOfMemory) }
{
    let (width, height) = (checked.config().width, checked.config().height);
    let record = write_record(alloc, checked)?;
    record_laws::record_has_one_configuration();
    match read_record_in(
        alloc,
        &record,
        width,
        height,
        checked.profile(),
        checked.depth(),
    ) {
        Ok(again) => Ok(again),
        Err(fault) => Err(fault),
    }
}

/// The first sets are other than the second, and one.
fn has_one_other_set(rt: &impl Abort, sets: &Sets, others: &Sets) {
    let one = sets.as_slice().len() == 1 && sets.as_slice()[0] == *sets.get(0);
    assert!(rt; (*sets != *others, one) == (true, true));
}

/// A configuration is read back equal, and differs from another one by its one set.
fn is_read_back(
    rt: &impl Abort,
    alloc: Global,
    checked: &Checked,
    other: Config,
) -> Result<(), RecordFault> {
    let other = other.check()?;
    assert!(rt; other != *checked);
    has_one_other_set(rt, &other.config().sets, &checked.config().sets);
    assert!(rt; written_and_read_back(alloc, checked)? == *checked);
    Ok(())
}

#[test]
fn read_back(rt: HostRuntime) -> Result<(), RecordFault> {
    let checked = mono_large(rt.alloc(), 31, 17)?.check()?;
    is_read_back(&rt, rt.alloc(), &checked, mono(rt.alloc(), 31, 17)?)
}

#[test]
fn written_and_read(rt: HostRuntime) -> Result<(), RecordFault> {
    let heap = rt.alloc();
    stored(&rt, heap, mono(heap, 1, 1)?, SMALL.as_slice())?;
    stored(&rt, heap, mono_large(heap, 1, 1)?, LARGE.as_slice())?;
    let mut two = mono(heap, 1, 1)?;
    two.coder = Coder::Two([0; 255]);
    stored(&rt, heap, two, TWO.as_slice())
}

/// What is made takes so many decisions, and these bytes.
fn counts(
    rt: &impl Abort,
    alloc: Global,
    made: Made,
    count: u64,
    bytes: &[u8],
) -> Result<(), RecordFault> {
    let (record, decisions) = made_record(alloc, made)?;
    assert!(rt; (decisions, record.as_slice()) == (count, bytes));
    Ok(())
}

#[test]
fn counted(rt: HostRuntime) -> Result<(), RecordFault> {
    let heap = rt.alloc();
    counts(&rt, heap, MONO, 164, SMALL.as_slice())?;
    counts(
        &rt,
        heap,
        Made {
            large: true,
            ..MONO
        },
        188,
        LARGE.as_slice(),
    )?;
    counts(&rt, heap, Made { coder: 2, ..MONO }, 421, TWO.as_slice())
}

#[test]
fn of_another_program(rt: HostRuntime) -> Result<(), RecordFault> {
    let checked = read_record(rt.alloc(), FFMPEG.as_slice(), 64, 64)?;
    is_of_gray_pictures(&rt, checked.config());
    Ok(())
}

/// A configuration is that of gray pictures in four slices, with the runs of the small and of the
/// large set.
fn is_of_gray_pictures(rt: &impl Abort, config: &Config) {
    assert!(rt; config.colour == Colour::YCbCr);
    let flags = (config.chroma_planes, config.ec, config.intra);
    assert!(rt; (flags, config.columns, config.rows) == ((false, true, true), 2, 2));
    assert!(rt; config.sets.len() == 2);
    have_their_runs(rt, config.sets.get(0), config.sets.get(1));
}

/// The first set has the runs of the small one, and the second those of the large one.
fn have_their_runs(rt: &impl Abort, first: &QuantSet, second: &QuantSet) {
    let (eleven, five, one) = ([1u8, 1, 3, 7, 23, 93], [1u8, 3, 124], [128u8]);
    let (eleven, five, one) = (eleven.as_slice(), five.as_slice(), one.as_slice());
    let fine = [
        first.runs(0) == eleven,
        first.runs(2) == eleven,
        second.runs(1) == eleven,
    ];
    let coarse = [second.runs(2) == five, second.runs(4) == five];
    let flat = [first.runs(3) == one, first.runs(4) == one];
    assert!(rt; (fine, coarse, flat) == ([true; 3], [true; 2], [true; 2]));
}
