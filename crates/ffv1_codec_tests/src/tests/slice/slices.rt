//! Whole slices: key, head, residuals, ending, footer.

ghost use Rattle.std.specs.Prelude.{◌≡◌, ◌^◌, ◌<◌, [], ◌∷◌, length, replicate, unsigned_abs};
ghost use Rattle.ffv1_slice.specs.Coding.{IsSlice};
ghost use Rattle.ffv1_range.specs.Symbols.{AreHeld};

use super::made::mono;
use ffv1_doubles::made;
use ffv1_range::{RangeEncoder, StateTable};
use ffv1_record::Checked;
use ffv1_slice::{SliceHead, footer, put_head, put_key};
use std::alloc::Global;
use std::process::Abort;
use std::test::Fail;

/// A head of zeros.
pub(crate) fn plain() -> SliceHead
    ensures indexes { result.indexes ≡ 0 ∷ 0 ∷ 0 ∷ [] }
    ensures structure { result.structure ≡ 0 }
    ensures num { result.sar_num ≡ 0 }
    ensures den { result.sar_den ≡ 0 }
{
    SliceHead {
        indexes: [0, 0, 0],
        structure: 0,
        sar_num: 0,
        sar_den: 0,
    }
}

/// A residual in a context of its own.
fn put_residual(encoder: &mut RangeEncoder, table: &StateTable, residual: i32) -> Result<(), Fail>
    requires size { unsigned_abs residual < 2 ^ 31 }
    requires fresh { AreHeld table.now (replicate 32 128) }
{
    let mut states = [128u8; 32];
    encoder.put_signed(table, &mut states, residual)?;
    Ok(())
}

/// The key and the head of a slice.
fn begun(alloc: Global, checked: &Checked, number: u32) -> Result<RangeEncoder, Fail>
    requires slice { IsSlice checked.now number }
    requires sets { 0 < length checked.now.configuration.sets }
{
    let mut encoder = RangeEncoder::new(alloc);
    put_key(&mut encoder, checked, number)?;
    put_head(&mut encoder, checked, number, &plain())?;
    Ok(encoder)
}

/// The bytes of a slice, its footer among them.
fn ended(alloc: Global, encoder: RangeEncoder, ec: bool) -> Result<Vec<u8>, Fail> {
    let mut bytes = encoder.finish_sentinel()?;
    let foot = footer(bytes.as_slice(), ec)?;
    bytes.extend_from_slice(foot.bytes())?;
    Ok(bytes)
}

/// A slice of one residual, and its decisions.
fn slice_of_one(
    alloc: Global,
    checked: &Checked,
    number: u32,
    residual: i32,
) -> Result<(Vec<u8>, u64), Fail>
    requires slice { IsSlice checked.now number }
    requires sets { 0 < length checked.now.configuration.sets }
    requires size { unsigned_abs residual < 2 ^ 31 }
{
    let mut encoder = begun(alloc, checked, number)?;
    put_residual(&mut encoder, &StateTable::standard(), residual)?;
    let decisions = encoder.decisions();
    let bytes = ended(alloc, encoder, checked.config().ec)?;
    Ok((bytes, decisions))
}

/// A slice, by its number, of one residual has these bytes, and so many decisions.
fn gives(
    rt: &impl Abort,
    alloc: Global,
    checked: &Checked,
    slice: (u32, i32),
    bytes: &[u8],
    decisions: u64,
) -> Result<(), Fail>
    requires slice { IsSlice checked.now slice.0 }
    requires sets { 0 < length checked.now.configuration.sets }
    requires size { unsigned_abs slice.1 < 2 ^ 31 }
{
    let (number, residual) = slice;
    let (found, count) = slice_of_one(alloc, checked, number, residual)?;
    assert!(rt; found.as_slice() == bytes);
    assert!(rt; count == decisions);
    Ok(())
}

/// Slices of one sample.
fn samples(rt: &impl Abort, alloc: Global, one: &Checked) -> Result<(), Fail>
    requires slice { IsSlice one.now 0 }
    requires sets { 0 < length one.now.configuration.sets }
{
    gives(rt, alloc, one, (0, 0), &[0xfe, 0x7b, 0, 0, 2], 11)?;
    gives(rt, alloc, one, (0, -1), &[0xfe, 0x18, 0, 0, 2], 13)?;
    let long = [0xfe, 0x79, 0xf6, 0x85, 0, 0, 4];
    gives(rt, alloc, one, (0, -128), &long, 27)
}

#[test]
fn one_sample(rt: HostRuntime) -> Result<(), Fail> {
    let one = mono(rt.alloc(), 1, 1, 1, false)?;
    samples(&rt, rt.alloc(), &one)
}

#[test]
fn one_sample_with_parity(rt: HostRuntime) -> Result<(), Fail> {
    let one = mono(rt.alloc(), 1, 1, 1, true)?;
    let bytes = [0xfe, 0x7b, 0, 0, 2, 0, 0x94, 0x8c, 0x13, 0x3c];
    gives(&rt, rt.alloc(), &one, (0, 0), &bytes, 11)
}

#[test]
fn four_samples(rt: HostRuntime) -> Result<(), Fail> {
    let four = mono(rt.alloc(), 2, 2, 1, false)?;
    let table = StateTable::standard();
    let mut encoder = begun(rt.alloc(), &four, 0)?;
    put_residual(&mut encoder, &table, 10)?;
    put_residual(&mut encoder, &table, 10)?;
    put_residual(&mut encoder, &table, -20)?;
    put_residual(&mut encoder, &table, -10)?;
    assert!(rt; encoder.decisions() == 48);
    let bytes = ended(rt.alloc(), encoder, false)?;
    assert!(rt; bytes.as_slice() == [0xfe, 0x6c, 0xaf, 0x59, 0x7a, 0x88, 0, 0, 6].as_slice());
    Ok(())
}

/// The two slices of two samples.
fn both(rt: &impl Abort, alloc: Global, two: &Checked) -> Result<(), Fail>
    requires first { IsSlice two.now 0 }
    requires second { IsSlice two.now 1 }
    requires sets { 0 < length two.now.configuration.sets }
{
    gives(rt, alloc, two, (0, 0), &[0xfe, 0x7b, 0, 0, 2], 11)?;
    gives(rt, alloc, two, (1, 0), &[0x3f, 0x76, 0, 0, 2], 11)
}

#[test]
fn two_slices(rt: HostRuntime) -> Result<(), Fail> {
    let two = mono(rt.alloc(), 2, 1, 2, false)?;
    both(&rt, rt.alloc(), &two)
}

#[test]
fn the_last_of_32(rt: HostRuntime) -> Result<(), Fail> {
    let wide = mono(rt.alloc(), 32, 1, 32, false)?;
    let encoder = begun(rt.alloc(), &wide, 31)?;
    assert!(rt; encoder.decisions() == 18);
    Ok(())
}

#[test]
fn three_indexes(rt: HostRuntime) -> Result<(), Fail> {
    let mut config = made::mono(rt.alloc(), 1, 1, 1, false)?;
    config.chroma_planes = true;
    config.extra_plane = true;
    let checked = config.check()?;
    let mut encoder = begun(rt.alloc(), &checked, 0)?;
    let table = StateTable::standard();
    put_residual(&mut encoder, &table, 0)?;
    let mut chroma = [128u8; 32];
    encoder.put_signed(&table, &mut chroma, 0)?;
    encoder.put_signed(&table, &mut chroma, 0)?;
    put_residual(&mut encoder, &table, 0)?;
    assert!(rt; encoder.decisions() == 15);
    let bytes = encoder.finish_sentinel()?;
    assert!(rt; bytes.as_slice() == [0xfe, 0xf5].as_slice());
    Ok(())
}
