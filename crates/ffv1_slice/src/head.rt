//! The key and the head of a slice (RFC 9043, 4.4 and 4.6).

ghost use Rattle.std.specs.Prelude.{◌≡◌, ◌<◌, IfOk, IfErr, OnOk, OnErr, IsTrue, IsErr, Ok};
ghost use Rattle.ffv1_slice.specs.Head.{IsHead};
ghost use Rattle.ffv1_slice.specs.Coding.{IsSlice, ReadsKey, ReadsNoKey, PutsKey, MayRefuseKey};
ghost use Rattle.ffv1_slice.specs.Coding.{ReadsHead, StopsInHead, PutsHead, MayRefuseHead};
ghost use Rattle.ffv1_slice.specs.Coding.{BeginsByKey, BeginsWithoutKey};
ghost use Rattle.ffv1_slice.specs.Coding.{FindsHead, MissesHead, IsAtHead};

use crate::fault::SliceFault;
use crate::values::{get_indexes, get_info, get_place, put_indexes, put_place, put_three};
use ffv1_range::{RangeDecoder, RangeEncoder, laws as range_laws};
use ffv1_record::{Checked, laws as record_laws};
use std::alloc::Allocator;

/// What the head of a slice says, besides its place.
#[derive(Clone, Copy, Debug, PartialEq, Eq)]
pub struct SliceHead {
    /// The numbers of the sets of luma, chroma and transparency. The third is 0 without an extra
    /// plane.
    pub indexes: [u8; 3],
    /// How the picture is interlaced: 0 unknown, 1 top first, 2 bottom first, 3 progressive.
    pub structure: u8,
    /// The width of a sample in the unit of its height, or 0 if the sample aspect is unknown. It
    /// is unknown, too, if just one of the two numbers is 0, which a head of `Wide` may have.
    pub sar_num: u16,
    /// The height of a sample, or 0 if the sample aspect is unknown.
    pub sar_den: u16,
}

/// Reads the key of a slice: the first begins with a keyframe of 1 in a state of its own, and the
/// others have none. Answers `NotKey` exactly if that of the first is 0, after which the
/// decoder then stands. Of any other slice nothing is read.
pub fn get_key<A: Allocator>(
    decoder: &mut RangeDecoder<'_>,
    checked: &Checked<A>,
    slice: u32,
) -> Result<(), SliceFault>
    ensures ok { OnOk result (ReadsKey checked.now slice decoder.old decoder.new) }
    ensures not_key { IfErr result (λ f. (f ≡ SliceFault.NotKey) × (slice ≡ 0)) }
    ensures refused { OnErr result (ReadsNoKey checked.now decoder.old decoder.new) }
    ensures only { BeginsByKey checked.now slice decoder.old → result ≡ Ok tt }
    ensures exact { OnErr result (BeginsWithoutKey checked.now slice decoder.old) }
    ensures others { 0 < slice → (result ≡ Ok tt) × (decoder.new ≡ decoder.old) }
{
    if slice != 0 {
        return Ok(());
    }
    range_laws::each_decision_has_a_state();
    let table = checked.table();
    let mut state = 128;
    if decoder.get(table, &mut state) {
        return Ok(());
    }
    Err(SliceFault::NotKey)
}

/// Puts the key of a slice: a keyframe of 1 for the first, and nothing for the others.
///
/// Answers `OutOfMemory` if the encoder was refused memory, now that its bytes grow or before;
/// then it has failed for good.
pub fn put_key<A: Allocator, B: Allocator>(
    encoder: &mut RangeEncoder<A>,
    checked: &Checked<B>,
    slice: u32,
) -> Result<(), SliceFault>
    ensures ok { OnOk result (PutsKey checked.now slice encoder.old encoder.new) }
    ensures refused { OnErr result (MayRefuseKey encoder.old) }
    ensures err { IfErr result (λ f. (f ≡ SliceFault.OutOfMemory) × IsTrue encoder.new.failed) }
    ensures stays { slice ≡ 0 → IsTrue encoder.old.failed → IsErr result }
    ensures others { 0 < slice → (result ≡ Ok tt) × (encoder.new ≡ encoder.old) }
{
    if slice != 0 {
        return Ok(());
    }
    range_laws::each_decision_has_a_state();
    let table = checked.table();
    let mut state = 128;
    let Ok(()) = encoder.put(table, &mut state, true) else {
        return Err(SliceFault::OutOfMemory);
    };
    Ok(())
}

/// The head of a slice, by 32 fresh states.
fn read_head<A: Allocator>(
    decoder: &mut RangeDecoder<'_>,
    checked: &Checked<A>,
    slice: u32,
) -> Result<SliceHead, SliceFault>
    requires { IsSlice checked.now slice }
    ensures head { IfOk result (IsHead checked.now.profile checked.now.configuration) }
    ensures ok { IfOk result (ReadsHead checked.now slice decoder.old decoder.new) }
    ensures refused { IfErr result (StopsInHead checked.now slice decoder.old decoder.new) }
{
    range_laws::each_decision_has_a_state();
    record_laws::accepted_configuration_is_in_range();
    let config = checked.config();
    let table = checked.table();
    let mut states = [128u8; 32];
    get_place(
        decoder,
        table,
        &mut states,
        slice % config.columns,
        slice / config.columns,
    )?;
    let indexes = get_indexes(
        decoder,
        table,
        &mut states,
        config.extra_plane,
        config.sets.len(),
    )?;
    let (structure, sar_num, sar_den) = get_info(decoder, table, &mut states, checked.profile())?;
    Ok(SliceHead {
        indexes,
        structure,
        sar_num,
        sar_den,
    })
}

/// Reads the head of a slice, whose number in raster order gives its place, by 32 fresh states.
///
/// Of a decoder that stands after the key of its slice, what is read is the one head that its
/// bytes code. If they code none, the answer is the first of `SymbolTooLong`, `Place`,
/// `SetIndex`, `Structure` and `Aspect` in the order of the symbols, each after its own symbol, and
/// `Aspect` after both its numbers; the decoder then stands after that symbol. If just one of
/// these is 0, that is `Aspect` at `Strict`, and read as it is at `Wide`. It takes no memory.
pub fn get_head<A: Allocator>(
    decoder: &mut RangeDecoder<'_>,
    checked: &Checked<A>,
    slice: u32,
) -> Result<SliceHead, SliceFault>
    requires { IsSlice checked.now slice }
    ensures head { IfOk result (IsHead checked.now.profile checked.now.configuration) }
    ensures ok { IfOk result (ReadsHead checked.now slice decoder.old decoder.new) }
    ensures refused { IfErr result (StopsInHead checked.now slice decoder.old decoder.new) }
    ensures found { IfOk result (FindsHead checked.now slice decoder.old) }
    ensures only { (h : SliceHead) → IsAtHead checked.now slice decoder.old h → result ≡ Ok h }
    ensures exact { IfErr result (MissesHead checked.now slice decoder.old) }
{
    record_laws::accepted_configuration_is_in_range();
    let _config = checked.config();
    // Both arms are written out, so that the clauses are proved by arm.
    match read_head(decoder, checked, slice) {
        Ok(head) => Ok(head),
        Err(fault) => Err(fault),
    }
}

/// Puts the head of a slice, whose number in raster order gives its place, by 32 fresh states. The
/// head is one of the configuration's profile: set indexes below the number of sets, a third of 0
/// without an extra plane, a structure of 0 to 3, and aspect numbers that are both 0 or neither; at
/// `Wide` just one of them may be 0, too.
///
/// Answers `OutOfMemory` if the encoder was refused memory, now that its bytes grow or before;
/// then it has failed for good.
pub fn put_head<A: Allocator, B: Allocator>(
    encoder: &mut RangeEncoder<A>,
    checked: &Checked<B>,
    slice: u32,
    head: &SliceHead,
) -> Result<(), SliceFault>
    requires slice { IsSlice checked.now slice }
    requires head { IsHead checked.now.profile checked.now.configuration head.now }
    ensures ok { OnOk result (PutsHead checked.now slice encoder.old encoder.new head.now) }
    ensures refused { OnErr result (MayRefuseHead checked.now slice encoder.old head.now) }
    ensures err { IfErr result (λ f. (f ≡ SliceFault.OutOfMemory) × IsTrue encoder.new.failed) }
    ensures stays { IsTrue encoder.old.failed → IsErr result }
{
    range_laws::each_decision_has_a_state();
    record_laws::accepted_configuration_is_in_range();
    let config = checked.config();
    let table = checked.table();
    let mut states = [128u8; 32];
    put_place(
        encoder,
        table,
        &mut states,
        slice % config.columns,
        slice / config.columns,
    )?;
    put_indexes(
        encoder,
        table,
        &mut states,
        config.extra_plane,
        &head.indexes,
    )?;
    put_three(
        encoder,
        table,
        &mut states,
        u32::from(head.structure),
        u32::from(head.sar_num),
        u32::from(head.sar_den),
    )?;
    Ok(())
}
