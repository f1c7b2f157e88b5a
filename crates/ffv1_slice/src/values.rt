//! The values of a head, one by one and in groups.

ghost use Rattle.std.specs.Prelude.{◌≡◌, ◌^◌, ◌<◌, ◌≤◌, IfOk, IfErr, OnOk, OnErr, IsTrue, IsErr};
ghost use Rattle.std.specs.Prelude.{[], ◌∷◌};
ghost use Rattle.std.specs.Prelude.{length, slice_index, false};
ghost use Rattle.ffv1_range.specs.Symbols.{AreHeld, unsigned_steps, too_long};
ghost use Rattle.ffv1_range.specs.Follows.{Follows};
ghost use Rattle.ffv1_range.specs.Puts.{Puts, MayBeRefused};
ghost use Rattle.ffv1_slice.specs.Head.{placed, indexed, index_rules, info_rules, indexes_of};
ghost use Rattle.ffv1_slice.specs.Head.{is_aspect, has_aspect, values_steps};
ghost use Rattle.ffv1_slice.specs.Internal.Values.{Gives, seen};

use crate::fault::SliceFault;
use ffv1_range::{Fault, RangeDecoder, RangeEncoder, StateTable};
use ffv1_record::Profile;
use std::alloc::Allocator;

/// The next number.
fn number(
    decoder: &mut RangeDecoder<'_>,
    table: &StateTable,
    states: &mut [u8],
) -> Result<u32, SliceFault>
    requires held { AreHeld table.now states.old }
    ensures follows { IfOk result
        (λ v. Follows table.now decoder.old states.old decoder.new states.new (unsigned_steps v)) }
    ensures size { IfOk result (λ v. v < 2 ^ 31) }
    ensures refused { IfErr result (λ f. (f ≡ SliceFault.SymbolTooLong)
        × Follows table.now decoder.old states.old decoder.new states.new too_long) }
    ensures held { AreHeld table.now states.new }
{
    let Ok(value) = decoder.get_unsigned(table, states) else {
        return Err(SliceFault::SymbolTooLong);
    };
    Ok(value)
}

/// The next number, which is to be this one.
fn get_expected(
    decoder: &mut RangeDecoder<'_>,
    table: &StateTable,
    states: &mut [u8],
    wanted: u32,
) -> Result<(), SliceFault>
    requires held { AreHeld table.now states.old }
    ensures gives { Gives table.now
        (placed wanted ∷ []) decoder.old states.old decoder.new states.new
        (seen (λ _. wanted ∷ []) result) }
    ensures held { AreHeld table.now states.new }
{
    let value = number(decoder, table, states)?;
    if value == wanted {
        return Ok(());
    }
    Err(SliceFault::Place)
}

/// The next number, which is to be the index of one of so many sets.
fn get_index(
    decoder: &mut RangeDecoder<'_>,
    table: &StateTable,
    states: &mut [u8],
    count: usize,
) -> Result<u8, SliceFault>
    requires few { count ≤ 8 }
    requires held { AreHeld table.now states.old }
    ensures gives { Gives table.now
        (indexed count ∷ []) decoder.old states.old decoder.new states.new
        (seen (λ v. v ∷ []) result) }
    ensures held { AreHeld table.now states.new }
{
    let value = number(decoder, table, states)?;
    if (value as usize) < count {
        return Ok(value as u8);
    }
    Err(SliceFault::SetIndex)
}

/// The place of a slice of one cell.
pub(crate) fn get_place(
    decoder: &mut RangeDecoder<'_>,
    table: &StateTable,
    states: &mut [u8],
    column: u32,
    row: u32,
) -> Result<(), SliceFault>
    requires held { AreHeld table.now states.old }
    ensures gives { Gives table.now
        (placed column ∷ placed row ∷ placed 0 ∷ placed 0 ∷ []) decoder.old states.old decoder.new
        states.new (seen (λ _. column ∷ row ∷ 0 ∷ 0 ∷ []) result) }
    ensures held { AreHeld table.now states.new }
{
    get_expected(decoder, table, states, column)?;
    get_expected(decoder, table, states, row)?;
    get_expected(decoder, table, states, 0)?;
    get_expected(decoder, table, states, 0)?;
    Ok(())
}

/// The set indexes, two or three.
pub(crate) fn get_indexes(
    decoder: &mut RangeDecoder<'_>,
    table: &StateTable,
    states: &mut [u8],
    extra: bool,
    count: usize,
) -> Result<[u8; 3], SliceFault>
    requires few { count ≤ 8 }
    requires held { AreHeld table.now states.old }
    ensures gives { Gives table.now
        (index_rules extra count) decoder.old states.old decoder.new states.new
        (seen (indexes_of extra) result) }
    ensures long { IfOk result (λ xs. length xs ≡ 3) }
    ensures third { IfOk result (λ xs. extra ≡ false → slice_index xs 2 ≡ 0) }
    ensures held { AreHeld table.now states.new }
{
    let first = get_index(decoder, table, states, count)?;
    let second = get_index(decoder, table, states, count)?;
    if extra {
        let third = get_index(decoder, table, states, count)?;
        return Ok([first, second, third]);
    }
    Ok([first, second, 0])
}

/// Whether an aspect is one: both numbers below 65536, and both zero or neither.
fn is_aspect(num: u32, den: u32) -> bool
    ensures { result ≡ is_aspect num den }
{
    (num < 65536 && den < 65536) && (if num == 0 { den == 0 } else { 0 < den })
}

/// Whether two numbers say an aspect in a profile.
fn has_aspect(num: u32, den: u32, profile: Profile) -> bool
    ensures { result ≡ has_aspect profile num den }
{
    if is_aspect(num, den) {
        return true;
    }
    match profile {
        Profile::Strict => false,
        Profile::Wide => num < 65536 && den < 65536,
    }
}

/// The structure, and the numbers of the aspect.
pub(crate) fn get_info(
    decoder: &mut RangeDecoder<'_>,
    table: &StateTable,
    states: &mut [u8],
    profile: Profile,
) -> Result<(u8, u16, u16), SliceFault>
    requires held { AreHeld table.now states.old }
    ensures gives { Gives table.now
        (info_rules profile) decoder.old states.old decoder.new states.new
        (seen (λ i. i.0 ∷ i.1 ∷ i.2 ∷ []) result) }
    ensures held { AreHeld table.now states.new }
{
    let structure = number(decoder, table, states)?;
    if structure > 3 {
        return Err(SliceFault::Structure);
    }
    let num = number(decoder, table, states)?;
    let den = number(decoder, table, states)?;
    if !has_aspect(num, den, profile) {
        return Err(SliceFault::Aspect);
    }
    Ok((structure as u8, num as u16, den as u16))
}

/// Puts a number.
fn put_number<A: Allocator>(
    encoder: &mut RangeEncoder<A>,
    table: &StateTable,
    states: &mut [u8],
    value: u32,
) -> Result<(), SliceFault>
    requires held { AreHeld table.now states.old }
    requires size { value < 2 ^ 31 }
    ensures ok { OnOk result (Puts table.now encoder.old states.old encoder.new states.new
        (values_steps (value ∷ []))) }
    ensures refused { OnErr result (MayBeRefused table.now encoder.old states.old
        (values_steps (value ∷ []))) }
    ensures held { AreHeld table.now states.new }
    ensures err { IfErr result (λ f. (f ≡ SliceFault.OutOfMemory) × IsTrue encoder.new.failed) }
    ensures stays { IsTrue encoder.old.failed → IsErr result }
{
    let Ok(()) = encoder.put_unsigned(table, states, value) else {
        return Err(SliceFault::OutOfMemory);
    };
    Ok(())
}

/// Puts three numbers.
pub(crate) fn put_three<A: Allocator>(
    encoder: &mut RangeEncoder<A>,
    table: &StateTable,
    states: &mut [u8],
    first: u32,
    second: u32,
    third: u32,
) -> Result<(), SliceFault>
    requires held { AreHeld table.now states.old }
    requires first { first < 2 ^ 31 }
    requires second { second < 2 ^ 31 }
    requires third { third < 2 ^ 31 }
    ensures ok { OnOk result (Puts table.now encoder.old states.old encoder.new states.new
        (values_steps (first ∷ second ∷ third ∷ []))) }
    ensures refused { OnErr result (MayBeRefused table.now encoder.old states.old
        (values_steps (first ∷ second ∷ third ∷ []))) }
    ensures held { AreHeld table.now states.new }
    ensures err { IfErr result (λ f. (f ≡ SliceFault.OutOfMemory) × IsTrue encoder.new.failed) }
    ensures stays { IsTrue encoder.old.failed → IsErr result }
{
    put_number(encoder, table, states, first)?;
    put_number(encoder, table, states, second)?;
    put_number(encoder, table, states, third)?;
    Ok(())
}

/// Puts the place of a slice of one cell.
pub(crate) fn put_place<A: Allocator>(
    encoder: &mut RangeEncoder<A>,
    table: &StateTable,
    states: &mut [u8],
    column: u32,
    row: u32,
) -> Result<(), SliceFault>
    requires held { AreHeld table.now states.old }
    requires column { column < 2 ^ 31 }
    requires row { row < 2 ^ 31 }
    ensures ok { OnOk result (Puts table.now encoder.old states.old encoder.new states.new
        (values_steps (column ∷ row ∷ 0 ∷ 0 ∷ []))) }
    ensures refused { OnErr result (MayBeRefused table.now encoder.old states.old
        (values_steps (column ∷ row ∷ 0 ∷ 0 ∷ []))) }
    ensures held { AreHeld table.now states.new }
    ensures err { IfErr result (λ f. (f ≡ SliceFault.OutOfMemory) × IsTrue encoder.new.failed) }
    ensures stays { IsTrue encoder.old.failed → IsErr result }
{
    put_number(encoder, table, states, column)?;
    put_three(encoder, table, states, row, 0, 0)?;
    Ok(())
}

/// Puts the set indexes, two or three.
pub(crate) fn put_indexes<A: Allocator>(
    encoder: &mut RangeEncoder<A>,
    table: &StateTable,
    states: &mut [u8],
    extra: bool,
    indexes: &[u8; 3],
) -> Result<(), SliceFault>
    requires held { AreHeld table.now states.old }
    ensures ok { OnOk result (Puts table.now encoder.old states.old encoder.new states.new
        (values_steps (indexes_of extra indexes.now))) }
    ensures refused { OnErr result (MayBeRefused table.now encoder.old states.old
        (values_steps (indexes_of extra indexes.now))) }
    ensures held { AreHeld table.now states.new }
    ensures err { IfErr result (λ f. (f ≡ SliceFault.OutOfMemory) × IsTrue encoder.new.failed) }
    ensures stays { IsTrue encoder.old.failed → IsErr result }
{
    put_number(encoder, table, states, u32::from(indexes[0]))?;
    put_number(encoder, table, states, u32::from(indexes[1]))?;
    if extra {
        put_number(encoder, table, states, u32::from(indexes[2]))?;
    }
    Ok(())
}
