//! The chunks of an RIFF or a movi whose size is not known.

ghost use Rattle.std.specs.Prelude.{◌≡◌, ◌+◌, ◌<◌, ◌≤◌, ℕ, List, Option, None, Some};
ghost use Rattle.std.specs.Prelude.{IfOk, IfSome, false};
ghost use Rattle.ffv1_avi.specs.Behind.{Stand};
ghost use Rattle.ffv1_avi.specs.Internal.Ending.{AnswersOrNone};
ghost use Rattle.ffv1_avi.specs.Internal.Offsets.{step_size};
ghost use Rattle.ffv1_avi.specs.Names.{least_bytes, most_bytes};
ghost use Rattle.ffv1_avi.specs.Opens.{Step, further_riff, goes_on, movi_chunk, named_or_end};
ghost use Rattle.ffv1_avi.specs.Opens.{open_found, open_passed, riff_chunk, size_read};
ghost use Rattle.ffv1_avi.specs.Opens.{sizeless_read};
ghost use Rattle.ffv1_avi.specs.Walk.{is_name};
ghost use Rattle.ffv1_avi.specs.declared.place.Extent.TheVariants.{EveryRiff};
ghost use Rattle.ffv1_avi.specs.declared.place.Place.{Place};
ghost use Rattle.ffv1_reads.specs.Reads.{Answers};
ghost use Rattle.ffv1_wire.specs.Passage.{passage};

use crate::chunk::{is_name, is_sizeless, judge_entry, judge_sizeless};
use crate::movi::visit_movi;
use crate::open::own_name;
use crate::place::{Extent, Names, Open, Place, open_at, open_frame_at};
use crate::riff::{enter_open, take_some, visit_riff};
use byteorder::{ByteOrder, LittleEndian};
use ffv1_reads::{FileFault, take};
use ffv1_wire::ByteIn;

/// The name of the next chunk, or None at the end of the input: that is an answer only if no frame
/// is owed and no byte of a name is there.
pub(crate) fn name_or_end<R: ByteIn>(input: &mut R, owed: u32) -> Result<Option<[u8; 4]>, FileFault>
    ensures answer { AnswersOrNone EveryRiff (λ (n : Option (List ℕ)). n) (named_or_end owed)
        (passage R.remaining R.failures input.old input.new) result }
    ensures stand { IfOk result (λ o. o ≡ None →
        Stand (R.remaining input.old) (R.remaining input.new) false) }
{
    let mut first = [0u8; 1];
    let n = take_some(input, owed, &mut first)?;
    if n == 0 {
        return Ok(None);
    }
    let mut more = [0u8; 3];
    take(input, &mut more)?;
    Ok(Some([first[0], more[0], more[1], more[2]]))
}

/// The size of a chunk, after its name.
fn read_size<R: ByteIn>(input: &mut R) -> Result<u32, FileFault>
    ensures { Answers (λ (n : ℕ). n) size_read
        (passage R.remaining R.failures input.old input.new) result }
{
    let mut size = [0u8; 4];
    take(input, &mut size)?;
    Ok(LittleEndian::read_u32(&size))
}

/// A chunk of a movi without size, after its name.
fn movi_chunk<R: ByteIn>(
    input: &mut R,
    place: Place,
    name: [u8; 4],
) -> Result<(Option<u32>, Place), FileFault>
    requires { 0 < place.input }
    ensures answer { Answers (λ (s : Step). Some s) (movi_chunk place name)
        (passage R.remaining R.failures input.old input.new) result }
    ensures sized { IfOk result (λ s. IfSome s.0
        (λ n. (least_bytes place.names ≤ n) × (n ≤ most_bytes place.names))) }
{
    let size = read_size(input)?;
    let entry = judge_entry(place.names, place.input - 1, name, size)?;
    let left = entry.left + 1;
    let Some(frame) = visit_movi(input, place.names, entry)? else {
        return Ok((None, open_at(place, Open::OpenMovi, left, 0)));
    };
    Ok((Some(frame), open_frame_at(place, left)))
}

/// A list without size in an RIFF without size: `NotAvi` if it is no movi.
fn open_movi<R: ByteIn>(
    input: &mut R,
    place: Place,
    left: u64,
) -> Result<(Option<u32>, Place), FileFault>
    requires { 4 ≤ left }
    ensures answer { Answers (λ (s : Step). Some s) (sizeless_read place left)
        (passage R.remaining R.failures input.old input.new) result }
    ensures sized { IfOk result (λ s. s.0 ≡ None) }
{
    let own = own_name(input)?;
    if !is_name(&own, b"movi") {
        return Err(FileFault::NotAvi);
    }
    Ok((None, open_at(place, Open::OpenMovi, left - 3, 0)))
}

/// After a chunk of an RIFF without size, or in a movi of so many bytes.
fn open_passed(place: Place, left: u64, movi: Option<(u64, u64)>) -> Place
    requires { left < 18446744073709551615 }
    ensures { result ≡ open_passed place left movi }
{
    match movi {
        None => open_at(place, Open::OpenRiff, left + 1, 0),
        Some((size, _)) => open_at(place, Open::OpenRiff, left + 1, size),
    }
}

/// A chunk of an RIFF without size, after its name.
fn riff_chunk<R: ByteIn>(
    input: &mut R,
    place: Place,
    name: [u8; 4],
) -> Result<(Option<u32>, Place), FileFault>
    requires { 0 < place.input }
    ensures answer { Answers (λ (s : Step). Some s) (riff_chunk place name)
        (passage R.remaining R.failures input.old input.new) result }
    ensures sized { IfOk result (λ s. s.0 ≡ None) }
{
    let size = read_size(input)?;
    if is_sizeless(Extent::EveryRiff, name, size) {
        let entry = judge_sizeless(place.input - 1, name)?;
        return open_movi(input, place, entry.left);
    }
    let entry = judge_entry(Names::Any, place.input - 1, name, size)?;
    let movi = visit_riff(input, place.names, entry)?;
    Ok((None, open_passed(place, entry.left, movi)))
}

/// An RIFF after one without size, after its name: its own size is not looked at.
fn further_riff<R: ByteIn>(input: &mut R, place: Place) -> Result<(Option<u32>, Place), FileFault>
    ensures answer { Answers (λ (s : Step). Some s) (further_riff place)
        (passage R.remaining R.failures input.old input.new) result }
    ensures sized { IfOk result (λ s. s.0 ≡ None) }
{
    let mut head = [0u8; 8];
    take(input, &mut head)?;
    if !is_name(&head[4..], b"AVIX") {
        return Err(FileFault::Another);
    }
    let next = enter_open(place)?;
    Ok((None, next))
}

/// Whether a movi without size goes on with a chunk of this name: an index is that of the RIFF.
pub(crate) fn goes_on(open_in: Open, name: [u8; 4]) -> bool
    ensures { result ≡ goes_on open_in name }
{
    match open_in {
        Open::Sized => false,
        Open::OpenRiff => false,
        Open::OpenMovi => !is_name(&name, b"idx1"),
    }
}

/// The next chunk of an RIFF or a movi without size, or None at the end of the input: a frame of so
/// many bytes with the place after it, or the place after another chunk.
pub(crate) fn next_open<R: ByteIn>(
    input: &mut R,
    place: Place,
) -> Result<Option<(Option<u32>, Place)>, FileFault>
    requires { 0 < place.input }
    ensures answer { AnswersOrNone EveryRiff (λ (s : Option Step). s) (open_found place)
        (passage R.remaining R.failures input.old input.new) result }
    ensures sized { IfOk result (λ o. IfSome o (λ s. IfSome s.0
        (λ n. (least_bytes place.names ≤ n) × (n ≤ most_bytes place.names)))) }
    ensures stand { IfOk result (λ o. o ≡ None →
        Stand (R.remaining input.old) (R.remaining input.new) false) }
{
    let Some(name) = name_or_end(input, place.owed)? else {
        return Ok(None);
    };
    if is_name(&name, b"RIFF") {
        return Ok(Some(further_riff(input, place)?));
    }
    if goes_on(place.open_in, name) {
        return Ok(Some(movi_chunk(input, place, name)?));
    }
    Ok(Some(riff_chunk(input, place, name)?))
}

/// How many bytes a chunk without a frame took, from one place to the next: of a movi its header
/// and its own name.
pub(crate) fn step_size(place: Place, next: Place) -> u64
    requires { next.input ≤ place.input }
    ensures { result ≡ step_size place next }
{
    if next.movi > 0 {
        return 12;
    }
    place.input - next.input
}
