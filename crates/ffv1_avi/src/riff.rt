//! What follows a movi: the next one in its RIFF, or the next RIFF.

ghost use Rattle.std.specs.Prelude.{◌≡◌, ◌+◌, ◌<◌, ◌≤◌, ℕ, List, Option, Some, None, codes, true};
ghost use Rattle.std.specs.Prelude.{IfOk, false, if◌then◌else◌, length, nat_lt};
ghost use Rattle.ffv1_avi.specs.Behind.{Stand, StandAfter};
ghost use Rattle.ffv1_avi.specs.Files.{moved, movi_sought, riff_begun, riff_entered};
ghost use Rattle.ffv1_avi.specs.Opens.{open_riff, taken_or_end};
ghost use Rattle.ffv1_avi.specs.Opens.{visit_riff};
ghost use Rattle.ffv1_avi.specs.Internal.Ending.{AnswersOrNone, all_of};
ghost use Rattle.ffv1_avi.specs.Offsets.{movi_left, riff_left};
ghost use Rattle.ffv1_avi.specs.Internal.Offsets.{MovesTo, SeeksMovi, TellsBehind};
ghost use Rattle.ffv1_avi.specs.Places.{extent_of};
ghost use Rattle.ffv1_reads.specs.Reads.{Answers};
ghost use Rattle.ffv1_avi.specs.Walk.{is_name};
ghost use Rattle.ffv1_avi.specs.declared.place.Extent.TheVariants.{EveryRiff};
ghost use Rattle.ffv1_avi.specs.declared.place.Open.TheVariants.{Sized};
ghost use Rattle.ffv1_avi.specs.declared.place.Place.{Place};
ghost use Rattle.ffv1_wire.specs.Passage.{at_rest, passage};

use crate::chunk::{Entry, is_known, is_name, next_entry, padded};
use crate::names::is_frame;
use crate::open::own_name;
use crate::place::{Names, Open, Place, open_at};
use byteorder::{ByteOrder, LittleEndian};
use ffv1_reads::{FileFault, begins_file, pass};
use ffv1_wire::{ByteIn, read_full};

/// A chunk of RIFF after a movi: the bytes of the next movi, or None if it was passed. None is a
/// frame.
#[tactic(auto, unfolding(crate::specs::Opens::visit_riff))]
pub(crate) fn visit_riff<R: ByteIn>(
    input: &mut R,
    names: Names,
    entry: Entry,
) -> Result<Option<(u64, u64)>, FileFault>
    requires { is_name entry.name (codes "LIST") ≡ true → 4 ≤ entry.size }
    ensures { Answers (λ (p : Option (ℕ × ℕ)). (tt, p)) (visit_riff names tt entry)
        (passage R.remaining R.failures input.old input.new) result }
{
    if !is_name(&entry.name, b"LIST") {
        if is_frame(names, entry.name) {
            return Err(FileFault::NotAvi);
        }
        pass(input, padded(entry.size))?;
        return Ok(None);
    }
    let own = own_name(input)?;
    if is_name(&own, b"movi") {
        return Ok(Some((u64::from(entry.size - 4), entry.left)));
    }
    pass(input, padded(entry.size) - 4)?;
    Ok(None)
}

/// The bytes of the next movi of RIFF, and what that has left after it; None at its end. What was
/// read is counted.
#[tactic(auto, unfolding(crate::specs::Files::movi_sought))]
fn seek_movi<R: ByteIn>(
    input: &mut R,
    place: Place,
    offset: &mut u64,
) -> Result<Option<(u64, u64)>, FileFault>
    ensures answer { Answers (λ (p : Option (ℕ × ℕ)). p) (movi_sought place.names place.riff)
        (passage R.remaining R.failures input.old input.new) result }
    ensures from { place.open_in ≡ Sized → 0 < place.input → SeeksMovi place
        (passage R.remaining R.failures input.old input.new) result offset.old offset.new }
{
    let mut left = place.riff;
    while let Some(entry) = next_entry(input, left)? {
        if let Some(movi) = visit_riff(input, place.names, entry)? {
            *offset = offset.saturating_add(12);
            return Ok(Some(movi));
        }
        *offset = offset.saturating_add(8 + padded(entry.size));
        left = entry.left;
    }
    Ok(None)
}

/// Fills the bytes, at least one, and answers how many stand at their front: fewer only if no frame
/// is owed, and the input ends after them.
pub(crate) fn take_some<R: ByteIn>(
    input: &mut R,
    owed: u32,
    bytes: &mut [u8],
) -> Result<usize, FileFault>
    requires { 0 < length bytes.old }
    ensures answer { AnswersOrNone EveryRiff (λ (n : ℕ). all_of (length bytes.old) n bytes.new)
        (taken_or_end (length bytes.old) owed)
        (passage R.remaining R.failures input.old input.new) result }
    ensures stand { IfOk result (λ n. Stand (R.remaining input.old) (R.remaining input.new)
        (nat_lt 0 n)) }
{
    let Ok(n) = read_full(input, bytes) else {
        return Err(FileFault::Read);
    };
    if n == bytes.len() {
        return Ok(n);
    }
    if owed > 0 {
        return Err(FileFault::Truncated);
    }
    Ok(n)
}

/// An RIFF after the first whose size is not known, of which twelve bytes were read.
pub(crate) fn enter_open(place: Place) -> Result<Place, FileFault>
    ensures { (text : Option (List ℕ)) (failures : ℕ) →
        Answers (λ (p : Place). Some p) (open_riff place) (at_rest text failures) result }
{
    if place.input <= 12 {
        return Err(FileFault::Truncated);
    }
    Ok(open_at(place, Open::OpenRiff, place.input - 12, 0))
}

/// The size and the form of an RIFF after the first, after its name; or None if no frame is owed,
/// and the input ends before.
fn enter_riff<R: ByteIn>(input: &mut R, place: Place) -> Result<Option<Place>, FileFault>
    ensures { AnswersOrNone EveryRiff (λ (p : Option Place). p) (riff_entered place)
        (passage R.remaining R.failures input.old input.new) result }
{
    let mut head = [0u8; 8];
    let n = take_some(input, place.owed, &mut head)?;
    if n < 8 {
        return Ok(None);
    }
    if !is_name(&head[4..], b"AVIX") {
        return Err(FileFault::Another);
    }
    let size = LittleEndian::read_u32(&head);
    if !is_known(size) {
        return Ok(Some(enter_open(place)?));
    }
    if size < 4 {
        return Err(FileFault::NotAvi);
    }
    let whole = 8 + u64::from(size);
    if place.input <= whole {
        return Err(FileFault::Truncated);
    }
    Ok(Some(Place {
        input: place.input - whole,
        riff: u64::from(size - 4),
        movi: 0,
        names: place.names,
        owed: place.owed,
        open_in: Open::Sized,
    }))
}

/// The next RIFF, or None if the frames end: whether bytes stand there is then said.
fn begin_riff<R: ByteIn>(
    input: &mut R,
    place: Place,
    some: &mut bool,
) -> Result<Option<Place>, FileFault>
    ensures answer { AnswersOrNone EveryRiff (λ (p : Option Place). p) (riff_begun place)
        (passage R.remaining R.failures input.old input.new) result }
    ensures told { IfOk result (λ o. o ≡ None →
        Stand (R.remaining input.old) (R.remaining input.new) some.new) }
{
    let mut name = [0u8; 4];
    let n = take_some(input, place.owed, &mut name)?;
    *some = n > 0;
    if n < 4 {
        return Ok(None);
    }
    if is_name(&name, b"RIFF") {
        return enter_riff(input, place);
    }
    if begins_file(&name) {
        return Err(FileFault::Another);
    }
    if place.owed > 0 {
        return Err(FileFault::Truncated);
    }
    Ok(None)
}

/// Where bytes stand, if any do.
fn if_some(some: bool, end: u64) -> Option<u64>
    ensures { result ≡ if some then Some end else None }
{
    if some {
        return Some(end);
    }
    None
}

/// The same, which counts its first twelve bytes if there is one; else it says where other bytes
/// stand after the last RIFF, if any do.
fn count_riff<R: ByteIn>(
    input: &mut R,
    place: Place,
    offset: &mut u64,
    after: &mut Option<u64>,
) -> Result<Option<Place>, FileFault>
    ensures answer { AnswersOrNone EveryRiff (λ (p : Option Place). p) (riff_begun place)
        (passage R.remaining R.failures input.old input.new) result }
    ensures from { place.open_in ≡ Sized → 0 < place.input → MovesTo (riff_left place 0)
        (passage R.remaining R.failures input.old input.new) result offset.old offset.new }
    ensures told { IfOk result (λ o. o ≡ None →
        StandAfter (R.remaining input.old) (R.remaining input.new) offset.old after.new) }
{
    let mut some = false;
    match begin_riff(input, place, &mut some) {
        Ok(Some(next)) => {
            *offset = offset.saturating_add(12);
            Ok(Some(next))
        }
        Ok(None) => {
            *after = if_some(some, *offset);
            Ok(None)
        }
        Err(fault) => Err(fault),
    }
}

/// Where frames are looked for next after the end of a movi; None at the end. What was read is
/// counted, and at the end it is said where other bytes stand after the last RIFF, if any do.
pub(crate) fn move_on<R: ByteIn>(
    input: &mut R,
    place: Place,
    offset: &mut u64,
    after: &mut Option<u64>,
) -> Result<Option<Place>, FileFault>
    requires { place.open_in ≡ Sized }
    ensures answer { AnswersOrNone (extent_of place) (λ (p : Option Place). p) (moved place)
        (passage R.remaining R.failures input.old input.new) result }
    ensures from { MovesTo (movi_left place 0)
        (passage R.remaining R.failures input.old input.new) result offset.old offset.new }
    ensures behind { IfOk result (λ o. o ≡ None →
        TellsBehind (extent_of place) (movi_left place 0) (R.remaining input.old)
        (R.remaining input.new) offset.old after.new false) }
{
    if place.input == 0 {
        *after = None;
        return Ok(None);
    }
    let Some((movi, riff)) = seek_movi(input, place, offset)? else {
        return count_riff(input, place, offset, after);
    };
    Ok(Some(Place {
        input: place.input,
        riff,
        movi,
        names: place.names,
        owed: place.owed,
        open_in: place.open_in,
    }))
}
