//! Info, and how many nanoseconds a tick has by it.

ghost use Rattle.std.specs.Prelude.{◌≡◌, ◌+◌, ◌≤◌, ℕ, List, take, drop, IfOk, OnOk};
ghost use Rattle.ffv1_wire.specs.Passage.{passage};
ghost use Rattle.ffv1_reads.specs.Known.{Known};
ghost use Rattle.ffv1_reads.specs.Reads.{Answers, passed};
ghost use Rattle.ffv1_ebml.specs.Contents.{found, number_in};
ghost use Rattle.ffv1_ebml.specs.Elements.{content_judged, content_passed};
ghost use Rattle.ffv1_ebml.specs.Sums.{passed_summed};
ghost use Rattle.ffv1_matroska.specs.Opened.{element_passed};
ghost use Rattle.ffv1_matroska.specs.Scales.{crc_judged, scale_after, scale_among, scale_in};
ghost use Rattle.ffv1_matroska.specs.Scales.{scale_sized};
ghost use Rattle.ffv1_matroska.specs.Scales.{scale_of, scale_told, scale_with};
ghost use Rattle.ffv1_matroska.specs.WrittenIdents.{timestamp_scale};

use crate::beginning::pass_element;
use crate::idents::{CRC_32, INFO, TIMESTAMP_SCALE};
use ffv1_ebml::{Element, Sum, find, next_element, number, pass_summed, take_summed};
use ffv1_reads::{FileFault, pass, take};
use ffv1_wire::ByteIn;

/// How many nanoseconds a tick has if nothing is said.
pub(crate) const DEFAULT_SCALE: u64 = 1_000_000;

/// In how many bytes after the first element of Info TimestampScale is looked for.
const WINDOW: u64 = 4096;

/// What a TimestampScale says: its default if it has no bytes, and 0 if it has more than 8.
fn scale_of(field: &[u8]) -> u64
    ensures { result ≡ scale_of (number_in 1000000 field.now) }
{
    match number(field, DEFAULT_SCALE) {
        Ok(scale) => scale,
        Err(_) => 0,
    }
}

/// What the first TimestampScale of some elements says. If there is none, the default if they are
/// all that there are, and else 0; and 0 if an element before it can't be read.
fn scale_told(bytes: &[u8], all: bool) -> u64
    ensures { result ≡ scale_told all (found timestamp_scale bytes.now) }
{
    match find(bytes, TIMESTAMP_SCALE) {
        Ok(Some(field)) => scale_of(field),
        Ok(None) => { if all { DEFAULT_SCALE } else { 0 } }
        Err(_) => 0,
    }
}

/// Passes so many bytes of elements, and answers the scale that they say.
fn pass_scale<R: ByteIn>(input: &mut R, left: u64, sum: &mut Sum) -> Result<u64, FileFault>
    ensures answer { Answers (λ (_ : ℕ). sum.new) (passed_summed left sum.old)
        (passage R.remaining R.failures input.old input.new) result }
    ensures scale { IfOk result (λ scale. Known (R.remaining input.old) (R.remaining input.new)
        (λ text rest. scale ≡ scale_among left text)) }
{
    let mut bytes = [0u8; WINDOW as usize];
    let few = left.min(WINDOW) as usize;
    take_summed(input, &mut bytes[..few], sum)?;
    pass_summed(input, left - few as u64, sum)?;
    Ok(scale_told(&bytes[..few], left <= WINDOW))
}

/// Passes a CRC-32 and so many bytes of elements after it, and answers the scale that they say.
/// `Checksum` if they have another sum.
fn judge_scale<R: ByteIn>(input: &mut R, left: u64) -> Result<u64, FileFault>
    ensures answer { Answers (λ (_ : ℕ). tt) (crc_judged left)
        (passage R.remaining R.failures input.old input.new) result }
    ensures scale { IfOk result (λ scale. Known (R.remaining input.old) (R.remaining input.new)
        (λ text rest. scale ≡ scale_among left (drop 4 text))) }
{
    let mut stated = [0u8; 4];
    take(input, &mut stated)?;
    let mut sum = Sum::Awaits {
        stated: u32::from_le_bytes(stated),
        so_far: !0,
    };
    let scale = pass_scale(input, left, &mut sum)?;
    if !sum.is_met() {
        return Err(FileFault::Checksum);
    }
    Ok(scale)
}

/// Reads a TimestampScale of at most 8 bytes, and passes those that are left after it.
fn short_scale<R: ByteIn>(input: &mut R, size: u64, left: u64) -> Result<u64, FileFault>
    requires { size ≤ 8 }
    ensures answer { Answers (λ (_ : ℕ). tt) (passed (size + left))
        (passage R.remaining R.failures input.old input.new) result }
    ensures scale { IfOk result (λ scale. Known (R.remaining input.old) (R.remaining input.new)
        (λ text rest. scale ≡ scale_of (number_in 1000000 (take size text)))) }
{
    let mut bytes = [0u8; 8];
    take(input, &mut bytes[..size as usize])?;
    pass(input, left)?;
    Ok(scale_of(&bytes[..size as usize]))
}

/// Passes the content of another element, and those that are left after it, and answers the scale
/// that these say.
fn later_scale<R: ByteIn>(input: &mut R, size: u64, left: u64) -> Result<u64, FileFault>
    ensures answer { Answers (λ (_ : ℕ). tt) (passed (size + left))
        (passage R.remaining R.failures input.old input.new) result }
    ensures scale { IfOk result (λ scale. Known (R.remaining input.old) (R.remaining input.new)
        (λ text rest. scale ≡ scale_among left (drop size text))) }
{
    pass(input, size)?;
    let mut none = Sum::Absent;
    let scale = pass_scale(input, left, &mut none)?;
    Ok(scale)
}

/// Reads a TimestampScale of so many bytes, and passes those that are left after it. It says 0 if
/// it has more than 8 bytes.
fn first_scale<R: ByteIn>(input: &mut R, size: u64, left: u64) -> Result<u64, FileFault>
    ensures answer { Answers (λ (_ : ℕ). tt) (passed (size + left))
        (passage R.remaining R.failures input.old input.new) result }
    ensures scale { IfOk result (λ scale. Known (R.remaining input.old) (R.remaining input.new)
        (λ text rest. scale ≡ scale_sized size text)) }
{
    if size > 8 {
        later_scale(input, size, left)?;
        return Ok(0);
    }
    short_scale(input, size, left)
}

/// Passes the rest of Info after the header of its first element, and answers its scale.
fn scale_after<R: ByteIn>(input: &mut R, element: Element) -> Result<u64, FileFault>
    ensures answer { Answers (λ (_ : ℕ). tt) (content_judged element element.size)
        (passage R.remaining R.failures input.old input.new) result }
    ensures scale { IfOk result (λ scale. Known (R.remaining input.old) (R.remaining input.new)
        (λ text rest. scale ≡ scale_after element element.size text)) }
{
    let Some(size) = element.size else {
        return Err(FileFault::BadElement);
    };
    if element.ident == CRC_32 && size == 4 {
        return judge_scale(input, element.left);
    }
    if element.ident == TIMESTAMP_SCALE {
        return first_scale(input, size, element.left);
    }
    later_scale(input, size, element.left)
}

/// Passes the content of Info, of so many bytes, and answers how many nanoseconds a tick has by
/// it; 0 if that is not known. Faults as of `pass_content`.
#[tactic(auto, unfolding(crate::specs::Scales::scale_in))]
fn read_info<R: ByteIn>(input: &mut R, count: u64) -> Result<u64, FileFault>
    ensures answer { Answers (λ (_ : ℕ). tt) (content_passed count)
        (passage R.remaining R.failures input.old input.new) result }
    ensures scale { IfOk result (λ scale. Known (R.remaining input.old) (R.remaining input.new)
        (λ text rest. scale ≡ scale_in count text)) }
{
    if count == 0 {
        return Ok(DEFAULT_SCALE);
    }
    let mut none = Sum::Absent;
    let element = next_element(input, count, &mut none)?;
    let scale = scale_after(input, element)?;
    Ok(scale)
}

/// Passes an element of the Segment that holds no frames, after its header, as `pass_element` does.
/// After Info `scale` is how many nanoseconds a tick has by it, or 0 if that is not known.
pub(crate) fn pass_scaled<R: ByteIn>(
    input: &mut R,
    ident: u32,
    size: Option<u64>,
    scale: &mut u64,
) -> Result<(), FileFault>
    ensures answer { Answers (λ (_ : Unit {0}). tt) (element_passed ident size)
        (passage R.remaining R.failures input.old input.new) result }
    ensures scale { OnOk result (Known (R.remaining input.old) (R.remaining input.new)
        (λ text rest. scale.new ≡ scale_with ident size scale.old text)) }
{
    if ident != INFO {
        pass_element(input, ident, size)?;
        return Ok(());
    }
    let Some(count) = size else {
        return Err(FileFault::BadElement);
    };
    let told = read_info(input, count)?;
    *scale = told;
    Ok(())
}
