//! Headers of elements, and their content passed.

ghost use Rattle.std.specs.Prelude.{◌≡◌, ◌≤◌, ◌<◌, ◌+◌, ◌-◌, ◌^◌, ◌∷◌, [], ℕ, List, Option, Some};
ghost use Rattle.std.specs.Prelude.{IfOk, IfSome, OnErr, length, take};
ghost use Rattle.ffv1_wire.specs.Passage.{passage};
ghost use Rattle.ffv1_reads.specs.Reads.{Answers};
ghost use Rattle.ffv1_reads.specs.Ends.{AnswersOrNone};
ghost use Rattle.ffv1_ebml.specs.Elements.{IsWithin, content_judged, content_passed, data_read};
ghost use Rattle.ffv1_ebml.specs.Elements.{element_after, element_in, element_rest, element_read};
ghost use Rattle.ffv1_ebml.specs.Elements.{first_read, is_among, is_crc};

use crate::sum::{Sum, pass_summed};
use crate::vint::{Vint, data_of, next_vint, number_of, size_of, vint_rest};
use ffv1_reads::{FileFault, pass, take};
use ffv1_wire::{ByteIn, read_byte};

/// The header of an element (RFC 8794, 3).
#[derive(Clone, Copy, Debug, PartialEq, Eq)]
pub struct Element {
    /// The ID, with all its bits.
    pub ident: u32,
    /// How many bytes of content it has, or None if that is unknown.
    pub size: Option<u64>,
    /// How many bytes its parent has left after the element; if its size is unknown, after the
    /// header.
    pub left: u64,
}

/// The ID of CRC-32.
const CRC_32: u32 = 0xBF;

/// Whether an element is one of CRC-32, of 4 bytes.
pub(crate) fn is_crc(ident: u32, size: u64) -> bool
    ensures { result ≡ is_crc ident size }
{
    ident == CRC_32 && size == 4
}

/// The rest of a header whose ID was read.
fn element_rest<R: ByteIn>(
    input: &mut R,
    ident: &Vint,
    left: u64,
    sum: &mut Sum,
) -> Result<Element, FileFault>
    requires len { length (take ident.now.len ident.now.bytes) ≡ ident.now.len }
    requires few { ident.now.len ≤ 4 }
    requires fits { ident.now.len ≤ left }
    ensures answer { Answers (λ (e : Element). (e, sum.new))
        (element_rest left sum.old (take ident.now.len ident.now.bytes))
        (passage R.remaining R.failures input.old input.new) result }
    ensures err { OnErr result (sum.new ≡ sum.old) }
    ensures within { IfOk result (λ e. IsWithin e (left - ident.now.len - 1)) }
{
    let left = left - ident.len as u64;
    let size = next_vint(input, 8, left)?;
    let left = left - size.len as u64;
    let number = number_of(&ident.bytes[..ident.len]) as u32;
    let known = size_of(&size.bytes[..size.len]);
    let after = match known {
        None => left,
        Some(count) => {
            if left < count {
                return Err(FileFault::Truncated);
            }
            left - count
        }
    };
    *sum = sum
        .after(&ident.bytes[..ident.len])
        .after(&size.bytes[..size.len]);
    Ok(Element {
        ident: number,
        size: known,
        left: after,
    })
}

/// Reads the header of the next element of a parent that has `left` bytes left, and outside of
/// which the elements with these IDs stand, and sums it.
///
/// `BadElement` if its ID has more than 4 bytes, after the first of them, or is one of these, after
/// the ID, whatever comes after that. Then `BadElement` if its size has more than 8 bytes, after
/// the first. `Truncated` if its ID, its size or its content passes what is left, after what was
/// read of the header, or if the input ends before that. After a fault the sum is as it was.
#[tactic(auto, unfolding(crate::specs::Elements::element_in))]
pub fn next_element_in<R: ByteIn>(
    input: &mut R,
    outside: &[u32],
    left: u64,
    sum: &mut Sum,
) -> Result<Element, FileFault>
    ensures answer { Answers (λ (e : Element). (e, sum.new))
        (element_in (is_among outside.now) left sum.old)
        (passage R.remaining R.failures input.old input.new) result }
    ensures err { OnErr result (sum.new ≡ sum.old) }
    ensures within { IfOk result (λ e. IsWithin e (left - 2)) }
{
    let ident = next_vint(input, 4, left)?;
    let number = number_of(&ident.bytes[..ident.len]) as u32;
    if outside.contains(&number) {
        return Err(FileFault::BadElement);
    }
    let element = element_rest(input, &ident, left, sum)?;
    Ok(element)
}

/// Reads the header of the next element of a parent that has `left` bytes left, and sums it.
///
/// `BadElement` if its ID has more than 4 bytes or its size more than 8, after the first byte of
/// that. `Truncated` if its ID, its size or its content passes what is left, after what was read of
/// the header, or if the input ends before that. After a fault the sum is as it was.
pub fn next_element<R: ByteIn>(
    input: &mut R,
    left: u64,
    sum: &mut Sum,
) -> Result<Element, FileFault>
    ensures answer { Answers (λ (e : Element). (e, sum.new)) (element_read left sum.old)
        (passage R.remaining R.failures input.old input.new) result }
    ensures err { OnErr result (sum.new ≡ sum.old) }
    ensures within { IfOk result (λ e. IsWithin e (left - 2)) }
{
    next_element_in(input, &[], left, sum)
}

/// A variable-size integer that was read (RFC 8794, 4).
#[derive(Clone, Copy, Debug, PartialEq, Eq)]
pub struct Data {
    /// Its data.
    pub value: u64,
    /// How many bytes are left after it.
    pub left: u64,
}

/// Reads the next variable-size integer, as a block's track number is one, if `left` bytes are
/// left, and sums it.
///
/// `BadElement` if it has more than 8 bytes, after the first. `Truncated` if it passes what is
/// left, after the first or, if nothing is left, before it. `Truncated` also if the input ends
/// before that. After a fault the sum is as it was.
pub fn next_data<R: ByteIn>(input: &mut R, left: u64, sum: &mut Sum) -> Result<Data, FileFault>
    ensures answer { Answers (λ (d : Data). (d, sum.new)) (data_read left sum.old)
        (passage R.remaining R.failures input.old input.new) result }
    ensures err { OnErr result (sum.new ≡ sum.old) }
    ensures less { IfOk result (λ d. d.left + 1 ≤ left) }
{
    let vint = next_vint(input, 8, left)?;
    let bytes = &vint.bytes[..vint.len];
    let value = data_of(bytes);
    *sum = sum.after(bytes);
    Ok(Data {
        value,
        left: left - vint.len as u64,
    })
}

/// Reads the header of the next element of a parent that has `left` bytes left, or answers None if
/// the input has ended before it.
///
/// `Read` if a read failed, also that of its first byte; other faults as of `next_element`.
pub fn first_element<R: ByteIn>(input: &mut R, left: u64) -> Result<Option<Element>, FileFault>
    ensures answer { AnswersOrNone (λ (e : Option Element). e) (first_read left)
        (passage R.remaining R.failures input.old input.new) result }
    ensures within { IfOk result (λ o. IfSome o (λ e. IsWithin e (left - 2))) }
{
    if left == 0 {
        return Err(FileFault::Truncated);
    }
    let next = match read_byte(input) {
        Ok(next) => next,
        Err(_) => return Err(FileFault::Read),
    };
    let Some(first) = next else {
        return Ok(None);
    };
    let element = element_after(input, first, left)?;
    Ok(Some(element))
}

/// The header of an element whose first byte was read.
fn element_after<R: ByteIn>(input: &mut R, first: u8, left: u64) -> Result<Element, FileFault>
    ensures answer { Answers (λ (e : Element). e) (element_after left first)
        (passage R.remaining R.failures input.old input.new) result }
    ensures within { IfOk result (λ e. IsWithin e (left - 2)) }
{
    let ident = vint_rest(input, first, 4, left)?;
    let mut sum = Sum::Absent;
    let element = element_rest(input, &ident, left, &mut sum)?;
    Ok(element)
}

/// Passes the rest of some content after the header of its first element, and judges its CRC-32.
fn content_rest<R: ByteIn>(input: &mut R, element: Element) -> Result<(), FileFault>
    requires { IfSome element.size (λ size. size + element.left < 2 ^ 64) }
    ensures { Answers (λ (_ : Unit {0}). tt) (content_judged element element.size)
        (passage R.remaining R.failures input.old input.new) result }
{
    let Some(size) = element.size else {
        return Err(FileFault::BadElement);
    };
    if is_crc(element.ident, size) {
        let mut stated = [0u8; 4];
        take(input, &mut stated)?;
        let mut sum = Sum::Awaits {
            stated: u32::from_le_bytes(stated),
            so_far: !0,
        };
        pass_summed(input, element.left, &mut sum)?;
        if !sum.is_met() {
            return Err(FileFault::Checksum);
        }
        return Ok(());
    }
    pass(input, size + element.left)?;
    Ok(())
}

/// Passes the content of an element, of so many bytes. If its first element is a CRC-32 of 4
/// bytes, the sum of all that comes after that is judged.
///
/// `Checksum` if it is another one, after the content. `BadElement` and `Truncated` if the header
/// of the first element is no header, after what was read of it. `BadElement` also if its size is
/// unknown. `Truncated` if the input ends before that.
#[tactic(auto, unfolding(crate::specs::Elements::content_passed))]
pub fn pass_content<R: ByteIn>(input: &mut R, count: u64) -> Result<(), FileFault>
    ensures { Answers (λ (_ : Unit {0}). tt) (content_passed count)
        (passage R.remaining R.failures input.old input.new) result }
{
    if count == 0 {
        return Ok(());
    }
    let mut none = Sum::Absent;
    let element = next_element(input, count, &mut none)?;
    content_rest(input, element)?;
    Ok(())
}
