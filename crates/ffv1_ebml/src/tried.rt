//! Headers of elements in damaged bytes: a fault of theirs is a value.

ghost use Rattle.std.specs.Prelude.{◌≡◌, ◌≤◌, ◌-◌, ◌∷◌, [], IfOk, length, take};
ghost use Rattle.ffv1_ebml.specs.declared.tried.Header.{Header};
ghost use Rattle.ffv1_wire.specs.Passage.{passage};
ghost use Rattle.ffv1_reads.specs.Reads.{Answers};
ghost use Rattle.ffv1_ebml.specs.Elements.{is_among};
ghost use Rattle.ffv1_ebml.specs.Sums.{summed};
ghost use Rattle.ffv1_ebml.specs.Tried.{header_judged, header_tried, size_tried, tried, vint_bytes};
ghost use Rattle.ffv1_ebml.specs.Vints.{size_of, vint_read, vint_rest};

use crate::sum::Sum;
use crate::vint::{Vint, length_of, number_of, size_of};
use ffv1_reads::{FileFault, take};
use ffv1_wire::ByteIn;

/// What the header of an element says, in a parent that has so many bytes left.
#[derive(Clone, Copy)]
pub enum Header {
    /// The element fits in its parent.
    Whole {
        /// The ID, with all its bits.
        ident: u32,
        /// How many bytes of content it has.
        size: u64,
        /// How many bytes its parent has left after it.
        left: u64,
        /// The sum after the header.
        sum: Sum,
    },
    /// Its ID is one of an element that stands only outside of the parent.
    Outside {
        /// The ID, with all its bits.
        ident: u32,
        /// How many bytes the parent has left after the ID.
        left: u64,
    },
    /// The header has this fault.
    Broken {
        /// The fault.
        fault: FileFault,
        /// How many bytes the parent has left after what was read of the header.
        left: u64,
    },
}

/// The integer whose first byte was read, of at most `most` bytes, in a parent that has `left`.
///
/// A value is `BadElement` if it has more than `most`, then `Truncated` if it has more than are
/// left; both after its first byte. The call answers `Truncated` if the input ends before that, and
/// `Read` if a read failed.
pub fn try_vint_after<R: ByteIn>(
    input: &mut R,
    first: u8,
    most: usize,
    left: u64,
) -> Result<Result<Vint, FileFault>, FileFault>
    requires { most ≤ 8 }
    ensures answer { Answers vint_bytes (tried (vint_rest most left (first ∷ [])))
        (passage R.remaining R.failures input.old input.new) result }
    ensures len { IfOk result (λ r. IfOk r (λ v. length (take v.len v.bytes) ≡ v.len)) }
    ensures most { IfOk result (λ r. IfOk r (λ v. v.len ≤ most)) }
    ensures fits { IfOk result (λ r. IfOk r (λ v. v.len ≤ left)) }
{
    let len = length_of(first);
    if len > most {
        return Ok(Err(FileFault::BadElement));
    }
    if left < len as u64 {
        return Ok(Err(FileFault::Truncated));
    }
    let mut bytes = [0u8; 8];
    bytes[0] = first;
    take(input, &mut bytes[1..len])?;
    Ok(Ok(Vint { bytes, len }))
}

/// The next integer of at most `most` bytes, in a parent that has `left` bytes left, as
/// `try_vint_after`. A value is also `Truncated` if the parent has none left, before anything is
/// read.
#[tactic(auto, unfolding(crate::specs::Vints::vint_read))]
pub fn try_vint<R: ByteIn>(
    input: &mut R,
    most: usize,
    left: u64,
) -> Result<Result<Vint, FileFault>, FileFault>
    requires { most ≤ 8 }
    ensures answer { Answers vint_bytes (tried (vint_read most left))
        (passage R.remaining R.failures input.old input.new) result }
    ensures len { IfOk result (λ r. IfOk r (λ v. length (take v.len v.bytes) ≡ v.len)) }
    ensures most { IfOk result (λ r. IfOk r (λ v. v.len ≤ most)) }
    ensures fits { IfOk result (λ r. IfOk r (λ v. v.len ≤ left)) }
{
    if left == 0 {
        return Ok(Err(FileFault::Truncated));
    }
    let mut first = [0u8; 1];
    take(input, &mut first)?;
    try_vint_after(input, first[0], most, left)
}

/// The size of an element whose ID was read, in a parent that has `left` bytes left after that.
#[tactic(auto, unfolding(crate::specs::Tried::size_tried))]
fn try_size<R: ByteIn>(input: &mut R, ident: u32, left: u64, sum: Sum) -> Result<Header, FileFault>
    ensures { Answers (λ (h : Header). h) (size_tried ident left sum)
        (passage R.remaining R.failures input.old input.new) result }
{
    match try_vint(input, 8, left)? {
        Err(fault) => Ok(Header::Broken {
            fault,
            left: left.saturating_sub(1),
        }),
        Ok(size) => Ok(judge_size(ident, left, sum, &size)),
    }
}

/// A size that was read.
fn judge_size(ident: u32, left: u64, sum: Sum, size: &Vint) -> Header
    requires len { length (take size.now.len size.now.bytes) ≡ size.now.len }
    requires most { size.now.len ≤ 8 }
    requires fits { size.now.len ≤ left }
    ensures { result ≡ header_judged ident (summed sum (take size.now.len size.now.bytes))
        (left - length (take size.now.len size.now.bytes))
        (size_of (take size.now.len size.now.bytes)) }
{
    let bytes = &size.bytes[..size.len];
    let left = left - size.len as u64;
    let Some(count) = size_of(bytes) else {
        return Header::Broken {
            fault: FileFault::BadElement,
            left,
        };
    };
    if left < count {
        return Header::Broken {
            fault: FileFault::Truncated,
            left,
        };
    }
    Header::Whole {
        ident,
        size: count,
        left: left - count,
        sum: sum.after(bytes),
    }
}

/// The header of the next element of a parent that has `left` bytes left, and outside of which the
/// elements with these IDs stand, and the sum after it. Its size must be known, and fit.
///
/// `Truncated` if the input ends before that, `Read` if a read failed. Any fault of the header is a
/// value, of which `next_element_in` says when it comes and what was read.
#[tactic(auto, unfolding(crate::specs::Tried::header_tried))]
pub fn try_header<R: ByteIn>(
    input: &mut R,
    outside: &[u32],
    left: u64,
    sum: Sum,
) -> Result<Header, FileFault>
    ensures { Answers (λ (h : Header). h) (header_tried (is_among outside.now) left sum)
        (passage R.remaining R.failures input.old input.new) result }
{
    let ident = match try_vint(input, 4, left)? {
        Err(fault) => {
            return Ok(Header::Broken {
                fault,
                left: left.saturating_sub(1),
            });
        }
        Ok(ident) => ident,
    };
    let bytes = &ident.bytes[..ident.len];
    let number = number_of(bytes) as u32;
    let after = left - ident.len as u64;
    if outside.contains(&number) {
        return Ok(Header::Outside {
            ident: number,
            left: after,
        });
    }
    try_size(input, number, after, sum.after(bytes))
}
