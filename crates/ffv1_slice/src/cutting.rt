//! Cuts a payload into slices.

ghost use Rattle.std.specs.Prelude.{◌≡◌, ◌⊎◌, ℕ, ◌+◌, ◌-◌, ◌*◌, ◌<◌, ◌≤◌, Ok, Err, Some, None};
ghost use Rattle.std.specs.Prelude.{OnOk, OnErr, IfOk, IfErr, length, take, [], slice_index};
ghost use Rattle.ffv1_record.specs.Configuration.{configuration_of};
ghost use Rattle.ffv1_slice.specs.Footer.{foot_length};
ghost use Rattle.ffv1_slice.specs.Cutting.{size_before, IsCutting};
ghost use Rattle.ffv1_slice.specs.Internal.Walk.{cut_of, offsets_onto, first_damaged};
ghost use Rattle.ffv1_slice.specs.Cutting.{Cuts, CutsTo, IsRefused};
ghost use Rattle.std.proofs.Common.{suc};

use crate::fault::SliceFault;
use crate::spans::Spans;
use ffv1_record::{Checked, Config, laws as record_laws, parity};
use std::alloc::Allocator;

/// Why a payload is not cut, and in which slice. The slice is 0 if bytes are left before the
/// first.
#[derive(Clone, Copy, Debug, PartialEq, Eq)]
pub struct CutFault {
    /// Why.
    pub fault: SliceFault,
    /// The number of the slice, in raster order.
    pub slice: u16,
}

/// The slice_size in the footer of a slice that ends at end.
fn size_before(payload: &[u8], foot: usize, end: usize) -> usize
    requires some { 3 ≤ foot }
    requires room { foot ≤ end }
    requires inside { end ≤ length payload.now }
    ensures value { result ≡ size_before payload.now foot end }
    ensures few { result < 16777216 }
{
    let at = end - foot;
    65536 * usize::from(payload[at])
        + 256 * usize::from(payload[at + 1])
        + usize::from(payload[at + 2])
}

/// The offsets of so many slices, found from the last to the first.
fn find(payload: &[u8], foot: usize, count: usize, offsets: &mut [usize]) -> Result<(), CutFault>
    requires foot { 3 ≤ foot }
    requires small { foot ≤ 8 }
    requires few { count ≤ 1024 }
    requires room { count < length offsets.old }
    ensures ok { OnOk result
        (offsets_onto payload.now foot count (length payload.now) []
        ≡ Ok (take (count + 1) offsets.new)) }
    ensures err { IfErr result (λ f.
        offsets_onto payload.now foot count (length payload.now) [] ≡ Err f) }
{
    let mut end = payload.len();
    offsets[count] = end;
    for slice in (0..count).rev() {
        if end < foot {
            return Err(CutFault {
                fault: SliceFault::Footer,
                slice: slice as u16,
            });
        }
        let size = size_before(payload, foot, end);
        if end - foot < size {
            return Err(CutFault {
                fault: SliceFault::Footer,
                slice: slice as u16,
            });
        }
        end = end - foot - size;
        offsets[slice] = end;
    }
    if end != 0 {
        return Err(CutFault {
            fault: SliceFault::Leftover,
            slice: 0,
        });
    }
    Ok(())
}

/// Each slice has the remainder 0 and the status 0.
fn judge(payload: &[u8], offsets: &[usize], count: usize) -> Result<(), CutFault>
    requires few { count ≤ 1024 }
    requires long { length offsets.now ≡ count + 1 }
    requires cutting { IsCutting payload.now 8 count (slice_index offsets.now) }
    ensures ok { OnOk result (first_damaged payload.now (slice_index offsets.now) 0 count ≡ None) }
    ensures err { IfErr result (λ f.
        first_damaged payload.now (slice_index offsets.now) 0 count ≡ Some f) }
{
    record_laws::parity_makes_the_remainder_zero();
    for slice in 0..count {
        let (begin, end) = (offsets[slice], offsets[slice + 1]);
        if parity(&payload[begin..end]) != 0 {
            return Err(CutFault {
                fault: SliceFault::SliceParity,
                slice: slice as u16,
            });
        }
        if payload[end - 5] != 0 {
            return Err(CutFault {
                fault: SliceFault::SliceStatus,
                slice: slice as u16,
            });
        }
    }
    Ok(())
}

/// How many slices pictures have.
fn slices_of<A: Allocator>(checked: &Checked<A>) -> usize
    ensures value { result ≡ checked.now.configuration.columns * checked.now.configuration.rows }
    ensures some { 0 < result }
    ensures few { result ≤ 1024 }
{
    record_laws::accepted_configuration_is_in_range();
    let config = checked.config();
    config.columns as usize * config.rows as usize
}

/// How long a footer is.
fn foot_of(ec: bool) -> usize
    ensures value { result ≡ foot_length ec }
    ensures least { 3 ≤ result }
    ensures most { result ≤ 8 }
{
    if ec { 8 } else { 3 }
}

/// Cuts a payload, from its end.
fn cut_from_end<A: Allocator, B: Allocator>(
    checked: &Checked<A>,
    payload: &[u8],
    spans: &mut Spans<B>,
) -> Result<(), CutFault>
    ensures ok { OnOk result (cut_of checked.now.configuration payload.now ≡ Ok spans.new.offsets) }
    ensures foot { OnOk result (spans.new.foot ≡ foot_length checked.now.configuration.ec) }
    ensures err { IfErr result (λ f. cut_of checked.now.configuration payload.now ≡ Err f) }
    ensures cleared { OnErr result (spans.new.offsets ≡ []) }
    ensures room { spans.new.room ≡ 1025 }
    ensures capacity { spans.new.capacity ≡ spans.old.capacity }
{
    spans.held = 0;
    let count = slices_of(checked);
    let ec = checked.config().ec;
    let foot = foot_of(ec);
    find(payload, foot, count, &mut spans.offsets)?;
    if ec {
        judge(payload, &spans.offsets[..count + 1], count)?;
    }
    spans.foot = foot;
    spans.held = count + 1;
    Ok(())
}

/// Cuts a payload into the slices of a configuration's pictures.
///
/// The slices are found from the last to the first: `Footer` if there are fewer bytes than a
/// footer, or fewer before it than its slice_size, then `Leftover` if bytes are left before the
/// first slice. With ec each slice, from the first, has the remainder 0, else `SliceParity`, and
/// the status 0, else `SliceStatus`. After a refusal there are no spans. It takes no memory and
/// gives none back, whatever it answers: the capacity stays.
pub fn cut<A: Allocator, B: Allocator>(
    checked: &Checked<A>,
    payload: &[u8],
    spans: &mut Spans<B>,
) -> Result<(), CutFault>
    ensures ok { OnOk result (CutsTo checked.now.configuration payload.now (Ok spans.new.offsets)) }
    ensures foot { OnOk result (spans.new.foot ≡ foot_length checked.now.configuration.ec) }
    ensures err { IfErr result (λ f. CutsTo checked.now.configuration payload.now (Err f)) }
    ensures cleared { OnErr result (spans.new.offsets ≡ []) }
    ensures room { spans.new.room ≡ 1025 }
    ensures capacity { spans.new.capacity ≡ spans.old.capacity }
    ensures found { OnOk result (Cuts checked.now.configuration payload.now
        (slice_index spans.new.offsets)) }
    ensures long { OnOk result
        (length spans.new.offsets
        ≡ suc (checked.now.configuration.columns * checked.now.configuration.rows)) }
    ensures only { (at : ℕ → ℕ) → Cuts checked.now.configuration payload.now at → OnErr result ⊥ }
    ensures exact { IfErr result (IsRefused checked.now.configuration payload.now) }
{
    // Both arms are written out, so that the clauses are proved by arm.
    match cut_from_end(checked, payload, spans) {
        Ok(()) => Ok(()),
        Err(fault) => Err(fault),
    }
}
