//! Chunks, header by header.

ghost use Rattle.std.specs.Prelude.{◌≡◌, ◌+◌, ◌≤◌, IfOk, IfSome, List, Option, Some, ℕ, codes};
ghost use Rattle.std.specs.Prelude.{false};
ghost use Rattle.std.specs.Prelude.{true};
ghost use Rattle.ffv1_wire.specs.Passage.{at_rest, passage};
ghost use Rattle.ffv1_reads.specs.Reads.{Answers};
ghost use Rattle.ffv1_avi.specs.Padding.{padded};
ghost use Rattle.ffv1_avi.specs.Names.{is_barred, riff_rule, rule_of};
ghost use Rattle.ffv1_avi.specs.Walk.{entry_in, entry_judged, entry_read, is_known, is_name};
ghost use Rattle.ffv1_avi.specs.Walk.{is_sizeless};
ghost use Rattle.ffv1_avi.specs.Walk.{sizeless_judged};
ghost use Rattle.ffv1_avi.specs.declared.chunk.Entry.{Entry};

use crate::names::{bars, size_in};
use crate::place::{Extent, Names};
use byteorder::{ByteOrder, LittleEndian};
use ffv1_reads::{FileFault, take};
use ffv1_wire::ByteIn;

/// A chunk's header, and how many bytes its list has left after the chunk and its padding.
#[derive(Clone, Copy)]
pub(crate) struct Entry {
    pub(crate) name: [u8; 4],
    pub(crate) size: u32,
    pub(crate) left: u64,
}

/// Whether the four bytes are this name.
pub(crate) fn is_name(bytes: &[u8], name: &[u8]) -> bool
    ensures { result ≡ is_name bytes.now name.now }
{
    bytes == name
}

/// A size with its padding.
pub(crate) fn padded(size: u32) -> u64
    ensures { result ≡ padded size }
{
    u64::from(size) + u64::from(size % 2)
}

/// Whether a size of RIFF, or of a list movi, says how many bytes it has: 0 and the greatest number
/// do not.
pub(crate) fn is_known(size: u32) -> bool
    ensures { result ≡ is_known size }
{
    size != 0 && size != u32::MAX
}

/// The header of a chunk in a list that has so many bytes left. Of a list that movi opens the chunk
/// is its header and its own name.
///
/// `NotAvi` if the list bars the chunk's name; then `Truncated` if the chunk does not fit in the
/// list; `NotAvi` if it is a list without room for its own name.
pub(crate) fn judge_entry(
    names: Names,
    left: u64,
    name: [u8; 4],
    size: u32,
) -> Result<Entry, FileFault>
    ensures answer { (text : Option (List ℕ)) (failures : ℕ) →
        Answers (λ (e : Entry). Some e) (entry_judged (rule_of names) left name size)
        (at_rest text failures) result }
    ensures less { IfOk result (λ e. e.left + 8 ≤ left) }
    ensures listed { IfOk result (λ e. is_name e.name (codes "LIST") ≡ true → 4 ≤ e.size) }
    ensures opened { IfOk result (λ e. is_barred names e.name ≡ false →
        is_name e.name (codes "LIST") ≡ true → e.size ≡ 4) }
{
    if bars(names, name) {
        return Err(FileFault::NotAvi);
    }
    let whole = 8 + padded(size);
    if left < whole {
        return Err(FileFault::Truncated);
    }
    if is_name(&name, b"LIST") && size < 4 {
        return Err(FileFault::NotAvi);
    }
    let size = size_in(names, name, size);
    let taken = 8 + padded(size);
    Ok(Entry {
        name,
        size,
        left: left - taken,
    })
}

/// Whether a chunk of RIFF is a list without size, where there may be one.
pub(crate) fn is_sizeless(extent: Extent, name: [u8; 4], size: u32) -> bool
    ensures { result ≡ is_sizeless (riff_rule extent) name size }
{
    match extent {
        Extent::FirstMovi => false,
        Extent::EveryRiff => is_name(&name, b"LIST") && !is_known(size),
    }
}

/// A list without size, which is given as 0: `Truncated` if its own name does not fit.
pub(crate) fn judge_sizeless(left: u64, name: [u8; 4]) -> Result<Entry, FileFault>
    ensures answer { (text : Option (List ℕ)) (failures : ℕ) →
        Answers (λ (e : Entry). Some e) (sizeless_judged left name) (at_rest text failures)
        result }
    ensures less { IfOk result (λ e. e.left + 8 ≤ left) }
    ensures bare { IfOk result (λ e. (e.size ≡ 0) × (4 ≤ e.left)) }
{
    if left < 12 {
        return Err(FileFault::Truncated);
    }
    Ok(Entry {
        name,
        size: 0,
        left: left - 8,
    })
}

/// The same in RIFF up to its first movi. If every RIFF is read, a list may have no size: it is
/// then given as 0.
fn judge_in_riff(extent: Extent, left: u64, name: [u8; 4], size: u32) -> Result<Entry, FileFault>
    ensures answer { (text : Option (List ℕ)) (failures : ℕ) →
        Answers (λ (e : Entry). Some e) (entry_judged (riff_rule extent) left name size)
        (at_rest text failures) result }
    ensures less { IfOk result (λ e. e.left + 8 ≤ left) }
    ensures listed { IfOk result (λ e. is_name e.name (codes "LIST") ≡ true →
        (e.size ≡ 0 → ⊥) → 4 ≤ e.size) }
{
    if !is_sizeless(extent, name, size) {
        return judge_entry(Names::Any, left, name, size);
    }
    if left < 8 + padded(size) {
        return judge_sizeless(left, name);
    }
    if size < 4 {
        return judge_sizeless(left, name);
    }
    judge_entry(Names::Any, left, name, size)
}

/// The header of the next chunk of a list that has so many bytes left, or None at its end.
///
/// `Truncated` if the input ends before that; then the faults of `judge_entry`.
#[tactic(auto, unfolding(crate::specs::Walk::entry_in))]
pub(crate) fn next_entry_in<R: ByteIn>(
    input: &mut R,
    names: Names,
    left: u64,
) -> Result<Option<Entry>, FileFault>
    ensures answer { Answers (λ (e : Option Entry). e) (entry_in (rule_of names) left)
        (passage R.remaining R.failures input.old input.new) result }
    ensures less { IfOk result (λ o. IfSome o (λ e. e.left + 8 ≤ left)) }
    ensures listed { IfOk result (λ o. IfSome o (λ e. is_name e.name (codes "LIST") ≡ true →
        4 ≤ e.size)) }
    ensures opened { IfOk result (λ o. IfSome o (λ e. is_barred names e.name ≡ false →
        is_name e.name (codes "LIST") ≡ true → e.size ≡ 4)) }
{
    if left == 0 {
        return Ok(None);
    }
    if left < 8 {
        return Err(FileFault::Truncated);
    }
    let mut head = [0u8; 8];
    take(input, &mut head)?;
    let size = LittleEndian::read_u32(&head[4..]);
    let mut name = [0u8; 4];
    name.copy_from_slice(&head[..4]);
    let entry = judge_entry(names, left, name, size)?;
    Ok(Some(entry))
}

/// The same of a list that bars no name.
pub(crate) fn next_entry<R: ByteIn>(input: &mut R, left: u64) -> Result<Option<Entry>, FileFault>
    ensures answer { Answers (λ (e : Option Entry). e) (entry_read left)
        (passage R.remaining R.failures input.old input.new) result }
    ensures less { IfOk result (λ o. IfSome o (λ e. e.left + 8 ≤ left)) }
    ensures listed { IfOk result (λ o. IfSome o (λ e. is_name e.name (codes "LIST") ≡ true →
        4 ≤ e.size)) }
{
    next_entry_in(input, Names::Any, left)
}

/// The same of RIFF, up to its first movi.
#[tactic(auto, unfolding(crate::specs::Walk::entry_in))]
pub(crate) fn next_in_riff<R: ByteIn>(
    input: &mut R,
    extent: Extent,
    left: u64,
) -> Result<Option<Entry>, FileFault>
    ensures answer { Answers (λ (e : Option Entry). e) (entry_in (riff_rule extent) left)
        (passage R.remaining R.failures input.old input.new) result }
    ensures less { IfOk result (λ o. IfSome o (λ e. e.left + 8 ≤ left)) }
    ensures listed { IfOk result (λ o. IfSome o (λ e. is_name e.name (codes "LIST") ≡ true →
        (e.size ≡ 0 → ⊥) → 4 ≤ e.size)) }
{
    if left == 0 {
        return Ok(None);
    }
    if left < 8 {
        return Err(FileFault::Truncated);
    }
    let mut head = [0u8; 8];
    take(input, &mut head)?;
    let size = LittleEndian::read_u32(&head[4..]);
    let mut name = [0u8; 4];
    name.copy_from_slice(&head[..4]);
    let entry = judge_in_riff(extent, left, name, size)?;
    Ok(Some(entry))
}
