//! Variable-size integers.

ghost use Rattle.std.specs.Prelude.{◌≡◌, ◌≤◌, ◌<◌, ◌^◌, ◌*◌, ◌-◌, ◌∷◌, [], ℕ, List, Option, IfOk};
ghost use Rattle.std.specs.Prelude.{length, take};
ghost use Rattle.ffv1_wire.specs.Passage.{passage};
ghost use Rattle.ffv1_reads.specs.Reads.{Answers};
ghost use Rattle.ffv1_ebml.specs.Vints.{data_of, length_of, number_of, size_of, vint_rest};
ghost use Rattle.ffv1_ebml.specs.Vints.{vint_read};

use ffv1_reads::{FileFault, take};
use ffv1_wire::ByteIn;

/// A variable-size integer (RFC 8794, 4): the first `len` of eight bytes.
#[derive(Clone, Copy)]
pub struct Vint {
    /// The bytes, of which those after the first `len` are not looked at.
    pub bytes: [u8; 8],
    /// How many bytes it has.
    pub len: usize,
}

/// How many bytes there are, by the first of them; 9 if it begins none.
#[tactic(auto, unfolding(crate::specs::Vints::length_of))]
pub(crate) fn length_of(first: u8) -> usize
    ensures value { result ≡ length_of first }
    ensures least { 1 ≤ result }
    ensures most { result ≤ 9 }
{
    if first >= 128 {
        1
    } else if first >= 64 {
        2
    } else if first >= 32 {
        3
    } else if first >= 16 {
        4
    } else if first >= 8 {
        5
    } else if first >= 4 {
        6
    } else if first >= 2 {
        7
    } else if first >= 1 {
        8
    } else {
        9
    }
}

/// The number of at most eight bytes, big end first.
pub fn number_of(bytes: &[u8]) -> u64
    requires { length bytes.now ≤ 8 }
    ensures value { result ≡ number_of bytes.now }
    ensures fits { result < 256 ^ length bytes.now }
{
    let mut number = 0u64;
    for byte in bytes {
        number = 256 * number + u64::from(*byte);
    }
    number
}

/// The data of the integer that these bytes are.
pub fn data_of(bytes: &[u8]) -> u64
    requires { length bytes.now ≤ 8 }
    ensures value { result ≡ data_of bytes.now }
    ensures fits { result < 2 ^ (7 * length bytes.now) }
{
    number_of(bytes) % (1u64 << (7 * bytes.len()))
}

/// The size that these bytes say, or None if it is unknown.
#[tactic(auto, unfolding(crate::specs::Vints::size_of))]
pub fn size_of(bytes: &[u8]) -> Option<u64>
    requires { length bytes.now ≤ 8 }
    ensures { result ≡ size_of bytes.now }
{
    let all = 1u64 << (7 * bytes.len());
    let data = data_of(bytes);
    if data + 1 == all { None } else { Some(data) }
}

/// The integer whose first byte was read, of at most `most` bytes, in a parent that has `left`.
///
/// `BadElement` if it has more than `most`, then `Truncated` if it has more than are left; both
/// after its first byte.
pub(crate) fn vint_rest<R: ByteIn>(
    input: &mut R,
    first: u8,
    most: usize,
    left: u64,
) -> Result<Vint, FileFault>
    requires { most ≤ 8 }
    ensures answer { Answers (λ (v : Vint). take v.len v.bytes) (vint_rest most left (first ∷ []))
        (passage R.remaining R.failures input.old input.new) result }
    ensures len { IfOk result (λ v. length (take v.len v.bytes) ≡ v.len) }
    ensures some { IfOk result (λ v. 1 ≤ v.len) }
    ensures most { IfOk result (λ v. v.len ≤ most) }
    ensures fits { IfOk result (λ v. v.len ≤ left) }
{
    let len = length_of(first);
    if len > most {
        return Err(FileFault::BadElement);
    }
    if left < len as u64 {
        return Err(FileFault::Truncated);
    }
    let mut bytes = [0u8; 8];
    bytes[0] = first;
    take(input, &mut bytes[1..len])?;
    Ok(Vint { bytes, len })
}

/// The next integer of at most `most` bytes, in a parent that has `left` bytes left.
///
/// `Truncated` if there is none, before anything is read; then as `vint_rest`.
#[tactic(auto, unfolding(crate::specs::Vints::vint_read))]
pub(crate) fn next_vint<R: ByteIn>(input: &mut R, most: usize, left: u64) -> Result<Vint, FileFault>
    requires { most ≤ 8 }
    ensures answer { Answers (λ (v : Vint). take v.len v.bytes) (vint_read most left)
        (passage R.remaining R.failures input.old input.new) result }
    ensures len { IfOk result (λ v. length (take v.len v.bytes) ≡ v.len) }
    ensures some { IfOk result (λ v. 1 ≤ v.len) }
    ensures most { IfOk result (λ v. v.len ≤ most) }
    ensures fits { IfOk result (λ v. v.len ≤ left) }
{
    if left == 0 {
        return Err(FileFault::Truncated);
    }
    let mut first = [0u8; 1];
    take(input, &mut first)?;
    vint_rest(input, first[0], most, left)
}
