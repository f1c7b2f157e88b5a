//! What the type of a line says of its samples, also if the line is a field.

ghost use Rattle.std.specs.Prelude.{ℕ, ◌^◌, ◌<◌, slice_index};

/// A law of each line of bytes.
#[inline(always)]
pub(crate) fn are_bytes(line: &[u8])
    ensures { (x : ℕ) → slice_index line.now x < 2 ^ 8 }
{}

/// A law of each line of 16-bit words.
#[inline(always)]
pub(crate) fn are_words(line: &[u16])
    ensures { (x : ℕ) → slice_index line.now x < 2 ^ 16 }
{}
