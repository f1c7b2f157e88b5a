//! The depth of samples, and their bytes.

ghost use Rattle.std.specs.Prelude.{◌≡◌, ◌≤◌};
ghost use Rattle.ffv1_samples.specs.Samples.{all_below, are_in_depth, numbers_of_pairs};
ghost use Rattle.ffv1_samples.specs.Samples.{sample_bytes};

/// How many bytes a sample of this depth has: 1 at 8 bits, else 2.
pub fn sample_bytes(depth: u32) -> usize
    ensures value { result ≡ sample_bytes depth }
    ensures most { result ≤ 2 }
    ensures least { 1 ≤ result }
{
    if depth == 8 { 1 } else { 2 }
}

/// Whether each sample of these bytes lies below 2 ^ depth. The depth is 8 to 16. A last byte of
/// half a sample is not looked at.
pub fn are_in_depth(depth: u32, bytes: &[u8]) -> bool
    requires least { 8 ≤ depth }
    requires most { depth ≤ 16 }
    ensures { result ≡ are_in_depth depth bytes.now }
{
    if depth == 8 {
        return true;
    }
    all_below(1 << depth, bytes)
}

/// Whether each number of pairs of bytes, the low byte first, lies below this one.
fn all_below(most: u32, bytes: &[u8]) -> bool
    ensures { result ≡ all_below most (numbers_of_pairs bytes.now) }
{
    let mut below = true;
    for place in 0..bytes.len() / 2 {
        let number = u32::from(bytes[2 * place]) + 256 * u32::from(bytes[2 * place + 1]);
        below &= number < most;
    }
    below
}
