//! Bytes that are read and summed.

ghost use Rattle.std.specs.Prelude.{◌≡◌, ℕ, List, IfOk, OnErr, OnOk, length, fold, true, IsTrue};
ghost use Rattle.std.specs.Prelude.{◌↔◌};
ghost use Rattle.std.specs.Vec.{vec_capacity};
ghost use Rattle.ffv1_wire.specs.Passage.{passage};
ghost use Rattle.ffv1_reads.specs.Reads.{Answers, Begins};
ghost use Rattle.ffv1_reads.specs.Room.{HasRoom};
ghost use Rattle.ffv1_sum.specs.Sum.{byte_step};
ghost use Rattle.ffv1_ebml.specs.Sums.{is_met, kept_summed, passed_summed, passed_so_far, summed};
ghost use Rattle.ffv1_ebml.specs.Sums.{taken_summed};

use ffv1_reads::{FileFault, fill, pass, take};
use ffv1_sum::more;
use ffv1_wire::ByteIn;
use std::alloc::Allocator;

/// What is known of the CRC-32 of content that is being read (RFC 8794, 11.3.1).
#[derive(Clone, Copy, Debug, PartialEq, Eq)]
pub enum Sum {
    /// It has none.
    Absent,
    /// Nothing of it was read: its first element may be its CRC-32.
    Begins,
    /// Its CRC-32 was read, and so the sum of all that comes after it is awaited.
    Awaits {
        /// What the CRC-32 says.
        stated: u32,
        /// The sum of what was read after it, not turned round.
        so_far: u32,
    },
}

impl Sum {
    /// The sum after some bytes more.
    pub fn after(self, bytes: &[u8]) -> Sum
        ensures { result ≡ summed self bytes.now }
    {
        match self {
            Sum::Awaits { stated, so_far } => Sum::Awaits {
                stated,
                so_far: more(so_far, bytes),
            },
            Sum::Begins => Sum::Begins,
            Sum::Absent => Sum::Absent,
        }
    }

    /// At the end of the content: whether the sum is the one that its CRC-32 says, if it has one.
    pub fn is_met(self) -> bool
        ensures { result ≡ is_met self }
    {
        match self {
            Sum::Awaits { stated, so_far } => stated == so_far ^ !0,
            _ => true,
        }
    }
}

/// Fills `buf`, and sums it. `Truncated` if the input ends before that. After a fault the sum is as
/// it was.
pub fn take_summed<R: ByteIn>(input: &mut R, buf: &mut [u8], sum: &mut Sum) -> Result<(), FileFault>
    ensures answer { Answers (λ (_ : Unit {0}). (buf.new, sum.new))
        (taken_summed (length buf.old) sum.old)
        (passage R.remaining R.failures input.old input.new) result }
    ensures err { OnErr result (sum.new ≡ sum.old) }
{
    take(input, buf)?;
    *sum = sum.after(buf);
    Ok(())
}

/// Reads `size` bytes in place of what the vector has, as `ffv1_reads::fill` does, and sums them.
///
/// `Truncated` if the input ends before that, `OutOfMemory` if memory was refused. After a fault
/// the vector holds a beginning of the bytes, and the sum is as it was. The vector has room as
/// `ffv1_reads::fill` says.
pub fn fill_summed<R: ByteIn, A: Allocator>(
    input: &mut R,
    size: usize,
    bytes: &mut Vec<u8, A>,
    sum: &mut Sum,
) -> Result<(), FileFault>
    ensures answer { Answers (λ (_ : Unit {0}). (bytes.new.items, sum.new))
        (kept_summed size sum.old)
        (passage R.remaining R.failures input.old input.new) result }
    ensures kept { OnErr result (Begins (R.remaining input.old) size bytes.new.items) }
    ensures err { OnErr result (sum.new ≡ sum.old) }
    ensures long { OnOk result (length bytes.new.items ≡ size) }
    ensures room { HasRoom (vec_capacity bytes.old) (vec_capacity bytes.new)
        (length bytes.new.items) result }
{
    fill(input, size, bytes)?;
    *sum = sum.after(bytes.as_slice());
    Ok(())
}

/// The most bytes that are passed at once.
const ROOM: usize = 4096;

/// Passes so many bytes, and goes on with a sum.
fn pass_so_far<R: ByteIn>(input: &mut R, count: u64, so_far: u32) -> Result<u32, FileFault>
    ensures { Answers (λ (s : ℕ). s) (passed_so_far count so_far)
        (passage R.remaining R.failures input.old input.new) result }
{
    let mut room = [0u8; ROOM];
    let mut sum = so_far;
    let mut left = count;
    while left > 0 {
        let len = left.min(ROOM as u64) as usize;
        take(input, &mut room[..len])?;
        sum = more(sum, &room[..len]);
        left -= len as u64;
    }
    Ok(sum)
}

/// Passes so many bytes, and sums them. `Truncated` if the input ends before that. After a fault
/// the sum is as it was.
pub fn pass_summed<R: ByteIn>(input: &mut R, count: u64, sum: &mut Sum) -> Result<(), FileFault>
    ensures answer { Answers (λ (_ : Unit {0}). sum.new) (passed_summed count sum.old)
        (passage R.remaining R.failures input.old input.new) result }
    ensures err { OnErr result (sum.new ≡ sum.old) }
{
    if let Sum::Awaits { stated, so_far } = *sum {
        let so_far = pass_so_far(input, count, so_far)?;
        *sum = Sum::Awaits { stated, so_far };
        return Ok(());
    }
    pass(input, count)?;
    Ok(())
}
