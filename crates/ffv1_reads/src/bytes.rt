//! Takes, passes and keeps bytes.

ghost use Rattle.std.specs.Prelude.{◌≡◌, ◌+◌, ◌<◌, ◌≤◌, ◌++◌, IfOk, OnErr, OnOk, drop, length};
ghost use Rattle.std.specs.Prelude.{max, replicate, take};
ghost use Rattle.std.specs.Vec.{vec_capacity};
ghost use Rattle.ffv1_wire.specs.Failures.{Counted};
ghost use Rattle.ffv1_wire.specs.Passage.{passage};
ghost use Rattle.ffv1_wire.specs.Reads.{Fills, FillsBeginning};
ghost use Rattle.ffv1_reads.specs.First.{passage_with};
ghost use Rattle.ffv1_reads.specs.Room.{HasRoom};
ghost use Rattle.ffv1_reads.specs.Reads.{Answers, AppendsSome, Begins, Kept, appended, passed};
ghost use Rattle.ffv1_reads.specs.Reads.{taken, wanted};

use crate::fault::FileFault;
use ffv1_wire::{ByteIn, Failed, read_full, skip};
use std::alloc::Allocator;

/// Fills `buf`.
///
/// `Truncated` if the input ends before that, `Read` if a read failed. `buf` may then hold a
/// beginning of the bytes.
pub fn take<R: ByteIn>(input: &mut R, buf: &mut [u8]) -> Result<(), FileFault>
    ensures { Answers (λ (_ : Unit {0}). buf.new) (taken (length buf.old))
        (passage R.remaining R.failures input.old input.new) result }
{
    match read_full(input, buf) {
        Ok(len) => if len < buf.len() {
            Err(FileFault::Truncated)
        } else {
            Ok(())
        },
        Err(_) => Err(FileFault::Read),
    }
}

/// Fills `buf`, which has room for a byte at least: a byte that was read before comes first, if
/// there is one. Faults as of `take`.
pub fn take_after<R: ByteIn>(
    first: Option<u8>,
    input: &mut R,
    buf: &mut [u8],
) -> Result<(), FileFault>
    requires { 0 < length buf.old }
    ensures { Answers (λ (_ : Unit {0}). buf.new) (taken (length buf.old))
        (passage_with first R.remaining R.failures input.old input.new) result }
{
    let Some(first) = first else {
        return take(input, buf);
    };
    buf[0] = first;
    take(input, &mut buf[1..])?;
    Ok(())
}

/// Passes so many bytes.
///
/// `Truncated` if the input ends before that, `Read` if a read failed. The bytes before are read.
pub fn pass<R: ByteIn>(input: &mut R, count: u64) -> Result<(), FileFault>
    ensures { Answers (λ (_ : Unit {0}). tt) (passed count)
        (passage R.remaining R.failures input.old input.new) result }
{
    match skip(input, count) {
        Ok(len) => if len < count {
            Err(FileFault::Truncated)
        } else {
            Ok(())
        },
        Err(_) => Err(FileFault::Read),
    }
}

/// The most bytes that room is made for beyond as many as were read.
const ROOM: usize = 65536;

/// Fills the bytes from an offset on, and answers how many were read: fewer only if the input
/// has ended.
fn fill_from<R: ByteIn>(input: &mut R, done: usize, bytes: &mut [u8]) -> Result<usize, Failed>
    requires { done ≤ length bytes.old }
    ensures kept { take done bytes.new ≡ take done bytes.old }
    ensures bound { IfOk result (λ n. done + n ≤ length bytes.old) }
    ensures ok { IfOk result
        (λ n. Fills (R.remaining input.old) (R.remaining input.new) n (drop done bytes.new)) }
    ensures err { OnErr result (FillsBeginning (R.remaining input.old) (R.remaining input.new)
        (drop done bytes.new)) }
    ensures counted { Counted (R.failures input.old) (R.failures input.new) result }
{
    read_full(input, &mut bytes[done..])
}

/// Appends so many bytes 0, for which there is room.
fn push_zeros<A: Allocator>(bytes: &mut Vec<u8, A>, count: usize)
    requires { length bytes.old.items + count ≤ vec_capacity bytes.old }
    ensures items { bytes.new.items ≡ bytes.old.items ++ replicate count 0 }
    ensures capacity { vec_capacity bytes.new ≡ vec_capacity bytes.old }
{
    for _ in 0..count {
        bytes.push_reserved(0);
    }
}

/// Reads `more` bytes, at least one, after those that the vector has. It has room then for as many
/// as it had, or for these and those before, if that is more.
///
/// `Truncated` if the input ends before that, `Read` if a read failed, `OutOfMemory` if memory was
/// refused for them. After a fault the vector holds a beginning of them after the others.
pub fn append<R: ByteIn, A: Allocator>(
    input: &mut R,
    more: usize,
    bytes: &mut Vec<u8, A>,
) -> Result<(), FileFault>
    requires { 0 < more }
    ensures answer { Answers (λ (_ : Unit {0}). bytes.new.items) (appended bytes.old.items more)
        (passage R.remaining R.failures input.old input.new) result }
    ensures err { OnErr result (AppendsSome (R.remaining input.old) more bytes.old.items
        bytes.new.items) }
    ensures long { OnOk result (length bytes.new.items ≡ length bytes.old.items + more) }
    ensures grown { length bytes.old.items ≤ length bytes.new.items }
    ensures room { vec_capacity bytes.new
        ≤ max (vec_capacity bytes.old) (length bytes.old.items + more) }
{
    let done = bytes.len();
    bytes.reserve_exact(more)?;
    push_zeros(bytes, more);
    match fill_from(input, done, bytes.as_mut_slice()) {
        Ok(len) => {
            if len < more {
                bytes.truncate(done + len);
                return Err(FileFault::Truncated);
            }
            Ok(())
        }
        Err(_) => {
            bytes.truncate(done);
            Err(FileFault::Read)
        }
    }
}

/// Reads `size` bytes in place of what the vector has. Room is made piece by piece, each time for
/// at most as many bytes as were read so far and 65536 more, and never beyond `size`. Then the
/// vector has room for as many as it had, or as it holds, if that is more. After a fault it has
/// room at most for as many as it had, or for the lesser of `size` and of twice those that it holds
/// and 65536.
///
/// `Truncated` if the input ends before that, `Read` if a read failed, `OutOfMemory` if memory was
/// refused for the next of them. After a fault the vector holds a beginning of the bytes.
pub fn fill<R: ByteIn, A: Allocator>(
    input: &mut R,
    size: usize,
    bytes: &mut Vec<u8, A>,
) -> Result<(), FileFault>
    ensures answer { Answers (λ (_ : Unit {0}). bytes.new.items) (wanted Kept size)
        (passage R.remaining R.failures input.old input.new) result }
    ensures err { OnErr result (Begins (R.remaining input.old) size bytes.new.items) }
    ensures long { OnOk result (length bytes.new.items ≡ size) }
    ensures room { HasRoom (vec_capacity bytes.old) (vec_capacity bytes.new)
        (length bytes.new.items) result }
    ensures limit { vec_capacity bytes.new ≤ max (vec_capacity bytes.old) size }
{
    bytes.clear();
    while bytes.len() < size {
        let done = bytes.len();
        let more = (size - done).min(done + ROOM);
        append(input, more, bytes)?;
    }
    Ok(())
}
