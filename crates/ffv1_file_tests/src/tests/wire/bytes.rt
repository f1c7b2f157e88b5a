//! Bytes read and written when calls fail, and the laws of lines at a sink.

ghost use Rattle.std.specs.Prelude.{◌≡◌, ◌≤◌, ◌++◌, ◌+◌, ◌<◌, length, drop, IfOk};

use ffv1_codec::KeepLines;
use ffv1_doubles::made::shows;
use ffv1_doubles::{FailingReader, FailingWriter, ShortWriter};
use ffv1_wire::{
    ByteIn, ByteOut, Failed, FromRead, SinkFault, ToWrite, laws as wire_laws, read_byte, read_full,
    skip, write_all,
};
use std::alloc::Global;
use std::io::{ErrorKind, Read, Write, repeat};
use std::process::Abort;
use std::test::Fail;

static BYTES: [u8; 6] = *b"abcdef";

/// The bytes after what the vector has.
fn appended(vec: Vec<u8>, bytes: &[u8]) -> Result<Vec<u8>, Failed>
    ensures { IfOk result (λ v. v.items ≡ vec.items ++ bytes.now) }
{
    let mut out = ToWrite::new(vec);
    write_all(&mut out, bytes)?;
    Ok(out.into_inner())
}

/// The bytes from the second on, into the room, and how many they are.
fn second_on(bytes: &[u8], room: &mut [u8]) -> Result<usize, Failed>
    requires { length bytes.now ≡ length room.old + 1 }
    ensures { IfOk result (λ n. (n ≡ length room.old) × (room.new ≡ drop 1 bytes.now)) }
{
    let mut input = FromRead::new(bytes);
    let _first = read_byte(&mut input)?;
    read_full(&mut input, room)
}

/// Fills the room, and after the failure the rest of it. Also the failures, and the calls of the
/// reader inside.
fn fill_twice(
    input: FailingReader<'_>,
    room: &mut [u8],
    done: usize,
) -> (Result<usize, Failed>, Result<usize, Failed>, u64, u64)
    requires { done ≤ length room.old }
{
    let mut input = FromRead::new(input);
    let first = read_full(&mut input, room);
    let second = read_full(&mut input, &mut room[done..]);
    let failures = input.failures();
    (first, second, failures, input.into_inner().calls())
}

/// Skips bytes, and reads the byte that comes after the failure.
fn skip_and_read(
    input: FailingReader<'_>,
    count: u64,
) -> (Result<u64, Failed>, Result<Option<u8>, Failed>, u64) {
    let mut input = FromRead::new(input);
    let first = skip(&mut input, count);
    let second = read_byte(&mut input);
    (first, second, input.failures())
}

/// Reads two bytes, one after the other.
fn read_twice<R: Read + Drop>(
    input: R,
) -> (Result<Option<u8>, Failed>, Result<Option<u8>, Failed>, u64) {
    let mut input = FromRead::new(input);
    let first = read_byte(&mut input);
    let second = read_byte(&mut input);
    (first, second, input.failures())
}

/// Writes the bytes, and after the failure the rest of them. Also the failures, and the writer
/// inside.
fn write_twice<W: Write>(
    out: W,
    bytes: &[u8],
    done: usize,
) -> (Result<(), Failed>, Result<(), Failed>, u64, W)
    requires { done ≤ length bytes.now }
{
    let mut out = ToWrite::new(out);
    let first = write_all(&mut out, bytes);
    let second = write_all(&mut out, &bytes[done..]);
    let failures = out.failures();
    (first, second, failures, out.into_inner())
}

/// Writes the bytes. Also the failures, and the writer inside.
fn write_once<W: Write>(out: W, bytes: &[u8]) -> (Result<(), Failed>, u64, W) {
    let mut out = ToWrite::new(out);
    let written = write_all(&mut out, bytes);
    let failures = out.failures();
    (written, failures, out.into_inner())
}

/// Whether bytes are put after those of a vector.
fn appends(alloc: Global, first: &[u8], others: &[u8], all: &[u8]) -> Result<bool, Fail> {
    let appended = appended(first.to_vec(alloc)?, others)?;
    Ok(appended.as_slice() == all)
}

/// How many bytes are written if none are given, and whether all of none are, without failures.
fn write_nothing<W: Write + Drop>(out: W) -> (Result<usize, Failed>, Result<(), Failed>, u64) {
    let mut out = ToWrite::new(out);
    let some = out.write(b"");
    let all = write_all(&mut out, b"");
    (some, all, out.failures())
}

#[test]
fn memory(rt: HostRuntime) -> Result<(), Fail> {
    let mut room = [0u8; 2];
    let second = second_on(b"abc", &mut room);
    let skipped = skip(&mut FromRead::new(repeat(7)), 10_000);
    assert!(rt; (second, room, skipped) == (Ok(2), *b"bc", Ok(10_000)));
    assert!(rt; write_nothing(Vec::new(rt.alloc())) == (Ok(0), Ok(()), 0));
    assert!(rt; appends(rt.alloc(), b"ab", b"cde", b"abcde")?);
    Ok(())
}

/// Reads a byte, passes two, and reads as many of the others as there is room for.
fn read_some<R: ByteIn>(
    input: &mut R,
    room: &mut [u8],
) -> Result<(Option<u8>, u64, usize), Failed> {
    let byte = read_byte(input)?;
    let passed = skip(input, 2)?;
    Ok((byte, passed, read_full(input, room)?))
}

/// The same in the other order.
fn read_others<R: ByteIn>(
    input: &mut R,
    room: &mut [u8],
) -> Result<(usize, Option<u8>, u64), Failed> {
    let len = read_full(input, room)?;
    let byte = read_byte(input)?;
    Ok((len, byte, skip(input, 1)?))
}

/// What some bytes are read as, the room after that, what others are read as, and the failures.
fn read_to_the_end(
    bytes: &[u8],
) -> (
    Result<(Option<u8>, u64, usize), Failed>,
    [u8; 3],
    Result<(usize, Option<u8>, u64), Failed>,
    u64,
) {
    let mut input = FromRead::new(bytes);
    let mut room = [0u8; 3];
    let some = read_some(&mut input, &mut room);
    let filled = room;
    let others = read_others(&mut input, &mut room);
    (some, filled, others, input.failures())
}

#[test]
fn end_of_input(rt: HostRuntime) {
    let (some, others) = (Ok((Some(b'a'), 2, 2)), Ok((0, None, 0)));
    assert!(rt; read_to_the_end(b"abcde") == (some, [b'd', b'e', 0], others, 0));
}

#[test]
fn texts(rt: HostRuntime) {
    let failed = shows(rt.alloc(), &Failed, "a read or a write failed");
    let refused = shows(rt.alloc(), &SinkFault, "a line was refused");
    assert!(rt; (failed, refused) == (true, true));
}

/// A read that fails after so many bytes fills the room up to there, and the next one the rest.
fn fails_to_fill(rt: &impl Abort, kind: ErrorKind, n: usize)
    requires { n < 5 }
{
    let mut room = [0u8; 5];
    let filled = fill_twice(FailingReader::new(&BYTES, n, 1, kind), &mut room, n);
    assert!(rt; filled == (Err(Failed), Ok(5 - n), 1, 6));
    assert!(rt; room == *b"abcde");
}

#[test]
fn failing_reads(rt: HostRuntime) {
    for n in 0..5usize {
        fails_to_fill(&rt, ErrorKind::Other, n);
        fails_to_fill(&rt, ErrorKind::Interrupted, n);
        fails_to_fill(&rt, ErrorKind::WouldBlock, n);
    }
}

/// A read that fails after so many bytes that were skipped, and one that fails at once, leave the
/// next byte to be read.
fn fails_to_skip(rt: &impl Abort, kind: ErrorKind, n: usize)
    requires { n < 5 }
{
    let skipped = skip_and_read(FailingReader::new(&BYTES, n, 1, kind), 5);
    assert!(rt; skipped == (Err(Failed), Ok(Some(BYTES[n])), 1));
    let read = read_twice(FailingReader::new(&BYTES[n..], 0, 1, kind));
    assert!(rt; read == (Err(Failed), Ok(Some(BYTES[n])), 1));
}

#[test]
fn failing_skips(rt: HostRuntime) {
    for n in 0..5usize {
        fails_to_skip(&rt, ErrorKind::Other, n);
        fails_to_skip(&rt, ErrorKind::Interrupted, n);
        fails_to_skip(&rt, ErrorKind::WouldBlock, n);
    }
}

/// Reads that fail when the input ends.
fn fails_at_the_end(rt: &impl Abort, kind: ErrorKind) {
    let mut room = [0u8; 7];
    let filled = fill_twice(FailingReader::new(&BYTES, 6, 1, kind), &mut room, 6);
    assert!(rt; filled == (Err(Failed), Ok(0), 1, 8));
    let read = read_twice(FailingReader::new(b"", 0, 1, kind));
    assert!(rt; read == (Err(Failed), Ok(None), 1));
}

#[test]
fn failing_at_the_end(rt: HostRuntime) {
    fails_at_the_end(&rt, ErrorKind::Other);
    fails_at_the_end(&rt, ErrorKind::Interrupted);
    fails_at_the_end(&rt, ErrorKind::WouldBlock);
}

/// Writes to a writer that fails after so many bytes: both answers, the failures, whether all bytes
/// are written, and the calls of the writer.
fn write_failing(
    alloc: Global,
    n: usize,
    kind: Option<ErrorKind>,
) -> (Result<(), Failed>, Result<(), Failed>, u64, bool, u64)
    requires { n < 6 }
{
    let out = FailingWriter::new(alloc, n, kind);
    let (first, second, failures, inner) = write_twice(out, &BYTES, n);
    let all = inner.held() == BYTES.as_slice();
    (first, second, failures, all, inner.calls())
}

/// Writers that fail so, after each number of bytes.
fn fails_to_write(rt: &impl Abort, alloc: Global, kind: Option<ErrorKind>) {
    for n in 0..6usize {
        let written = write_failing(alloc, n, kind);
        assert!(rt; written == (Err(Failed), Ok(()), 1, true, 7));
    }
}

#[test]
fn failing_writes(rt: HostRuntime) {
    fails_to_write(&rt, rt.alloc(), None);
    fails_to_write(&rt, rt.alloc(), Some(ErrorKind::Other));
    fails_to_write(&rt, rt.alloc(), Some(ErrorKind::Interrupted));
    fails_to_write(&rt, rt.alloc(), Some(ErrorKind::WouldBlock));
}

/// Writes with room for so many bytes: whether that succeeds, whether it is without failures, and
/// whether as many bytes are written as there is room for.
fn write_short(
    alloc: Global,
    room: usize,
    most: usize,
    end: Option<ErrorKind>,
) -> (bool, bool, bool)
    requires { room ≤ 6 }
{
    let out = ShortWriter::new(alloc, room, most, end);
    let (written, failures, inner) = write_once(out, &BYTES);
    let filled = inner.held() == &BYTES[..room];
    (written.is_ok(), failures == 0, filled)
}

/// Writers of each room that end so.
fn writes_to_the_end(rt: &impl Abort, alloc: Global, end: Option<ErrorKind>) {
    for room in 0..7usize {
        for most in 1..4usize {
            let all = room == 6;
            assert!(rt; write_short(alloc, room, most, end) == (all, all, true));
        }
    }
}

#[test]
fn short_writes(rt: HostRuntime) {
    writes_to_the_end(&rt, rt.alloc(), None);
    writes_to_the_end(&rt, rt.alloc(), Some(ErrorKind::Other));
    writes_to_the_end(&rt, rt.alloc(), Some(ErrorKind::Interrupted));
}

#[test]
fn laws_at_a_sink() {
    wire_laws::runs_in_a_row_are_one::<KeepLines>();
    wire_laws::refusal_after_a_run_is_one::<KeepLines>();
    wire_laws::taken_lines_move_what_is_shown::<KeepLines, u64>();
    wire_laws::sink_keeps_the_lines_it_took::<KeepLines>();
    wire_laws::sink_writes_the_text_of_lines::<KeepLines>();
}
