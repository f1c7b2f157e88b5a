//! Writers that can be written over.

ghost use Rattle.std.specs.Prelude.{◌≤◌};

use ffv1_doubles::Scarce;
use ffv1_wire::{Failed, PatchOut, ToFile, ToMemory, ToWrite, write_all};
use std::alloc::Global;
use std::io::Cursor;

/// Writes `abcdef`, then `XY` from so many bytes before the end on, then `g`.
fn overwritten<W: PatchOut>(out: &mut W, back: u64) -> Result<bool, Failed>
    requires { 2 ≤ back }
{
    write_all(out, b"abcdef")?;
    let done = out.patch(back, b"XY")?;
    write_all(out, b"g")?;
    Ok(done)
}

#[test]
fn in_memory(rt: HostRuntime) {
    let mut out = ToMemory::new(rt.alloc());
    assert!(rt; overwritten(&mut out, 4) == Ok(true));
    assert!(rt; out.bytes() == b"abXYefg".as_slice());
}

#[test]
fn past_the_begin(rt: HostRuntime) {
    let mut out = ToMemory::new(rt.alloc());
    assert!(rt; overwritten(&mut out, 7) == Ok(false));
    assert!(rt; out.bytes() == b"abcdefg".as_slice());
}

#[test]
fn in_a_file(rt: HostRuntime) {
    let mut out = ToFile::new(Cursor::new(Vec::new(rt.alloc())));
    assert!(rt; overwritten(&mut out, 6) == Ok(true));
    assert!(rt; out.into_inner().into_inner().as_slice() == b"XYcdefg".as_slice());
}

#[test]
fn before_the_begin_of_a_file(rt: HostRuntime) {
    let mut out = ToFile::new(Cursor::new(Vec::new(rt.alloc())));
    assert!(rt; overwritten(&mut out, 7) == Ok(false));
    assert!(rt; out.into_inner().into_inner().as_slice() == b"abcdefg".as_slice());
}

#[test]
fn not_over_a_pipe(rt: HostRuntime) {
    let mut out = ToWrite::new(Vec::new(rt.alloc()));
    assert!(rt; overwritten(&mut out, 4) == Ok(false));
    assert!(rt; out.into_inner().as_slice() == b"abcdefg".as_slice());
}

#[test]
fn memory_refused(rt: HostRuntime) {
    let heap = Scarce::new(rt.alloc(), 0);
    let mut out: ToMemory<&Scarce<Global>> = ToMemory::new(&heap);
    assert!(rt; overwritten(&mut out, 4) == Err(Failed));
    assert!(rt; out.bytes().len() == 0);
}
