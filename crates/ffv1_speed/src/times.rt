//! How long it takes.

ghost use Rattle.std.specs.Prelude.{◌≤◌, ◌≡◌, ◌*◌, ◌<◌, length, replicate};
ghost use Rattle.ffv1_range.specs.Symbols.{AllHeld};
ghost use Rattle.ffv1_plane.specs.Quantisation.{contexts_of};

use crate::frames;
use crate::rows::{Plane, decode, encode};
use anyhow::{Context, Result, ensure};
use ffv1_line::{Coding, reset};
use ffv1_plane::QuantSet;
use ffv1_range::StateTable;
use std::alloc::Global;
use std::env::Args;
use std::rt::{Clock, Env, Files};
use std::time::Instant;
use std::{env, fs};

/// What is asked for.
#[derive(Clone, Copy)]
struct Asked {
    width: usize,
    times: u32,
    parks: bool,
}

/// Reads the numbers of the command line.
fn read_numbers(words: &mut Args) -> Result<Asked> {
    let width = words.next().context("width")?.parse::<usize>()?;
    let times = words.next().context("times")?.parse::<u32>()?;
    let parks = words.next().is_some();
    Ok(Asked {
        width,
        times,
        parks,
    })
}

/// Codes the plane with fresh states.
fn code(
    alloc: Global,
    coding: &Coding<'_, Global>,
    states: &mut [u8],
    plane: &Plane<'_>,
) -> Result<Vec<u8>>
    requires narrow { coding.now.bits ≤ 16 }
    requires wide { 0 < plane.now.width }
    requires rows { length states.old ≡ contexts_of coding.now.set * 32 }
    requires fresh { AllHeld coding.now.table (replicate (length states.old) 128) }
    ensures long { length states.new ≡ length states.old }
{
    reset(states);
    encode(alloc, coding, states, plane)
}

/// Decodes the bytes with fresh states, and tells whether they are the plane.
fn shows(
    alloc: Global,
    coding: &Coding<'_, Global>,
    states: &mut [u8],
    plane: &Plane<'_>,
    bytes: &[u8],
    parks: bool,
) -> Result<bool>
    requires narrow { coding.now.bits ≤ 16 }
    requires wide { 0 < plane.now.width }
    requires rows { length states.old ≡ contexts_of coding.now.set * 32 }
    requires fresh { AllHeld coding.now.table (replicate (length states.old) 128) }
    ensures long { length states.new ≡ length states.old }
{
    reset(states);
    decode(alloc, coding, states, plane, bytes, parks)
}

/// Codes the plane once: the time.
fn coding_time<R: AllocGlobal + Clock>(
    rt: &R,
    coding: &Coding<'_, Global>,
    states: &mut [u8],
    plane: &Plane<'_>,
) -> Result<u128>
    requires narrow { coding.now.bits ≤ 16 }
    requires wide { 0 < plane.now.width }
    requires rows { length states.old ≡ contexts_of coding.now.set * 32 }
    requires fresh { AllHeld coding.now.table (replicate (length states.old) 128) }
    ensures long { length states.new ≡ length states.old }
{
    let start = Instant::now(rt)?;
    code(rt.alloc(), coding, states, plane)?;
    Ok(start.elapsed(rt)?.as_micros())
}

/// Decodes the bytes once: the time.
fn decoding_time<R: AllocGlobal + Clock>(
    rt: &R,
    coding: &Coding<'_, Global>,
    states: &mut [u8],
    plane: &Plane<'_>,
    bytes: &[u8],
    parks: bool,
) -> Result<u128>
    requires narrow { coding.now.bits ≤ 16 }
    requires wide { 0 < plane.now.width }
    requires rows { length states.old ≡ contexts_of coding.now.set * 32 }
    requires fresh { AllHeld coding.now.table (replicate (length states.old) 128) }
    ensures long { length states.new ≡ length states.old }
{
    let start = Instant::now(rt)?;
    shows(rt.alloc(), coding, states, plane, bytes, parks)?;
    Ok(start.elapsed(rt)?.as_micros())
}

/// Codes and decodes some times over, and prints the least time of each.
fn time<R: AllocGlobal + Clock + Print>(
    rt: &R,
    coding: &Coding<'_, Global>,
    states: &mut [u8],
    plane: &Plane<'_>,
    bytes: &[u8],
    asked: Asked,
) -> Result<()>
    requires narrow { coding.now.bits ≤ 16 }
    requires wide { 0 < plane.now.width }
    requires rows { length states.old ≡ contexts_of coding.now.set * 32 }
    requires fresh { AllHeld coding.now.table (replicate (length states.old) 128) }
{
    let mut least = u128::MAX;
    let mut decoding = u128::MAX;
    'times: for _ in 0..asked.times {
        least = least.min(coding_time(rt, coding, states, plane)?);
        decoding = decoding.min(decoding_time(rt, coding, states, plane, bytes, asked.parks)?);
    }
    if asked.times == 0 {
        return Ok(());
    }
    Ok(rt.println(format_args!("coding {least} us decoding {decoding} us"))?)
}

/// Codes and decodes the plane, and prints how many bytes it takes and whether it comes back; then
/// the least times.
fn compare<R: AllocGlobal + Clock + Print>(
    rt: &R,
    coding: &Coding<'_, Global>,
    states: &mut [u8],
    plane: &Plane<'_>,
    asked: Asked,
) -> Result<()>
    requires narrow { coding.now.bits ≤ 16 }
    requires wide { 0 < plane.now.width }
    requires rows { length states.old ≡ contexts_of coding.now.set * 32 }
    requires fresh { AllHeld coding.now.table (replicate (length states.old) 128) }
{
    let bytes = code(rt.alloc(), coding, states, plane)?;
    let same = shows(rt.alloc(), coding, states, plane, &bytes, asked.parks)?;
    rt.println(format_args!("bytes {} same {same}", bytes.len()))?;
    time(rt, coding, states, plane, &bytes, asked)
}

/// The same by the standard's table and the small set.
fn time_plane<R: AllocGlobal + Clock + Print>(rt: &R, plane: &Plane<'_>, asked: Asked) -> Result<()>
    requires wide { 0 < plane.now.width }
{
    let table = StateTable::standard();
    let set = QuantSet::small(rt.alloc())?;
    let mut states = vec![in rt.alloc(); 128u8; set.contexts() as usize * 32]?;
    let coding = Coding {
        table: &table,
        set: &set,
        bits: 8,
    };
    compare(rt, &coding, states.as_mut_slice(), plane, asked)
}

/// Times what the words of the command line ask for.
pub(crate) fn run<R: AllocGlobal + Files + Env + Clock + Print>(rt: &R) -> Result<()> {
    let mut words = env::args(rt)?;
    let _ = words.next();
    let first = words.next().context("path")?;
    if first.as_str() == "frame" {
        return frames::run(rt, &mut words);
    }
    let asked = read_numbers(&mut words)?;
    ensure!(asked.width > 0, "width");
    let samples = fs::read(rt, first.as_str())?;
    let plane = Plane {
        samples: samples.as_slice(),
        width: asked.width,
    };
    time_plane(rt, &plane, asked)
}
