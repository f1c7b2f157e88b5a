// SPDX-License-Identifier: MIT OR Apache-2.0
//! Asks the crates what `model/ffv1.py`, `model/files.py` and `model/matroska.py` answered, and
//! reads two files made by FFmpeg: each line of the text files in `data/` is one case. It prints
//! how many cases of each agree.
#![tactic(auto)]

mod avi;
mod decoding;
mod fields;
mod files;
mod frames;
mod heads;
mod matroska;
mod payloads;
mod written;

use ffv1_record::Profile::{Strict, Wide};
use std::rt::Files;

/// Prints the count of one file.
fn print<R: Print>(rt: &R, name: &str, count: fields::Count) -> anyhow::Result<()> {
    println!(rt; "{name} {} of {} agree", count.agree, count.cases)?;
    Ok(())
}

/// Asks all files.
fn run<R: AllocGlobal + Files + Print>(rt: &R) -> anyhow::Result<()> {
    print(rt, "heads", heads::count(rt)?)?;
    print(rt, "payloads", payloads::count(rt)?)?;
    print(rt, "frames", frames::count(rt, "frames.txt", Strict)?)?;
    print(
        rt,
        "deep frames",
        frames::count(rt, "deep_frames.txt", Wide)?,
    )?;
    print(rt, "decoded", decoding::count(rt, "decoded.txt", Strict)?)?;
    print(
        rt,
        "deep decoded",
        decoding::count(rt, "deep_decoded.txt", Wide)?,
    )?;
    print(rt, "wide", decoding::count(rt, "wide.txt", Wide)?)?;
    print(rt, "files", files::count(rt)?)?;
    print(rt, "avi", avi::count(rt)?)?;
    print(rt, "matroska", matroska::count(rt)?)?;
    print(rt, "matroska written", written::count(rt)?)?;
    Ok(())
}

fn main(rt: HostRuntime) -> anyhow::Result<()> {
    run(&rt)
}
