//! Files of more than one RIFF.

use super::example::EXAMPLE;
use ffv1_avi::AviReader;
use ffv1_doubles::riffs::MORE;
use ffv1_reads::FileFault;
use ffv1_wire::FromRead;
use std::alloc::Global;

/// The example, and after it a RIFF.
pub(super) fn two_riffs() -> [u8; 336] {
    let mut file = [0; 336];
    file[..298].copy_from_slice(&EXAMPLE);
    file[298..].copy_from_slice(&MORE);
    file
}

/// What three calls answer that read a frame of all RIFFs of a file.
fn three_frames(alloc: Global, file: &[u8]) -> Result<[Result<bool, FileFault>; 3], FileFault> {
    let mut input = FromRead::new(file);
    let mut reader = AviReader::open_all(alloc, &mut input)?;
    let mut frame = Vec::new(alloc);
    let first = reader.next_frame(&mut input, &mut frame);
    let second = reader.next_frame(&mut input, &mut frame);
    let third = reader.next_frame(&mut input, &mut frame);
    Ok([first, second, third])
}

#[test]
fn all_riffs(rt: HostRuntime) {
    assert!(rt; three_frames(rt.alloc(), &two_riffs()) == Ok([Ok(true), Ok(true), Ok(false)]));
}
