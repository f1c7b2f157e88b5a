//! Tracks that stand behind Clusters.

use super::written_example::{EXAMPLE, FRAME};
use ffv1_doubles::{Scarce, SoughtReader};
use ffv1_engine::{Fault, Profile};
use ffv1_files::{FileReader, Scope};
use ffv1_info::info;
use ffv1_outline::Form;
use ffv1_reads::FileFault;
use ffv1_wire::{AgainIn, FromFile, FromRead, ToWrite};
use std::alloc::{Allocator, Global};

/// The smallest file, its Cluster before its Tracks too: the Cluster has 46 bytes.
fn late() -> [u8; 445] {
    let mut file = [0u8; 445];
    file[..200].copy_from_slice(&EXAMPLE[..200]);
    file[50..52].copy_from_slice(b"\x01\x89");
    file[200..246].copy_from_slice(&EXAMPLE[308..354]);
    file[246..].copy_from_slice(&EXAMPLE[200..]);
    file
}

/// The same, without the last byte of its first Cluster and all behind it.
fn cut() -> [u8; 245] {
    let mut file = [0u8; 245];
    file[..200].copy_from_slice(&EXAMPLE[..200]);
    file[50..52].copy_from_slice(b"\x01\x89");
    file[200..].copy_from_slice(&EXAMPLE[308..353]);
    file
}

/// The smallest file without its Tracks.
fn lacking() -> [u8; 291] {
    let mut file = [0u8; 291];
    file[..200].copy_from_slice(&EXAMPLE[..200]);
    file[50..52].copy_from_slice(b"\x00\xEF");
    file[200..].copy_from_slice(&EXAMPLE[308..]);
    file
}

/// How many frames a file gives, how many bytes come before the first or before what is at fault,
/// and the fault.
fn frames_of<R: AgainIn, A: Allocator + Copy>(
    alloc: A,
    input: &mut R,
) -> (u32, u64, Option<FileFault>) {
    let mut offset = 0;
    let mut reader = match FileReader::open_located(alloc, Scope::Whole, input, &mut offset) {
        Ok(reader) => reader,
        Err(fault) => return (0, offset, Some(fault)),
    };
    let before = reader.offset();
    let mut frame = Vec::new(alloc);
    let mut count = 0u32;
    for _ in 0..9u32 {
        match reader.next_frame(input, &mut frame) {
            Ok(true) => count = count.saturating_add(u32::from(frame.as_slice() == FRAME)),
            Ok(false) => return (count, before, None),
            Err(fault) => return (count, before, Some(fault)),
        }
    }
    (count, before, None)
}

/// The same of a file that can be sought in so many times.
fn sought(alloc: Global, file: &[u8], seeks: usize) -> (u32, u64, Option<FileFault>) {
    let mut input = FromFile::new(SoughtReader::new(file, seeks), true);
    frames_of(alloc, &mut input)
}

/// A file gives the frames of both Clusters: it begins again twice.
#[test]
fn clusters_before_tracks(rt: HostRuntime) {
    assert!(rt; sought(rt.alloc(), &late(), 2) == (2, 212, None));
}

/// A pipe is refused, and so is what says that it can't begin again: where the Cluster begins.
#[test]
fn once_only(rt: HostRuntime) {
    let file = late();
    let refused = (0, 200, Some(FileFault::NoTracks));
    assert!(rt; frames_of(rt.alloc(), &mut FromRead::new(file.as_slice())) == refused);
    let mut input = FromFile::new(SoughtReader::new(&file, 2), false);
    assert!(rt; frames_of(rt.alloc(), &mut input) == refused);
}

/// A file whose Tracks stand first is read once: it is not sought in.
#[test]
fn tracks_before_clusters(rt: HostRuntime) {
    assert!(rt; sought(rt.alloc(), &EXAMPLE, 0) == (1, 320, None));
}

/// A file that can't begin again, at first or behind its Tracks, is a failed read.
#[test]
fn failing_seeks(rt: HostRuntime) {
    assert!(rt; sought(rt.alloc(), &late(), 0) == (0, 0, Some(FileFault::Read)));
    assert!(rt; sought(rt.alloc(), &late(), 1) == (0, 0, Some(FileFault::Read)));
}

/// What `info` answers of a reader, and whether what it writes ends with two frames.
fn told<R: AgainIn + Drop>(alloc: Global, input: R) -> (Result<(), Fault>, bool) {
    let mut output = ToWrite::new(Vec::new(alloc));
    let done = info(alloc, Profile::Wide, input, &mut output, Form::Text, true);
    let written = output.into_inner();
    let counted = b"counted_frames      2\ncounted_duration    unknown\n";
    (done, written.as_slice().ends_with(counted))
}

/// `info` reads such a file again from where it stood, behind the bytes that it keeps.
#[test]
fn told_of_clusters_before_tracks(rt: HostRuntime) {
    let file = late();
    let alloc = rt.alloc();
    let sought = FromFile::new(SoughtReader::new(&file, 2), true);
    assert!(rt; told(alloc, sought) == (Ok(()), true));
    let failing = FromFile::new(SoughtReader::new(&file, 1), true);
    assert!(rt; told(alloc, failing) == (Err(Fault::Read), false));
    let pipe = FromRead::new(file.as_slice());
    assert!(rt; told(alloc, pipe) == (Err(Fault::File(FileFault::NoTracks)), false));
}

/// Tracks are sought up to the end of the Segment, and they lack at its first Cluster.
#[test]
fn no_tracks(rt: HostRuntime) {
    assert!(rt; sought(rt.alloc(), &lacking(), 2) == (0, 200, Some(FileFault::NoTracks)));
    assert!(rt; sought(rt.alloc(), &cut(), 2) == (0, 200, Some(FileFault::Truncated)));
}

/// Each request of memory is refused in its turn, those of the second reading too.
#[test]
fn refused_memory(rt: HostRuntime) {
    let file = late();
    let mut refused = 0u32;
    for before in 0..16u64 {
        let heap = Scarce::new(rt.alloc(), before);
        let mut input = FromFile::new(SoughtReader::new(&file, 2), true);
        let (_, _, fault) = frames_of(&heap, &mut input);
        if fault == Some(FileFault::OutOfMemory) {
            refused = refused.saturating_add(1);
        } else {
            assert!(rt; fault == None);
        }
    }
    assert!(rt; 4 < refused && refused < 12);
}
