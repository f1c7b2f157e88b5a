//! Lists of MD5s as FFmpeg 5.1.9 writes them, and what a file is against them.

use super::sums::{PAIR, file_of};
use ffv1_doubles::{FailingReader, Scarce};
use ffv1_engine::{Fault, ListFault, Notes, Profile, Unlike, check_against, read_list};
use ffv1_reads::FileFault;
use ffv1_wire::FromRead;
use std::alloc::Global;
use std::io::ErrorKind;
use std::process::Abort;
use std::test::Fail;

/// What FFmpeg's framemd5 writes of a stream of sound and of `PAIR`.
const WITH_SOUND: &[u8] = b"#format: frame checksums
#version: 2
#hash: MD5
#software: Lavf59.27.100
#tb 0: 1/44100
#media_type 0: audio
#codec_id 0: pcm_s16le
#tb 1: 1/25
#media_type 1: video
#codec_id 1: rawvideo
#stream#, dts,        pts, duration,     size, hash
0,          0,          0,     1024,     2048, 4974187d12eee3cc554f57e7f68f8637
1,          0,          0,        1,        6, 6ac1e56bc78f031059be7be854522c4c
0,       1024,       1024,     1024,     2048, 44fdca2ca02f0f2d04b36b085ebdab9e
1,          1,          1,        1,        6, 06e22bc66691496dd92c04669b3703cc
";

/// The two MD5s, each as a number.
const FIRST: u128 = 0x6AC1E56BC78F031059BE7BE854522C4C;

const SECOND: u128 = 0x06E22BC66691496DD92C04669B3703CC;

static PAIR_MD5S: [u128; 2] = [FIRST, SECOND];

/// A list comes to these MD5s, or to this fault.
fn comes_to(rt: &impl Abort, alloc: Global, list: &[u8], wanted: Result<&[u128], ListFault>) {
    match (read_list(alloc, &mut FromRead::new(list)), wanted) {
        (Ok(found), Ok(wanted)) => assert!(rt; found.as_slice() == wanted),
        (Err(found), Err(wanted)) => assert!(rt; found == wanted),
        _ => assert!(rt; false),
    }
}

/// Lists of the two MD5s, beside FFmpeg's of a file without sound.
static PAIRS: [&[u8]; 3] = [
    WITH_SOUND,
    b"0,0,0,1,6,6AC1E56BC78F031059BE7BE854522C4C\r\n0,1,1,1,6,06E22BC66691496DD92C04669B3703CC",
    b"#media_type 7: video
7, -9223372036854775808, -1, 1, 6, 6ac1e56bc78f031059be7be854522c4c, S=1, 4, 00
0, 0, 0, 1, 6, 00000000000000000000000000000000
7, 1, 1, 1, 6, 06e22bc66691496dd92c04669b3703cc
",
];

#[test]
fn pairs(rt: HostRuntime) {
    comes_to(&rt, rt.alloc(), PAIR.2, Ok(&PAIR_MD5S));
    for list in &PAIRS {
        comes_to(&rt, rt.alloc(), list, Ok(&PAIR_MD5S));
    }
}

/// After so many reads of a byte one fails.
fn fails_after(rt: &impl Abort, alloc: Global, before: usize) {
    let mut input = FromRead::new(FailingReader::new(PAIR.2, before, 1, ErrorKind::Other));
    let found = read_list(alloc, &mut input);
    assert!(rt; found.err() == Some(ListFault::Read));
    assert!(rt; input.failures() == 1);
}

/// After so many requests memory is refused; answers whether it was.
fn is_scarce(rt: &impl Abort, alloc: Global, before: u64) -> bool {
    let heap = Scarce::new(alloc, before);
    match read_list(&heap, &mut FromRead::new(PAIR.2)) {
        Ok(md5s) => assert!(rt; md5s.as_slice() == PAIR_MD5S.as_slice()),
        Err(fault) => {
            assert!(rt; fault == ListFault::OutOfMemory);
            return true;
        }
    }
    false
}

#[test]
fn reads_and_memory_fail(rt: HostRuntime) {
    for before in 0..PAIR.2.len() {
        fails_after(&rt, rt.alloc(), before);
    }
    assert!(rt; is_scarce(&rt, rt.alloc(), 0));
    assert!(rt; is_scarce(&rt, rt.alloc(), 1));
    assert!(rt; !is_scarce(&rt, rt.alloc(), 40));
}

/// What is no list, and the number of the line.
static NONE: [(&[u8], u64); 7] = [
    (b"", 0),
    (b"#version: 2\n#media_type 0: video\n", 2),
    (b"#version: 2\n#hash: SHA256\n", 2),
    (b"0, 0, 0, 1, 6, 6ac1e56bc78f031059be7be854522c4\n", 1),
    (b"0, 0, 0, 1, 6, +ac1e56bc78f031059be7be854522c4c\n", 1),
    (b"0, 0, 0, 1, 6ac1e56bc78f031059be7be854522c4c\n", 1),
    (b"1, 0, 0, 1, 6, 6ac1e56bc78f031059be7be854522c4c\n\n", 2),
];

#[test]
fn no_lists(rt: HostRuntime) {
    for &(list, line) in &NONE {
        comes_to(&rt, rt.alloc(), list, Err(ListFault::Line(line)));
    }
}

/// MD5s, and what the file of `PAIR` is against them.
static COMPARED: [(&[u128], Result<(), Unlike>); 5] = [
    (&[FIRST, SECOND], Ok(())),
    (&[FIRST], Err(Unlike::Differs(1))),
    (&[SECOND, SECOND], Err(Unlike::Differs(0))),
    (&[FIRST, FIRST], Err(Unlike::Differs(1))),
    (&[FIRST, SECOND, 0], Err(Unlike::Differs(2))),
];

/// A file is so against these MD5s.
fn is_against(
    rt: &impl Abort,
    alloc: Global,
    file: &[u8],
    md5s: &[u128],
    wanted: Result<(), Unlike>,
) {
    let found = check_against(alloc, Profile::Wide, &mut FromRead::new(file), md5s);
    assert!(rt; found == wanted.map(|_| Notes::NONE));
}

#[test]
fn pictures(rt: HostRuntime) -> Result<(), Fail> {
    let file = file_of(rt.alloc(), PAIR.0)?;
    for &(md5s, wanted) in &COMPARED {
        is_against(&rt, rt.alloc(), &file, md5s, wanted);
    }
    let cut = &file[..file.len() / 2];
    is_against(
        &rt,
        rt.alloc(),
        cut,
        &PAIR_MD5S,
        Err(Unlike::Fault(Fault::File(FileFault::Truncated))),
    );
    Ok(())
}
