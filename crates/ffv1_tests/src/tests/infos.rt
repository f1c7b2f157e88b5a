//! What `info` writes of files over memory, and its faults. The facts are those of the model, in
//! `model/known_answers/infos.py`.

use crate::tests::shows::file_of;
use ffv1_codec::CodecFault;
use ffv1_doubles::made;
use ffv1_engine::{Fault, Profile};
use ffv1_info::info;
use ffv1_outline::Form;
use ffv1_reads::FileFault;
use ffv1_wire::{FromRead, ToWrite};
use std::alloc::Global;
use std::process::Abort;
use std::test::Fail;

/// What the beginning of an AVI says.
static AVI: &[u8] = b"container           AVI\napplication         unknown\n";

/// How long three frames last, and one.
static THREE: &[u8] = b"duration            0.120 s\nframes              3\n";

static ONE: &[u8] = b"duration            0.040 s\nframes              1\n";

static TRACK: &[u8] = b"track 1             video, \"FFV1\", unknown\n";

static HEAD: &[u8] = b"size                1x1\nrate                25/1\n\
        range               unknown\nsiting              unknown\n\
        primaries           unknown\ntransfer            unknown\n\
        matrix              unknown\n";

static RECORD: &[u8] = b"bits                8\ncolours             YCbCr\n\
        chroma              mono\ntransparency        no\nslices              1x1\n\
        coder               range coder, default table\ncontexts            666 (small)\n\
        parity              no\nkey_frames          yes\n";

static PICTURE: &[u8] = b"fields              unknown\nsample_aspect       unknown\n\
        display_aspect      unknown\n";

static COUNTED: &[u8] = b"counted_frames      3\ncounted_duration    0.120 s\n";

static OBJECT: &[u8] = b",\"container\":\"AVI\",\"application\":null,\
        \"duration\":0.120,\"frames\":3,\
        \"tracks\":[{\"kind\":\"video\",\"codec\":\"FFV1\",\"language\":null}],\
        \"size\":[1,1],\"rate\":[25,1],\"range\":null,\"siting\":null,\"primaries\":null,\
        \"transfer\":null,\"matrix\":null,\"bits\":8,\"colours\":\"YCbCr\",\"chroma\":\"mono\",\
        \"transparency\":false,\"slices\":[1,1],\"coder\":\"range coder, default table\",\
        \"contexts\":[666],\"context_names\":[\"small\"],\"parity\":false,\
        \"key_frames\":true,\"fields\":null,\
        \"sample_aspect\":null,\"display_aspect\":null";

/// A frame of a mono picture of 1 by 1.
const FRAME: &[u8] = b"\xFE\x7B\x00\x00\x02";

/// A file is answered so, and these facts are written, one group after the other.
fn tells(
    rt: &impl Abort,
    alloc: Global,
    file: &[u8],
    (form, count): (Form, bool),
    answer: Result<(), Fault>,
    facts: &[&[u8]],
) {
    let mut output = ToWrite::new(Vec::new(alloc));
    let input = FromRead::new(file);
    let found = info(alloc, Profile::Wide, input, &mut output, form, count);
    let written = output.into_inner();
    assert!(rt; found == answer);
    let mut left = written.as_slice();
    for group in facts {
        assert!(rt; left.starts_with(group));
        left = &left[group.len().min(left.len())..];
    }
    assert!(rt; left.is_empty());
}

#[test]
fn facts_of_a_file(rt: HostRuntime) -> Result<(), Fail> {
    let alloc = rt.alloc();
    let file = file_of(alloc, made::mono(alloc, 1, 1, 1, false)?, 25, 1, FRAME, 3)?;
    let whole: [&[u8]; 6] = [AVI, THREE, TRACK, HEAD, RECORD, PICTURE];
    tells(&rt, alloc, &file, (Form::Text, false), Ok(()), &whole);
    let counted: [&[u8]; 7] = [AVI, THREE, TRACK, HEAD, RECORD, PICTURE, COUNTED];
    tells(&rt, alloc, &file, (Form::Text, true), Ok(()), &counted);
    tells(&rt, alloc, &file, (Form::Json, false), Ok(()), &[OBJECT]);
    Ok(())
}

#[test]
fn facts_before_a_fault(rt: HostRuntime) -> Result<(), Fail> {
    let alloc = rt.alloc();
    let text = (Form::Text, false);
    let bad = file_of(
        alloc,
        made::mono(alloc, 1, 1, 1, false)?,
        25,
        1,
        b"\x00\x00\x00",
        1,
    )?;
    tells(
        &rt,
        alloc,
        &bad,
        text,
        Err(Fault::Codec(CodecFault::NotKey)),
        &[AVI, ONE, TRACK, HEAD, RECORD],
    );
    let none: &[u8] = b"container           unknown\n";
    tells(
        &rt,
        alloc,
        b"RIFX",
        text,
        Err(Fault::File(FileFault::Truncated)),
        &[none],
    );
    Ok(())
}

/// Of Matroska and WebM, each with a Void before its Segment.
#[test]
fn facts_of_other_tracks(rt: HostRuntime) {
    let alloc = rt.alloc();
    let text = (Form::Text, false);
    let sound: &[u8] = b"\x1A\x45\xDF\xA3\x8B\x42\x82\x88matroska\xEC\x82\0\0\x18\x53\x80\x67\x8A\
        \x16\x54\xAE\x6B\x85\xAE\x83\x83\x81\x02";
    let facts: &[u8] = b"container           Matroska\napplication         unknown\n\
        duration            unknown\nframes              unknown\n\
        track 1             audio, unknown, \"eng\"\n";
    tells(
        &rt,
        alloc,
        sound,
        text,
        Err(Fault::File(FileFault::NoFfv1)),
        &[facts],
    );
    let webm: &[u8] = b"\x1A\x45\xDF\xA3\x87\x42\x82\x84webm\xEC\x80\x18\x53\x80\x67\x80";
    let facts: &[u8] = b"container           WebM\napplication         unknown\n\
        duration            unknown\nframes              unknown\n";
    tells(
        &rt,
        alloc,
        webm,
        text,
        Err(Fault::File(FileFault::NotMatroska)),
        &[facts],
    );
}
