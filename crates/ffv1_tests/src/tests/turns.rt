//! Each request for memory, each read and each write of each command, refused or cut in turn: the
//! fault that is answered, and the beginning of what is owed that is then written. What is owed is
//! what `model/commands.py` writes of the same input.

use super::orders::NO_COLOUR;
use ffv1_codec::CodecFault;
use ffv1_doubles::{FailingReader, Scarce, ShortWriter};
use ffv1_engine::{
    Choice, CodecIdChoice, CoderChoice, Fault, Profile, check, pack, pack_matroska, show, trial,
    unpack,
};
use ffv1_wire::{AgainIn, ByteIn, ByteOut, FromRead, PatchOut, ToWrite};
use std::alloc::{Allocator, Global};
use std::io::ErrorKind;
use std::process::Abort;
use std::test::Fail;

/// A text of 4:2:0 with one picture of 2 by 2, and its file.
static TEXT: &[u8] = b"YUV4MPEG2 W2 H2 F25:1 C420mpeg2 Xa\nFRAME\n\x01\x02\x03\x04\x05\x06";

static FILE: &[u8] = b"RIFF\x02\x01\0\0AVI LIST\xDA\0\0\0hdrlavih8\0\0\0\x40\x9C\0\0\
        \0\0\0\0\0\0\0\0\0\0\0\0\x01\0\0\0\0\0\0\0\x01\0\0\0\0\0\0\0\x02\0\0\0\x02\0\0\0\
        \0\0\0\0\0\0\0\0\0\0\0\0\0\0\0\0LIST\x8E\0\0\0strlstrh8\0\0\0vidsFFV1\0\0\0\0\
        \0\0\0\0\0\0\0\0\x01\0\0\0\x19\0\0\0\0\0\0\0\x01\0\0\0\0\0\0\0\0\0\0\0\0\0\0\0\
        \0\0\0\0\x02\0\x02\0strfB\0\0\0\x28\0\0\0\x02\0\0\0\x02\0\0\0\x01\0\x18\0FFV1\0\0\0\0\
        \0\0\0\0\0\0\0\0\0\0\0\0\0\0\0\0V\x000\xB8N6\xE1\x3FUX\xF2\xC20\x2D\xAC\x90\xB3y\xB1b\
        \x8B\xE0\x94\xE2\x8FBLIST\x14\0\0\0movi00dc\x08\0\0\0\xFD\xF71\x0B\x1D\0\0\x05";

/// A red image of 1 by 1, and its file.
static IMAGE: &[u8] = b"P6\n1 1\n255\n\xFF\x00\x00";

static IMAGE_FILE: &[u8] = b"RIFF\x04\x01\0\0AVI LIST\xDA\0\0\0hdrlavih8\0\0\0\x40\x9C\0\0\
        \0\0\0\0\0\0\0\0\0\0\0\0\x01\0\0\0\0\0\0\0\x01\0\0\0\0\0\0\0\x01\0\0\0\x01\0\0\0\
        \0\0\0\0\0\0\0\0\0\0\0\0\0\0\0\0LIST\x8E\0\0\0strlstrh8\0\0\0vidsFFV1\0\0\0\0\
        \0\0\0\0\0\0\0\0\x01\0\0\0\x19\0\0\0\0\0\0\0\x01\0\0\0\0\0\0\0\0\0\0\0\0\0\0\0\
        \0\0\0\0\x01\0\x01\0strfB\0\0\0\x28\0\0\0\x01\0\0\0\x01\0\0\0\x01\0\x18\0FFV1\0\0\0\0\
        \0\0\0\0\0\0\0\0\0\0\0\0\0\0\0\0U\xF6F\xAFE\xDAC\x2AfvLV8\x87\x04kq56l\x5E\x00\x0C\x1AH\
        \x02LIST\x16\0\0\0movi00dc\x09\0\0\0\xFEx\xDF\x83\xD9\x2C\0\0\x06\0";

/// Texts of two pictures, the second of which has more bytes, or as many.
static PICTURES: &[u8] = b"YUV4MPEG2 W2 H2 F25:1 I? A0:0 C420jpeg\n\
        FRAME\n\0\0\0\0\0\0FRAME\n\x01\x02\x03\x04\x05\x06";

/// The first of them in Matroska that cannot be written over.
static MATROSKA: &[u8] =
    b"\x1AE\xDF\xA3\xA3B\x86\x81\x01B\xF7\x81\x01B\xF2\x81\x04B\xF3\x81\x08B\x82\x88matroskaB\x87\
        \x81\x04B\x85\x81\x02\x18S\x80g\x01\xFF\xFF\xFF\xFF\xFF\xFF\xFF\x11M\x9Bt\xC5\xBF\x84\xAD\
        \xF0@8M\xBB\x92S\xAB\x84\x15I\xA9fS\xAC\x88\0\0\0\0\0\0\0JM\xBB\x92S\xAB\x84\x16T\xAEkS\
        \xAC\x88\0\0\0\0\0\0\0\x94\xEC\x93\0\0\0\0\0\0\0\0\0\0\0\0\0\0\0\0\0\0\0\x15I\xA9f\xC5\xBF\
        \x84 \xDD4\x93*\xD7\xB1\x88\0\0\0\0\x02bZ\0\xEC\x89\0\0\0\0\0\0\0\0\0M\x80\x91Ravenbillon \
        mkv 1WA\x91Ravenbillon mkv 1\x16T\xAEk\x01\0\0\0\0\0\0w\xBF\x84L27z\xAE\x01\0\0\0\0\0\0h\
        \xD7\x81\x01s\xC5\x81\x01\x83\x81\x01\x9C\x81\0\x22\xB5\x9C\x83und\x86\x86V_FFV1#\xE3\x83\
        \x88\0\0\0\0\x02bZ\0\xE0\x9A\xB0\x84\0\0\0\x02\xBA\x84\0\0\0\x02\x9A\x81\0U\xB0\x88U\xB7\
        \x81\x02U\xB8\x81\x02c\xA2\x01\0\0\0\0\0\0\x1AV\00\xB8N6\xE1?UX\xF2\xC20-\xAC\x90\xB3y\xB1\
        b\x8B\xE0\x94\xE2\x8FB\x1FC\xB6u\x01\0\0\0\0\0\0\x22\xBF\x84\x03\x15\x18\x1C\xE7\x88\0\0\0\
        \0\0\0\0\0\xA3\x01\0\0\0\0\0\0\x09\x81\0\0\x80\xFE\xFB\0\0\x02\x1FC\xB6u\x01\0\0\0\0\0\0%\
        \xBF\x84\x0E\xF5\x10Z\xE7\x88\0\0\0\0\0\0\0\x01\xA3\x01\0\0\0\0\0\0\x0C\x81\0\0\x80\xFD\
        \xF71\x0B\x1D\0\0\x05\x1CS\xBBk\x01\0\0\0\0\0\0<\xBF\x84\xDF\x83WU\xBB\x99\xB3\x88\0\0\0\0\
        \0\0\0\0\xB7\x8D\xF7\x81\x01\xF1\x88\0\0\0\0\0\0\x01\x17\xBB\x99\xB3\x88\0\0\0\0\0\0\0\x01\
        \xB7\x8D\xF7\x81\x01\xF1\x88\0\0\0\0\0\0\x01E";

static TWICE: &[u8] = b"YUV4MPEG2 W2 H2 F25:1 I? A0:0 C420jpeg\n\
        FRAME\n\x01\x02\x03\x04\x05\x06FRAME\n\x01\x02\x03\x04\x05\x06";

static IMAGES: &[u8] = b"P6\n1 1\n255\n\0\xFF\0P6\n1 1\n255\n\xFF\0\0";

const MONO: &[u8] = b"YUV4MPEG2 W1 H1 Cmono\nFRAME\n\0FRAME\n\0";

/// A command: packing without parity, checking with the place of a fault, showing with costs.
#[derive(Clone, Copy)]
enum Command {
    Pack,
    PackMatroska,
    Unpack,
    Check,
    Show,
    Trial,
}

/// What a command reads, and what it then writes.
#[derive(Clone, Copy)]
struct Case<'a> {
    command: Command,
    input: &'a [u8],
    /// After so many bytes read, so many stand written; the last are all.
    steps: &'a [(usize, usize)],
    owed: &'a [u8],
    /// From so many bytes on, a write that fails is not told.
    told: usize,
    /// The answer if nothing is refused.
    ends: Result<(), Fault>,
}

/// Without parity.
const PLAIN: Choice = Choice {
    coder: CoderChoice::Standard,
    large: false,
    columns: 1,
    rows: 1,
    default_grid: false,
    ec: false,
    rate: 25,
    scale: 1,
    verify: false,
    codec_id: CodecIdChoice::Native,
    codec_id_given: false,
    rate_given: false,
    colour: NO_COLOUR,
};

/// Packs without parity into Matroska.
fn pack_clusters<R: ByteIn, W: PatchOut, A: Allocator + Copy>(
    alloc: A,
    input: &mut R,
    output: &mut W,
) -> Result<(), Fault> {
    match pack_matroska(alloc, Profile::Wide, input, output, &PLAIN) {
        Ok(_) => Ok(()),
        Err(fault) => Err(fault),
    }
}

/// Packs without parity.
fn pack_plain<R: ByteIn, W: ByteOut, A: Allocator + Copy>(
    alloc: A,
    input: &mut R,
    output: &mut W,
) -> Result<(), Fault> {
    match pack(alloc, Profile::Strict, input, output, &PLAIN) {
        Ok(_) => Ok(()),
        Err(fault) => Err(fault),
    }
}

/// Unpacks, and hands the writer back.
fn unpack_all<R: AgainIn, W: ByteOut, A: Allocator + Copy>(
    alloc: A,
    input: &mut R,
    output: W,
) -> (W, Result<(), Fault>) {
    let (output, answer) = unpack(alloc, Profile::Strict, input, output);
    match answer {
        Ok(_) => (output, Ok(())),
        Err(fault) => (output, Err(fault)),
    }
}

/// Runs a command, and hands the writer back.
fn run<R: AgainIn, W: PatchOut, A: Allocator + Copy>(
    alloc: A,
    command: Command,
    input: &mut R,
    output: W,
) -> (W, Result<(), Fault>) {
    let mut output = output;
    let answer = match command {
        Command::Unpack => return unpack_all(alloc, input, output),
        Command::Pack => pack_plain(alloc, input, &mut output),
        Command::PackMatroska => pack_clusters(alloc, input, &mut output),
        Command::Check => check(alloc, Profile::Strict, input, &mut output, true).map(|_| ()),
        Command::Show => show(alloc, Profile::Strict, input, &mut output, true).map(|_| ()),
        Command::Trial => trial(alloc, input, &mut output),
    };
    (output, answer)
}

/// How many bytes were written, if they are a beginning of those that are owed.
fn beginning(owed: &[u8], written: &[u8]) -> Option<usize> {
    if owed.starts_with(written) {
        return Some(written.len());
    }
    None
}

/// How many bytes stand written after so many read.
fn written_behind(steps: &[(usize, usize)], read: usize) -> usize {
    let mut written = 0;
    for step in steps {
        if step.0 <= read {
            written = step.1;
        }
    }
    written
}

/// Whether so many bytes stand written after some number of bytes read.
fn is_step(steps: &[(usize, usize)], written: usize) -> bool {
    written == 0 || steps.iter().any(|step| step.1 == written)
}

/// The answer, and what was written, if the request after so many others is refused.
fn refused(alloc: Global, case: &Case<'_>, before: u64) -> (Result<(), Fault>, Option<usize>) {
    let heap = Scarce::new(alloc, before);
    let output = ToWrite::new(Vec::new(alloc));
    let (output, answer) = run(&heap, case.command, &mut FromRead::new(case.input), output);
    (answer, beginning(case.owed, &output.into_inner()))
}

/// The same, if the read after so many of one byte fails.
fn unread(alloc: Global, case: &Case<'_>, before: usize) -> (Result<(), Fault>, Option<usize>) {
    let mut input = FromRead::new(FailingReader::new(case.input, before, 1, ErrorKind::Other));
    let output = ToWrite::new(Vec::new(alloc));
    let (output, answer) = run(alloc, case.command, &mut input, output);
    (answer, beginning(case.owed, &output.into_inner()))
}

/// The same, if the writer takes so many bytes, seven at a time, and then fails.
fn unwritten(alloc: Global, case: &Case<'_>, room: usize) -> (Result<(), Fault>, Option<usize>) {
    let output = ToWrite::new(ShortWriter::new(alloc, room, 7, Some(ErrorKind::Other)));
    let (output, answer) = run(alloc, case.command, &mut FromRead::new(case.input), output);
    (answer, beginning(case.owed, output.into_inner().held()))
}

/// Each request is refused in turn: `OutOfMemory` from the first to the last, with the text of some
/// frames written. How many were refused after something written, and how many after the fault
/// whose place was then not told.
fn each_request(rt: &impl Abort, alloc: Global, case: &Case<'_>) -> (u64, u64) {
    let (mut count, mut begun, mut lost) = (0u64, 0u64, 0u64);
    for before in 0..80u64 {
        let (answer, written) = refused(alloc, case, before);
        let written = written.unwrap_or(usize::MAX);
        if answer == Err(Fault::OutOfMemory) {
            assert!(rt; count == before && written < case.owed.len());
            assert!(rt; is_step(case.steps, written));
            count = count.saturating_add(1);
            begun = begun.saturating_add(u64::from(written != 0));
        } else {
            assert!(rt; answer == case.ends);
            assert!(rt; written == case.owed.len() || written == case.told);
            lost = lost.saturating_add(u64::from(written != case.owed.len()));
        }
    }
    assert!(rt; 8 < count && count.saturating_add(lost) < 80);
    (begun, lost)
}

/// Each read fails in turn: `Read`, and as much is written as the bytes that were read give.
fn each_read(rt: &impl Abort, alloc: Global, case: &Case<'_>) {
    let all = match case.steps.last() {
        Some(step) => step.0,
        None => 0,
    };
    assert!(rt; case.input.len() <= all);
    for before in 0..all.saturating_add(1) {
        let (answer, written) = unread(alloc, case, before);
        let wanted = if before < all {
            Err(Fault::Read)
        } else {
            case.ends
        };
        assert!(rt; answer == wanted);
        assert!(rt; written == Some(written_behind(case.steps, before)));
    }
}

/// The output is cut at each byte: `Write`, and as many bytes as it takes.
fn each_write(rt: &impl Abort, alloc: Global, case: &Case<'_>) {
    for room in 0..=case.owed.len() {
        let (answer, written) = unwritten(alloc, case, room);
        let wanted = if room < case.told {
            Err(Fault::Write)
        } else {
            case.ends
        };
        assert!(rt; answer == wanted);
        assert!(rt; written == Some(room));
    }
}

/// All of them; how many requests were refused after something written.
fn in_turn(rt: &impl Abort, alloc: Global, case: &Case<'_>) -> (u64, u64) {
    each_read(rt, alloc, case);
    each_write(rt, alloc, case);
    each_request(rt, alloc, case)
}

/// A text is packed: nothing stands written before all was read.
fn packs(rt: &impl Abort, alloc: Global, text: &[u8], file: &[u8]) {
    let case = Case {
        command: Command::Pack,
        input: text,
        steps: &[(text.len().saturating_add(1), file.len())],
        owed: file,
        told: file.len(),
        ends: Ok(()),
    };
    assert!(rt; in_turn(rt, alloc, &case) == (0, 0));
}

#[test]
fn packing(rt: HostRuntime) {
    packs(&rt, rt.alloc(), TEXT, FILE);
    packs(&rt, rt.alloc(), IMAGE, IMAGE_FILE);
}

/// A picture is written as soon as it was read, and Cues once the end was.
#[test]
fn packing_matroska(rt: HostRuntime) {
    let case = Case {
        command: Command::PackMatroska,
        input: PICTURES,
        steps: &[(51, 377), (63, 426), (64, 498)],
        owed: MATROSKA,
        told: MATROSKA.len(),
        ends: Ok(()),
    };
    let (begun, lost) = in_turn(&rt, rt.alloc(), &case);
    assert!(rt; 0 < begun && lost == 0);
}

#[test]
fn trials(rt: HostRuntime) {
    let case = Case {
        command: Command::Trial,
        input: b"YUV4MPEG2 W2 H2 Cmono\nFRAME\n\x0A\x14\x1E\x28",
        steps: &[(32, 48)],
        owed: b"samples 4\ndecisions 38\ncode 71C6E52D49\nsame yes\n",
        told: 48,
        ends: Ok(()),
    };
    assert!(rt; in_turn(&rt, rt.alloc(), &case) == (0, 0));
}

/// The file of a text, whose last frame begins with a byte of 0 if it is to be damaged.
fn file_of(alloc: Global, text: &[u8], damage: bool) -> Result<Vec<u8>, Fault> {
    let mut output = ToWrite::new(Vec::new(alloc));
    pack_plain(alloc, &mut FromRead::new(text), &mut output)?;
    let mut file = output.into_inner();
    if damage {
        if let Some(place) = file.len().checked_sub(6) {
            file[place] = 0;
        }
    }
    Ok(file)
}

/// A file of two frames, the first of which ends after so many bytes, whose text or lines have so
/// many after each frame. How many requests were refused after something written.
fn plays(
    rt: &impl Abort,
    alloc: Global,
    command: Command,
    file: &[u8],
    steps: &[(usize, usize)],
    owed: &[u8],
) -> u64 {
    let case = Case {
        command,
        input: file,
        steps,
        owed,
        told: owed.len(),
        ends: Ok(()),
    };
    in_turn(rt, alloc, &case).0
}

/// One picture, and then none: nothing is written before all memory is there.
#[test]
fn unpacking_one(rt: HostRuntime) {
    let text = b"YUV4MPEG2 W2 H2 F25:1 I? A0:0 C420jpeg\nFRAME\n\x01\x02\x03\x04\x05\x06";
    let unpack = Command::Unpack;
    assert!(rt; plays(&rt, rt.alloc(), unpack, FILE, &[(266, 51)], text) == 0);
    assert!(rt; plays(&rt, rt.alloc(), unpack, IMAGE_FILE, &[(268, 14)], IMAGE) == 0);
}

/// The second frame takes memory if it is longer than the first.
#[test]
fn unpacking_two(rt: HostRuntime) -> Result<(), Fail> {
    let unpack = Command::Unpack;
    let file = file_of(rt.alloc(), TWICE, false)?;
    let steps = [(266, 51), (282, 63)];
    assert!(rt; plays(&rt, rt.alloc(), unpack, &file, &steps, TWICE) == 0);
    let file = file_of(rt.alloc(), PICTURES, false)?;
    let steps = [(264, 51), (280, 63)];
    assert!(rt; plays(&rt, rt.alloc(), unpack, &file, &steps, PICTURES) == 1);
    let file = file_of(rt.alloc(), IMAGES, false)?;
    let steps = [(266, 14), (284, 28)];
    assert!(rt; plays(&rt, rt.alloc(), unpack, &file, &steps, IMAGES) == 1);
    Ok(())
}

/// Beside the second frame, the line of their number takes memory.
#[test]
fn checking(rt: HostRuntime) -> Result<(), Fail> {
    let check = Command::Check;
    let file = file_of(rt.alloc(), PICTURES, false)?;
    let steps = [(264, 41), (280, 82), (280, 91)];
    let lines = b"frame 0: 5 bytes, 1 slices, 16 decisions\n\
            frame 1: 8 bytes, 1 slices, 38 decisions\nframes 2\n";
    assert!(rt; plays(&rt, rt.alloc(), check, &file, &steps, lines) > 1);
    let file = file_of(rt.alloc(), IMAGES, false)?;
    let steps = [(266, 41), (284, 82), (284, 91)];
    let lines = b"frame 0: 7 bytes, 1 slices, 31 decisions\n\
            frame 1: 9 bytes, 1 slices, 45 decisions\nframes 2\n";
    assert!(rt; plays(&rt, rt.alloc(), check, &file, &steps, lines) > 1);
    Ok(())
}

/// After the lines of the stream, the decoder takes its memory.
#[test]
fn showing(rt: HostRuntime) -> Result<(), Fail> {
    let show = Command::Show;
    let file = file_of(rt.alloc(), PICTURES, false)?;
    let steps = [(250, 148), (264, 197), (280, 247)];
    let lines = b"size 2x2\ncoder 1\ncolour YCbCr\nchroma 1,1\nslices 1x1\ncontexts 666\n\
            ec 0\nintra 1\nrate 25/1\n\
            held states 42624 samples 6 output 2 columns 1 offsets 1025\n\
            cost frame 0: ones 16 zeros 0 renormalisations 1\n\
            cost frame 1: ones 19 zeros 19 renormalisations 4\n";
    assert!(rt; plays(&rt, rt.alloc(), show, &file, &steps, lines) > 6);
    let file = file_of(rt.alloc(), IMAGES, false)?;
    let steps = [(250, 146), (266, 195), (284, 245)];
    let lines = b"size 1x1\ncoder 1\ncolour RCT\nchroma 0,0\nslices 1x1\ncontexts 666\n\
            ec 0\nintra 1\nrate 25/1\n\
            held states 42624 samples 9 output 3 columns 1 offsets 1025\n\
            cost frame 0: ones 22 zeros 9 renormalisations 3\n\
            cost frame 1: ones 30 zeros 15 renormalisations 5\n";
    assert!(rt; plays(&rt, rt.alloc(), show, &file, &steps, lines) > 6);
    Ok(())
}

/// The line that says where a frame is refused takes no memory. If it cannot be written, the fault
/// is still that of the frame.
#[test]
fn places(rt: HostRuntime) -> Result<(), Fail> {
    let file = file_of(rt.alloc(), MONO, true)?;
    let case = Case {
        command: Command::Check,
        input: &file,
        steps: &[(264, 41), (278, 94)],
        owed: b"frame 0: 5 bytes, 1 slices, 11 decisions\n\
                fault frame 1 slice 0 plane 0 line 0 x 0 decisions 1\n",
        told: 41,
        ends: Err(Fault::Codec(CodecFault::NotKey)),
    };
    assert!(rt; in_turn(&rt, rt.alloc(), &case) == (0, 0));
    let file = file_of(rt.alloc(), &MONO[..29], true)?;
    let case = Case {
        command: Command::Check,
        input: &file,
        steps: &[(264, 53)],
        owed: b"fault frame 0 slice 0 plane 0 line 0 x 0 decisions 1\n",
        told: 0,
        ends: Err(Fault::Codec(CodecFault::NotKey)),
    };
    assert!(rt; in_turn(&rt, rt.alloc(), &case) == (0, 0));
    Ok(())
}
