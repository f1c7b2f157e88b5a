//! The texts of faults, of each crate all of them: the number and the name that stand for a fault
//! on standard error.

use ffv1_codec::CodecFault;
use ffv1_doubles::made::shows;
use ffv1_engine::Fault;
use ffv1_reads::FileFault;
use ffv1_record::RecordFault;
use ffv1_slice::SliceFault;
use std::alloc::Global;
use std::fmt::Display;
use std::process::Abort;

/// Each fault has its text.
fn are_shown<T: Display>(rt: &impl Abort, alloc: Global, rows: &[(T, &str)]) {
    for (fault, text) in rows {
        assert!(rt; shows(alloc, fault, text), "{text}");
    }
}

/// Those of the engine.
static ENGINE: [(Fault, &str); 67] = [
    (Fault::Record(RecordFault::StateTable), "1 StateTable"),
    (Fault::OutOfMemory, "2 OutOfMemory"),
    (Fault::Record(RecordFault::BadStart), "3 BadStart"),
    (Fault::Record(RecordFault::SymbolTooLong), "4 SymbolTooLong"),
    (Fault::Record(RecordFault::Runs), "5 Runs"),
    (Fault::Record(RecordFault::Contexts), "6 Contexts"),
    (Fault::Codec(CodecFault::Colour), "7 Colour"),
    (Fault::Codec(CodecFault::Overread), "8 Overread"),
    (Fault::Codec(CodecFault::Ending), "9 Ending"),
    (Fault::Record(RecordFault::Size), "10 Size"),
    (Fault::Record(RecordFault::Grid), "11 Grid"),
    (Fault::Record(RecordFault::ChromaEdge), "12 ChromaEdge"),
    (Fault::Record(RecordFault::Subsampling), "13 Subsampling"),
    (Fault::Record(RecordFault::Sets), "14 Sets"),
    (Fault::Record(RecordFault::Short), "15 Short"),
    (Fault::Record(RecordFault::Parity), "16 Parity"),
    (Fault::Record(RecordFault::Version), "17 Version"),
    (Fault::Record(RecordFault::MicroVersion), "18 MicroVersion"),
    (Fault::Record(RecordFault::Coder), "19 Coder"),
    (Fault::Record(RecordFault::ColourSpace), "20 ColourSpace"),
    (Fault::Record(RecordFault::Depth), "21 Depth"),
    (Fault::Record(RecordFault::CodedStates), "22 CodedStates"),
    (Fault::Record(RecordFault::Ec), "23 Ec"),
    (Fault::Record(RecordFault::Intra), "24 Intra"),
    (Fault::Record(RecordFault::ExtraPlane), "25 ExtraPlane"),
    (Fault::Codec(CodecFault::BitsEnd), "27 BitsEnd"),
    (Fault::Codec(CodecFault::BadCode), "28 BadCode"),
    (Fault::Codec(CodecFault::Padding), "29 Padding"),
    (Fault::Codec(CodecFault::NotKey), "30 NotKey"),
    (Fault::Codec(CodecFault::Place), "31 Place"),
    (Fault::Codec(CodecFault::SetIndex), "32 SetIndex"),
    (Fault::Codec(CodecFault::Structure), "33 Structure"),
    (Fault::Codec(CodecFault::Aspect), "34 Aspect"),
    (Fault::Codec(CodecFault::Footer), "35 Footer"),
    (Fault::Codec(CodecFault::Leftover), "36 Leftover"),
    (Fault::Codec(CodecFault::SliceParity), "37 SliceParity"),
    (Fault::Codec(CodecFault::SliceStatus), "38 SliceStatus"),
    (Fault::Codec(CodecFault::Overlap), "39 Overlap"),
    (Fault::Codec(CodecFault::SliceTooLong), "40 SliceTooLong"),
    (Fault::Codec(CodecFault::InfoDiffers), "41 InfoDiffers"),
    (Fault::Codec(CodecFault::Sink), "42 Sink"),
    (Fault::File(FileFault::NotAvi), "50 NotAvi"),
    (Fault::File(FileFault::NoFfv1), "51 NoFfv1"),
    (Fault::File(FileFault::Truncated), "52 Truncated"),
    (Fault::File(FileFault::ChunkTooLong), "53 ChunkTooLong"),
    (Fault::File(FileFault::EmptyFrame), "54 EmptyFrame"),
    (Fault::File(FileFault::TooLarge), "55 TooLarge"),
    (Fault::Read, "56 Read"),
    (Fault::Write, "57 Write"),
    (Fault::Text(ffv1_y4m::Fault::Header), "60 Header"),
    (Fault::Text(ffv1_y4m::Fault::Tag), "61 Tag"),
    (Fault::Text(ffv1_y4m::Fault::Unsupported), "62 Unsupported"),
    (Fault::Text(ffv1_y4m::Fault::FrameLine), "63 FrameLine"),
    (
        Fault::Text(ffv1_y4m::Fault::FrameTruncated),
        "64 FrameTruncated",
    ),
    (Fault::NoFrames, "70 NoFrames"),
    (Fault::FormatChanged, "71 FormatChanged"),
    (Fault::NoY4mName, "72 NoY4mName"),
    (Fault::NoPpm, "73 NoPpm"),
    (Fault::File(FileFault::NotMatroska), "80 NotMatroska"),
    (Fault::File(FileFault::BadElement), "81 BadElement"),
    (Fault::File(FileFault::NoTracks), "82 NoTracks"),
    (Fault::File(FileFault::Encoded), "83 Encoded"),
    (Fault::File(FileFault::Laced), "84 Laced"),
    (Fault::File(FileFault::Checksum), "85 Checksum"),
    (Fault::File(FileFault::Rate), "86 Rate"),
    (Fault::NotSame, "87 NotSame"),
    (Fault::File(FileFault::Another), "88 Another"),
];

/// Those of the range coder.
static RANGE: [(ffv1_range::Fault, &str); 4] = [
    (ffv1_range::Fault::StateTable, "1 StateTable"),
    (ffv1_range::Fault::OutOfMemory, "2 OutOfMemory"),
    (ffv1_range::Fault::BadStart, "3 BadStart"),
    (ffv1_range::Fault::SymbolTooLong, "4 SymbolTooLong"),
];

/// Those of planes.
static PLANES: [(ffv1_plane::Fault, &str); 3] = [
    (ffv1_plane::Fault::OutOfMemory, "2 OutOfMemory"),
    (ffv1_plane::Fault::Runs, "5 Runs"),
    (ffv1_plane::Fault::Contexts, "6 Contexts"),
];

/// Those of the record.
static RECORD: [(RecordFault, &str); 22] = [
    (RecordFault::StateTable, "1 StateTable"),
    (RecordFault::OutOfMemory, "2 OutOfMemory"),
    (RecordFault::BadStart, "3 BadStart"),
    (RecordFault::SymbolTooLong, "4 SymbolTooLong"),
    (RecordFault::Runs, "5 Runs"),
    (RecordFault::Contexts, "6 Contexts"),
    (RecordFault::Size, "10 Size"),
    (RecordFault::Grid, "11 Grid"),
    (RecordFault::ChromaEdge, "12 ChromaEdge"),
    (RecordFault::Subsampling, "13 Subsampling"),
    (RecordFault::Sets, "14 Sets"),
    (RecordFault::Short, "15 Short"),
    (RecordFault::Parity, "16 Parity"),
    (RecordFault::Version, "17 Version"),
    (RecordFault::MicroVersion, "18 MicroVersion"),
    (RecordFault::Coder, "19 Coder"),
    (RecordFault::ColourSpace, "20 ColourSpace"),
    (RecordFault::Depth, "21 Depth"),
    (RecordFault::CodedStates, "22 CodedStates"),
    (RecordFault::Ec, "23 Ec"),
    (RecordFault::Intra, "24 Intra"),
    (RecordFault::ExtraPlane, "25 ExtraPlane"),
];

/// Those of files.
static FILES: [(FileFault, &str); 17] = [
    (FileFault::OutOfMemory, "2 OutOfMemory"),
    (FileFault::NotAvi, "50 NotAvi"),
    (FileFault::NoFfv1, "51 NoFfv1"),
    (FileFault::Truncated, "52 Truncated"),
    (FileFault::ChunkTooLong, "53 ChunkTooLong"),
    (FileFault::EmptyFrame, "54 EmptyFrame"),
    (FileFault::TooLarge, "55 TooLarge"),
    (FileFault::Read, "56 Read"),
    (FileFault::Write, "57 Write"),
    (FileFault::NotMatroska, "80 NotMatroska"),
    (FileFault::BadElement, "81 BadElement"),
    (FileFault::NoTracks, "82 NoTracks"),
    (FileFault::Encoded, "83 Encoded"),
    (FileFault::Laced, "84 Laced"),
    (FileFault::Checksum, "85 Checksum"),
    (FileFault::Rate, "86 Rate"),
    (FileFault::Another, "88 Another"),
];

/// Those of texts of pictures.
static Y4M: [(ffv1_y4m::Fault, &str); 9] = [
    (ffv1_y4m::Fault::OutOfMemory, "2 OutOfMemory"),
    (ffv1_y4m::Fault::Read, "56 Read"),
    (ffv1_y4m::Fault::Write, "57 Write"),
    (ffv1_y4m::Fault::Header, "60 Header"),
    (ffv1_y4m::Fault::Tag, "61 Tag"),
    (ffv1_y4m::Fault::Unsupported, "62 Unsupported"),
    (ffv1_y4m::Fault::FrameLine, "63 FrameLine"),
    (ffv1_y4m::Fault::FrameTruncated, "64 FrameTruncated"),
    (ffv1_y4m::Fault::FormatChanged, "71 FormatChanged"),
];

/// Those of slices.
static SLICES: [(SliceFault, &str); 12] = [
    (SliceFault::OutOfMemory, "2 OutOfMemory"),
    (SliceFault::SymbolTooLong, "4 SymbolTooLong"),
    (SliceFault::NotKey, "30 NotKey"),
    (SliceFault::Place, "31 Place"),
    (SliceFault::SetIndex, "32 SetIndex"),
    (SliceFault::Structure, "33 Structure"),
    (SliceFault::Aspect, "34 Aspect"),
    (SliceFault::Footer, "35 Footer"),
    (SliceFault::Leftover, "36 Leftover"),
    (SliceFault::SliceParity, "37 SliceParity"),
    (SliceFault::SliceStatus, "38 SliceStatus"),
    (SliceFault::SliceTooLong, "40 SliceTooLong"),
];

/// Those of the codec.
static CODEC: [(CodecFault, &str); 22] = [
    (CodecFault::OutOfMemory, "2 OutOfMemory"),
    (CodecFault::BadStart, "3 BadStart"),
    (CodecFault::SymbolTooLong, "4 SymbolTooLong"),
    (CodecFault::Colour, "7 Colour"),
    (CodecFault::Overread, "8 Overread"),
    (CodecFault::Ending, "9 Ending"),
    (CodecFault::BitsEnd, "27 BitsEnd"),
    (CodecFault::BadCode, "28 BadCode"),
    (CodecFault::Padding, "29 Padding"),
    (CodecFault::NotKey, "30 NotKey"),
    (CodecFault::Place, "31 Place"),
    (CodecFault::SetIndex, "32 SetIndex"),
    (CodecFault::Structure, "33 Structure"),
    (CodecFault::Aspect, "34 Aspect"),
    (CodecFault::Footer, "35 Footer"),
    (CodecFault::Leftover, "36 Leftover"),
    (CodecFault::SliceParity, "37 SliceParity"),
    (CodecFault::SliceStatus, "38 SliceStatus"),
    (CodecFault::Overlap, "39 Overlap"),
    (CodecFault::SliceTooLong, "40 SliceTooLong"),
    (CodecFault::InfoDiffers, "41 InfoDiffers"),
    (CodecFault::Sink, "42 Sink"),
];

#[test]
fn of_commands(rt: HostRuntime) {
    are_shown(&rt, rt.alloc(), &ENGINE);
    are_shown(&rt, rt.alloc(), &FILES);
    are_shown(&rt, rt.alloc(), &Y4M);
}

#[test]
fn of_pictures(rt: HostRuntime) {
    are_shown(&rt, rt.alloc(), &RECORD);
    are_shown(&rt, rt.alloc(), &SLICES);
    are_shown(&rt, rt.alloc(), &CODEC);
}

#[test]
fn of_symbols_and_lines(rt: HostRuntime) {
    are_shown(&rt, rt.alloc(), &RANGE);
    are_shown(&rt, rt.alloc(), &PLANES);
    are_shown(
        &rt,
        rt.alloc(),
        &[(ffv1_line::TooLong { x: 3 }, "4 SymbolTooLong")],
    );
    are_shown(
        &rt,
        rt.alloc(),
        &[(ffv1_rct::NoColour { x: 3 }, "7 Colour")],
    );
}
