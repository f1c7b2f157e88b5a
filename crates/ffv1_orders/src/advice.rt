//! What the program says of each fault. `man/faults` writes this file from the tables of
//! `docs/FAULTS.md`.

/// Of each fault, those of the engine by their numbers and then those of the program: its number
/// and name, when it comes, and what to do, a line each. If more lines say that, what was met says
/// which.
pub static ROWS: [&str; 70] = [
    "1 StateTable\n  A state transition table leads a state out of its range.\n  Not read. Use \
     another program, such as FFmpeg.",
    "2 OutOfMemory\n  Memory was refused.\n  Free some, or give more slices: a decoder holds one \
     row of them. show says how much a file takes. pack holds all frames of an AVI, and one of \
     Matroska.",
    "3 BadStart\n  The first two bytes of coded bytes are 65280 or more. A slice may have it \
     too.\n  Damage, or no range coder. Fetch another copy of the file.",
    "4 SymbolTooLong\n  A symbol's magnitude has more than 31 bits. A slice may have it too.\n  \
     Damage. Fetch another copy of the file.",
    "5 Runs\n  The runs of a quantisation table do not fill it.\n  Damage. Fetch another copy of \
     the file.",
    "6 Contexts\n  A quantisation table set has more than 32768 contexts.\n  Not read. Use \
     another program, such as FFmpeg.",
    "7 Colour\n  Red, green, blue or transparency of a sample has more bits than a sample, or is \
     below 0.\n  Damage that parity does not guard. Fetch another copy of the file.",
    "8 Overread\n  A slice is read more than two bytes past its end: it codes more of the picture \
     than it has bytes for. The decoder checks this after the head and after each line of the \
     slice.\n  Damage, or made by hand. Fetch another copy of the file.",
    "9 Ending\n  A slice does not end where its coder ends: after its last line it has bytes left \
     over, or too few, or its end is not the one that encoders write. The slice is cut short, has \
     bytes too many, or is damaged.\n  Damage. Fetch another copy of the file.",
    "10 Size\n  The width or the height is not from 1 to 8192.\n  This codec has no larger \
     pictures.",
    "11 Grid\n  Columns or rows are not from 1 to 32, or more than the picture has samples.\n  \
     Give fewer slices.",
    "12 ChromaEdge\n  At Strict, an inner edge of the slices is no multiple of its chroma factor. \
     At Wide, a column or a line of chroma would lie in no slice: FFmpeg writes such files, loses \
     its samples, and decodes them as 0.\n  Give another number of columns or rows.",
    "13 Subsampling\n  A chroma factor is above 4, or not 1 with RCT or without chroma, or RCT \
     has no chroma planes.\n  Not read. Use another program, such as FFmpeg.",
    "14 Sets\n  There are not 1 to 8 quantisation table sets.\n  Not read. Use another program, \
     such as FFmpeg.",
    "15 Short\n  The configuration record has fewer than 5 bytes: version 0 or 1 has none.\n  Not \
     read: RFC 9043's version 3 alone is. Use another program, such as FFmpeg.",
    "16 Parity\n  The record's remainder is not 0.\n  Damage. Fetch another copy of the file.",
    "17 Version\n  The version is not 3.\n  Not read. Use another program, such as FFmpeg.",
    "18 MicroVersion\n  The micro version is not 4.\n  Not read. Use another program, such as \
     FFmpeg.",
    "19 Coder\n  The coder type is not 0, 1 or 2; or it is 0, Golomb-Rice, with samples of more \
     than 8 bits.\n  Not read. Use another program, such as FFmpeg.",
    "20 ColourSpace\n  The colour space type is not 0 or 1.\n  Not read. Use another program, \
     such as FFmpeg.",
    "21 Depth\n  Samples are not of 8, 9, 10, 12, 14 or 16 bits.\n  Not read. Use another \
     program, such as FFmpeg.",
    "22 CodedStates\n  The initial states of a set are coded.\n  Not read. Use another program, \
     such as FFmpeg.",
    "23 Ec\n  ec is above 1.\n  Not read. Use another program, such as FFmpeg.",
    "24 Intra\n  intra is above 1.\n  Not read. Use another program, such as FFmpeg.",
    "25 ExtraPlane\n  There is a plane of transparency, but no chroma.\n  Not read. Use another \
     program, such as FFmpeg.",
    "27 BitsEnd\n  Golomb-Rice: a sample wants a bit behind its slice's last one.\n  Damage. \
     Fetch another copy of the file.",
    "28 BadCode\n  Golomb-Rice: bits are those of no difference: a number is too large, or is not \
     written in the shortest way, or a run leaves its line.\n  Damage. Fetch another copy of the \
     file.",
    "29 Padding\n  Golomb-Rice: behind a slice's last sample come other bits than zeros up to a \
     byte.\n  Damage. Fetch another copy of the file.",
    "30 NotKey\n  The frame is no key frame.\n  Not read. Use another program, such as FFmpeg.",
    "31 Place\n  A slice's head names another cell than its own, or more than one cell.\n  \
     Damage, or not read. Fetch another copy of the file.",
    "32 SetIndex\n  A slice's head names a set that is not there.\n  Damage. Fetch another copy \
     of the file.",
    "33 Structure\n  The picture structure is above 3.\n  Damage. Fetch another copy of the file.",
    "34 Aspect\n  A number of the sample aspect is above 65535.\n  Damage. Fetch another copy of \
     the file.",
    "35 Footer\n  Going from the end, a slice's size does not fit.\n  Damage. Fetch another copy \
     of the file.",
    "36 Leftover\n  Bytes are left before the first slice.\n  Damage. Fetch another copy of the \
     file.",
    "37 SliceParity\n  A slice's parity does not agree: damage within 32 neighbouring bits of a \
     slice, its size aside, is always found. Anywhere else in a payload whose slices have parity \
     it is found too, by this fault or by 35, 36 or 38.\n  Fetch another copy of the file.",
    "38 SliceStatus\n  The encoder marked the slice as damaged.\n  Fetch another copy, or the \
     source: no decoder can mend it.",
    "39 Overlap\n  Two slices say different values of one chroma sample: the place is the later \
     one's, at the first column that differs. FFmpeg takes one of them, which with threads \
     depends on the run.\n  Damage that parity does not guard, or made by hand. Fetch another \
     copy of the file.",
    "40 SliceTooLong\n  A slice has more than 16777215 coded bytes.\n  Give more slices.",
    "41 InfoDiffers\n  A slice says another structure or aspect than the first one of its \
     frame.\n  Damage. Fetch another copy of the file.",
    "42 Sink\n  Of the libraries alone.",
    "50 NotAvi\n  The file is no AVI, and no Matroska either: it begins otherwise, a list is too \
     short for its own name, scale or rate is zero alone, or there is no movi. It may also come \
     later: a chunk stands in movi that is not allowed there, whatever its size, or a frame after \
     it, or a RIFF after the first one has no room for its form.\n  QuickTime or MP4: copy the \
     stream into Matroska (ffmpeg -i file.mov -map 0:v -c copy file.mkv).\n  An AVI that is \
     broken, before its first frame or after it: the frames before are good, so copy them into \
     Matroska (ffmpeg -i file.avi -map 0:v -c copy file.mkv), or fetch another copy.\n  Another \
     kind of file: give AVI or Matroska; a video of YUV4MPEG2 or PPM is for ffv1 pack.",
    "51 NoFfv1\n  No stream is FFV1 video: in AVI of the first hundred, before movi; in Matroska \
     of the first Tracks.\n  Another codec is not read. To make FFV1 of it, ffmpeg -i IN -f \
     yuv4mpegpipe -strict -1 - | ffv1 pack - OUT.",
    "52 Truncated\n  A chunk does not fit in its list, or an element or a field of a block in \
     what it stands in; the file ends inside it; or an AVI ends before it has as many frames as \
     its dmlh says. It may also come later.\n  The file is not whole; the frames before are good.",
    "53 ChunkTooLong\n  A frame is longer than 1073741824 bytes, or the format of a stream, the \
     header of EBML or Tracks than 67108864. It may also come later. pack: a coded frame is \
     longer.\n  Give smaller pictures; of a file, damage.",
    "54 EmptyFrame\n  A frame of Matroska has no bytes; of an AVI it repeats the one before \
     it.\n  Not read. Use another program, such as FFmpeg.",
    "55 TooLarge\n  An AVI would pass 2147483655 bytes, or a Cluster of Matroska would end after \
     2^56 - 2^20. framemd5: there are 2^64 pictures.\n  Pack into Matroska (--container mkv).",
    "56 Read\n  IN could not be opened, or a read failed.\n  No such file: look at the path, and \
     whether it has a space or a letter that asks for quotes.\n  No permission: let a user read \
     it who may, or change that by chmod.\n  A folder: name its files, as ffv1 check \
     FOLDER/*.mkv.\n  Look at the path and the medium; a read is not tried again.",
    "57 Write\n  OUT could not be opened, a write failed, or a line could not be printed.\n  No \
     room: make some, or give a path on another disk.\n  The reader of the pipe is gone: look at \
     what the program after it says.\n  Look at the path, whether its folder is there, and who \
     may write it.",
    "60 Header\n  The first line is no header of YUV4MPEG2 of at most 1024 bytes, or an image has \
     no header of binary PPM with 255, 511, 1023, 4095, 16383 or 65535.\n  AVI, Matroska, \
     QuickTime or MP4: let FFmpeg decode it, ffmpeg -i IN -f yuv4mpegpipe -strict -1 - | ffv1 \
     pack - OUT.\n  Nothing came: look at what the program before the pipe says, or at the file. \
     Use another program, such as FFmpeg.\n  Give YUV4MPEG2, or PPM, whose first byte is P; trial \
     takes YUV4MPEG2 alone.",
    "61 Tag\n  A tag of the header is not as it should be, comes twice, or a size is missing.\n  \
     Correct the header.",
    "62 Unsupported\n  A tag names what this codec leaves out: mixed fields, other chroma, other \
     depths. For trial also chroma, and more than 8 bits.\n  Convert first.",
    "63 FrameLine\n  What begins a picture is not the line FRAME; parameters after it are not \
     taken.\n  Write the text anew, by another program.",
    "64 FrameTruncated\n  The input ends inside a picture.\n  The text is not whole.",
    "65 SampleTooLarge\n  A sample has more bits than the text says.\n  Write the text anew, with \
     its true depth.",
    "70 NoFrames\n  There is no picture, or in a file no frame, or with --from none of that \
     number. unpack, check, framemd5 and trial answer it too.\n  Look whether what wrote it was \
     stopped, and give it a picture; give a lesser --from.",
    "71 FormatChanged\n  A later image of PPM has another size or depth; in unpack a later \
     frame's structure or aspect are not those of the header.\n  Pack images of one size and \
     depth; for unpack, check still decodes all frames, and unpack --all writes them all.",
    "72 NoY4mName\n  unpack: YUV4MPEG2 has no name for the chroma, or for it at this depth.\n  \
     check decodes it; another program may convert.",
    "73 NoPpm\n  unpack: RCT has a plane of transparency, which PPM has not.\n  check decodes it; \
     another program may convert.",
    "80 NotMatroska\n  The file begins with the byte 1A, but not with a header of EBML that says \
     matroska, EBMLReadVersion at most 1 and DocTypeReadVersion at most 4, and, right after it or \
     after Voids, a Segment.\n  Another kind of file, or damage.",
    "81 BadElement\n  An ID has more than 4 bytes, or a size, a track number or the number of a \
     field more than 8; a size is unknown but may not be; an element stands in the Segment, or in \
     a Cluster of known size, that is not allowed there (in a Cluster an element of a Segment, \
     EBML or Segment whatever its size); a BlockGroup ends without a Block; or a block has a \
     number that no track has. It may also come later in the file.\n  Damage, or another file \
     after one whose Segment has no known size. Fetch another copy of the file.",
    "82 NoTracks\n  The Segment has no Tracks. Or a Cluster comes before them, as some programs \
     move Tracks to the end when they grow, and IN is no regular file, which could be read \
     again.\n  Give the file by its path, or write it anew: mkvmerge -o new.mkv old.mkv.",
    "83 Encoded\n  The track is compressed or encrypted: it has ContentEncodings.\n  Write the \
     file anew, by mkvmerge's number of the track: mkvmerge -o new.mkv --compression 0:none \
     old.mkv.",
    "84 Laced\n  A block of the track has lacing: it holds more than one frame.\n  Not read. Use \
     another program, such as FFmpeg.",
    "85 Checksum\n  An element begins with a CRC-32 that is not the one of its rest. It may also \
     come later: the CRC-32 of a Cluster is judged before its last frame is given, and its other \
     frames are given before.\n  Damage. Fetch another copy of the file.",
    "86 Rate\n  pack to Matroska: no whole number of nanoseconds a frame says the rate.\n  Give \
     the rate that the pictures were taken at, as 30000:1001 for 29.97, or say it in hundredths \
     or thousandths, as 24975:1000 for 999:40; or pack into AVI.",
    "87 NotSame\n  pack --verify: a frame does not decode to its picture. The proofs exclude it, \
     so memory or a processor failed.\n  Test the machine, and pack again on another one.",
    "88 Another\n  Another file stands behind the end of this one, as cat of two files makes it: \
     the ID of EBML, or RIFF. It comes after all frames.\n  The frames of the first one are good; \
     take the files apart, or join them by mkvmerge: mkvmerge -o BOTH.mkv FIRST.mkv + SECOND.mkv.",
    "89 Differs\n  The picture of the frame has another MD5 than the list, or the list or the \
     file has no such frame.\n  See whether the list is of this file, and of its pixel format; if \
     it is, fetch another copy of the file.",
    "66 List\n  The line is none of a list, or names another hash than MD5; or the list has no \
     MD5 of its stream of video, and then the line is its last one, or 0.\n  Write it anew: \
     ffmpeg -i TAPE -map 0:v:0 -pix_fmt FORMAT -f framemd5 LIST.",
];

/// The numbers of the faults of a configuration or its record, in the order of its type.
pub static RECORD: [u32; 22] = [
    1, 2, 3, 4, 5, 6, 10, 11, 12, 13, 14, 15, 16, 17, 18, 19, 20, 21, 22, 23, 24, 25,
];

/// The numbers of the faults of a frame, in the order of its type.
pub static CODEC: [u32; 22] = [
    2, 3, 4, 7, 8, 9, 27, 28, 29, 30, 31, 32, 33, 34, 35, 36, 37, 38, 39, 40, 41, 42,
];

/// The numbers of the faults of a file, in the order of its type.
pub static FILE: [u32; 17] = [
    2, 50, 51, 52, 53, 54, 55, 56, 57, 80, 81, 82, 83, 84, 85, 86, 88,
];

/// The numbers of the faults of the text of a video, in the order of its type.
pub static TEXT: [u32; 10] = [2, 56, 57, 60, 61, 62, 63, 64, 65, 71];
