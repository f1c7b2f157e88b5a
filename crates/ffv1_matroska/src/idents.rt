//! The IDs of elements of EBML (RFC 8794, 11) and of Matroska (RFC 9559, 5.1) that are read, or
//! read and written.

pub(crate) const EBML: u32 = 0x1A45_DFA3;

pub(crate) const READ_VERSION: u32 = 0x42F7;

pub(crate) const DOC_TYPE: u32 = 0x4282;

pub(crate) const TYPE_READ_VERSION: u32 = 0x4285;

pub(crate) const VOID: u32 = 0xEC;

pub(crate) const CRC_32: u32 = 0xBF;

pub(crate) const SEGMENT: u32 = 0x1853_8067;

pub(crate) const SEEK_HEAD: u32 = 0x114D_9B74;

pub(crate) const INFO: u32 = 0x1549_A966;

pub(crate) const TRACKS: u32 = 0x1654_AE6B;

pub(crate) const CUES: u32 = 0x1C53_BB6B;

pub(crate) const ATTACHMENTS: u32 = 0x1941_A469;

pub(crate) const CHAPTERS: u32 = 0x1043_A770;

pub(crate) const TAGS: u32 = 0x1254_C367;

pub(crate) const CLUSTER: u32 = 0x1F43_B675;

pub(crate) const TIMESTAMP_SCALE: u32 = 0x2A_D7B1;

pub(crate) const TIMESTAMP: u32 = 0xE7;

pub(crate) const POSITION: u32 = 0xA7;

pub(crate) const PREV_SIZE: u32 = 0xAB;

pub(crate) const SILENT_TRACKS: u32 = 0x5854;

pub(crate) const ENCRYPTED_BLOCK: u32 = 0xAF;

pub(crate) const SIMPLE_BLOCK: u32 = 0xA3;

pub(crate) const BLOCK_GROUP: u32 = 0xA0;

pub(crate) const BLOCK: u32 = 0xA1;

pub(crate) const TRACK_ENTRY: u32 = 0xAE;

pub(crate) const TRACK_NUMBER: u32 = 0xD7;

pub(crate) const TRACK_TYPE: u32 = 0x83;

pub(crate) const CODEC_ID: u32 = 0x86;

pub(crate) const CODEC_PRIVATE: u32 = 0x63A2;

pub(crate) const CONTENT_ENCODINGS: u32 = 0x6D80;

pub(crate) const DEFAULT_DURATION: u32 = 0x23_E383;

pub(crate) const VIDEO: u32 = 0xE0;

pub(crate) const PIXEL_WIDTH: u32 = 0xB0;

pub(crate) const PIXEL_HEIGHT: u32 = 0xBA;

pub(crate) const COLOUR: u32 = 0x55B0;

pub(crate) const MATRIX_COEFFICIENTS: u32 = 0x55B1;

pub(crate) const CHROMA_SITING_HORZ: u32 = 0x55B7;

pub(crate) const CHROMA_SITING_VERT: u32 = 0x55B8;

pub(crate) const RANGE: u32 = 0x55B9;

pub(crate) const TRANSFER_CHARACTERISTICS: u32 = 0x55BA;

pub(crate) const PRIMARIES: u32 = 0x55BB;
