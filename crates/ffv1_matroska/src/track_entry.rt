//! What a TrackEntry says beside the head.

/// The codec ID of a track of FFV1, which says what its CodecPrivate is (RFC 9559, 8; RFC 9043,
/// 4.3.3).
#[derive(Clone, Copy, Debug, PartialEq, Eq)]
pub enum CodecId {
    /// `V_FFV1`: the configuration record.
    Native,
    /// `V_MS/VFW/FOURCC`, of Video for Windows: BITMAPINFOHEADER, with the record after its 40
    /// bytes.
    Vfw,
}

/// What a TrackEntry says beside the head of the file: how frames are coded, and how pictures are
/// shown.
#[derive(Clone, Copy, Debug, PartialEq, Eq)]
pub struct TrackEntry {
    /// Its codec ID.
    pub codec_id: CodecId,
    /// How pictures are interlaced: 1 top field first, 2 bottom field first, 3 progressive; any
    /// other number, as 0, says that it is unknown.
    pub structure: u8,
    /// With `sar_den`, the width of a sample to its height as `sar_num / sar_den`; unknown if
    /// one of them is 0.
    pub sar_num: u16,
    /// See `sar_num`.
    pub sar_den: u16,
}
