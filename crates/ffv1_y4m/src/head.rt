//! What the head of a stream of pictures says.

/// The head of a stream of pictures.
#[derive(Clone, Copy, Debug, PartialEq, Eq)]
pub struct VideoHead {
    /// In samples, from 1 to 8192.
    pub width: u32,
    /// In samples, from 1 to 8192.
    pub height: u32,
    /// With `scale`, frames a second as `rate / scale`; both 0 if they are unknown.
    pub rate: u32,
    /// See `rate`.
    pub scale: u32,
    /// 0 unknown, 1 top field first, 2 bottom field first, 3 progressive.
    pub structure: u8,
    /// With `sar_den`, the aspect of a sample, width by height; both 0 if it is unknown.
    pub sar_num: u16,
    /// See `sar_num`.
    pub sar_den: u16,
    /// Whether there are planes of Cb and Cr.
    pub chroma_planes: bool,
    /// The chroma planes have the width over `2 ^ log2_h`, rounded up; 0 to 2.
    pub log2_h: u8,
    /// The chroma planes have the height over `2 ^ log2_v`, rounded up; 0 to 2.
    pub log2_v: u8,
    /// Whether there is a plane of transparency.
    pub extra_plane: bool,
    /// Where samples of chroma lie, of 4:2:0 of 8 bits; None if it is not said.
    pub siting: Option<Siting>,
    /// The range of the samples' values; None if it is not said.
    pub range: Option<Range>,
}

/// Where a sample of chroma lies, of the four samples of Y that share it.
#[derive(Clone, Copy, Debug, PartialEq, Eq)]
pub enum Siting {
    /// In the centre of the four, as in JPEG and MPEG-1: `420jpeg`.
    Centre,
    /// Between the two on the left, as in MPEG-2: `420mpeg2`.
    Left,
    /// On the upper left one, as in DV of 625 lines: `420paldv`.
    TopLeft,
}

/// Which of the values of a depth samples take.
#[derive(Clone, Copy, Debug, PartialEq, Eq)]
pub enum Range {
    /// Room is left below black and above white: at 8 bits, Y has 16 to 235.
    Limited,
    /// All values.
    Full,
}

/// A head, and the depth of its samples.
#[derive(Clone, Copy)]
pub(crate) struct DeepHead {
    pub(crate) head: VideoHead,
    /// In bits a sample: 8, 9, 10, 12, 14 or 16.
    pub(crate) depth: u32,
}
