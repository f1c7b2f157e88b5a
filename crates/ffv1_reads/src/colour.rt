//! How the samples of pictures stand for colours.

/// How the samples of pictures stand for colours, and where those of chroma lie, in the numbers of
/// Matroska (RFC 9559, 5.1.4.1.28.17 and 5.1.4.1.28.23 to 5.1.4.1.28.27). Those of matrix, transfer
/// and primaries are of ITU-T H.273.
#[derive(Clone, Copy, Debug, PartialEq, Eq)]
pub struct Colour {
    /// MatrixCoefficients; 2 if it is not said.
    pub matrix: u8,
    /// TransferCharacteristics; 2 if it is not said.
    pub transfer: u8,
    /// Primaries; 2 if it is not said.
    pub primaries: u8,
    /// 1 limited (broadcast) range, 2 full range; 0 if it is not said.
    pub range: u8,
    /// ChromaSitingHorz: 1 chroma lies on the left sample, 2 half way; 0 if it is not said.
    pub siting_across: u8,
    /// ChromaSitingVert: 1 on the upper sample, 2 half way; 0 if it is not said.
    pub siting_down: u8,
}

impl Colour {
    /// Nothing is said.
    pub const UNSAID: Colour = Colour {
        matrix: 2,
        transfer: 2,
        primaries: 2,
        range: 0,
        siting_across: 0,
        siting_down: 0,
    };
}
