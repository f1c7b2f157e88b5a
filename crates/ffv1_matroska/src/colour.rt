//! What Video says of colours, in memory.

ghost use Rattle.std.specs.Prelude.{◌≡◌, ◌≤◌, length};
ghost use Rattle.ffv1_ebml.specs.Contents.{found};
ghost use Rattle.ffv1_matroska.specs.Colours.{bytes_found, colour_field, colour_in, colour_of};

use crate::idents::{
    CHROMA_SITING_HORZ, CHROMA_SITING_VERT, COLOUR, MATRIX_COEFFICIENTS, PRIMARIES, RANGE,
    TRANSFER_CHARACTERISTICS,
};
use ffv1_ebml::{find, number};
use ffv1_reads::Colour;

/// The content of the first element with this ID, and no bytes if there is none, or an element
/// before it can't be read.
fn bytes_found(content: &[u8], ident: u32) -> &[u8]
    ensures { result.now ≡ bytes_found (found ident content.now) }
{
    match find(content, ident) {
        Ok(Some(field)) => field,
        _ => &content[..0],
    }
}

/// The number that the first element with this ID holds, from 0 to 255. It has its default if there
/// is none, if it has no bytes, more than 8 or a number above 255, and if an element up to it can't
/// be read.
fn colour_field(content: &[u8], ident: u32, default: u8) -> u8
    ensures { result ≡ colour_field ident default content.now }
{
    let field = bytes_found(content, ident);
    match number(field, u64::from(default)) {
        Ok(value) => { if value > 255 { default } else { value as u8 } },
        Err(_) => default,
    }
}

/// What the content of Colour says.
fn colour_of(content: &[u8]) -> Colour
    ensures { result ≡ colour_of content.now }
{
    Colour {
        matrix: colour_field(content, MATRIX_COEFFICIENTS, 2),
        transfer: colour_field(content, TRANSFER_CHARACTERISTICS, 2),
        primaries: colour_field(content, PRIMARIES, 2),
        range: colour_field(content, RANGE, 0),
        siting_across: colour_field(content, CHROMA_SITING_HORZ, 0),
        siting_down: colour_field(content, CHROMA_SITING_VERT, 0),
    }
}

/// What the content of Video says of colours, by its first Colour (RFC 9559, 5.1.4.1.28.16). What
/// can't be read says nothing, so there is no fault.
#[tactic(auto, unfolding(crate::specs::Colours::colour_in))]
pub(crate) fn colour_in(video: &[u8]) -> Colour
    ensures { result ≡ colour_in video.now }
{
    colour_of(bytes_found(video, COLOUR))
}
