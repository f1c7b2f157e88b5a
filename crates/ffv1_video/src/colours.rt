//! The range of colours and the siting of chroma of a text, in the numbers of a file.

ghost use Rattle.std.specs.Prelude.{◌≡◌};
ghost use Rattle.ffv1_video.specs.Colours.{across_number, file_colour, down_number};
ghost use Rattle.ffv1_video.specs.Colours.{loses_colour, range_chosen, siting_chosen};
ghost use Rattle.ffv1_video.specs.Colours.{range_named, range_number, siting_in};
ghost use Rattle.ffv1_video.specs.Colours.{siting_named};

use ffv1_reads::Colour;
use ffv1_record::Checked;
use ffv1_words::{ColourChoice, RangeChoice, SitingChoice};
use ffv1_y4m::{Range, Siting, VideoHead};
use std::alloc::Allocator;

/// Range (RFC 9559, 5.1.4.1.28.25).
fn range_number(range: Option<Range>) -> u8
    ensures { result ≡ range_number range }
{
    match range {
        None => 0,
        Some(Range::Limited) => 1,
        Some(Range::Full) => 2,
    }
}

/// The range that this number says, if a text has a name for it.
pub fn range_named(number: u8) -> Option<Range>
    ensures { result ≡ range_named number }
{
    match number {
        1 => Some(Range::Limited),
        2 => Some(Range::Full),
        _ => None,
    }
}

/// ChromaSitingHorz (RFC 9559, 5.1.4.1.28.23).
fn across_number(siting: Option<Siting>) -> u8
    ensures { result ≡ across_number siting }
{
    match siting {
        None => 0,
        Some(Siting::Left) | Some(Siting::TopLeft) => 1,
        Some(Siting::Centre) => 2,
    }
}

/// ChromaSitingVert (RFC 9559, 5.1.4.1.28.24).
fn down_number(siting: Option<Siting>) -> u8
    ensures { result ≡ down_number siting }
{
    match siting {
        None => 0,
        Some(Siting::TopLeft) => 1,
        Some(Siting::Centre) | Some(Siting::Left) => 2,
    }
}

/// The siting that these numbers say, if a text has a name for it.
fn siting_named(across: u8, down: u8) -> Option<Siting>
    ensures { result ≡ siting_named across down }
{
    match (across, down) {
        (2, 2) => Some(Siting::Centre),
        (1, 2) => Some(Siting::Left),
        (1, 1) => Some(Siting::TopLeft),
        _ => None,
    }
}

/// The range that is written: that of the choice, or else that of the text.
fn range_chosen(choice: RangeChoice, said: Option<Range>) -> Option<Range>
    ensures { result ≡ range_chosen choice said }
{
    match choice {
        RangeChoice::Auto => said,
        RangeChoice::Limited => Some(Range::Limited),
        RangeChoice::Full => Some(Range::Full),
    }
}

/// The siting that is written: that of the choice, or else that of the text.
fn siting_chosen(choice: SitingChoice, said: Option<Siting>) -> Option<Siting>
    ensures { result ≡ siting_chosen choice said }
{
    match choice {
        SitingChoice::Auto => said,
        SitingChoice::Left => Some(Siting::Left),
        SitingChoice::Centre => Some(Siting::Centre),
        SitingChoice::TopLeft => Some(Siting::TopLeft),
    }
}

/// What a choice and a head say of colours, as a file says it.
pub fn file_colour(choice: &ColourChoice, head: &VideoHead) -> Colour
    ensures { result ≡ file_colour choice.now head.now }
{
    let siting = siting_chosen(choice.siting, head.siting);
    Colour {
        matrix: choice.matrix,
        transfer: choice.transfer,
        primaries: choice.primaries,
        range: range_number(range_chosen(choice.range, head.range)),
        siting_across: across_number(siting),
        siting_down: down_number(siting),
    }
}

/// The siting of chroma that a file says, if a text can say it of its pictures: at 4:2:0 of 8 bits.
pub fn siting_in<A: Allocator>(checked: &Checked<A>, colour: &Colour) -> Option<Siting>
    ensures { result ≡ siting_in checked.now.configuration colour.now }
{
    let config = checked.config();
    if checked.depth() == 8 && config.chroma_planes && config.log2_h == 1 && config.log2_v == 1 {
        siting_named(colour.siting_across, colour.siting_down)
    } else {
        None
    }
}

/// Whether a text says of colours what an AVI does not hold, so that it comes back as another one:
/// a range, or chroma that does not lie in the centre.
pub fn loses_colour(colour: &Colour) -> bool
    ensures { result ≡ loses_colour colour.now }
{
    colour.range != 0 || colour.siting_across == 1
}
