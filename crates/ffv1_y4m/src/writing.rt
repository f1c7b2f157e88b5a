//! Writes texts of several parts.

ghost use Rattle.std.specs.Prelude.{◌≡◌, ◌≤◌, ℕ, List, ◌++◌, map, flat_map};
ghost use Rattle.ffv1_wire.specs.Passage.{passage};
ghost use Rattle.ffv1_y4m.specs.Canonical.{chroma_name, deep_name, depth_name, header_text};
ghost use Rattle.ffv1_y4m.specs.Canonical.{name_text, number_text, range_end, siting_name};
ghost use Rattle.ffv1_y4m.specs.Canonical.{ratio_text, sizes_text, structure_name, times_text};
ghost use Rattle.ffv1_y4m.specs.Ppm.{image_header_text};
ghost use Rattle.ffv1_y4m.specs.Pictures.{frame_line, picture_text};
ghost use Rattle.ffv1_y4m.specs.State.{samples_of};
ghost use Rattle.ffv1_y4m.specs.Writes.{Writes};

use crate::fault::Fault;
use crate::head::{Range, Siting, VideoHead};
use crate::planes::has_chroma_name_at;
use ffv1_wire::{ByteOut, write_all};
use itoa::Buffer;
use std::alloc::Allocator;

/// Writes all the bytes.
pub(crate) fn write_part<W: ByteOut>(output: &mut W, part: &[u8]) -> Result<(), Fault>
    ensures { Writes part.now (passage W.contents W.failures output.old output.new) result }
{
    match write_all(output, part) {
        Ok(()) => Ok(()),
        Err(_) => Err(Fault::Write),
    }
}

/// Writes the parts in order.
fn write_parts<W: ByteOut>(output: &mut W, parts: &[&[u8]]) -> Result<(), Fault>
    ensures { Writes (flat_map (λ part. part.now) parts.entry.now)
        (passage W.contents W.failures output.old output.new) result }
{
    for part in parts {
        write_part(output, part)?;
    }
    Ok(())
}

/// The name of a structure.
fn structure_name(structure: u8) -> &'static [u8]
    ensures { result.now ≡ structure_name structure }
{
    match structure {
        3 => b"p",
        1 => b"t",
        2 => b"b",
        _ => b"?",
    }
}

/// What comes before the depth in the name of the chroma, at more than 8 bits.
fn deep_name(head: &VideoHead, depth: u32) -> &'static [u8]
    ensures { result.now ≡ deep_name depth head.now.chroma_planes head.now.log2_h head.now.log2_v
        head.now.extra_plane }
{
    if !has_chroma_name_at(head, depth) {
        return b"";
    }
    if !head.chroma_planes {
        return b"mono";
    }
    match (head.log2_h, head.log2_v) {
        (_, 1) => b"420p",
        (1, _) => b"422p",
        _ => b"444p",
    }
}

/// The depth in the name of the chroma, none at 8 bits.
fn depth_name(depth: u32) -> &'static [u8]
    ensures { result.now ≡ depth_name depth }
{
    match depth {
        9 => b"9",
        10 => b"10",
        12 => b"12",
        14 => b"14",
        16 => b"16",
        _ => b"",
    }
}

/// The name of 4:2:0 of 8 bits.
fn siting_name(siting: Option<Siting>) -> &'static [u8]
    ensures { result.now ≡ siting_name siting }
{
    match siting {
        None | Some(Siting::Centre) => b"420jpeg",
        Some(Siting::Left) => b"420mpeg2",
        Some(Siting::TopLeft) => b"420paldv",
    }
}

/// The tag of the range, if there is one, and the line feed.
fn range_end(range: Option<Range>) -> &'static [u8]
    ensures { result.now ≡ range_end range }
{
    match range {
        None => b"\n",
        Some(Range::Limited) => b" XCOLORRANGE=LIMITED\n",
        Some(Range::Full) => b" XCOLORRANGE=FULL\n",
    }
}

/// The name of the chroma, up to the depth in it.
fn chroma_name(head: &VideoHead, depth: u32) -> &'static [u8]
    ensures { result.now ≡ chroma_name depth head.now }
{
    if depth != 8 {
        return deep_name(head, depth);
    }
    if !head.chroma_planes {
        return b"mono";
    }
    if head.extra_plane {
        return b"444alpha";
    }
    match (head.log2_h, head.log2_v) {
        (_, 1) => siting_name(head.siting),
        (1, _) => b"422",
        (2, _) => b"411",
        _ => b"444",
    }
}

/// Writes a number after a tag's letter.
#[tactic(auto, unfolding(crate::specs::Canonical::number_text))]
fn write_number<W: ByteOut>(output: &mut W, tag: &[u8], n: u32) -> Result<(), Fault>
    ensures { Writes (number_text tag.now n)
        (passage W.contents W.failures output.old output.new) result }
{
    let mut number = Buffer::new();
    let parts: [&[u8]; 2] = [tag, number.format(n).as_bytes()];
    write_parts(output, &parts)?;
    Ok(())
}

/// Writes two numbers and a colon between them, after a tag's letter.
#[tactic(auto, unfolding(crate::specs::Canonical::ratio_text))]
fn write_ratio<W: ByteOut>(output: &mut W, tag: &[u8], n: u32, d: u32) -> Result<(), Fault>
    ensures { Writes (ratio_text tag.now n d)
        (passage W.contents W.failures output.old output.new) result }
{
    let mut first = Buffer::new();
    let mut second = Buffer::new();
    let parts: [&[u8]; 4] = [
        tag,
        first.format(n).as_bytes(),
        b":",
        second.format(d).as_bytes(),
    ];
    write_parts(output, &parts)?;
    Ok(())
}

/// Writes a name after a tag's letter.
#[tactic(auto, unfolding(crate::specs::Canonical::name_text))]
fn write_name<W: ByteOut>(output: &mut W, tag: &[u8], name: &[u8]) -> Result<(), Fault>
    ensures { Writes (name_text tag.now name.now)
        (passage W.contents W.failures output.old output.new) result }
{
    let parts: [&[u8]; 2] = [tag, name];
    write_parts(output, &parts)?;
    Ok(())
}

/// Writes the sizes of a header.
#[tactic(auto, unfolding(crate::specs::Canonical::sizes_text))]
fn write_sizes<W: ByteOut>(output: &mut W, head: &VideoHead) -> Result<(), Fault>
    ensures { Writes (sizes_text head.now)
        (passage W.contents W.failures output.old output.new) result }
{
    write_part(output, b"YUV4MPEG2")?;
    write_number(output, b" W", head.width)?;
    write_number(output, b" H", head.height)?;
    Ok(())
}

/// Writes the rate, the structure and the aspect of a header.
#[tactic(auto, unfolding(crate::specs::Canonical::times_text))]
fn write_times<W: ByteOut>(output: &mut W, head: &VideoHead) -> Result<(), Fault>
    ensures { Writes (times_text head.now)
        (passage W.contents W.failures output.old output.new) result }
{
    write_ratio(output, b" F", head.rate, head.scale)?;
    write_name(output, b" I", structure_name(head.structure))?;
    write_ratio(
        output,
        b" A",
        u32::from(head.sar_num),
        u32::from(head.sar_den),
    )?;
    Ok(())
}

/// Writes the header.
#[tactic(auto, unfolding(crate::specs::Canonical::header_text))]
pub(crate) fn write_header<W: ByteOut>(
    output: &mut W,
    head: &VideoHead,
    depth: u32,
) -> Result<(), Fault>
    ensures { Writes (header_text depth head.now)
        (passage W.contents W.failures output.old output.new) result }
{
    write_sizes(output, head)?;
    write_times(output, head)?;
    write_name(output, b" C", chroma_name(head, depth))?;
    write_name(output, depth_name(depth), range_end(head.range))?;
    Ok(())
}

/// Writes the header of an image of PPM of this depth.
#[tactic(auto, unfolding(crate::specs::Ppm::image_header_text))]
pub(crate) fn write_image_header<W: ByteOut>(
    output: &mut W,
    depth: u32,
    width: u32,
    height: u32,
) -> Result<(), Fault>
    requires { depth ≤ 16 }
    ensures { Writes (image_header_text depth width height)
        (passage W.contents W.failures output.old output.new) result }
{
    let mut wide = Buffer::new();
    let mut high = Buffer::new();
    let mut most = Buffer::new();
    let parts: [&[u8]; 7] = [
        b"P6\n",
        wide.format(width).as_bytes(),
        b" ",
        high.format(height).as_bytes(),
        b"\n",
        most.format((1u32 << depth) - 1).as_bytes(),
        b"\n",
    ];
    write_parts(output, &parts)?;
    Ok(())
}

/// Writes the samples of the planes.
fn write_planes<W: ByteOut, A: Allocator>(
    output: &mut W,
    planes: &[Vec<u8, A>],
) -> Result<(), Fault>
    ensures { Writes (flat_map (λ plane. plane) (samples_of planes.now))
        (passage W.contents W.failures output.old output.new) result }
{
    for plane in planes {
        write_part(output, plane)?;
    }
    Ok(())
}

/// Writes a picture.
pub(crate) fn write_picture<W: ByteOut, A: Allocator>(
    output: &mut W,
    planes: &[Vec<u8, A>],
) -> Result<(), Fault>
    ensures { Writes (picture_text (samples_of planes.now))
        (passage W.contents W.failures output.old output.new) result }
{
    write_part(output, b"FRAME\n")?;
    write_planes(output, planes)?;
    Ok(())
}
