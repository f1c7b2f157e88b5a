//! Reads headers and samples of PPM.

ghost use Rattle.std.specs.Prelude.{◌≡◌, ◌==◌, ◌&&◌, ℕ, ◌*◌, ◌≤◌, ◌%◌, Bool, List, [], ◌∷◌, true};
ghost use Rattle.std.specs.Prelude.{false, length, map, IfOk, IfSome, OnOk};
ghost use Rattle.ffv1_y4m.specs.Passage.{passage, passage_from};
ghost use Rattle.ffv1_y4m.specs.Ppm.{GrowsInImage, all_in_depth, colours_read, depth_of_line};
ghost use Rattle.ffv1_y4m.specs.Ppm.{each_third, half_of, image_begun, image_bytes, image_head};
ghost use Rattle.ffv1_y4m.specs.Ppm.{image_header, image_read, lined_header, maximum_depth};
ghost use Rattle.ffv1_y4m.specs.Ppm.{maximum_read, parted};
ghost use Rattle.ffv1_y4m.specs.Ppm.{sizes_of, third_of};
ghost use Rattle.ffv1_y4m.specs.Reads.{Gathers, IsNone, Nowhere, Stands, seen};
ghost use Rattle.ffv1_y4m.specs.State.{HasRoom, IsImageFault, IsLineFault, NoWant, OnFault};
ghost use Rattle.ffv1_y4m.specs.State.{samples_of, shown};
ghost use Rattle.std.specs.Vec.{vec_capacity};
ghost use Rattle.ffv1_y4m.specs.VideoHead.{AreInDepth, IsNamed, IsSized, colour_head};

use crate::fault::Fault;
use crate::head::{DeepHead, VideoHead};
use crate::pairs::part_pairs;
use crate::planes::lend_planes;
use crate::ppm_spaces::read_spaced_header;
use crate::reading::read_line;
use crate::values::{is_text, size, split_once};
use ffv1_samples::{are_in_depth, sample_bytes};
use ffv1_wire::{ByteIn, read_byte, read_full};
use std::alloc::Allocator;
use std::mem::replace;

/// Two sizes with a space between them.
fn sizes(line: &[u8]) -> Option<(u32, u32)>
    ensures { result ≡ sizes_of line.now }
{
    let Some((width, height)) = split_once(line, b' ') else {
        return None;
    };
    let Some(width) = size(width) else {
        return None;
    };
    let Some(height) = size(height) else {
        return None;
    };
    Some((width, height))
}

/// The depth of which the text is the greatest sample, 2 ^ depth - 1.
fn maximum_depth(text: &[u8]) -> Option<u32>
    ensures { result ≡ maximum_depth text.now }
{
    if is_text(text, b"255") {
        return Some(8);
    }
    if is_text(text, b"511") {
        return Some(9);
    }
    if is_text(text, b"1023") {
        return Some(10);
    }
    if is_text(text, b"4095") {
        return Some(12);
    }
    if is_text(text, b"16383") {
        return Some(14);
    }
    if is_text(text, b"65535") {
        return Some(16);
    }
    None
}

/// The depth of the line of the greatest sample, if depths up to `most` are read.
#[tactic(auto, unfolding(crate::specs::Ppm::depth_of_line))]
pub(crate) fn depth_of_line(most: u32, line: &[u8]) -> Option<u32>
    ensures value { result ≡ depth_of_line most line.now }
    ensures named { IfSome result (λ depth. (depth ≤ most)
        × ((width height : ℕ) → IsNamed depth (colour_head width height))) }
{
    let Some(depth) = maximum_depth(line) else {
        return None;
    };
    if depth < 8 || most < depth {
        return None;
    }
    Some(depth)
}

/// The head of an image of these sizes, and its depth.
pub(crate) fn sized_head(width: u32, height: u32, depth: u32) -> DeepHead
    ensures { result ≡ record { head = colour_head width height; depth = depth } }
{
    let head = VideoHead {
        width,
        height,
        rate: 0,
        scale: 0,
        structure: 0,
        sar_num: 0,
        sar_den: 0,
        chroma_planes: true,
        log2_h: 0,
        log2_v: 0,
        extra_plane: false,
        siting: None,
        range: None,
    };
    DeepHead { head, depth }
}

/// The head of the first two lines of a header, and the depth of the third.
#[tactic(auto, unfolding(crate::specs::Ppm::image_head))]
fn image_head(magic: &[u8], line: &[u8], depth: Option<u32>) -> Option<DeepHead>
    ensures { result ≡ image_head magic.now line.now depth }
{
    if !is_text(magic, b"P6") {
        return None;
    }
    let Some(depth) = depth else {
        return None;
    };
    let Some((width, height)) = sizes(line) else {
        return None;
    };
    Some(sized_head(width, height, depth))
}

/// Reads the line of the greatest sample: its depth, if it has one of at most `most`.
fn read_maximum<R: ByteIn>(most: u32, input: &mut R) -> Result<Option<u32>, Fault>
    ensures answer { Stands (maximum_read most) Nowhere
        (passage R.remaining R.failures input.old input.new) result }
    ensures own { OnFault IsLineFault result }
    ensures named { IfOk result (λ d. IfSome d (λ depth. (depth ≤ most)
        × ((width height : ℕ) → IsNamed depth (colour_head width height)))) }
{
    if most <= 8 {
        let mut line = [0u8; 4];
        let end = read_line(None, input, &mut line)?;
        return Ok(depth_of_line(most, &line[..end]));
    }
    let mut line = [0u8; 6];
    let end = read_line(None, input, &mut line)?;
    Ok(depth_of_line(most, &line[..end]))
}

/// Reads the header of an image of three lines, of which the first byte may have been read before;
/// depths up to `most` are read.
fn read_lined_header<R: ByteIn>(
    most: u32,
    first: Option<u8>,
    input: &mut R,
) -> Result<DeepHead, Fault>
    ensures answer { Stands (lined_header most) Nowhere
        (passage_from first R.remaining R.failures input.old input.new) result }
    ensures own { OnFault IsLineFault result }
    ensures head { IfOk result (λ h. IsSized h.head
        × (h.head ≡ colour_head h.head.width h.head.height)) }
    ensures named { IfOk result (λ h. IsNamed h.depth h.head × (h.depth ≤ most)) }
{
    let mut magic = [0u8; 3];
    let mut sizes = [0u8; 10];
    let magic_end = read_line(first, input, &mut magic)?;
    let sizes_end = read_line(None, input, &mut sizes)?;
    let depth = read_maximum(most, input)?;
    match image_head(&magic[..magic_end], &sizes[..sizes_end], depth) {
        Some(said) => Ok(said),
        None => Err(Fault::Header),
    }
}

/// Reads the header of an image, of which the first byte may have been read before: three lines, or
/// above a depth of 8 as Netpbm writes it; depths up to `most` are read.
pub(crate) fn read_image_header<R: ByteIn>(
    most: u32,
    first: Option<u8>,
    input: &mut R,
) -> Result<DeepHead, Fault>
    ensures answer { Stands (image_header most) Nowhere
        (passage_from first R.remaining R.failures input.old input.new) result }
    ensures own { OnFault IsLineFault result }
    ensures head { IfOk result (λ h. IsSized h.head
        × (h.head ≡ colour_head h.head.width h.head.height)) }
    ensures named { IfOk result (λ h. IsNamed h.depth h.head × (h.depth ≤ most)) }
{
    if most <= 8 {
        return read_lined_header(most, first, input);
    }
    read_spaced_header(most, first, input)
}

/// Whether two images have the same sizes and the same depth.
fn same_format(said: &DeepHead, next: &DeepHead) -> bool
    ensures { result ≡ (said.now.head.width == next.now.head.width
        && (said.now.head.height == next.now.head.height && said.now.depth == next.now.depth)) }
{
    said.head.width == next.head.width
        && (said.head.height == next.head.height && said.depth == next.depth)
}

/// Reads the header of a later image: true, with the input then after it; or false if the input has
/// ended.
fn read_later_header<R: ByteIn>(most: u32, said: &DeepHead, input: &mut R) -> Result<bool, Fault>
    ensures answer { Stands (image_begun most said.now) Nowhere
        (passage R.remaining R.failures input.old input.new) result }
    ensures own { OnFault IsImageFault result }
    ensures memory { NoWant result }
{
    let Some(byte) = read_byte(input)? else {
        return Ok(false);
    };
    let next = read_image_header(most, Some(byte), input)?;
    if !same_format(said, &next) {
        return Err(Fault::FormatChanged);
    }
    Ok(true)
}

/// Each third byte after the first so many.
fn part_bytes(samples: &[u8], first: usize, plane: &mut [u8])
    requires long { length samples.now ≡ 3 * length plane.old }
    requires first { first ≤ 2 }
    ensures { plane.new ≡ each_third first samples.now }
{
    for place in 0..plane.len() {
        plane[place] = samples[3 * place + first];
    }
}

/// Each third sample after the first so many.
fn part(depth: u32, samples: &[u8], first: usize, plane: &mut [u8])
    requires long { length samples.now ≡ 3 * length plane.old }
    requires whole { half_of depth (length plane.old) ≡ 0 }
    requires first { first ≤ 2 }
    ensures { plane.new ≡ third_of depth first samples.now }
{
    if depth == 8 {
        part_bytes(samples, first, plane);
    } else {
        part_pairs(samples, first, plane);
    }
}

/// How many bytes of a plane are read at once.
const BLOCK: usize = 1024;

/// Reads the samples of as many places as each plane has, at most `BLOCK` bytes of each.
fn read_block<R: ByteIn>(
    depth: u32,
    input: &mut R,
    red: &mut [u8],
    green: &mut [u8],
    blue: &mut [u8],
) -> Result<(), Fault>
    requires block { length red.old ≤ 1024 }
    requires whole { half_of depth (length red.old) ≡ 0 }
    requires green { length green.old ≡ length red.old }
    requires blue { length blue.old ≡ length red.old }
    ensures answer { Gathers (3 * length red.old)
        (λ _ bytes. red.new ∷ green.new ∷ blue.new ∷ [] ≡ parted depth bytes)
        (passage R.remaining R.failures input.old input.new) result }
{
    let mut room = [0u8; 3 * BLOCK];
    let size = 3 * red.len();
    let samples = &mut room[..size];
    let len = read_full(input, samples)?;
    if len < size {
        return Err(Fault::FrameTruncated);
    }
    part(depth, samples, 0, red);
    part(depth, samples, 1, green);
    part(depth, samples, 2, blue);
    Ok(())
}

/// Reads the samples of as many places as each plane has.
fn read_colours<R: ByteIn>(
    depth: u32,
    input: &mut R,
    red: &mut [u8],
    green: &mut [u8],
    blue: &mut [u8],
) -> Result<(), Fault>
    requires whole { half_of depth (length red.old) ≡ 0 }
    requires green { length green.old ≡ length red.old }
    requires blue { length blue.old ≡ length red.old }
    ensures answer { Gathers (3 * length red.old)
        (λ _ bytes. red.new ∷ green.new ∷ blue.new ∷ [] ≡ parted depth bytes)
        (passage R.remaining R.failures input.old input.new) result }
{
    let mut done = 0;
    while done < red.len() {
        let end = red.len().min(done + BLOCK);
        read_block(
            depth,
            input,
            &mut red[done..end],
            &mut green[done..end],
            &mut blue[done..end],
        )?;
        done = end;
    }
    Ok(())
}

/// Whether each sample of these planes is below 2 ^ depth.
fn all_in_depth(depth: u32, red: &[u8], green: &[u8], blue: &[u8]) -> bool
    requires least { 8 ≤ depth }
    requires most { depth ≤ 16 }
    ensures { result ≡ all_in_depth depth (red.now ∷ green.now ∷ blue.now ∷ []) }
{
    if !are_in_depth(depth, red) || !are_in_depth(depth, green) {
        return false;
    }
    are_in_depth(depth, blue)
}

/// Reads the samples of planes of so many bytes, in place of what the vectors had.
fn read_into<R: ByteIn, A: Allocator>(
    depth: u32,
    input: &mut R,
    red: &mut Vec<u8, A>,
    green: &mut Vec<u8, A>,
    blue: &mut Vec<u8, A>,
    size: usize,
) -> Result<(), Fault>
    requires least { 8 ≤ depth }
    requires most { depth ≤ 16 }
    requires whole { half_of depth size ≡ 0 }
    ensures answer { Stands (colours_read depth size) IsNone
        (passage R.remaining R.failures input.old input.new)
        (seen (λ (_ : Unit {0}). red.new.items ∷ green.new.items ∷ blue.new.items ∷ []) result) }
    ensures own { OnFault IsImageFault result }
    ensures room { size ≤ vec_capacity red.old → size ≤ vec_capacity green.old →
        size ≤ vec_capacity blue.old → NoWant result }
    ensures long { OnOk result ((length red.new.items ≡ size) × (length green.new.items ≡ size)
        × (length blue.new.items ≡ size)) }
    ensures depth { OnOk result
        (AreInDepth depth (red.new.items ∷ green.new.items ∷ blue.new.items ∷ [])) }
{
    red.resize(size, 0)?;
    green.resize(size, 0)?;
    blue.resize(size, 0)?;
    read_colours(
        depth,
        input,
        red.as_mut_slice(),
        green.as_mut_slice(),
        blue.as_mut_slice(),
    )?;
    if !all_in_depth(depth, red, green, blue) {
        return Err(Fault::SampleTooLarge);
    }
    Ok(())
}

/// Reads the planes of an image of so many bytes each, in place of what the vectors had.
fn read_colour_planes<R: ByteIn, A: Allocator + Copy>(
    alloc: A,
    depth: u32,
    input: &mut R,
    planes: &mut Vec<Vec<u8, A>, A>,
    size: usize,
) -> Result<(), Fault>
    requires least { 8 ≤ depth }
    requires most { depth ≤ 16 }
    requires whole { half_of depth size ≡ 0 }
    requires three { length planes.old.items ≡ 3 }
    ensures answer { Stands (colours_read depth size) IsNone
        (passage R.remaining R.failures input.old input.new)
        (seen (λ (_ : Unit {0}). samples_of planes.new.items) result) }
    ensures own { OnFault IsImageFault result }
    ensures room { HasRoom (size ∷ size ∷ size ∷ []) planes.old.items → NoWant result }
    ensures long { OnOk result
        (map (λ plane. length plane) (samples_of planes.new.items) ≡ size ∷ size ∷ size ∷ []) }
    ensures depth { OnOk result (AreInDepth depth (samples_of planes.new.items)) }
{
    let mut red = replace(&mut planes[0], Vec::new(alloc));
    let mut green = replace(&mut planes[1], Vec::new(alloc));
    let mut blue = replace(&mut planes[2], Vec::new(alloc));
    let answer = read_into(depth, input, &mut red, &mut green, &mut blue, size);
    planes[0] = red;
    planes[1] = green;
    planes[2] = blue;
    answer
}

/// How many bytes each plane of an image has.
fn image_bytes(said: &DeepHead) -> usize
    requires { IsSized said.now.head }
    ensures value { result ≡ image_bytes said.now }
    ensures whole { half_of said.now.depth result ≡ 0 }
{
    sample_bytes(said.depth) * (said.head.width as usize * said.head.height as usize)
}

/// Reads the planes of an image of this head, in place of what the vectors had.
fn read_image_planes<R: ByteIn, A: Allocator + Copy>(
    alloc: A,
    said: &DeepHead,
    input: &mut R,
    planes: &mut Vec<Vec<u8, A>, A>,
) -> Result<(), Fault>
    requires sized { IsSized said.now.head }
    requires least { 8 ≤ said.now.depth }
    requires most { said.now.depth ≤ 16 }
    ensures answer { Stands (colours_read said.now.depth (image_bytes said.now)) IsNone
        (passage R.remaining R.failures input.old input.new)
        (seen (λ (_ : Unit {0}). samples_of planes.new.items) result) }
    ensures own { OnFault IsImageFault result }
    ensures room { HasRoom
        (image_bytes said.now ∷ image_bytes said.now ∷ image_bytes said.now ∷ []) planes.old.items
        → NoWant result }
    ensures long { OnOk result
        (map (λ plane. length plane) (samples_of planes.new.items)
        ≡ image_bytes said.now ∷ image_bytes said.now ∷ image_bytes said.now ∷ []) }
    ensures depth { OnOk result (AreInDepth said.now.depth (samples_of planes.new.items)) }
{
    lend_planes(alloc, planes, 3)?;
    read_colour_planes(alloc, said.depth, input, planes, image_bytes(said))?;
    Ok(())
}

/// Reads the next image, of which the header may have been read before, in place of what the planes
/// were; false if the input has ended. Depths up to `most` are read in headers.
pub(crate) fn read_image<R: ByteIn, A: Allocator + Copy>(
    alloc: A,
    most: u32,
    said: &DeepHead,
    begun: bool,
    input: &mut R,
    planes: &mut Vec<Vec<u8, A>, A>,
) -> Result<bool, Fault>
    requires sized { IsSized said.now.head }
    requires named { IsNamed said.now.depth said.now.head }
    requires colour { said.now.head ≡ colour_head said.now.head.width said.now.head.height }
    ensures answer { Stands (image_read most said.now begun) (GrowsInImage most said.now begun)
        (passage R.remaining R.failures input.old input.new)
        (seen (shown planes.new.items) result) }
    ensures own { OnFault IsImageFault result }
    ensures lent { IfOk result (λ more. more ≡ false → planes.new ≡ planes.old) }
    ensures room { HasRoom
        (image_bytes said.now ∷ image_bytes said.now ∷ image_bytes said.now ∷ []) planes.old.items
        → NoWant result }
    ensures long { IfOk result (λ more. more ≡ true →
        map (λ plane. length plane) (samples_of planes.new.items)
        ≡ image_bytes said.now ∷ image_bytes said.now ∷ image_bytes said.now ∷ []) }
    ensures depth { IfOk result (λ more. more ≡ true →
        AreInDepth said.now.depth (samples_of planes.new.items)) }
{
    if begun {
        read_image_planes(alloc, said, input, planes)?;
        return Ok(true);
    }
    if !read_later_header(most, said, input)? {
        return Ok(false);
    }
    read_image_planes(alloc, said, input, planes)?;
    Ok(true)
}
