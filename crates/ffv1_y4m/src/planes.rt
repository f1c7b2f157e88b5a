//! Reads the planes of a picture.

ghost use Rattle.std.specs.Prelude.{◌≡◌, ◌<◌, ℕ, ◌≤◌, ◌^◌, ◌*◌, Bool, List, length, map, get_or};
ghost use Rattle.std.specs.Prelude.{OnOk, IfOk, true, false, OnErr, take};
ghost use Rattle.ffv1_y4m.specs.Passage.{passage};
ghost use Rattle.ffv1_y4m.specs.Pictures.{GrowsBeforePlane, GrowsInPicture, planes_read};
ghost use Rattle.ffv1_y4m.specs.Pictures.{picture_read};
ghost use Rattle.ffv1_y4m.specs.Reads.{Stands, seen};
ghost use Rattle.ffv1_y4m.specs.State.{HasRoom, IsPictureFault, NoWant, OnFault, samples_of, shown};
ghost use Rattle.ffv1_y4m.specs.VideoHead.{AreInDepth, Fits, IsReduced, IsSized, has_depth_name};
ghost use Rattle.ffv1_y4m.specs.VideoHead.{is_chroma, is_named, plane_bytes, plane_sizes, reduced};

use crate::fault::Fault;
use crate::head::VideoHead;
use crate::reading::{read_frame_line, read_plane};
use ffv1_samples::sample_bytes;
use ffv1_wire::ByteIn;
use std::alloc::{AllocError, Allocator};

/// A size over a power of two, rounded up.
fn reduced(log2: u8, size: u32) -> u32
    requires factor { log2 ≤ 2 }
    requires size { size ≤ 8192 }
    ensures value { result ≡ reduced log2 size }
    ensures small { result ≤ 8192 }
{
    match log2 {
        0 => size,
        1 => size.div_ceil(2),
        _ => size.div_ceil(4),
    }
}

/// How many planes a picture has.
pub fn plane_count(head: &VideoHead) -> usize
    ensures { result ≡ length (plane_sizes head.now) }
{
    match (head.chroma_planes, head.extra_plane) {
        (false, _) => 1,
        (true, false) => 3,
        (true, true) => 4,
    }
}

/// How many samples a plane of a picture has: Y, Cb, Cr, transparency.
pub fn plane_size(head: &VideoHead, plane: usize) -> usize
    requires plane { plane < length (plane_sizes head.now) }
    requires sized { IsSized head.now }
    requires factors { IsReduced head.now }
    ensures value { result ≡ get_or (plane_sizes head.now) plane 0 }
    ensures most { result ≤ 67108864 }
{
    match plane {
        1 | 2 => {
            let width = reduced(head.log2_h, head.width);
            let height = reduced(head.log2_v, head.height);
            width as usize * height as usize
        }
        _ => head.width as usize * head.height as usize,
    }
}

/// How many bytes a plane of a picture has at this depth: Y, Cb, Cr, transparency.
pub fn plane_bytes(head: &VideoHead, depth: u32, plane: usize) -> usize
    requires plane { plane < length (plane_sizes head.now) }
    requires sized { IsSized head.now }
    requires factors { IsReduced head.now }
    ensures { result ≡ get_or (plane_bytes depth head.now) plane 0 }
{
    sample_bytes(depth) * plane_size(head, plane)
}

/// Whether the depth has a name above 8 bits, of chroma planes or of none.
pub(crate) fn has_depth_name(planes: bool, depth: u32) -> bool
    ensures { result ≡ has_depth_name planes depth }
{
    match depth {
        9 | 10 | 12 | 16 => true,
        14 => planes,
        _ => false,
    }
}

/// Whether YUV4MPEG2 has a name for the chroma at this depth: at 8 bits as `has_chroma_name`; at 9,
/// 10, 12, 14 and 16 bits for 4:2:0, 4:2:2 and 4:4:4 without transparency, and, except at 14 bits,
/// without chroma planes; at no other depth.
pub fn has_chroma_name_at(head: &VideoHead, depth: u32) -> bool
    ensures named { result ≡ is_named depth head.now.chroma_planes head.now.log2_h head.now.log2_v
        head.now.extra_plane }
    ensures depth { result ≡ true → (8 ≤ depth) × (depth ≤ 16) }
{
    if !has_chroma_name(head) {
        return false;
    }
    if depth == 8 {
        return true;
    }
    has_depth_name(head.chroma_planes, depth) && !head.extra_plane && head.log2_h < 2
}

/// Whether YUV4MPEG2 has a name for the chroma: 4:2:0, 4:2:2, 4:4:4 with transparency or without,
/// 4:1:1, or none.
pub fn has_chroma_name(head: &VideoHead) -> bool
    ensures { result
        ≡ is_chroma head.now.chroma_planes head.now.log2_h head.now.log2_v head.now.extra_plane }
{
    match (head.chroma_planes, head.extra_plane) {
        (true, true) => head.log2_h == 0 && head.log2_v == 0,
        (true, false) => head.log2_h <= 2 && head.log2_v == 0
            || head.log2_h == 1 && head.log2_v == 1,
        (false, true) => false,
        (false, false) => head.log2_h == 0 && head.log2_v == 0,
    }
}

/// As many vectors as there are planes.
pub(crate) fn lend_planes<A: Allocator + Copy>(
    alloc: A,
    planes: &mut Vec<Vec<u8, A>, A>,
    count: usize,
) -> Result<(), AllocError>
    ensures many { OnOk result (length planes.new.items ≡ count) }
    ensures room { count ≤ length planes.old.items → OnErr result ⊥ }
    ensures kept { count ≤ length planes.old.items →
        planes.new.items ≡ take count planes.old.items }
{
    planes.truncate(count);
    while planes.len() < count {
        planes.push(Vec::new(alloc))?;
    }
    Ok(())
}

/// Reads the planes of a picture in place of what the vectors had.
fn read_planes<R: ByteIn, A: Allocator>(
    head: &VideoHead,
    depth: u32,
    input: &mut R,
    planes: &mut Vec<Vec<u8, A>, A>,
) -> Result<(), Fault>
    requires many { length planes.old.items ≡ length (plane_sizes head.now) }
    requires sized { IsSized head.now }
    requires factors { IsReduced head.now }
    requires least { 8 ≤ depth }
    requires most { depth ≤ 16 }
    ensures answer { Stands (planes_read depth (plane_bytes depth head.now))
        (GrowsBeforePlane depth (plane_bytes depth head.now))
        (passage R.remaining R.failures input.old input.new)
        (seen (λ (_ : Unit {0}). samples_of planes.new.items) result) }
    ensures own { OnFault IsPictureFault result }
    ensures fits { OnOk result (Fits depth head.now (samples_of planes.new.items)) }
    ensures depth { OnOk result (AreInDepth depth (samples_of planes.new.items)) }
    ensures room { HasRoom (plane_bytes depth head.now) planes.old.items → NoWant result }
{
    for plane in 0..planes.len() {
        let size = plane_bytes(head, depth, plane);
        read_plane(depth, input, &mut planes[plane], size)?;
    }
    Ok(())
}

/// Reads the next picture, in place of what the planes were; false if the input has ended.
pub(crate) fn read_picture<R: ByteIn, A: Allocator + Copy>(
    alloc: A,
    head: &VideoHead,
    depth: u32,
    input: &mut R,
    planes: &mut Vec<Vec<u8, A>, A>,
) -> Result<bool, Fault>
    requires sized { IsSized head.now }
    requires factors { IsReduced head.now }
    requires least { 8 ≤ depth }
    requires most { depth ≤ 16 }
    ensures answer { Stands (picture_read depth head.now) (GrowsInPicture depth head.now)
        (passage R.remaining R.failures input.old input.new)
        (seen (shown planes.new.items) result) }
    ensures own { OnFault IsPictureFault result }
    ensures lent { IfOk result (λ more. more ≡ false → planes.new ≡ planes.old) }
    ensures fits { IfOk result (λ more. more ≡ true →
        Fits depth head.now (samples_of planes.new.items)) }
    ensures depth { IfOk result (λ more. more ≡ true →
        AreInDepth depth (samples_of planes.new.items)) }
    ensures room { HasRoom (plane_bytes depth head.now) planes.old.items → NoWant result }
{
    if !read_frame_line(input)? {
        return Ok(false);
    }
    lend_planes(alloc, planes, plane_count(head))?;
    read_planes(head, depth, input, planes)?;
    Ok(true)
}
