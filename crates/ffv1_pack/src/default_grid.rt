//! The grid of slices of a picture for which none is chosen.

ghost use Rattle.std.specs.Prelude.{◌≡◌, ◌≤◌, ◌<◌, find};
ghost use Rattle.ffv1_pack.specs.Internal.VideoReads.{reading_of};
ghost use Rattle.ffv1_y4m.specs.VideoHead.{IsReduced, IsSized, reduced};
ghost use Rattle.ffv1_record.specs.Accepted.{are_multiples, edge};
ghost use Rattle.ffv1_record.specs.declared.config.Profile.TheVariants as edges;
ghost use Rattle.ffv1_video.specs.Profiles.{record_profile};
ghost use Rattle.ffv1_pack.specs.Grids.{default_grid, first_grid, greatest_part};
ghost use Rattle.ffv1_pack.specs.Grids.{grid_for, grids_of, has_edges, has_grid, most_rows};
ghost use Rattle.ffv1_pack.specs.Grids.{slice_bytes};

use crate::video::VideoReader;
use ffv1_record::Profile as RecordProfile;
use ffv1_video::Profile;
use ffv1_words::Choice;
use ffv1_y4m::VideoHead;
use std::alloc::Allocator;

/// RFC 9043, section 5: a picture of more pixels has at least 4 slices.
const MOST_PIXELS: u32 = 101_376;

/// The greatest slice has fewer bytes of samples: 12 MiB.
const SLICE_LIMIT: u32 = 12_582_912;

/// Whether each inner edge of so many parts of a size is a multiple of the chroma factor.
#[tactic(auto, unfolding(ffv1_record::specs::Accepted::are_multiples))]
fn are_multiples(size: u32, count: u32, log2: u8) -> bool
    requires size { size ≤ 8192 }
    requires count { count ≤ 32 }
    requires log2 { log2 ≤ 2 }
    ensures { result ≡ are_multiples size count log2 }
{
    let mut k = 1;
    while k < count {
        if k * size / count % (1 << log2) != 0 {
            return false;
        }
        k += 1;
    }
    true
}

/// The greatest of so many parts of a size.
fn greatest_part(size: u32, count: u32) -> u32
    requires size { size ≤ 8192 }
    requires some { 0 < count }
    requires count { count ≤ 32 }
    ensures value { result ≡ greatest_part size count }
    ensures bound { result ≤ 8223 }
{
    (size + (count - 1)) / count
}

/// A size of a chroma plane: rounded up.
fn reduced(log2: u8, size: u32) -> u32
    requires log2 { log2 ≤ 2 }
    requires size { size ≤ 8223 }
    ensures value { result ≡ reduced log2 size }
    ensures bound { result ≤ 8226 }
{
    let factor = 1 << log2;
    (size + (factor - 1)) / factor
}

/// How many bytes the samples of a picture's greatest slice have.
#[tactic(auto, unfolding(crate::specs::Grids::slice_bytes))]
fn slice_bytes(depth: u32, head: &VideoHead, columns: u32, rows: u32) -> u64
    requires sized { IsSized head.now }
    requires reduced { IsReduced head.now }
    requires some { 0 < columns }
    requires columns { columns ≤ 32 }
    requires high { 0 < rows }
    requires rows { rows ≤ 32 }
    ensures { result ≡ slice_bytes depth head.now columns rows }
{
    let width = greatest_part(head.width, columns);
    let height = greatest_part(head.height, rows);
    let whole = u64::from(width) * u64::from(height);
    let wide = reduced(head.log2_h, width);
    let high = reduced(head.log2_v, height);
    let chroma = u64::from(wide) * u64::from(high);
    let samples = if !head.chroma_planes {
        whole
    } else if head.extra_plane {
        whole + chroma + chroma + whole
    } else {
        whole + chroma + chroma
    };
    if depth == 8 { samples } else { 2 * samples }
}

/// Whether each sample of a chroma plane, along a size that is divided into so many parts, lies in
/// a part: the last one ends where the plane does.
#[tactic(auto, unfolding(crate::specs::Grids::has_edges))]
fn reaches(size: u32, count: u32, log2: u8) -> bool
    requires size { size ≤ 8192 }
    requires some { 0 < count }
    requires count { count ≤ 32 }
    requires log2 { log2 ≤ 2 }
    ensures { result ≡ has_edges edges.Wide size count log2 }
{
    let last = (count - 1) * size / count;
    let bits = u32::from(log2);
    last / (1 << log2) + ffv1_record::reduced(bits, size - last) == ffv1_record::reduced(bits, size)
}

/// Whether so many parts of a size suit the chroma factor, as a profile has it.
#[tactic(auto, unfolding(crate::specs::Grids::has_edges))]
fn has_edges(profile: RecordProfile, size: u32, count: u32, log2: u8) -> bool
    requires size { size ≤ 8192 }
    requires some { 0 < count }
    requires count { count ≤ 32 }
    requires log2 { log2 ≤ 2 }
    ensures { result ≡ has_edges profile size count log2 }
{
    match profile {
        RecordProfile::Strict => are_multiples(size, count, log2),
        RecordProfile::Wide => reaches(size, count, log2),
    }
}

/// Whether a picture may have so many columns and rows, with edges as a profile has them.
#[tactic(auto, unfolding(crate::specs::Grids::has_grid))]
fn has_grid(profile: RecordProfile, depth: u32, head: &VideoHead, columns: u32, rows: u32) -> bool
    requires sized { IsSized head.now }
    requires reduced { IsReduced head.now }
    requires some { 0 < columns }
    requires columns { columns ≤ 32 }
    requires high { 0 < rows }
    requires rows { rows ≤ 32 }
    ensures { result ≡ has_grid profile depth head.now columns rows }
{
    columns <= head.width
        && rows <= head.height
        && has_edges(profile, head.width, columns, head.log2_h)
        && has_edges(profile, head.height, rows, head.log2_v)
        && slice_bytes(depth, head, columns, rows) < u64::from(SLICE_LIMIT)
}

/// The most rows beside so many columns: no more than columns if the grid is to be wide, else 32.
fn most_rows(wide: bool, columns: u32) -> u32
    ensures { result ≡ most_rows wide columns }
{
    if wide { columns } else { 32 }
}

/// The first grid of so many slices that a picture may have, of fewest columns; a wide one has at
/// least as many columns as rows.
fn grid_of(
    profile: RecordProfile,
    depth: u32,
    head: &VideoHead,
    wide: bool,
    slices: u32,
) -> Option<(u32, u32)>
    requires sized { IsSized head.now }
    requires reduced { IsReduced head.now }
    requires some { 0 < slices }
    requires slices { slices ≤ 1024 }
    ensures { result
        ≡ find (λ g. has_grid profile depth head.now g.0 g.1) (grids_of wide slices) }
{
    let mut columns = 1;
    while columns <= 32 {
        let rows = slices / columns;
        let most = most_rows(wide, columns);
        if columns * rows == slices
            && rows <= most
            && has_grid(profile, depth, head, columns, rows)
        {
            return Some((columns, rows));
        }
        columns += 1;
    }
    None
}

/// The first grid that a picture may have, of fewest slices, at least 4, and of fewest columns.
fn first_grid(
    profile: RecordProfile,
    depth: u32,
    head: &VideoHead,
    wide: bool,
) -> Option<(u32, u32)>
    requires sized { IsSized head.now }
    requires reduced { IsReduced head.now }
    ensures { result ≡ first_grid profile depth head.now wide }
{
    let mut slices = 4;
    while slices <= 1024 {
        if let Some(grid) = grid_of(profile, depth, head, wide, slices) {
            return Some(grid);
        }
        slices += 1;
    }
    None
}

/// The columns and rows of slices of a picture for which none are chosen: 1 and 1 up to 101376
/// pixels, above which RFC 9043, section 5, asks for at least 4 slices. Then they are those of
/// fewest slices, at least 4, and of fewest columns, at most 32 each, that the picture may have: no
/// more than it has samples, at least as many columns as rows, each inner edge a multiple of the
/// chroma factor, and fewer bytes of samples than 12 MiB in the greatest slice. If it may have no
/// such grid, then, in `Wide`, slices may share a column or a line of chroma. If it still has none,
/// edges are multiples, and rows may be more than columns; and they are 1 and 1 if there is none
/// such.
fn default_grid(profile: RecordProfile, depth: u32, head: &VideoHead) -> (u32, u32)
    requires sized { IsSized head.now }
    requires reduced { IsReduced head.now }
    ensures { result ≡ default_grid profile depth head.now }
{
    if head.width * head.height <= MOST_PIXELS {
        return (1, 1);
    }
    if let Some(grid) = first_grid(RecordProfile::Strict, depth, head, true) {
        return grid;
    }
    if let Some(grid) = first_grid(profile, depth, head, true) {
        return grid;
    }
    first_grid(RecordProfile::Strict, depth, head, false).unwrap_or((1, 1))
}

/// The grid of a choice for a video in a profile: its own, or the default one.
#[tactic(auto, unfolding(crate::specs::Grids::grid_for))]
pub(crate) fn grid_for<A: Allocator + Copy>(
    profile: Profile,
    choice: &Choice,
    reader: &VideoReader<A>,
) -> (u32, u32)
    ensures { result ≡ grid_for profile choice.now (reading_of reader.now).head }
{
    if !choice.default_grid {
        return (choice.columns, choice.rows);
    }
    default_grid(profile.of_record(), reader.depth(), reader.head())
}
