//! The lines that are written of a file's head and of the configuration of its frames.

ghost use Rattle.std.specs.Prelude.{◌≡◌, ◌++◌, codes, decimal, flat_map, IfOk, OnOk};
ghost use Rattle.std.specs.List.{list_any};
ghost use Rattle.ffv1_plane.specs.Quantisation.{contexts_of};
ghost use Rattle.ffv1_reads.specs.Head.{head_of};
ghost use Rattle.ffv1_unpack.specs.StreamLines.{chroma_line, coder_type, colour_line};
ghost use Rattle.ffv1_unpack.specs.StreamLines.{contexts_line, depth_line, extra_line, held_line};
ghost use Rattle.ffv1_unpack.specs.StreamLines.{number_line};
ghost use Rattle.ffv1_unpack.specs.StreamLines.{is_wide, note_line, others_line, segment_line};
ghost use Rattle.ffv1_unpack.specs.StreamLines.{show_text};

use ffv1_files::Container;
use ffv1_plane::QuantSet;
use ffv1_reads::FileHead;
use ffv1_record::{Checked, Coder, Colour, Held, Sets};
use ffv1_video::number_lines::{push_number, push_pair};
use std::alloc::{AllocError, Allocator};

/// Appends a line of a name and a number.
#[tactic(auto, unfolding(crate::specs::StreamLines::number_line))]
fn push_line<A: Allocator>(
    text: &mut Vec<u8, A>,
    name: &[u8],
    number: u64,
) -> Result<(), AllocError>
    ensures { OnOk result (text.new.items ≡ text.old.items ++ number_line name.now number) }
{
    push_number(text, name, number)?;
    text.extend_from_slice(b"\n")?;
    Ok(())
}

/// The number of a coder (RFC 9043, 4.2.3).
fn coder_type(coder: &Coder) -> u64
    ensures { result ≡ coder_type coder.now }
{
    match coder {
        Coder::Rice => 0,
        Coder::One => 1,
        Coder::Two(_) => 2,
    }
}

/// The line of the colours.
fn colour_line(colour: Colour) -> &'static [u8]
    ensures { result.now ≡ colour_line colour }
{
    match colour {
        Colour::YCbCr => b"colour YCbCr\n",
        Colour::Rct => b"colour RCT\n",
    }
}

/// Appends the line of the chroma planes, and by which powers of two they are narrower and lower.
fn push_chroma<A: Allocator>(
    text: &mut Vec<u8, A>,
    chroma_planes: bool,
    log2_h: u32,
    log2_v: u32,
) -> Result<(), AllocError>
    ensures { OnOk result (text.new.items
        ≡ text.old.items ++ chroma_line chroma_planes log2_h log2_v) }
{
    if !chroma_planes {
        text.extend_from_slice(b"chroma mono\n")?;
        return Ok(());
    }
    push_pair(text, b"chroma ", log2_h, b",", log2_v)?;
    Ok(())
}

/// The line of an extra plane, nothing if there is none.
fn extra_line(extra_plane: bool) -> &'static [u8]
    ensures { result.now ≡ extra_line extra_plane }
{
    if extra_plane { b"extra 1\n" } else { b"" }
}

/// Appends the line of the depth, if a sample has more than 8 bits.
fn push_depth<A: Allocator>(text: &mut Vec<u8, A>, depth: u32) -> Result<(), AllocError>
    ensures { OnOk result (text.new.items ≡ text.old.items ++ depth_line depth) }
{
    if depth > 8 {
        return push_line(text, b"depth ", u64::from(depth));
    }
    Ok(())
}

/// Appends how many contexts each set has.
fn push_counts<A: Allocator, B: Allocator>(
    text: &mut Vec<u8, A>,
    sets: &Sets<B>,
) -> Result<(), AllocError>
    ensures { OnOk result (text.new.items ≡ text.old.items
        ++ flat_map (λ set. codes " " ++ decimal (contexts_of set)) sets.now) }
{
    for set in sets.as_slice() {
        push_number(text, b" ", u64::from(set.contexts()))?;
    }
    Ok(())
}

/// Appends the line of the contexts.
#[tactic(auto, unfolding(crate::specs::StreamLines::contexts_line))]
fn push_contexts<A: Allocator, B: Allocator>(
    text: &mut Vec<u8, A>,
    sets: &Sets<B>,
) -> Result<(), AllocError>
    ensures { OnOk result (text.new.items ≡ text.old.items ++ contexts_line sets.now) }
{
    text.extend_from_slice(b"contexts")?;
    push_counts(text, sets)?;
    text.extend_from_slice(b"\n")?;
    Ok(())
}

/// Whether a set has more contexts than other programs take.
fn has_wide_set<A: Allocator>(sets: &[QuantSet<A>]) -> bool
    ensures { result ≡ list_any is_wide sets.now }
{
    let mut wide = false;
    for set in sets {
        wide = wide || set.contexts() > 16384;
    }
    wide
}

/// The line that says that other programs refuse the sets, nothing if they do not.
fn note_line<A: Allocator>(sets: &[QuantSet<A>]) -> &'static [u8]
    ensures { result.now ≡ note_line sets.now }
{
    if has_wide_set(sets) {
        b"note other programs refuse sets of more than 16384 contexts\n"
    } else {
        b""
    }
}

/// Appends the line of how much a decoder holds.
#[tactic(auto, unfolding(crate::specs::StreamLines::held_line))]
fn push_held<A: Allocator>(text: &mut Vec<u8, A>, held: Held) -> Result<(), AllocError>
    ensures { OnOk result (text.new.items ≡ text.old.items ++ held_line held) }
{
    push_number(text, b"held states ", held.states as u64)?;
    push_number(text, b" samples ", held.samples as u64)?;
    push_number(text, b" output ", held.output as u64)?;
    push_number(text, b" columns ", held.columns as u64)?;
    push_number(text, b" offsets ", held.offsets as u64)?;
    text.extend_from_slice(b"\n")?;
    Ok(())
}

/// Appends the line of further FFV1 video, if there is any.
fn push_others<A: Allocator>(text: &mut Vec<u8, A>, others: u64) -> Result<(), AllocError>
    ensures { OnOk result (text.new.items ≡ text.old.items ++ others_line others) }
{
    if others > 0 {
        return push_line(text, b"note 91 OtherVideo ", others);
    }
    Ok(())
}

/// Appends the line of a Segment: how many bytes it has, or that this is not known; nothing of AVI.
fn push_segment<A: Allocator>(text: &mut Vec<u8, A>, container: Container) -> Result<(), AllocError>
    ensures { OnOk result (text.new.items ≡ text.old.items ++ segment_line container) }
{
    match container {
        Container::Avi => Ok(()),
        Container::Matroska(Some(size)) => push_line(text, b"segment ", size),
        Container::Matroska(None) => {
            text.extend_from_slice(b"segment open\n")?;
            Ok(())
        }
    }
}

/// The lines of a file's head, of its container, of further FFV1 video beside its frames, and of
/// the configuration of these.
pub(crate) fn show_text<A: Allocator>(
    alloc: A,
    container: Container,
    others: u64,
    head: &FileHead<A>,
    checked: &Checked<A>,
) -> Result<Vec<u8, A>, AllocError>
    ensures { IfOk result (λ text. text.items
        ≡ show_text container others (record { head = head_of head.now; accepted = checked.now })) }
{
    let config = checked.config();
    let mut text = Vec::new(alloc);
    push_pair(&mut text, b"size ", config.width, b"x", config.height)?;
    push_line(&mut text, b"coder ", coder_type(&config.coder))?;
    text.extend_from_slice(colour_line(config.colour))?;
    push_chroma(
        &mut text,
        config.chroma_planes,
        config.log2_h,
        config.log2_v,
    )?;
    text.extend_from_slice(extra_line(config.extra_plane))?;
    push_depth(&mut text, checked.depth())?;
    push_pair(&mut text, b"slices ", config.columns, b"x", config.rows)?;
    push_contexts(&mut text, &config.sets)?;
    text.extend_from_slice(note_line(config.sets.as_slice()))?;
    push_line(&mut text, b"ec ", u64::from(config.ec))?;
    push_line(&mut text, b"intra ", u64::from(config.intra))?;
    push_pair(&mut text, b"rate ", head.rate, b"/", head.scale)?;
    push_others(&mut text, others)?;
    push_segment(&mut text, container)?;
    push_held(&mut text, checked.held())?;
    Ok(text)
}
