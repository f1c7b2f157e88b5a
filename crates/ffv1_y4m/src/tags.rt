//! The tags of a header line.

ghost use Rattle.std.specs.Prelude.{◌≡◌, Some};
ghost use Rattle.ffv1_y4m.specs.Header.{no_tags, judged, tagged, all_judged, words_of, chroma_of};
ghost use Rattle.ffv1_y4m.specs.Header.{other_chroma_of, head_of_tags, first_value, first_answer};
ghost use Rattle.ffv1_y4m.specs.Header.{at_depth, chroma_named, chroma_planes, deep_chroma_of};
ghost use Rattle.ffv1_y4m.specs.Header.{deep_named, depth_of, no_chroma, structure_of};
ghost use Rattle.ffv1_y4m.specs.Header.{next_range, plain_named, range_of, sited_planes};
ghost use Rattle.ffv1_y4m.specs.Header.{unsited_named};

use crate::fault::Fault;
use crate::head::{DeepHead, Range, Siting, VideoHead};
use crate::planes::has_depth_name;
use crate::values::{aspect, is_text, rate, size, split_once, structure};

/// Which chroma planes there are, of a tag C.
#[derive(Clone, Copy)]
pub(crate) struct Chroma {
    pub(crate) planes: bool,
    pub(crate) log2_h: u8,
    pub(crate) log2_v: u8,
    pub(crate) extra: bool,
    pub(crate) depth: u32,
    pub(crate) siting: Option<Siting>,
}

/// What the tags so far have said.
#[derive(Clone, Copy)]
pub(crate) struct Tags {
    pub(crate) width: Option<u32>,
    pub(crate) height: Option<u32>,
    pub(crate) rate: Option<(u32, u32)>,
    pub(crate) structure: Option<u8>,
    pub(crate) aspect: Option<(u16, u16)>,
    pub(crate) chroma: Option<Chroma>,
    pub(crate) range: Option<Range>,
}

/// Chroma planes of these sizes, of 8 bits.
fn planes(log2_h: u8, log2_v: u8) -> Chroma
    ensures { result ≡ chroma_planes log2_h log2_v }
{
    Chroma {
        planes: true,
        log2_h,
        log2_v,
        extra: false,
        depth: 8,
        siting: None,
    }
}

/// 4:2:0 of 8 bits; the siting is said if depths above 8 are read.
fn sited(deep: bool, siting: Siting) -> Chroma
    ensures { result ≡ sited_planes deep siting }
{
    if deep {
        return Chroma {
            siting: Some(siting),
            ..planes(1, 1)
        };
    }
    planes(1, 1)
}

/// The depth above 8 of a text.
fn depth_of(text: &[u8]) -> Option<u32>
    ensures { result ≡ depth_of text.now }
{
    match text {
        b"9" => Some(9),
        b"10" => Some(10),
        b"12" => Some(12),
        b"14" => Some(14),
        b"16" => Some(16),
        _ => None,
    }
}

/// Chroma of a depth that has a name beside it.
fn at_depth(chroma: Chroma, depth: Option<u32>) -> Option<Chroma>
    ensures { result ≡ at_depth chroma depth }
{
    let Some(depth) = depth else {
        return None;
    };
    if !has_depth_name(chroma.planes, depth) {
        return None;
    }
    Some(Chroma { depth, ..chroma })
}

/// The chroma of a name of more than 8 bits, by what comes before the depth in it.
fn deep_named(name: &[u8], depth: Option<u32>) -> Option<Chroma>
    ensures { result ≡ deep_named name.now depth }
{
    if is_text(name, b"420p") {
        return at_depth(planes(1, 1), depth);
    }
    if is_text(name, b"422p") {
        return at_depth(planes(1, 0), depth);
    }
    if is_text(name, b"444p") {
        return at_depth(planes(0, 0), depth);
    }
    if is_text(name, b"mono") {
        return at_depth(no_chroma(), depth);
    }
    None
}

/// The chroma of a name of more than 8 bits.
#[tactic(auto, unfolding(crate::specs::Header::deep_chroma_of))]
fn deep_chroma(value: &[u8]) -> Option<Chroma>
    ensures { result ≡ deep_chroma_of value.now }
{
    if value.len() < 4 {
        return None;
    }
    deep_named(&value[..4], depth_of(&value[4..]))
}

/// No chroma planes, of 8 bits.
fn no_chroma() -> Chroma
    ensures { result ≡ no_chroma }
{
    Chroma {
        planes: false,
        log2_h: 0,
        log2_v: 0,
        extra: false,
        depth: 8,
        siting: None,
    }
}

/// The chroma of a name.
#[tactic(auto, unfolding(crate::specs::Header::chroma_named))]
fn chroma_named(deep: bool, value: &[u8]) -> Option<Chroma>
    ensures { result ≡ chroma_named deep value.now }
{
    if is_text(value, b"420jpeg") {
        return Some(sited(deep, Siting::Centre));
    }
    if is_text(value, b"420mpeg2") {
        return Some(sited(deep, Siting::Left));
    }
    if is_text(value, b"420paldv") {
        return Some(sited(deep, Siting::TopLeft));
    }
    if is_text(value, b"420") {
        return plain_name(deep);
    }
    unsited_chroma(value)
}

/// The chroma of the name `420`, which is read if depths above 8 are.
fn plain_name(deep: bool) -> Option<Chroma>
    ensures { result ≡ plain_named deep }
{
    if deep {
        return Some(sited(true, Siting::Centre));
    }
    None
}

/// The chroma of a name that says no siting.
fn unsited_chroma(value: &[u8]) -> Option<Chroma>
    ensures { result ≡ unsited_named value.now }
{
    if is_text(value, b"422") {
        return Some(planes(1, 0));
    }
    if is_text(value, b"444") {
        return Some(planes(0, 0));
    }
    if is_text(value, b"411") {
        return Some(planes(2, 0));
    }
    other_chroma(value)
}

/// The chroma of the names that are left: with a plane of transparency, with no chroma planes at
/// all, or of more than 8 bits.
fn other_chroma(value: &[u8]) -> Option<Chroma>
    ensures { result ≡ other_chroma_of value.now }
{
    if is_text(value, b"444alpha") {
        return Some(Chroma {
            planes: true,
            log2_h: 0,
            log2_v: 0,
            extra: true,
            depth: 8,
            siting: None,
        });
    }
    if is_text(value, b"mono") {
        return Some(no_chroma());
    }
    deep_chroma(value)
}

/// The chroma of a name, if depths up to this one are read.
fn chroma_up_to(most: u32, value: &[u8]) -> Option<Chroma>
    ensures { result ≡ chroma_of most value.now }
{
    let Some(chroma) = chroma_named(8 < most, value) else {
        return None;
    };
    if chroma.depth <= most {
        return Some(chroma);
    }
    None
}

/// A value for the first time, if it is one.
fn first<T: Drop>(old: Option<T>, new: Option<T>, refusal: Fault) -> Result<T, Fault>
    ensures { result ≡ first_value old new refusal }
{
    match (old, new) {
        (Some(_), _) => Err(Fault::Tag),
        (None, None) => Err(refusal),
        (None, Some(value)) => Ok(value),
    }
}

/// The range that the value of a tag X says, if depths above 8 are read.
fn range(deep: bool, value: &[u8]) -> Option<Range>
    ensures { result ≡ range_of deep value.now }
{
    if !deep {
        return None;
    }
    if is_text(value, b"COLORRANGE=FULL") {
        return Some(Range::Full);
    }
    if is_text(value, b"COLORRANGE=LIMITED") {
        return Some(Range::Limited);
    }
    None
}

/// The range after one more tag X, which says one or none.
fn next_range(old: Option<Range>, new: Option<Range>) -> Result<Option<Range>, Fault>
    ensures { result ≡ next_range old new }
{
    match (old, new) {
        (_, None) => Ok(old),
        (None, Some(range)) => Ok(Some(range)),
        (Some(_), Some(_)) => Err(Fault::Tag),
    }
}

/// The tags with one more.
#[tactic(auto, unfolding(crate::specs::Header::tagged))]
fn tagged(most: u32, tags: Tags, letter: u8, value: &[u8]) -> Result<Tags, Fault>
    ensures { result ≡ tagged most tags letter value.now }
{
    let mut tags = tags;
    match letter {
        b'W' => tags.width = Some(first(tags.width, size(value), Fault::Tag)?),
        b'H' => tags.height = Some(first(tags.height, size(value), Fault::Tag)?),
        b'F' => tags.rate = Some(first(tags.rate, rate(value), Fault::Tag)?),
        b'I' => tags.structure = Some(first_structure(tags.structure, value)?),
        b'A' => tags.aspect = Some(first(tags.aspect, aspect(value), Fault::Tag)?),
        b'C' => tags.chroma = Some(first(
            tags.chroma,
            chroma_up_to(most, value),
            Fault::Unsupported,
        )?),
        b'X' => tags.range = next_range(tags.range, range(8 < most, value))?,
        _ => return Err(Fault::Tag),
    }
    Ok(tags)
}

/// The structure, if no tag before named it.
fn first_structure(old: Option<u8>, value: &[u8]) -> Result<u8, Fault>
    ensures { result ≡ first_answer old (structure_of value.now) }
{
    if old.is_some() {
        return Err(Fault::Tag);
    }
    structure(value)
}

/// The tags with one word of the line more.
fn judged(most: u32, tags: Tags, word: &[u8]) -> Result<Tags, Fault>
    ensures { result ≡ judged most tags word.now }
{
    match word {
        [] => Err(Fault::Tag),
        [letter, value @ ..] => tagged(most, tags, *letter, value),
    }
}

/// The tags of all words of a line, from the left.
pub(crate) fn all_tags(most: u32, line: &[u8]) -> Result<Tags, Fault>
    ensures { result ≡ all_judged most no_tags (words_of line.now) }
{
    let mut tags = Tags {
        width: None,
        height: None,
        rate: None,
        structure: None,
        aspect: None,
        chroma: None,
        range: None,
    };
    let mut rest = line;
    while let Some((word, words)) = split_once(rest, b' ') {
        tags = judged(most, tags, word)?;
        rest = words;
    }
    judged(most, tags, rest)
}

/// The head and the depth that tags give.
#[tactic(auto, unfolding(crate::specs::Header::head_of_tags))]
pub(crate) fn head_of_tags(tags: Tags) -> Result<DeepHead, Fault>
    ensures { result ≡ head_of_tags tags }
{
    let width = tags.width.ok_or(Fault::Tag)?;
    let height = tags.height.ok_or(Fault::Tag)?;
    let (rate, scale) = tags.rate.unwrap_or((0, 0));
    let (sar_num, sar_den) = tags.aspect.unwrap_or((0, 0));
    let chroma = tags.chroma.unwrap_or(planes(1, 1));
    let head = VideoHead {
        width,
        height,
        rate,
        scale,
        structure: tags.structure.unwrap_or(0),
        sar_num,
        sar_den,
        chroma_planes: chroma.planes,
        log2_h: chroma.log2_h,
        log2_v: chroma.log2_v,
        extra_plane: chroma.extra,
        siting: chroma.siting,
        range: tags.range,
    };
    Ok(DeepHead {
        head,
        depth: chroma.depth,
    })
}
