//! The facts of a stream: what its file's head, its record and its first picture say, and how many
//! frames it has.

ghost use Rattle.std.specs.Prelude.{◌≡◌, ◌++◌, ◌≤◌, ◌<◌, IfOk, OnOk};
ghost use Rattle.ffv1_record.specs.Configuration.{is_rct};
ghost use Rattle.ffv1_reads.specs.Head.{head_of};
ghost use Rattle.ffv1_matroska.specs.Rates.{common_up_to};
ghost use Rattle.ffv1_info.specs.StreamFacts.{chroma_fact, chroma_name, code_fact, coder_name};
ghost use Rattle.ffv1_info.specs.StreamFacts.{colours_name, counted_facts};
ghost use Rattle.ffv1_info.specs.StreamFacts.{display_fact, duration_fact, fields_fact, head_facts};
ghost use Rattle.ffv1_info.specs.StreamFacts.{picture_facts, range_fact, rate_fact, record_facts};
ghost use Rattle.ffv1_info.specs.StreamFacts.{sample_fact, siting_fact};

use crate::contexts::push_contexts;
use crate::names::{
    fields_name, matrix_name, primaries_name, range_name, siting_name, transfer_name,
};
use ffv1_codec::Info;
use ffv1_outline::Form;
use ffv1_outline::durations::{frames_last, push_seconds};
use ffv1_outline::facts::{
    closing, push_named, push_number_fact, push_opening, push_pair, push_truth, push_unknown,
    push_word,
};
use ffv1_reads::FileHead;
use ffv1_record::{Checked, Coder, Colour as Coding, laws as record_laws};
use std::alloc::{AllocError, Allocator};

/// Appends how many frames a second there are.
fn push_rate<A: Allocator>(
    text: &mut Vec<u8, A>,
    form: Form,
    rate: u32,
    scale: u32,
) -> Result<(), AllocError>
    ensures { OnOk result (text.new.items ≡ text.old.items ++ rate_fact form rate scale) }
{
    if rate == 0 {
        push_unknown(text, form, b"rate")
    } else {
        push_pair(text, form, b"rate", rate, b"/", scale)
    }
}

/// Appends a number of H.273.
fn push_code<A: Allocator>(
    text: &mut Vec<u8, A>,
    form: Form,
    name: &[u8],
    word: &[u8],
    number: u8,
) -> Result<(), AllocError>
    ensures { OnOk result (text.new.items
        ≡ text.old.items ++ code_fact form name.now word.now number) }
{
    if number == 2 {
        push_unknown(text, form, name)
    } else {
        push_named(text, form, name, word, u64::from(number))
    }
}

/// Appends the range.
fn push_range<A: Allocator>(text: &mut Vec<u8, A>, form: Form, range: u8) -> Result<(), AllocError>
    ensures { OnOk result (text.new.items ≡ text.old.items ++ range_fact form range) }
{
    if range == 0 {
        push_unknown(text, form, b"range")
    } else {
        push_named(text, form, b"range", range_name(range), u64::from(range))
    }
}

/// Appends where chroma lies.
fn push_siting<A: Allocator>(
    text: &mut Vec<u8, A>,
    form: Form,
    across: u8,
    down: u8,
) -> Result<(), AllocError>
    ensures { OnOk result (text.new.items ≡ text.old.items ++ siting_fact form across down) }
{
    if across == 0 && down == 0 {
        return push_unknown(text, form, b"siting");
    }
    let name = siting_name(across, down);
    if name.is_empty() {
        push_pair(
            text,
            form,
            b"siting",
            u32::from(across),
            b",",
            u32::from(down),
        )
    } else {
        push_word(text, form, b"siting", name)
    }
}

/// What a file's head says.
#[tactic(auto, unfolding(crate::specs::StreamFacts::head_facts))]
pub(crate) fn head_text<A: Allocator, B: Allocator>(
    alloc: A,
    form: Form,
    head: &FileHead<B>,
) -> Result<Vec<u8, A>, AllocError>
    ensures { IfOk result (λ text. text.items ≡ head_facts form (head_of head.now)) }
{
    let colour = head.colour;
    let mut text = Vec::new(alloc);
    push_pair(&mut text, form, b"size", head.width, b"x", head.height)?;
    push_rate(&mut text, form, head.rate, head.scale)?;
    push_range(&mut text, form, colour.range)?;
    push_siting(&mut text, form, colour.siting_across, colour.siting_down)?;
    let primaries = primaries_name(colour.primaries);
    push_code(&mut text, form, b"primaries", primaries, colour.primaries)?;
    let transfer = transfer_name(colour.transfer);
    push_code(&mut text, form, b"transfer", transfer, colour.transfer)?;
    let matrix = matrix_name(colour.matrix);
    push_code(&mut text, form, b"matrix", matrix, colour.matrix)?;
    Ok(text)
}

/// The name of how colours are coded.
fn colours_name(colour: Coding) -> &'static [u8]
    ensures { result.now ≡ colours_name (is_rct colour) }
{
    match colour {
        Coding::YCbCr => b"YCbCr",
        Coding::Rct => b"RGB",
    }
}

/// The name of chroma that is by these powers of two narrower and lower, or an empty one.
#[tactic(auto, unfolding(crate::specs::StreamFacts::chroma_name))]
fn chroma_name(across: u32, down: u32) -> &'static [u8]
    ensures { result.now ≡ chroma_name across down }
{
    match (across, down) {
        (0, 0) => b"4:4:4",
        (1, 0) => b"4:2:2",
        (1, 1) => b"4:2:0",
        (2, 0) => b"4:1:1",
        (2, 2) => b"4:1:0",
        (0, 1) => b"4:4:0",
        _ => b"",
    }
}

/// Appends how chroma is sampled.
fn push_chroma<A: Allocator>(
    text: &mut Vec<u8, A>,
    form: Form,
    chroma_planes: bool,
    across: u32,
    down: u32,
) -> Result<(), AllocError>
    requires across { across ≤ 2 }
    requires down { down ≤ 2 }
    ensures { OnOk result (text.new.items
        ≡ text.old.items ++ chroma_fact form chroma_planes across down) }
{
    if !chroma_planes {
        return push_word(text, form, b"chroma", b"mono");
    }
    let name = chroma_name(across, down);
    if name.is_empty() {
        push_pair(text, form, b"chroma", 1 << across, b",", 1 << down)
    } else {
        push_word(text, form, b"chroma", name)
    }
}

/// The name of a coder.
fn coder_name(coder: &Coder) -> &'static [u8]
    ensures { result.now ≡ coder_name coder.now }
{
    match coder {
        Coder::Rice => b"Golomb-Rice coder",
        Coder::One => b"range coder, default table",
        Coder::Two(_) => b"range coder, custom table",
    }
}

/// What a record says.
#[tactic(auto, unfolding(crate::specs::StreamFacts::record_facts))]
pub(crate) fn record_text<A: Allocator, B: Allocator>(
    alloc: A,
    form: Form,
    checked: &Checked<B>,
) -> Result<Vec<u8, A>, AllocError>
    ensures { IfOk result (λ text. text.items ≡ record_facts form checked.now.configuration) }
{
    record_laws::accepted_configuration_is_in_range();
    let config = checked.config();
    let mut text = Vec::new(alloc);
    push_number_fact(&mut text, form, b"bits", u64::from(checked.depth()))?;
    push_word(&mut text, form, b"colours", colours_name(config.colour))?;
    push_chroma(
        &mut text,
        form,
        config.chroma_planes,
        config.log2_h,
        config.log2_v,
    )?;
    push_truth(&mut text, form, b"transparency", config.extra_plane)?;
    push_pair(
        &mut text,
        form,
        b"slices",
        config.columns,
        b"x",
        config.rows,
    )?;
    push_word(&mut text, form, b"coder", coder_name(&config.coder))?;
    push_contexts(&mut text, form, config.sets.as_slice())?;
    push_truth(&mut text, form, b"parity", config.ec)?;
    push_truth(&mut text, form, b"key_frames", config.intra)?;
    Ok(text)
}

/// Appends how a picture is interlaced.
fn push_fields<A: Allocator>(
    text: &mut Vec<u8, A>,
    form: Form,
    structure: u8,
) -> Result<(), AllocError>
    ensures { OnOk result (text.new.items ≡ text.old.items ++ fields_fact form structure) }
{
    if structure == 0 {
        push_unknown(text, form, b"fields")
    } else {
        push_word(text, form, b"fields", fields_name(structure))
    }
}

/// Appends the aspect of a sample.
fn push_sample<A: Allocator>(
    text: &mut Vec<u8, A>,
    form: Form,
    num: u32,
    den: u32,
) -> Result<(), AllocError>
    ensures { OnOk result (text.new.items ≡ text.old.items ++ sample_fact form num den) }
{
    if num == 0 {
        push_unknown(text, form, b"sample_aspect")
    } else {
        push_pair(text, form, b"sample_aspect", num, b":", den)
    }
}

/// The greatest common divisor of two numbers above 0.
fn common(a: u32, b: u32) -> u32
    requires first { 0 < a }
    requires second { 0 < b }
    ensures value { result ≡ common_up_to a b b }
    ensures some { 0 < result }
{
    let mut x = a;
    let mut y = b;
    while y > 0 {
        let rest = x % y;
        x = y;
        y = rest;
    }
    x
}

/// The size of a picture in samples.
#[derive(Clone, Copy, Debug)]
pub(crate) struct Size {
    pub(crate) width: u32,
    pub(crate) height: u32,
}

/// Appends the aspect of a picture, whose samples have that aspect.
fn push_display<A: Allocator>(
    text: &mut Vec<u8, A>,
    form: Form,
    size: Size,
    num: u16,
    den: u16,
) -> Result<(), AllocError>
    requires wide { (0 < size.width) × (size.width ≤ 8192) }
    requires high { (0 < size.height) × (size.height ≤ 8192) }
    requires both { (num ≡ 0 → den ≡ 0) × (den ≡ 0 → num ≡ 0) }
    ensures { OnOk result (text.new.items
        ≡ text.old.items ++ display_fact form size.width size.height num den) }
{
    if num == 0 {
        return push_unknown(text, form, b"display_aspect");
    }
    let across = size.width * u32::from(num);
    let down = size.height * u32::from(den);
    let divisor = common(across, down);
    push_pair(
        text,
        form,
        b"display_aspect",
        across / divisor,
        b":",
        down / divisor,
    )
}

/// What the first picture says, which is not known if there is none.
#[tactic(auto, unfolding(crate::specs::StreamFacts::picture_facts))]
pub(crate) fn picture_text<A: Allocator>(
    alloc: A,
    form: Form,
    size: Size,
    said: Option<Info>,
) -> Result<Vec<u8, A>, AllocError>
    requires wide { (0 < size.width) × (size.width ≤ 8192) }
    requires high { (0 < size.height) × (size.height ≤ 8192) }
    ensures { IfOk result (λ text. text.items ≡ picture_facts form size.width size.height said) }
{
    let mut text = Vec::new(alloc);
    let Some(info) = said else {
        push_unknown(&mut text, form, b"fields")?;
        push_unknown(&mut text, form, b"sample_aspect")?;
        push_unknown(&mut text, form, b"display_aspect")?;
        return Ok(text);
    };
    let (num, den) = (info.sar_num(), info.sar_den());
    push_fields(&mut text, form, info.structure())?;
    push_sample(&mut text, form, u32::from(num), u32::from(den))?;
    push_display(&mut text, form, size, num, den)?;
    Ok(text)
}

/// Appends how long so many frames last.
fn push_duration<A: Allocator>(
    text: &mut Vec<u8, A>,
    form: Form,
    rate: u32,
    scale: u32,
    frames: u64,
) -> Result<(), AllocError>
    ensures { OnOk result (text.new.items
        ≡ text.old.items ++ duration_fact form rate scale frames) }
{
    push_opening(text, form, b"counted_duration")?;
    push_seconds(text, form, frames_last(frames, scale, rate))?;
    text.extend_from_slice(closing(form))?;
    Ok(())
}

/// How many frames there are, and how long they last.
#[tactic(auto, unfolding(crate::specs::StreamFacts::counted_facts))]
pub(crate) fn counted_text<A: Allocator, B: Allocator>(
    alloc: A,
    form: Form,
    head: &FileHead<B>,
    frames: u64,
) -> Result<Vec<u8, A>, AllocError>
    ensures { IfOk result (λ text. text.items ≡ counted_facts form (head_of head.now) frames) }
{
    let mut text = Vec::new(alloc);
    push_number_fact(&mut text, form, b"counted_frames", frames)?;
    push_duration(&mut text, form, head.rate, head.scale, frames)?;
    Ok(text)
}
