//! The order that the matches of a subcommand name.

ghost use Rattle.std.specs.Prelude.{◌≡◌, IfOk, IfSome, IsNone, ℕ, Bool, Option, Some, codes};
ghost use Rattle.std.specs.Option.{option_map};
ghost use Rattle.clap.specs.Words.{all_of, found_of, first_of, rows_of};
ghost use Rattle.ffv1_words.specs.declared.order.Choice.{Choice};
ghost use Rattle.ffv1_words.specs.declared.order.CodecIdChoice.{CodecIdChoice};
ghost use Rattle.ffv1_words.specs.declared.order.CoderChoice.{CoderChoice};
ghost use Rattle.ffv1_words.specs.declared.order.ColourChoice.{ColourChoice};
ghost use Rattle.ffv1_words.specs.declared.order.ContainerChoice.{ContainerChoice};
ghost use Rattle.ffv1_words.specs.declared.order.FrameRange.{FrameRange};
ghost use Rattle.ffv1_words.specs.declared.order.RangeChoice.{RangeChoice};
ghost use Rattle.ffv1_words.specs.declared.order.SitingChoice.{SitingChoice};
ghost use Rattle.ffv1_words.specs.Order.{ArePaths, Names, NamesChoice, NamesFlag, NamesNone};
ghost use Rattle.ffv1_words.specs.Order.{NamesColour, NamesCount, NamesNumber, NamesRange};
ghost use Rattle.ffv1_words.specs.Order.{bit_number, codec_id_word, coder_number, container_word};
ghost use Rattle.ffv1_words.specs.Order.{contexts_word, range_word, siting_word};
ghost use Rattle.ffv1_words.specs.Order.{is_given, is_of_words, names_no_grid, names_rate};

use crate::order::{
    Choice, CodecIdChoice, CoderChoice, ColourChoice, ContainerChoice, FrameRange, Order,
    RangeChoice, SitingChoice,
};
use clap::ArgMatches;
use clap::parser::ValueSource;
use std::alloc::{AllocError, Global};

fn path<'a>(rows: &ArgMatches<'a>, id: &str) -> Option<&'a str>
    ensures { option_map (λ t. t.now) result ≡ first_of id.now (rows_of (found_of rows.now)) }
{
    rows.get_str(id)
}

/// The paths of an argument of several files. Their list is kept until the program ends.
pub fn paths<'a>(
    alloc: Global,
    rows: &ArgMatches<'a>,
    id: &str,
) -> Result<Option<&'a [&'a str]>, AllocError>
    ensures { IfOk result (λ found.
        ArePaths found (all_of id.now (rows_of (found_of rows.now)))) }
{
    let Some(found) = rows.get_strs(id) else {
        return Ok(None);
    };
    let kept = Vec::from_slice(alloc, found)?;
    Ok(Some(kept.leak()))
}

fn number(rows: &ArgMatches<'_>, id: &str, low: u32, high: u32) -> Option<u32>
    ensures some { IfSome result (λ n.
        NamesNumber (rows_of (found_of rows.now)) id.now low high n) }
    ensures none { IsNone result
        → (n : ℕ) → NamesNumber (rows_of (found_of rows.now)) id.now low high n → ⊥ }
{
    let n = rows.get_one::<u32>(id)?;
    if low <= n && n <= high { Some(n) } else { None }
}

/// The number of an option without a default, if the words give it.
fn count(rows: &ArgMatches<'_>, id: &str, low: u32, high: u32) -> Option<Option<u32>>
    ensures some { IfSome result (λ n.
        NamesCount (rows_of (found_of rows.now)) id.now low high n) }
    ensures none { IsNone result
        → (n : Option ℕ) → NamesCount (rows_of (found_of rows.now)) id.now low high n → ⊥ }
{
    match path(rows, id) {
        Some(_) => {
            let n = number(rows, id, low, high)?;
            Some(Some(n))
        }
        None => Some(None),
    }
}

/// Which frames of a file the words give.
fn range_of_frames(rows: &ArgMatches<'_>) -> Option<FrameRange>
    ensures some { IfSome result (λ r. NamesRange (rows_of (found_of rows.now)) r) }
    ensures none { IsNone result
        → (r : FrameRange) → NamesRange (rows_of (found_of rows.now)) r → ⊥ }
{
    let first = number(rows, "from", 0, 4294967295)?;
    let count = count(rows, "frames", 1, 4294967295)?;
    Some(FrameRange { first, count })
}

fn coder(rows: &ArgMatches<'_>) -> Option<CoderChoice>
    ensures some { IfSome result (λ c.
        NamesNumber (rows_of (found_of rows.now)) (codes "coder") 1 2 (coder_number c)) }
    ensures none { IsNone result → (c : CoderChoice)
        → NamesNumber (rows_of (found_of rows.now)) (codes "coder") 1 2 (coder_number c) → ⊥ }
{
    match number(rows, "coder", 1, 2)? {
        1 => Some(CoderChoice::Standard),
        _ => Some(CoderChoice::Carried),
    }
}

fn ec(rows: &ArgMatches<'_>) -> Option<bool>
    ensures some { IfSome result (λ b.
        NamesNumber (rows_of (found_of rows.now)) (codes "ec") 0 1 (bit_number b)) }
    ensures none { IsNone result → (b : Bool)
        → NamesNumber (rows_of (found_of rows.now)) (codes "ec") 0 1 (bit_number b) → ⊥ }
{
    match number(rows, "ec", 0, 1)? {
        0 => Some(false),
        _ => Some(true),
    }
}

fn flag(rows: &ArgMatches<'_>, id: &str) -> Option<bool>
    ensures some { IfSome result (λ b. NamesFlag (rows_of (found_of rows.now)) id.now b) }
    ensures none { IsNone result
        → (b : Bool) → NamesFlag (rows_of (found_of rows.now)) id.now b → ⊥ }
{
    let word = path(rows, id)?;
    if word == "true" {
        Some(true)
    } else if word == "false" {
        Some(false)
    } else {
        None
    }
}

fn large(rows: &ArgMatches<'_>) -> Option<bool>
    ensures some { IfSome result (λ b.
        first_of (codes "contexts") (rows_of (found_of rows.now)) ≡ Some (contexts_word b)) }
    ensures none { IsNone result → (b : Bool)
        → first_of (codes "contexts") (rows_of (found_of rows.now)) ≡ Some (contexts_word b) → ⊥ }
{
    let word = path(rows, "contexts")?;
    if word == "large" {
        Some(true)
    } else if word == "small" {
        Some(false)
    } else {
        None
    }
}

fn container(rows: &ArgMatches<'_>) -> Option<ContainerChoice>
    ensures some { IfSome result (λ c.
        first_of (codes "container") (rows_of (found_of rows.now)) ≡ Some (container_word c)) }
    ensures none { IsNone result → (c : ContainerChoice)
        → first_of (codes "container") (rows_of (found_of rows.now)) ≡ Some (container_word c) → ⊥ }
{
    let word = path(rows, "container")?;
    if word == "auto" {
        Some(ContainerChoice::Auto)
    } else if word == "avi" {
        Some(ContainerChoice::Avi)
    } else if word == "mkv" {
        Some(ContainerChoice::Matroska)
    } else {
        None
    }
}

fn codec_id(rows: &ArgMatches<'_>) -> Option<CodecIdChoice>
    ensures some { IfSome result (λ c.
        first_of (codes "codec-id") (rows_of (found_of rows.now)) ≡ Some (codec_id_word c)) }
    ensures none { IsNone result → (c : CodecIdChoice)
        → first_of (codes "codec-id") (rows_of (found_of rows.now)) ≡ Some (codec_id_word c) → ⊥ }
{
    let word = path(rows, "codec-id")?;
    if word == "native" {
        Some(CodecIdChoice::Native)
    } else if word == "vfw" {
        Some(CodecIdChoice::Vfw)
    } else {
        None
    }
}

fn range(rows: &ArgMatches<'_>) -> Option<RangeChoice>
    ensures some { IfSome result (λ c.
        first_of (codes "range") (rows_of (found_of rows.now)) ≡ Some (range_word c)) }
    ensures none { IsNone result → (c : RangeChoice)
        → first_of (codes "range") (rows_of (found_of rows.now)) ≡ Some (range_word c) → ⊥ }
{
    let word = path(rows, "range")?;
    if word == "auto" {
        Some(RangeChoice::Auto)
    } else if word == "limited" {
        Some(RangeChoice::Limited)
    } else if word == "full" {
        Some(RangeChoice::Full)
    } else {
        None
    }
}

fn siting(rows: &ArgMatches<'_>) -> Option<SitingChoice>
    ensures some { IfSome result (λ c.
        first_of (codes "siting") (rows_of (found_of rows.now)) ≡ Some (siting_word c)) }
    ensures none { IsNone result → (c : SitingChoice)
        → first_of (codes "siting") (rows_of (found_of rows.now)) ≡ Some (siting_word c) → ⊥ }
{
    let word = path(rows, "siting")?;
    if word == "auto" {
        Some(SitingChoice::Auto)
    } else if word == "left" {
        Some(SitingChoice::Left)
    } else if word == "centre" {
        Some(SitingChoice::Centre)
    } else if word == "topleft" {
        Some(SitingChoice::TopLeft)
    } else {
        None
    }
}

/// A number from 0 to 255.
fn small_number(rows: &ArgMatches<'_>, id: &str) -> Option<u8>
    ensures some { IfSome result (λ n.
        NamesNumber (rows_of (found_of rows.now)) id.now 0 255 n) }
    ensures none { IsNone result
        → (n : ℕ) → NamesNumber (rows_of (found_of rows.now)) id.now 0 255 n → ⊥ }
{
    let n = number(rows, id, 0, 255)?;
    Some(n as u8)
}

/// What Matroska says of colours.
fn colour(rows: &ArgMatches<'_>) -> Option<ColourChoice>
    ensures some { IfSome result (λ c. NamesColour (rows_of (found_of rows.now)) c) }
    ensures none { IsNone result
        → (c : ColourChoice) → NamesColour (rows_of (found_of rows.now)) c → ⊥ }
{
    let range = range(rows)?;
    let siting = siting(rows)?;
    let primaries = small_number(rows, "primaries")?;
    let transfer = small_number(rows, "transfer")?;
    let matrix = small_number(rows, "matrix")?;
    Some(ColourChoice {
        range,
        siting,
        primaries,
        transfer,
        matrix,
    })
}

fn is_of_words(source: ValueSource) -> bool
    ensures { result ≡ is_of_words (Some source) }
{
    match source {
        ValueSource::CommandLine => true,
        ValueSource::DefaultValue => false,
    }
}

/// Whether the words give an option, and not its default alone.
fn is_given(rows: &ArgMatches<'_>, id: &str) -> bool
    ensures { result ≡ is_given (rows_of (found_of rows.now)) id.now }
{
    match rows.value_source(id) {
        Some(source) => is_of_words(source),
        None => false,
    }
}

/// Whether the words give neither columns nor rows of slices.
fn names_no_grid(rows: &ArgMatches<'_>) -> bool
    ensures { result ≡ names_no_grid (rows_of (found_of rows.now)) }
{
    !is_given(rows, "columns") && !is_given(rows, "rows")
}

/// Whether the words give how many frames there are in a second, by either of its two numbers.
fn names_rate(rows: &ArgMatches<'_>) -> bool
    ensures { result ≡ names_rate (rows_of (found_of rows.now)) }
{
    is_given(rows, "rate") || is_given(rows, "scale")
}

fn choice(matches: &ArgMatches<'_>) -> Option<Choice>
    ensures some { IfSome result (λ c. NamesChoice (rows_of (found_of matches.now)) c) }
    ensures none { IsNone result
        → (c : Choice) → NamesChoice (rows_of (found_of matches.now)) c → ⊥ }
{
    let coder = coder(matches)?;
    let large = large(matches)?;
    let columns = number(matches, "columns", 1, 32)?;
    let rows = number(matches, "rows", 1, 32)?;
    let ec = ec(matches)?;
    let rate = number(matches, "rate", 1, 4294967295)?;
    let scale = number(matches, "scale", 1, 4294967295)?;
    let verify = flag(matches, "verify")?;
    let codec_id = codec_id(matches)?;
    let colour = colour(matches)?;
    Some(Choice {
        coder,
        large,
        columns,
        rows,
        default_grid: names_no_grid(matches),
        ec,
        rate,
        scale,
        verify,
        codec_id,
        codec_id_given: is_given(matches, "codec-id"),
        rate_given: names_rate(matches),
        colour,
    })
}

fn pack_order<'a>(rows: &ArgMatches<'a>) -> Option<Order<'a>>
    ensures some { IfSome result (λ o.
        Names o (Some (codes "pack", rows_of (found_of rows.now)))) }
    ensures none { IsNone result → NamesNone (Some (codes "pack", rows_of (found_of rows.now))) }
{
    let input = path(rows, "IN")?;
    let output = path(rows, "OUT")?;
    let choice = choice(rows)?;
    let container = container(rows)?;
    let no_clobber = flag(rows, "no-clobber")?;
    let progress = flag(rows, "progress")?;
    Some(Order::Pack {
        input,
        output,
        choice,
        container,
        no_clobber,
        progress,
    })
}

fn unpack_order<'a>(rows: &ArgMatches<'a>) -> Option<Order<'a>>
    ensures some { IfSome result (λ o.
        Names o (Some (codes "unpack", rows_of (found_of rows.now)))) }
    ensures none { IsNone result → NamesNone (Some (codes "unpack", rows_of (found_of rows.now))) }
{
    let input = path(rows, "IN")?;
    let output = path(rows, "OUT")?;
    let no_clobber = flag(rows, "no-clobber")?;
    let progress = flag(rows, "progress")?;
    let all = flag(rows, "all")?;
    let notes_as_faults = flag(rows, "notes-as-faults")?;
    let range = range_of_frames(rows)?;
    Some(Order::Unpack {
        input,
        output,
        no_clobber,
        progress,
        range,
        all,
        notes_as_faults,
    })
}

fn check_order<'a>(rows: &ArgMatches<'a>, inputs: Option<&'a [&'a str]>) -> Option<Order<'a>>
    requires { ArePaths inputs (all_of (codes "IN") (rows_of (found_of rows.now))) }
    ensures some { IfSome result (λ o.
        Names o (Some (codes "check", rows_of (found_of rows.now)))) }
    ensures none { IsNone result → NamesNone (Some (codes "check", rows_of (found_of rows.now))) }
{
    let inputs = inputs?;
    let all = flag(rows, "all")?;
    let place = flag(rows, "place")?;
    let quiet = flag(rows, "quiet")?;
    let json = flag(rows, "json")?;
    let progress = flag(rows, "progress")?;
    let notes_as_faults = flag(rows, "notes-as-faults")?;
    let range = range_of_frames(rows)?;
    Some(Order::Check {
        inputs,
        all,
        place,
        quiet,
        json,
        progress,
        against: path(rows, "against"),
        range,
        notes_as_faults,
    })
}

fn show_order<'a>(rows: &ArgMatches<'a>, inputs: Option<&'a [&'a str]>) -> Option<Order<'a>>
    requires { ArePaths inputs (all_of (codes "IN") (rows_of (found_of rows.now))) }
    ensures some { IfSome result (λ o.
        Names o (Some (codes "show", rows_of (found_of rows.now)))) }
    ensures none { IsNone result → NamesNone (Some (codes "show", rows_of (found_of rows.now))) }
{
    let inputs = inputs?;
    let cost = flag(rows, "cost")?;
    Some(Order::Show { inputs, cost })
}

fn info_order<'a>(rows: &ArgMatches<'a>, inputs: Option<&'a [&'a str]>) -> Option<Order<'a>>
    requires { ArePaths inputs (all_of (codes "IN") (rows_of (found_of rows.now))) }
    ensures some { IfSome result (λ o.
        Names o (Some (codes "info", rows_of (found_of rows.now)))) }
    ensures none { IsNone result → NamesNone (Some (codes "info", rows_of (found_of rows.now))) }
{
    let inputs = inputs?;
    let count = flag(rows, "count")?;
    let json = flag(rows, "json")?;
    Some(Order::Info {
        inputs,
        count,
        json,
    })
}

fn framemd5_order<'a>(rows: &ArgMatches<'a>, inputs: Option<&'a [&'a str]>) -> Option<Order<'a>>
    requires { ArePaths inputs (all_of (codes "IN") (rows_of (found_of rows.now))) }
    ensures some { IfSome result (λ o.
        Names o (Some (codes "framemd5", rows_of (found_of rows.now)))) }
    ensures none { IsNone result →
        NamesNone (Some (codes "framemd5", rows_of (found_of rows.now))) }
{
    let inputs = inputs?;
    let notes_as_faults = flag(rows, "notes-as-faults")?;
    let range = range_of_frames(rows)?;
    Some(Order::FrameMd5 {
        inputs,
        range,
        notes_as_faults,
    })
}

fn trial_order<'a>(rows: &ArgMatches<'a>) -> Option<Order<'a>>
    ensures some { IfSome result (λ o.
        Names o (Some (codes "trial", rows_of (found_of rows.now)))) }
    ensures none { IsNone result → NamesNone (Some (codes "trial", rows_of (found_of rows.now))) }
{
    let input = path(rows, "IN")?;
    Some(Order::Trial { input })
}

/// The order that a subcommand's name and its matches name, with the paths of the argument IN.
pub fn order_of<'a>(
    name: &str,
    rows: &ArgMatches<'a>,
    inputs: Option<&'a [&'a str]>,
) -> Option<Order<'a>>
    requires { ArePaths inputs (all_of (codes "IN") (rows_of (found_of rows.now))) }
    ensures some { IfSome result (λ o. Names o (Some (name.now, rows_of (found_of rows.now)))) }
    ensures none { IsNone result → NamesNone (Some (name.now, rows_of (found_of rows.now))) }
{
    if name == "pack" {
        pack_order(rows)
    } else if name == "unpack" {
        unpack_order(rows)
    } else if name == "check" {
        check_order(rows, inputs)
    } else if name == "show" {
        show_order(rows, inputs)
    } else if name == "info" {
        info_order(rows, inputs)
    } else if name == "framemd5" {
        framemd5_order(rows, inputs)
    } else if name == "trial" {
        trial_order(rows)
    } else {
        None
    }
}
