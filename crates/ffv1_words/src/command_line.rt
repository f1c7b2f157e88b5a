//! The words of a command line.

ghost use Rattle.std.specs.Prelude.{◌≡◌, ◌⊎◌, IfOk, IfErr, map, codes, false, true};
ghost use Rattle.clap.specs.Words.{app_of, kind_of, new_app};
ghost use Rattle.clap.specs.declared.builder.command.Command.TheViews.{out-Command as fields_of};
ghost use Rattle.clap.specs.declared.error.kind.ErrorKind.TheVariants as kind;
ghost use Rattle.ffv1_words.specs.CommandLine.{framemd5_app, with_range};
ghost use Rattle.ffv1_words.specs.CommandLine.{one_file, some_files, two_files, with_model};
ghost use Rattle.ffv1_words.specs.CommandLine.{with_codec_id, with_colour, with_container};
ghost use Rattle.ffv1_words.specs.CommandLine.{with_no_clobber, with_pace, with_progress};
ghost use Rattle.ffv1_words.specs.CommandLine.{with_slices, with_verify};
ghost use Rattle.ffv1_words.specs.CommandLine.{pack_app, unpack_app, check_app, show_app, top_app};
ghost use Rattle.ffv1_words.specs.CommandLine.{files_app, info_app, looks_app, line_app};
ghost use Rattle.ffv1_words.specs.CommandLine.{tells_app};
ghost use Rattle.ffv1_words.specs.CommandLine.{AreOptionWords};
ghost use Rattle.ffv1_words.specs.CommandLine.{OnLine};
ghost use Rattle.ffv1_words.specs.Order.{IsOrder, IsRefused, IsRefusedIfTaken, is_in_conflict};

use crate::arguments::{
    contexts_arg, count_arg, file_arg, files_arg, flag_arg, notes_arg, number_arg, path_arg,
    progress_arg, word_arg,
};
use crate::matched::{order_of, paths};
use crate::order::Order;
use clap::error::ErrorKind;
use clap::{Command, Error};
use std::alloc::{AllocError, Global};

static CONTEXTS: [&str; 2] = ["small", "large"];

static CONTAINERS: [&str; 3] = ["auto", "avi", "mkv"];

static CODEC_IDS: [&str; 2] = ["native", "vfw"];

static RANGES: [&str; 3] = ["auto", "limited", "full"];

static SITINGS: [&str; 4] = ["auto", "left", "centre", "topleft"];

/// The words that options take.
#[derive(Clone, Copy)]
struct OptionWords<'a> {
    /// Of `--contexts`.
    contexts: &'a [&'a str],
    /// Of `--container`.
    containers: &'a [&'a str],
    /// Of `--codec-id`.
    codec_ids: &'a [&'a str],
    /// Of `--range`.
    ranges: &'a [&'a str],
    /// Of `--siting`.
    sitings: &'a [&'a str],
}

const NAME: &str = "ffv1";

/// The version of the program.
pub const VERSION: &str = "0.2.0";

const CODED_FILE: &str = "The AVI or Matroska file, or - for standard input";

const CODED_FILES: &str = "The AVI or Matroska files, or - for standard input";

const PICTURE_FILES: &str =
    "The files, or - for standard input: video as for pack if it begins with P or Y";

const STATUSES: &str = "Exit status: 0 all done, 1 a fault, by its number, 2 a line refused";

/// The flags of a command that makes a file.
fn add_making<'a>(alloc: Global, command: Command<'a>) -> Result<Command<'a>, AllocError>
    requires { (fields_of command).has_globals ≡ false }
    ensures { IfOk result (λ c. (app_of c ≡ with_progress (with_no_clobber (app_of command.entry)))
        × ((fields_of c).has_globals ≡ false)) }
{
    let help = "Refuse an OUT that exists, with status 2, and leave it as it is";
    let command = command.arg(flag_arg(alloc, "no-clobber", help))?;
    command.arg(progress_arg(alloc))
}

/// The options of which frames of a file are decoded.
fn add_range<'a>(alloc: Global, command: Command<'a>) -> Result<Command<'a>, AllocError>
    requires { (fields_of command).has_globals ≡ false }
    ensures { IfOk result (λ c.
        (app_of c ≡ with_range (app_of command.entry)) × ((fields_of c).has_globals ≡ false)) }
{
    let from = "Read the frames before this one, and do not decode them: the first is 0";
    let frames = "Decode at most so many, 1 to 4294967295, and read no further";
    let command = command.arg(number_arg(alloc, "from", 0, u32::MAX, "0", from))?;
    command.arg(count_arg(alloc, "frames", 1, u32::MAX, frames))
}

/// A command by this name, with what help says of it.
fn new_command<'a>(alloc: Global, name: &'a str, about: &'a str) -> Command<'a>
    ensures app { app_of result ≡ new_app name.entry.now }
    ensures local { (fields_of result).has_globals ≡ false }
{
    Command::new(alloc, name).about(about).after_help(STATUSES)
}

fn one_file_command<'a>(
    alloc: Global,
    name: &'a str,
    about: &'a str,
    input: &'a str,
) -> Result<Command<'a>, AllocError>
    ensures { IfOk result (λ c.
        (app_of c ≡ one_file name.entry.now) × ((fields_of c).has_globals ≡ false)) }
{
    new_command(alloc, name, about).arg(file_arg(alloc, "IN", input))
}

fn some_files_command<'a>(
    alloc: Global,
    name: &'a str,
    about: &'a str,
    inputs: &'a str,
) -> Result<Command<'a>, AllocError>
    ensures { IfOk result (λ c.
        (app_of c ≡ some_files name.entry.now) × ((fields_of c).has_globals ≡ false)) }
{
    new_command(alloc, name, about).arg(files_arg(alloc, "IN", inputs))
}

fn two_files_command<'a>(
    alloc: Global,
    name: &'a str,
    about: &'a str,
    input: &'a str,
    output: &'a str,
) -> Result<Command<'a>, AllocError>
    ensures { IfOk result (λ c.
        (app_of c ≡ two_files name.entry.now) × ((fields_of c).has_globals ≡ false)) }
{
    one_file_command(alloc, name, about, input)?.arg(file_arg(alloc, "OUT", output))
}

fn add_model<'a>(
    alloc: Global,
    contexts: &'a [&'a str],
    command: Command<'a>,
) -> Result<Command<'a>, AllocError>
    requires { (fields_of command).has_globals ≡ false }
    ensures { IfOk result (λ c. (app_of c ≡ with_model contexts.entry (app_of command.entry))
        × ((fields_of c).has_globals ≡ false)) }
{
    let help = "State transition table: 1, the standard's, or 2, the same one, carried in the file";
    let command = command.arg(number_arg(alloc, "coder", 1, 2, "1", help))?;
    command.arg(contexts_arg(alloc, contexts))
}

fn add_slices<'a>(alloc: Global, command: Command<'a>) -> Result<Command<'a>, AllocError>
    requires { (fields_of command).has_globals ≡ false }
    ensures { IfOk result (λ c.
        (app_of c ≡ with_slices (app_of command.entry)) × ((fields_of c).has_globals ≡ false)) }
{
    let columns = "Columns of slices, 1 to 32; in Matroska, without both, by the picture's size";
    let rows = "Rows of slices, 1 to 32; in Matroska, without both, by the picture's size";
    let ec = "1 if each slice carries its parity, 0 if none does";
    command
        .arg(number_arg(alloc, "columns", 1, 32, "1", columns))?
        .arg(number_arg(alloc, "rows", 1, 32, "1", rows))?
        .arg(number_arg(alloc, "ec", 0, 1, "1", ec))
}

fn add_pace<'a>(alloc: Global, command: Command<'a>) -> Result<Command<'a>, AllocError>
    requires { (fields_of command).has_globals ≡ false }
    ensures { IfOk result (λ c.
        (app_of c ≡ with_pace (app_of command.entry)) × ((fields_of c).has_globals ≡ false)) }
{
    let rate = "Frames of PPM in as many seconds as --scale says, 1 to 4294967295";
    let scale = "Seconds of --rate frames, 1 to 4294967295";
    command
        .arg(number_arg(alloc, "rate", 1, u32::MAX, "25", rate))?
        .arg(number_arg(alloc, "scale", 1, u32::MAX, "1", scale))
}

fn add_container<'a>(
    alloc: Global,
    containers: &'a [&'a str],
    command: Command<'a>,
) -> Result<Command<'a>, AllocError>
    requires { (fields_of command).has_globals ≡ false }
    ensures { IfOk result (λ c.
        (app_of c ≡ with_container containers.entry (app_of command.entry))
        × ((fields_of c).has_globals ≡ false)) }
{
    let help =
        "AVI, Matroska, or auto: Matroska if OUT ends in .mkv, .mka, .mks or .mk3d, else AVI";
    command.arg(word_arg(alloc, "container", containers, "auto", help))
}

fn add_codec_id<'a>(
    alloc: Global,
    codec_ids: &'a [&'a str],
    command: Command<'a>,
) -> Result<Command<'a>, AllocError>
    requires { (fields_of command).has_globals ≡ false }
    ensures { IfOk result (λ c.
        (app_of c ≡ with_codec_id codec_ids.entry (app_of command.entry))
        × ((fields_of c).has_globals ≡ false)) }
{
    let help =
        "In Matroska V_FFV1, as RFC 9043 asks, or V_MS/VFW/FOURCC, which other programs play";
    command.arg(word_arg(alloc, "codec-id", codec_ids, "native", help))
}

/// The options of what Matroska says of colours.
fn add_colour<'a>(
    alloc: Global,
    words: OptionWords<'a>,
    command: Command<'a>,
) -> Result<Command<'a>, AllocError>
    requires { (fields_of command).has_globals ≡ false }
    ensures { IfOk result (λ c. (app_of c ≡ with_colour words.entry (app_of command.entry))
        × ((fields_of c).has_globals ≡ false)) }
{
    let range = "In Matroska the range of samples' values; auto: as the video says, if it does";
    let siting = "In Matroska where chroma lies; auto: as the video says, if it does";
    let primaries = "In Matroska ColourPrimaries of ITU-T H.273, 0 to 255; 2 says nothing";
    let transfer = "In Matroska TransferCharacteristics of ITU-T H.273, 0 to 255; 2 says nothing";
    let matrix = "In Matroska MatrixCoefficients of ITU-T H.273, 0 to 255; 2 says nothing";
    command
        .arg(word_arg(alloc, "range", words.ranges, "auto", range))?
        .arg(word_arg(alloc, "siting", words.sitings, "auto", siting))?
        .arg(number_arg(alloc, "primaries", 0, 255, "2", primaries))?
        .arg(number_arg(alloc, "transfer", 0, 255, "2", transfer))?
        .arg(number_arg(alloc, "matrix", 0, 255, "2", matrix))
}

fn add_verify<'a>(alloc: Global, command: Command<'a>) -> Result<Command<'a>, AllocError>
    requires { (fields_of command).has_globals ≡ false }
    ensures { IfOk result (λ c.
        (app_of c ≡ with_verify (app_of command.entry)) × ((fields_of c).has_globals ≡ false)) }
{
    let help = "Decode each frame as soon as it is coded, and compare it with its picture";
    command.arg(flag_arg(alloc, "verify", help))
}

fn pack_command<'a>(alloc: Global, words: OptionWords<'a>) -> Result<Command<'a>, AllocError>
    ensures { IfOk result (λ c.
        (app_of c ≡ pack_app words.entry)
        × ((fields_of c).has_globals ≡ false)) }
{
    let about = "Code a video, YUV4MPEG2 or binary PPM, as FFV1 in AVI or Matroska";
    let input = "The video, or - for standard input: PPM if its first byte is P, else YUV4MPEG2";
    let output = "The file, or - for standard output: written anew as soon as it has a byte";
    let command = two_files_command(alloc, "pack", about, input, output)?;
    let command = add_model(alloc, words.contexts, command)?;
    let command = add_slices(alloc, command)?;
    let command = add_pace(alloc, command)?;
    let command = add_container(alloc, words.containers, command)?;
    let command = add_codec_id(alloc, words.codec_ids, command)?;
    let command = add_colour(alloc, words, command)?;
    let command = add_verify(alloc, command)?;
    add_making(alloc, command)
}

fn unpack_command<'a>(alloc: Global) -> Result<Command<'a>, AllocError>
    ensures { IfOk result (λ c.
        (app_of c ≡ unpack_app) × ((fields_of c).has_globals ≡ false)) }
{
    let about = "Decode a file into YUV4MPEG2, or into PPM if it holds RGB";
    let output = "The video, or - for standard output: written anew as soon as it has a byte";
    let all = "Go on after a frame that is refused, and write the last good picture again";
    let command = two_files_command(alloc, "unpack", about, CODED_FILE, output)?;
    let command = command.arg(flag_arg(alloc, "all", all))?;
    let command = add_range(alloc, command)?;
    let command = add_making(alloc, command)?;
    command.arg(notes_arg(alloc))
}

fn check_command<'a>(alloc: Global) -> Result<Command<'a>, AllocError>
    ensures { IfOk result (λ c.
        (app_of c ≡ check_app) × ((fields_of c).has_globals ≡ false)) }
{
    let about = "Decode all frames of files, and tell of each what it takes";
    let all = "Go on after a frame that is refused, and count those";
    let place = "Say where: slice, plane, line and column of a frame, or the byte of the file";
    let quiet = "Print one line of each file: that it is sound, or its first fault and the place";
    let json = "Print one object of JSON of each file, on a line, in place of what else it tells";
    let against = "Compare each picture's MD5 with this list, of FFmpeg's framemd5";
    let command = some_files_command(alloc, "check", about, CODED_FILES)?
        .arg(flag_arg(alloc, "all", all))?
        .arg(flag_arg(alloc, "place", place))?
        .arg(flag_arg(alloc, "quiet", quiet))?
        .arg(flag_arg(alloc, "json", json))?
        .arg(path_arg(alloc, "against", against))?;
    let command = add_range(alloc, command)?;
    let command = command.arg(progress_arg(alloc))?;
    command.arg(notes_arg(alloc))
}

fn show_command<'a>(alloc: Global) -> Result<Command<'a>, AllocError>
    ensures { IfOk result (λ c.
        (app_of c ≡ show_app) × ((fields_of c).has_globals ≡ false)) }
{
    let about = "Tell what files say of their pictures, and how much a decoder of them holds";
    let cost = "Decode all frames then, and tell what each costs";
    some_files_command(alloc, "show", about, CODED_FILES)?.arg(flag_arg(alloc, "cost", cost))
}

fn info_command<'a>(alloc: Global) -> Result<Command<'a>, AllocError>
    ensures { IfOk result (λ c.
        (app_of c ≡ info_app) × ((fields_of c).has_globals ≡ false)) }
{
    let about = "Tell what files are: container, size, rate, colours, coder, slices, other tracks";
    let count = "Read all frames, and tell how many there are, and how long they last";
    let json = "Print one object of JSON of each file, on a line";
    some_files_command(alloc, "info", about, CODED_FILES)?
        .arg(flag_arg(alloc, "count", count))?
        .arg(flag_arg(alloc, "json", json))
}

fn framemd5_command<'a>(alloc: Global) -> Result<Command<'a>, AllocError>
    ensures { IfOk result (λ c.
        (app_of c ≡ framemd5_app) × ((fields_of c).has_globals ≡ false)) }
{
    let about = "Write the MD5 of each picture of files, as FFmpeg's framemd5 does";
    let command = some_files_command(alloc, "framemd5", about, PICTURE_FILES)?;
    let command = add_range(alloc, command)?;
    command.arg(notes_arg(alloc))
}

fn trial_command<'a>(alloc: Global) -> Result<Command<'a>, AllocError>
    ensures { IfOk result (λ c.
        (app_of c ≡ one_file (codes "trial")) × ((fields_of c).has_globals ≡ false)) }
{
    let about = "Code the first picture of a mono YUV4MPEG2 text, and decode it again";
    one_file_command(
        alloc,
        "trial",
        about,
        "The picture, or - for standard input",
    )
}

fn top_command<'a>(alloc: Global) -> Command<'a>
    ensures app { app_of result ≡ top_app }
    ensures local { (fields_of result).has_globals ≡ false }
{
    new_command(
        alloc,
        NAME,
        "Lossless video for archives: FFV1 version 3 in AVI or Matroska",
    )
    .version(VERSION)
    .subcommand_required(true)
    .arg_required_else_help(true)
}

fn files_command<'a>(alloc: Global, words: OptionWords<'a>) -> Result<Command<'a>, AllocError>
    ensures { IfOk result (λ c.
        (app_of c ≡ files_app words.entry)
        × ((fields_of c).has_globals ≡ false)) }
{
    top_command(alloc)
        .subcommand(pack_command(alloc, words)?)?
        .subcommand(unpack_command(alloc)?)
}

fn looks_command<'a>(alloc: Global, words: OptionWords<'a>) -> Result<Command<'a>, AllocError>
    ensures { IfOk result (λ c.
        (app_of c ≡ looks_app words.entry)
        × ((fields_of c).has_globals ≡ false)) }
{
    files_command(alloc, words)?
        .subcommand(check_command(alloc)?)?
        .subcommand(show_command(alloc)?)
}

fn tells_command<'a>(alloc: Global, words: OptionWords<'a>) -> Result<Command<'a>, AllocError>
    ensures { IfOk result (λ c.
        (app_of c ≡ tells_app words.entry)
        × ((fields_of c).has_globals ≡ false)) }
{
    looks_command(alloc, words)?
        .subcommand(info_command(alloc)?)?
        .subcommand(framemd5_command(alloc)?)
}

fn line_command<'a>(alloc: Global, words: OptionWords<'a>) -> Result<Command<'a>, AllocError>
    ensures { IfOk result (λ c.
        (app_of c ≡ line_app words.entry)
        × ((fields_of c).has_globals ≡ false)) }
{
    tells_command(alloc, words)?.subcommand(trial_command(alloc)?)
}

/// The words that options take.
fn option_words() -> OptionWords<'static>
    ensures { AreOptionWords result }
{
    OptionWords {
        contexts: CONTEXTS.as_slice(),
        containers: CONTAINERS.as_slice(),
        codec_ids: CODEC_IDS.as_slice(),
        ranges: RANGES.as_slice(),
        sitings: SITINGS.as_slice(),
    }
}

fn refusal(alloc: Global, kind: ErrorKind, why: &str) -> Result<Error, AllocError>
    ensures { IfOk result (λ e. kind_of e ≡ kind) }
{
    line_command(alloc, option_words())?.error(kind, why)
}

fn without_conflict<'a>(alloc: Global, order: Order<'a>) -> Result<Order<'a>, Error>
    ensures ok { IfOk result (λ o. (o ≡ order.entry) × (is_in_conflict o ≡ false)) }
    ensures err { IfErr result (λ e. (kind_of e ≡ kind.OutOfMemory)
        ⊎ ((kind_of e ≡ kind.ArgumentConflict) × (is_in_conflict order.entry ≡ true))) }
{
    match order.conflict() {
        None => Ok(order),
        Some(why) => Err(refusal(alloc, ErrorKind::ArgumentConflict, why)?),
    }
}

/// `words`, by a line whose options take these words.
fn read<'a>(alloc: Global, lists: OptionWords<'a>, words: &'a [&'a str]) -> Result<Order<'a>, Error>
    requires { AreOptionWords lists }
    ensures ok { IfOk result (IsOrder (line_app lists.entry) (map (λ w. w.now) words.entry.now)) }
    ensures err { IfErr result (IsRefused (line_app lists.entry)
        (map (λ w. w.now) words.entry.now)) }
    ensures taken { IfErr result (IsRefusedIfTaken (line_app lists.entry)
        (map (λ w. w.now) words.entry.now)) }
{
    let matches = line_command(alloc, lists)?.try_get_matches_from(words)?;
    if let Some((name, rows)) = matches.subcommand() {
        let inputs = paths(alloc, rows, "IN")?;
        if let Some(order) = order_of(name, rows, inputs) {
            return without_conflict(alloc, order);
        }
    }
    Err(refusal(alloc, ErrorKind::InvalidValue, "no such order")?)
}

/// Reads the words of a command line, the program's name first. The order is what the line names by
/// clap's meaning of it, each option that is left out by its default, and its files are not in
/// conflict. A path `-` is standard input or standard output.
///
/// The error is clap's own, whose text says why: of a line that clap refuses it is of a kind that
/// clap's meaning of the line gives. Of any other it is an `InvalidValue`, if the line names no
/// order, which none does; or an `ArgumentConflict`, if `pack` or `unpack` has one
/// text for both its files other than `-`, or writes to `/dev/stdout`, `/dev/fd/1` or
/// `/proc/self/fd/1`, if `pack` without a container writes to a name that ends in `.mov`,
/// `.mp4`, `.mxf`, `.y4m` or `.ppm`, in letters of either case, if `pack` is given a codec ID, or
/// something to say of colours, and does not write Matroska, or `check`, `show`, `info` or
/// `framemd5` have `-` more than once, the list of `check` among them, `check` has a list and also
/// `--all`, `--place` or other than one file, or `check` or `framemd5` leave out frames, and have a
/// list or other than one file; or memory was refused. A line that clap takes names an order,
/// and fails for want of memory and for such a conflict alone.
///
/// The list of the files of `check`, `show`, `info` and `framemd5` is kept until the program ends.
pub fn words<'a>(alloc: Global, words: &'a [&'a str]) -> Result<Order<'a>, Error>
    ensures ok { IfOk result (λ o.
        OnLine (λ line. IsOrder line (map (λ w. w.now) words.entry.now) o)) }
    ensures err { IfErr result (λ e.
        OnLine (λ line. IsRefused line (map (λ w. w.now) words.entry.now) e)) }
    ensures taken { IfErr result (λ e.
        OnLine (λ line. IsRefusedIfTaken line (map (λ w. w.now) words.entry.now) e)) }
{
    read(alloc, option_words(), words)
}
