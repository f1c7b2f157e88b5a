//! Which files of an order are in conflict, or with its options.

ghost use Rattle.std.specs.Prelude.{◌≡◌, ◌&&◌, ◌||◌, ◌==◌, None, is_some, length, map, not};
ghost use Rattle.ffv1_words.specs.Order.{are_in_conflict, is_conflict, is_in_conflict};
ghost use Rattle.ffv1_words.specs.Order.{is_list_in_conflict, is_misnamed, is_range_in_conflict};
ghost use Rattle.ffv1_words.specs.Order.{is_standard_output, lacks_codec_id, lacks_colour};
ghost use Rattle.ffv1_words.specs.Order.{leaves_out, opposes_list};

use crate::order::{Choice, ContainerChoice, FrameRange, Order, is_hyphen};

const READ_ONCE: &str = "standard input, -, is read once";

fn is_standard_output(path: &str) -> bool
    ensures { result ≡ is_standard_output path.now }
{
    path == "/dev/stdout" || path == "/dev/fd/1" || path == "/proc/self/fd/1"
}

fn conflict_of(input: &str, output: &str) -> Option<&'static str>
    ensures { is_some result ≡ is_conflict input.now output.now }
{
    if input == output && !is_hyphen(output) {
        return Some("IN and OUT are one path");
    }
    if is_standard_output(output) {
        return Some("OUT is standard output, to which the number of frames is printed: give -");
    }
    None
}

fn pack_conflict(
    input: &str,
    output: &str,
    choice: &Choice,
    container: ContainerChoice,
) -> Option<&'static str>
    ensures { is_some result
        ≡ (is_conflict input.now output.now || (is_misnamed container output.now
        || (lacks_codec_id choice.now container output.now
        || lacks_colour choice.now container output.now))) }
{
    if let Some(why) = conflict_of(input, output) {
        return Some(why);
    }
    if container.is_misnamed(output) {
        return Some(
            "OUT is named as what pack does not write: end it in .mkv or .avi, or give --container",
        );
    }
    if choice.lacks_codec_id(container, output) {
        return Some("AVI has no --codec-id: end OUT in .mkv, or give --container mkv");
    }
    if choice.lacks_colour(container, output) {
        return Some("AVI has no place for colours: end OUT in .mkv, or give --container mkv");
    }
    None
}

/// Whether more than one of these paths is a hyphen alone.
fn has_hyphens(paths: &[&str]) -> bool
    ensures { result ≡ are_in_conflict (map (λ p. p.now) paths.now) }
{
    let mut seen = false;
    for path in paths {
        if is_hyphen(path) {
            if seen {
                return true;
            }
            seen = true;
        }
    }
    false
}

/// Why some frames of these files are not to be decoded, if they are not: more than one is
/// named, or a list of the MD5s of all.
fn range_conflict(range: FrameRange, against: bool, inputs: &[&str]) -> Option<&'static str>
    ensures { is_some result ≡ (leaves_out range && (against || not (length inputs.now == 1))) }
{
    if !range.leaves_out() {
        return None;
    }
    if against {
        return Some("--against has the MD5s of all frames: without --from and --frames");
    }
    if inputs.len() != 1 {
        return Some("--from and --frames are of one IN");
    }
    None
}

/// Why a file is not to be unpacked so, if it is not: all of it is gone on with, and some frames
/// alone are wanted.
fn unpack_conflict(input: &str, output: &str, range: FrameRange, all: bool) -> Option<&'static str>
    ensures { is_some result
        ≡ (is_conflict input.now output.now || (all && leaves_out range)) }
{
    if let Some(why) = conflict_of(input, output) {
        return Some(why);
    }
    if all && range.leaves_out() {
        return Some("--all goes on to the end of the file: without --from and --frames");
    }
    None
}

/// Why a list of MD5s does not go with these files, or with options, if it does not.
fn list_conflict(list: &str, all: bool, place: bool, inputs: &[&str]) -> Option<&'static str>
    ensures { is_some result ≡ opposes_list list.now all place (map (λ p. p.now) inputs.now) }
{
    if all || place {
        return Some("--against tells the first frame that differs: without --all and --place");
    }
    if inputs.len() != 1 {
        return Some("--against has the MD5s of one IN");
    }
    if is_hyphen(list) && is_hyphen(inputs[0]) {
        return Some(READ_ONCE);
    }
    None
}

fn check_conflict(
    inputs: &[&str],
    all: bool,
    place: bool,
    against: Option<&str>,
    range: FrameRange,
) -> Option<&'static str>
    ensures { is_some result ≡ (are_in_conflict (map (λ p. p.now) inputs.now)
        || (is_range_in_conflict range against.entry (map (λ p. p.now) inputs.now)
        || is_list_in_conflict against.entry all place (map (λ p. p.now) inputs.now))) }
{
    if has_hyphens(inputs) {
        return Some(READ_ONCE);
    }
    if let Some(why) = range_conflict(range, against.is_some(), inputs) {
        return Some(why);
    }
    match against {
        Some(list) => list_conflict(list, all, place, inputs),
        None => None,
    }
}

fn framemd5_conflict(inputs: &[&str], range: FrameRange) -> Option<&'static str>
    ensures { is_some result ≡ (are_in_conflict (map (λ p. p.now) inputs.now)
        || is_range_in_conflict range None (map (λ p. p.now) inputs.now)) }
{
    if has_hyphens(inputs) {
        return Some(READ_ONCE);
    }
    range_conflict(range, false, inputs)
}

impl<'a> Order<'a> {
    /// Why its files are in conflict, or with its options, if they are.
    pub(crate) fn conflict(self) -> Option<&'static str>
        ensures { is_some result ≡ is_in_conflict self.entry }
    {
        match self {
            Order::Pack {
                input,
                output,
                choice,
                container,
                ..
            } => pack_conflict(input, output, &choice, container),
            Order::Unpack {
                input,
                output,
                range,
                all,
                ..
            } => unpack_conflict(input, output, range, all),
            Order::Check {
                inputs,
                all,
                place,
                against,
                range,
                ..
            } => check_conflict(inputs, all, place, against, range),
            Order::FrameMd5 { inputs, range, .. } => framemd5_conflict(inputs, range),
            Order::Show { inputs, .. } | Order::Info { inputs, .. } => {
                if has_hyphens(inputs) {
                    return Some(READ_ONCE);
                }
                None
            }
            Order::Trial { .. } => None,
        }
    }
}
