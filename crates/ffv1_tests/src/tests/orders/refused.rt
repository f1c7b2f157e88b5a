//! Command lines that are refused, and those that ask for help.

use clap::error::ErrorKind;
use ffv1_engine::words;
use std::alloc::Global;
use std::process::Abort;

fn refuses(rt: &impl Abort, alloc: Global, line: &[&str], kind: ErrorKind) {
    assert!(rt; words(alloc, line).err().is_some_and(|e| e.kind() == kind));
}

/// Each line is refused so.
fn refuses_each(rt: &impl Abort, alloc: Global, lines: &[&[&str]], kind: ErrorKind) {
    for &line in lines {
        refuses(rt, alloc, line, kind);
    }
}

/// Options whose values are out of range.
static OUT_OF_RANGE: [&[&str]; 26] = [
    &["ffv1", "check", "--from=-1", "a"],
    &["ffv1", "unpack", "--from=4294967296", "a", "b"],
    &["ffv1", "framemd5", "--frames=0", "a"],
    &["ffv1", "check", "--frames=4294967296", "a"],
    &["ffv1", "pack", "--coder=0", "a", "b"],
    &["ffv1", "pack", "--coder=3", "a", "b"],
    &["ffv1", "pack", "--columns=0", "a", "b"],
    &["ffv1", "pack", "--columns=33", "a", "b"],
    &["ffv1", "pack", "--columns=-1", "a", "b"],
    &["ffv1", "pack", "--columns=", "a", "b"],
    &["ffv1", "pack", "--columns=four", "a", "b"],
    &["ffv1", "pack", "--rows=0", "a", "b"],
    &["ffv1", "pack", "--rows=33", "a", "b"],
    &["ffv1", "pack", "--ec=2", "a", "b"],
    &["ffv1", "pack", "--rate=0", "a", "b"],
    &["ffv1", "pack", "--rate=4294967296", "a", "b"],
    &["ffv1", "pack", "--rate=99999999999999999999", "a", "b"],
    &["ffv1", "pack", "--scale=0", "a", "b"],
    &["ffv1", "pack", "--scale=4294967296", "a", "b"],
    &["ffv1", "pack", "--scale=1.5", "a", "b"],
    &["ffv1", "pack", "--primaries=256", "a", "b.mkv"],
    &["ffv1", "pack", "--primaries=-1", "a", "b.mkv"],
    &["ffv1", "pack", "--primaries=bt709", "a", "b.mkv"],
    &["ffv1", "pack", "--transfer=256", "a", "b.mkv"],
    &["ffv1", "pack", "--matrix=256", "a", "b.mkv"],
    &["ffv1", "pack", "--matrix=", "a", "b.mkv"],
];

/// Other values than those that there are, and none.
static INVALID: [&[&str]; 10] = [
    &["ffv1", "pack", "--codec-id=V_FFV1", "a", "b.mkv"],
    &["ffv1", "pack", "--codec-id=", "a", "b.mkv"],
    &["ffv1", "pack", "--range=tv", "a", "b.mkv"],
    &["ffv1", "pack", "--range=", "a", "b.mkv"],
    &["ffv1", "pack", "--siting=center", "a", "b.mkv"],
    &["ffv1", "pack", "--siting=TopLeft", "a", "b.mkv"],
    &["ffv1", "pack", "--contexts=medium", "a", "b"],
    &["ffv1", "pack", "--contexts=", "a", "b"],
    &["ffv1", "pack", "--contexts=Large", "a", "b"],
    &["ffv1", "pack", "a", "b", "--rows"],
];

#[test]
fn values(rt: HostRuntime) {
    refuses_each(&rt, rt.alloc(), &OUT_OF_RANGE, ErrorKind::ValueValidation);
    refuses_each(&rt, rt.alloc(), &INVALID, ErrorKind::InvalidValue);
}

/// Files are missing.
static MISSING: [&[&str]; 7] = [
    &["ffv1", "pack"],
    &["ffv1", "unpack"],
    &["ffv1", "check"],
    &["ffv1", "show"],
    &["ffv1", "trial"],
    &["ffv1", "pack", "a"],
    &["ffv1", "unpack", "a"],
];

#[test]
fn words_missing(rt: HostRuntime) {
    let (alone, missing) = (
        ErrorKind::DisplayHelpOnMissingArgumentOrSubcommand,
        ErrorKind::MissingRequiredArgument,
    );
    refuses_each(&rt, rt.alloc(), &MISSING, missing);
    refuses(&rt, rt.alloc(), &["ffv1"], alone);
}

/// Files too many, options that a command does not have, and no options.
static UNKNOWN: [&[&str]; 15] = [
    &["ffv1", "show", "a", "--from=1"],
    &["ffv1", "trial", "a", "b"],
    &["ffv1", "pack", "a", "b", "c"],
    &["ffv1", "unpack", "a", "b", "c"],
    &["ffv1", "--pack", "a"],
    &["ffv1", "unpack", "a", "--ec=1"],
    &["ffv1", "check", "a", "--ec=1"],
    &["ffv1", "show", "a", "--ec=1"],
    &["ffv1", "trial", "a", "--ec=1"],
    &["ffv1", "check", "a", "--cost"],
    &["ffv1", "show", "a", "--place"],
    &["ffv1", "show", "a", "--quiet"],
    &["ffv1", "show", "a", "--json"],
    &["ffv1", "info", "a", "--all"],
    &["ffv1", "pack", "-c", "a", "b"],
];

/// No commands.
static COMMANDS: [&[&str]; 2] = [&["ffv1", "try", "a"], &["ffv1", "Pack", "a", "b"]];

#[test]
fn words_unknown(rt: HostRuntime) {
    refuses_each(&rt, rt.alloc(), &UNKNOWN, ErrorKind::UnknownArgument);
    refuses_each(&rt, rt.alloc(), &COMMANDS, ErrorKind::InvalidSubcommand);
    let valued = ["ffv1", "check", "a", "--place=1"];
    refuses(&rt, rt.alloc(), &valued, ErrorKind::TooManyValues);
}

/// Calls for help.
static HELP: [&[&str]; 5] = [
    &["ffv1", "help"],
    &["ffv1", "--help"],
    &["ffv1", "-h"],
    &["ffv1", "help", "pack"],
    &["ffv1", "pack", "--help"],
];

#[test]
fn calls_for_help(rt: HostRuntime) {
    refuses_each(&rt, rt.alloc(), &HELP, ErrorKind::DisplayHelp);
    let version = ["ffv1", "--version"];
    refuses(&rt, rt.alloc(), &version, ErrorKind::DisplayVersion);
}

/// Options that are given twice, or that the file has not, files that are one, or are standard
/// output, a list of MD5s beside what it does not go with, and some frames of two files.
static CONFLICTS: [&[&str]; 34] = [
    &["ffv1", "info", "-", "a", "-"],
    &["ffv1", "check", "--from", "1", "a", "b"],
    &["ffv1", "framemd5", "--frames", "1", "a", "b"],
    &["ffv1", "check", "--against", "b", "--from", "1", "a"],
    &["ffv1", "check", "--against", "b", "--frames", "1", "a"],
    &["ffv1", "pack", "a", "b", "--ec=1", "--ec=1"],
    &["ffv1", "pack", "--codec-id=vfw", "a", "b"],
    &[
        "ffv1",
        "pack",
        "--codec-id=native",
        "--container=avi",
        "a",
        "b.mkv",
    ],
    &["ffv1", "pack", "--range=limited", "a", "b"],
    &["ffv1", "pack", "--range=full", "a", "b.avi"],
    &["ffv1", "pack", "--siting=left", "a", "-"],
    &["ffv1", "pack", "--primaries=1", "a", "b"],
    &["ffv1", "pack", "--transfer=3", "a", "b"],
    &[
        "ffv1",
        "pack",
        "--matrix=0",
        "--container=avi",
        "a",
        "b.mkv",
    ],
    &["ffv1", "check", "a", "--place", "--place"],
    &["ffv1", "check", "a", "--quiet", "--quiet"],
    &["ffv1", "pack", "a", "a"],
    &["ffv1", "pack", "", ""],
    &["ffv1", "pack", "/dev/stdout", "/dev/stdout"],
    &["ffv1", "pack", "a", "/dev/stdout"],
    &["ffv1", "pack", "a", "/dev/fd/1"],
    &["ffv1", "pack", "a", "/proc/self/fd/1"],
    &["ffv1", "pack", "-", "/dev/stdout"],
    &["ffv1", "unpack", "a", "a"],
    &["ffv1", "unpack", "", ""],
    &["ffv1", "unpack", "/dev/stdout", "/dev/stdout"],
    &["ffv1", "unpack", "a", "/dev/stdout"],
    &["ffv1", "unpack", "a", "/dev/fd/1"],
    &["ffv1", "unpack", "a", "/proc/self/fd/1"],
    &["ffv1", "unpack", "-", "/dev/stdout"],
    &["ffv1", "check", "--against", "a", "b", "c"],
    &["ffv1", "check", "--against", "a", "b", "--all"],
    &["ffv1", "check", "--place", "--against", "a", "b"],
    &["ffv1", "check", "--against", "-", "-"],
];

#[test]
fn words_in_conflict(rt: HostRuntime) {
    refuses_each(&rt, rt.alloc(), &CONFLICTS, ErrorKind::ArgumentConflict);
}
