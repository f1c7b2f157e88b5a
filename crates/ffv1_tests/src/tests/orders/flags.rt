//! Flags of commands, and words that are files after two hyphens.

use super::{DEFAULTS, names_each};
use ffv1_engine::{ContainerChoice, FrameRange, Order};

/// Flags, and words that are files after two hyphens.
static FLAGS: [(&[&str], Order<'static>); 22] = [
    (
        &["ffv1", "pack", "a", "--no-clobber", "b"],
        Order::Pack {
            input: "a",
            output: "b",
            choice: DEFAULTS,
            container: ContainerChoice::Auto,
            no_clobber: true,
            progress: false,
        },
    ),
    (
        &["ffv1", "unpack", "--no-clobber", "--progress", "a", "-"],
        Order::Unpack {
            input: "a",
            output: "-",
            no_clobber: true,
            progress: true,
            range: FrameRange::ALL,
            all: false,
            notes_as_faults: false,
        },
    ),
    (
        &["ffv1", "unpack", "a", "--all", "b"],
        Order::Unpack {
            input: "a",
            output: "b",
            no_clobber: false,
            progress: false,
            range: FrameRange::ALL,
            all: true,
            notes_as_faults: false,
        },
    ),
    (
        &["ffv1", "pack", "--progress", "a", "b"],
        Order::Pack {
            input: "a",
            output: "b",
            choice: DEFAULTS,
            container: ContainerChoice::Auto,
            no_clobber: false,
            progress: true,
        },
    ),
    (
        &["ffv1", "unpack", "a", "--progress", "b"],
        Order::Unpack {
            input: "a",
            output: "b",
            no_clobber: false,
            progress: true,
            range: FrameRange::ALL,
            all: false,
            notes_as_faults: false,
        },
    ),
    (
        &["ffv1", "check", "a", "--place"],
        Order::Check {
            inputs: &["a"],
            all: false,
            place: true,
            quiet: false,
            json: false,
            progress: false,
            against: None,
            range: FrameRange::ALL,
            notes_as_faults: false,
        },
    ),
    (
        &["ffv1", "check", "--progress", "a"],
        Order::Check {
            inputs: &["a"],
            all: false,
            place: false,
            quiet: false,
            json: false,
            progress: true,
            against: None,
            range: FrameRange::ALL,
            notes_as_faults: false,
        },
    ),
    (
        &[
            "ffv1",
            "check",
            "--progress",
            "b",
            "--all",
            "--place",
            "--quiet",
            "a",
            "-",
        ],
        Order::Check {
            inputs: &["b", "a", "-"],
            all: true,
            place: true,
            quiet: true,
            json: false,
            progress: true,
            against: None,
            range: FrameRange::ALL,
            notes_as_faults: false,
        },
    ),
    (
        &["ffv1", "check", "--against", "b", "--quiet", "a"],
        Order::Check {
            inputs: &["a"],
            all: false,
            place: false,
            quiet: true,
            json: false,
            progress: false,
            against: Some("b"),
            range: FrameRange::ALL,
            notes_as_faults: false,
        },
    ),
    (
        &["ffv1", "check", "--json", "a", "--quiet"],
        Order::Check {
            inputs: &["a"],
            all: false,
            place: false,
            quiet: true,
            json: true,
            progress: false,
            against: None,
            range: FrameRange::ALL,
            notes_as_faults: false,
        },
    ),
    (
        &["ffv1", "info", "a", "--json", "b"],
        Order::Info {
            inputs: &["a", "b"],
            count: false,
            json: true,
        },
    ),
    (
        &["ffv1", "info", "--count", "-"],
        Order::Info {
            inputs: &["-"],
            count: true,
            json: false,
        },
    ),
    (
        &["ffv1", "check", "a", "--against=-"],
        Order::Check {
            inputs: &["a"],
            all: false,
            place: false,
            quiet: false,
            json: false,
            progress: false,
            against: Some("-"),
            range: FrameRange::ALL,
            notes_as_faults: false,
        },
    ),
    (
        &["ffv1", "unpack", "--from", "4294967295", "a", "b"],
        Order::Unpack {
            input: "a",
            output: "b",
            no_clobber: false,
            progress: false,
            range: FrameRange {
                first: 4294967295,
                count: None,
            },
            all: false,
            notes_as_faults: false,
        },
    ),
    (
        &["ffv1", "check", "--frames=4294967295", "a"],
        Order::Check {
            inputs: &["a"],
            all: false,
            place: false,
            quiet: false,
            json: false,
            progress: false,
            against: None,
            range: FrameRange {
                first: 0,
                count: Some(4294967295),
            },
            notes_as_faults: false,
        },
    ),
    (
        &["ffv1", "framemd5", "a", "--frames", "1", "--from=+07"],
        Order::FrameMd5 {
            inputs: &["a"],
            range: FrameRange {
                first: 7,
                count: Some(1),
            },
            notes_as_faults: false,
        },
    ),
    (
        &["ffv1", "show", "--cost", "a"],
        Order::Show {
            inputs: &["a"],
            cost: true,
        },
    ),
    (
        &["ffv1", "check", "--", "--place"],
        Order::Check {
            inputs: &["--place"],
            all: false,
            place: false,
            quiet: false,
            json: false,
            progress: false,
            against: None,
            range: FrameRange::ALL,
            notes_as_faults: false,
        },
    ),
    (
        &["ffv1", "unpack", "--", "-a", "--"],
        Order::Unpack {
            input: "-a",
            output: "--",
            no_clobber: false,
            progress: false,
            range: FrameRange::ALL,
            all: false,
            notes_as_faults: false,
        },
    ),
    (
        &["ffv1", "unpack", "a", "--notes-as-faults", "b"],
        Order::Unpack {
            input: "a",
            output: "b",
            no_clobber: false,
            progress: false,
            range: FrameRange::ALL,
            all: false,
            notes_as_faults: true,
        },
    ),
    (
        &["ffv1", "check", "--notes-as-faults", "a"],
        Order::Check {
            inputs: &["a"],
            all: false,
            place: false,
            quiet: false,
            json: false,
            progress: false,
            against: None,
            range: FrameRange::ALL,
            notes_as_faults: true,
        },
    ),
    (
        &["ffv1", "framemd5", "a", "--notes-as-faults"],
        Order::FrameMd5 {
            inputs: &["a"],
            range: FrameRange::ALL,
            notes_as_faults: true,
        },
    ),
];

#[test]
fn each_flag(rt: HostRuntime) {
    names_each(&rt, rt.alloc(), &FLAGS);
}
