//! Command lines: the orders that they name.

mod codec_ids;
mod colours;
mod files;
mod flags;
mod refused;

use ffv1_engine::{
    Choice, CodecIdChoice, CoderChoice, ColourChoice, ContainerChoice, FrameRange, Order,
    RangeChoice, SitingChoice, words,
};
use std::alloc::Global;
use std::process::Abort;

/// What `pack` says of colours without an option: nothing.
pub(super) const NO_COLOUR: ColourChoice = ColourChoice {
    range: RangeChoice::Auto,
    siting: SitingChoice::Auto,
    primaries: 2,
    transfer: 2,
    matrix: 2,
};

/// What `pack` does without an option.
const DEFAULTS: Choice = Choice {
    coder: CoderChoice::Standard,
    large: false,
    columns: 1,
    rows: 1,
    default_grid: true,
    ec: true,
    rate: 25,
    scale: 1,
    verify: false,
    codec_id: CodecIdChoice::Native,
    codec_id_given: false,
    rate_given: false,
    colour: NO_COLOUR,
};

fn names<'a>(rt: &impl Abort, alloc: Global, line: &'a [&'a str], order: Order<'a>) {
    assert!(rt; words(alloc, line).ok() == Some(order), "{line:?}");
}

/// Each line names its order.
fn names_each<'a>(rt: &impl Abort, alloc: Global, rows: &'a [(&'a [&'a str], Order<'a>)]) {
    for &(line, order) in rows {
        names(rt, alloc, line, order);
    }
}

/// Each command.
static COMMANDS: [(&[&str], Order<'static>); 7] = [
    (
        &["ffv1", "pack", "a", "b"],
        Order::Pack {
            input: "a",
            output: "b",
            choice: DEFAULTS,
            container: ContainerChoice::Auto,
            no_clobber: false,
            progress: false,
        },
    ),
    (
        &["ffv1", "unpack", "a", "b"],
        Order::Unpack {
            input: "a",
            output: "b",
            no_clobber: false,
            progress: false,
            range: FrameRange::ALL,
            all: false,
            notes_as_faults: false,
        },
    ),
    (
        &["ffv1", "check", "a"],
        Order::Check {
            inputs: &["a"],
            all: false,
            place: false,
            quiet: false,
            json: false,
            progress: false,
            against: None,
            range: FrameRange::ALL,
            notes_as_faults: false,
        },
    ),
    (
        &["ffv1", "show", "a"],
        Order::Show {
            inputs: &["a"],
            cost: false,
        },
    ),
    (
        &["ffv1", "info", "a"],
        Order::Info {
            inputs: &["a"],
            count: false,
            json: false,
        },
    ),
    (
        &["ffv1", "framemd5", "a"],
        Order::FrameMd5 {
            inputs: &["a"],
            range: FrameRange::ALL,
            notes_as_faults: false,
        },
    ),
    (&["ffv1", "trial", "a"], Order::Trial { input: "a" }),
];

#[test]
fn each_command(rt: HostRuntime) {
    names_each(&rt, rt.alloc(), &COMMANDS);
}

/// `pack` of `a` to `b` with these options, before and after the files.
fn packs(rt: &impl Abort, alloc: Global, option: &str, value: &str, choice: Choice) {
    let order = Order::Pack {
        input: "a",
        output: "b",
        choice,
        container: ContainerChoice::Auto,
        no_clobber: false,
        progress: false,
    };
    names(rt, alloc, &["ffv1", "pack", option, value, "a", "b"], order);
    names(rt, alloc, &["ffv1", "pack", "a", "b", option, value], order);
}

/// Options of `pack`, their values and what they choose.
static OPTIONS: [(&str, &str, Choice); 13] = [
    ("--coder", "1", DEFAULTS),
    (
        "--coder",
        "2",
        Choice {
            coder: CoderChoice::Carried,
            ..DEFAULTS
        },
    ),
    ("--contexts", "small", DEFAULTS),
    (
        "--contexts",
        "large",
        Choice {
            large: true,
            ..DEFAULTS
        },
    ),
    (
        "--columns",
        "32",
        Choice {
            columns: 32,
            default_grid: false,
            ..DEFAULTS
        },
    ),
    (
        "--columns",
        "+4",
        Choice {
            columns: 4,
            default_grid: false,
            ..DEFAULTS
        },
    ),
    (
        "--rows",
        "32",
        Choice {
            rows: 32,
            default_grid: false,
            ..DEFAULTS
        },
    ),
    (
        "--ec",
        "0",
        Choice {
            ec: false,
            ..DEFAULTS
        },
    ),
    ("--ec", "1", DEFAULTS),
    (
        "--rate",
        "4294967295",
        Choice {
            rate: 4294967295,
            rate_given: true,
            ..DEFAULTS
        },
    ),
    (
        "--rate",
        "25",
        Choice {
            rate_given: true,
            ..DEFAULTS
        },
    ),
    (
        "--scale",
        "1001",
        Choice {
            scale: 1001,
            rate_given: true,
            ..DEFAULTS
        },
    ),
    (
        "--scale",
        "1",
        Choice {
            rate_given: true,
            ..DEFAULTS
        },
    ),
];

#[test]
fn each_option(rt: HostRuntime) {
    for &(option, value, choice) in &OPTIONS {
        packs(&rt, rt.alloc(), option, value, choice);
    }
}

/// All options, and each container.
static MORE: [(&[&str], Order<'static>); 4] = [
    (
        &[
            "ffv1",
            "pack",
            "--coder=2",
            "--contexts=large",
            "a",
            "--columns=3",
            "--rows=2",
            "--ec=-0",
            "b",
            "--rate=30000",
            "--scale=1001",
            "--verify",
        ],
        Order::Pack {
            input: "a",
            output: "b",
            choice: Choice {
                coder: CoderChoice::Carried,
                large: true,
                columns: 3,
                rows: 2,
                default_grid: false,
                ec: false,
                rate: 30000,
                scale: 1001,
                verify: true,
                codec_id: CodecIdChoice::Native,
                codec_id_given: false,
                rate_given: true,
                colour: NO_COLOUR,
            },
            container: ContainerChoice::Auto,
            no_clobber: false,
            progress: false,
        },
    ),
    (
        &["ffv1", "pack", "--container", "auto", "a", "b.mkv"],
        Order::Pack {
            input: "a",
            output: "b.mkv",
            choice: DEFAULTS,
            container: ContainerChoice::Auto,
            no_clobber: false,
            progress: false,
        },
    ),
    (
        &["ffv1", "pack", "--container", "avi", "a", "b.mkv"],
        Order::Pack {
            input: "a",
            output: "b.mkv",
            choice: DEFAULTS,
            container: ContainerChoice::Avi,
            no_clobber: false,
            progress: false,
        },
    ),
    (
        &["ffv1", "pack", "--container", "mkv", "a", "b.mkv"],
        Order::Pack {
            input: "a",
            output: "b.mkv",
            choice: DEFAULTS,
            container: ContainerChoice::Matroska,
            no_clobber: false,
            progress: false,
        },
    ),
];

#[test]
fn more_options(rt: HostRuntime) {
    names_each(&rt, rt.alloc(), &MORE);
}
