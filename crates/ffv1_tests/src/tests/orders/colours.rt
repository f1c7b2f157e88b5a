//! Command lines that say something of colours.

use super::{DEFAULTS, NO_COLOUR, names, names_each};
use ffv1_engine::{Choice, ColourChoice, ContainerChoice, Order, RangeChoice, SitingChoice};
use std::alloc::Global;
use std::process::Abort;

/// `pack` of `a` to Matroska with this option.
fn says(rt: &impl Abort, alloc: Global, option: &str, value: &str, colour: ColourChoice) {
    let order = Order::Pack {
        input: "a",
        output: "b.mkv",
        choice: Choice { colour, ..DEFAULTS },
        container: ContainerChoice::Auto,
        no_clobber: false,
        progress: false,
    };
    let line = ["ffv1", "pack", option, value, "a", "b.mkv"];
    names(rt, alloc, &line, order);
}

/// The options of colours, their values and what they choose.
static OPTIONS: [(&str, &str, ColourChoice); 15] = [
    ("--range", "auto", NO_COLOUR),
    (
        "--range",
        "limited",
        ColourChoice {
            range: RangeChoice::Limited,
            ..NO_COLOUR
        },
    ),
    (
        "--range",
        "full",
        ColourChoice {
            range: RangeChoice::Full,
            ..NO_COLOUR
        },
    ),
    ("--siting", "auto", NO_COLOUR),
    (
        "--siting",
        "left",
        ColourChoice {
            siting: SitingChoice::Left,
            ..NO_COLOUR
        },
    ),
    (
        "--siting",
        "centre",
        ColourChoice {
            siting: SitingChoice::Centre,
            ..NO_COLOUR
        },
    ),
    (
        "--siting",
        "topleft",
        ColourChoice {
            siting: SitingChoice::TopLeft,
            ..NO_COLOUR
        },
    ),
    ("--primaries", "2", NO_COLOUR),
    (
        "--primaries",
        "0",
        ColourChoice {
            primaries: 0,
            ..NO_COLOUR
        },
    ),
    (
        "--primaries",
        "255",
        ColourChoice {
            primaries: 255,
            ..NO_COLOUR
        },
    ),
    ("--transfer", "2", NO_COLOUR),
    (
        "--transfer",
        "16",
        ColourChoice {
            transfer: 16,
            ..NO_COLOUR
        },
    ),
    ("--matrix", "2", NO_COLOUR),
    (
        "--matrix",
        "0",
        ColourChoice {
            matrix: 0,
            ..NO_COLOUR
        },
    ),
    (
        "--matrix",
        "255",
        ColourChoice {
            matrix: 255,
            ..NO_COLOUR
        },
    ),
];

#[test]
fn each_option_of_colours(rt: HostRuntime) {
    for &(option, value, colour) in &OPTIONS {
        says(&rt, rt.alloc(), option, value, colour);
    }
}

/// All of them.
const ALL: ColourChoice = ColourChoice {
    range: RangeChoice::Full,
    siting: SitingChoice::TopLeft,
    primaries: 9,
    transfer: 16,
    matrix: 10,
};

/// Lines of all of them to Matroska, and of what says nothing to AVI.
static ROWS: [(&[&str], Order<'static>); 2] = [
    (
        &[
            "ffv1",
            "pack",
            "--matrix=10",
            "--transfer=16",
            "--primaries=9",
            "a",
            "-",
            "--siting=topleft",
            "--range=full",
            "--container=mkv",
        ],
        Order::Pack {
            input: "a",
            output: "-",
            choice: Choice {
                colour: ALL,
                ..DEFAULTS
            },
            container: ContainerChoice::Matroska,
            no_clobber: false,
            progress: false,
        },
    ),
    (
        &[
            "ffv1",
            "pack",
            "--range=auto",
            "--siting=auto",
            "--primaries=2",
            "--transfer=2",
            "--matrix=2",
            "a",
            "b",
        ],
        Order::Pack {
            input: "a",
            output: "b",
            choice: DEFAULTS,
            container: ContainerChoice::Auto,
            no_clobber: false,
            progress: false,
        },
    ),
];

#[test]
fn colours(rt: HostRuntime) {
    names_each(&rt, rt.alloc(), &ROWS);
}
