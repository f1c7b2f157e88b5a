//! Command lines: the files that they name.

use super::{DEFAULTS, names, names_each};
use ffv1_engine::{ContainerChoice, FrameRange, Order};

/// Which names of OUT are Matroska: if a container is named, and if none is.
#[test]
fn names_of_matroska(rt: HostRuntime) {
    for (container, by_name) in [
        (ContainerChoice::Auto, true),
        (ContainerChoice::Avi, false),
        (ContainerChoice::Matroska, true),
    ] {
        for output in ["b.mkv", "b.MKV", "b.mKa", "b.mks", "b.mk3d"] {
            assert!(rt; container.is_matroska(output) == by_name);
        }
        for output in ["-", "mkv", "b.mkv.avi", "b.mk", ""] {
            let named = container == ContainerChoice::Matroska;
            assert!(rt; container.is_matroska(output) == named);
        }
    }
    assert!(rt; ContainerChoice::Auto.is_matroska(".mkv"));
}

/// Paths are compared as texts: another text is another file, and an input may be standard
/// output.
static FILES: [(&[&str], Order<'static>); 11] = [
    (
        &["ffv1", "pack", "--container", "avi", "a", "b.mov"],
        Order::Pack {
            input: "a",
            output: "b.mov",
            choice: DEFAULTS,
            container: ContainerChoice::Avi,
            no_clobber: false,
            progress: false,
        },
    ),
    (
        &["ffv1", "unpack", "a", "./a"],
        Order::Unpack {
            input: "a",
            output: "./a",
            no_clobber: false,
            progress: false,
            range: FrameRange::ALL,
            all: false,
            notes_as_faults: false,
        },
    ),
    (
        &["ffv1", "unpack", "/dev/stdout", "b"],
        Order::Unpack {
            input: "/dev/stdout",
            output: "b",
            no_clobber: false,
            progress: false,
            range: FrameRange::ALL,
            all: false,
            notes_as_faults: false,
        },
    ),
    (
        &["ffv1", "unpack", "a", "/dev/fd/3"],
        Order::Unpack {
            input: "a",
            output: "/dev/fd/3",
            no_clobber: false,
            progress: false,
            range: FrameRange::ALL,
            all: false,
            notes_as_faults: false,
        },
    ),
    (
        &["ffv1", "unpack", "a", "/dev/fd/10"],
        Order::Unpack {
            input: "a",
            output: "/dev/fd/10",
            no_clobber: false,
            progress: false,
            range: FrameRange::ALL,
            all: false,
            notes_as_faults: false,
        },
    ),
    (
        &["ffv1", "unpack", "a", "/dev/stdou"],
        Order::Unpack {
            input: "a",
            output: "/dev/stdou",
            no_clobber: false,
            progress: false,
            range: FrameRange::ALL,
            all: false,
            notes_as_faults: false,
        },
    ),
    (
        &["ffv1", "unpack", "-", "-"],
        Order::Unpack {
            input: "-",
            output: "-",
            no_clobber: false,
            progress: false,
            range: FrameRange::ALL,
            all: false,
            notes_as_faults: false,
        },
    ),
    (
        &["ffv1", "unpack", "a", "-"],
        Order::Unpack {
            input: "a",
            output: "-",
            no_clobber: false,
            progress: false,
            range: FrameRange::ALL,
            all: false,
            notes_as_faults: false,
        },
    ),
    (
        &["ffv1", "unpack", "-", "./-"],
        Order::Unpack {
            input: "-",
            output: "./-",
            no_clobber: false,
            progress: false,
            range: FrameRange::ALL,
            all: false,
            notes_as_faults: false,
        },
    ),
    (
        &["ffv1", "trial", "/dev/stdout"],
        Order::Trial {
            input: "/dev/stdout",
        },
    ),
    (
        &["ffv1", "trial", "/dev/fd/1"],
        Order::Trial { input: "/dev/fd/1" },
    ),
];

#[test]
fn files_not_in_conflict(rt: HostRuntime) {
    names_each(&rt, rt.alloc(), &FILES);
}
