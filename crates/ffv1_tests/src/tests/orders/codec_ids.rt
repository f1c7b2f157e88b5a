//! Command lines that say what Matroska calls the codec.

use super::{DEFAULTS, names_each};
use ffv1_engine::{Choice, CodecIdChoice, ContainerChoice, Order};

/// Each of the two, by the name of OUT and by the container.
static ROWS: [(&[&str], Order<'static>); 2] = [
    (
        &["ffv1", "pack", "--codec-id", "vfw", "a", "b.mkv"],
        Order::Pack {
            input: "a",
            output: "b.mkv",
            choice: Choice {
                codec_id: CodecIdChoice::Vfw,
                codec_id_given: true,
                ..DEFAULTS
            },
            container: ContainerChoice::Auto,
            no_clobber: false,
            progress: false,
        },
    ),
    (
        &[
            "ffv1",
            "pack",
            "--container=mkv",
            "--codec-id=native",
            "a",
            "-",
        ],
        Order::Pack {
            input: "a",
            output: "-",
            choice: Choice {
                codec_id_given: true,
                ..DEFAULTS
            },
            container: ContainerChoice::Matroska,
            no_clobber: false,
            progress: false,
        },
    ),
];

#[test]
fn codec_ids(rt: HostRuntime) {
    names_each(&rt, rt.alloc(), &ROWS);
}
