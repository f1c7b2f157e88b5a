//! What the program says on standard error of a file that it packed, beside the count.

use crate::told::Paths;
use ffv1_words::is_hyphen;
use std::io;

/// What is not in the file as a user may think.
#[derive(Clone, Copy)]
pub struct Remarks {
    /// An AVI does not hold what its video says of colours.
    pub loses_colour: bool,
    /// The line gives a rate, and the video says its own.
    pub keeps_rate: bool,
}

/// Says so, in a line of each.
pub fn tell_remarks(rt: &impl Eprint, paths: Paths<'_>, remarks: Remarks) -> io::Result<()> {
    if remarks.keeps_rate {
        let path = if is_hyphen(paths.input) {
            "standard input"
        } else {
            paths.input
        };
        eprintln!(rt; "ffv1: {path}: --rate and --scale are for PPM: the rate of the text stands")?;
    }
    if remarks.loses_colour {
        let path = if is_hyphen(paths.output) {
            "standard output"
        } else {
            paths.output
        };
        eprintln!(rt;
            "ffv1: {path}: AVI holds no range of colours and no siting of chroma, but .mkv does"
        )?;
    }
    Ok(())
}
