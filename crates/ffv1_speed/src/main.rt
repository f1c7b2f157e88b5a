// SPDX-License-Identifier: MIT OR Apache-2.0
//! Times the rows of one plane: codes and decodes a raw plane of 8 bits, and prints the least time
//! of each.
//!
//! `ffv1_speed PATH WIDTH TIMES [park]`: the plane's bytes, row by row; with TIMES of 0 nothing is
//! timed. With `park` the decoder is parked and woken between any two rows.
//!
//! `ffv1_speed frame PATH FORMAT WIDTH HEIGHT COLUMNS ROWS TIMES`: a raw picture, its planes one
//! after the other, of the format `mono`, `420`, `422`, `444` or `rgb`, or of more bits `422p10`,
//! `rgbp10` or `rgbp16` (two bytes a sample, low byte first), encoded as a frame with parity, and
//! decoded.
#![tactic(auto)]

mod frames;
mod rows;
mod times;

fn main(rt: HostRuntime) -> anyhow::Result<()> {
    times::run(&rt)
}
