//! Configurations of small pictures, and what a value displays as.

ghost use Rattle.std.specs.Prelude.{◌≡◌, IfOk, length, false};

use ffv1_plane::QuantSet;
use ffv1_record::{Coder, Colour, Config, RecordFault, Sets};
use std::alloc::{Allocator, Global};
use std::fmt::Display;

/// Whether a value displays so.
pub fn shows<T: Display>(alloc: Global, value: &T, text: &str) -> bool {
    match value.to_string(alloc) {
        Ok(shown) => shown.as_str() == text,
        Err(_) => false,
    }
}

/// One small set.
fn small_set<A: Allocator + Copy>(alloc: A) -> Result<Sets<A>, RecordFault>
    ensures { IfOk result (λ s. length s ≡ 1) }
{
    let set = QuantSet::small(alloc)?;
    let mut sets = Sets::new(alloc);
    sets.push(set)?;
    Ok(sets)
}

/// Pictures of one plane in one row of slices, by the small set.
pub fn mono<A: Allocator + Copy>(
    alloc: A,
    width: u32,
    height: u32,
    columns: u32,
    ec: bool,
) -> Result<Config<A>, RecordFault>
    ensures columns { IfOk result (λ c. c.columns ≡ columns) }
    ensures rows { IfOk result (λ c. c.rows ≡ 1) }
    ensures sets { IfOk result (λ c. length c.sets ≡ 1) }
    ensures extra { IfOk result (λ c. c.extra_plane ≡ false) }
{
    let sets = small_set(alloc)?;
    Ok(Config {
        width,
        height,
        coder: Coder::One,
        colour: Colour::YCbCr,
        chroma_planes: false,
        extra_plane: false,
        log2_h: 0,
        log2_v: 0,
        columns,
        rows: 1,
        sets,
        ec,
        intra: true,
    })
}
