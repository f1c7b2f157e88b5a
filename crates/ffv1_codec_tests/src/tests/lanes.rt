//! Contexts and residuals of sixteen places at once, beside those of each place.

ghost use Rattle.std.specs.Prelude.{◌≡◌, ◌<◌, ◌⊎◌};
ghost use Rattle.ffv1_plane.specs.Quantisation.{HasFewLevels};

use super::plane::{add_sets, around_of};
use ffv1_plane::{AroundLanes, Fault, QuantSet, choose_lanes, context, predict, residual_of};
use std::process::Abort;
use std::simd::prelude::*;

/// Samples of 16 places that look random, below `limit`.
fn samples(seed: &mut u64, limit: u16) -> [u16; 16]
    requires { 0 < limit }
{
    let mut lanes = [0; 16];
    for place in 0..16usize {
        *seed = seed
            .wrapping_mul(6364136223846793005)
            .wrapping_add(1442695040888963407);
        lanes[place] = (*seed >> 48) as u16 % limit;
    }
    lanes
}

/// The samples around sixteen places, as in `Around`, and their own.
#[derive(Clone, Copy)]
struct Places {
    l: [u16; 16],
    t: [u16; 16],
    tl: [u16; 16],
    tr: [u16; 16],
    ll: [u16; 16],
    tt: [u16; 16],
    own: [u16; 16],
}

/// Places of samples that look random, below `limit`.
fn sixteen(seed: &mut u64, limit: u16) -> Places
    requires { 0 < limit }
{
    Places {
        l: samples(seed, limit),
        t: samples(seed, limit),
        tl: samples(seed, limit),
        tr: samples(seed, limit),
        ll: samples(seed, limit),
        tt: samples(seed, limit),
        own: samples(seed, limit),
    }
}

/// Their contexts and their residuals modulo 512, all at once.
fn of_lanes(set: &QuantSet, places: &Places, bits: u8) -> ([u16; 16], [u16; 16])
    requires few { HasFewLevels set.now }
    requires bits { (bits ≡ 8) ⊎ (bits ≡ 9) }
{
    let around = AroundLanes {
        l: u16x16::from_array(places.l),
        t: u16x16::from_array(places.t),
        tl: u16x16::from_array(places.tl),
        tr: u16x16::from_array(places.tr),
        ll: u16x16::from_array(places.ll),
        tt: u16x16::from_array(places.tt),
    };
    let own = u16x16::from_array(places.own);
    let (sizes, residuals) = choose_lanes(
        set,
        &set.lanes(),
        &around,
        own,
        bits,
        set.has_three_tables(),
    );
    (sizes.to_array(), residuals.to_array())
}

/// The context and the residual modulo 512 of one of them.
fn of_place(set: &QuantSet, places: &Places, place: usize, bits: u8) -> (u32, i32)
    requires place { place < 16 }
    requires bits { (bits ≡ 8) ⊎ (bits ≡ 9) }
{
    let around = around_of([
        places.l[place],
        places.t[place],
        places.tl[place],
        places.tr[place],
        places.ll[place],
        places.tt[place],
    ]);
    let (size, flip) = context(set, &around);
    let residual = residual_of(predict(&around), flip, places.own[place], bits);
    (size, residual.rem_euclid(512))
}

/// Sixteen places of random samples below `limit` have the contexts and the residuals that each of
/// them has alone.
fn places_agree(rt: &impl Abort, set: &QuantSet, seed: &mut u64, limit: u16, bits: u8)
    requires limit { 0 < limit }
    requires bits { (bits ≡ 8) ⊎ (bits ≡ 9) }
{
    assert!(rt; set.has_few_levels());
    let places = sixteen(seed, limit);
    let (sizes, residuals) = of_lanes(set, &places, bits);
    for place in 0..16usize {
        let alone = of_place(set, &places, place, bits);
        assert!(rt; alone == (u32::from(sizes[place]), i32::from(residuals[place])));
    }
}

/// The last set has many levels, and places of three others agree.
fn judge(rt: &impl Abort, sets: &[QuantSet]) {
    match sets {
        [small, large, .., other, many] => {
            assert!(rt; !many.has_few_levels());
            sets_agree(rt, small, large, other);
        }
        _ => assert!(rt; false),
    }
}

/// Places of three sets agree.
fn sets_agree(rt: &impl Abort, small: &QuantSet, large: &QuantSet, other: &QuantSet) {
    let mut seed = 1;
    for _ in 0..500u32 {
        places_agree(rt, small, &mut seed, 512, 9);
        places_agree(rt, small, &mut seed, 20, 8);
        places_agree(rt, large, &mut seed, 256, 8);
        places_agree(rt, large, &mut seed, 65535, 9);
        places_agree(rt, other, &mut seed, 40, 9);
    }
}

#[test]
fn lanes_as_places(rt: HostRuntime) -> Result<(), Fault> {
    let mut sets = Vec::new(rt.alloc());
    add_sets(rt.alloc(), &mut sets)?;
    judge(&rt, &sets);
    Ok(())
}
