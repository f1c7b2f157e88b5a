//! Planes: values computed outside the program from the standard's text, and plain slow programs
//! beside the fast ones.

ghost use Rattle.std.specs.Prelude.{◌≡◌, ◌⊎◌};

use ffv1_plane::{
    Around, Fault, QuantSet, context, context_by_three_tables, fold, predict, residual_of,
    sample_from, sample_signed, unfold,
};
use std::alloc::Global;
use std::process::Abort;

const ELEVEN: &[u8] = &[1, 1, 3, 7, 11, 105];

/// Runs that FFmpeg writes.
const ELEVEN_WIDE: &[u8] = &[1, 1, 3, 7, 23, 93];

const FIVE: &[u8] = &[1, 3, 124];

const ONE: &[u8] = &[128];

const ALL: &[u8] = &[1; 128];

const OTHER: &[u8] = &[1, 5, 7, 115];

const SEVEN: &[u8] = &[1, 1, 1, 1, 1, 1, 122];

/// Runs of the five tables of sets.
static RUNS: [[&[u8]; 5]; 10] = [
    [ELEVEN, ELEVEN, ELEVEN, ONE, ONE],
    [ELEVEN_WIDE, ELEVEN_WIDE, ELEVEN_WIDE, ONE, ONE],
    [ELEVEN_WIDE, ELEVEN_WIDE, FIVE, FIVE, FIVE],
    [ONE, ONE, ONE, ONE, ONE],
    [ALL, ONE, ONE, ONE, ONE],
    [ONE, ALL, ONE, ALL, ONE],
    [ONE, ONE, ONE, FIVE, ONE],
    [ONE, ONE, ONE, ONE, FIVE],
    [OTHER, OTHER, OTHER, OTHER, OTHER],
    [ONE, ONE, SEVEN, ONE, ONE],
];

/// How many contexts the first of them have.
static CONTEXTS: [u32; 6] = [666, 666, 7563, 1, 128, 32513];

/// Puts a set that was made after others.
fn add_set(sets: &mut Vec<QuantSet>, made: Result<QuantSet, Fault>) -> Result<(), Fault> {
    match sets.push(made?) {
        Ok(()) => Ok(()),
        Err(_) => Err(Fault::OutOfMemory),
    }
}

/// The small and the large set, and those of the runs.
pub(super) fn add_sets(alloc: Global, sets: &mut Vec<QuantSet>) -> Result<(), Fault> {
    add_set(sets, QuantSet::small(alloc))?;
    add_set(sets, QuantSet::large(alloc))?;
    for runs in &RUNS {
        add_set(sets, QuantSet::from_runs(alloc, runs))?;
    }
    Ok(())
}

/// A set has these runs, and this many contexts.
fn has_runs(rt: &impl Abort, set: &QuantSet, runs: &[&[u8]; 5], contexts: u32) {
    assert!(rt; set.contexts() == contexts);
    for table in 0..5usize {
        assert!(rt; set.runs(table) == runs[table]);
    }
}

/// Sets have the first runs, and as many contexts as those.
fn have_runs(rt: &impl Abort, sets: [&QuantSet; 6]) {
    for at in 0..6usize {
        has_runs(rt, sets[at], &RUNS[at], CONTEXTS[at]);
    }
}

/// Runs that are refused, and why.
static REFUSED: [([&[u8]; 5], Fault); 7] = [
    ([ELEVEN, ELEVEN, ELEVEN, ELEVEN, ELEVEN], Fault::Contexts),
    ([ALL, ALL, ALL, ALL, ALL], Fault::Contexts),
    ([&[], ONE, ONE, ONE, ONE], Fault::Runs),
    ([ONE, &[128, 0], ONE, ONE, ONE], Fault::Runs),
    ([ONE, ONE, &[127], ONE, ONE], Fault::Runs),
    ([ONE, ONE, ONE, &[128, 1], ONE], Fault::Runs),
    ([ALL, ALL, ALL, ALL, &[1, 128]], Fault::Runs),
];

#[test]
fn refuses_runs(rt: HostRuntime) {
    for (runs, fault) in &REFUSED {
        assert!(rt; QuantSet::from_runs(rt.alloc(), runs).err() == Some(*fault));
    }
}

/// The neighbours left, above, above to the left and to the right, two to the left and two above.
pub(super) fn around_of(samples: [u16; 6]) -> Around {
    let [l, t, tl, tr, ll, tt] = samples;
    Around {
        l,
        t,
        tl,
        tr,
        ll,
        tt,
    }
}

/// Neighbours, the prediction among them, and their contexts by the large set and by one of wider
/// runs.
static PLACES: [([u16; 6], i32, (u32, bool), (u32, bool)); 13] = [
    ([0, 0, 0, 0, 0, 0], 0, (0, false), (0, false)),
    ([255, 0, 0, 0, 255, 0], 255, (1, true), (1, true)),
    ([0, 255, 255, 255, 0, 0], 0, (1, false), (3026, false)),
    ([0, 1, 0, 1, 0, 1], 1, (11, true), (11, true)),
    ([128, 0, 0, 0, 128, 0], 128, (5, true), (5, true)),
    ([10, 20, 0, 0, 0, 0], 20, (14198, true), (7059, true)),
    (
        [65535, 65535, 0, 0, 0, 0],
        65535,
        (111, true),
        (3519, false),
    ),
    (
        [0, 65535, 65535, 65535, 65535, 65535],
        0,
        (1, false),
        (604, true),
    ),
    ([254, 127, 255, 511, 0, 1], 127, (13971, true), (5743, true)),
    (
        [65535, 257, 1, 254, 510, 0],
        65535,
        (240, false),
        (3511, true),
    ),
    (
        [257, 65535, 511, 127, 1, 510],
        65281,
        (603, true),
        (3265, true),
    ),
    (
        [32767, 1, 510, 0, 510, 128],
        32258,
        (13410, false),
        (5545, false),
    ),
    (
        [256, 511, 257, 255, 32768, 254],
        510,
        (21, false),
        (3004, true),
    ),
];

/// Each place has its prediction, and its contexts by the two sets.
fn finds_each(rt: &impl Abort, large: &QuantSet, other: &QuantSet) {
    for &(samples, prediction, in_large, in_other) in &PLACES {
        let around = around_of(samples);
        let found = (context(large, &around), context(other, &around));
        assert!(rt; (predict(&around), found) == (prediction, (in_large, in_other)));
    }
}

/// Neighbours, a sample among them, its context by the small set, and its residual.
static CODED: [([u16; 6], u16, u32, i32); 4] = [
    ([0, 0, 0, 0, 0, 0], 10, 0, 10),
    ([10, 0, 0, 0, 0, 0], 20, 3, 10),
    ([10, 10, 0, 20, 0, 0], 30, 393, -20),
    ([30, 20, 10, 20, 10, 0], 40, 29, -10),
];

/// Each sample has its context and its residual, and comes back from that; by the lines of the
/// crate's example.
fn codes_each(rt: &impl Abort, small: &QuantSet) {
    for &(samples, sample, expected, coded) in &CODED {
        let around = around_of(samples);
        let (size, flip) = context(small, &around);
        let residual = residual_of(predict(&around), flip, sample, 8);
        let again = sample_from(predict(&around), flip, residual, 8);
        assert!(rt; (size, residual, again) == (expected, coded, sample));
    }
}

/// Differences, folded to 8 and to 9 bits.
static FOLDED: [(i32, i32, i32); 16] = [
    (0, 0, 0),
    (127, 127, 127),
    (128, -128, 128),
    (129, -127, 129),
    (-128, -128, -128),
    (-129, 127, -129),
    (255, -1, 255),
    (256, 0, -256),
    (257, 1, -255),
    (-256, 0, -256),
    (-257, -1, 255),
    (65535, -1, -1),
    (i32::MAX, -1, -1),
    (i32::MIN, 0, 0),
    (2147483520, -128, -128),
    (-2147483393, -1, 255),
];

#[test]
fn folds_differences(rt: HostRuntime) {
    for &(difference, eight, nine) in &FOLDED {
        let folded = (fold(difference, 8), fold(difference, 9));
        assert!(rt; folded == (eight, nine));
    }
}

/// Predictions, residuals, and the samples of 8 and of 9 bits that they make.
static UNFOLDED: [(i32, i32, u16, u16); 10] = [
    (0, -1, 255, 511),
    (255, 1, 0, 256),
    (255, -256, 255, 511),
    (5, -10, 251, 507),
    (65535, 65535, 254, 510),
    (i32::MAX, 1, 0, 0),
    (i32::MIN, -1, 255, 511),
    (i32::MAX, i32::MAX, 254, 510),
    (i32::MIN, i32::MIN, 0, 0),
    (300, -44, 0, 256),
];

#[test]
fn unfolds_residuals(rt: HostRuntime) {
    for &(pred, residual, eight, nine) in &UNFOLDED {
        let unfolded = (unfold(pred, residual, 8), unfold(pred, residual, 9));
        assert!(rt; unfolded == (eight, nine));
    }
}

/// Predictions, whether the sign is flipped, sizes of residuals and whether they lie below 0, and
/// the samples of 8 and of 9 bits that they make.
static SIGNED: [(i32, bool, u32, bool, u16, u16); 8] = [
    (100, false, 3, false, 103, 103),
    (100, false, 3, true, 97, 97),
    (100, true, 3, false, 97, 97),
    (100, true, 3, true, 103, 103),
    (250, false, 10, false, 4, 260),
    (5, true, 10, false, 251, 507),
    (0, false, 2_147_483_647, true, 1, 1),
    (65535, true, 1, true, 0, 0),
];

#[test]
fn chooses_by_signs(rt: HostRuntime) {
    for &(pred, flip, size, negative, eight, nine) in &SIGNED {
        let chosen = (
            sample_signed(pred, flip, size, negative, 8),
            sample_signed(pred, flip, size, negative, 9),
        );
        assert!(rt; chosen == (eight, nine));
    }
}

/// A sample of so many bits has these residuals, plain and flipped, and comes back from each,
/// except for bits above those.
fn takes(rt: &impl Abort, pred: i32, sample: u16, bits: u8, residuals: (i32, i32), lowest: u16)
    requires bits { (bits ≡ 8) ⊎ (bits ≡ 9) }
{
    let (plain, flipped) = residuals;
    let found = (
        residual_of(pred, false, sample, bits),
        residual_of(pred, true, sample, bits),
    );
    let samples = (
        sample_from(pred, false, plain, bits),
        sample_from(pred, true, flipped, bits),
    );
    assert!(rt; (found, samples) == (residuals, (lowest, lowest)));
}

#[test]
fn takes_residuals(rt: HostRuntime) {
    takes(&rt, 0, 128, 8, (-128, -128), 128);
    takes(&rt, 128, 0, 8, (-128, -128), 0);
    takes(&rt, 0, 255, 8, (-1, 1), 255);
    takes(&rt, 3, 200, 8, (-59, 59), 200);
    takes(&rt, 0, 256, 9, (-256, -256), 256);
    takes(&rt, 511, 0, 9, (1, -1), 0);
    takes(&rt, 0, 63, 9, (63, -63), 63);
    takes(&rt, 65535, 0, 8, (1, -1), 0);
    takes(&rt, i32::MIN, 65535, 8, (-1, 1), 255);
}

/// How many runs have their last place below `k`.
fn level(runs: &[u8], k: u32) -> i32 {
    let mut end = 0u32;
    let mut level = 0i32;
    for &run in runs {
        end = end.wrapping_add(run as u32);
        if end <= k {
            level = level.wrapping_add(1);
        }
    }
    level
}

/// Entry `k` of a table, as the standard's text has it.
fn entry(runs: &[u8], scale: i32, k: u32) -> i32 {
    match k {
        0..=127 => scale.wrapping_mul(level(runs, k)),
        128 => scale.wrapping_mul(level(runs, 127)).wrapping_neg(),
        _ => scale
            .wrapping_mul(level(runs, 256u32.wrapping_sub(k)))
            .wrapping_neg(),
    }
}

/// Each entry of each table, looked up alone, is that of the plain program.
fn compare(rt: &impl Abort, set: &QuantSet) {
    let near = set.has_three_tables();
    let mut scale = 1i32;
    for table in 0..5usize {
        for k in 0..256u16 {
            let around = around_of(match table {
                0 => [k, 0, 0, 0, k, 0],
                1 => [k, 0, k, 0, k, 0],
                2 => [k, k, k, 0, k, k],
                3 => [0, 0, 0, 0, k, 0],
                _ => [0, 0, 0, 0, 0, k],
            });
            let expected = entry(set.runs(table), scale, k as u32);
            let (size, flip) = context(set, &around);
            assert!(rt;
                (size, flip) == (expected.unsigned_abs(), expected < 0),
                "table {table}, difference {k}"
            );
            if near {
                assert!(rt; context_by_three_tables(set, &around) == (size, flip));
            }
        }
        let levels = set.runs(table).len() as i64;
        scale = scale.wrapping_mul((levels % 256) as i32 * 2 - 1);
    }
}

/// What is said of the sets: the small one and those of the runs.
fn judge(rt: &impl Abort, sets: &[QuantSet]) {
    let [
        small,
        large,
        eleven,
        wide,
        five,
        one,
        all,
        whole,
        fourth,
        fifth,
        _,
        _,
    ] = sets
    else {
        assert!(rt; false);
        return;
    };
    have_runs(rt, [eleven, wide, five, one, all, whole]);
    assert!(rt; (*small == *eleven, *small != *large) == (true, true));
    finds_each(rt, large, five);
    codes_each(rt, small);
    // whether samples two to the left and two above count for nothing
    let near = [
        small.has_three_tables(),
        large.has_three_tables(),
        fourth.has_three_tables(),
        fifth.has_three_tables(),
    ];
    assert!(rt; near == [true, false, false, false]);
    compare(rt, small);
    compare(rt, large);
    compare(rt, five);
    compare(rt, whole);
}

#[test]
fn sets(rt: HostRuntime) -> Result<(), Fault> {
    let mut sets = Vec::new(rt.alloc());
    add_sets(rt.alloc(), &mut sets)?;
    judge(&rt, &sets);
    Ok(())
}

/// The middle one of three.
fn middle(a: i32, b: i32, c: i32) -> i32 {
    if (b <= a && a <= c) || (c <= a && a <= b) {
        return a;
    }
    if (a <= b && b <= c) || (c <= b && b <= a) {
        b
    } else {
        c
    }
}

#[test]
fn predicts_as_the_plain_program(rt: HostRuntime) {
    let corners = [
        0u16, 1, 2, 127, 128, 255, 256, 511, 32767, 32768, 65534, 65535,
    ];
    for l in corners {
        for t in corners {
            for tl in corners {
                let around = Around {
                    l,
                    t,
                    tl,
                    tr: 0,
                    ll: 0,
                    tt: 0,
                };
                let (l, t, tl) = (l as i32, t as i32, tl as i32);
                assert!(rt; predict(&around) == middle(l, t, l + t - tl));
            }
        }
    }
}
