//! Frame rates and how long a frame lasts.

use ffv1_matroska::{duration_of, rate_of};

#[test]
fn rates(rt: HostRuntime) {
    assert!(rt; rate_of(41_666_666) == (24, 1));
    assert!(rt; rate_of(33_366_667) == (30_000, 1001));
    assert!(rt; rate_of(133_333_333) == (15, 2));
    assert!(rt; rate_of(240_000_000) == (25, 6));
    assert!(rt; rate_of(33_366_700) == (2997, 100));
    assert!(rt; rate_of(16_683_350) == (5994, 100));
    assert!(rt; rate_of(40_040_040) == (24_975, 1000));
    assert!(rt; rate_of(41_708_375) == (23_976, 1000));
    assert!(rt; rate_of(4_000_000_000) == (1, 4));
    assert!(rt; rate_of(u64::MAX) == (0, 0));
    assert!(rt; rate_of(0) == (0, 0));
}

#[test]
fn durations(rt: HostRuntime) {
    assert!(rt; duration_of(25, 1) == 40_000_000);
    assert!(rt; duration_of(24_000, 1001) == 41_708_333);
    assert!(rt; duration_of(30_000, 1001) == 33_366_667);
    assert!(rt; duration_of(2997, 100) == 33_366_700);
    assert!(rt; duration_of(0, 0) == 0);
}
