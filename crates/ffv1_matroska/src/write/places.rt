//! The places of Clusters that have a cue.

ghost use Rattle.std.specs.Prelude.{◌≡◌, ◌≤◌, ◌<◌, ◌+◌, ◌*◌, ◌^◌};
ghost use Rattle.std.specs.Vec.{vec_capacity};
ghost use Rattle.ffv1_matroska.specs.Internal.Keeping.{Kept, stride_after, with_place};
ghost use Rattle.ffv1_matroska.specs.WrittenPlaces.{every, most_cues};

use std::alloc::Allocator;

/// The most places that are kept.
pub(crate) const MOST_CUES: usize = 8192;

/// Keeps every second place, from the first on.
fn halve<A: Allocator>(places: &mut Vec<u64, A>)
    ensures items { places.new.items ≡ every 2 places.old.items }
    ensures capacity { vec_capacity places.new ≡ vec_capacity places.old }
{
    let half = places.len() / 2 + places.len() % 2;
    for k in 0..half {
        places[k] = places[2 * k];
    }
    places.truncate(half);
}

/// Keeps the place of a Cluster that has so many before it, if it has a cue. If there are 8192
/// places already, only every second one of them is kept, for twice the stride. It answers the
/// stride.
pub(crate) fn keep_place<A: Allocator>(
    places: &mut Vec<u64, A>,
    stride: u64,
    count: u64,
    at: u64,
) -> u64
    requires kept { Kept count stride places.old.items }
    requires few { count < 2 ^ 56 }
    requires room { vec_capacity places.old ≡ most_cues }
    ensures kept { Kept (count + 1) result places.new.items }
    ensures stride { result ≡ stride_after count stride places.old.items }
    ensures items { places.new.items ≡ with_place count stride at places.old.items }
    ensures room { vec_capacity places.new ≡ most_cues }
{
    if count != stride * places.len() as u64 {
        return stride;
    }
    if places.len() == MOST_CUES {
        halve(places);
        places.push_reserved(at);
        return 2 * stride;
    }
    places.push_reserved(at);
    stride
}
