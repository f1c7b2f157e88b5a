//! Where a reader stands in a Segment.

ghost use Rattle.std.specs.Prelude.{◌≡◌, ◌≤◌, ◌-◌, ◌^◌, min, Ok, Err, Some, if◌then◌else◌};
ghost use Rattle.ffv1_reads.specs.declared.fault.FileFault.TheVariants as fault;
ghost use Rattle.ffv1_matroska.specs.Places.{amount, cluster_at, cluster_entered, ended, group_at};
ghost use Rattle.ffv1_matroska.specs.Places.{is_sound, segment_at, step_to, summed_at};

use ffv1_ebml::Sum;
use ffv1_reads::FileFault;

/// Where a reader stands: in a Segment, in a Cluster of known size, or in a BlockGroup.
#[derive(Clone, Copy)]
pub(crate) struct Place {
    /// Bytes that the Segment has left after the Cluster or BlockGroup.
    pub(crate) segment: u64,
    /// Whether the Segment's size is unknown, so that the end of the input may be its end.
    pub(crate) endless: bool,
    /// Whether it stands after the header of a Cluster of unknown size, in that.
    pub(crate) loose: bool,
    /// Bytes that the Cluster has left after the BlockGroup.
    pub(crate) cluster: u64,
    /// Bytes that the BlockGroup has left.
    pub(crate) group: u64,
    /// What is known of the CRC-32 of the Cluster.
    pub(crate) sum: Sum,
}

/// What was read on to.
#[derive(Clone, Copy)]
pub(crate) struct Step {
    /// The size of a frame, if that comes next; None if an element does.
    pub(crate) frame: Option<u64>,
    /// What was read of time: the 16 bits of the frame's block; or, if no frame comes next, the
    /// Timestamp of the Cluster. None if nothing was.
    pub(crate) time: Option<u64>,
    /// The place; after the frame, except its bytes that are still to be summed.
    pub(crate) place: Place,
}

/// Where a reader stands after the end.
pub(crate) fn ended() -> Place
    ensures { result ≡ ended }
{
    Place {
        segment: 0,
        endless: false,
        loose: false,
        cluster: 0,
        group: 0,
        sum: Sum::Absent,
    }
}

/// The place after an element of the Segment.
pub(crate) fn segment_at(place: Place, loose: bool, left: u64) -> Place
    ensures { result ≡ segment_at place loose left }
{
    Place {
        segment: left,
        endless: place.endless,
        loose,
        cluster: 0,
        group: 0,
        sum: Sum::Absent,
    }
}

/// The place in a Cluster of so many bytes, of which nothing was read.
pub(crate) fn cluster_entered(place: Place, size: u64) -> Place
    ensures { result ≡ cluster_entered place size }
{
    Place {
        segment: place.segment,
        endless: place.endless,
        loose: false,
        cluster: size,
        group: 0,
        sum: Sum::Begins,
    }
}

/// The place after an element of a Cluster.
pub(crate) fn cluster_at(place: Place, left: u64, sum: Sum) -> Place
    ensures { result ≡ cluster_at place left sum }
{
    Place {
        segment: place.segment,
        endless: place.endless,
        loose: place.loose,
        cluster: left,
        group: 0,
        sum,
    }
}

/// The place in a BlockGroup that has so many bytes left.
pub(crate) fn group_at(place: Place, left: u64, sum: Sum) -> Place
    ensures { result ≡ group_at place left sum }
{
    Place {
        segment: place.segment,
        endless: place.endless,
        loose: place.loose,
        cluster: place.cluster,
        group: left,
        sum,
    }
}

/// The same place, with this sum.
pub(crate) fn summed_at(place: Place, sum: Sum) -> Place
    ensures { result ≡ summed_at place sum }
{
    group_at(place, place.group, sum)
}

/// Whether the Cluster has bytes left, or its CRC-32 is the sum.
pub(crate) fn is_sound(place: Place) -> bool
    ensures { result ≡ is_sound place }
{
    place.cluster > 0 || place.group > 0 || place.sum.is_met()
}

/// A step to the next place. A Cluster that has nothing left is judged there: `Checksum` if its
/// CRC-32 is not the sum.
pub(crate) fn closed(place: Place) -> Result<Option<Step>, FileFault>
    ensures { result ≡ (if is_sound place then Ok (Some (step_to place)) else Err fault.Checksum) }
{
    if !is_sound(place) {
        return Err(FileFault::Checksum);
    }
    Ok(Some(Step {
        frame: None,
        time: None,
        place,
    }))
}

/// The bytes from one place to a later one, as one number of 8 bytes says them at most.
pub(crate) fn passed(from: Place, to: Place) -> u64
    requires { amount to ≤ amount from }
    ensures { result ≡ min (amount from - amount to) (2 ^ 64 - 1) }
{
    let before = u128::from(from.segment) + u128::from(from.cluster) + u128::from(from.group);
    let after = u128::from(to.segment) + u128::from(to.cluster) + u128::from(to.group);
    u64::try_from(before - after).unwrap_or(u64::MAX)
}
