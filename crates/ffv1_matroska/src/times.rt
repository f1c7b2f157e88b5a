//! When frames come, beside what is read.

ghost use Rattle.std.specs.Prelude.{◌≡◌, ◌≤◌, Option, IfOk, IfSome};
ghost use Rattle.ffv1_wire.specs.Passage.{passage};
ghost use Rattle.ffv1_reads.specs.Reads.{Answers};
ghost use Rattle.ffv1_matroska.specs.Blocks.{HasFrameSize};
ghost use Rattle.ffv1_matroska.specs.Places.{amount};
ghost use Rattle.ffv1_matroska.specs.Segments.{timestamp_read};
ghost use Rattle.ffv1_matroska.specs.Times.{first_off, is_away, is_off, moment, timed_at, timed_by};
ghost use Rattle.ffv1_matroska.specs.Times.{times_begun};
ghost use Rattle.ffv1_matroska.specs.declared.place.Step.{Step};

use crate::place::{Place, Step, is_sound, summed_at};
use ffv1_ebml::{number_of, take_summed};
use ffv1_reads::FileFault;
use ffv1_wire::ByteIn;

/// What is known of when frames come. Times are in ticks.
#[derive(Clone, Copy)]
pub(crate) struct Times {
    /// How many nanoseconds a tick has; 0 if that is not known.
    pub(crate) tick: u64,
    /// The Timestamp of the Cluster.
    pub(crate) cluster: u64,
    /// When the first frame comes, counted from 32768 ticks before 0 on.
    pub(crate) first: u64,
    /// How many frames there were. A count of 64 bits stays at its greatest value.
    pub(crate) count: u64,
    /// The number of the first frame that came too early or too late; None if none did.
    pub(crate) off: Option<u64>,
}

/// What is seen of elements beside their frames.
#[derive(Clone, Copy)]
pub(crate) struct Seen {
    /// Whether Cues came after the last Cluster.
    pub(crate) cued: bool,
    /// When frames come.
    pub(crate) times: Times,
}

/// What is known before the first frame, of ticks of so many nanoseconds.
pub(crate) fn times_begun(tick: u64) -> Times
    ensures { result ≡ times_begun tick }
{
    Times {
        tick,
        cluster: 0,
        first: 0,
        count: 0,
        off: None,
    }
}

/// When a frame comes, by the Timestamp of its Cluster and the 16 bits of its block, which are
/// signed: counted from 32768 ticks before 0 on, and no greater than 2^64 - 1.
fn moment(cluster: u64, time: u64) -> u64
    ensures { result ≡ moment cluster time }
{
    cluster.saturating_add((time % 65536 + 32768) % 65536)
}

/// Whether a frame of this number is more than a tick, and a nanosecond for each frame before it,
/// away from where so many durations lead to from the first one.
fn is_away(tick: u64, duration: u64, first: u64, count: u64, now: u64) -> bool
    ensures { result ≡ is_away tick duration first count now }
{
    let came = u128::from(now) * u128::from(tick);
    let slack = u128::from(tick) + u128::from(count);
    let begun = u128::from(first) * u128::from(tick);
    match begun.checked_add(u128::from(count) * u128::from(duration)) {
        None => true,
        Some(due) => due.saturating_add(slack) < came || came + slack < due,
    }
}

/// The same, if the tick and the duration are known.
fn is_off(tick: u64, duration: u64, first: u64, count: u64, now: u64) -> bool
    ensures { result ≡ is_off tick duration first count now }
{
    if tick == 0 || duration == 0 {
        return false;
    }
    is_away(tick, duration, first, count, now)
}

/// The number of the first frame that is off, with one more frame.
fn first_off(off: Option<u64>, now: bool, count: u64) -> Option<u64>
    ensures { result ≡ first_off off now count }
{
    match off {
        Some(number) => Some(number),
        None => { if now { Some(count) } else { None } }
    }
}

/// What is known after a frame that comes then.
fn timed_at(duration: u64, now: u64, times: Times) -> Times
    ensures { result ≡ timed_at duration now times }
{
    let first = if times.count == 0 { now } else { times.first };
    let off = is_off(times.tick, duration, first, times.count, now);
    Times {
        tick: times.tick,
        cluster: times.cluster,
        first,
        count: times.count.saturating_add(1),
        off: first_off(times.off, off, times.count),
    }
}

/// What is known after what was read on to.
#[tactic(auto, unfolding(crate::specs::Times::timed_by))]
pub(crate) fn timed_by(duration: u64, step: Step, times: Times) -> Times
    ensures { result ≡ timed_by duration step times }
{
    let Some(time) = step.time else {
        return times;
    };
    if step.frame.is_none() {
        return Times {
            tick: times.tick,
            cluster: time,
            first: times.first,
            count: times.count,
            off: times.off,
        };
    }
    timed_at(duration, moment(times.cluster, time), times)
}

/// A Timestamp of so many bytes.
///
/// `Checksum` if they are the last of a Cluster and its CRC-32 differs.
#[tactic(auto, unfolding(crate::specs::Segments::timestamp_read))]
pub(crate) fn read_timestamp<R: ByteIn>(
    input: &mut R,
    size: u64,
    place: Place,
) -> Result<Option<Step>, FileFault>
    requires { size ≤ 8 }
    ensures answer { Answers (λ (s : Option Step). s) (timestamp_read size place)
        (passage R.remaining R.failures input.old input.new) result }
    ensures sized { IfOk result HasFrameSize }
    ensures same { IfOk result (λ o. IfSome o (λ s. amount s.place ≡ amount place)) }
{
    let mut sum = place.sum;
    let mut bytes = [0u8; 8];
    take_summed(input, &mut bytes[..size as usize], &mut sum)?;
    let time = number_of(&bytes[..size as usize]);
    let after = summed_at(place, sum);
    if !is_sound(after) {
        return Err(FileFault::Checksum);
    }
    Ok(Some(Step {
        frame: None,
        time: Some(time),
        place: after,
    }))
}
