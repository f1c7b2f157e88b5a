//! Writes Cues.

ghost use Rattle.std.specs.Prelude.{◌≡◌, ◌≤◌, ◌<◌, ◌+◌, ◌*◌, ◌^◌, ◌++◌, length};
ghost use Rattle.ffv1_wire.specs.Passage.{passage};
ghost use Rattle.ffv1_sum.specs.Sum.{crc_of};
ghost use Rattle.ffv1_reads.specs.Writes.{Writes};
ghost use Rattle.ffv1_matroska.specs.Written.{cue_element, cues_element, cues_from};
ghost use Rattle.ffv1_matroska.specs.WrittenPlaces.{most_cues};

use crate::idents::CUES;
use crate::write::bytes::Bytes;
use crate::write::send::send;
use ffv1_reads::FileFault;
use ffv1_sum::more;
use ffv1_wire::ByteOut;

/// Where the Cluster of a frame begins.
#[tactic(auto, unfolding(crate::specs::Written::cue_element))]
fn cue_element(number: u64, place: u64) -> Bytes
    ensures { result ≡ cue_element number place }
{
    let mut place_of = Bytes::new();
    place_of.number(0xF7, 1, 1); // CueTrack
    place_of.number(0xF1, 8, place); // CueClusterPosition
    let mut content = Bytes::new();
    content.number(0xB3, 8, number); // CueTime
    content.short(0xB7, place_of.as_slice()); // CueTrackPositions
    let mut element = Bytes::new();
    element.short(0xBB, content.as_slice()); // CuePoint
    element
}

/// The CRC-32 of the cues of every stride-th frame.
fn sum_of_cues(stride: u64, places: &[u64]) -> u32
    requires { stride * length places.now < 2 ^ 63 }
    ensures { result ≡ crc_of (cues_from 0 stride places.now) }
{
    let mut sum = !0u32;
    let mut number = 0u64;
    for place in places {
        sum = more(sum, cue_element(number, *place).as_slice());
        number += stride;
    }
    sum ^ !0
}

/// The bytes of Cues.
pub(crate) fn cues_size(count: usize) -> u64
    requires { count ≤ most_cues }
    ensures value { result ≡ 18 + 27 * count }
{
    18 + 27 * count as u64
}

/// Cues up to the first of them.
fn cues_front(stride: u64, places: &[u64]) -> Bytes
    requires few { length places.now ≤ most_cues }
    requires most { stride * length places.now < 2 ^ 63 }
    ensures { result ++ cues_from 0 stride places.now ≡ cues_element stride places.now }
{
    let mut front = Bytes::new();
    front.long(CUES, cues_size(places.len()) - 12);
    front.sum(sum_of_cues(stride, places));
    front
}

/// Writes Cues of every stride-th frame.
pub(crate) fn put_cues<W: ByteOut>(
    out: &mut W,
    stride: u64,
    places: &[u64],
) -> Result<(), FileFault>
    requires few { length places.now ≤ most_cues }
    requires most { stride * length places.now < 2 ^ 63 }
    ensures { Writes (passage W.contents W.failures out.old out.new)
        (cues_element stride places.now) result }
{
    send(out, cues_front(stride, places).as_slice())?;
    let mut number = 0u64;
    for place in places {
        send(out, cue_element(number, *place).as_slice())?;
        number += stride;
    }
    Ok(())
}
