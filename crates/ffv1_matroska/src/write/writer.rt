//! A writer of files, frame by frame.

ghost use Rattle.std.specs.Prelude.{◌≡◌, ◌≤◌, ◌<◌, ◌+◌, ◌*◌, ◌-◌, ◌^◌, Bool, true, false, length};
ghost use Rattle.std.specs.Prelude.{Ok, Err, IfOk, nat_lt};
ghost use Rattle.ffv1_wire.specs.Passage.{passage};
ghost use Rattle.ffv1_reads.specs.Head.{head_of};
ghost use Rattle.ffv1_reads.specs.Writes.{Writes};
ghost use Rattle.ffv1_reads.specs.declared.fault.FileFault.TheVariants as fault;
ghost use Rattle.ffv1_matroska.specs.WrittenPlaces.{cluster_bytes, content_limit, last_place};
ghost use Rattle.ffv1_matroska.specs.Writers.{Asks, Finishes, Makes, Puts, piece};

use crate::beginning::push_bytes;
use crate::rate::{duration_of, rate_of};
use crate::track_entry::TrackEntry;
use crate::write::clusters::put_cluster;
use crate::write::cues::{cues_size, put_cues};
use crate::write::opening::{Finish, opening};
use crate::write::places::{MOST_CUES, keep_place};
use crate::write::send::send;
use crate::write::tracks::{put_tracks, tracks_size};
use ffv1_reads::{FileFault, FileHead};
use ffv1_wire::{ByteOut, PatchOut};
use std::alloc::{Allocator, Global};
use std::marker::Model;

/// The last place where a Cluster may end, from the first byte of the Segment's content.
const LAST_PLACE: u64 = (1 << 56) - (1 << 20);

/// The bytes of a Cluster beside its frame.
const CLUSTER_BYTES: u64 = 41;

/// Where Tracks begin.
const TRACKS_PLACE: u64 = 148;

/// The bytes before the Segment's content.
const SEGMENT_PLACE: u64 = 52;

/// A writer of the frames of a file.
///
/// It holds no output: each call is lent the same one. No frame is kept: beside the head it has a
/// count, where the Clusters end, and the places of at most 8192 of them, for which `new` takes
/// memory once.
#[derive(Drop)]
pub struct MatroskaWriter<A: Allocator = Global> {
    head: FileHead<A>,
    details: TrackEntry,
    count: u64,
    at: u64,
    stride: u64,
    places: Vec<u64, A>,
    failed: bool,
}

impl<A: Allocator> Model for MatroskaWriter<A> {
    ghost use Rattle.std.specs.Prelude.{◌≡◌};
    ghost use Rattle.std.specs.Vec.{vec_capacity};
    ghost use Rattle.ffv1_reads.specs.Head.{head_of};
    ghost use Rattle.ffv1_matroska.specs.Internal.Keeping.{Keeping};
    ghost use Rattle.ffv1_matroska.specs.Writers.{Writing};

    ghost Value = { Writing };

    ghost view = { λ w. record {
      head = head_of w.head;
      details = w.details;
      count = w.count;
      at = w.at;
      stride = w.stride;
      places = w.places.items;
      failed = w.failed;
    } };

    ghost invariant = { λ w. Keeping (record {
      head = head_of w.head;
      details = w.details;
      count = w.count;
      at = w.at;
      stride = w.stride;
      places = w.places.items;
      failed = w.failed;
    }) (vec_capacity w.places) (vec_capacity w.head.config_record) };
}

/// A Cluster of a frame of so many bytes, which begins at this place, would end too far.
fn is_too_far(at: u64, len: usize) -> bool
    ensures { result ≡ nat_lt last_place (at + cluster_bytes + len) }
{
    let len = len as u64;
    LAST_PLACE - CLUSTER_BYTES < len || LAST_PLACE - CLUSTER_BYTES - len < at
}

/// Writes what a frame adds to the file.
fn put_piece<W: ByteOut, A: Allocator>(
    out: &mut W,
    head: &FileHead<A>,
    details: TrackEntry,
    count: u64,
    frame: &[u8],
) -> Result<(), FileFault>
    requires record { count ≡ 0 → length head.now.config_record.items < content_limit }
    requires frame { length frame.now < content_limit }
    ensures { Writes (passage W.contents W.failures out.old out.new)
        (piece (head_of head.now) details count frame.now) result }
{
    if count == 0 {
        send(out, opening(head, None).as_slice())?;
        put_tracks(out, head, details)?;
        return put_cluster(out, 0, frame);
    }
    put_cluster(out, count, frame)
}

impl<A: Allocator> MatroskaWriter<A> {
    /// A writer of a file of this head, with such a TrackEntry. Nothing is written yet.
    ///
    /// `Rate` exactly if the rate does not come back from the whole nanoseconds of a frame, as
    /// `rate_of(duration_of(rate, scale))`; `OutOfMemory` for a copy of the configuration record,
    /// or for 8192 places: memory is taken for exactly these.
    pub fn new(
        alloc: A,
        head: &FileHead<A>,
        details: TrackEntry,
    ) -> Result<MatroskaWriter<A>, FileFault>
    where
        A: Copy,
        ensures { Makes (head_of head.now) details result }
    {
        if rate_of(duration_of(head.rate, head.scale)) != (head.rate, head.scale) {
            return Err(FileFault::Rate);
        }
        let at = TRACKS_PLACE + tracks_size(head, details);
        let mut config_record = Vec::with_capacity(alloc, head.config_record.len())?;
        push_bytes(&mut config_record, head.config_record.as_slice());
        let places = Vec::with_capacity(alloc, MOST_CUES)?;
        let head = FileHead {
            width: head.width,
            height: head.height,
            rate: head.rate,
            scale: head.scale,
            colour: head.colour,
            config_record,
        };
        Ok(MatroskaWriter {
            head,
            details,
            count: 0,
            at,
            stride: 1,
            places,
            failed: false,
        })
    }

    /// Writes the next frame: its Cluster, and before the first one all that comes before the
    /// Clusters, of a Segment of unknown size.
    ///
    /// The output has to be the same at each call. `TooLarge` if the Cluster would end more than
    /// 2^56 - 2^20 bytes after the first byte of the Segment's content: nothing is then written,
    /// and the writer is as it was. `Write` if a write failed: a beginning of the bytes was
    /// written, and each further call answers `Write` again and writes nothing. It takes no memory.
    pub fn put<W: ByteOut>(&mut self, out: &mut W, frame: &[u8]) -> Result<(), FileFault>
        ensures answer { self.old.failed ≡ false → Puts
            (passage W.contents W.failures out.old out.new) self.old frame.now self.new result }
        ensures again { self.old.failed ≡ true → (result ≡ Err fault.Write)
            × (self.new ≡ self.old) × (out.new ≡ out.old) }
        ensures few { length self.new.places ≤ 8192 }
    {
        if self.failed {
            return Err(FileFault::Write);
        }
        if is_too_far(self.at, frame.len()) {
            return Err(FileFault::TooLarge);
        }
        if put_piece(out, &self.head, self.details, self.count, frame).is_err() {
            self.failed = true;
            return Err(FileFault::Write);
        }
        self.stride = keep_place(&mut self.places, self.stride, self.count, self.at);
        self.count += 1;
        self.at += CLUSTER_BYTES + frame.len() as u64;
        Ok(())
    }

    /// Writes Cues, and then writes over all that comes before Tracks: the Segment's size, where
    /// Cues begin and how long the frames last become known. It then answers true. It answers false
    /// only if the output can't be written over, as its `patch` says: that then has all frames and
    /// Cues, and a Segment of unknown size. If no frame was put, nothing is written, and the answer
    /// is false.
    ///
    /// `Write` if a write failed: a beginning of Cues was written, or all of them and a beginning
    /// of what is written over. `Write` also if one had failed before; nothing is then written.
    pub fn finish<W: PatchOut>(self, out: &mut W) -> Result<bool, FileFault>
        ensures answer { self.failed ≡ false → 0 < self.count →
            Finishes (passage W.contents W.failures out.old out.new) self result }
        ensures asks { self.failed ≡ false → 0 < self.count → IfOk result (λ done.
            Asks W.contents W.overwrites out.old self done out.new) }
        ensures none { self.failed ≡ false → self.count ≡ 0 → (result ≡ Ok false)
            × (out.new ≡ out.old) }
        ensures again { self.failed ≡ true → (result ≡ Err fault.Write)
            × (out.new ≡ out.old) }
    {
        if self.failed {
            return Err(FileFault::Write);
        }
        if self.count == 0 {
            return Ok(false);
        }
        if put_cues(out, self.stride, self.places.as_slice()).is_err() {
            return Err(FileFault::Write);
        }
        let size = self.at + cues_size(self.places.len());
        let finish = Finish {
            size,
            cues: self.at,
            count: self.count,
        };
        let opening = opening(&self.head, Some(finish));
        match out.patch(SEGMENT_PLACE + size, opening.as_slice()) {
            Ok(done) => Ok(done),
            Err(_) => Err(FileFault::Write),
        }
    }
}
