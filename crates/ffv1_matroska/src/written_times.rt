//! Laws of the times of frames in files that are written, and of the end of their Segment.

ghost use Rattle.std.specs.Prelude.{◌<◌, ℕ, List, Option, Some, None, false, true, length};
ghost use Rattle.ffv1_reads.specs.Head.{Head};
ghost use Rattle.ffv1_matroska.specs.Written.{begun_of, finish_of, finished_of, open_of};
ghost use Rattle.ffv1_matroska.specs.WrittenFiles.{IsWritable};
ghost use Rattle.ffv1_matroska.specs.WrittenTimes.{ComeInTime, EndsWhole};
ghost use Rattle.ffv1_matroska.specs.declared.track_entry.TrackEntry.{TrackEntry};

/// In what is written of a head and frames that can be read back, no frame comes too early or too
/// late, whatever the rate of the head, and if it has none: in the whole file, in the open one, and
/// in the one that is begun. A writer writes nothing before its first frame, so there is one.
pub fn written_frames_come_in_time()
    ensures finished { (head : Head) (details : TrackEntry) (frames : List (List ℕ)) →
        0 < length frames →
        IsWritable head details frames → ComeInTime (finished_of head details frames) }
    ensures open { (head : Head) (details : TrackEntry) (frames : List (List ℕ)) →
        0 < length frames →
        IsWritable head details frames → ComeInTime (open_of head details frames) }
    ensures begun { (head : Head) (details : TrackEntry) (frames : List (List ℕ)) →
        0 < length frames →
        IsWritable head details frames → ComeInTime (begun_of head details frames) }
{}

/// It is read to its last byte, and has one track of FFV1 video. The Segment of the whole file has
/// its size. That of the open file has none, and Cues come after its last Cluster; that of the one
/// that is begun has none, and no Cues come there.
pub fn written_segment_is_read_to_its_end()
    ensures finished { (head : Head) (details : TrackEntry) (frames : List (List ℕ)) →
        0 < length frames →
        IsWritable head details frames → EndsWhole (finished_of head details frames)
        (Some (finish_of head details frames).size) true }
    ensures open { (head : Head) (details : TrackEntry) (frames : List (List ℕ)) →
        0 < length frames →
        IsWritable head details frames → EndsWhole (open_of head details frames) None true }
    ensures begun { (head : Head) (details : TrackEntry) (frames : List (List ℕ)) →
        0 < length frames →
        IsWritable head details frames → EndsWhole (begun_of head details frames) None false }
{}
