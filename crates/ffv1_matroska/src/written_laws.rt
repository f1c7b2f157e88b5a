//! Laws of files that are written.

ghost use Rattle.std.specs.Prelude.{◌≡◌, ◌⊎◌, ◌<◌, ◌≤◌, ◌+◌, ◌*◌, ◌^◌, ◌++◌, ◌∷◌, [], ℕ, All};
ghost use Rattle.std.specs.Prelude.{Err, List, Ok, Option, Some, drop, false, length, slice_index};
ghost use Rattle.std.specs.Prelude.{slice_index_or, take, true};
ghost use Rattle.ffv1_wire.specs.Passage.{between};
ghost use Rattle.ffv1_wire.specs.Patches.{patched};
ghost use Rattle.ffv1_reads.specs.Head.{Head};
ghost use Rattle.ffv1_reads.specs.declared.fault.FileFault.TheVariants as fault;
ghost use Rattle.ffv1_ebml.specs.Contents.{content_told};
ghost use Rattle.ffv1_ebml.specs.Spelled.{ident_bytes, long};
ghost use Rattle.ffv1_matroska.specs.MatroskaFiles.{MatroskaFile};
ghost use Rattle.ffv1_matroska.specs.Opened.{file_read, tracks};
ghost use Rattle.ffv1_matroska.specs.Opening.{segment};
ghost use Rattle.ffv1_matroska.specs.Writers.{Finishes, Puts, Writing, cues_in, file_bytes};
ghost use Rattle.ffv1_matroska.specs.Writers.{finished_opening, piece_of, writing_of};
ghost use Rattle.ffv1_matroska.specs.Written.{begun_of, checked, cluster_content, cluster_element};
ghost use Rattle.ffv1_matroska.specs.Written.{cue_element, cues_element, cues_from, entry_element};
ghost use Rattle.ffv1_matroska.specs.Written.{finish_of, finished_of, first_place, info_content};
ghost use Rattle.ffv1_matroska.specs.Written.{open_of, opening, seek_element, seeks, short_element};
ghost use Rattle.ffv1_matroska.specs.Written.{tracks_element};
ghost use Rattle.ffv1_matroska.specs.WrittenFiles.{IsWritable, StandsAt};
ghost use Rattle.ffv1_matroska.specs.Written.{cue_places};
ghost use Rattle.ffv1_matroska.specs.WrittenIdents.{cues, info};
ghost use Rattle.ffv1_matroska.specs.WrittenPlaces.{places_from, stride_of};
ghost use Rattle.ffv1_matroska.specs.declared.track_entry.TrackEntry.{TrackEntry};
ghost use Rattle.ffv1_matroska.specs.declared.write.opening.Finish.{Finish};

/// What a writer's calls write one after the other is the file that is begun, of these frames. With
/// what the last call writes it is the open file. That is the whole file once the finished opening
/// is written over it, from so many bytes before its end on as it has. Both openings have 200
/// bytes.
pub fn writes_make_up_the_file()
    ensures none { (head : Head) (details : TrackEntry) → begun_of head details [] ≡ [] }
    ensures more { (head : Head) (details : TrackEntry) (frames : List (List ℕ)) (frame : List ℕ) →
        begun_of head details (frames ++ frame ∷ [])
        ≡ begun_of head details frames ++ piece_of (writing_of head details frames) frame }
    ensures open { (head : Head) (details : TrackEntry) (frames : List (List ℕ)) →
        0 < length frames →
        begun_of head details frames ++ cues_in (writing_of head details frames)
        ≡ open_of head details frames }
    ensures whole { (head : Head) (details : TrackEntry) (frames : List (List ℕ)) →
        file_bytes (writing_of head details frames) ≡ length (open_of head details frames) }
    ensures over { (head : Head) (details : TrackEntry) (frames : List (List ℕ)) →
        patched (open_of head details frames) 0 (finished_opening (writing_of head details frames))
        ≡ finished_of head details frames }
    ensures openings { (head : Head) (finish : Option Finish) →
        length (opening head finish) ≡ 200 }
{}

/// Each CRC-32 that is written is right, if the record and the frames are bytes: in SeekHead, Info,
/// Tracks, each Cluster and Cues, as any content after its CRC-32 is judged.
pub fn written_sums_are_right()
    ensures any { (content : List ℕ) → All (λ b. b < 256) content →
        content_told (checked content) ≡ Ok tt }
    ensures seek_head { (finish : Option Finish) → content_told (checked (seeks finish)) ≡ Ok tt }
    ensures info { (head : Head) (finish : Option Finish) →
        content_told (checked (info_content head finish)) ≡ Ok tt }
    ensures tracks { (head : Head) (details : TrackEntry) → All (λ b. b < 256) head.config_record →
        content_told (checked (entry_element head details)) ≡ Ok tt }
    ensures cluster { (number : ℕ) (frame : List ℕ) → All (λ b. b < 256) frame →
        content_told (checked (cluster_content number frame)) ≡ Ok tt }
    ensures cues { (stride : ℕ) (places : List ℕ) →
        content_told (checked (cues_from 0 stride places)) ≡ Ok tt }
{}

/// What is written of a head and frames that can be read back is a file of them, by its elements,
/// and is read so to its last byte: the whole file, the open one, and the one that is begun.
pub fn written_file_is_read_back()
    ensures finished { (head : Head) (details : TrackEntry) (frames : List (List ℕ)) →
        IsWritable head details frames → MatroskaFile (finished_of head details frames) head frames
        × (file_read (finished_of head details frames) ≡ Ok ((head, frames), [])) }
    ensures open { (head : Head) (details : TrackEntry) (frames : List (List ℕ)) →
        IsWritable head details frames → MatroskaFile (open_of head details frames) head frames
        × (file_read (open_of head details frames) ≡ Ok ((head, frames), [])) }
    ensures begun { (head : Head) (details : TrackEntry) (frames : List (List ℕ)) →
        0 < length frames →
        IsWritable head details frames → MatroskaFile (begun_of head details frames) head frames
        × (file_read (begun_of head details frames) ≡ Ok ((head, frames), [])) }
{}

/// In the whole file each place that is named is right. The size of the Segment is what comes after
/// its header. SeekHead says where Info, Tracks and Cues begin, from the first byte of the
/// Segment's content, and there they stand. The Clusters stand one after the other, and each cue of
/// Cues says where the Cluster of its number stands.
pub fn named_places_are_right()
    ensures segment { (head : Head) (details : TrackEntry) (frames : List (List ℕ)) →
        StandsAt (finished_of head details frames) 40
        (ident_bytes segment ++ long (finish_of head details frames).size) }
    ensures size { (head : Head) (details : TrackEntry) (frames : List (List ℕ)) →
        length (drop 52 (finished_of head details frames)) ≡ (finish_of head details frames).size }
    ensures seeks { (head : Head) (details : TrackEntry) (frames : List (List ℕ)) →
        StandsAt (finished_of head details frames) 63
        (seek_element info 74 ++ seek_element tracks 148
        ++ seek_element cues (finish_of head details frames).cues) }
    ensures info { (head : Head) (details : TrackEntry) (frames : List (List ℕ)) →
        StandsAt (finished_of head details frames) (52 + 74)
        (short_element info
        (checked (info_content head (Some (finish_of head details frames))))) }
    ensures tracks { (head : Head) (details : TrackEntry) (frames : List (List ℕ)) →
        StandsAt (finished_of head details frames) (52 + 148) (tracks_element head details) }
    ensures cues { (head : Head) (details : TrackEntry) (frames : List (List ℕ)) →
        StandsAt (finished_of head details frames) (52 + (finish_of head details frames).cues)
        (cues_element (stride_of (length frames)) (cue_places head details frames)) }
    ensures cluster { (head : Head) (details : TrackEntry) (frames : List (List ℕ)) (i : ℕ) →
        i < length frames → StandsAt (finished_of head details frames)
        (52 + slice_index (places_from (first_place head details) frames) i)
        (cluster_element i (slice_index_or frames i [])) }
    ensures cue { (head : Head) (details : TrackEntry) (frames : List (List ℕ)) (k : ℕ) →
        k < length (cue_places head details frames) → StandsAt (finished_of head details frames)
        (52 + (finish_of head details frames).cues + (18 + 27 * k))
        (cue_element (k * stride_of (length frames))
        (slice_index (cue_places head details frames) k)) }
    ensures cued { (head : Head) (details : TrackEntry) (frames : List (List ℕ)) (k : ℕ) →
        k < length (cue_places head details frames) → StandsAt (finished_of head details frames)
        (52 + slice_index (cue_places head details frames) k)
        (cluster_element (k * stride_of (length frames))
        (slice_index_or frames (k * stride_of (length frames)) [])) }
{}

/// At most 8192 Clusters have a cue, of fewer than 2^56. The stride is a power of two, and half of
/// it would be too little.
pub fn few_clusters_have_a_cue()
    ensures few { (head : Head) (details : TrackEntry) (frames : List (List ℕ)) →
        length frames < 2 ^ 56 → length (cue_places head details frames) ≤ 8192 }
    ensures power { (count : ℕ) → (k : ℕ) × (stride_of count ≡ 2 ^ k) }
    ensures least { (count : ℕ) → (stride_of count ≡ 1)
        ⊎ (8192 * stride_of count < 2 * count) }
{}

/// An output that held nothing before the first frame, and whose bytes are known, holds the file
/// that is begun of the frames that were put. After a write that failed it holds a beginning of
/// that, and at the end the whole file, or the open one.
pub fn known_output_holds_the_file()
    ensures put { (head : Head) (details : TrackEntry) (frames : List (List ℕ)) (frame : List ℕ)
        (new : Option (List ℕ)) (m n : ℕ) (w : Writing) →
        Puts (between (Some (begun_of head details frames)) new m n)
        (writing_of head details frames) frame w (Ok tt) →
        (new ≡ Some (begun_of head details (frames ++ frame ∷ [])))
        × (w ≡ writing_of head details (frames ++ frame ∷ [])) }
    ensures failed { (head : Head) (details : TrackEntry) (frames : List (List ℕ)) (frame : List ℕ)
        (new : Option (List ℕ)) (m n : ℕ) (w : Writing) →
        Puts (between (Some (begun_of head details frames)) new m n)
        (writing_of head details frames) frame w (Err fault.Write) →
        (k : ℕ) × (k < length (begun_of head details (frames ++ frame ∷ [])))
        × (new ≡ Some (take k (begun_of head details (frames ++ frame ∷ [])))) }
    ensures finished { (head : Head) (details : TrackEntry) (frames : List (List ℕ))
        (new : Option (List ℕ)) (m n : ℕ) → 0 < length frames →
        Finishes (between (Some (begun_of head details frames)) new m n)
        (writing_of head details frames) (Ok true) → new ≡ Some (finished_of head details frames) }
    ensures open { (head : Head) (details : TrackEntry) (frames : List (List ℕ))
        (new : Option (List ℕ)) (m n : ℕ) → 0 < length frames →
        Finishes (between (Some (begun_of head details frames)) new m n)
        (writing_of head details frames) (Ok false) → new ≡ Some (open_of head details frames) }
{}
