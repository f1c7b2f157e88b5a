//! Laws of files: what is read is a file by its elements, and a file by its elements is read.

ghost use Rattle.ffv1_matroska.specs.declared.track.TrackNumbers.{TrackNumbers};
ghost use Rattle.std.specs.Prelude.{◌≡◌, ◌==◌, ◌⊎◌, ◌<◌, ◌+◌, ◌*◌, ◌^◌, ◌++◌, ℕ, List, Option};
ghost use Rattle.std.specs.Prelude.{Some, Ok};
ghost use Rattle.std.specs.Prelude.{true, false};
ghost use Rattle.std.specs.Prelude.{Err, All, [], bit_xor, length};
ghost use Rattle.ffv1_reads.specs.Head.{Head};
ghost use Rattle.ffv1_reads.specs.Reads.{EndsEarly, Met, Stop};
ghost use Rattle.ffv1_reads.specs.declared.fault.FileFault.TheVariants as fault;
ghost use Rattle.ffv1_sum.specs.Sum.{crc_of, number_of as low_number};
ghost use Rattle.ffv1_ebml.specs.Elements.{crc_ident};
ghost use Rattle.ffv1_ebml.specs.Spelled.{SaysSize};
ghost use Rattle.ffv1_matroska.specs.Begun.{ClusterBegins, EntryPasses, FieldPasses, Fits};
ghost use Rattle.ffv1_matroska.specs.Begun.{GroupBegins, HeaderBegins, IsNotWrong, LooseBegins};
ghost use Rattle.ffv1_matroska.specs.Begun.{Passes, SegmentBegins, TracksBegin, room};
ghost use Rattle.ffv1_matroska.specs.Elements.{AreTopLevel, SaysIdent, TopLevel, leaves_frames};
ghost use Rattle.ffv1_ebml.specs.Vints.{IsVint, data_of, number_of};
ghost use Rattle.ffv1_matroska.specs.Blocks.{block_read, is_unknown};
ghost use Rattle.ffv1_matroska.specs.Elements.{IsListed, IsPiece, Leaf, Single, content_text};
ghost use Rattle.ffv1_matroska.specs.Elements.{AreLeaves, Group, HasIdent, leaves_text};
ghost use Rattle.ffv1_matroska.specs.Elements.{stands_single};
ghost use Rattle.ffv1_ebml.specs.declared.sum.Sum.{Sum};
ghost use Rattle.ffv1_reads.specs.Behind.{behind_read};
ghost use Rattle.ffv1_matroska.specs.Cues.{cued_behind, cued_by, cues};
ghost use Rattle.ffv1_matroska.specs.Offsets.{element_taken};
ghost use Rattle.ffv1_matroska.specs.Places.{cluster_at, segment_at};
ghost use Rattle.ffv1_matroska.specs.Segments.{block};
ghost use Rattle.ffv1_matroska.specs.Elements.{parts_frames, pieces_frames, tops_text};
ghost use Rattle.ffv1_matroska.specs.Given.{GivesThen, GivesTo, ReadsToEnd, StopsEarly};
ghost use Rattle.ffv1_matroska.specs.MatroskaFiles.{AreBefore, FileBegins, MatroskaFile};
ghost use Rattle.ffv1_matroska.specs.MatroskaFiles.{SegmentEnds};
ghost use Rattle.ffv1_matroska.specs.Opened.{file_read, open_read};
ghost use Rattle.ffv1_matroska.specs.Opening.{doc_type};
ghost use Rattle.ffv1_matroska.specs.Places.{cluster_entered};
ghost use Rattle.ffv1_matroska.specs.Rates.{IsTimed};
ghost use Rattle.std.specs.Prelude.{Bool, None, ◌≤◌};
ghost use Rattle.ffv1_reads.specs.Reads.{read_on};
ghost use Rattle.ffv1_matroska.specs.Files.{frame_read, frames_read, more_frames};
ghost use Rattle.ffv1_matroska.specs.Places.{ended};
ghost use Rattle.ffv1_matroska.specs.Segments.{block_group, cluster, cluster_child, cluster_read};
ghost use Rattle.ffv1_matroska.specs.Segments.{is_outside};
ghost use Rattle.ffv1_matroska.specs.Tracks.{Track, entry, with_number};
ghost use Rattle.ffv1_matroska.specs.declared.place.Place.{Place};

/// A Cluster has only elements that may stand there: what is read in it, and is no BlockGroup, is a
/// SimpleBlock; Timestamp, Position or PrevSize of at most 8 bytes; SilentTracks, EncryptedBlock,
/// Void or CRC-32; and each of these may stand there. Any other is refused after its header, and
/// nothing after that is read. In a Cluster of known size one of a Segment's elements, EBML or
/// Segment is refused after its ID, whatever size it says; no element that may stand there has its
/// ID.
pub fn clusters_hold_listed_elements()
    ensures pieces { (track : TrackNumbers) (leaf : Leaf) → IsPiece track (Single leaf) →
        IsListed (number_of leaf.ident) (length (content_text leaf.content)) }
    ensures listed { (ident size : ℕ) → IsListed ident size → stands_single ident size ≡ true }
    ensures refused { (track : TrackNumbers) (ident size : ℕ) (place : Place) (rest : List ℕ) →
        (ident == block_group) ≡ false → stands_single ident size ≡ false →
        cluster_child track ident size place rest ≡ Err (Met fault.BadElement rest) }
    ensures outside { (track : TrackNumbers) (place : Place) (ident rest : List ℕ) →
        IsVint ident → length ident ≤ 4 → length ident ≤ place.cluster →
        is_outside (number_of ident) ≡ true →
        cluster_read track place (ident ++ rest) ≡ Err (Met fault.BadElement rest) }
    ensures apart { (ident size : ℕ) → IsListed ident size → is_outside ident ≡ false }
{}

/// A BlockGroup has a Block: each of a file that is read has one. One that ends without one may be
/// a frame whose Block's ID was changed; it is refused at its end, and its place is its first byte,
/// since it is read up to its first Block as one element, in a Cluster of known size and in one of
/// unknown size. The frames before it are given, one by one.
pub fn groups_have_a_block()
    ensures pieces { (track : TrackNumbers) (ident size : List ℕ) (leaves : List Leaf) →
        IsPiece track (Group ident size leaves) → HasIdent block leaves }
    ensures refused { (track : TrackNumbers) (base : Place) (left : ℕ) (sum : Sum)
        (ident size : List ℕ) (leaves : List Leaf) (rest : List ℕ) →
        SaysIdent ident block_group → SaysSize size (Some (length (leaves_text leaves))) →
        length (ident ++ size) + length (leaves_text leaves) ≤ left →
        AreLeaves block track leaves → (HasIdent block leaves → ⊥) →
        element_taken track (cluster_at base left sum)
        ((ident ++ size) ++ (leaves_text leaves ++ rest)) ≡ Err (Met fault.BadElement rest) }
    ensures loose { (track : TrackNumbers) (base : Place) (left : ℕ) (ident size : List ℕ)
        (leaves : List Leaf) (rest : List ℕ) → SaysIdent ident block_group →
        SaysSize size (Some (length (leaves_text leaves))) →
        length (ident ++ size) + length (leaves_text leaves) ≤ left →
        AreLeaves block track leaves → (HasIdent block leaves → ⊥) →
        element_taken track (segment_at base true left)
        ((ident ++ size) ++ (leaves_text leaves ++ rest)) ≡ Err (Met fault.BadElement rest) }
    ensures given { (file text : List ℕ) (track : Track) (left : ℕ) (rest : List ℕ)
        (b : ClusterBegins file track left text) (g : GroupBegins text track.numbers left 0 rest) →
        (HasIdent block g.leaves → ⊥) →
        GivesThen file track.head (parts_frames b.segment.parts ++ pieces_frames b.pieces)
        (Met fault.BadElement rest) }
{}

/// A block is of a track that Tracks have: one whose number is that of no entry is refused after
/// the number, and nothing after that is read; those above 127 are refused if no entry has one
/// above that. The number of an entry is known once it was added.
pub fn blocks_are_of_known_tracks()
    ensures refused { (track : TrackNumbers) (size : ℕ) (place : Place) (number rest : List ℕ) →
        IsVint number → length number ≤ 8 → length number ≤ size →
        (data_of number ≡ track.number → ⊥) →
        is_unknown track.known (data_of number) ≡ true →
        block_read track size place (number ++ rest) ≡ Err (Met fault.BadElement rest) }
    ensures added { (known number : ℕ) → is_unknown (with_number known number) number ≡ false }
{}

/// Frame rates that are read back as they were written: 24, 25, 30, 50 and 60 a second, those times
/// 1000/1001 of 24, 30 and 60, and what some programs say of the last three, 23976 and 24975 in
/// 1000 seconds, 2997 and 5994 in 100.
pub fn usual_rates_are_read_back()
    ensures film { IsTimed (record { rate = 24; scale = 1 }) }
    ensures pal { IsTimed (record { rate = 25; scale = 1 }) }
    ensures thirty { IsTimed (record { rate = 30; scale = 1 }) }
    ensures fifty { IsTimed (record { rate = 50; scale = 1 }) }
    ensures sixty { IsTimed (record { rate = 60; scale = 1 }) }
    ensures slow_film { IsTimed (record { rate = 24000; scale = 1001 }) }
    ensures ntsc { IsTimed (record { rate = 30000; scale = 1001 }) }
    ensures fields { IsTimed (record { rate = 60000; scale = 1001 }) }
    ensures film_said { IsTimed (record { rate = 23976; scale = 1000 }) }
    ensures pal_said { IsTimed (record { rate = 24975; scale = 1000 }) }
    ensures ntsc_said { IsTimed (record { rate = 2997; scale = 100 }) }
    ensures fields_said { IsTimed (record { rate = 5994; scale = 100 }) }
{}

/// The frames of a track are the next one and those after it; at the end there is none, and nothing
/// is read.
pub fn frames_come_in_turn()
    ensures next { (track : TrackNumbers) (place : Place) (text : List ℕ) →
        frames_read track place text
        ≡ read_on (frame_read track place text) (more_frames (frames_read track)) }
    ensures end { (track : TrackNumbers) (text : List ℕ) →
        frame_read track ended text ≡ Ok (None, text) }
{}

/// A file of a head and frames, by its elements, is read as that head and those frames, and it
/// has no others.
pub fn file_is_read_as_its_frames()
    ensures read { (file : List ℕ) (head : Head) (frames : List (List ℕ))
        (is : MatroskaFile file head frames) → file_read file ≡ Ok ((head, frames), is.rest) }
    ensures only { (file : List ℕ) (head other : Head) (frames others : List (List ℕ)) →
        MatroskaFile file head frames → MatroskaFile file other others →
        (head ≡ other) × (frames ≡ others) }
{}

/// If a Cluster comes before any Tracks, or the Segment ends, the file has no Tracks, and nothing
/// after the header of the Cluster, or after the Segment, is read.
pub fn file_without_tracks_is_refused()
    ensures cluster { (file : List ℕ) (size : Option ℕ) (before : List TopLevel)
        (ident said rest : List ℕ) (known : Option ℕ) →
        FileBegins file size (tops_text before ++ ((ident ++ said) ++ rest)) →
        AreTopLevel before → AreBefore before → SaysIdent ident cluster → SaysSize said known →
        Fits (room size) (tops_text before ++ (ident ++ said)) known →
        open_read file ≡ Err (Met fault.NoTracks rest) }
    ensures end { (file : List ℕ) (size : Option ℕ) (before : List TopLevel) (rest : List ℕ) →
        FileBegins file size (tops_text before ++ rest) → AreTopLevel before → AreBefore before →
        SegmentEnds size (length (tops_text before)) rest →
        open_read file ≡ Err (Met fault.NoTracks rest) }
{}

/// An element that passes what it stands in is truncated, and nothing after its header is read: in
/// the Segment, before the first Tracks and after them; in a Cluster of known size, if it is none
/// of a Segment's elements, EBML or Segment; and in a BlockGroup of a Cluster. The frames before it
/// are given, one by one. In the header of EBML, in Tracks and in a TrackEntry, which are in
/// memory, it is met if what is looked for first does not stand before it, and nothing after the
/// header or Tracks is read. A file that is so refused is not read as a whole file.
pub fn long_element_is_truncated()
    ensures before { (file : List ℕ) (size : Option ℕ) (before : List TopLevel) (left : ℕ)
        (ident said rest : List ℕ) →
        FileBegins file size (tops_text before ++ ((ident ++ said) ++ rest)) →
        AreTopLevel before → AreBefore before → room size ≡ length (tops_text before) + left →
        Passes left ident said → open_read file ≡ Err (Met fault.Truncated rest) }
    ensures segment { (file : List ℕ) (track : Track) (left : ℕ) (ident said rest : List ℕ)
        (b : SegmentBegins file track left ((ident ++ said) ++ rest)) → Passes left ident said →
        GivesThen file track.head (parts_frames b.parts) (Met fault.Truncated rest) }
    ensures cluster { (file : List ℕ) (track : Track) (left : ℕ) (ident said rest : List ℕ)
        (b : ClusterBegins file track left ((ident ++ said) ++ rest)) → Passes left ident said →
        is_outside (number_of ident) ≡ false →
        GivesThen file track.head (parts_frames b.segment.parts ++ pieces_frames b.pieces)
        (Met fault.Truncated rest) }
    ensures group { (file text : List ℕ) (track : Track) (left more : ℕ)
        (ident said rest : List ℕ) (b : ClusterBegins file track left text)
        (g : GroupBegins text track.numbers left more ((ident ++ said) ++ rest)) →
        Passes more ident said → GivesThen file track.head
        ((parts_frames b.segment.parts ++ pieces_frames b.pieces) ++ leaves_frames g.leaves)
        (Met fault.Truncated rest) }
    ensures loose_group { (file text : List ℕ) (track : Track) (left more : ℕ)
        (ident said rest : List ℕ) (b : LooseBegins file track left text)
        (g : GroupBegins text track.numbers left more ((ident ++ said) ++ rest)) →
        Passes more ident said → GivesThen file track.head
        ((parts_frames b.segment.parts ++ pieces_frames b.pieces) ++ leaves_frames g.leaves)
        (Met fault.Truncated rest) }
    ensures refused { (file : List ℕ) (head : Head) (frames : List (List ℕ)) (why : Stop) →
        GivesThen file head frames why → file_read file ≡ Err why }
    ensures header { (file header rest : List ℕ) → HeaderBegins file header rest →
        FieldPasses header doc_type → IsNotWrong header →
        open_read file ≡ Err (Met fault.Truncated rest) }
    ensures tracks { (file content rest : List ℕ) → TracksBegin file content rest →
        FieldPasses content entry → IsNotWrong content →
        open_read file ≡ Err (Met fault.Truncated rest) }
    ensures track_entry { (file content rest : List ℕ) → TracksBegin file content rest →
        EntryPasses content → IsNotWrong content →
        open_read file ≡ Err (Met fault.Truncated rest) }
{}

/// A Cluster that begins with a CRC-32, and of which frames are given up to its end, has the sum
/// that is stated. So bytes after its CRC-32 that were changed only within 32 neighbouring bits,
/// each byte's low bit first, are never read to its end.
pub fn read_cluster_has_its_stated_sum()
    ensures sum { (track : TrackNumbers) (place after : Place)
        (ident size stated content rest left : List ℕ)
        (frames : List (List ℕ)) → SaysIdent ident crc_ident → SaysSize size (Some 4) →
        length stated ≡ 4 → GivesTo track
        (cluster_entered place (length ((ident ++ size) ++ (stated ++ content))))
        (((ident ++ size) ++ (stated ++ content)) ++ rest) frames after left →
        ReadsToEnd track place after left → low_number stated ≡ crc_of content }
    ensures damage { (track : TrackNumbers) (place after : Place)
        (ident size stated content changed rest left : List ℕ) (frames : List (List ℕ))
        (bits at : ℕ) → SaysIdent ident crc_ident → SaysSize size (Some 4) → length stated ≡ 4 →
        low_number stated ≡ crc_of content → All (λ b. b < 256) content →
        All (λ b. b < 256) changed → length content ≡ length changed → 0 < bits →
        bits < 2 ^ 32 → bit_xor (low_number content) (low_number changed) ≡ bits * 2 ^ at →
        GivesTo track (cluster_entered place (length ((ident ++ size) ++ (stated ++ changed))))
        (((ident ++ size) ++ (stated ++ changed)) ++ rest) frames after left →
        ReadsToEnd track place after left → ⊥ }
{}

/// Of a beginning of a file whose Segment's size is known, up to the end of the Segment, some of
/// the first frames are given, one by one, and then more bytes are wanted. A beginning of one whose
/// size is unknown ends so too, or has no Tracks, or is read as some of the first frames: nothing
/// says then that it was cut.
pub fn shorter_file_gives_first_frames()
    ensures known { (file : List ℕ) (head : Head) (frames : List (List ℕ))
        (is : MatroskaFile file head frames) (size : ℕ) (beginning more : List ℕ) →
        is.size ≡ Some size → file ≡ (beginning ++ more) ++ is.rest → 0 < length more →
        StopsEarly beginning head frames }
    ensures unknown { (file : List ℕ) (head : Head) (frames : List (List ℕ))
        (is : MatroskaFile file head frames) (beginning more : List ℕ) →
        file ≡ (beginning ++ more) ++ is.rest → 0 < length more →
        StopsEarly beginning head frames
        ⊎ ((open_read beginning ≡ Err (Met fault.NoTracks []))
        ⊎ ((some others : List (List ℕ)) × (frames ≡ some ++ others)
        × (file_read beginning ≡ Ok ((head, some), [])))) }
    ensures early { (beginning : List ℕ) (head : Head) (frames : List (List ℕ)) →
        StopsEarly beginning head frames → EndsEarly file_read beginning }
{}

/// What is read is a file of that head and those frames, by its elements, and what is left is what
/// comes after its Segment.
pub fn what_is_read_is_a_file()
    ensures { (file : List ℕ) (head : Head) (frames : List (List ℕ)) (rest : List ℕ) →
        file_read file ≡ Ok ((head, frames), rest) →
        (is : MatroskaFile file head frames) × (is.rest ≡ rest) }
{}

/// If nothing is found behind a file whose frames were read, it ends there: it is a file of that
/// head and those frames, by its elements, and nothing comes after its Segment.
pub fn nothing_stands_behind_a_file()
    ensures { (file : List ℕ) (head : Head) (frames : List (List ℕ)) (rest after : List ℕ) →
        file_read file ≡ Ok ((head, frames), rest) → behind_read rest ≡ Ok (false, after) →
        (is : MatroskaFile file head frames) × (is.rest ≡ []) }
{}

/// Whether Cues came after the last Cluster is told by the IDs of a Segment's elements, in order: a
/// Cluster comes after all Cues before it, Cues come after it, and any other element changes
/// nothing. Nor does an element in a Cluster of known size or in a BlockGroup.
pub fn cues_are_told_by_their_ids()
    ensures sized { (base : Place) (loose cued : Bool) (ident size rest : List ℕ)
        (known left : ℕ) → IsVint ident → length ident ≤ 4 → SaysSize size (Some known) →
        cued_behind (segment_at base loose (length (ident ++ size) + (known + left)))
        ((ident ++ size) ++ rest) cued ≡ cued_by (number_of ident) cued }
    ensures unknown { (base : Place) (loose cued : Bool) (ident size rest : List ℕ) (left : ℕ) →
        IsVint ident → length ident ≤ 4 → SaysSize size None →
        cued_behind (segment_at base loose (length (ident ++ size) + left))
        ((ident ++ size) ++ rest) cued ≡ cued_by (number_of ident) cued }
    ensures cluster { (cued : Bool) → cued_by cluster cued ≡ false }
    ensures cues { (cued : Bool) → cued_by cues cued ≡ true }
    ensures others { (ident : ℕ) (cued : Bool) → (ident == cluster) ≡ false →
        (ident == cues) ≡ false → cued_by ident cued ≡ cued }
    ensures inside { (place : Place) (text : List ℕ) (cued : Bool) →
        0 < place.cluster + place.group → cued_behind place text cued ≡ cued }
{}
