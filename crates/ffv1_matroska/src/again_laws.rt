//! Laws of files whose Tracks may stand anywhere in the Segment: what is read is a file by its
//! elements, a file by its elements is read, and where its Tracks stand makes no difference.

ghost use Rattle.std.specs.Prelude.{◌≡◌, ◌≢◌, ◌++◌, ◌∷◌, ℕ, List, Ok, Err};
ghost use Rattle.ffv1_reads.specs.Head.{Head};
ghost use Rattle.ffv1_reads.specs.Reads.{Met, Short, Want};
ghost use Rattle.ffv1_reads.specs.declared.fault.FileFault.{FileFault};
ghost use Rattle.ffv1_reads.specs.declared.fault.FileFault.TheVariants as fault;
ghost use Rattle.ffv1_ebml.specs.Vints.{number_of};
ghost use Rattle.ffv1_matroska.specs.Elements.{Part, Top, TopLevel};
ghost use Rattle.ffv1_matroska.specs.Late.{again_read, file_again_read, late_read};
ghost use Rattle.ffv1_matroska.specs.MatroskaFiles.{MatroskaFile};
ghost use Rattle.ffv1_matroska.specs.Opened.{Opened, open_read, tracks};
ghost use Rattle.ffv1_matroska.specs.SegmentFiles.{HaveNoTracks, SegmentFile};

/// A file by its elements is read as its head and its frames, wherever its Tracks stand, and it has
/// no others. One whose Tracks stand before its first Cluster is such a file.
pub fn file_is_read_wherever_its_tracks_stand()
    ensures read { (file : List ℕ) (head : Head) (frames : List (List ℕ))
        (is : SegmentFile file head frames) →
        file_again_read file ≡ Ok ((head, frames), is.rest) }
    ensures only { (file : List ℕ) (head other : Head) (frames others : List (List ℕ)) →
        SegmentFile file head frames → SegmentFile file other others →
        (head ≡ other) × (frames ≡ others) }
    ensures before { (file : List ℕ) (head : Head) (frames : List (List ℕ))
        (is : MatroskaFile file head frames) →
        (all : SegmentFile file head frames) × (all.rest ≡ is.rest) }
{}

/// What is read is a file of that head and those frames, by its elements, and what is left is what
/// comes after its Segment.
pub fn what_is_read_again_is_a_file()
    ensures { (file : List ℕ) (head : Head) (frames : List (List ℕ)) (rest : List ℕ) →
        file_again_read file ≡ Ok ((head, frames), rest) →
        (is : SegmentFile file head frames) × (is.rest ≡ rest) }
{}

/// Two files whose parts differ only in where the first Tracks stand have one head and the same
/// frames.
pub fn tracks_may_stand_anywhere()
    ensures { (file other : List ℕ) (head also : Head) (frames others : List (List ℕ))
        (is : SegmentFile file head frames) (moved : SegmentFile other also others)
        (before between after : List Part) (t : TopLevel) →
        is.parts ≡ before ++ (Top t ∷ (between ++ after)) →
        moved.parts ≡ before ++ (between ++ (Top t ∷ after)) →
        number_of t.ident ≡ tracks → HaveNoTracks before → HaveNoTracks between →
        (head ≡ also) × (frames ≡ others) }
{}

/// A file is read once, unless its first Cluster, or the end of its Segment, comes before any
/// Tracks: what it opens as, and any other fault, is that of one reading.
pub fn other_files_are_read_once()
    ensures opened { (text rest : List ℕ) (o : Opened) → open_read text ≡ Ok (o, rest) →
        again_read text ≡ Ok (o, rest) }
    ensures short { (text : List ℕ) (w : Want) → open_read text ≡ Err (Short w) →
        again_read text ≡ Err (Short w) }
    ensures fault { (text rest : List ℕ) (f : FileFault) → open_read text ≡ Err (Met f rest) →
        f ≢ fault.NoTracks → again_read text ≡ Err (Met f rest) }
    ensures late { (text rest : List ℕ) → open_read text ≡ Err (Met fault.NoTracks rest) →
        again_read text ≡ late_read text }
{}
