//! Laws of files: what is read is a file by its chunks, a file by its chunks is read, and what was
//! written is read back.

ghost use Rattle.std.specs.Prelude.{◌≡◌, ◌<◌, ◌≤◌, ◌+◌, ◌++◌, ℕ, List, codes, length, []};
ghost use Rattle.std.specs.Prelude.{false, flat_map, take, true, Option, Some, None};
ghost use Rattle.std.specs.Prelude.{Ok, Err, ◌∷◌, ◌-◌, ◌⊎◌};
ghost use Rattle.byteorder.specs.Endian.{little_number};
ghost use Rattle.ffv1_avi.specs.Chunks.{AreChunks, AreOthers, AviFile, Chunk, IsWritable};
ghost use Rattle.ffv1_avi.specs.Chunks.{MoviBegins, Part, header_chunks, is_list};
ghost use Rattle.ffv1_avi.specs.Chunks.{Passes, barred_in, chunks_text, frame_in, is_named};
ghost use Rattle.ffv1_avi.specs.Chunks.{streams, those};
ghost use Rattle.ffv1_avi.specs.Begun.{AreReadable, HasShortFormat, HeaderBegins, RiffBegins};
ghost use Rattle.ffv1_avi.specs.Begun.{StreamBegins, streams_of};
ghost use Rattle.ffv1_avi.specs.Files.{file_read, open_read, frame_read, frames_read, more_frames};
ghost use Rattle.ffv1_avi.specs.Behind.{EndsBehind, IsOver, RiffFileThen};
ghost use Rattle.ffv1_reads.specs.Behind.{begins_file};
ghost use Rattle.ffv1_reads.specs.Head.{Head, without_colour};
ghost use Rattle.ffv1_reads.specs.Offsets.{ReadsWhole};
ghost use Rattle.ffv1_avi.specs.Names.{IsFrameName, IsListed, bars, is_barred, is_frame};
ghost use Rattle.ffv1_avi.specs.Offsets.{BeforeFrames, ReadsUpTo, Start, chunk_taken, movi_left};
ghost use Rattle.ffv1_avi.specs.Offsets.{spot_taken};
ghost use Rattle.ffv1_avi.specs.OpenEdges.{IsFurther, IsNearOpen, IsPieceEdge, frames_before};
ghost use Rattle.ffv1_avi.specs.OpenEdges.{frames_sized};
ghost use Rattle.ffv1_avi.specs.OpenFiles.{OpenFile, Piece, pieces_text};
ghost use Rattle.ffv1_avi.specs.Padding.{padded};
ghost use Rattle.ffv1_avi.specs.Places.{ended, extent_of, first_place, frame_at, is_open};
ghost use Rattle.ffv1_reads.specs.Reads.{EndsEarly, Looked, Met, Short, Stop, read_on};
ghost use Rattle.ffv1_avi.specs.Counted.{AreCounted, ExtendedBegins, HasExtended};
ghost use Rattle.ffv1_avi.specs.Edges.{GivesThen, IsNearEdge, frames_to};
ghost use Rattle.ffv1_avi.specs.Riffs.{Riff, RiffFile, riffs_text, total};
ghost use Rattle.ffv1_avi.specs.Walk.{is_known, is_name};
ghost use Rattle.ffv1_avi.specs.Written.{file_of};
ghost use Rattle.ffv1_reads.specs.declared.fault.FileFault.TheVariants as fault;
ghost use Rattle.ffv1_avi.specs.declared.place.Extent.TheVariants.{FirstMovi, EveryRiff};
ghost use Rattle.ffv1_avi.specs.declared.place.Names.TheVariants.{Any, Closed};
ghost use Rattle.ffv1_avi.specs.declared.place.Open.TheVariants.{Sized};
ghost use Rattle.ffv1_avi.specs.declared.place.Place.{Place};

/// The frames are the next one and those after it; at the end there is none, and nothing is read.
pub fn frames_come_in_turn()
    ensures next { (place : Place) (text : List ℕ) →
        frames_read place text ≡ read_on (frame_read place text) (more_frames frames_read) }
    ensures end { (text : List ℕ) → frame_read ended text ≡ Ok (None, text) }
{}

/// What is read is a file of that head and those frames, by its chunks.
pub fn what_is_read_is_a_file()
    ensures { (file : List ℕ) (head : Head) (frames : List (List ℕ)) (rest : List ℕ) →
        file_read FirstMovi file ≡ Ok ((head, frames), rest) → AviFile file head frames }
{}

/// If every RIFF is read and the frames come to an end, the input begins with a file of that head
/// and those frames, and after it stand bytes with which neither an RIFF nor another file begins,
/// or none. Each chunk of the stream's frames, in every movi of every RIFF, was given, in order.
/// Or an RIFF, or the first movi, has no size; then the file is all of the input.
pub fn every_riff_is_read_whole()
    ensures { (file : List ℕ) (head : Head) (frames : List (List ℕ)) (rest : List ℕ) →
        file_read EveryRiff file ≡ Ok ((head, frames), rest) →
        RiffFileThen file head frames rest
        ⊎ (OpenFile file head frames × (rest ≡ [])) }
{}

/// A beginning of a file that is read, up to the end of `movi`, ends when more bytes are wanted.
pub fn shorter_file_wants_more_bytes()
    ensures { (file : List ℕ) (head : Head) (frames : List (List ℕ)) (is : AviFile file head frames)
        (beginning more : List ℕ) → file ≡ (beginning ++ more) ++ is.rest → 0 < length more →
        EndsEarly (file_read FirstMovi) beginning }
{}

/// A beginning of a file of which every RIFF is read ends when more bytes are wanted, except at the
/// edge of an RIFF, or after fewer than twelve bytes of it. There the frames of the RIFFs before it
/// are read, if they are not fewer than `dmlh` says. Otherwise they are given, one by one, and then
/// more bytes are wanted.
pub fn shorter_riffs_want_more_bytes()
    ensures within { (file : List ℕ) (head : Head) (frames : List (List ℕ))
        (is : RiffFile file head frames) (beginning more : List ℕ) → file ≡ beginning ++ more →
        (IsNearEdge is.riffs more → ⊥) → EndsEarly (file_read EveryRiff) beginning }
    ensures edge { (file : List ℕ) (head : Head) (frames : List (List ℕ))
        (is : RiffFile file head frames) (before after : List Riff) (beginning : List ℕ) →
        is.riffs ≡ before ++ after → file ≡ beginning ++ riffs_text after →
        total is.extended ≤ length (frames_to is before) →
        file_read EveryRiff beginning ≡ Ok ((head, frames_to is before), []) }
    ensures near { (file : List ℕ) (head : Head) (frames : List (List ℕ))
        (is : RiffFile file head frames) (before after : List Riff)
        (beginning some more : List ℕ) →
        is.riffs ≡ before ++ after → file ≡ (beginning ++ some) ++ more →
        riffs_text after ≡ some ++ more → length some < 12 →
        total is.extended ≤ length (frames_to is before) →
        file_read EveryRiff (beginning ++ some) ≡ Ok ((head, frames_to is before), []) }
    ensures owed { (file : List ℕ) (head : Head) (frames : List (List ℕ))
        (is : RiffFile file head frames) (before after : List Riff) (beginning : List ℕ) →
        is.riffs ≡ before ++ after → file ≡ beginning ++ riffs_text after →
        length (frames_to is before) < total is.extended →
        GivesThen beginning head (frames_to is before) (Short Looked) }
    ensures owed_near { (file : List ℕ) (head : Head) (frames : List (List ℕ))
        (is : RiffFile file head frames) (before after : List Riff)
        (beginning some more : List ℕ) →
        is.riffs ≡ before ++ after → file ≡ (beginning ++ some) ++ more →
        riffs_text after ≡ some ++ more → length some < 12 →
        length (frames_to is before) < total is.extended →
        GivesThen (beginning ++ some) head (frames_to is before) (Short Looked) }
{}

/// After the last RIFF no other file may begin. All frames are given, one by one, and then the ID
/// of EBML is refused, and so is an RIFF of another form than `AVIX`, or one too small for it. If
/// fewer frames came than `dmlh` says, any other four bytes are refused after them. A file that is
/// so refused is not read as a whole file.
pub fn only_riffs_follow_riffs()
    ensures file { (file : List ℕ) (head : Head) (frames : List (List ℕ)) →
        RiffFile file head frames → (name rest : List ℕ) →
        is_name name (codes "RIFF") ≡ false → begins_file name ≡ true →
        GivesThen (file ++ (name ++ rest)) head frames (Met fault.Another rest) }
    ensures form { (file : List ℕ) (head : Head) (frames : List (List ℕ)) →
        RiffFile file head frames → (size form rest : List ℕ) → length size ≡ 4 →
        length form ≡ 4 → is_name form (codes "AVIX") ≡ false →
        GivesThen (file ++ ((codes "RIFF" ++ size ++ form) ++ rest)) head frames
        (Met fault.Another rest) }
    ensures small { (file : List ℕ) (head : Head) (frames : List (List ℕ)) →
        RiffFile file head frames → (size rest : List ℕ) → length size ≡ 4 →
        0 < little_number 4 size → little_number 4 size < 4 →
        GivesThen (file ++ ((codes "RIFF" ++ size ++ codes "AVIX") ++ rest)) head frames
        (Met fault.NotAvi rest) }
    ensures owed { (file : List ℕ) (head : Head) (frames : List (List ℕ))
        (is : RiffFile file head frames) (before after : List Riff)
        (beginning name rest : List ℕ) →
        is.riffs ≡ before ++ after → file ≡ beginning ++ riffs_text after →
        length (frames_to is before) < total is.extended → length name ≡ 4 →
        is_name name (codes "RIFF") ≡ false → begins_file name ≡ false →
        GivesThen (beginning ++ (name ++ rest)) head (frames_to is before)
        (Met fault.Truncated rest) }
    ensures refused { (file : List ℕ) (head : Head) (frames : List (List ℕ)) (why : Stop) →
        GivesThen file head frames why → file_read EveryRiff file ≡ Err why }
{}

/// If a reader came to the end and tells no bytes after the last RIFF, none stand there: whole
/// chunks lead from where it stood to the end of the input, which is that of an RIFF. An RIFF or a
/// `movi` without size ends where the input does.
pub fn no_bytes_told_are_none()
    ensures none { (from : Place) (text : List ℕ) (new : Option (List ℕ)) (before : ℕ) →
        EndsBehind from (Some text) new before None →
        (new ≡ Some []) × (to : Place) × (end : ℕ) × (to.movi ≡ 0)
        × (to.open_in ≡ Sized → to.riff ≡ 0)
        × ReadsUpTo from (Some text) (Some []) to before end }
    ensures told { (from : Place) (text : List ℕ) (new : Option (List ℕ)) (before after : ℕ) →
        EndsBehind from (Some text) new before (Some after) →
        (behind : List ℕ) × (to : Place) × (0 < length behind) × (to.movi ≡ 0)
        × (to.open_in ≡ Sized → to.riff ≡ 0)
        × ReadsUpTo from (Some text) (Some behind) to before after }
    ensures open_ended { (place : Place) (text rest : List ℕ) → is_open place.open_in ≡ true →
        extent_of place ≡ EveryRiff → IsOver place.open_in place text rest →
        (text ≡ []) × (rest ≡ []) }
{}

/// When `movi` comes after no stream, the file has no FFV1, and nothing after the name of `movi`
/// is read.
pub fn movi_before_streams_is_refused()
    ensures { (file : List ℕ) (parts : List Part) (rest : List ℕ) → MoviBegins file parts rest →
        streams parts ≡ [] → open_read FirstMovi file ≡ Err (Met fault.NoFfv1 rest) }
{}

/// A chunk that passes its list is truncated, and nothing after its header is read. So it is in
/// `movi` after chunks that are no frames, in RIFF and in `hdrl` after chunks whose first stream,
/// if there is one, is FFV1, and in the first stream after chunks of which no format is too long.
pub fn long_chunk_is_truncated()
    ensures movi { (chunks : List Chunk) (left : ℕ) (name size rest : List ℕ) → AreChunks chunks →
        those (is_named (codes "LIST")) chunks ≡ [] → those (is_named (codes "00dc")) chunks ≡ [] →
        Passes left name size →
        frame_read (first_place FirstMovi 0 (length (chunks_text chunks) + left) Any 0)
        (chunks_text chunks ++ ((name ++ size) ++ rest))
        ≡ Err (Met fault.Truncated rest) }
    ensures riff { (file : List ℕ) (parts : List Part) (left : ℕ) (name size rest : List ℕ) →
        RiffBegins file parts left ((name ++ size) ++ rest) → AreReadable (streams parts) →
        Passes left name size → open_read FirstMovi file ≡ Err (Met fault.Truncated rest) }
    ensures header { (file : List ℕ) (parts : List Part) (chunks : List Chunk) (left : ℕ)
        (name size rest : List ℕ) →
        HeaderBegins file parts chunks left ((name ++ size) ++ rest) →
        AreReadable (streams parts ++ streams_of chunks) →
        Passes left name size → open_read FirstMovi file ≡ Err (Met fault.Truncated rest) }
    ensures stream { (file : List ℕ) (parts : List Part) (chunks fields : List Chunk) (left : ℕ)
        (name size rest : List ℕ) →
        StreamBegins file parts chunks fields left ((name ++ size) ++ rest) →
        streams parts ≡ [] → streams_of chunks ≡ [] → HasShortFormat fields →
        Passes left name size → open_read FirstMovi file ≡ Err (Met fault.Truncated rest) }
{}

/// If every RIFF is read, and `movi` comes when none of the first 100 streams is FFV1 video, the
/// file has no FFV1, and nothing after the name of `movi` is read.
pub fn movi_after_other_streams_is_refused()
    ensures { (file : List ℕ) (parts : List Part) (rest : List ℕ) → MoviBegins file parts rest →
        AreOthers EveryRiff (take 100 (streams parts)) →
        HasExtended (flat_map header_chunks parts) →
        open_read EveryRiff file ≡ Err (Met fault.NoFfv1 rest) }
{}

/// If every RIFF is read, a chunk that passes its list is truncated, and nothing after its header
/// is read. So it is in RIFF, in `hdrl` and in `odml` after chunks whose streams can be read, up to
/// the one that counts; in a stream's list if none before it counts, after chunks of which no
/// format is too long; in any `movi` after chunks that may stand there and are no frames, if it may
/// stand there itself or is a list; and in RIFF after a `movi`, or in the next RIFF, after chunks
/// that are no `movi` and no frames. The first RIFF may have a list whose size is not known, and
/// after it all sizes are known.
pub fn long_chunk_in_riffs_is_truncated()
    ensures riff { (file : List ℕ) (parts : List Part) (left : ℕ) (name size rest : List ℕ) →
        RiffBegins file parts left ((name ++ size) ++ rest) → AreCounted 100 (streams parts) →
        HasExtended (flat_map header_chunks parts) → Passes left name size →
        (is_name name (codes "LIST") ≡ true → is_known (little_number 4 size) ≡ true) →
        open_read EveryRiff file ≡ Err (Met fault.Truncated rest) }
    ensures header { (file : List ℕ) (parts : List Part) (chunks : List Chunk) (left : ℕ)
        (name size rest : List ℕ) →
        HeaderBegins file parts chunks left ((name ++ size) ++ rest) →
        AreCounted 100 (streams parts ++ streams_of chunks) →
        HasExtended (flat_map header_chunks parts ++ chunks) → Passes left name size →
        open_read EveryRiff file ≡ Err (Met fault.Truncated rest) }
    ensures stream { (file : List ℕ) (parts : List Part) (chunks fields : List Chunk) (left : ℕ)
        (name size rest : List ℕ) →
        StreamBegins file parts chunks fields left ((name ++ size) ++ rest) →
        AreOthers EveryRiff (streams parts ++ streams_of chunks) →
        length (streams parts ++ streams_of chunks) < 100 →
        HasExtended (flat_map header_chunks parts ++ chunks) → HasShortFormat fields →
        Passes left name size → open_read EveryRiff file ≡ Err (Met fault.Truncated rest) }
    ensures extended { (file : List ℕ) (parts : List Part) (chunks inner : List Chunk) (left : ℕ)
        (name size rest : List ℕ) →
        ExtendedBegins file parts chunks inner left ((name ++ size) ++ rest) →
        AreCounted 100 (streams parts ++ streams_of chunks) →
        HasExtended (flat_map header_chunks parts ++ chunks) → Passes left name size →
        open_read EveryRiff file ≡ Err (Met fault.Truncated rest) }
    ensures movi { (place : Place) (chunks : List Chunk) (left : ℕ) (name size rest : List ℕ) →
        place.movi ≡ length (chunks_text chunks) + left → AreChunks chunks →
        those (barred_in place.names) chunks ≡ [] →
        those (frame_in place.names) chunks ≡ [] → Passes left name size →
        bars place.names name ≡ false →
        frame_read place (chunks_text chunks ++ ((name ++ size) ++ rest))
        ≡ Err (Met fault.Truncated rest) }
    ensures after { (place : Place) (chunks : List Chunk) (left : ℕ) (name size rest : List ℕ) →
        place.open_in ≡ Sized → extent_of place ≡ EveryRiff → place.movi ≡ 0 →
        place.riff ≡ length (chunks_text chunks) + left → AreChunks chunks →
        those (is_list (codes "movi")) chunks ≡ [] →
        those (frame_in place.names) chunks ≡ [] → Passes left name size →
        frame_read place (chunks_text chunks ++ ((name ++ size) ++ rest))
        ≡ Err (Met fault.Truncated rest) }
    ensures next { (place : Place) (riff_size : List ℕ) (chunks : List Chunk) (left : ℕ)
        (name size rest : List ℕ) → place.open_in ≡ Sized → extent_of place ≡ EveryRiff →
        place.movi ≡ 0 → place.riff ≡ 0 → length riff_size ≡ 4 →
        is_known (little_number 4 riff_size) ≡ true →
        little_number 4 riff_size ≡ 4 + length (chunks_text chunks) + left →
        8 + little_number 4 riff_size < place.input → AreChunks chunks →
        those (is_list (codes "movi")) chunks ≡ [] →
        those (frame_in place.names) chunks ≡ [] → Passes left name size →
        frame_read place ((codes "RIFF" ++ riff_size ++ codes "AVIX")
        ++ (chunks_text chunks ++ ((name ++ size) ++ rest)))
        ≡ Err (Met fault.Truncated rest) }
{}

/// A file of a head and frames, by its chunks, is read as that head and those frames, and it has no
/// others. If every RIFF is read, nothing is left of it; it is read so also if bytes stand after
/// it with which neither an RIFF nor another file begins.
pub fn file_is_read_as_its_frames()
    ensures read { (file : List ℕ) (head : Head) (frames : List (List ℕ))
        (is : AviFile file head frames) → file_read FirstMovi file ≡ Ok ((head, frames), is.rest) }
    ensures only { (file : List ℕ) (head other : Head) (frames others : List (List ℕ)) →
        AviFile file head frames → AviFile file other others → (head ≡ other) × (frames ≡ others) }
    ensures every { (file : List ℕ) (head : Head) (frames : List (List ℕ)) →
        RiffFile file head frames → file_read EveryRiff file ≡ Ok ((head, frames), []) }
    ensures every_then { (file : List ℕ) (head : Head) (frames : List (List ℕ)) (rest : List ℕ) →
        RiffFileThen file head frames rest → file_read EveryRiff file ≡ Ok ((head, frames), rest) }
    ensures every_only { (file : List ℕ) (head other : Head) (frames others : List (List ℕ)) →
        RiffFile file head frames → RiffFile file other others →
        (head ≡ other) × (frames ≡ others) }
    ensures then_only { (file : List ℕ) (head other : Head) (frames others : List (List ℕ))
        (rest more : List ℕ) →
        RiffFileThen file head frames rest → RiffFileThen file other others more →
        (head ≡ other) × (frames ≡ others) × (rest ≡ more) }
{}

/// A file of a head and frames, by its chunks, of which an RIFF, or the first movi, has no size, is
/// read to its end as that head and those frames, if every RIFF is read, and it has no others.
pub fn file_without_sizes_is_read()
    ensures read { (file : List ℕ) (head : Head) (frames : List (List ℕ)) →
        OpenFile file head frames → file_read EveryRiff file ≡ Ok ((head, frames), []) }
    ensures only { (file : List ℕ) (head other : Head) (frames others : List (List ℕ)) →
        OpenFile file head frames → OpenFile file other others →
        (head ≡ other) × (frames ≡ others) }
    ensures sized { (file : List ℕ) (head other : Head) (frames others : List (List ℕ))
        (rest : List ℕ) → OpenFile file head frames → RiffFileThen file other others rest →
        (head ≡ other) × (frames ≡ others) × (rest ≡ []) }
{}

/// If every RIFF is read, an empty chunk of the stream's frames is a frame of no bytes, which
/// repeats the one before it.
pub fn empty_chunk_repeats_a_frame()
    ensures { (place : Place) (stream streams : ℕ) (name rest : List ℕ) →
        place.names ≡ Closed stream streams → length name ≡ 4 →
        is_frame place.names name ≡ true → 8 ≤ place.movi →
        frame_read place ((name ++ (0 ∷ 0 ∷ 0 ∷ 0 ∷ [])) ++ rest)
        ≡ Ok (Some ([], frame_at place (place.movi - 8)), rest) }
{}

/// If every RIFF is read, a movi holds only what a name lists: a name of four bytes may stand there
/// exactly if it is that of a frame of the stream, compressed or not, of its palette, of another
/// one of the streams, of an index, JUNK, or that of a list. Any other is refused after its header,
/// whatever its size, and nothing after that is read.
pub fn movi_holds_listed_chunks()
    ensures frames { (stream streams : ℕ) (name : List ℕ) → stream < 100 →
        is_frame (Closed stream streams) name ≡ true → IsFrameName stream name }
    ensures listed { (stream streams : ℕ) (name : List ℕ) → stream < 100 → length name ≡ 4 →
        is_barred (Closed stream streams) name ≡ false → IsListed stream streams name }
    ensures barred { (stream streams : ℕ) (name : List ℕ) → stream < 100 →
        IsListed stream streams name → is_barred (Closed stream streams) name ≡ false }
    ensures refused { (place : Place) (name size rest : List ℕ) → length name ≡ 4 →
        length size ≡ 4 → 8 + padded (little_number 4 size) ≤ place.movi →
        (is_name name (codes "LIST") ≡ true → 4 ≤ little_number 4 size) →
        is_barred place.names name ≡ true →
        frame_read place ((name ++ size) ++ rest) ≡ Err (Met fault.NotAvi rest) }
    ensures any_size { (place : Place) (name size rest : List ℕ) → length name ≡ 4 →
        length size ≡ 4 → 8 ≤ place.movi → bars place.names name ≡ true →
        frame_read place ((name ++ size) ++ rest) ≡ Err (Met fault.NotAvi rest) }
{}

/// If every RIFF is read, the chunks of a list `rec ` in a movi are those of movi: its header and
/// its own name are passed, and its size only has to fit in movi. A list of another own name is
/// refused after that, and nothing after it is read.
pub fn movi_opens_its_lists()
    ensures opened { (place : Place) (stream streams : ℕ) (size rest : List ℕ) →
        place.names ≡ Closed stream streams → length size ≡ 4 → 4 ≤ little_number 4 size →
        8 + padded (little_number 4 size) ≤ place.movi →
        frame_read place ((codes "LIST" ++ size ++ codes "rec ") ++ rest)
        ≡ frame_read (movi_left place (place.movi - 12)) rest }
    ensures other { (place : Place) (stream streams : ℕ) (size own rest : List ℕ) →
        place.names ≡ Closed stream streams → length size ≡ 4 → 4 ≤ little_number 4 size →
        8 + padded (little_number 4 size) ≤ place.movi → length own ≡ 4 →
        is_name own (codes "rec ") ≡ false →
        frame_read place ((codes "LIST" ++ size ++ own) ++ rest) ≡ Err (Met fault.NotAvi rest) }
{}

/// What is written is a file of its head and frames, by its chunks, of one RIFF, and is read back,
/// if the first `movi` alone is read and if every RIFF is; an AVI says no colours, so that the head
/// comes back without them.
pub fn written_file_is_read_back()
    ensures file { (head : Head) (frames : List (List ℕ)) → IsWritable FirstMovi head frames →
        AviFile (file_of head frames) (without_colour head) frames }
    ensures read { (head : Head) (frames : List (List ℕ)) → IsWritable FirstMovi head frames →
        file_read FirstMovi (file_of head frames) ≡ Ok ((without_colour head, frames), []) }
    ensures riff { (head : Head) (frames : List (List ℕ)) → IsWritable EveryRiff head frames →
        RiffFile (file_of head frames) (without_colour head) frames }
    ensures every { (head : Head) (frames : List (List ℕ)) → IsWritable EveryRiff head frames →
        file_read EveryRiff (file_of head frames) ≡ Ok ((without_colour head, frames), []) }
{}

/// Nothing stands after a written file: where its chunks, read whole from its beginning on, lead to
/// the end of its movi, no bytes are left, and all sizes are known.
pub fn nothing_stands_after_a_written_file()
    ensures { (head : Head) (frames : List (List ℕ)) → IsWritable EveryRiff head frames →
        (other : Head) (first to : Place) (between : Option (List ℕ)) (behind : List ℕ)
        (before after : ℕ) →
        ReadsWhole (spot_taken EveryRiff) Start (Some (file_of head frames)) between
        (BeforeFrames other first) before →
        ReadsWhole chunk_taken first between (Some behind) to after → to.movi ≡ 0 →
        (behind ≡ []) × (to.open_in ≡ Sized) }
{}

/// A beginning of a file of which an RIFF, or the first movi, has no size, ends when more bytes are
/// wanted, except at an edge of what stands behind the first such size: chunks, each movi of a
/// known size as one, the first twelve bytes of a movi without size, and those of a further RIFF.
/// Up to there it is such a file, too, and its frames are read, if they are not fewer than `dmlh`
/// says; otherwise more bytes are wanted. If the first such size is that of a further RIFF, a
/// beginning may also end at the edge of one of the RIFFs, or after fewer than twelve bytes of it.
/// Then the frames of the RIFFs before it are read in the same way.
pub fn shorter_file_without_sizes_wants_more_bytes()
    ensures within { (file : List ℕ) (head : Head) (frames : List (List ℕ))
        (is : OpenFile file head frames) (beginning more : List ℕ) → file ≡ beginning ++ more →
        0 < length more → (IsPieceEdge is.pieces more → ⊥) →
        (IsFurther is.opens_so × IsNearOpen is.riffs is.pieces more → ⊥) →
        EndsEarly (file_read EveryRiff) beginning }
    ensures edge { (file : List ℕ) (head : Head) (frames : List (List ℕ))
        (is : OpenFile file head frames) (before after : List Piece) (beginning : List ℕ) →
        is.pieces ≡ before ++ after → file ≡ beginning ++ pieces_text after →
        (IsFurther is.opens_so → before ≡ [] → ⊥) →
        total is.extended ≤ length (frames_before is before) →
        OpenFile beginning head (frames_before is before) }
    ensures read { (file : List ℕ) (head : Head) (frames : List (List ℕ))
        (is : OpenFile file head frames) (before after : List Piece) (beginning : List ℕ) →
        is.pieces ≡ before ++ after → file ≡ beginning ++ pieces_text after →
        (IsFurther is.opens_so → before ≡ [] → ⊥) →
        total is.extended ≤ length (frames_before is before) →
        file_read EveryRiff beginning ≡ Ok ((head, frames_before is before), []) }
    ensures owed { (file : List ℕ) (head : Head) (frames : List (List ℕ))
        (is : OpenFile file head frames) (before after : List Piece) (beginning : List ℕ) →
        is.pieces ≡ before ++ after → file ≡ beginning ++ pieces_text after →
        (IsFurther is.opens_so → before ≡ [] → ⊥) →
        length (frames_before is before) < total is.extended →
        EndsEarly (file_read EveryRiff) beginning }
    ensures near { (file : List ℕ) (head : Head) (frames : List (List ℕ))
        (is : OpenFile file head frames) (before after : List Riff)
        (beginning some more : List ℕ) →
        is.riffs ≡ before ++ after → file ≡ (beginning ++ some) ++ more →
        riffs_text after ++ pieces_text is.pieces ≡ some ++ more → length some < 12 →
        IsFurther is.opens_so → total is.extended ≤ length (frames_sized is before) →
        file_read EveryRiff (beginning ++ some) ≡ Ok ((head, frames_sized is before), []) }
    ensures owed_near { (file : List ℕ) (head : Head) (frames : List (List ℕ))
        (is : OpenFile file head frames) (before after : List Riff)
        (beginning some more : List ℕ) →
        is.riffs ≡ before ++ after → file ≡ (beginning ++ some) ++ more →
        riffs_text after ++ pieces_text is.pieces ≡ some ++ more → length some < 12 →
        IsFurther is.opens_so → length (frames_sized is before) < total is.extended →
        EndsEarly (file_read EveryRiff) (beginning ++ some) }
{}
