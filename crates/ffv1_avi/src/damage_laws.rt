//! Laws of files that may be damaged: all bytes have items, and after damage the next chunk of
//! frames that is whole is found.

ghost use Rattle.std.specs.Prelude.{◌≡◌, ◌<◌, ◌+◌, ◌++◌, ◌-◌, ◌^◌, [], ℕ, List, Option, None};
ghost use Rattle.std.specs.Prelude.{Err, Ok, Some, drop, length, true};
ghost use Rattle.byteorder.specs.Endian.{little_number};
ghost use Rattle.ffv1_reads.specs.Offsets.{FaultAt};
ghost use Rattle.ffv1_reads.specs.Reads.{Met, Short, Stop, Want};
ghost use Rattle.ffv1_reads.specs.declared.fault.FileFault.{FileFault};
ghost use Rattle.ffv1_reads.specs.declared.fault.FileFault.TheVariants as fault;
ghost use Rattle.ffv1_avi.specs.Damaged.{CountsInput, HasNoHeader, SaysEnd, TellsAfter, plain_at};
ghost use Rattle.ffv1_avi.specs.Edges.{FramesThen};
ghost use Rattle.ffv1_avi.specs.Files.{frame_read, open_read};
ghost use Rattle.ffv1_avi.specs.Offsets.{chunk_taken};
ghost use Rattle.ffv1_reads.specs.Items.{Given, GivesFrame, Tells};
ghost use Rattle.ffv1_avi.specs.Items.{course_at, ended_by, item_read, over};
ghost use Rattle.ffv1_avi.specs.Places.{extent_of, is_open, most_input};
ghost use Rattle.ffv1_avi.specs.Readers.{Standing};
ghost use Rattle.ffv1_avi.specs.Turns.{begins_sized, seek_turn, step_read};
ghost use Rattle.ffv1_avi.specs.declared.course.Course.{Course};
ghost use Rattle.ffv1_avi.specs.declared.place.Extent.{Extent};
ghost use Rattle.ffv1_avi.specs.declared.place.Extent.TheVariants.{FirstMovi, EveryRiff};
ghost use Rattle.ffv1_reads.specs.Head.{Head};
ghost use Rattle.ffv1_avi.specs.declared.course.Turn.TheVariants.{Frame};
ghost use Rattle.ffv1_avi.specs.declared.place.Place.{Place};

/// All bytes have an item, or none; and once there is none, there is none after that.
pub fn all_bytes_have_items()
    ensures total { (c : Course) (text : List ℕ) →
        (x : Option (Given × Course)) × (rest : List ℕ) × (item_read c text ≡ Ok (x, rest)) }
    ensures over { (c : Course) (text : List ℕ) → item_read (over c) text ≡ Ok (None, text) }
{}

/// Behind damage the search finds the first chunk of frames whose header was not changed, if it has
/// bytes, and not too many: what is lost ends there. Before it no header of such frames may begin,
/// nor one of an index, in the bytes that are looked at again and those after them.
pub fn the_next_frame_is_found()
    ensures { (place : Place) (window junk head rest : List ℕ) → length head ≡ 8 →
        begins_sized place.names head ≡ true → length (window ++ junk) < most_input →
        HasNoHeader place.names (window ++ junk) head →
        seek_turn window place (junk ++ (head ++ rest)) ≡ Ok (
          Some (Frame (length (window ++ junk)) (little_number 4 (drop 4 head)) place),
          rest,
        ) }
{}

/// Where plain reading gives a frame, the same is given, no fault is told before it, and reading
/// goes on behind it as before. Where it ends, there is nothing more. Where it has a fault, that is
/// told next, and where the bytes end inside a chunk, `Truncated` is. If the fault is that of the
/// next chunk, it is told with the number of bytes before that.
pub fn sound_bytes_give_their_frames()
    ensures frames { (place after : Place) (begun at : ℕ) (text bytes rest : List ℕ) →
        length text < 2 ^ 64 - 1 → frame_read place text ≡ Ok (Some (bytes, after), rest) →
        (b : ℕ) × (a : ℕ) × (item_read (plain_at place begun at) text
        ≡ Ok (Some (GivesFrame bytes, plain_at after b a), rest)) }
    ensures end { (place : Place) (begun at : ℕ) (text rest : List ℕ) →
        length text < 2 ^ 64 - 1 → frame_read place text ≡ Ok (None, rest) →
        item_read (plain_at place begun at) text ≡ Ok (None, rest) }
    ensures fault { (place : Place) (begun at : ℕ) (text rest : List ℕ) (f : FileFault) →
        length text < 2 ^ 64 - 1 → frame_read place text ≡ Err (Met f rest) →
        (offset : ℕ) × (d : Course) × (item_read (plain_at place begun at) text
        ≡ Ok (Some (Tells f offset, d), rest)) }
    ensures short { (place : Place) (begun at : ℕ) (text : List ℕ) (w : Want) →
        length text < 2 ^ 64 - 1 → frame_read place text ≡ Err (Short w) →
        (offset : ℕ) × (d : Course) × (item_read (plain_at place begun at) text
        ≡ Ok (Some (Tells fault.Truncated offset, d), [])) }
    ensures here { (place : Place) (begun at : ℕ) (text rest : List ℕ) (f : FileFault) →
        length text < 2 ^ 64 - 1 → step_read place text ≡ Err (Met f rest) →
        (d : Course) × (item_read (plain_at place begun at) text
        ≡ Ok (Some (Tells f at, d), rest)) }
    ensures begins { (r : Standing) → course_at r ≡ plain_at r.place r.offset r.offset }
{}

/// The first fault that is told is that of plain reading, at its byte. If chunks of so many bytes
/// are read whole, one after the other, and the next one has a fault, or the bytes end inside it,
/// then the frames that plain reading gives come first, and after them that fault is told, with the
/// number of bytes before that chunk. If a frame that `dmlh` says is not there, that is where the
/// next RIFF would begin. So it is in any file from its first movi on.
pub fn the_first_fault_is_told_at_its_byte()
    ensures told { (place : Place) (begun at : ℕ) (text : List ℕ) (frames : List (List ℕ))
        (why : Stop) (f : FileFault) (count : ℕ) → CountsInput place →
        at + length text < 2 ^ 64 - 1 → FramesThen place text frames why →
        FaultAt chunk_taken place text f count →
        TellsAfter (plain_at place begun at) text frames f (at + count) }
    ensures opened { (extent : Extent) (file rest : List ℕ) (head : Head) (place : Place) →
        open_read extent file ≡ Ok ((head, place), rest) → CountsInput place }
{}

/// Where plain reading ends, the course says at its end what a reader says there. If every RIFF is
/// read: where other bytes stand after the last RIFF, if any do, and whether an RIFF or a movi
/// there has no size. If the first movi alone is read, no bytes are looked at after it.
pub fn a_sound_file_ends_as_its_reader_says()
    ensures every { (place : Place) (begun at : ℕ) (text rest : List ℕ) → CountsInput place →
        at + length text < 2 ^ 64 - 1 → extent_of place ≡ EveryRiff →
        frame_read place text ≡ Ok (None, rest) → SaysEnd place at text rest
        (ended_by (plain_at place begun at) text) }
    ensures first { (place : Place) (begun at : ℕ) (text rest : List ℕ) →
        extent_of place ≡ FirstMovi → frame_read place text ≡ Ok (None, rest) →
        ((ended_by (plain_at place begun at) text).after ≡ None)
        × ((ended_by (plain_at place begun at) text).open_ended ≡ is_open place.open_in) }
{}
