//! Laws of files that may be damaged: all bytes have items, and after damage the next Cluster that
//! is whole is found.

ghost use Rattle.std.specs.Prelude.{◌≡◌, ◌≤◌, ◌+◌, ◌-◌, ◌++◌, ◌∷◌, [], ℕ, List, Option};
ghost use Rattle.std.specs.Prelude.{Err, None, Ok, Some, false, length, map};
ghost use Rattle.ffv1_reads.specs.Reads.{Met, Short, Want};
ghost use Rattle.ffv1_reads.specs.declared.fault.FileFault.{FileFault};
ghost use Rattle.ffv1_reads.specs.declared.fault.FileFault.TheVariants as fault;
ghost use Rattle.ffv1_ebml.specs.Vints.{IsVint, size_of};
ghost use Rattle.ffv1_matroska.specs.Damaged.{HasNoCluster, IsPlain, ItemsTo, TellsAfter};
ghost use Rattle.ffv1_matroska.specs.Damaged.{TellsNext};
ghost use Rattle.ffv1_matroska.specs.Offsets.{element_taken};
ghost use Rattle.ffv1_reads.specs.Offsets.{FaultAt, offset_after};
ghost use Rattle.ffv1_matroska.specs.Damaged.{cluster_bytes};
ghost use Rattle.ffv1_matroska.specs.Files.{frame_read};
ghost use Rattle.ffv1_matroska.specs.Given.{GivesTo};
ghost use Rattle.ffv1_reads.specs.Items.{Given, GivesFrame};
ghost use Rattle.ffv1_matroska.specs.Items.{item_read, over};
ghost use Rattle.ffv1_matroska.specs.Places.{cluster_entered, segment_at};
ghost use Rattle.ffv1_matroska.specs.Turns.{seek_turn};
ghost use Rattle.ffv1_matroska.specs.declared.course.Course.{Course};
ghost use Rattle.ffv1_matroska.specs.declared.course.Pending.TheVariants as pending;
ghost use Rattle.ffv1_matroska.specs.declared.course.Turn.TheVariants.{On};
ghost use Rattle.ffv1_matroska.specs.declared.place.Place.{Place};
ghost use Rattle.ffv1_matroska.specs.declared.track.TrackNumbers.{TrackNumbers};

/// All bytes have an item, or none; and once there is none, there is none after that.
pub fn all_bytes_have_items()
    ensures total { (track : TrackNumbers) (c : Course) (text : List ℕ) →
        (x : Option (Given × Course)) × (rest : List ℕ) × (item_read track c text ≡ Ok (x, rest)) }
    ensures over { (track : TrackNumbers) (c : Course) (text : List ℕ) →
        item_read track (over c) text ≡ Ok (None, text) }
{}

/// Behind damage the search for the next Cluster finds the first one whose ID was not changed, if
/// it fits in the Segment: what is lost ends there.
pub fn the_next_cluster_is_found()
    ensures { (place : Place) (junk said rest : List ℕ) (n : ℕ) →
        HasNoCluster (junk ++ (31 ∷ 67 ∷ 182 ∷ [])) → IsVint said → length said ≤ 8 →
        size_of said ≡ Some n → length junk + (4 + (length said + n)) ≤ place.segment →
        seek_turn place (junk ++ (cluster_bytes ++ (said ++ rest))) ≡ Ok (
          Some (On pending.Nothing
              (cluster_entered (segment_at place false
              (place.segment - (length junk + (4 + (length said + n))))) n)),
          rest,
        ) }
{}

/// Where plain reading gives frames, the same frames are given, and no fault is told. Where it
/// ends, there is nothing more. Where it has a fault, that is told next, or after the frame that
/// ends a Cluster whose CRC-32 is not the sum; where the bytes end inside an element, `Truncated`
/// is. If elements of so many bytes are read whole, and the one after them has the fault, it is
/// told, after the frames before it, at the offset of that element.
pub fn sound_bytes_give_their_frames()
    ensures frames { (track : TrackNumbers) (c : Course) (text rest : List ℕ)
        (frames : List (List ℕ)) (after : Place) → IsPlain c →
        GivesTo track c.place text frames after rest →
        (d : Course) × ItemsTo track c text (map GivesFrame frames) d rest × (d.place ≡ after)
        × IsPlain d }
    ensures end { (track : TrackNumbers) (c : Course) (text rest : List ℕ) → IsPlain c →
        frame_read track c.place text ≡ Ok (None, rest) → item_read track c text ≡ Ok (None, rest) }
    ensures fault { (track : TrackNumbers) (c : Course) (text rest : List ℕ) (f : FileFault) →
        IsPlain c → frame_read track c.place text ≡ Err (Met f rest) → TellsNext track c text f }
    ensures short { (track : TrackNumbers) (c : Course) (text : List ℕ) (w : Want) → IsPlain c →
        frame_read track c.place text ≡ Err (Short w) → TellsNext track c text fault.Truncated }
    ensures place { (track : TrackNumbers) (c : Course) (text : List ℕ) (f : FileFault)
        (count : ℕ) → IsPlain c → FaultAt (element_taken track) c.place text f count →
        TellsAfter track c text f (offset_after c.at count) }
{}
