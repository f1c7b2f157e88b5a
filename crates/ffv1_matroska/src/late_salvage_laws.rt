//! Laws of files that may be damaged before their first frame, and whose Tracks stand behind their
//! first Cluster: what plain reading says of the same bytes.

ghost use Rattle.std.specs.Prelude.{◌≡◌, [], ℕ, List, Ok, Err, false};
ghost use Rattle.ffv1_reads.specs.Reads.{Met, Short, Want};
ghost use Rattle.ffv1_reads.specs.declared.fault.FileFault.{FileFault};
ghost use Rattle.ffv1_matroska.specs.Late.{late_read, track_read};
ghost use Rattle.ffv1_matroska.specs.Opened.{Opened};
ghost use Rattle.ffv1_matroska.specs.SalvagedLate.{late_salvaged, salvage_track};
ghost use Rattle.ffv1_matroska.specs.Salvaged.{may_be_told};
ghost use Rattle.ffv1_matroska.specs.Tracks.{Track};

/// If plain reading finds the first Tracks of a file, the same track is found, whatever would be
/// told on the way; and if plain reading opens it with them, it opens as the same, and nothing is
/// told. If plain reading does not find them, since it is refused with a fault that is not told, or
/// since the bytes end too early, it is so here.
pub fn what_plain_reading_finds_is_found()
    ensures track { (text rest : List ℕ) (track : Track) →
        track_read text ≡ Ok (track, rest) → salvage_track text ≡ Ok (track, rest) }
    ensures opened { (text rest : List ℕ) (o : Opened) → late_read text ≡ Ok (o, rest) →
        (begun : ℕ) × (late_salvaged text
        ≡ Ok (record { opened = o; begun = begun; told = [] }, rest)) }
    ensures fault { (text rest : List ℕ) (f : FileFault) → track_read text ≡ Err (Met f rest) →
        may_be_told f ≡ false → salvage_track text ≡ Err (Met f rest) }
    ensures short { (text : List ℕ) (w : Want) → track_read text ≡ Err (Short w) →
        salvage_track text ≡ Err (Short w) }
{}
