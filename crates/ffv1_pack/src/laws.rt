//! Laws of the definitions.

ghost use Rattle.std.specs.Prelude.{◌≡◌, ◌<◌, ◌≤◌, ◌*◌, ◌↔◌, ℕ, Bool, List, None, Some, true};
ghost use Rattle.ffv1_range.specs.Codes.{AreBytes, value};
ghost use Rattle.ffv1_range.specs.Table.{Table, IsTable};
ghost use Rattle.ffv1_plane.specs.declared.prediction.Around.{Around};
ghost use Rattle.ffv1_plane.specs.Quantisation.{Set, contexts_of};
ghost use Rattle.ffv1_plane.specs.Context.{size_of};
ghost use Rattle.ffv1_y4m.specs.declared.head.VideoHead.{VideoHead};
ghost use Rattle.ffv1_record.specs.declared.config.Profile.{Profile as RecordProfile};
ghost use Rattle.ffv1_record.specs.declared.config.Profile.TheVariants as edges;
ghost use Rattle.ffv1_words.specs.declared.order.Choice.{Choice};
ghost use Rattle.ffv1_pack.specs.GridChecks.{AreParts, PassesGrid, with_parts};
ghost use Rattle.ffv1_pack.specs.Grids.{Grid, default_grid, first_grid, has_grid, most_pixels};
ghost use Rattle.ffv1_pack.specs.Grids.{slice_bytes, slice_limit};
ghost use Rattle.ffv1_pack.specs.Packing.{configuration_for};
ghost use Rattle.ffv1_pack.specs.Plane.{plane_code, CodesPlane};
ghost use Rattle.ffv1_video.specs.Video.{SaidHead};

/// The code of a plane codes its residuals, from fresh states, and is a start of a decoder: so each
/// row is read back as it was.
pub fn plane_code_is_read_back()
    ensures coded { (t : Table) (set : Set) (width height : ℕ) (samples : List ℕ) →
        IsTable t.floor t.one → ((a : Around) → size_of set a < contexts_of set) → 0 < width →
        AreBytes samples →
        CodesPlane t set width height samples (plane_code t set width height samples) }
    ensures start { (t : Table) (set : Set) (width height : ℕ) (samples : List ℕ) →
        IsTable t.floor t.one → ((a : Around) → size_of set a < contexts_of set) → 0 < width →
        AreBytes samples → value (plane_code t set width height samples) 2 < 65280 }
{}

/// The default grid of Matroska is chosen among those with which a configuration is accepted: of 1
/// to 32 columns and rows a picture may have, in a profile, those that pass its checks of the grid
/// and of the edges of its slices, and whose greatest slice has fewer bytes of samples than 12 MiB.
pub fn default_grid_passes_its_checks()
    ensures { (p : RecordProfile) (choice : Choice) (ppm : Bool) (h : SaidHead) (columns rows : ℕ) →
        AreParts columns rows → has_grid p h.depth h.head columns rows ≡ true
        ↔ (PassesGrid p (configuration_for (with_parts choice columns rows) ppm h)
        × (slice_bytes h.depth h.head columns rows < slice_limit)) }
{}

/// The default grid of a picture of more than 101376 pixels has at least 4 slices and at least as
/// many columns as rows, if the picture may have such a grid: it is the first of those whose inner
/// edges are multiples of the chroma factors, and, if there is none, the first that the profile
/// takes.
pub fn default_grid_is_wide()
    ensures multiples { (p : RecordProfile) (depth : ℕ) (h : VideoHead) (g : Grid) →
        most_pixels < h.width * h.height → first_grid edges.Strict depth h true ≡ Some g →
        (default_grid p depth h ≡ g) × (has_grid edges.Strict depth h g.0 g.1 ≡ true)
        × (g.1 ≤ g.0) × (4 ≤ g.0 * g.1) }
    ensures others { (p : RecordProfile) (depth : ℕ) (h : VideoHead) (g : Grid) →
        most_pixels < h.width * h.height → first_grid edges.Strict depth h true ≡ None →
        first_grid p depth h true ≡ Some g →
        (default_grid p depth h ≡ g) × (has_grid p depth h g.0 g.1 ≡ true)
        × (g.1 ≤ g.0) × (4 ≤ g.0 * g.1) }
{}
