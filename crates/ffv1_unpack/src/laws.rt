//! Laws of frames in parts, and of a file of which all is unpacked.

ghost use Rattle.std.specs.Prelude.{◌≡◌, ℕ, ◌+◌, Bool, true, List, [], ◌∷◌, ◌++◌, length, map};
ghost use Rattle.std.specs.Prelude.{◌<◌, Option, flat_map};
ghost use Rattle.ffv1_codec.specs.Picture.{Planes};
ghost use Rattle.ffv1_record.specs.Accepted.{Accepted};
ghost use Rattle.ffv1_record.specs.Configuration.{Configuration};
ghost use Rattle.ffv1_files.specs.declared.notes.Notes.{Notes};
ghost use Rattle.ffv1_reads.specs.Head.{Head};
ghost use Rattle.ffv1_video.specs.Md5Text.{md5_lines};
ghost use Rattle.ffv1_video.specs.declared.profile.Profile.{Profile};
ghost use Rattle.ffv1_unpack.specs.declared.frame_line.FrameLine.{FrameLine};
ghost use Rattle.ffv1_unpack.specs.FrameLines.{lines_from};
ghost use Rattle.ffv1_unpack.specs.Judged.{Judged, judged_from};
ghost use Rattle.ffv1_unpack.specs.JudgedItems.{IsJudgedItem, JudgedItem, frames_of};
ghost use Rattle.ffv1_unpack.specs.Plays.{FramesEnd, NextBehind, has_more};
ghost use Rattle.ffv1_unpack.specs.Ranges.{PartThen, RangeThen};
ghost use Rattle.ffv1_unpack.specs.Salvaged.{leading, of_sound, salvage_faults, salvage_lines};
ghost use Rattle.ffv1_unpack.specs.Salvaged.{shown};
ghost use Rattle.ffv1_unpack.specs.FrameMd5.{md5_rows};
ghost use Rattle.ffv1_unpack.specs.Stream.{Again, AreAll, Coded, CodedFrame, Frame, IsCoded};
ghost use Rattle.ffv1_unpack.specs.Stream.{Stream, coded_frames, frames_after, last_bytes, last_of};
ghost use Rattle.ffv1_unpack.specs.Stream.{payloads, shown_after, shown_by, shown_frames, those};
ghost use Rattle.ffv1_unpack.specs.Unpacked.{AlikeBy, pictures, ppm_text, video_of, y4m_text};
ghost use Rattle.ffv1_y4m.specs.Canonical.{header_text};
ghost use Rattle.ffv1_y4m.specs.Pictures.{picture_text};

/// The payloads of a range are those that come in the file after as many as are before it; if more
/// are wanted than there are, they are all of these.
pub fn range_has_the_payloads_of_the_file()
    ensures { (profile : Profile) (head other : Head) (first : ℕ) (most : Option ℕ)
        (held some : List (List ℕ)) (file rest left : List ℕ) →
        RangeThen profile 0 head held FramesEnd file rest → (notes : Notes) →
        RangeThen profile first other some (NextBehind notes most (length some)) file left →
        (before : List (List ℕ)) × (more : List (List ℕ)) × (length before ≡ first)
        × (held ≡ before ++ (some ++ more)) × (other ≡ head)
        × (has_more most (length some) ≡ true → more ≡ []) }
{}

/// What is written of frames in two parts, the second with the numbers after the first, is what is
/// written of them in one, but for heads and last lines; of the pictures that frames show those of
/// the second part are shown after the last coded frame of the first one.
pub fn parts_make_up_the_whole()
    ensures lines { (kind : FrameLine) (c : Configuration) (i : ℕ) (xs ys : List Frame) →
        lines_from kind c i (xs ++ ys)
        ≡ lines_from kind c i xs ++ lines_from kind c (i + length xs) ys }
    ensures judged { (place : Bool) (c : Configuration) (i : ℕ) (xs ys : List Judged) →
        judged_from place c i (xs ++ ys)
        ≡ judged_from place c i xs ++ judged_from place c (i + length xs) ys }
    ensures md5s { (rct : Bool) (depth i : ℕ) (xs ys : List Planes) →
        md5_lines rct depth i (xs ++ ys)
        ≡ md5_lines rct depth i xs ++ md5_lines rct depth (i + length xs) ys }
    ensures rows { (rct : Bool) (depth i : ℕ) (xs ys : List Frame) →
        md5_rows rct depth i (xs ++ ys)
        ≡ md5_rows rct depth i xs ++ md5_rows rct depth (i + length xs) ys }
    ensures images { (s : Stream) (xs ys : List CodedFrame) →
        ppm_text s (xs ++ ys) ≡ ppm_text s xs ++ ppm_text s ys }
    ensures header { (s : Stream) (f : CodedFrame) (fs : List CodedFrame) →
        y4m_text s (f ∷ fs) ≡ header_text s.accepted.configuration.depth (video_of s f.said)
        ++ flat_map picture_text (pictures (f ∷ fs)) }
    ensures pictures { (xs ys : List CodedFrame) →
        flat_map picture_text (pictures (xs ++ ys))
        ≡ flat_map picture_text (pictures xs) ++ flat_map picture_text (pictures ys) }
    ensures shown { (xs ys : List Frame) → shown_frames (xs ++ ys)
        ≡ shown_frames xs ++ shown_after (last_of (coded_frames xs)) ys }
{}

/// A part of frames, of which a first one that repeats another is the last coded one before the
/// part itself, shows what the part shows in the whole. If all that are coded have bytes, its
/// payloads are those of the part, in which the last one before that has bytes stands in place of a
/// first one that has none.
pub fn part_shows_the_frame_before()
    ensures shown { (last : Option CodedFrame) (frames : List Frame) →
        shown_frames (frames_after last frames) ≡ shown_after last frames }
    ensures payloads { (before frames : List Frame) →
        AreAll (λ (f : CodedFrame). 0 < length f.payload) (coded_frames before) →
        AreAll (λ (f : CodedFrame). 0 < length f.payload) (coded_frames frames) →
        payloads (frames_after (last_of (coded_frames before)) frames)
        ≡ shown_by (last_bytes (payloads before)) (payloads frames) }
{}

/// The payloads that a part shows are those that come in the file after as many as are before it,
/// but for a first one that has no bytes, which is the last one before that has; if more are wanted
/// than there are, they are all of these.
pub fn part_shows_the_payloads_of_the_file()
    ensures { (profile : Profile) (head other : Head) (first : ℕ) (most : Option ℕ)
        (carried : List ℕ) (held some : List (List ℕ)) (file rest left : List ℕ) →
        RangeThen profile 0 head held FramesEnd file rest → (notes : Notes) →
        PartThen profile first carried other some (NextBehind notes most (length some)) file left →
        (before : List (List ℕ)) × (own : List (List ℕ)) × (more : List (List ℕ))
        × (length before ≡ first) × (held ≡ before ++ (own ++ more)) × (other ≡ head)
        × (some ≡ shown_by (last_bytes before) own)
        × (has_more most (length some) ≡ true → more ≡ []) }
{}

/// A frame that repeats another shows the coded one before it, and nothing before the first one;
/// all others show themselves.
pub fn again_shows_the_frame_before()
    ensures none { (frames : List CodedFrame) → shown_frames (map Coded frames) ≡ frames }
    ensures first { (frames : List Frame) →
        shown_frames (Again ∷ frames) ≡ shown_frames frames }
    ensures coded { (frames : List Frame) (f : CodedFrame) →
        shown_frames (frames ++ (Coded f ∷ [])) ≡ shown_frames frames ++ (f ∷ []) }
    ensures again { (frames : List Frame) → shown_frames (frames ++ (Again ∷ []))
        ≡ shown_frames frames ++ those (last_of (coded_frames frames)) }
{}

/// If all of a file is unpacked, there are as many pictures as frames, less those before the first
/// good one; each is the picture of a payload that decodes.
pub fn each_frame_has_a_picture()
    ensures length { (xs : List JudgedItem) → length (shown xs) + leading xs
        ≡ length (frames_of xs) }
    ensures decoded { (a : Accepted) (xs : List JudgedItem) → AreAll (IsJudgedItem a) xs →
        AreAll (IsCoded a) (shown xs) }
{}

/// If there is no fault, the pictures are those that the frames show in turn, which say the same,
/// and no line is told.
pub fn sound_frames_are_unpacked_alike()
    ensures { (ppm : Bool) (xs : List JudgedItem) → salvage_faults ppm xs ≡ [] →
        (frames : List Frame) × (xs ≡ map of_sound frames) × (shown xs ≡ shown_frames frames)
        × (salvage_lines ppm xs ≡ []) × AlikeBy ppm (shown_frames frames) }
{}
