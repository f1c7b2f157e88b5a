//! Laws of texts.

ghost use Rattle.std.specs.Prelude.{◌≡◌, ℕ, ◌≤◌, ◌*◌, List, [], ◌∷◌, ◌++◌, length, flat_map, true};
ghost use Rattle.std.specs.Prelude.{codes, decimal, false, None, Ok, ◌<◌};
ghost use Rattle.ffv1_y4m.specs.declared.head.VideoHead.{VideoHead};
ghost use Rattle.ffv1_y4m.specs.Header.{head_of_line, header_of};
ghost use Rattle.ffv1_y4m.specs.HeaderLine.{IsHeaderLine};
ghost use Rattle.ffv1_y4m.specs.Text.{AllFit, IsText, ReadsAll};
ghost use Rattle.ffv1_y4m.specs.Canonical.{as_said, canonical_text, next_text};
ghost use Rattle.ffv1_y4m.specs.VideoHead.{Fits, IsHead, IsNamed, colour_head, has_siting};
ghost use Rattle.ffv1_y4m.specs.VideoHead.{SaysNeither, plane_bytes};
ghost use Rattle.ffv1_y4m.specs.State.{HasRoom, samples_of};
ghost use Rattle.std.specs.declared.vec.Vec.{Vec};
ghost use Rattle.ffv1_y4m.specs.Images.{AtImage, image_lines, image_text, IsImages, IsImagesIn};
ghost use Rattle.ffv1_y4m.specs.Images.{ReadsFrom};
ghost use Rattle.ffv1_y4m.specs.Reads.{Wants};
ghost use Rattle.ffv1_y4m.specs.Images.{image_places, text_of_lines};
ghost use Rattle.ffv1_y4m.specs.Sink.{IsNext, PpmSink, Refuses, Takes, WritesPart, line_text};
ghost use Rattle.ffv1_wire.specs.Failures.{one_more};
ghost use Rattle.ffv1_wire.specs.Runs.{Grows, Line, Refuses as RunRefuses, places_in};
ghost use Rattle.ffv1_wire.specs.Writes.{AppendsBeginning};
ghost use Rattle.std.specs.Io.KnownBytes.{Appends};
ghost use Rattle.ffv1_y4m.specs.Ppm.{bytes_for, image_header, image_header_text};

use ffv1_wire::ByteOut;
use std::alloc::Allocator;

/// A line is read as the depth and the head that it says, if depths up to that one are read; and
/// what is so read says that depth and that head.
pub fn header_line_is_read_exactly()
    ensures found { (line : List ℕ) (most depth : ℕ) (h : VideoHead) →
        IsHeaderLine most line depth h → depth ≤ most →
        head_of_line most line ≡ Ok (record { head = h; depth = depth }) }
    ensures only { (line : List ℕ) (most depth : ℕ) (h : VideoHead) →
        head_of_line most line ≡ Ok (record { head = h; depth = depth }) →
        IsHeaderLine most line depth h × (8 ≤ most → depth ≤ most) }
{}

/// A head that a line says has sizes, numbers and chroma that are read here.
pub fn said_head_can_be_read()
    ensures { (most : ℕ) (line : List ℕ) (depth : ℕ) (h : VideoHead) →
        IsHeaderLine most line depth h → IsHead h }
{}

/// A head that a line says has chroma that has a name at the depth that it says, and a siting only
/// if such a name says one.
pub fn said_chroma_has_a_name()
    ensures { (most : ℕ) (line : List ℕ) (depth : ℕ) (h : VideoHead) →
        IsHeaderLine most line depth h → IsNamed depth h }
{}

/// If depths above 8 are not read, a line and a header say neither siting nor range.
pub fn strict_head_says_neither()
    ensures line { (most : ℕ) (line : List ℕ) (depth : ℕ) (h : VideoHead) →
        IsHeaderLine most line depth h → most ≤ 8 → SaysNeither h }
    ensures header { (most : ℕ) (text : List ℕ) (depth : ℕ) (h : VideoHead) (rest : List ℕ) →
        header_of most text ≡ Ok (record { head = h; depth = depth }, rest) → most ≤ 8 →
        SaysNeither h }
{}

/// If depths above 8 are read, a head is said as it is, unless it is one of 4:2:0 of 8 bits that
/// says no siting.
pub fn sited_head_is_said_as_it_is()
    ensures { (most depth : ℕ) (h : VideoHead) → IsNamed depth h → 8 < most →
        (h.siting ≡ None → has_siting depth h.chroma_planes h.log2_h h.log2_v ≡ false) →
        as_said most depth h ≡ h }
{}

/// A text is read as its depth, its head and its pictures, if depths up to that one are read; and
/// what is so read is a text of pictures. The canonical text of a head and of pictures that fit it
/// is one, so it reads back as them, and as the head that a text says: above 8 bits 4:2:0 of 8 bits
/// lies in the centre if the head says nothing else, up to 8 bits siting and range are not said.
/// It is what a writer writes of them, picture by picture.
pub fn text_is_read_as_its_pictures()
    ensures found { (text : List ℕ) (most depth : ℕ) (h : VideoHead)
        (pictures : List (List (List ℕ))) → IsText most text depth h pictures → depth ≤ most →
        (rest : List ℕ) × (header_of most text ≡ Ok (record { head = h; depth = depth }, rest))
        × ReadsAll depth h rest pictures }
    ensures only { (text : List ℕ) (most depth : ℕ) (h : VideoHead) (rest : List ℕ)
        (pictures : List (List (List ℕ))) →
        header_of most text ≡ Ok (record { head = h; depth = depth }, rest) →
        ReadsAll depth h rest pictures → IsText most text depth h pictures }
    ensures canonical { (most depth : ℕ) (h : VideoHead) (pictures : List (List (List ℕ))) →
        IsHead h → IsNamed depth h → AllFit depth h pictures →
        IsText most (canonical_text depth h pictures) depth (as_said most depth h) pictures }
    ensures strict { (most depth : ℕ) (h : VideoHead) (pictures : List (List (List ℕ))) →
        IsHead h → IsNamed depth h → h.siting ≡ None → h.range ≡ None → most ≤ 8 →
        AllFit depth h pictures →
        IsText most (canonical_text depth h pictures) depth h pictures }
    ensures same { (most depth : ℕ) (h : VideoHead) (pictures : List (List (List ℕ))) →
        IsNamed depth h → 8 < most → canonical_text depth (as_said most depth h) pictures
        ≡ canonical_text depth h pictures }
    ensures back { (most depth : ℕ) (h : VideoHead) (pictures : List (List (List ℕ))) → IsHead h →
        IsNamed depth h → AllFit depth h pictures → depth ≤ most →
        (rest : List ℕ)
        × (header_of most (canonical_text depth h pictures)
        ≡ Ok (record { head = as_said most depth h; depth = depth }, rest))
        × ReadsAll depth (as_said most depth h) rest pictures }
    ensures written { (depth : ℕ) (h : VideoHead) (picture : List (List ℕ))
        (pictures : List (List (List ℕ))) →
        next_text depth h false picture ++ flat_map (next_text depth h true) pictures
        ≡ canonical_text depth h (picture ∷ pictures) }
{}

/// A text of images is read as the head of its sizes, its depth and its images, if depths up to
/// that one are read; and what is so read is a text of images. Up to 8 bits each header has three
/// lines, above 8 bits it is as Netpbm writes it. A header of three lines is one that Netpbm
/// writes.
pub fn text_is_read_as_its_images()
    ensures found { (text : List ℕ) (most depth width height : ℕ) (image : List (List ℕ))
        (images : List (List (List ℕ))) → IsImages text depth width height (image ∷ images) →
        depth ≤ most →
        (rest : List ℕ)
        × (image_header most text
        ≡ Ok (record { head = colour_head width height; depth = depth }, rest))
        × ReadsFrom most (record { head = colour_head width height; depth = depth }) rest image
        images }
    ensures only { (text : List ℕ) (most depth : ℕ) (head : VideoHead) (rest : List ℕ)
        (image : List (List ℕ)) (images : List (List (List ℕ))) → most ≤ 8 →
        image_header most text ≡ Ok (record { head = head; depth = depth }, rest) →
        ReadsFrom most (record { head = head; depth = depth }) rest image images →
        IsImages text depth head.width head.height (image ∷ images) }
    ensures spelled { (text : List ℕ) (most depth width height : ℕ) (image : List (List ℕ))
        (images : List (List (List ℕ))) →
        IsImagesIn most text depth width height (image ∷ images) → depth ≤ most →
        (rest : List ℕ)
        × (image_header most text
        ≡ Ok (record { head = colour_head width height; depth = depth }, rest))
        × ReadsFrom most (record { head = colour_head width height; depth = depth }) rest image
        images }
    ensures told { (text : List ℕ) (most depth : ℕ) (head : VideoHead) (rest : List ℕ)
        (image : List (List ℕ)) (images : List (List (List ℕ))) →
        image_header most text ≡ Ok (record { head = head; depth = depth }, rest) →
        ReadsFrom most (record { head = head; depth = depth }) rest image images →
        IsImagesIn most text depth head.width head.height (image ∷ images) }
    ensures same { (text : List ℕ) (most depth width height : ℕ) (images : List (List (List ℕ))) →
        IsImages text depth width height images →
        IsImagesIn most text depth width height images }
    ensures lined { (text : List ℕ) (most depth width height : ℕ)
        (images : List (List (List ℕ))) → most ≤ 8 →
        IsImagesIn most text depth width height images →
        IsImages text depth width height images }
{}

/// At 8 bits the third line of an image's header is 255. A header takes its first byte, whichever
/// that is.
pub fn image_header_takes_its_first_byte()
    ensures eight { (width height : ℕ) → image_header_text 8 width height
        ≡ codes "P6\n" ++ decimal width ++ codes " " ++ decimal height ++ codes "\n255\n" }
    ensures first { (most : ℕ) → Wants (image_header most) [] }
{}

/// A sink that has taken whole images and takes the lines of one more has written its text after
/// the others, and again has taken whole images.
pub fn image_is_written_after_the_others<W: ByteOut>()
    ensures image { (red green blue : List ℕ) (s t : PpmSink W) → 1 ≤ s.height → AtImage s →
        length red ≡ s.height * bytes_for s.depth s.width →
        Grows (Takes W.contents W.failures) s
        (image_lines (bytes_for s.depth s.width) 0 s.height red green blue) t →
        Appends (W.contents s.out) (W.contents t.out)
        (image_text s.depth s.width s.height (red ∷ green ∷ blue ∷ [])) × AtImage t
        × (t.failures ≡ s.failures) }
{}

/// A sink has written the text of the lines that it took, and before a refusal a beginning of the
/// text of all.
pub fn sink_writes_the_lines_it_took<W: ByteOut>()
    ensures taken { (s t : PpmSink W) (lines : List Line) →
        Grows (Takes W.contents W.failures) s lines t →
        Appends (W.contents s.out) (W.contents t.out)
        (text_of_lines s.depth s.width s.height s.kept s.row lines) }
    ensures refused { (s t : PpmSink W) (lines : List Line) →
        RunRefuses (Takes W.contents W.failures) (Refuses W.contents W.failures) s lines t →
        WritesPart (W.contents s.out) (W.contents t.out)
        (text_of_lines s.depth s.width s.height s.kept s.row lines) }
{}

/// A sink that has taken whole images and then a beginning of the lines of one more, each in its
/// place, takes the line that comes next there, or its write fails. A beginning of the row's text
/// is then written, and the writer counts one failure more.
pub fn sink_takes_the_next_line<W: ByteOut>()
    ensures next { (s t : PpmSink W) (lines : List Line) (p y : ℕ) (samples : List ℕ)
        (rest : List (ℕ × ℕ)) → AtImage s → Grows (Takes W.contents W.failures) s lines t →
        places_in lines ++ ((p, y) ∷ rest) ≡ image_places s.height →
        length samples ≡ bytes_for s.depth s.width →
        IsNext t p y samples × (t.width ≡ s.width) × (t.height ≡ s.height)
        × (t.depth ≡ s.depth) }
    ensures refused { (s t u : PpmSink W) (lines : List Line) (p y : ℕ) (samples : List ℕ)
        (rest : List (ℕ × ℕ)) → AtImage s → Grows (Takes W.contents W.failures) s lines t →
        places_in lines ++ ((p, y) ∷ rest) ≡ image_places s.height →
        length samples ≡ bytes_for s.depth s.width →
        Refuses W.contents W.failures t p y samples u →
        AppendsBeginning (W.contents t.out) (W.contents u.out) (line_text t samples)
        × (W.failures u.out ≡ one_more (W.failures t.out)) }
    ensures taken { (s t : PpmSink W) (lines : List Line) →
        Grows (Takes W.contents W.failures) s lines t → W.failures t.out ≡ W.failures s.out }
{}

/// The lines of an image stand in its order, and what they make a sink write is its text.
pub fn image_lines_stand_in_order()
    ensures places { (size height : ℕ) (red green blue : List ℕ) →
        places_in (image_lines size 0 height red green blue) ≡ image_places height }
    ensures text { (depth width height : ℕ) (red green blue : List ℕ) → 1 ≤ height →
        length red ≡ height * bytes_for depth width →
        text_of_lines depth width height [] 0
        (image_lines (bytes_for depth width) 0 height red green blue)
        ≡ image_text depth width height (red ∷ green ∷ blue ∷ []) }
{}

/// Planes that were read have room for planes of the same sizes.
pub fn read_planes_keep_their_room<A: Allocator>()
    ensures left { (depth : ℕ) (h : VideoHead) (planes : List (Vec ℕ A)) →
        Fits depth h (samples_of planes) → HasRoom (plane_bytes depth h) planes }
{}
