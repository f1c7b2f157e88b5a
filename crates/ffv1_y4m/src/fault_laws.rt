//! Laws of the first fault of a text.

ghost use Rattle.std.specs.Prelude.{◌≡◌, ◌⊎◌, ℕ, ◌≤◌, true, false, List, ◌∷◌, Option, Some, Ok};
ghost use Rattle.std.specs.Prelude.{Err, length};
ghost use Rattle.ffv1_y4m.specs.declared.fault.Fault.{Fault};
ghost use Rattle.ffv1_y4m.specs.declared.fault.Fault.TheVariants as fault;
ghost use Rattle.ffv1_y4m.specs.declared.head.DeepHead.{DeepHead};
ghost use Rattle.ffv1_y4m.specs.declared.head.VideoHead.{VideoHead};
ghost use Rattle.ffv1_y4m.specs.FirstFaults.{HeaderFault, PictureFault, ReachesPicture, TextFault};
ghost use Rattle.ffv1_y4m.specs.Header.{header_of};
ghost use Rattle.ffv1_y4m.specs.ImageFaults.{ImageFault, ImageHeaderFault, ImagesFault};
ghost use Rattle.ffv1_y4m.specs.ImageFaults.{SamplesFault};
ghost use Rattle.ffv1_y4m.specs.Images.{IsImagesIn};
ghost use Rattle.ffv1_y4m.specs.Ppm.{GrowsInImage, image_bytes, image_header, image_read};
ghost use Rattle.ffv1_y4m.specs.Pictures.{GrowsInPicture, picture_read};
ghost use Rattle.ffv1_y4m.specs.Text.{IsText};
ghost use Rattle.ffv1_y4m.specs.Reads.{Nowhere, Refused};

/// A header that is refused has a first fault, which is the answer, and one with a first fault is
/// refused with it. That is the answer of `Y4mReader::open` if the bytes are known and no read
/// failed.
pub fn refused_header_has_one_fault()
    ensures answered { (most : ℕ) (text : List ℕ) (new : Option (List ℕ)) (before after : ℕ)
        (f : Fault) → Refused (header_of most) Nowhere (record {
          old = Some text;
          new = new;
          before = before;
          after = after;
        }) f → (f ≡ fault.Read → ⊥) → (n : ℕ) × HeaderFault most text f n }
    ensures known { (most : ℕ) (text : List ℕ) (f : Fault) (rest : List ℕ) →
        header_of most text ≡ Err (f, rest) → (n : ℕ) × HeaderFault most text f n }
    ensures refused { (most : ℕ) (text : List ℕ) (f : Fault) (n : ℕ) →
        HeaderFault most text f n → (rest : List ℕ) × (header_of most text ≡ Err (f, rest)) }
    ensures only { (most : ℕ) (text : List ℕ) (f g : Fault) (m n : ℕ) →
        HeaderFault most text f m → HeaderFault most text g n → (f ≡ g) × (m ≡ n) }
{}

/// The same of the picture that a text begins with, and of `Y4mReader::next` if no memory was
/// refused.
pub fn refused_picture_has_one_fault()
    ensures answered { (depth : ℕ) (h : VideoHead) (text : List ℕ) (new : Option (List ℕ))
        (before after : ℕ) (f : Fault) →
        Refused (picture_read depth h) (GrowsInPicture depth h) (record {
          old = Some text;
          new = new;
          before = before;
          after = after;
        }) f → (f ≡ fault.Read → ⊥) → (f ≡ fault.OutOfMemory → ⊥) →
        (n : ℕ) × PictureFault depth h text f n }
    ensures known { (depth : ℕ) (h : VideoHead) (text : List ℕ) (f : Fault) (rest : List ℕ) →
        picture_read depth h text ≡ Err (f, rest) → (n : ℕ) × PictureFault depth h text f n }
    ensures refused { (depth : ℕ) (h : VideoHead) (text : List ℕ) (f : Fault) (n : ℕ) →
        PictureFault depth h text f n →
        (rest : List ℕ) × (picture_read depth h text ≡ Err (f, rest)) }
    ensures only { (depth : ℕ) (h : VideoHead) (text : List ℕ) (f g : Fault) (m n : ℕ) →
        PictureFault depth h text f m → PictureFault depth h text g n → (f ≡ g) × (m ≡ n) }
{}

/// A text of YUV4MPEG2 is whole, or has one first fault, in one place. A reader that read its
/// header and some pictures has reached the next one; the fault that it answers there is that of
/// the text.
pub fn text_is_whole_or_faulty()
    ensures begins { (most : ℕ) (text : List ℕ) (said : DeepHead) (rest : List ℕ) → 8 ≤ most →
        header_of most text ≡ Ok (said, rest) →
        (count : ℕ) × ReachesPicture most text said.depth said.head rest count }
    ensures next { (most : ℕ) (text : List ℕ) (depth : ℕ) (h : VideoHead) (rest : List ℕ)
        (count : ℕ) (picture : List (List ℕ)) (left : List ℕ) →
        ReachesPicture most text depth h rest count →
        picture_read depth h rest ≡ Ok (Some picture, left) →
        (more : ℕ) × ReachesPicture most text depth h left more }
    ensures stops { (most : ℕ) (text : List ℕ) (depth : ℕ) (h : VideoHead) (rest : List ℕ)
        (count : ℕ) (f : Fault) (left : List ℕ) → ReachesPicture most text depth h rest count →
        picture_read depth h rest ≡ Err (f, left) → (n : ℕ) × TextFault most text f n }
    ensures only { (most : ℕ) (text : List ℕ) (f g : Fault) (m n : ℕ) →
        TextFault most text f m → TextFault most text g n → (f ≡ g) × (m ≡ n) }
    ensures some { (most : ℕ) (text : List ℕ) → 8 ≤ most →
        ((depth : ℕ) × (h : VideoHead) × (pictures : List (List (List ℕ)))
        × IsText most text depth h pictures × (depth ≤ most))
        ⊎ ((f : Fault) × (n : ℕ) × TextFault most text f n) }
    ensures none { (most : ℕ) (text : List ℕ) (depth : ℕ) (h : VideoHead)
        (pictures : List (List (List ℕ))) (f : Fault) (n : ℕ) →
        IsText most text depth h pictures → depth ≤ most → TextFault most text f n → ⊥ }
    ensures inside { (most : ℕ) (text : List ℕ) (f : Fault) (n : ℕ) → TextFault most text f n →
        n ≤ length text }
{}

/// A header of an image that is refused has a first fault, which is the answer, and one with a
/// first fault is refused with it. That is the answer of `PpmReader::open` if the bytes are known
/// and no read failed. There is one, in one place.
pub fn refused_image_header_has_one_fault()
    ensures answered { (most : ℕ) (text : List ℕ) (new : Option (List ℕ)) (before after : ℕ)
        (f : Fault) → Refused (image_header most) Nowhere (record {
          old = Some text;
          new = new;
          before = before;
          after = after;
        }) f → (f ≡ fault.Read → ⊥) → (n : ℕ) × ImageHeaderFault most text f n }
    ensures known { (most : ℕ) (text : List ℕ) (f : Fault) (rest : List ℕ) →
        image_header most text ≡ Err (f, rest) → (n : ℕ) × ImageHeaderFault most text f n }
    ensures refused { (most : ℕ) (text : List ℕ) (f : Fault) (n : ℕ) →
        ImageHeaderFault most text f n →
        (rest : List ℕ) × (image_header most text ≡ Err (f, rest)) }
    ensures only { (most : ℕ) (text : List ℕ) (f g : Fault) (m n : ℕ) →
        ImageHeaderFault most text f m → ImageHeaderFault most text g n → (f ≡ g) × (m ≡ n) }
{}

/// The same of an image, by `PpmReader::next` if no memory was refused. Of the first one, whose
/// header was read before, the fault is that of its samples.
pub fn refused_image_has_one_fault()
    ensures first { (most : ℕ) (said : DeepHead) (text : List ℕ) (new : Option (List ℕ))
        (before after : ℕ) (f : Fault) →
        Refused (image_read most said true) (GrowsInImage most said true) (record {
          old = Some text;
          new = new;
          before = before;
          after = after;
        }) f → (f ≡ fault.Read → ⊥) → (f ≡ fault.OutOfMemory → ⊥) →
        SamplesFault said.depth (image_bytes said) text f }
    ensures answered { (most : ℕ) (said : DeepHead) (text : List ℕ) (new : Option (List ℕ))
        (before after : ℕ) (f : Fault) →
        Refused (image_read most said false) (GrowsInImage most said false) (record {
          old = Some text;
          new = new;
          before = before;
          after = after;
        }) f → (f ≡ fault.Read → ⊥) → (f ≡ fault.OutOfMemory → ⊥) →
        (n : ℕ) × ImageFault most said text f n }
    ensures known { (most : ℕ) (said : DeepHead) (text : List ℕ) (f : Fault) (rest : List ℕ) →
        image_read most said false text ≡ Err (f, rest) → (n : ℕ) × ImageFault most said text f n }
    ensures refused { (most : ℕ) (said : DeepHead) (text : List ℕ) (f : Fault) (n : ℕ) →
        ImageFault most said text f n →
        (rest : List ℕ) × (image_read most said false text ≡ Err (f, rest)) }
    ensures only { (most : ℕ) (said : DeepHead) (text : List ℕ) (f g : Fault) (m n : ℕ) →
        ImageFault most said text f m → ImageFault most said text g n → (f ≡ g) × (m ≡ n) }
    ensures samples { (depth size : ℕ) (text : List ℕ) (f g : Fault) →
        SamplesFault depth size text f → SamplesFault depth size text g → f ≡ g }
{}

/// A text of images is whole, as it is read if depths up to that one are, or has a first fault; and
/// it has one, in one place.
pub fn images_are_whole_or_faulty()
    ensures some { (most : ℕ) (text : List ℕ) →
        ((depth width height : ℕ) × (image : List (List ℕ)) × (images : List (List (List ℕ)))
        × IsImagesIn most text depth width height (image ∷ images) × (depth ≤ most))
        ⊎ ((f : Fault) × (n : ℕ) × ImagesFault most text f n) }
    ensures only { (most : ℕ) (text : List ℕ) (f g : Fault) (m n : ℕ) →
        ImagesFault most text f m → ImagesFault most text g n → (f ≡ g) × (m ≡ n) }
    ensures inside { (most : ℕ) (text : List ℕ) (f : Fault) (n : ℕ) → ImagesFault most text f n →
        n ≤ length text }
{}
