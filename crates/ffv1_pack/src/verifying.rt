//! An encoder that decodes each frame again, if that is asked, and compares it with its picture.

ghost use Rattle.std.specs.Prelude.{◌≡◌, ◌⊎◌, ◌↔◌, true, false, is_some, IfOk, IfErr, IsTrue, OnOk};
ghost use Rattle.ffv1_record.specs.Accepted.{Accepted, is_rice};
ghost use Rattle.ffv1_codec.specs.Frame.{CodesPicture, HasLongSlice, frame_of};
ghost use Rattle.ffv1_codec.specs.Picture.{AreOf, Fits, planes_of};
ghost use Rattle.ffv1_frame.specs.declared.fault.CodecFault.TheVariants as codec_fault;
ghost use Rattle.ffv1_video.specs.declared.fault.Fault.TheVariants as fault;
ghost use Rattle.ffv1_video.specs.KeptLines.{IsKeptFor};
ghost use Rattle.ffv1_pack.specs.Internal.Verifying.{IsBackFor};

use ffv1_codec::{FrameDecoder, FrameEncoder, Info, KeepLines, Picture, laws as codec_laws};
use ffv1_record::Checked;
use ffv1_video::Fault;
use std::alloc::{Allocator, Global};
use std::marker::Model;

/// What decodes frames again: a decoder, and the lines of the frame that it decoded last.
pub(crate) struct Back<A: Allocator = Global> {
    decoder: FrameDecoder<A>,
    kept: KeepLines<A>,
}

impl<A: Allocator> Drop for Back<A> {
    fn drop(self) {
        let Back {
            decoder: _decoder,
            kept: _kept,
        } = self;
    }
}

/// Whether two planes have the same bytes.
fn is_same(plane: &[u8], other: &[u8]) -> bool
    ensures { IsTrue result ↔ (plane.now ≡ other.now) }
{
    plane == other
}

/// Whether these are the same planes.
fn are_same<A: Allocator>(planes: &[Vec<u8, A>], others: &[Vec<u8, A>]) -> bool
    ensures { IsTrue result ↔ (planes_of planes.now ≡ planes_of others.now) }
{
    if planes.len() != others.len() {
        return false;
    }
    let mut same = true;
    for plane in 0..planes.len() {
        same = same & is_same(planes[plane].as_slice(), others[plane].as_slice());
    }
    same
}

/// Whether the lines that were kept are those of these planes.
fn has_planes<A: Allocator>(kept: &mut KeepLines<A>, planes: &[Vec<u8, A>]) -> bool
    ensures same { IsTrue result ↔ (kept.old.planes ≡ planes_of planes.now) }
    ensures kept { kept.new ≡ kept.old }
    ensures sizes { AreOf kept.old.grid kept.old.planes }
{
    are_same(kept.planes(), planes)
}

/// Whether a frame decodes to this picture, of which it says this: if it codes that, and only
/// then.
fn decodes_back<A: Allocator>(
    back: &mut Back<A>,
    frame: &[u8],
    picture: &Picture<A>,
    info: Info,
) -> bool
    requires { IsKeptFor back.old.decoder.accepted back.old.kept }
    ensures found { IsTrue result →
        CodesPicture back.old.decoder.accepted frame.now picture.now info }
    ensures only { CodesPicture back.old.decoder.accepted frame.now picture.now info →
        IsTrue result }
    ensures kept { IsTrue result → IsKeptFor back.old.decoder.accepted back.new.kept }
    ensures same { back.new.decoder.accepted ≡ back.old.decoder.accepted }
{
    codec_laws::sink::sinks_of_own_lines_refuse_none();
    codec_laws::sink::kept_lines_make_up_the_picture();
    let _table = back.decoder.config().table();
    let Ok(said) = back.decoder.decode(frame, &mut back.kept) else {
        return false;
    };
    if said != info {
        return false;
    }
    has_planes(&mut back.kept, picture.planes())
}

/// Whether a frame decodes to its picture, if there is what decodes it.
fn comes_back<A: Allocator>(
    back: &mut Option<Back<A>>,
    frame: &[u8],
    picture: &Picture<A>,
    info: Info,
) -> bool
    requires { (a : Accepted) × IsBackFor a back.old }
    ensures found { (a : Accepted) → IsBackFor a back.old → is_some back.old ≡ true →
        IsTrue result → CodesPicture a frame.now picture.now info }
    ensures only { (a : Accepted) → IsBackFor a back.old →
        CodesPicture a frame.now picture.now info → IsTrue result }
    ensures kept { (a : Accepted) → IsBackFor a back.old → IsTrue result →
        IsBackFor a back.new }
    ensures same { is_some back.new ≡ is_some back.old }
{
    match back {
        None => true,
        Some(back) => decodes_back(back, frame, picture, info),
    }
}

/// An encoder of the pictures of a configuration that decodes each frame again, if that is
/// asked, and compares it with its picture. The memory that decoding takes is taken once.
///
/// It is seen as a `Verifying`: its configuration with its table, and whether it verifies.
#[derive(Drop)]
pub(crate) struct VerifyingEncoder<A: Allocator = Global> {
    encoder: FrameEncoder<A>,
    back: Option<Back<A>>,
}

impl<A: Allocator> Model for VerifyingEncoder<A> {
    ghost use Rattle.std.specs.Prelude.{is_some};
    ghost use Rattle.ffv1_pack.specs.Internal.Verifying.{IsBackFor, Verifying};

    ghost Value = { Verifying };

    ghost view = { λ e. record { accepted = e.encoder.accepted; verifies = is_some e.back } };

    ghost invariant = { λ e. IsBackFor e.encoder.accepted e.back };
}

impl<A: Allocator + Copy> VerifyingEncoder<A> {
    /// An encoder of pictures of a configuration that does not verify. It takes no memory.
    pub(crate) fn new(alloc: A, checked: Checked<A>) -> VerifyingEncoder<A>
        ensures { result ≡ record { accepted = checked; verifies = false } }
    {
        VerifyingEncoder {
            encoder: FrameEncoder::new(alloc, checked),
            back: None,
        }
    }

    /// One that does, by the same configuration once more. Refuses with `OutOfMemory` if the
    /// decoder, or the room for its lines, is refused its memory.
    pub(crate) fn verifying(
        alloc: A,
        checked: Checked<A>,
        again: Checked<A>,
    ) -> Result<VerifyingEncoder<A>, Fault>
        requires { again ≡ checked }
        ensures ok { IfOk result (λ e. e ≡ record { accepted = checked; verifies = true }) }
        ensures err { IfErr result (λ f. f ≡ fault.OutOfMemory) }
    {
        let kept = KeepLines::new(alloc, &again)?;
        let decoder = FrameDecoder::new(alloc, again)?;
        Ok(VerifyingEncoder {
            encoder: FrameEncoder::new(alloc, checked),
            back: Some(Back { decoder, kept }),
        })
    }

    /// The configuration.
    pub(crate) fn config(&self) -> &Checked<A>
        ensures { result.now ≡ self.now.accepted }
    {
        self.encoder.config()
    }

    /// The frame of a picture that fits a range coded configuration. If this verifies, the frame is
    /// decoded, and compared with the picture. They are the same each time, so that `NotSame` is
    /// answered by no encoder whose memory keeps what was written there.
    ///
    /// Answers `SliceTooLong` only if a slice has more than 16777215 coded bytes, and there
    /// never `Ok`; else `OutOfMemory`, if memory was refused.
    pub(crate) fn encode(&mut self, picture: &Picture<A>, info: Info) -> Result<Vec<u8, A>, Fault>
        requires fits { Fits self.old.accepted.configuration picture.now }
        requires range { is_rice self.old.accepted.configuration.coder ≡ false }
        ensures same { self.new ≡ self.old }
        ensures ok { IfOk result (λ bytes.
            bytes.items ≡ frame_of self.old.accepted picture.now info) }
        ensures few { OnOk result (HasLongSlice self.old.accepted picture.now info → ⊥) }
        ensures refused { IfErr result (λ f. (f ≡ fault.OutOfMemory)
            ⊎ ((f ≡ fault.Codec codec_fault.SliceTooLong)
            × HasLongSlice self.old.accepted picture.now info)) }
    {
        let frame = self.encoder.encode(picture, info)?;
        if !comes_back(&mut self.back, frame.as_slice(), picture, info) {
            return Err(Fault::NotSame);
        }
        Ok(frame)
    }
}
