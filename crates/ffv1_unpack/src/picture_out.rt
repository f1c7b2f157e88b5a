//! Where pictures are written, each from a payload that was judged and codes one: a text of
//! YUV4MPEG2, or images of PPM.

ghost use Rattle.std.specs.Prelude.{◌≡◌, ℕ, IfErr, IfOk, List, [], ◌∷◌, Option, Some, ⊤};
ghost use Rattle.ffv1_video.specs.declared.fault.Fault.TheVariants as fault;
ghost use Rattle.ffv1_range.specs.declared.tally.Tally.{Tally};
ghost use Rattle.ffv1_wire.specs.Passage.{passage};
ghost use Rattle.ffv1_record.specs.Accepted.{IsAccepted};
ghost use Rattle.ffv1_codec.specs.Frame.{CodesPicture};
ghost use Rattle.ffv1_codec.specs.Outcome.{FaultsOf};
ghost use Rattle.ffv1_codec.specs.Picture.{Planes, planes_of};
ghost use Rattle.ffv1_codec.specs.SliceList.{Said};
ghost use Rattle.ffv1_video.specs.KeptLines.{IsKeptFor};
ghost use Rattle.ffv1_unpack.specs.Internal.PicturesOut.{IsBegun};
ghost use Rattle.ffv1_unpack.specs.Internal.Salvage.{ContinuesText, FitsKept, HoldsPicture};
ghost use Rattle.ffv1_unpack.specs.Internal.Salvage.{IsImagesOf, IsTextOf, PutsPictures};
ghost use Rattle.ffv1_unpack.specs.Stream.{CodedFrame, IsCoded, Stream};
ghost use Rattle.ffv1_unpack.specs.Unpacked.{HasText};

use ffv1_codec::{DropLines, FrameDecoder, FrameFault, Info, KeepLines, laws as codec_laws};
use ffv1_record::laws as record_laws;
use ffv1_video::Fault;
use ffv1_wire::ByteOut;
use ffv1_y4m::{PpmWriter, VideoHead, Y4mWriter, laws as y4m_laws};
use std::alloc::{Allocator, Global};

/// Where the pictures of a stream are written, one after the other.
pub(crate) trait PictureOut {
    /// The bytes that were written, if they are known.
    ghost contents: { Self → Option (List ℕ) };

    /// How many writes failed.
    ghost failures: { Self → ℕ };

    /// The pictures of these frames of a stream were written, and the next one can be.
    ghost ready: { Stream → List CodedFrame → Self → Type 0 };

    /// If it is remembered that a picture is kept, that picture is this payload's.
    ghost fits: { Stream → List ℕ → Self → Type 0 };

    /// Decodes a payload without writing, and answers what it says of its picture, or its first
    /// fault. If its picture is kept, that is remembered; after a fault nothing is.
    fn judge<A: Allocator>(
        &mut self,
        decoder: &mut FrameDecoder<A>,
        payload: &[u8],
    ) -> Result<Info, FrameFault>
        requires accepted { IsAccepted decoder.old.accepted.configuration
            decoder.old.accepted.table }
        ensures ok { IfOk result (λ info. (f : CodedFrame) × IsCoded decoder.old.accepted f
            × (f.payload ≡ payload.now) × (f.said ≡ info)) }
        ensures err { IfErr result (λ f. (s : Stream) (fs : List CodedFrame) →
            s.accepted ≡ decoder.old.accepted → ready s fs self.old →
            (tally : Tally) × FaultsOf decoder.old.accepted payload.now f tally) }
        ensures silent { (contents self.new ≡ contents self.old)
            × (failures self.new ≡ failures self.old) }
        ensures ready { (s : Stream) (fs : List CodedFrame) → s.accepted ≡ decoder.old.accepted →
            ready s fs self.old → ready s fs self.new }
        ensures fits { IfOk result (λ info. (s : Stream) (fs : List CodedFrame) →
            s.accepted ≡ decoder.old.accepted → ready s fs self.old →
            fits s payload.now self.new) }
        ensures forgets { IfErr result (λ f. (s : Stream) (other : List ℕ) →
            fits s other self.new) }
        ensures same { decoder.new.accepted ≡ decoder.old.accepted };

    /// Writes the picture of a payload that codes one after the others: the one that is kept, if
    /// that is remembered, and else the payload is decoded. `Write` if a write failed: a beginning
    /// of its text is then written.
    fn put<A: Allocator>(
        &mut self,
        decoder: &mut FrameDecoder<A>,
        payload: &[u8],
    ) -> Result<(), Fault>
        ensures answer { (s : Stream) (fs : List CodedFrame) (f : CodedFrame) →
            s.accepted ≡ decoder.old.accepted →
            IsAccepted s.accepted.configuration s.accepted.table → HasText s →
            ready s fs self.old → fits s payload.now self.old → IsCoded s.accepted f →
            f.payload ≡ payload.now →
            PutsPictures ready s fs (f ∷ []) (passage contents failures self.old self.new)
            self.new result }
        ensures stays { (s : Stream) (other : List ℕ) → fits s other self.old →
            fits s other self.new }
        ensures same { decoder.new.accepted ≡ decoder.old.accepted }
        ensures own { IfErr result (λ f. f ≡ fault.Write) };
}

/// Writes the picture of these planes, of samples of so many bits, and before the first one the
/// header, which says what that one says.
fn continue_text<W: ByteOut, A: Allocator>(
    depth: u32,
    head: &VideoHead,
    begun: &mut Option<(Info, Y4mWriter)>,
    output: &mut W,
    info: Info,
    planes: &[Vec<u8, A>],
) -> Result<(), Fault>
    ensures answer { IsBegun depth head.now begun.old →
        ContinuesText depth head.now begun.old info (planes_of planes.now)
        (passage W.contents W.failures output.old output.new) begun.new result }
    ensures own { IfErr result (λ f. f ≡ fault.Write) }
{
    if let Some((_first, writer)) = begun {
        writer.picture(output, planes)?;
        return Ok(());
    }
    let head = VideoHead {
        structure: info.structure(),
        sar_num: info.sar_num(),
        sar_den: info.sar_den(),
        ..*head
    };
    let mut writer = Y4mWriter::at_depth(head, depth);
    writer.picture(output, planes)?;
    *begun = Some((info, writer));
    Ok(())
}

/// Decodes a payload into what keeps its lines, and answers what it says of its picture, or its
/// first fault.
fn keep_picture<A: Allocator, D: Allocator>(
    kept: &mut KeepLines<A>,
    decoder: &mut FrameDecoder<D>,
    payload: &[u8],
) -> Result<Info, FrameFault>
    ensures ok { IfOk result (λ info. (f : CodedFrame) × IsCoded decoder.old.accepted f
        × (f.payload ≡ payload.now) × (f.said ≡ info)) }
    ensures holds { IfOk result (λ info. IsAccepted decoder.old.accepted.configuration
        decoder.old.accepted.table → IsKeptFor decoder.old.accepted kept.old →
        HoldsPicture decoder.old.accepted payload.now info kept.new.planes) }
    ensures err { IfErr result (λ f. IsAccepted decoder.old.accepted.configuration
        decoder.old.accepted.table → IsKeptFor decoder.old.accepted kept.old →
        (tally : Tally) × FaultsOf decoder.old.accepted payload.now f tally) }
    ensures none { IfErr result (λ f. IsAccepted decoder.old.accepted.configuration
        decoder.old.accepted.table → IsKeptFor decoder.old.accepted kept.old →
        (planes : Planes) (said : Said) →
        CodesPicture decoder.old.accepted payload.now planes said → ⊥) }
    ensures kept { IsAccepted decoder.old.accepted.configuration decoder.old.accepted.table →
        IsKeptFor decoder.old.accepted kept.old → IsKeptFor decoder.old.accepted kept.new }
    ensures same { decoder.new.accepted ≡ decoder.old.accepted }
{
    codec_laws::answer::payload_has_one_outcome::<KeepLines<A>>();
    codec_laws::sink::sinks_of_own_lines_refuse_none();
    codec_laws::sink::kept_lines_make_up_the_picture();
    match decoder.decode(payload, kept) {
        Ok(info) => Ok(info),
        Err(fault) => Err(fault),
    }
}

/// What the picture of a payload says, which is kept then: as is remembered, if that is held, and
/// else the payload is decoded.
fn have_picture<A: Allocator, D: Allocator>(
    kept: &mut KeepLines<A>,
    held: Option<Info>,
    decoder: &mut FrameDecoder<D>,
    payload: &[u8],
) -> Result<Info, FrameFault>
    ensures ok { IfOk result (λ info. IsAccepted decoder.old.accepted.configuration
        decoder.old.accepted.table → IsKeptFor decoder.old.accepted kept.old →
        FitsKept decoder.old.accepted payload.now held kept.old.planes →
        HoldsPicture decoder.old.accepted payload.now info kept.new.planes
        × IsKeptFor decoder.old.accepted kept.new) }
    ensures stays { (info : Said) → held ≡ Some info → kept.new ≡ kept.old }
    ensures none { IfErr result (λ f. IsAccepted decoder.old.accepted.configuration
        decoder.old.accepted.table → IsKeptFor decoder.old.accepted kept.old →
        (planes : Planes) (said : Said) →
        CodesPicture decoder.old.accepted payload.now planes said → ⊥) }
    ensures same { decoder.new.accepted ≡ decoder.old.accepted }
{
    match held {
        Some(info) => Ok(info),
        None => match keep_picture(kept, decoder, payload) {
            Ok(info) => Ok(info),
            Err(fault) => Err(fault),
        },
    }
}

/// A text of YUV4MPEG2 that is being written: its head, whose structure and aspect are 0, and after
/// the first picture what that says, and the text's writer. `held` is what the picture says that is
/// kept, if it is one.
#[derive(Drop)]
pub(crate) struct TextOut<W: ByteOut, A: Allocator = Global> {
    pub output: W,
    pub kept: KeepLines<A>,
    pub held: Option<Info>,
    pub depth: u32,
    pub head: VideoHead,
    pub begun: Option<(Info, Y4mWriter)>,
}

impl<W: ByteOut, A: Allocator> TextOut<W, A> {
    /// Hands the writer back.
    pub fn into_inner(self) -> W
        ensures { result ≡ self.output }
    {
        let TextOut {
            output,
            kept: _kept,
            held: _held,
            depth: _depth,
            head: _head,
            begun: _begun,
        } = self;
        output
    }
}

impl<W: ByteOut, A: Allocator> PictureOut for TextOut<W, A> {
    ghost contents = { λ t. W.contents t.output };

    ghost failures = { λ t. W.failures t.output };

    ghost ready = { λ s fs t. IsTextOf t.depth t.head t.begun t.kept s fs };

    ghost fits = { λ s payload t. FitsKept s.accepted payload t.held t.kept.planes };

    fn judge<D: Allocator>(
        &mut self,
        decoder: &mut FrameDecoder<D>,
        payload: &[u8],
    ) -> Result<Info, FrameFault> {
        match keep_picture(&mut self.kept, decoder, payload) {
            Ok(info) => {
                self.held = Some(info);
                Ok(info)
            }
            Err(fault) => {
                self.held = None;
                Err(fault)
            }
        }
    }

    fn put<D: Allocator>(
        &mut self,
        decoder: &mut FrameDecoder<D>,
        payload: &[u8],
    ) -> Result<(), Fault> {
        match have_picture(&mut self.kept, self.held, decoder, payload) {
            Ok(info) => {
                continue_text(
                    self.depth,
                    &self.head,
                    &mut self.begun,
                    &mut self.output,
                    info,
                    self.kept.planes(),
                )?;
                Ok(())
            }
            // No payload that codes a picture is refused.
            Err(_fault) => Err(Fault::Write),
        }
    }
}

impl<W: ByteOut, A: Allocator> PictureOut for PpmWriter<W, A> {
    ghost contents = { λ s. W.contents s.out };

    ghost failures = { λ s. W.failures s.out };

    ghost ready = { λ s fs sink. IsImagesOf sink s fs };

    ghost fits = { λ s payload sink. ⊤ };

    fn judge<D: Allocator>(
        &mut self,
        decoder: &mut FrameDecoder<D>,
        payload: &[u8],
    ) -> Result<Info, FrameFault> {
        codec_laws::answer::answer_is_ok_for_coded_pictures::<DropLines>();
        codec_laws::sink::sinks_of_own_lines_refuse_none();
        let mut sink = DropLines::new(decoder.config());
        match decoder.decode(payload, &mut sink) {
            Ok(info) => Ok(info),
            Err(fault) => Err(fault),
        }
    }

    fn put<D: Allocator>(
        &mut self,
        decoder: &mut FrameDecoder<D>,
        payload: &[u8],
    ) -> Result<(), Fault> {
        codec_laws::sink::sink_fault_is_a_refused_line::<PpmWriter<W, A>>();
        codec_laws::sink::offered_lines_fit_the_configuration();
        codec_laws::sink::lines_are_handed_in_turn();
        codec_laws::sink::rct_planes_have_the_picture_size();
        record_laws::accepted_configuration_is_in_range();
        record_laws::accepted_configuration_has_sound_parts();
        y4m_laws::image_is_written_after_the_others::<W>();
        y4m_laws::sink_writes_the_lines_it_took::<W>();
        y4m_laws::sink_takes_the_next_line::<W>();
        match decoder.decode(payload, self) {
            Ok(_info) => Ok(()),
            // The sink refuses no line of the picture but one whose row cannot be written.
            Err(_fault) => Err(Fault::Write),
        }
    }
}
