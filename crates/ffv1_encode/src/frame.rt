//! Encodes pictures.

ghost use Rattle.std.specs.Prelude.{◌≡◌, ◌⊎◌, ◌+◌, ◌*◌, ◌<◌, ◌≤◌, ◌++◌, ℕ, IfOk, IfErr, OnOk};
ghost use Rattle.std.specs.Prelude.{OnErr, Ok, Err, [], length, vec_capacity, ◌≢◌, false};
ghost use Rattle.ffv1_slice.specs.Footer.{footer_of, foot_length};
ghost use Rattle.ffv1_frame.specs.declared.fault.CodecFault.TheVariants as fault;
ghost use Rattle.ffv1_frame.specs.Picture.{Fits};
ghost use Rattle.ffv1_frame.specs.Frame.{slice_bytes, frame_of, CodesPicture, HasLongSlice};
ghost use Rattle.ffv1_frame.specs.Length.{slice_counts, slice_renormalisations, frame_counts};
ghost use Rattle.ffv1_frame.specs.Length.{frame_most, uncounted};
ghost use Rattle.ffv1_frame.specs.Length.{KeepsCapacities, no_capacities};
ghost use Rattle.ffv1_frame.specs.Frame.{sealed_slice};
ghost use Rattle.ffv1_record.specs.Accepted.{is_rice};
ghost use Rattle.ffv1_frame.specs.SliceList.{bits_of};
ghost use Rattle.ffv1_encode.specs.Internal.Scratch.{capacities_of, capacity_of_planes};

use crate::slice::Slice;
use crate::slice_bytes::{Scratch, code_slice};
use ffv1_frame::fault::CodecFault;
use ffv1_frame::frame_counts::FrameCounts;
use ffv1_frame::info::Info;
use ffv1_frame::laws;
use ffv1_frame::picture::Picture;
use ffv1_record::Checked;
use ffv1_slice::{Grid, footer};
use std::alloc::{Allocator, Global};
use std::marker::Model;

/// Puts coded bytes and their footer after what a frame has.
fn append<A: Allocator>(frame: &mut Vec<u8, A>, coded: &[u8], ec: bool) -> Result<(), CodecFault>
    ensures ok { OnOk result (frame.new.items ≡
        frame.old.items ++ (coded.now ++ footer_of ec coded.now)) }
    ensures few { OnOk result (length coded.now ≤ 16777215) }
    ensures err { IfErr result (λ f. (f ≡ fault.OutOfMemory)
        ⊎ ((f ≡ fault.SliceTooLong) × (16777215 < length coded.now))) }
    ensures too_long { 16777215 < length coded.now → result ≡ Err fault.SliceTooLong }
{
    let Ok(footer) = footer(coded, ec) else {
        return Err(CodecFault::SliceTooLong);
    };
    frame.extend_from_slice(coded)?;
    frame.extend_from_slice(footer.bytes())?;
    Ok(())
}

/// Codes a slice, puts it after what a frame has, and answers what was counted of it.
fn add_slice<R: Allocator + Copy, A: Allocator, B: Allocator>(
    alloc: R,
    frame: &mut Vec<u8, R>,
    scratch: &mut Scratch<R>,
    slice: &Slice<'_, A, B>,
) -> Result<FrameCounts, CodecFault>
    ensures ok { OnOk result (frame.new.items ≡ frame.old.items ++ sealed_slice
        slice.now.checked.now slice.now.picture.now slice.now.info slice.now.number) }
    ensures few { OnOk result (length (slice_bytes slice.now.checked.now slice.now.picture.now
        slice.now.info slice.now.number) ≤ 16777215) }
    ensures counts { IfOk result (λ k. k ≡ slice_counts slice.now.checked.now
        slice.now.picture.now slice.now.info slice.now.number) }
    ensures short { IfOk result (λ k. k.renormalisations ≤ 16777215) }
    ensures err { IfErr result (λ f. (f ≡ fault.OutOfMemory)
        ⊎ ((f ≡ fault.SliceTooLong) × (16777215 < length (slice_bytes slice.now.checked.now
        slice.now.picture.now slice.now.info slice.now.number)))) }
    ensures room { vec_capacity scratch.old.states ≤ vec_capacity scratch.new.states }
    ensures capacity { KeepsCapacities (capacities_of scratch.old) (capacities_of scratch.new) }
    ensures wide_alone { bits_of slice.now.checked.now.configuration ≡ 17 →
        capacity_of_planes scratch.new.rows.narrow ≡ capacity_of_planes scratch.old.rows.narrow }
    ensures narrow_alone { bits_of slice.now.checked.now.configuration ≢ 17 →
        capacity_of_planes scratch.new.rows.wide ≡ capacity_of_planes scratch.old.rows.wide }
{
    let coded = code_slice(alloc, scratch, slice)?;
    let bytes = coded.bytes.as_slice();
    append(frame, bytes, slice.checked.config().ec)?;
    Ok(FrameCounts {
        decisions: coded.decisions,
        renormalisations: bytes.len() as u64 - 1,
    })
}

/// Codes all slices, one after the other, and answers what was counted of them.
fn put_slices<R: Allocator + Copy, A: Allocator, B: Allocator>(
    alloc: R,
    frame: &mut Vec<u8, R>,
    scratch: &mut Scratch<R>,
    checked: &Checked<A>,
    picture: &Picture<B>,
    info: Info,
) -> Result<FrameCounts, CodecFault>
    requires fits { Fits checked.now.configuration picture.now }
    requires none { frame.old.items ≡ [] }
    ensures ok { OnOk result (frame.new.items ≡ frame_of checked.now picture.now info) }
    ensures few { OnOk result (HasLongSlice checked.now picture.now info → ⊥) }
    ensures counts { IfOk result (λ k. k ≡ frame_counts checked.now picture.now info) }
    ensures err { IfErr result (λ f. (f ≡ fault.OutOfMemory)
        ⊎ ((f ≡ fault.SliceTooLong) × HasLongSlice checked.now picture.now info)) }
    ensures room { vec_capacity scratch.old.states ≤ vec_capacity scratch.new.states }
    ensures capacity { KeepsCapacities (capacities_of scratch.old) (capacities_of scratch.new) }
    ensures wide_alone { bits_of checked.now.configuration ≡ 17 →
        capacity_of_planes scratch.new.rows.narrow ≡ capacity_of_planes scratch.old.rows.narrow }
    ensures narrow_alone { bits_of checked.now.configuration ≢ 17 →
        capacity_of_planes scratch.new.rows.wide ≡ capacity_of_planes scratch.old.rows.wide }
{
    laws::slice_length_follows_from_residuals();
    let _table = checked.table();
    let grid = Grid::of(checked);
    let mut decisions = 0;
    let mut renormalisations = 0;
    for number in 0..grid.slices() {
        let slice = Slice {
            checked,
            grid: &grid,
            picture,
            info,
            number,
        };
        let counts = add_slice(alloc, frame, scratch, &slice)?;
        decisions += counts.decisions;
        renormalisations += counts.renormalisations;
    }
    Ok(FrameCounts {
        decisions,
        renormalisations,
    })
}

/// A frame whose memory is for at most twice its bytes: the same one, or a copy if it has more.
fn bounded<A: Allocator>(alloc: A, frame: Vec<u8, A>) -> Result<Vec<u8, A>, CodecFault>
    ensures same { vec_capacity frame ≤ 2 * length frame.items → result ≡ Ok frame }
    ensures items { IfOk result (λ v. v.items ≡ frame.items) }
    ensures room { IfOk result (λ v. vec_capacity v ≤ 2 * length v.items) }
    ensures err { IfErr result (λ f. f ≡ fault.OutOfMemory) }
{
    if frame.capacity() - frame.len() <= frame.len() {
        return Ok(frame);
    }
    let mut exact = Vec::with_capacity(alloc, frame.len())?;
    for byte in &frame {
        exact.push_reserved(*byte);
    }
    Ok(exact)
}

/// An encoder of the pictures of a configuration. What one frame took of memory is kept for the
/// next; nothing else is.
///
/// It is seen as an `Encoding`: the configuration with its table, the counts of the last frame that
/// was answered, and for how many states it has memory, and for how many samples in rows of words
/// of 16 bits, and of 32.
#[derive(Drop)]
pub struct FrameEncoder<A: Allocator = Global> {
    checked: Checked<A>,
    alloc: A,
    scratch: Scratch<A>,
    counts: FrameCounts,
}

impl<A: Allocator> Model for FrameEncoder<A> {
    ghost use Rattle.ffv1_frame.specs.Length.{Encoding};
    ghost use Rattle.ffv1_encode.specs.Internal.Scratch.{capacities_of};

    ghost Value = { Encoding };

    ghost view = { λ e. record {
      accepted = e.checked;
      counts = e.counts;
      capacities = capacities_of e.scratch;
    } };
}

impl<A: Allocator + Copy> FrameEncoder<A> {
    /// An encoder of pictures of a configuration. It takes no memory, and has none yet.
    pub fn new(alloc: A, checked: Checked<A>) -> FrameEncoder<A>
        ensures { result ≡ record {
          accepted = checked;
          counts = uncounted;
          capacities = no_capacities;
        } }
    {
        FrameEncoder {
            checked,
            alloc,
            scratch: Scratch::new(alloc),
            counts: FrameCounts {
                decisions: 0,
                renormalisations: 0,
            },
        }
    }

    /// The configuration.
    pub fn config(&self) -> &Checked<A>
        ensures { result.now ≡ self.now.accepted }
    {
        &self.checked
    }

    /// What was counted of the last frame that was answered, and zeros before the first.
    pub fn counts(&self) -> FrameCounts
        ensures { result ≡ self.now.counts }
    {
        self.counts
    }

    /// The frame of a picture that fits the configuration (RFC 9043, 4.4 to 4.9): each slice in
    /// raster order, by the sentinel ending of its decisions, and its footer. Class 0 uses set 0,
    /// class k set k, or the last one. Samples are range coded whatever the configuration says, so
    /// of one whose coder is `Rice` it is no frame.
    ///
    /// It has at most `2 n + 1` bytes for each residual of n binary digits, and 109 for each slice,
    /// with 6 more if there is a plane of transparency, 2 if there are more than 16 columns and 2
    /// if there are more than 16 rows. Each slice has one coded byte more than renormalisations,
    /// that of the sentinel among them. Its memory is for at most twice its bytes.
    ///
    /// Answers `SliceTooLong` only if a slice has more than 16777215 coded bytes, and then never
    /// `Ok`; else `OutOfMemory`, if memory was refused: each frame takes some. Either leaves the
    /// counts. Whatever was answered, the next frame is as a new encoder's, and what was taken for
    /// states, and for rows of words of 16 bits and of 32, is kept for it: of none of the three
    /// there is less than before. Rows of 32 bits take memory only if a coded sample has 17 bits,
    /// and rows of 16 only if it has fewer.
    pub fn encode<B: Allocator>(
        &mut self,
        picture: &Picture<B>,
        info: Info,
    ) -> Result<Vec<u8, A>, CodecFault>
        requires { Fits self.old.accepted.configuration picture.now }
        ensures configuration { self.new.accepted ≡ self.old.accepted }
        ensures ok { IfOk result (λ bytes.
            bytes.items ≡ frame_of self.old.accepted picture.now info) }
        ensures codes { is_rice self.old.accepted.configuration.coder ≡ false →
            IfOk result (λ bytes.
            CodesPicture self.old.accepted bytes.items picture.now info) }
        ensures few { OnOk result (HasLongSlice self.old.accepted picture.now info → ⊥) }
        ensures refused { IfErr result (λ f. (f ≡ fault.OutOfMemory)
            ⊎ ((f ≡ fault.SliceTooLong) × HasLongSlice self.old.accepted picture.now info)) }
        ensures counts { OnOk result (self.new.counts ≡
            frame_counts self.old.accepted picture.now info) }
        ensures kept { OnErr result (self.new.counts ≡ self.old.counts) }
        ensures capacity { KeepsCapacities self.old.capacities self.new.capacities }
        ensures wide_alone { bits_of self.old.accepted.configuration ≡ 17 →
            self.new.capacities.narrow ≡ self.old.capacities.narrow }
        ensures narrow_alone { bits_of self.old.accepted.configuration ≢ 17 →
            self.new.capacities.wide ≡ self.old.capacities.wide }
        ensures coded { OnOk result ((n : ℕ) →
            length (slice_bytes self.old.accepted picture.now info n) ≡
            slice_renormalisations self.old.accepted picture.now info n + 1) }
        ensures long { IfOk result (λ bytes. length bytes.items ≡
            (frame_counts self.old.accepted picture.now info).renormalisations
            + self.old.accepted.configuration.columns * self.old.accepted.configuration.rows
            * (1 + foot_length self.old.accepted.configuration.ec)) }
        ensures most { IfOk result (λ bytes. length bytes.items ≤
            frame_most self.old.accepted.configuration picture.now info) }
        ensures room { IfOk result (λ bytes. vec_capacity bytes ≤ 2 * length bytes.items) }
    {
        laws::encoded_frame_codes_its_picture();
        laws::slice_length_follows_from_residuals();
        laws::frame_length_follows_from_residuals();
        let _planes = picture.planes();
        let _table = self.checked.table();
        let _structure = info.structure();
        let mut frame = Vec::new(self.alloc);
        let counts = put_slices(
            self.alloc,
            &mut frame,
            &mut self.scratch,
            &self.checked,
            picture,
            info,
        )?;
        let bytes = bounded(self.alloc, frame)?;
        self.counts = counts;
        Ok(bytes)
    }
}
