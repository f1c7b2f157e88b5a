//! Decodes frames.

ghost use Rattle.std.specs.Prelude.{◌≡◌, ℕ, List, Ok, Err, OnOk, IfOk, IfErr, length};
ghost use Rattle.std.specs.Prelude.{vec_capacity};
ghost use Rattle.ffv1_record.specs.Held.{held_of};
ghost use Rattle.ffv1_slice.specs.Cutting.{CutsTo, IsRefused};
ghost use Rattle.ffv1_slice.specs.declared.cutting.CutFault.{CutFault};
ghost use Rattle.ffv1_frame.specs.declared.fault.CodecFault.TheVariants as fault;
ghost use Rattle.ffv1_frame.specs.Answer.{Decoder, Answers, AnswersCoded, cut_fault, no_tally};
ghost use Rattle.ffv1_frame.specs.Answer.{decided_by};
ghost use Rattle.ffv1_frame.specs.Cost.{HasCost};
ghost use Rattle.ffv1_frame.specs.Handed.{HandsFinishes};
ghost use Rattle.ffv1_decode.specs.Internal.Buffers.{HoldBits, KeepsLengths, length_of_lines};
ghost use Rattle.ffv1_decode.specs.Internal.Buffers.{capacity_of_lines};
ghost use Rattle.ffv1_frame.specs.SliceList.{bits_of};
ghost use Rattle.ffv1_frame.specs.Headline.{Headline};
ghost use Rattle.ffv1_frame.specs.Damage.{HasBurst, IsDamaged};
ghost use Rattle.ffv1_frame.specs.Decoding.{in_slice};
ghost use Rattle.ffv1_decode.specs.OwnFaults.{CountsSink, IsOwn};
ghost use Rattle.ffv1_decode.specs.Internal.Opened.{IsCutOf, coded_by};

use crate::buffers::{Buffers, Lines, Slices};
use crate::column::Column;
use crate::columns::{add_up, close};
use crate::opening::codec_fault;
use crate::parts::Frame;
use crate::places;
use crate::row::decode_row;
use ffv1_frame::fault::{CodecFault, FrameFault};
use ffv1_frame::info::Info;
use ffv1_frame::laws;
use ffv1_frame::line_word::bits_of;
use ffv1_range::{Tally, laws as range_laws};
use ffv1_record::{Checked, laws as record_laws};
use ffv1_slice::{Spans, cut};
use ffv1_wire::LineSink;
use std::alloc::{AllocError, Allocator, Global};
use std::marker::Model;

/// A decoder of frames of one configuration. It takes memory once, and decodes each frame in it.
///
/// It is seen as a `Decoder`: its configuration, what its last call decided, the lengths of its
/// five vectors, which are those that the configuration asks for, and their capacities, which stay
/// as `new` left them.
#[derive(Drop)]
pub struct FrameDecoder<A: Allocator = Global> {
    checked: Checked<A>,
    buffers: Buffers<A>,
    spans: Spans<A>,
    tally: Tally,
}

impl<A: Allocator> Model for FrameDecoder<A> {
    ghost use Rattle.std.specs.Prelude.{◌≡◌, length, vec_capacity};
    ghost use Rattle.ffv1_record.specs.Held.{held_of};
    ghost use Rattle.ffv1_frame.specs.Answer.{Decoder};
    ghost use Rattle.ffv1_decode.specs.Internal.Buffers.{HoldBits, length_of_lines};
    ghost use Rattle.ffv1_decode.specs.Internal.Buffers.{capacity_of_lines};
    ghost use Rattle.ffv1_frame.specs.SliceList.{bits_of};

    ghost Value = { Decoder };

    ghost view = { λ d. record {
      accepted = d.checked;
      tally = d.tally;
      held = record {
        states = length d.buffers.slices.states.items;
        samples = length_of_lines d.buffers.lines;
        output = length d.buffers.out.items;
        columns = length d.buffers.slices.columns.items;
        offsets = d.spans.room;
      };
      capacities = record {
        states = vec_capacity d.buffers.slices.states;
        samples = capacity_of_lines d.buffers.lines;
        output = vec_capacity d.buffers.out;
        columns = vec_capacity d.buffers.slices.columns;
        offsets = d.spans.capacity;
      };
    } };

    ghost invariant = { λ d. (held_of d.checked.configuration ≡ record {
      states = length d.buffers.slices.states.items;
      samples = length_of_lines d.buffers.lines;
      output = length d.buffers.out.items;
      columns = length d.buffers.slices.columns.items;
      offsets = d.spans.room;
    }) × HoldBits d.buffers.lines (bits_of d.checked.configuration) };
}

/// Columns of which none is open, in memory for exactly as many.
fn fresh_columns<A: Allocator>(alloc: A, count: usize) -> Result<Vec<Column, A>, AllocError>
    ensures long { IfOk result (λ v. length v.items ≡ count) }
    ensures capacity { IfOk result (λ v. vec_capacity v ≡ count) }
{
    let mut columns = Vec::with_capacity(alloc, count)?;
    for k in 0..count {
        columns.push_reserved(Column {
            parked: None,
            bits: None,
            index: 0,
            first: 0,
            last: 0,
            indexes: [0; 3],
        });
    }
    Ok(columns)
}

/// So many copies of a number, in memory for exactly as many.
fn copies<T: Copy + Drop, A: Allocator>(
    alloc: A,
    number: T,
    count: usize,
) -> Result<Vec<T, A>, AllocError>
    ensures long { IfOk result (λ v. length v.items ≡ count) }
    ensures capacity { IfOk result (λ v. vec_capacity v ≡ count) }
{
    let mut copies = Vec::with_capacity(alloc, count)?;
    for _ in 0..count {
        copies.push_reserved(number);
    }
    Ok(copies)
}

/// Lines of so many samples, for pictures of a configuration: in words of 32 bits if a coded
/// sample has 17, else of 16.
fn fresh_lines<A: Allocator, B: Allocator>(
    alloc: A,
    checked: &Checked<B>,
    samples: usize,
) -> Result<Lines<A>, AllocError>
    ensures long { IfOk result (λ v. length_of_lines v ≡ samples) }
    ensures bits { IfOk result (λ v. HoldBits v (bits_of checked.now.configuration)) }
    ensures capacity { IfOk result (λ v. capacity_of_lines v ≡ samples) }
{
    if bits_of(checked) == 17 {
        let wide = copies(alloc, 0u32, samples)?;
        return Ok(Lines::Wide(wide));
    }
    let narrow = copies(alloc, 0u16, samples)?;
    Ok(Lines::Narrow(narrow))
}

/// The counts before any decision.
fn no_tally() -> Tally
    ensures { result ≡ no_tally }
{
    Tally {
        ones: 0,
        zeros: 0,
        renormalisations: 0,
    }
}

/// Decodes what was cut, row after row.
fn decode_rows<A: Allocator, B: Allocator, S: LineSink>(
    checked: &Checked<A>,
    payload: &[u8],
    spans: &Spans<B>,
    buffers: &mut Buffers<A>,
    tally: &mut Tally,
    sink: &mut S,
) -> Result<Info, FrameFault>
    requires held { held_of checked.now.configuration ≡ record {
      states = length buffers.old.slices.states.items;
      samples = length_of_lines buffers.old.lines;
      output = length buffers.old.out.items;
      columns = length buffers.old.slices.columns.items;
      offsets = spans.now.room;
    } }
    requires bits { HoldBits buffers.old.lines (bits_of checked.now.configuration) }
    requires cut { IsCutOf checked.now payload.now spans.now }
    requires tally { tally.old ≡ no_tally }
    ensures exact { AnswersCoded S.takes S.refuses checked.now
        (coded_by checked.now payload.now spans.now) sink.old sink.new tally.new result }
    ensures counted { CountsSink (S.failures sink.old) (S.failures sink.new) result }
    ensures same { KeepsLengths buffers.old buffers.new }
{
    record_laws::accepted_configuration_is_in_range();
    range_laws::each_step_is_one_or_zero();
    places::slices_lie_beside_one_another();
    let frame = Frame::new(checked, payload);
    let mut first = None;
    for row in 0..frame.grid.rows() {
        close(&mut buffers.slices.columns);
        let decoded = decode_row(&frame, spans, row, buffers, &mut first, sink);
        *tally = add_up(&buffers.slices.columns, *tally);
        decoded?;
    }
    Ok(first.unwrap())
}

/// Cuts a payload.
fn cut_payload<A: Allocator, B: Allocator>(
    checked: &Checked<A>,
    payload: &[u8],
    spans: &mut Spans<B>,
) -> Result<(), FrameFault>
    ensures ok { OnOk result (CutsTo checked.now.configuration payload.now (Ok spans.new.offsets)) }
    ensures cut { OnOk result (IsCutOf checked.now payload.now spans.new) }
    ensures err { IfErr result (λ f. (c : CutFault)
        × IsRefused checked.now.configuration payload.now c × (f ≡ cut_fault c)) }
    ensures own { IfErr result IsOwn }
    ensures room { spans.new.room ≡ 1025 }
    ensures capacity { spans.new.capacity ≡ spans.old.capacity }
{
    match cut(checked, payload, spans) {
        Ok(()) => Ok(()),
        Err(refused) => Err(FrameFault::in_slice(codec_fault(refused.fault), refused.slice)),
    }
}

impl<A: Allocator + Copy> FrameDecoder<A> {
    /// A decoder of pictures of this configuration, in its profile. All the memory that it ever
    /// takes is taken here, in five vectors as long as `Checked::held` says, each in memory for
    /// exactly as many: the pictures' height says only whether two lines of chroma are kept.
    /// Answers `OutOfMemory` if one of them was refused.
    pub fn new(alloc: A, checked: Checked<A>) -> Result<FrameDecoder<A>, CodecFault>
        ensures ok { IfOk result (λ d. d ≡ record {
          accepted = checked;
          tally = no_tally;
          held = held_of checked.configuration;
          capacities = d.capacities;
        }) }
        ensures capacities { IfOk result (λ d. d.capacities ≡ held_of checked.configuration) }
        ensures err { IfErr result (λ f. f ≡ fault.OutOfMemory) }
    {
        let held = checked.held();
        let states = copies(alloc, 128u8, held.states)?;
        let lines = fresh_lines(alloc, &checked, held.samples)?;
        let out = copies(alloc, 0u8, held.output)?;
        let columns = fresh_columns(alloc, held.columns)?;
        let Ok(spans) = Spans::new(alloc) else {
            return Err(CodecFault::OutOfMemory);
        };
        let slices = Slices { columns, states };
        Ok(FrameDecoder {
            checked,
            buffers: Buffers { slices, lines, out },
            spans,
            tally: no_tally(),
        })
    }
}

impl<A: Allocator> FrameDecoder<A> {
    /// The configuration that it was made with.
    pub fn config(&self) -> &Checked<A>
        ensures { result.now ≡ self.now.accepted }
    {
        &self.checked
    }

    /// How many decisions the last call of `decode` made, at most 2^64 - 1; 0 before one.
    pub fn decisions(&self) -> u64
        ensures { result ≡ decided_by self.now.tally }
    {
        self.tally.ones.saturating_add(self.tally.zeros)
    }

    /// How many decisions of the last call of `decode` were 1 and how many 0, and how often its
    /// decoders renormalised, added up over the slices, those of a refused symbol among them. Each
    /// is at most 2^64 - 1, and 0 before a call.
    pub fn tally(&self) -> Tally
        ensures { result ≡ self.now.tally }
    {
        self.tally
    }

    /// Decodes a frame, in what is held.
    fn decode_held<S: LineSink>(&mut self, payload: &[u8], sink: &mut S) -> Result<Info, FrameFault>
        ensures exact { Answers S.takes S.refuses self.old.accepted payload.now sink.old sink.new
            self.new.tally result }
        ensures counted { CountsSink (S.failures sink.old) (S.failures sink.new) result }
        ensures same { self.new ≡ record self.old { tally = self.new.tally } }
        ensures holds { self.new.held ≡ held_of self.new.accepted.configuration }
    {
        self.tally = no_tally();
        cut_payload(&self.checked, payload, &mut self.spans)?;
        decode_rows(
            &self.checked,
            payload,
            &self.spans,
            &mut self.buffers,
            &mut self.tally,
            sink,
        )
    }

    /// Decodes a frame (RFC 9043, 4.4 to 4.9), and answers what its slices say of the picture.
    ///
    /// The payload is cut into slices first. Then the rows of slices are decoded from the top. Each
    /// slice of a row is opened, from the left. Then line after line is read, in each slice from
    /// the left, made what it codes, and handed to the sink as soon as it is whole: `plane` from 0,
    /// `y` from the top of the plane, its samples as bytes. These are one each at 8 bits, and two
    /// at more, the low byte first. In RCT a line is handed over as red, green, blue and
    /// transparency, else the planes come one after the other in each row of slices. What earlier
    /// calls left plays no part. It takes no memory and gives none back, whatever it answers:
    /// length and capacity of each of the five vectors stay.
    ///
    /// It is Ok exactly if the payload codes a picture and the sink takes its lines. The fault is
    /// the first in that order, with its place: `Footer`, `Leftover`, `SliceParity` or
    /// `SliceStatus` before any line; `BadStart`, `NotKey`, a fault of the head or `InfoDiffers`
    /// when a slice is opened; `SymbolTooLong` in a sample, and `BitsEnd` or `BadCode` in a
    /// Golomb-Rice coded one; `Overread` at `Wide` after a head and after each line of a cell;
    /// `Overlap` at `Wide` after a line of a cell; `Ending` at `Wide` after the last line of a
    /// slice, and `Padding` of Golomb-Rice coded samples; `Colour` in a line that was read; and
    /// `Sink` exactly if the sink refused the line that came next. The sink then has exactly the
    /// lines before it, and nothing is decided after it; the decoder is ready for the next frame.
    ///
    /// Heads are read in the profile of the configuration: at `Wide` an aspect of which just one
    /// number is 0 says what 0:0 says, that it is unknown.
    ///
    /// At `Wide` the slice to the left may code the first sample of a chroma line, too, and the one
    /// above each sample of the first chroma line of a cell. Both then say the same value, which is
    /// handed over once: a line that two rows of slices code as the upper row says it, as soon as
    /// it is whole there. Else it is `Overlap`, as soon as the later slice has read its line, and
    /// not too far: in that slice, in that plane and line, and `x` is the first column of the plane
    /// at which it says another value. The sink then has exactly the lines before: if the row of
    /// slices above codes that line, too, it is among them, as that row says it; else it is not.
    ///
    /// Whatever bytes come, it makes at most 63 decisions for each sample that a slice codes (one
    /// that several slices code counts for each of them), and 559 for each slice, or 621 if there
    /// is transparency.
    ///
    /// Bytes after the end of a slice are read as 0. At `Wide` a slice that is read more than two
    /// bytes past its end is `Overread`, exactly if its decoder has renormalised more often than
    /// the slice has coded bytes. So a payload is decoded in a time that goes by its length.
    ///
    /// At `Wide` a slice ends where its coder does (RFC 9043, 3.8.1.1.1): one more decision by
    /// state 129 would be 0, and the decoder would then have renormalised exactly once less than
    /// the slice has coded bytes. Else it is `Ending`, at its last plane, the last line of its cell
    /// there, and x 0. So a slice that lost coded bytes at its end, or has too many bytes there, is
    /// refused. That decision is looked at, but counted nowhere.
    ///
    /// Golomb-Rice coded samples (RFC 9043, 3.8.2), which `Wide` alone takes, are bits behind the
    /// head of their slice: they begin at the byte that a coder reads last, once it has read one
    /// more decision by state 129, whichever it is. No bit behind the slice's coded bytes is read:
    /// one that is wanted there is `BitsEnd`. Bits that an encoder writes of no sample are
    /// `BadCode`: a number of more bits than a difference has, the long form of a number that has a
    /// short one, a run that leaves its line, and a difference of 0 behind a run that was broken.
    /// Behind the last line only zeros up to a byte may come, else it is `Padding`, at the slice's
    /// last plane, the last line of its cell there, and x 0. Such a slice has at most eight lines
    /// for each of its coded bytes.
    ///
    /// With parity, a payload that differs from a good one within 32 neighbouring bits of one
    /// slice, apart from its slice_size, is `SliceParity` in that slice, before any line. Wherever
    /// these bits lie in the payload, in a slice_size and across slices too, it is refused when it
    /// is cut into slices, by `Footer`, `Leftover`, `SliceParity` or `SliceStatus`, before any
    /// line.
    ///
    /// Also before a fault, the sink is handed nothing but lines that are made of what the bytes of
    /// the slices code.
    ///
    /// What `tally` shows afterwards is what the decisions cost. With `floor` the least state of
    /// the table, the slices renormalised little more often than the weight of their decisions asks
    /// for: by a factor of at most `(floor + 1) / floor` for each 1. They renormalised little less
    /// often, too.
    pub fn decode<S: LineSink>(&mut self, payload: &[u8], sink: &mut S) -> Result<Info, FrameFault>
        ensures headline { Headline S.takes S.refuses self.old.accepted sink.old sink.new result
            payload.now self.new.tally self.new.held }
        ensures exact { Answers S.takes S.refuses self.old.accepted payload.now sink.old sink.new
            self.new.tally result }
        ensures counted { CountsSink (S.failures sink.old) (S.failures sink.new) result }
        ensures damaged { (sent : List ℕ) (spans : ℕ → ℕ) (slice : ℕ) →
            IsDamaged self.old.accepted sent payload.now spans slice →
            (result ≡ Err (in_slice fault.SliceParity slice)) × (self.new.tally ≡ no_tally)
            × (sink.new ≡ sink.old) }
        ensures burst { (sent : List ℕ) → HasBurst self.old.accepted sent payload.now →
            (f : CutFault) × IsRefused self.old.accepted.configuration payload.now f
            × (result ≡ Err (cut_fault f)) × (self.new.tally ≡ no_tally)
            × (sink.new ≡ sink.old) }
        ensures same { self.new ≡ record self.old { tally = self.new.tally } }
        ensures cost { HasCost self.old.accepted self.new.tally }
        ensures handed { HandsFinishes S.takes S.refuses self.old.accepted payload.now sink.old
            sink.new }
    {
        laws::answer::headline_holds_for_each_answer::<S>();
        laws::frame_length_follows_from_residuals();
        laws::answer::damage_is_found_by_parity::<S>();
        laws::answer::damage_anywhere_is_refused::<S>();
        laws::answer::frame_cost_is_near_its_weight::<S>();
        laws::answer::sink_is_handed_only_coded_lines::<S>();
        let _table = self.checked.table();
        self.decode_held(payload, sink)
    }
}
