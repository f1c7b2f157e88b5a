//! The coded bytes of a slice.

ghost use Rattle.std.specs.Prelude.{◌≡◌, ◌+◌, ◌^◌, ◌<◌, ◌≤◌, ◌++◌, ℕ, IfOk, IfErr, OnOk, length};
ghost use Rattle.std.specs.Prelude.{OnErr, replicate, vec_capacity, ◌≢◌};
ghost use Rattle.ffv1_range.specs.Writing.{unwritten};
ghost use Rattle.ffv1_line.specs.Length.{row_decisions};
ghost use Rattle.ffv1_slice.specs.Head.{key_steps, head_steps};
ghost use Rattle.ffv1_frame.specs.declared.fault.CodecFault.TheVariants as fault;
ghost use Rattle.ffv1_frame.specs.SliceList.{bits_of, chosen_head, chosen_slice};
ghost use Rattle.ffv1_frame.specs.Frame.{slice_bytes};
ghost use Rattle.ffv1_frame.specs.Length.{slice_residuals, slice_renormalisations};
ghost use Rattle.ffv1_frame.specs.Length.{KeepsCapacities, no_capacities};
ghost use Rattle.ffv1_encode.specs.Internal.HasPut.{HasPut, states_in};
ghost use Rattle.ffv1_encode.specs.Internal.Scratch.{capacities_of, capacity_of_planes};

use crate::cell_rows::PlaneRows;
use crate::slice::Slice;
use crate::slice_body::{SliceRows, put_body};
use ffv1_frame::fault::CodecFault;
use ffv1_frame::laws;
use ffv1_range::{RangeEncoder, laws as range_laws};
use ffv1_record::{Checked, laws as record_laws};
use ffv1_slice::{put_head, put_key};
use std::alloc::{AllocError, Allocator};

/// What is kept from a slice to the next: the memory of the states and of the rows.
#[derive(Drop)]
pub(crate) struct Scratch<A: Allocator> {
    pub(crate) states: Vec<u8, A>,
    pub(crate) rows: SliceRows<A>,
}

impl<A: Allocator + Copy> Scratch<A> {
    /// Keeps nothing yet. It takes no memory.
    pub(crate) fn new(alloc: A) -> Scratch<A>
        ensures { capacities_of result ≡ no_capacities }
    {
        Scratch {
            states: Vec::new(alloc),
            rows: SliceRows {
                narrow: PlaneRows::new(alloc),
                wide: PlaneRows::new(alloc),
            },
        }
    }
}

/// A slice that was coded.
#[derive(Drop)]
pub(crate) struct Coded<A: Allocator> {
    /// Its coded bytes.
    pub(crate) bytes: Vec<u8, A>,
    /// How many decisions its residuals took.
    pub(crate) decisions: u64,
}

/// How many states there are, of all classes.
fn states_in<A: Allocator>(checked: &Checked<A>) -> usize
    ensures { result ≡ states_in checked.now.configuration }
{
    let config = checked.config();
    let classes = config.classes();
    32 * (config.sets.most_contexts() as usize * classes)
}

/// So many fresh states (RFC 9043, 3.8.1.3), in the memory that there is if they find room in it.
/// None of it is given back.
fn renew<A: Allocator>(states: &mut Vec<u8, A>, count: usize) -> Result<(), AllocError>
    ensures fresh { OnOk result (states.new.items ≡ replicate count 128) }
    ensures room { vec_capacity states.old ≤ vec_capacity states.new }
    ensures full { OnErr result (vec_capacity states.old < count) }
{
    states.resize(count, 128)?;
    states.fill(128);
    Ok(())
}

/// Puts the key and the head of a slice.
fn put_beginning<R: Allocator, A: Allocator, B: Allocator>(
    encoder: &mut RangeEncoder<R>,
    slice: &Slice<'_, A, B>,
) -> Result<(), CodecFault>
    requires { encoder.old ≡ unwritten }
    ensures ok { OnOk result ((count : ℕ) → HasPut slice.now.checked.now.table
        (key_steps slice.now.number ++ head_steps slice.now.checked.now.configuration
        slice.now.number (chosen_head slice.now.checked.now.configuration slice.now.info))
        encoder.new (replicate count 128)) }
    ensures err { IfErr result (λ f. f ≡ fault.OutOfMemory) }
{
    range_laws::array_states_follow_the_history();
    range_laws::counters_go_on_by_both_parts();
    range_laws::symbols_stay_in_their_slots();
    range_laws::decisions_of_two_parts_join();
    let Ok(()) = put_key(encoder, slice.checked, slice.number) else {
        return Err(CodecFault::OutOfMemory);
    };
    let head = slice.head();
    let Ok(()) = put_head(encoder, slice.checked, slice.number, &head) else {
        return Err(CodecFault::OutOfMemory);
    };
    Ok(())
}

/// Puts the decisions of a slice, by fresh states: its key, its head and its residuals. Answers how
/// many those of its residuals were.
fn put_slice<R: Allocator, A: Allocator, B: Allocator>(
    encoder: &mut RangeEncoder<R>,
    states: &mut [u8],
    rows: &mut SliceRows<R>,
    slice: &Slice<'_, A, B>,
) -> Result<u64, CodecFault>
    requires new { encoder.old ≡ unwritten }
    requires fresh { states.old ≡ replicate (states_in slice.now.checked.now.configuration) 128 }
    ensures ok { OnOk result (HasPut slice.now.checked.now.table
        (chosen_slice slice.now.checked.now.configuration slice.now.picture.now slice.now.info
        slice.now.number) encoder.new states.new) }
    ensures decisions { IfOk result (λ d. d ≡ row_decisions (slice_residuals
        slice.now.checked.now.configuration slice.now.picture.now slice.now.info
        slice.now.number)) }
    ensures err { IfErr result (λ f. f ≡ fault.OutOfMemory) }
    ensures narrow { capacity_of_planes rows.old.narrow ≤ capacity_of_planes rows.new.narrow }
    ensures wide { capacity_of_planes rows.old.wide ≤ capacity_of_planes rows.new.wide }
    ensures wide_alone { bits_of slice.now.checked.now.configuration ≡ 17 →
        capacity_of_planes rows.new.narrow ≡ capacity_of_planes rows.old.narrow }
    ensures narrow_alone { bits_of slice.now.checked.now.configuration ≢ 17 →
        capacity_of_planes rows.new.wide ≡ capacity_of_planes rows.old.wide }
{
    range_laws::each_decision_has_a_state();
    range_laws::counters_from_zero_show_all_steps();
    record_laws::accepted_configuration_is_in_range();
    laws::slice_length_follows_from_residuals();
    let _table = slice.checked.table();
    let _structure = slice.info.structure();
    put_beginning(encoder, slice)?;
    let before = encoder.decisions();
    put_body(encoder, states, rows, slice)?;
    Ok(encoder.decisions() - before)
}

/// Codes a slice: its decisions, ended by the sentinel.
pub(crate) fn code_slice<R: Allocator + Copy, A: Allocator, B: Allocator>(
    alloc: R,
    scratch: &mut Scratch<R>,
    slice: &Slice<'_, A, B>,
) -> Result<Coded<R>, CodecFault>
    ensures bytes { IfOk result (λ c. c.bytes.items ≡ slice_bytes slice.now.checked.now
        slice.now.picture.now slice.now.info slice.now.number) }
    ensures long { IfOk result (λ c. length c.bytes.items ≡ slice_renormalisations
        slice.now.checked.now slice.now.picture.now slice.now.info slice.now.number + 1) }
    ensures decisions { IfOk result (λ c. c.decisions ≡ row_decisions (slice_residuals
        slice.now.checked.now.configuration slice.now.picture.now slice.now.info
        slice.now.number)) }
    ensures err { IfErr result (λ f. f ≡ fault.OutOfMemory) }
    ensures room { vec_capacity scratch.old.states ≤ vec_capacity scratch.new.states }
    ensures capacity { KeepsCapacities (capacities_of scratch.old) (capacities_of scratch.new) }
    ensures wide_alone { bits_of slice.now.checked.now.configuration ≡ 17 →
        capacity_of_planes scratch.new.rows.narrow ≡ capacity_of_planes scratch.old.rows.narrow }
    ensures narrow_alone { bits_of slice.now.checked.now.configuration ≢ 17 →
        capacity_of_planes scratch.new.rows.wide ≡ capacity_of_planes scratch.old.rows.wide }
{
    renew(&mut scratch.states, states_in(slice.checked))?;
    let mut encoder = RangeEncoder::new(alloc);
    let states = scratch.states.as_mut_slice();
    let decisions = put_slice(&mut encoder, states, &mut scratch.rows, slice)?;
    let Ok(bytes) = encoder.finish_sentinel() else {
        return Err(CodecFault::OutOfMemory);
    };
    Ok(Coded { bytes, decisions })
}
