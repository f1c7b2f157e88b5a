//! One mono plane, coded as the content of one slice.

ghost use Rattle.std.specs.Prelude.{◌≡◌, ◌+◌, ◌*◌, ◌^◌, ◌≤◌, ◌<◌, length, replicate};
ghost use Rattle.std.specs.Prelude.{IfOk, IfErr, OnOk};
ghost use Rattle.ffv1_video.specs.declared.fault.Fault.TheVariants as fault;
ghost use Rattle.ffv1_range.specs.Symbols.{AllHeld};
ghost use Rattle.ffv1_range.specs.Puts.{Puts};
ghost use Rattle.ffv1_plane.specs.Quantisation.{contexts_of, small_set};
ghost use Rattle.ffv1_range.specs.Standard.{standard};
ghost use Rattle.ffv1_line.specs.Cell.{cell_of};
ghost use Rattle.ffv1_line.specs.Row.{cell_steps, chosen_rows};
ghost use Rattle.ffv1_line.specs.Length.{cell_decisions};
ghost use Rattle.ffv1_pack.specs.Plane.{plane_residuals, plane_steps, plane_end, plane_code};

use ffv1_line::{CellRows, Coding, RollingRows, encode_cell};
use ffv1_plane::QuantSet;
use ffv1_range::{RangeEncoder, StateTable};
use ffv1_video::Fault;
use std::alloc::{AllocError, Allocator, Global};

/// A mono plane that was coded as the content of one slice.
#[derive(Drop)]
pub struct Coded<A: Allocator = Global> {
    /// How many decisions its samples took, the sentinel not counted.
    pub decisions: u64,
    /// Its bytes, by the sentinel ending.
    pub code: Vec<u8, A>,
}

/// A mono plane: its samples of 8 bits, row by row.
#[derive(Drop)]
pub(crate) struct MonoPlane<'a> {
    /// Samples of a row.
    pub(crate) width: u32,
    /// Rows.
    pub(crate) height: u32,
    /// All samples.
    pub(crate) samples: &'a [u8],
    ghost whole: { length samples.now ≡ width * height },
}

/// Fresh states, so many.
pub(crate) fn fresh_states<A: Allocator>(alloc: A, count: usize) -> Result<Vec<u8, A>, AllocError>
    ensures { IfOk result (λ v. v.items ≡ replicate count 128) }
{
    vec![in alloc; 128u8; count]
}

/// Samples of 8 bits as they are coded.
fn widen(samples: &[u8], row: &mut [u16])
    requires { length samples.now ≡ length row.old }
    ensures { row.new ≡ samples.now }
{
    for x in 0..row.len() {
        row[x] = u16::from(samples[x]);
    }
}

impl<'a> CellRows for MonoPlane<'a> {
    ghost cell = { λ p. cell_of p.width p.samples.now };

    ghost rows = { λ p. p.height };

    fn height(&self) -> u32 {
        self.height
    }

    fn load(&self, y: u32, line: &mut [u16]) {
        let width = self.width as usize;
        let start = y as usize * width;
        widen(&self.samples[start..start + width], line);
    }
}

/// Codes the rows of a plane one after the other.
fn encode_rows<A: Allocator + Copy>(
    alloc: A,
    encoder: &mut RangeEncoder<A>,
    table: &StateTable,
    set: &QuantSet<A>,
    states: &mut [u8],
    plane: &MonoPlane<'_>,
) -> Result<(), Fault>
    requires some { 0 < plane.now.width }
    requires rows { length states.old ≡ contexts_of set.now * 32 }
    requires held { AllHeld table.now states.old }
    ensures ok { OnOk result (Puts table.now encoder.old states.old encoder.new states.new
        (cell_steps set.now (cell_of plane.now.width plane.now.samples.now) 0
        (chosen_rows set.now 8 (cell_of plane.now.width plane.now.samples.now) plane.now.height))) }
    ensures err { IfErr result (λ f. f ≡ fault.OutOfMemory) }
{
    let mut rows = RollingRows::new(alloc, plane.width as usize)?;
    let coding = Coding {
        table,
        set,
        bits: 8,
    };
    encode_cell(encoder, &coding, states, &mut rows, plane)?;
    Ok(())
}

/// The same with given states and what they end in.
fn code_rows<A: Allocator + Copy>(
    alloc: A,
    table: &StateTable,
    set: &QuantSet<A>,
    states: &mut [u8],
    plane: &MonoPlane<'_>,
) -> Result<Coded<A>, Fault>
    requires some { 0 < plane.now.width }
    requires few { plane.now.width * plane.now.height ≤ 2 ^ 26 }
    requires fresh { states.old ≡ replicate (contexts_of set.now * 32) 128 }
    requires held { AllHeld table.now states.old }
    ensures code { IfOk result (λ c. c.code.items ≡ plane_code table.now set.now plane.now.width
        plane.now.height plane.now.samples.now) }
    ensures decisions { IfOk result (λ c. c.decisions ≡ length (plane_steps set.now plane.now.width
        plane.now.height plane.now.samples.now)) }
    ensures residuals { IfOk result
        (λ c. c.decisions ≡ cell_decisions (plane_residuals set.now plane.now.width plane.now.height
        plane.now.samples.now)) }
    ensures long { IfOk result
        (λ c. length c.code.items + 1
        ≡ (plane_end table.now set.now plane.now.width plane.now.height
        plane.now.samples.now).count) }
    ensures err { IfErr result (λ f. f ≡ fault.OutOfMemory) }
{
    set.is_a_bounded_set();
    let mut encoder = RangeEncoder::new(alloc);
    encode_rows(alloc, &mut encoder, table, set, states, plane)?;
    let decisions = encoder.decisions();
    let code = encoder.finish_sentinel()?;
    Ok(Coded { decisions, code })
}

/// Codes a mono plane of `width` times `height` samples of 8 bits, row by row, as the content of
/// one slice: with the standard's state transition table, the small quantisation table set and
/// fresh states, without keyframe and head, ended by the sentinel (RFC 9043, 3.8.1 and 4.7). Both
/// sizes are from 1 to 8192.
///
/// `OutOfMemory` if memory was refused.
pub fn code_plane<A: Allocator + Copy>(
    alloc: A,
    width: u32,
    height: u32,
    samples: &[u8],
) -> Result<Coded<A>, Fault>
    requires some_wide { 1 ≤ width }
    requires wide { width ≤ 8192 }
    requires some_high { 1 ≤ height }
    requires high { height ≤ 8192 }
    requires whole { length samples.now ≡ width * height }
    ensures code { IfOk result (λ c. c.code.items ≡ plane_code standard small_set width height
        samples.now) }
    ensures decisions { IfOk result (λ c. c.decisions ≡ length (plane_steps small_set width height
        samples.now)) }
    ensures residuals { IfOk result
        (λ c. c.decisions ≡ cell_decisions (plane_residuals small_set width height samples.now)) }
    ensures long { IfOk result
        (λ c. length c.code.items + 1
        ≡ (plane_end standard small_set width height samples.now).count) }
    ensures err { IfErr result (λ f. f ≡ fault.OutOfMemory) }
{
    let table = StateTable::standard();
    let set = QuantSet::small(alloc)?;
    let mut states = fresh_states(alloc, set.contexts() as usize * 32)?;
    let plane = MonoPlane {
        width,
        height,
        samples,
    };
    code_rows(alloc, &table, &set, states.as_mut_slice(), &plane)
}
