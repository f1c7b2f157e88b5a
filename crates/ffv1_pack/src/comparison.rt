//! The code of a mono plane, decoded and compared with the plane.

ghost use Rattle.std.specs.Prelude.{◌≡◌, ◌*◌, ◌≤◌, ◌<◌, [], length, IfOk, IfErr, IsTrue, ◌↔◌, true};
ghost use Rattle.ffv1_video.specs.declared.fault.Fault.TheVariants as fault;
ghost use Rattle.ffv1_range.specs.Symbols.{AllHeld};
ghost use Rattle.ffv1_range.specs.Standard.{standard};
ghost use Rattle.ffv1_plane.specs.Quantisation.{contexts_of, small_set};
ghost use Rattle.ffv1_line.specs.Coding.{coding_by};
ghost use Rattle.ffv1_line.specs.Coder.{decoder_by};
ghost use Rattle.ffv1_line.specs.Coded.{StandsAfter};
ghost use Rattle.ffv1_line.specs.Cell.{cell_of};
ghost use Rattle.ffv1_pack.specs.Plane.{plane_residuals, plane_code};
ghost use Rattle.ffv1_pack.specs.Internal.Plane.{Compared};

use crate::laws;
use crate::plane::{MonoPlane, fresh_states};
use ffv1_line::{Coding, RollingRows, RowSink, decode_cell, laws as line_laws};
use ffv1_plane::QuantSet;
use ffv1_range::{RangeDecoder, StateTable};
use ffv1_video::Fault;
use std::alloc::{AllocError, Allocator};

/// Whether a line has these samples.
fn shows(line: &[u16], samples: &[u8]) -> bool
    requires { length line.now ≡ length samples.now }
    ensures { IsTrue result ↔ (line.now ≡ samples.now) }
{
    // All places, without a way out in between, so that many are compared at once.
    let mut same = true;
    for x in 0..line.len() {
        same = same & (line[x] == u16::from(samples[x]));
    }
    same
}

/// Rows that come one after the other, compared with samples.
#[derive(Drop)]
struct Comparison<'a> {
    /// The samples that no row was compared with.
    rest: &'a [u8],
    /// Whether each row so far had its samples.
    same: bool,
}

impl<'a> RowSink for Comparison<'a> {
    ghost takes = { λ old row new. Compared old.rest.now old.same row new.rest.now new.same };

    fn row(&mut self, samples: &[u16]) {
        let width = samples.len();
        if width > self.rest.len() {
            self.same = false;
            return;
        }
        self.same = self.same & shows(samples, &self.rest[..width]);
        self.rest = &self.rest[width..];
    }
}

/// Whether the bytes decode to these samples, row by row. They do if they code them.
fn decode_rows<A: Allocator + Copy>(
    alloc: A,
    decoder: &mut RangeDecoder<'_>,
    table: &StateTable,
    set: &QuantSet<A>,
    states: &mut [u8],
    plane: &MonoPlane<'_>,
) -> Result<bool, AllocError>
    requires some { 0 < plane.now.width }
    requires rows { length states.old ≡ contexts_of set.now * 32 }
    requires held { AllHeld table.now states.old }
    requires stands { StandsAfter [] (coding_by table.now set.now 8) states.old
        (cell_of plane.now.width plane.now.samples.now)
        (plane_residuals set.now plane.now.width plane.now.height plane.now.samples.now) 0
        (decoder_by decoder.old states.old) }
    ensures same { IfOk result (λ same. same ≡ true) }
{
    let mut rows = RollingRows::new(alloc, plane.width as usize)?;
    let coding = Coding {
        table,
        set,
        bits: 8,
    };
    let mut comparison = Comparison {
        rest: plane.samples,
        same: true,
    };
    let height = plane.height;
    let decoded = decode_cell(decoder, &coding, states, &mut rows, height, &mut comparison);
    Ok(decoded.is_ok() & comparison.same)
}

/// Whether the code of a mono plane decodes to the plane's samples. It does if memory is not
/// refused.
pub(crate) fn decodes_to<A: Allocator + Copy>(
    alloc: A,
    code: &[u8],
    width: u32,
    height: u32,
    samples: &[u8],
) -> Result<bool, Fault>
    requires some_wide { 1 ≤ width }
    requires wide { width ≤ 8192 }
    requires some_high { 1 ≤ height }
    requires high { height ≤ 8192 }
    requires whole { length samples.now ≡ width * height }
    requires coded { code.now ≡ plane_code standard small_set width height samples.now }
    ensures same { IfOk result (λ same. same ≡ true) }
    ensures err { IfErr result (λ f. f ≡ fault.OutOfMemory) }
{
    laws::plane_code_is_read_back();
    line_laws::coded_cell_is_read_back();
    let table = StateTable::standard();
    let set = QuantSet::small(alloc)?;
    set.is_a_bounded_set();
    let mut states = fresh_states(alloc, set.contexts() as usize * 32)?;
    let Ok(mut decoder) = RangeDecoder::new(code) else {
        return Ok(false);
    };
    let plane = MonoPlane {
        width,
        height,
        samples,
    };
    let same = decode_rows(
        alloc,
        &mut decoder,
        &table,
        &set,
        states.as_mut_slice(),
        &plane,
    )?;
    Ok(same)
}
