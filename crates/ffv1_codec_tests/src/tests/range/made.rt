//! Decisions for tests.

ghost use Rattle.std.specs.Prelude.{◌<◌};
ghost use Rattle.ffv1_range.specs.Symbols.{AreHeld};

use ffv1_range::{Fault, RangeEncoder, StateTable};

/// One decision at a slot.
pub(crate) fn put_at(
    encoder: &mut RangeEncoder,
    table: &StateTable,
    states: &mut [u8],
    slot: usize,
    bit: bool,
) -> Result<(), Fault>
    requires held { AreHeld table.now states.old }
    requires slot { slot < 32 }
    ensures { AreHeld table.now states.new }
{
    encoder.put(table, &mut states[slot], bit)
}

/// A symbol whose exponent has 31 ones, after the decision that the number is not zero.
pub(crate) fn put_long_exponent(
    encoder: &mut RangeEncoder,
    table: &StateTable,
    states: &mut [u8],
) -> Result<(), Fault>
    requires { AreHeld table.now states.old }
{
    put_at(encoder, table, states, 0, false)?;
    for k in 0..31usize {
        put_at(encoder, table, states, 1 + k.min(9), true)?;
    }
    Ok(())
}
