//! The symbols of a record, written one after the other, whether or not a record may have them.

ghost use Rattle.std.specs.Prelude.{◌^◌, ◌<◌, unsigned_abs};
ghost use Rattle.ffv1_range.specs.Standard.{standard};
ghost use Rattle.ffv1_range.specs.Symbols.{AreHeld};

use ffv1_range::{Fault, RangeEncoder, StateTable};
use std::alloc::Global;
use std::marker::Model;

/// An encoder of symbols, and the states of the parameters.
#[derive(Drop)]
pub(super) struct Symbols {
    encoder: RangeEncoder,
    table: StateTable,
    states: [u8; 32],
}

impl Model for Symbols {
    ghost use Rattle.std.specs.Prelude.{◌≡◌};
    ghost use Rattle.ffv1_range.specs.Standard.{standard};
    ghost use Rattle.ffv1_range.specs.Symbols.{AreHeld};
    ghost use Rattle.ffv1_range.specs.Writing.{Writing};

    ghost Value = { Writing };

    ghost view = { λ s. s.encoder };

    ghost invariant = { λ s. (s.table ≡ standard) × AreHeld standard s.states };
}

impl Symbols {
    /// Nothing was written yet.
    pub(super) fn new(alloc: Global) -> Symbols {
        Symbols {
            encoder: RangeEncoder::new(alloc),
            table: StateTable::standard(),
            states: [128; 32],
        }
    }

    /// A number.
    pub(super) fn number(&mut self, number: u32) -> Result<(), Fault>
        requires { number < 2 ^ 31 }
    {
        self.encoder
            .put_unsigned(&self.table, &mut self.states, number)
    }

    /// A signed number.
    pub(super) fn signed_number(&mut self, number: i32) -> Result<(), Fault>
        requires { unsigned_abs number < 2 ^ 31 }
    {
        self.encoder
            .put_signed(&self.table, &mut self.states, number)
    }

    /// A truth value.
    pub(super) fn truth(&mut self, bit: bool) -> Result<(), Fault> {
        self.encoder.put(&self.table, &mut self.states[0], bit)
    }

    /// A run less 1, by the states of its table.
    pub(super) fn run(&mut self, states: &mut [u8], less: u32) -> Result<(), Fault>
        requires small { less < 2 ^ 31 }
        requires held { AreHeld standard states.old }
        ensures { AreHeld standard states.new }
    {
        self.encoder.put_unsigned(&self.table, states, less)
    }

    /// How many decisions were written.
    pub(super) fn decisions(&self) -> u64 {
        self.encoder.decisions()
    }

    /// The bytes, by the full ending.
    pub(super) fn finish(self) -> Result<Vec<u8>, Fault> {
        let encoder = self.encoder;
        encoder.finish_full()
    }
}
