//! Writes the symbols of a record.

ghost use Rattle.std.specs.Prelude.{◌≡◌, ℕ, ◌^◌, ◌<◌, [], ◌∷◌, OnOk, IfOk, IfErr, unsigned_abs};
ghost use Rattle.std.specs.Prelude.{length};
ghost use Rattle.ffv1_range.specs.Interval.{interval_of};
ghost use Rattle.ffv1_range.specs.Codes.{full_of};
ghost use Rattle.ffv1_range.specs.History.{decisions_after};
ghost use Rattle.ffv1_range.specs.Standard.{standard};
ghost use Rattle.ffv1_range.specs.Symbols.{AreHeld};
ghost use Rattle.ffv1_record.specs.declared.fault.RecordFault.TheVariants as fault;
ghost use Rattle.ffv1_record.specs.Reader.{Spot};
ghost use Rattle.ffv1_record.specs.Reading.{beginning};
ghost use Rattle.ffv1_record.specs.Record.{number_steps, signed_number_steps, truth_steps};
ghost use Rattle.ffv1_record.specs.Internal.Written.{Holding, Wrote, WroteIn};

use crate::fault::RecordFault;
use ffv1_range::{RangeEncoder, StateTable};
use std::alloc::Allocator;
use std::marker::Model;

/// An encoder of a record's symbols, and the states of the parameters.
#[derive(Drop)]
pub(crate) struct RecordWriter<A: Allocator> {
    encoder: RangeEncoder<A>,
    table: StateTable,
    states: [u8; 32],
}

impl<A: Allocator> Model for RecordWriter<A> {
    ghost use Rattle.std.specs.Prelude.{◌≡◌};
    ghost use Rattle.ffv1_range.specs.Standard.{standard};
    ghost use Rattle.ffv1_range.specs.Symbols.{AreHeld};
    ghost use Rattle.ffv1_record.specs.Internal.Written.{Target};

    ghost Value = { Target };

    ghost view = { λ w. record { writing = w.encoder; states = w.states } };

    ghost invariant = { λ w. (w.table ≡ standard) × AreHeld standard w.states };
}

impl<A: Allocator> RecordWriter<A> {
    /// Nothing was written yet.
    pub(crate) fn new(alloc: A) -> RecordWriter<A>
        ensures { Holding result beginning }
    {
        RecordWriter {
            encoder: RangeEncoder::new(alloc),
            table: StateTable::standard(),
            states: [128; 32],
        }
    }

    /// A number.
    pub(crate) fn number(&mut self, number: u32) -> Result<(), RecordFault>
        requires { number < 2 ^ 31 }
        ensures ok { OnOk result (Wrote (λ _. number_steps 0 number) 0 self.old self.new) }
        ensures err { IfErr result (λ f. f ≡ fault.OutOfMemory) }
    {
        let Ok(()) = self
            .encoder
            .put_unsigned(&self.table, &mut self.states, number)
        else {
            return Err(RecordFault::OutOfMemory);
        };
        Ok(())
    }

    /// A signed number.
    pub(crate) fn signed_number(&mut self, number: i32) -> Result<(), RecordFault>
        requires { unsigned_abs number < 2 ^ 31 }
        ensures ok { OnOk result (Wrote (λ _. signed_number_steps number) 0 self.old self.new) }
        ensures err { IfErr result (λ f. f ≡ fault.OutOfMemory) }
    {
        let Ok(()) = self
            .encoder
            .put_signed(&self.table, &mut self.states, number)
        else {
            return Err(RecordFault::OutOfMemory);
        };
        Ok(())
    }

    /// A truth value.
    pub(crate) fn truth(&mut self, bit: bool) -> Result<(), RecordFault>
        ensures ok { OnOk result (Wrote (λ _. truth_steps bit) 0 self.old self.new) }
        ensures err { IfErr result (λ f. f ≡ fault.OutOfMemory) }
    {
        let Ok(()) = self.encoder.put(&self.table, &mut self.states[0], bit) else {
            return Err(RecordFault::OutOfMemory);
        };
        Ok(())
    }

    /// A run less 1, by the states of its table.
    pub(crate) fn run(&mut self, states: &mut [u8], less: u32) -> Result<(), RecordFault>
        requires small { less < 2 ^ 31 }
        requires held { AreHeld standard states.old }
        ensures ok { OnOk result (WroteIn
            (λ base. number_steps base less) self.old states.old self.new states.new) }
        ensures held { AreHeld standard states.new }
        ensures err { IfErr result (λ f. f ≡ fault.OutOfMemory) }
    {
        let Ok(()) = self.encoder.put_unsigned(&self.table, states, less) else {
            return Err(RecordFault::OutOfMemory);
        };
        Ok(())
    }

    /// The bytes, by the full ending.
    pub(crate) fn finish(self) -> Result<Vec<u8, A>, RecordFault>
        ensures ok { IfOk result (λ v. (s : Spot) → Holding self s →
            v.items ≡ full_of (interval_of (decisions_after standard [] s.past))) }
        ensures long { IfOk result (λ v. length v.items ≡ self.writing.interval.count) }
        ensures err { IfErr result (λ f. f ≡ fault.OutOfMemory) }
    {
        let encoder = self.encoder;
        let Ok(bytes) = encoder.finish_full() else {
            return Err(RecordFault::OutOfMemory);
        };
        Ok(bytes)
    }
}
