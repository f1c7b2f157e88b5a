//! Reads the symbols of a record.

ghost use Rattle.std.specs.Prelude.{◌≡◌, ◌≢◌, ◌⊎◌, ◌↔◌, ℕ, ◌+◌, ◌^◌, ◌≤◌, ◌<◌, IfOk, IfErr, IsErr};
ghost use Rattle.std.specs.Prelude.{length, unsigned_abs, nat_lt};
ghost use Rattle.ffv1_range.specs.Codes.{value};
ghost use Rattle.ffv1_range.specs.Standard.{standard};
ghost use Rattle.ffv1_range.specs.Symbols.{AreHeld};
ghost use Rattle.ffv1_record.specs.Reader.{number, signed_number, truth, number_within, Spot};
ghost use Rattle.ffv1_record.specs.Reading.{beginning};
ghost use Rattle.ffv1_record.specs.Internal.Given.{Stands, Gives, GivesIn};

use crate::fault::RecordFault;
use ffv1_range::{RangeDecoder, StateTable};
use std::marker::Model;

/// A decoder of a record's symbols, and the states of the parameters.
#[derive(Drop)]
pub(crate) struct RecordReader<'a> {
    decoder: RangeDecoder<'a>,
    table: StateTable,
    states: [u8; 32],
}

impl<'a> Model for RecordReader<'a> {
    ghost use Rattle.std.specs.Prelude.{◌≡◌};
    ghost use Rattle.ffv1_range.specs.Standard.{standard};
    ghost use Rattle.ffv1_range.specs.Symbols.{AreHeld};
    ghost use Rattle.ffv1_record.specs.Internal.Given.{Source};

    ghost Value = { Source };

    ghost view = { λ r. record { reading = r.decoder; states = r.states } };

    ghost invariant = { λ r. (r.table ≡ standard) × AreHeld standard r.states };
}

impl<'a> RecordReader<'a> {
    /// Begins at the bytes. Refuses with `BadStart` exactly if their first two are 65280 or
    /// more.
    pub(crate) fn new(bytes: &'a [u8]) -> Result<RecordReader<'a>, RecordFault>
        ensures ok { IfOk result (λ r. Stands r bytes.now beginning) }
        ensures refused { IfErr result
            (λ f. (f ≡ RecordFault.BadStart) × (65280 ≤ value bytes.now 2)) }
        ensures start { IfOk result (λ r. value bytes.now 2 < 65280) }
    {
        let Ok(decoder) = RangeDecoder::new(bytes) else {
            return Err(RecordFault::BadStart);
        };
        Ok(RecordReader {
            decoder,
            table: StateTable::standard(),
            states: [128; 32],
        })
    }

    /// The number that comes next.
    pub(crate) fn number(&mut self) -> Result<u32, RecordFault>
        ensures gives { Gives (λ n. n) (number 0) self.old self.new result }
        ensures small { IfOk result (λ n. n < 2 ^ 31) }
        ensures refused { IfErr result (λ f. f ≡ RecordFault.SymbolTooLong) }
    {
        let Ok(number) = self.decoder.get_unsigned(&self.table, &mut self.states) else {
            return Err(RecordFault::SymbolTooLong);
        };
        Ok(number)
    }

    /// The signed number that comes next.
    pub(crate) fn signed_number(&mut self) -> Result<i32, RecordFault>
        ensures gives { Gives (λ v. v) signed_number self.old self.new result }
        ensures refused { IfErr result (λ f. f ≡ RecordFault.SymbolTooLong) }
    {
        let Ok(number) = self.decoder.get_signed(&self.table, &mut self.states) else {
            return Err(RecordFault::SymbolTooLong);
        };
        Ok(number)
    }

    /// The truth value that comes next.
    pub(crate) fn truth(&mut self) -> bool
        ensures { Gives (λ b. b) truth self.old self.new (Ok result) }
    {
        self.decoder.get(&self.table, &mut self.states[0])
    }

    /// The number that comes next, by the states of a table.
    fn number_in(&mut self, states: &mut [u8]) -> Result<u32, RecordFault>
        requires held { AreHeld standard states.old }
        ensures gives { GivesIn number self.old states.old self.new states.new result }
        ensures refused { IfErr result (λ f. f ≡ RecordFault.SymbolTooLong) }
        ensures held { AreHeld standard states.new }
    {
        let Ok(number) = self.decoder.get_unsigned(&self.table, states) else {
            return Err(RecordFault::SymbolTooLong);
        };
        Ok(number)
    }

    /// The number that comes next, from least to most, or a fault.
    pub(crate) fn number_within(
        &mut self,
        least: u32,
        most: u32,
        fault: RecordFault,
    ) -> Result<u32, RecordFault>
        ensures gives { Gives (λ n. n) (number_within 0 least most fault) self.old self.new result }
        ensures refused { IfErr result (λ f. (f ≡ fault) ⊎ (f ≡ RecordFault.SymbolTooLong)) }
        ensures least { IfOk result (λ n. least ≤ n) }
        ensures most { IfOk result (λ n. n ≤ most) }
    {
        let number = self.number()?;
        if least <= number && number <= most {
            return Ok(number);
        }
        Err(fault)
    }

    /// A run less 1, at most `most`, by the states of its table.
    pub(crate) fn run(&mut self, states: &mut [u8], most: u32) -> Result<u32, RecordFault>
        requires held { AreHeld standard states.old }
        ensures gives { GivesIn (λ base. number_within base 0 most RecordFault.Runs) self.old
            states.old self.new states.new result }
        ensures told { IfErr result (λ f. f ≢ RecordFault.OutOfMemory) }
        ensures most { IfOk result (λ n. n ≤ most) }
        ensures held { AreHeld standard states.new }
    {
        let number = self.number_in(states)?;
        if number <= most {
            return Ok(number);
        }
        Err(RecordFault::Runs)
    }
}
