//! Writes decisions.

ghost use Rattle.std.specs.Prelude.{◌≡◌, ℕ, ◌+◌, ◌-◌, ◌*◌, ◌/◌, ◌^◌, ◌≤◌, ◌<◌, ◌++◌, List, length};
ghost use Rattle.std.specs.Prelude.{replicate, slice_index, slice_set, [], ◌∷◌, IsTrue, IfOk};
ghost use Rattle.std.specs.Prelude.{IfErr, IsErr, OnOk, OnErr, ◌⊎◌, false, true};
ghost use Rattle.std.specs.Vec.{vec_capacity, vec_len};
ghost use Rattle.ffv1_range.specs.Interval.{Decision, narrow, interval_of};
ghost use Rattle.ffv1_range.specs.Interval.{start};
ghost use Rattle.ffv1_range.specs.Codes.{value, sentinel_of, full_of, rounded_of, AreBytes};
ghost use Rattle.ffv1_range.specs.Codes.{AreStates, Codes};
ghost use Rattle.ffv1_range.specs.Table.{Table, moved, Holds};
ghost use Rattle.ffv1_range.specs.Writing.{unwritten, summed_writing, refused_writing};
ghost use Rattle.ffv1_range.specs.Writing.{LeavesNothing};
ghost use Rattle.ffv1_range.specs.Counts.{counted, total};
ghost use Rattle.ffv1_range.specs.Symbols.{Step};
ghost use Rattle.ffv1_range.specs.History.{AreBelow, decisions_after};
ghost use Rattle.ffv1_range.specs.Puts.{Puts};
ghost use Rattle.ffv1_range.specs.Internal.Registers.{interval_from, IsWriting};

pub mod batch;
mod marked;
mod registers;
pub mod rows;
pub mod symbol;
mod symbol_table;

use crate::encoder::registers::{Registers, Span};
use crate::fault::Fault;
use crate::table::StateTable;
use crate::tally::{Sums, Tally};
use std::alloc::{AllocError, Allocator, Global};
use std::marker::Model;

/// The width of a coder's interval at first (RFC 9043, 3.8.1.1).
pub(crate) const FIRST_WIDTH: u32 = 65280;

/// The state of the decision 0 that the sentinel ending adds (RFC 9043, 3.8.1.1.1).
pub(crate) const SENTINEL_STATE: u8 = 129;

/// An encoder of decisions (RFC 9043, 3.8.1.1). Its bytes grow in the memory of its allocator.
///
/// It is seen as a `Writing`: the interval of the decisions that were put, over numbers without a
/// limit, its counts, and whether it has failed. After a growth was refused it has failed for good:
/// every later put and either ending answer `OutOfMemory`, and nothing of its bytes is handed out.
#[derive(Drop)]
pub struct RangeEncoder<A: Allocator = Global> {
    pub(crate) bytes: Vec<u8, A>,
    pub(crate) low: u32,
    pub(crate) width: u32,
    pub(crate) ones: u64,
    pub(crate) zeros: u64,
    pub(crate) failed: bool,
}

impl<A: Allocator> Model for RangeEncoder<A> {
    ghost use Rattle.ffv1_range.specs.Internal.Registers.{IsWriting, interval_from};
    ghost use Rattle.ffv1_range.specs.Writing.{Writing};

    ghost Value = { Writing };

    ghost view = { λ w. record {
      interval = interval_from w.bytes.items w.low w.width;
      counts = record { ones = w.ones; zeros = w.zeros };
      failed = w.failed;
    } };

    ghost invariant = { λ w. IsWriting w.bytes.items w.low w.width };
}

impl<A: Allocator> RangeEncoder<A> {
    /// Nothing was put yet. It takes no memory before the first byte.
    pub fn new(alloc: A) -> RangeEncoder<A>
        ensures { result ≡ unwritten }
    {
        RangeEncoder {
            bytes: Vec::new(alloc),
            low: 0,
            width: FIRST_WIDTH,
            ones: 0,
            zeros: 0,
            failed: false,
        }
    }

    /// One decision more, by a state that the table holds. The state moves by the decision, also
    /// if the answer is `OutOfMemory`: then a growth was refused, now or before, the encoder has
    /// failed for good, and its counts stay.
    #[inline(always)]
    pub fn put(&mut self, table: &StateTable, state: &mut u8, bit: bool) -> Result<(), Fault>
        requires { Holds table.now state.old }
        ensures ok { OnOk result (self.new ≡ record {
          interval = narrow self.old.interval state.old bit;
          counts = counted self.old.counts bit;
          failed = false;
        }) }
        ensures puts { OnOk result ((states : List ℕ) (slot : ℕ) →
            slice_index states slot ≡ state.old →
            Puts table.now self.old states self.new (slice_set states slot state.new)
            (record { slot = slot; bit = bit } ∷ [])) }
        ensures moves { state.new ≡ moved table.now state.old bit }
        ensures held { Holds table.now state.new }
        ensures refused { OnErr result (IsTrue self.old.failed ⊎
            (self.old.interval.count < (narrow self.old.interval state.old bit).count)) }
        ensures err { IfErr result (λ f. (f ≡ Fault.OutOfMemory) × IsTrue self.new.failed) }
        ensures kept { OnErr result (self.new.counts ≡ self.old.counts) }
        ensures left { OnErr result (LeavesNothing self.old self.new) }
        ensures stays { IsTrue self.old.failed → IsErr result }
    {
        let before = *state;
        *state = if bit {
            table.after_one(before)
        } else {
            table.after_zero(before)
        };
        if self.failed {
            return Err(Fault::OutOfMemory);
        }
        self.step(before, bit)?;
        if bit {
            self.ones = self.ones.saturating_add(1);
        } else {
            self.zeros = self.zeros.saturating_add(1);
        }
        Ok(())
    }

    /// Whether a growth was refused: then every put and either ending is refused.
    #[inline(always)]
    pub fn has_failed(&self) -> bool
        ensures { result ≡ self.now.failed }
    {
        self.failed
    }

    /// Sums of nothing, by which its counts stay as they are.
    #[inline(always)]
    pub fn sums(&self) -> Sums
        ensures none { result ≡ record { ones = 0; zeros = 0 } }
        ensures stays { summed_writing self.now result ≡ self.now }
    {
        let (_ones, _zeros) = (self.ones, self.zeros);
        Sums { ones: 0, zeros: 0 }
    }

    /// Its counts go on by sums.
    #[inline(always)]
    pub fn count_all(&mut self, sums: &Sums)
        ensures { self.new ≡ summed_writing self.old sums.now }
    {
        self.ones = self.ones.saturating_add(u64::from(sums.ones));
        self.zeros = self.zeros.saturating_add(u64::from(sums.zeros));
    }

    /// How many decisions were put, at most 2^64 - 1.
    pub fn decisions(&self) -> u64
        ensures { result ≡ total self.now.counts }
    {
        self.ones.saturating_add(self.zeros)
    }

    /// How many renormalisations there were.
    pub fn renormalisations(&self) -> u64
        ensures { result + 2 ≡ self.now.interval.count }
    {
        self.bytes.len() as u64
    }

    /// The bytes, by the sentinel ending: after one more decision 0 by the state 129, the least
    /// multiple of 256 that is at least the interval's low end, without its last byte. They are as
    /// many as one and all renormalisations, that of the last decision included. Answers
    /// `OutOfMemory` if a growth was refused, now or before; then no byte is handed out.
    pub fn finish_sentinel(mut self) -> Result<Vec<u8, A>, Fault>
        ensures ok { IfOk result (λ bytes. bytes.items ≡ sentinel_of self.interval) }
        ensures long { IfOk result (λ bytes.
            length bytes.items + 1 ≡ (narrow self.interval 129 false).count) }
        ensures codes { IfOk result (λ bytes. (ds : List Decision) → AreStates ds →
            self.interval ≡ interval_of ds → Codes bytes.items ds) }
        ensures fresh { IfOk result (λ bytes. (t : Table) (slots : ℕ) (after : List ℕ)
            (steps : List Step) → AreBelow steps slots →
            Puts t unwritten (replicate slots 128) self after steps →
            bytes.items ≡ sentinel_of (interval_of (decisions_after t [] steps))) }
        ensures err { IfErr result (λ f. f ≡ Fault.OutOfMemory) }
        ensures stays { IsTrue self.failed → IsErr result }
    {
        if self.failed {
            return Err(Fault::OutOfMemory);
        }
        self.step(SENTINEL_STATE, false)?;
        let top = (self.low + 255) / 256;
        let mut bytes = self.bytes;
        emit(&mut bytes, top)?;
        Ok(bytes)
    }

    /// The bytes, by the full ending: all bytes of the interval's low end, two more than the
    /// renormalisations. They code the decisions whatever follows them. Answers `OutOfMemory` if
    /// a growth was refused, now or before; then no byte is handed out.
    pub fn finish_full(self) -> Result<Vec<u8, A>, Fault>
        ensures ok { IfOk result (λ bytes. bytes.items ≡ full_of self.interval) }
        ensures long { IfOk result (λ bytes. length bytes.items ≡ self.interval.count) }
        ensures codes { IfOk result (λ bytes. (ds : List Decision) (behind : List ℕ) →
            AreStates ds → self.interval ≡ interval_of ds → Codes (bytes.items ++ behind) ds) }
        ensures fresh { IfOk result (λ bytes. (t : Table) (slots : ℕ) (after : List ℕ)
            (steps : List Step) → AreBelow steps slots →
            Puts t unwritten (replicate slots 128) self after steps →
            bytes.items ≡ full_of (interval_of (decisions_after t [] steps))) }
        ensures err { IfErr result (λ f. f ≡ Fault.OutOfMemory) }
        ensures stays { IsTrue self.failed → IsErr result }
    {
        if self.failed {
            return Err(Fault::OutOfMemory);
        }
        let low = self.low;
        let mut bytes = self.bytes;
        emit(&mut bytes, low / 256)?;
        emit(&mut bytes, low % 256)?;
        Ok(bytes)
    }

    /// How many ones, zeros and renormalisations there were.
    pub fn tally(&self) -> Tally
        ensures ones { result.ones ≡ self.now.counts.ones }
        ensures zeros { result.zeros ≡ self.now.counts.zeros }
        ensures renormalisations { result.renormalisations + 2 ≡ self.now.interval.count }
    {
        Tally {
            ones: self.ones,
            zeros: self.zeros,
            renormalisations: self.renormalisations(),
        }
    }

    /// Narrows the interval by a decision, uncounted, and gives out a byte if it is narrower
    /// than 256.
    #[inline(always)]
    pub(crate) fn step(&mut self, state: u8, bit: bool) -> Result<(), Fault>
        requires { 0 < state }
        ensures ok { OnOk result (self.new ≡
            record self.old { interval = narrow self.old.interval state bit }) }
        ensures refused { OnErr result (self.old.interval.count <
            (narrow self.old.interval state bit).count) }
        ensures err { IfErr result (λ f. (f ≡ Fault.OutOfMemory) × IsTrue self.new.failed) }
        ensures kept { OnErr result (self.new.counts ≡ self.old.counts) }
        ensures left { OnErr result (self.new ≡ refused_writing self.old) }
    {
        let mut span = Span {
            low: self.low,
            width: self.width,
        };
        let done = span.narrow(&mut self.bytes, state, bit);
        self.low = span.low;
        self.width = span.width;
        match done {
            Ok(()) => Ok(()),
            Err(_) => {
                self.fail();
                Err(Fault::OutOfMemory)
            }
        }
    }

    /// Nothing is left of the bytes, and every later put is refused.
    #[cold]
    pub(crate) fn fail(&mut self)
        ensures { self.new ≡ refused_writing self.old }
    {
        self.bytes.clear();
        self.low = 0;
        self.width = FIRST_WIDTH;
        self.failed = true;
    }
}

/// One place more of a number with its bytes big end first. A top of 256 or more carries into the
/// bytes before.
#[inline(always)]
pub(crate) fn emit<A: Allocator>(bytes: &mut Vec<u8, A>, top: u32) -> Result<(), AllocError>
    requires bytes_fit { AreBytes bytes.old.items }
    requires below { top < 512 }
    requires room { 256 * value bytes.old.items (length bytes.old.items) + top <
        256 * 256 ^ length bytes.old.items }
    ensures value { OnOk result (value bytes.new.items (length bytes.new.items) ≡
        256 * value bytes.old.items (length bytes.old.items) + top) }
    ensures long { OnOk result (length bytes.new.items ≡ length bytes.old.items + 1) }
    ensures full { OnErr result (vec_capacity bytes.old ≤ vec_len bytes.old) }
    ensures room { vec_capacity bytes.old ≤ vec_capacity bytes.new }
    ensures bytes_fit { OnOk result (AreBytes bytes.new.items) }
{
    if top < 256 {
        bytes.push(top as u8)?;
        return Ok(());
    }
    carry(bytes);
    bytes.push((top - 256) as u8)?;
    Ok(())
}

/// Adds one to the number that the bytes are.
#[inline(never)]
#[cold]
pub(crate) fn carry(bytes: &mut [u8])
    requires room { value bytes.old (length bytes.old) + 1 < 256 ^ length bytes.old }
    requires bytes_fit { AreBytes bytes.old }
    ensures carried { value bytes.new (length bytes.new) ≡ value bytes.old (length bytes.old) + 1 }
    ensures bytes_fit { AreBytes bytes.new }
{
    let mut at = bytes.len();
    while at > 0 {
        at -= 1;
        if bytes[at] < 255 {
            bytes[at] += 1;
            return;
        }
        bytes[at] = 0;
    }
}
