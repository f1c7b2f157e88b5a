//! Where states move.

ghost use Rattle.std.specs.Prelude.{◌≡◌, ◌≢◌, ℤ, pos, negsuc, ◌+ℤ◌, slice_index_or, length, IfOk};
ghost use Rattle.std.specs.Prelude.{IfErr, IfSome, IfNone, IsFalse, ℕ, ◌+◌, ◌-◌, ◌*◌, ◌≤◌, ◌<◌};
ghost use Rattle.std.specs.Prelude.{◌↔◌, slice_index, replicate, IsTrue, true, false};
ghost use Rattle.ffv1_range.specs.Table.{moved, Holds, IsTable};
ghost use Rattle.ffv1_range.specs.Standard.{standard};
ghost use Rattle.ffv1_range.specs.Symbols.{AreHeld};
ghost use Rattle.ffv1_range.specs.Listed.{step_of};
ghost use Rattle.ffv1_range.specs.Deltas.{entry_of, byte_of, IsTableOf, HaveNoTable};

use crate::fault::Fault;
use std::marker::Model;

/// Where each state goes after a decision 1 (RFC 9043, 3.8.1.5).
pub(crate) const STANDARD: [u8; 256] = [
    0, 0, 0, 0, 0, 0, 0, 0, 20, 21, 22, 23, 24, 25, 26, 27, 28, 29, 30, 31, 32, 33, 34, 35, 36, 37,
    37, 38, 39, 40, 41, 42, 43, 44, 45, 46, 47, 48, 49, 50, 51, 52, 53, 54, 55, 56, 56, 57, 58, 59,
    60, 61, 62, 63, 64, 65, 66, 67, 68, 69, 70, 71, 72, 73, 74, 75, 75, 76, 77, 78, 79, 80, 81, 82,
    83, 84, 85, 86, 87, 88, 89, 90, 91, 92, 93, 94, 94, 95, 96, 97, 98, 99, 100, 101, 102, 103,
    104, 105, 106, 107, 108, 109, 110, 111, 112, 113, 114, 114, 115, 116, 117, 118, 119, 120, 121,
    122, 123, 124, 125, 126, 127, 128, 129, 130, 131, 132, 133, 133, 134, 135, 136, 137, 138, 139,
    140, 141, 142, 143, 144, 145, 146, 147, 148, 149, 150, 151, 152, 152, 153, 154, 155, 156, 157,
    158, 159, 160, 161, 162, 163, 164, 165, 166, 167, 168, 169, 170, 171, 171, 172, 173, 174, 175,
    176, 177, 178, 179, 180, 181, 182, 183, 184, 185, 186, 187, 188, 189, 190, 190, 191, 192, 194,
    194, 195, 196, 197, 198, 199, 200, 201, 202, 202, 204, 205, 206, 207, 208, 209, 209, 210, 211,
    212, 213, 215, 215, 216, 217, 218, 219, 220, 220, 222, 223, 224, 225, 226, 227, 227, 229, 229,
    230, 231, 232, 234, 234, 235, 236, 237, 238, 239, 240, 241, 242, 243, 244, 245, 246, 247, 248,
    248, 0, 0, 0, 0, 0, 0, 0,
];

/// Where each state goes after a decision (RFC 9043, 3.8.1.4). A state is a number from 1 to 255;
/// the greater it is, the cheaper is a decision 1. A table holds the states from its floor to 256
/// less its floor, and moves them among themselves.
#[derive(Drop)]
pub struct StateTable {
    floor: u8,
    one: [u8; 256],
    zero: [u8; 256],
    either: [u16; 256],
    next: [u8; 512],
}

impl Model for StateTable {
    ghost use Rattle.ffv1_range.specs.Table.{Table, IsTable};
    ghost use Rattle.ffv1_range.specs.Internal.Registers.{AreZeros, AreEither, AreNext};

    ghost Value = { Table };

    ghost view = { λ t. record { floor = t.floor; one = t.one } };

    ghost invariant = { λ t. IsTable t.floor t.one × AreZeros t.floor t.one t.zero ×
        AreEither t.floor t.one t.zero t.either × AreNext t.floor t.one t.zero t.next };
}

impl StateTable {
    /// The standard's table (RFC 9043, 3.8.1.5). Its floor is 8.
    pub fn standard() -> Self
        ensures value { result ≡ standard }
        ensures table { IsTable result.floor result.one }
        ensures fresh { AreHeld result (replicate 32 128) }
    {
        let zero = zeros_beside(&STANDARD);
        StateTable {
            floor: 8,
            one: STANDARD,
            either: both(&STANDARD, &zero),
            next: joined(&STANDARD, &zero),
            zero,
        }
    }

    /// The standard's table changed by deltas, that of state 1 first (RFC 9043, 4.2.4). Answers
    /// `StateTable` exactly if a delta is -2147483648, or no floor from 1 to 128 is such that
    /// each state from it to 256 less it goes to one of them after a decision 1. The table's floor
    /// is the least such.
    pub fn with_deltas(deltas: &[i32; 255]) -> Result<StateTable, Fault>
        ensures ok { IfOk result (λ t. IsTableOf deltas.now t) }
        ensures table { IfOk result (λ t. IsTable t.floor t.one) }
        ensures fresh { IfOk result (λ t. AreHeld t (replicate 32 128)) }
        ensures refused { IfErr result (λ f. (f ≡ Fault.StateTable) × HaveNoTable deltas.now) }
    {
        let one = changed(deltas)?;
        let Some(floor) = least_floor(&one) else {
            return Err(Fault::StateTable);
        };
        let zero = zeros_beside(&one);
        Ok(StateTable {
            floor,
            either: both(&one, &zero),
            next: joined(&one, &zero),
            one,
            zero,
        })
    }

    /// The least state that the table holds, from 1 to 128.
    pub fn floor(&self) -> u8
        ensures value { result ≡ self.now.floor }
        ensures table { IsTable self.now.floor self.now.one }
    {
        self.floor
    }

    /// Whether the table holds a state: whether it lies in floor to 256 less floor.
    pub fn holds(&self, state: u8) -> bool
        ensures value { IsTrue result ↔ Holds self.now state }
        ensures table { IsTable self.now.floor self.now.one }
    {
        let floor = u16::from(self.floor);
        let state = u16::from(state);
        floor <= state && state + floor <= 256
    }

    /// Where a state goes after a decision 1.
    #[inline(always)]
    pub(crate) fn after_one(&self, state: u8) -> u8
        requires { Holds self.now state }
        ensures moves { result ≡ moved self.now state true }
        ensures held { Holds self.now result }
    {
        self.one[state as usize]
    }

    /// Where a state goes after a decision 0.
    #[inline(always)]
    pub(crate) fn after_zero(&self, state: u8) -> u8
        requires { Holds self.now state }
        ensures moves { result ≡ moved self.now state false }
        ensures held { Holds self.now result }
    {
        self.zero[state as usize]
    }

    /// Where a state goes after a decision 1, and 256 times where it goes after a decision 0: one
    /// number to choose from.
    #[inline(always)]
    pub(crate) fn after_either(&self, state: u8) -> u16
        requires { Holds self.now state }
        ensures moves { result ≡ moved self.now state true + 256 * moved self.now state false }
        ensures one_held { Holds self.now (moved self.now state true) }
        ensures zero_held { Holds self.now (moved self.now state false) }
    {
        self.either[state as usize]
    }

    /// Where a state goes after a decision of a list, without a branch or a choice.
    #[inline(always)]
    pub(crate) fn after_listed(&self, state: u8, step: u32) -> u8
        requires { Holds self.now state }
        ensures moves { result ≡ moved self.now state (step_of step).bit }
        ensures held { Holds self.now result }
    {
        let half = step / 256 % 2 * 256;
        self.next[half as usize + state as usize]
    }
}

/// Where each state goes after a decision 0, and after it where each goes after a decision 1.
fn joined(one: &[u8; 256], zero: &[u8; 256]) -> [u8; 512]
    ensures zeros { (state : ℕ) → state < 256 →
        slice_index result state ≡ slice_index zero.now state }
    ensures ones { (state : ℕ) → state < 256 →
        slice_index result (256 + state) ≡ slice_index one.now state }
{
    let mut next = [0; 512];
    for state in 0..256usize {
        next[state] = zero[state];
        next[256 + state] = one[state];
    }
    next
}

/// Where each state goes after either decision: after a 1 in the low byte, and after a 0 in the
/// high one.
fn both(one: &[u8; 256], zero: &[u8; 256]) -> [u16; 256]
    ensures { (state : ℕ) → state < 256 →
        slice_index result state ≡ slice_index one.now state + 256 * slice_index zero.now state }
{
    let mut pairs = [0; 256];
    for state in 0..256usize {
        pairs[state] = u16::from(one[state]) + 256 * u16::from(zero[state]);
    }
    pairs
}

/// Where each state goes after a decision 0: a 0 moves a state as a 1 moves 256 less the state.
fn zeros_beside(one: &[u8; 256]) -> [u8; 256]
    ensures { (state : ℕ) → 0 < state → state < 256 → 0 < slice_index one.now (256 - state) →
        slice_index result state ≡ 256 - slice_index one.now (256 - state) }
{
    let mut zero = [0; 256];
    for state in 1..256usize {
        zero[state] = one[256 - state].wrapping_neg();
    }
    zero
}

/// Where each state goes after a decision 1, by deltas; 0 for what is no byte.
fn changed(deltas: &[i32; 255]) -> Result<[u8; 256], Fault>
    ensures long { IfOk result (λ one. length one ≡ 256) }
    ensures sound { IfOk result (λ one. (k : ℕ) → k < length deltas.now →
        slice_index_or deltas.now k (pos 0) ≢ negsuc 2147483647) }
    ensures entries { IfOk result (λ one. (state : ℕ) → state < 256 →
        slice_index one state ≡ byte_of (entry_of deltas.now state)) }
    ensures refused { IfErr result (λ f. (f ≡ Fault.StateTable) ×
        ((k : ℕ) × ((k < length deltas.now) ×
        (slice_index_or deltas.now k (pos 0) ≡ negsuc 2147483647)))) }
{
    let mut one = [0; 256];
    for k in 0..255usize {
        let delta = deltas[k];
        if delta == i32::MIN {
            return Err(Fault::StateTable);
        }
        one[k + 1] = byte(STANDARD[k + 1], delta);
    }
    Ok(one)
}

/// The sum of an entry and a delta, if it is a byte; 0 for any other.
fn byte(entry: u8, delta: i32) -> u8
    ensures { result ≡ byte_of (pos entry +ℤ delta) }
{
    let number = i64::from(entry) + i64::from(delta);
    if 0 <= number && number < 256 {
        return number as u8;
    }
    0
}

/// The least floor of the moves by a 1.
fn least_floor(one: &[u8; 256]) -> Option<u8>
    ensures found { IfSome result (λ floor. IsTable floor one.now) }
    ensures least { IfSome result (λ floor. (other : ℕ) → IsTable other one.now → floor ≤ other) }
    ensures none { IfNone result ((other : ℕ) → IsTable other one.now → ⊥) }
{
    for floor in 1..129u8 {
        if is_floor(one, floor) {
            return Some(floor);
        }
    }
    None
}

/// Whether the states from floor to 256 less floor go to such states.
fn is_floor(one: &[u8; 256], floor: u8) -> bool
    requires positive { 0 < floor }
    requires middle { floor ≤ 128 }
    ensures yes { IsTrue result → IsTable floor one.now }
    ensures no { IsFalse result → IsTable floor one.now → ⊥ }
{
    let most = 256 - u16::from(floor);
    for state in u16::from(floor)..most + 1 {
        let after = u16::from(one[state as usize]);
        if after < u16::from(floor) || after > most {
            return false;
        }
    }
    true
}
