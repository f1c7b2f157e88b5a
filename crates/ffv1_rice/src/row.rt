//! Reads rows.

ghost use Rattle.std.specs.Prelude.{◌≡◌, ℕ, ◌+◌, ◌-◌, ◌*◌, ◌^◌, ◌<◌, ◌≤◌, ◌⊎◌, ◌==◌, IfOk, IfErr};
ghost use Rattle.std.specs.Prelude.{OnOk, IsErrOf, IsOk, List, Bool, Option, length, slice_index};
ghost use Rattle.std.specs.Prelude.{pos};
ghost use Rattle.std.specs.Prelude.{None, Some, true, false};
ghost use Rattle.ffv1_plane.specs.Quantisation.{HasThreeTables, contexts_of};
ghost use Rattle.ffv1_plane.specs.Context.{flip_of, size_of};
ghost use Rattle.ffv1_line.specs.Beside.{beside, chosen_beside};
ghost use Rattle.ffv1_rice.specs.Kept.{AreStates, state_at};
ghost use Rattle.ffv1_rice.specs.Row.{Coder, begins, begun, place_at};
ghost use Rattle.ffv1_rice.specs.Rows.{AgreeBelow, PlaceRead, RowRead, SoFar, Stretched, coder_of};
ghost use Rattle.ffv1_rice.specs.Rows.{AreSamples, CodesRow, IsNone, IsRefused, reading_of};
ghost use Rattle.ffv1_rice.specs.Number.{Ends};
ghost use Rattle.ffv1_rice.specs.States.{parameter};

use crate::around::{around_next, around_place, context_of};
use crate::bits::Bits;
use crate::fault::Fault;
use crate::kept::{load, store};
use crate::run::read_run;
use crate::scalar::read_difference;
use ffv1_plane::{Around, QuantSet, context, predict, sample_from};
use std::alloc::Allocator;

/// What stays the same along a row: the set of its plane, and how many bits a difference has, 8 or
/// 9; and the rows two and one above it, all 0 above a cell, as long as the row.
#[derive(Drop)]
pub struct Below<'a, A: Allocator> {
    /// The quantisation table set.
    pub set: &'a QuantSet<A>,
    /// The bits of a difference.
    pub depth: u8,
    /// The row two above.
    pub two: &'a [u16],
    /// The row one above.
    pub one: &'a [u16],
}

/// Why a row is refused, and where.
#[derive(Clone, Copy, Debug, PartialEq, Eq)]
pub struct Refused {
    /// The place in the row, from 0.
    pub x: usize,
    /// Why.
    pub fault: Fault,
}

/// Fills places whose differences are 0.
#[inline(always)]
fn fill_zeros<A: Allocator>(below: &Below<'_, A>, cur: &mut [u16], from: usize, count: usize)
    requires depth { (below.now.depth ≡ 8) ⊎ (below.now.depth ≡ 9) }
    requires two { length below.now.two.now ≡ length cur.old }
    requires one { length below.now.one.now ≡ length cur.old }
    requires inside { from + count ≤ length cur.old }
    ensures agree { AgreeBelow from cur.new cur.old }
    ensures zeros { (k : ℕ) → from ≤ k → k < from + count → chosen_beside below.now.set.now
        below.now.depth below.now.two.now below.now.one.now cur.new k ≡ pos 0 }
    ensures samples { (k : ℕ) → from ≤ k → k < from + count →
        slice_index cur.new k < 2 ^ below.now.depth }
{
    let Below {
        depth,
        two,
        one,
        ..
    } = *below;
    for x in from..from + count {
        let around = around_place(two, one, cur, x);
        cur[x] = sample_from(predict(&around), false, 0, depth);
    }
}

/// A place of a row, and what is seen of it: the samples around it, and its context.
#[derive(Clone, Copy, Debug, PartialEq, Eq)]
struct Seen {
    x: usize,
    around: Around,
    size: u32,
    flip: bool,
}

/// Reads the difference of a place by what is seen of it, and makes its sample.
#[inline(always)]
fn read_seen<A: Allocator>(
    bits: &mut Bits<'_>,
    below: &Below<'_, A>,
    states: &mut [u8],
    cur: &mut [u16],
    seen: &Seen,
    is_behind: bool,
) -> Result<(), Fault>
    requires depth { (below.now.depth ≡ 8) ⊎ (below.now.depth ≡ 9) }
    requires two { length below.now.two.now ≡ length cur.old }
    requires one { length below.now.one.now ≡ length cur.old }
    requires inside { seen.now.x < length cur.old }
    requires around { seen.now.around ≡ beside below.now.two.now below.now.one.now cur.old
        seen.now.x }
    requires size { seen.now.size ≡ size_of below.now.set.now seen.now.around }
    requires few { seen.now.size < contexts_of below.now.set.now }
    requires flip { seen.now.flip ≡ flip_of below.now.set.now seen.now.around }
    requires long { length states.old ≡ contexts_of below.now.set.now * 32 }
    requires states { AreStates below.now.depth (contexts_of below.now.set.now) states.old }
    ensures ok { OnOk result (PlaceRead below.now.depth (place_at below.now.set.now below.now.depth
        below.now.two.now below.now.one.now cur.new seen.now.x) is_behind (state_at states.old)
        (state_at states.new) bits.old bits.new) }
    ensures agree { AgreeBelow seen.now.x cur.new cur.old }
    ensures sample { OnOk result (slice_index cur.new seen.now.x < 2 ^ below.now.depth) }
    ensures states { AreStates below.now.depth (contexts_of below.now.set.now) states.new }
    ensures ends { IsErrOf result Fault.BitsEnd → Ends below.now.depth (parameter
        (state_at states.old (size_of below.now.set.now
        (beside below.now.two.now below.now.one.now cur.old seen.now.x)))) bits.old }
    ensures bad { IsErrOf result Fault.BadCode → IsNone below.now.depth
        (state_at states.old (size_of below.now.set.now
        (beside below.now.two.now below.now.one.now cur.old seen.now.x))) is_behind bits.old }
{
    let depth = below.depth;
    let context = seen.size as usize;
    let mut state = load(states, context);
    let difference = read_difference(bits, &mut state, depth, is_behind)?;
    store(states, context, &state);
    cur[seen.x] = sample_from(predict(&seen.around), seen.flip, difference, depth);
    Ok(())
}

/// Reads the difference of a place, and makes its sample.
#[inline(always)]
fn read_place<A: Allocator>(
    bits: &mut Bits<'_>,
    below: &Below<'_, A>,
    states: &mut [u8],
    cur: &mut [u16],
    x: usize,
    is_behind: bool,
) -> Result<(), Fault>
    requires depth { (below.now.depth ≡ 8) ⊎ (below.now.depth ≡ 9) }
    requires two { length below.now.two.now ≡ length cur.old }
    requires one { length below.now.one.now ≡ length cur.old }
    requires inside { x < length cur.old }
    requires long { length states.old ≡ contexts_of below.now.set.now * 32 }
    requires states { AreStates below.now.depth (contexts_of below.now.set.now) states.old }
    ensures ok { OnOk result (PlaceRead below.now.depth (place_at below.now.set.now below.now.depth
        below.now.two.now below.now.one.now cur.new x) is_behind (state_at states.old)
        (state_at states.new) bits.old bits.new) }
    ensures agree { AgreeBelow x cur.new cur.old }
    ensures sample { OnOk result (slice_index cur.new x < 2 ^ below.now.depth) }
    ensures states { AreStates below.now.depth (contexts_of below.now.set.now) states.new }
    ensures ends { IsErrOf result Fault.BitsEnd → Ends below.now.depth (parameter
        (state_at states.old (size_of below.now.set.now
        (beside below.now.two.now below.now.one.now cur.old x)))) bits.old }
    ensures bad { IsErrOf result Fault.BadCode → IsNone below.now.depth
        (state_at states.old (size_of below.now.set.now
        (beside below.now.two.now below.now.one.now cur.old x))) is_behind bits.old }
{
    let around = around_place(below.two, below.one, cur, x);
    let (size, flip) = context(below.set, &around);
    let seen = Seen {
        x,
        around,
        size,
        flip,
    };
    read_seen(bits, below, states, cur, &seen, is_behind)
}

/// Whether a place has context 0.
#[inline(always)]
fn first_context<A: Allocator>(below: &Below<'_, A>, cur: &[u16], x: usize) -> bool
    requires two { length below.now.two.now ≡ length cur.now }
    requires one { length below.now.one.now ≡ length cur.now }
    requires inside { x < length cur.now }
    ensures { result ≡ (size_of below.now.set.now
        (beside below.now.two.now below.now.one.now cur.now x) == 0) }
{
    let around = around_place(below.two, below.one, cur, x);
    let (size, _) = context(below.set, &around);
    size == 0
}

/// Reads places up to one of context 0, or to the end of the row, and answers where that is.
#[inline(never)]
fn read_scalars<A: Allocator, const THREE: bool>(
    bits: &mut Bits<'_>,
    below: &Below<'_, A>,
    states: &mut [u8],
    cur: &mut [u16],
    x: usize,
) -> Result<usize, Refused>
    requires depth { (below.now.depth ≡ 8) ⊎ (below.now.depth ≡ 9) }
    requires two { length below.now.two.now ≡ length cur.old }
    requires one { length below.now.one.now ≡ length cur.old }
    requires inside { x < length cur.old }
    requires three { THREE ≡ true → HasThreeTables below.now.set.now }
    requires long { length states.old ≡ contexts_of below.now.set.now * 32 }
    requires states { AreStates below.now.depth (contexts_of below.now.set.now) states.old }
    ensures ok { IfOk result (λ after. (start : Coder) (text : List Bool) (index : ℕ) →
        SoFar (reading_of below.now.set.now below.now.depth below.now.two.now below.now.one.now
        start text) cur.old x (coder_of (state_at states.old) index None) bits.old →
        SoFar (reading_of below.now.set.now below.now.depth below.now.two.now below.now.one.now
        start text) cur.new after (coder_of (state_at states.new) index None) bits.new) }
    ensures on { IfOk result (λ after. (size_of below.now.set.now
        (beside below.now.two.now below.now.one.now cur.old x) == 0) ≡ false → x < after) }
    ensures inside { IfOk result (λ after. after ≤ length cur.new) }
    ensures refused { IfErr result (λ e. (start : Coder) (text : List Bool) (index : ℕ) →
        SoFar (reading_of below.now.set.now below.now.depth below.now.two.now below.now.one.now
        start text) cur.old x (coder_of (state_at states.old) index None) bits.old →
        IsRefused (reading_of below.now.set.now below.now.depth below.now.two.now
        below.now.one.now start text) cur.new e.x e.fault) }
    ensures refused_inside { IfErr result (λ e. e.x < length cur.new) }
    ensures samples { IfOk result (λ after. AreSamples below.now.depth x cur.old →
        AreSamples below.now.depth after cur.new) }
    ensures samples_before { IfErr result (λ e. AreSamples below.now.depth x cur.old →
        AreSamples below.now.depth e.x cur.new) }
    ensures states { AreStates below.now.depth (contexts_of below.now.set.now) states.new }
{
    let Below { set, two, one, .. } = *below;
    let mut own = bits.copy();
    let mut at = x;
    let mut around = around_place(two, one, cur, x);
    while at < cur.len() {
        let (size, flip) = context_of::<A, THREE>(set, &around);
        if size == 0 {
            *bits = own;
            return Ok(at);
        }
        let seen = Seen {
            x: at,
            around,
            size,
            flip,
        };
        match read_seen(&mut own, below, states, cur, &seen, false) {
            Ok(()) => {}
            Err(fault) => return Err(Refused { x: at, fault }),
        }
        at += 1;
        if at == cur.len() {
            *bits = own;
            return Ok(at);
        }
        around = around_next(two, one, &around, cur[at - 1], at);
    }
    *bits = own;
    Ok(at)
}

/// The same by the tables that the set has.
#[inline(always)]
fn read_plain<A: Allocator>(
    bits: &mut Bits<'_>,
    below: &Below<'_, A>,
    states: &mut [u8],
    cur: &mut [u16],
    x: usize,
) -> Result<usize, Refused>
    requires depth { (below.now.depth ≡ 8) ⊎ (below.now.depth ≡ 9) }
    requires two { length below.now.two.now ≡ length cur.old }
    requires one { length below.now.one.now ≡ length cur.old }
    requires inside { x < length cur.old }
    requires long { length states.old ≡ contexts_of below.now.set.now * 32 }
    requires states { AreStates below.now.depth (contexts_of below.now.set.now) states.old }
    ensures ok { IfOk result (λ after. (start : Coder) (text : List Bool) (index : ℕ) →
        SoFar (reading_of below.now.set.now below.now.depth below.now.two.now below.now.one.now
        start text) cur.old x (coder_of (state_at states.old) index None) bits.old →
        SoFar (reading_of below.now.set.now below.now.depth below.now.two.now below.now.one.now
        start text) cur.new after (coder_of (state_at states.new) index None) bits.new) }
    ensures on { IfOk result (λ after. (size_of below.now.set.now
        (beside below.now.two.now below.now.one.now cur.old x) == 0) ≡ false → x < after) }
    ensures inside { IfOk result (λ after. after ≤ length cur.new) }
    ensures refused { IfErr result (λ e. (start : Coder) (text : List Bool) (index : ℕ) →
        SoFar (reading_of below.now.set.now below.now.depth below.now.two.now below.now.one.now
        start text) cur.old x (coder_of (state_at states.old) index None) bits.old →
        IsRefused (reading_of below.now.set.now below.now.depth below.now.two.now
        below.now.one.now start text) cur.new e.x e.fault) }
    ensures refused_inside { IfErr result (λ e. e.x < length cur.new) }
    ensures samples { IfOk result (λ after. AreSamples below.now.depth x cur.old →
        AreSamples below.now.depth after cur.new) }
    ensures samples_before { IfErr result (λ e. AreSamples below.now.depth x cur.old →
        AreSamples below.now.depth e.x cur.new) }
    ensures states { AreStates below.now.depth (contexts_of below.now.set.now) states.new }
{
    if below.set.has_three_tables() {
        return read_scalars::<A, true>(bits, below, states, cur, x);
    }
    read_scalars::<A, false>(bits, below, states, cur, x)
}

/// How far a part of a run leads: the place after it, and whether the run goes on.
#[derive(Clone, Copy, Debug, PartialEq, Eq)]
struct Stretch {
    x: usize,
    is_on: bool,
}

/// Reads what comes next of a run: some differences that are 0, and if it is broken the one after
/// them.
#[inline(always)]
fn read_stretch<A: Allocator>(
    bits: &mut Bits<'_>,
    below: &Below<'_, A>,
    states: &mut [u8],
    index: &mut u32,
    cur: &mut [u16],
    x: usize,
) -> Result<Stretch, Refused>
    requires depth { (below.now.depth ≡ 8) ⊎ (below.now.depth ≡ 9) }
    requires two { length below.now.two.now ≡ length cur.old }
    requires one { length below.now.one.now ≡ length cur.old }
    requires wide { length cur.old < 2 ^ 16 }
    requires inside { x < length cur.old }
    requires index { index.old ≤ 32 }
    requires long { length states.old ≡ contexts_of below.now.set.now * 32 }
    requires states { AreStates below.now.depth (contexts_of below.now.set.now) states.old }
    ensures ok { IfOk result (λ s. (start : Coder) (text : List Bool) (run : Option ℕ) →
        SoFar (reading_of below.now.set.now below.now.depth below.now.two.now below.now.one.now
        start text) cur.old x (coder_of (state_at states.old) index.old run) bits.old →
        begun run (size_of below.now.set.now
        (beside below.now.two.now below.now.one.now cur.old x)) ≡ Some 0 →
        Stretched (reading_of below.now.set.now below.now.depth below.now.two.now
        below.now.one.now start text) cur.new s.x s.is_on (state_at states.new) index.new
        bits.new) }
    ensures on { IfOk result (λ s. x < s.x) }
    ensures inside { IfOk result (λ s. s.x ≤ length cur.new) }
    ensures refused { IfErr result (λ e. (start : Coder) (text : List Bool) (run : Option ℕ) →
        SoFar (reading_of below.now.set.now below.now.depth below.now.two.now below.now.one.now
        start text) cur.old x (coder_of (state_at states.old) index.old run) bits.old →
        begun run (size_of below.now.set.now
        (beside below.now.two.now below.now.one.now cur.old x)) ≡ Some 0 →
        IsRefused (reading_of below.now.set.now below.now.depth below.now.two.now
        below.now.one.now start text) cur.new e.x e.fault) }
    ensures refused_inside { IfErr result (λ e. e.x < length cur.new) }
    ensures samples { IfOk result (λ s. AreSamples below.now.depth x cur.old →
        AreSamples below.now.depth s.x cur.new) }
    ensures samples_before { IfErr result (λ e. AreSamples below.now.depth x cur.old →
        AreSamples below.now.depth e.x cur.new) }
    ensures index { index.new ≤ 32 }
    ensures states { AreStates below.now.depth (contexts_of below.now.set.now) states.new }
{
    let run = match read_run(bits, index, cur.len() - x) {
        Ok(run) => run,
        Err(fault) => return Err(Refused { x, fault }),
    };
    fill_zeros(below, cur, x, run.zeros);
    let x = x + run.zeros;
    if !run.is_broken {
        return Ok(Stretch { x, is_on: true });
    }
    match read_place(bits, below, states, cur, x, true) {
        Ok(()) => Ok(Stretch {
            x: x + 1,
            is_on: false,
        }),
        Err(fault) => Err(Refused { x, fault }),
    }
}

/// Reads a row of a cell of a plane: a sample of context 0 begins a run of differences that are 0,
/// any other has its difference by the state of its context (RFC 9043, 3.8.2).
///
/// `cur` takes the row, of at least one sample and fewer than 65536; `states` are those of the
/// plane's class, 32 bytes for each context of the set (`reset`), and `index`, at most 32, is that
/// of the run, 0 where the plane or the slice begins. It takes no memory.
///
/// A row that the bits begin with is always read, and its samples are below `2^depth`. Else it is
/// refused, with a place of the row: `BitsEnd` if the bits end within what stands there, `BadCode`
/// if they are those of nothing that can stand there. The samples before that place are read; the
/// others, the states and the bits that are left are then of no use.
#[inline(never)]
pub fn decode_row<A: Allocator>(
    bits: &mut Bits<'_>,
    below: &Below<'_, A>,
    states: &mut [u8],
    index: &mut u32,
    cur: &mut [u16],
) -> Result<(), Refused>
    requires depth { (below.now.depth ≡ 8) ⊎ (below.now.depth ≡ 9) }
    requires two { length below.now.two.now ≡ length cur.old }
    requires one { length below.now.one.now ≡ length cur.old }
    requires wide { length cur.old < 2 ^ 16 }
    requires index { index.old ≤ 32 }
    requires long { length states.old ≡ contexts_of below.now.set.now * 32 }
    requires states { AreStates below.now.depth (contexts_of below.now.set.now) states.old }
    ensures ok { OnOk result (RowRead (reading_of below.now.set.now below.now.depth
        below.now.two.now below.now.one.now (begins (state_at states.old) index.old) bits.old)
        cur.new (state_at states.new) index.new bits.new) }
    ensures refused { IfErr result (λ e. IsRefused (reading_of below.now.set.now below.now.depth
        below.now.two.now below.now.one.now (begins (state_at states.old) index.old) bits.old)
        cur.new e.x e.fault) }
    ensures inside { IfErr result (λ e. e.x < length cur.new) }
    ensures samples { OnOk result (AreSamples below.now.depth (length cur.new) cur.new) }
    ensures samples_before { IfErr result (λ e. AreSamples below.now.depth e.x cur.new) }
    ensures coded { (row : List ℕ) (rest : List Bool) → length row ≡ length cur.old →
        CodesRow (reading_of below.now.set.now below.now.depth below.now.two.now below.now.one.now
        (begins (state_at states.old) index.old) bits.old) row rest →
        IsOk result × (cur.new ≡ row) × (bits.new ≡ rest) }
    ensures index { index.new ≤ 32 }
    ensures states { AreStates below.now.depth (contexts_of below.now.set.now) states.new }
{
    let mut x = 0;
    let mut is_on = false;
    while x < cur.len() {
        if is_on || first_context(below, cur, x) {
            match read_stretch(bits, below, states, index, cur, x) {
                Ok(stretch) => {
                    x = stretch.x;
                    is_on = stretch.is_on;
                }
                Err(refused) => return Err(refused),
            }
        } else {
            match read_plain(bits, below, states, cur, x) {
                Ok(after) => x = after,
                Err(refused) => return Err(refused),
            }
        }
    }
    Ok(())
}
