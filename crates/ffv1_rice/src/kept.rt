//! States of contexts in bytes.

ghost use Rattle.std.specs.Prelude.{◌≡◌, ◌≢◌, ℕ, ◌+◌, ◌*◌, ◌≤◌, length};
ghost use Rattle.ffv1_rice.specs.States.{IsState, fresh};
ghost use Rattle.ffv1_rice.specs.Kept.{AreStates, state_at};

use crate::state::State;

/// The state of a context, which stands in five of its 32 bytes.
#[inline(always)]
pub fn load(states: &[u8], context: usize) -> State
    requires { 32 * context + 32 ≤ length states.now }
    ensures { result ≡ state_at states.now context }
{
    let at = 32 * context;
    State {
        drift: 0 - i32::from(states[at]),
        error_sum: u32::from(states[at + 1]) + 256 * u32::from(states[at + 2]),
        bias: i32::from(states[at + 3]) - 128,
        count: u32::from(states[at + 4]),
    }
}

/// Keeps the state of a context; those of the others stay.
#[inline(always)]
pub fn store(states: &mut [u8], context: usize, state: &State)
    requires inside { 32 * context + 32 ≤ length states.old }
    requires state { IsState 9 state.now }
    ensures own { state_at states.new context ≡ state.now }
    ensures others { (other : ℕ) → other ≢ context →
        state_at states.new other ≡ state_at states.old other }
{
    let at = 32 * context;
    states[at] = (0 - state.drift) as u8;
    states[at + 1] = (state.error_sum % 256) as u8;
    states[at + 2] = (state.error_sum / 256) as u8;
    states[at + 3] = (state.bias + 128) as u8;
    states[at + 4] = state.count as u8;
}

/// Makes all states fresh, as at the begin of a slice. They are states of differences of 3 bits and
/// more.
pub fn reset(states: &mut [u8])
    ensures fresh { (context : ℕ) → 32 * context + 32 ≤ length states.new →
        state_at states.new context ≡ fresh }
    ensures states { (depth contexts : ℕ) → 3 ≤ depth → length states.new ≡ contexts * 32 →
        AreStates depth contexts states.new }
{
    for context in 0..states.len() / 32 {
        store(states, context, &State::FRESH);
    }
}
