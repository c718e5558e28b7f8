// The response states of fault rows.
ghost use Rattle.std.specs.Prelude.{◌≡◌, ℕ, ◌<◌, ◌≤◌, length, slice_index};
ghost use Rattle.step_effects.specs.FaultStates.{number_of, next_state, row_after, clear_all};

// The states, as bytes: C lends them as such.
pub const DISABLED: u8 = 0;

pub const ENABLED: u8 = 1;

pub const LATCHED: u8 = 2;

// The events.
#[derive(Clone, Copy, PartialEq, Eq)]
pub enum Event {
    Enable = 0,
    Disable = 1,
    Clear = 2,
    Fault = 3,
}

// The next state of a latching row, by state (disabled, enabled, latched) and event (enable, disable, clear, fault).
const NEXT: [[u8; 4]; 3] = [
    [ENABLED, DISABLED, DISABLED, DISABLED],
    [ENABLED, DISABLED, ENABLED, LATCHED],
    [LATCHED, DISABLED, ENABLED, LATCHED],
];

// internal: a state of the table, which the rules of a state ensure.
pub fn next(s: u8, e: Event) -> u8
    requires { s < 3 }
    ensures { result ≡ next_state s (number_of e) }
{
    NEXT[s as usize][e as usize]
}

// The state of a row after an event: one that doesn't latch stays as it is at a fault.
// internal: as `next`.
#[tactic(auto, unfolding(crate::specs::FaultStates::row_after))]
pub fn row_after(latching: u8, s: u8, e: Event) -> u8
    requires { s < 3 }
    ensures { result ≡ row_after latching s (number_of e) }
{
    if e == Event::Fault && latching == 0 {
        s
    } else {
        next(s, e)
    }
}

// Each fault state cleared, where they stand.
// internal: as `next`.
pub fn clear_all(states: &mut [u8; 32])
    requires { (length states.old ≡ 32) × ((k : ℕ) → slice_index states.old k ≤ 2) }
    ensures { states.new ≡ clear_all states.old }
{
    for k in 0..32 {
        states[k] = next(states[k], Event::Clear);
    }
}
