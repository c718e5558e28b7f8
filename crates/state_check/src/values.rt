// The tests of single values that the judge of a state asks.
ghost use Rattle.std.specs.Prelude.{◌≡◌};
ghost use Rattle.state.specs.Test.{counted, arm_ok, state_ok};

// No table has more rows than its limit.
#[tactic(auto, unfolding(state::specs::Test::counted))]
pub(crate) fn counts_ok(nroutes: usize, nprotected: usize, nrows: usize) -> bool
    ensures { result ≡ counted nroutes nprotected nrows }
{
    nroutes <= 128 && nprotected <= 32 && nrows <= 32
}

// Unarmed with no ticks, or armed with at most 255.
#[tactic(auto, unfolding(state::specs::Test::arm_ok))]
pub(crate) fn arm_ok(armed: bool, ticks: u16) -> bool
    ensures { result ≡ arm_ok armed ticks }
{
    if armed { ticks <= 255 } else { ticks == 0 }
}

// A known fault state, and latched only in a row that latches. No branches, since the loop over the states has none.
#[tactic(auto, unfolding(state::specs::Test::state_ok))]
pub(crate) fn state_ok(latching: u8, s: u8) -> bool
    ensures { result ≡ state_ok latching s }
{
    (s <= 2) & ((s != 2) | (latching != 0))
}
