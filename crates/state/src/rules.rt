// The rules of document 01 for a configuration's numbers and rows, one function each.
ghost use Rattle.std.specs.Prelude.{◌≡◌};
ghost use Rattle.state.specs.Settings.{settings_ok};
ghost use Rattle.state.specs.Rules.{own, route_ok, protected_ok, row_ok, start_ok};

use crate::types::Settings;

// The id is one of the eight own ids.
#[tactic(auto, unfolding(crate::specs::Rules::own))]
pub fn is_own(base: u16, id: u16) -> bool
    ensures { result ≡ own base id }
{
    base <= id && id - base <= 7
}

// The sources differ, and the own ids end within 65,535.
#[tactic(auto, unfolding(crate::specs::Settings::settings_ok))]
pub fn settings_ok(settings: Settings) -> bool
    ensures { result ≡ settings_ok settings }
{
    settings.ground_source != settings.fault && settings.base <= 65528
}

// The destination is 1 to 31, and the id is no own id.
#[tactic(auto, unfolding(crate::specs::Rules::route_ok))]
pub fn route_ok(base: u16, id: u16, dest: u8) -> bool
    ensures { result ≡ route_ok base id dest }
{
    1 <= dest && dest <= 31 && !is_own(base, id)
}

// The id, of which it is known whether it is routed, is routed or own, and is not the arm id.
#[tactic(auto, unfolding(crate::specs::Rules::protected_ok))]
pub fn protected_ok(base: u16, routed: bool, id: u16) -> bool
    ensures { result ≡ protected_ok base routed id }
{
    id != base && (routed || is_own(base, id))
}

// The response id is routed, and latching is 0 or 1.
#[tactic(auto, unfolding(crate::specs::Rules::row_ok))]
pub fn row_ok(routed: bool, latching: u8) -> bool
    ensures { result ≡ row_ok routed latching }
{
    routed && latching <= 1
}

// The start state is 0 or 1.
#[tactic(auto, unfolding(crate::specs::Rules::start_ok))]
pub fn start_ok(start: u8) -> bool
    ensures { result ≡ start_ok start }
{
    start <= 1
}
