// What refuses a whole record, one function for each kind of rows and one for all single kinds: by its size, the order of kinds
// and ids, the room in its table, and its rules. Each asks in the order of the numbers and returns at the first that fails. Of
// the rows before it only the ids are looked at, in a configuration that is lent, so that nothing is copied; and only those that
// the kind has to know of.
//
// `last` is the kind of the record before, 0 where there is none, as `last_kind` has it. Kinds go by their numbers, which the
// table of kinds and each definition of their order speak of: an Option or an enum would be turned back into them in every
// contract. That the routes rise is asked in the contracts (`Column`) and is no invariant of `Config`: C lends configurations of
// any bytes.
#![tactic(auto)]

ghost use Rattle.std.specs.Prelude.{◌≡◌, true, ◌&&◌, [], ◌≤◌, leb, length, take};
ghost use Rattle.wire.specs.Check.{check};
ghost use Rattle.state.specs.Tables.{Tables, routed};
ghost use Rattle.state.specs.Lookup.{Slots, Column};
ghost use Rattle.state.specs.Rules.{member, floor, start_ok, row_ok};
ghost use Rattle.state.specs.Test.{protected_passes};
ghost use Rattle.image_rules.specs.Written.{settings_of_records, settings_with};
ghost use Rattle.image_rules.specs.Kinds.{one, sized, row_sized, last_of_kinds, kind_of};
ghost use Rattle.image_rules.specs.Checks.{is_in_order, refusal_after};
ghost use Rattle.image_rules.specs.Refusals.{told};
ghost use Rattle.image_rules.specs.RecordParts.{Holds, place_refusal};

use image_rules::record::word_at;
use image_rules::refusal::BadImage;
use state::rules;
use state::types::{Config, Settings};
use state_lookup::holds;

// ---- what kinds share

// The id is above the last of these.
fn is_above(ids: &[u16], id: u16) -> bool
    ensures { result ≡ leb (floor ids.now) id }
{
    match ids.last() {
        Some(last) => *last < id,
        None => true,
    }
}

// A row behind others with these ids, of which there may be so many: the order of kinds and of ids, and the room.
#[tactic(auto, unfolding(image_rules::specs::RecordParts::place_refusal))]
fn place_refusal(last: u16, kind: u16, limit: usize, ids: &[u16], id: u16) -> Result<(), BadImage>
    requires { 2 ≤ kind }
    ensures { told result ≡ place_refusal last kind limit ids.now id }
{
    if last == 0 || kind < last || !is_above(ids, id) {
        return Err(BadImage::OutOfOrder);
    }
    if ids.len() >= limit {
        return Err(BadImage::NoRoom);
    }
    Ok(())
}

// The last check: whether the rules are kept.
fn rule_refusal(ok: bool) -> Result<(), BadImage>
    ensures { told result ≡ check ok 7 0 }
{
    if ok {
        Ok(())
    } else {
        Err(BadImage::BrokenRule)
    }
}

// ---- single kinds

// Before any record: the default of each kind that may be missing, and zero.
pub fn first_settings() -> Settings
    ensures { result ≡ settings_of_records [] }
{
    Settings {
        ground_source: 0,
        fault: 0,
        base: 0,
    }
}

// The settings with what a record of a single kind sets.
// internal: for the loader, which has seen that the body has its size.
pub fn settings_with(settings: Settings, kind: u16, body: &[u8]) -> Settings
    requires { sized (kind_of kind) body.now ≡ true }
    ensures { result ≡ settings_with kind body.now settings }
{
    if kind == 1 {
        Settings {
            ground_source: word_at(body, 0),
            fault: word_at(body, 2),
            base: word_at(body, 4),
        }
    } else {
        settings
    }
}

// The first record is of kind 1; any other single kind stands behind lower kinds.
fn one_in_order(last: u16, kind: u16) -> bool
    ensures { result ≡ is_in_order true last kind }
{
    if last == 0 { kind == 1 } else { last < kind }
}

// A record of a single kind with bodies of this size, behind records that set these settings.
// internal: for the loader, which knows the table of kinds.
pub fn one_refusal(
    last: u16,
    kind: u16,
    size: usize,
    body: &[u8],
    settings: Settings,
) -> Result<(), BadImage>
    requires { (1 ≤ kind) × (kind ≤ last_of_kinds) × (kind_of kind ≡ one size) }
    ensures { (t : Tables) → settings ≡ t.settings → told result ≡ refusal_after last [] t kind body.now }
{
    if body.len() != size {
        return Err(BadImage::WrongLength);
    }
    if !one_in_order(last, kind) {
        return Err(BadImage::OutOfOrder);
    }
    rule_refusal(rules::settings_ok(settings_with(settings, kind, body)))
}

// ---- kind 2

// Behind the routes of the configuration.
// internal: for the loader, whose columns are so.
pub fn route_refusal(last: u16, body: &[u8], config: &Config) -> Result<(), BadImage>
    requires { Slots 128 config.now.routeids config.now.numbers.nroutes }
    ensures { (t : Tables)
        → config.now.numbers.settings.base ≡ t.settings.base
        → told result ≡ refusal_after last (take config.now.numbers.nroutes config.now.routeids) t 2 body.now }
{
    if body.len() != 3 {
        return Err(BadImage::WrongLength);
    }
    let ids = &config.routeids[..config.numbers.nroutes];
    let id = word_at(body, 0);
    place_refusal(last, 2, 128, ids, id)?;
    rule_refusal(rules::route_ok(config.numbers.settings.base, id, body[2]))
}

// ---- kind 3

// The id is routed.
#[inline(always)]
fn is_routed(config: &Config, id: u16) -> bool
    requires { Column 128 config.now.routeids config.now.numbers.nroutes }
    ensures { result ≡ member id (take config.now.numbers.nroutes config.now.routeids) }
{
    holds(
        &config.routeids,
        config.numbers.nroutes,
        state_lookup::ROUTES,
        id,
    )
}

// The rule, with the lookup last: an own id need not be looked up.
#[tactic(auto, unfolding(state::specs::Rules::protected_ok))]
fn protected_ok(config: &Config, id: u16) -> bool
    requires { Column 128 config.now.routeids config.now.numbers.nroutes }
    ensures { result
        ≡ protected_passes config.now.numbers.settings.base (take config.now.numbers.nroutes config.now.routeids) id }
{
    let base = config.numbers.settings.base;
    id != base && (rules::is_own(base, id) || is_routed(config, id))
}

// Behind the routes and the protected ids of the configuration.
// internal: for the loader, whose columns are so.
pub fn protected_refusal(last: u16, body: &[u8], config: &Config) -> Result<(), BadImage>
    requires { Column 128 config.now.routeids config.now.numbers.nroutes
        × Slots 32 config.now.protected config.now.numbers.nprotected }
    ensures { (t : Tables)
        → Holds t config.now.numbers.settings.base (take config.now.numbers.nroutes config.now.routeids)
        → told result ≡ refusal_after last (take config.now.numbers.nprotected config.now.protected) t 3 body.now }
{
    if body.len() != 2 {
        return Err(BadImage::WrongLength);
    }
    let ids = &config.protected[..config.numbers.nprotected];
    let id = word_at(body, 0);
    place_refusal(last, 3, 32, ids, id)?;
    rule_refusal(protected_ok(config, id))
}

// ---- kind 4

// As long as its n says, which is at most 16.
#[tactic(auto, unfolding(image_rules::specs::Kinds::row_sized))]
fn is_row_sized(body: &[u8]) -> bool
    ensures { result ≡ row_sized body.now }
{
    body.get(6)
        .is_some_and(|n| *n <= 16 && body.len() == 7 + *n as usize)
}

// The rule, with the lookup last: start state and latching are 0 or 1, and the response is routed. Of latching alone it is asked
// as of a routed response.
#[tactic(auto, unfolding(state::specs::Rules::row_ok))]
fn row_ok(start: u8, latching: u8, config: &Config, response: u16) -> bool
    requires { Column 128 config.now.routeids config.now.numbers.nroutes }
    ensures { result
        ≡ (start_ok start && row_ok (member response (take config.now.numbers.nroutes config.now.routeids)) latching) }
{
    rules::start_ok(start) && rules::row_ok(true, latching) && is_routed(config, response)
}

// Behind the routes and the fault rows of the configuration.
// internal: for the loader, whose columns are so.
#[tactic(auto, using(crate::proofs::Ways::seven))]
pub fn fault_row_refusal(last: u16, body: &[u8], config: &Config) -> Result<(), BadImage>
    requires { Column 128 config.now.routeids config.now.numbers.nroutes
        × Slots 32 config.now.faultids config.now.numbers.nrows }
    ensures { (t : Tables)
        → take config.now.numbers.nroutes config.now.routeids ≡ routed t
        → told result ≡ refusal_after last (take config.now.numbers.nrows config.now.faultids) t 4 body.now }
{
    if !is_row_sized(body) {
        return Err(BadImage::WrongLength);
    }
    let ids = &config.faultids[..config.numbers.nrows];
    let id = word_at(body, 0);
    place_refusal(last, 4, 32, ids, id)?;
    let response = word_at(body, 2);
    rule_refusal(row_ok(body[4], body[5], config, response))
}
