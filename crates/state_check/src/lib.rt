// The judge of a whole state, which every public step asks first: each part with what it does not use, and no part behind one that
// fails.
#![tactic(auto)]

mod arrays;
mod tables;
mod values;

ghost use Rattle.std.specs.Prelude.{◌≡◌, ◌≤◌, length};
ghost use Rattle.state.specs.Tables.{config_of_lent};
ghost use Rattle.state.specs.Test.{keeps_rules};
ghost use Rattle.state_check.specs.TableParts.{routes_part};
ghost use Rattle.state_check.specs.StateJudgeLaws.{Judged};

use crate::arrays::{zero_bytes, zero_words};
use crate::tables::{
    args_keep, bytes_unused, protected_keep, routes_keep, rows_keep, states_keep, words_unused,
};
use crate::values::{arm_ok, counts_ok};
use state::rules;
use state::types::{Config, LentConfig, Run, Standing};

// The routes, and the protected ids once the routes are known to rise.
fn routes_judged<'a>(
    base: u16,
    ids: &'a [u16],
    dests: &'a [u8],
    n: usize,
    protected: &'a [u16],
    m: usize,
) -> bool
    requires { (length ids.now ≡ 128) × (n ≤ length ids.now) × (n ≤ length dests.now) × (m ≤ length protected.now)
        × (base ≤ 65528) }
    ensures { result ≡ routes_part base ids.now dests.now n protected.now m }
{
    routes_keep(base, ids, dests, n)
        && protected_keep(base, ids, n, protected, m)
        && zero_words(ids, n)
        && zero_bytes(dests, n)
        && zero_words(protected, m)
}

// The state that is lent keeps its rules; the lengths of its arrays are handed back.
pub fn lent_keeps(config: &LentConfig<'_>, standing: Standing, states: &[u8; 32]) -> bool
    ensures { Judged (config_of_lent config.now) standing states.now result }
{
    let LentConfig {
        numbers,
        routeids,
        dests,
        protected,
        faultids,
        responses,
        latching,
        argcounts,
        args,
    } = *config;
    if !counts_ok(numbers.nroutes, numbers.nprotected, numbers.nrows) {
        return false;
    }
    if !arm_ok(standing.arm.armed, standing.arm.ticks) {
        return false;
    }
    if !rules::settings_ok(numbers.settings) {
        return false;
    }
    if !routes_judged(
        numbers.settings.base,
        routeids,
        dests,
        numbers.nroutes,
        protected,
        numbers.nprotected,
    ) {
        return false;
    }
    if !rows_keep(
        routeids,
        numbers.nroutes,
        faultids,
        responses,
        latching,
        numbers.nrows,
    ) {
        return false;
    }
    if !words_unused(faultids, responses, numbers.nrows) {
        return false;
    }
    if !bytes_unused(latching, argcounts, states, numbers.nrows) {
        return false;
    }
    if !args_keep(argcounts, numbers.nrows, args) {
        return false;
    }
    states_keep(latching, numbers.nrows, states)
}

// The state keeps its rules; document 01, "A state breaks its rules where ..", says when not.
pub fn keeps_rules(config: Config, run: Run) -> bool
    ensures { result ≡ keeps_rules config run }
{
    lent_keeps(&config.lent(), run.standing, &run.states)
}
