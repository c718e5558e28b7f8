// The tables of a state: rows that rise and keep their rule, argument bytes, fault states. Rows in use are passed over by a walk for
// each column where its test is of its numbers alone, and the routes are searched for protected ids and responses. That counts are within
// their limits and that routes rise is asked in each contract and is no invariant of a type: C lends any bytes, and this judges them.
ghost use Rattle.std.specs.Prelude.{◌≡◌, ◌&&◌, true, [], ◌*◌, ◌≤◌, length, take, drop};
ghost use Rattle.state.specs.Tables.{listed, route_at};
ghost use Rattle.state.specs.Lookup.{Column};
ghost use Rattle.state.specs.Test.{all_zero, args_zero, routes_kept, protected_kept, rows_kept, states_ok};
ghost use Rattle.state_check.specs.TableParts.{argless};

use crate::arrays::{at_most, dests_ok, none_own, rising, zero_bytes};
use crate::values::state_ok;
use state::rules;
use state_lookup::holds;

// At most 16 arguments in each of n rows, and zero behind them and behind the last row.
// internal: for the judge of a state, which has seen that the counts are within their limits.
pub(crate) fn args_keep<'a>(counts: &'a [u8], n: usize, args: &'a [u8]) -> bool
    requires { (n ≤ length counts.now) × (16 * n ≤ length args.now) }
    ensures { result ≡ args_zero (take n counts.now) args.now }
{
    for k in 0..n {
        let count = counts[k];
        if count > 16 {
            return false;
        }
        if !zero_bytes(&args[16 * k..16 * k + 16], count as usize) {
            return false;
        }
    }
    zero_bytes(args, 16 * n)
}

// Fault ids and responses behind n rows are zero. The two columns are passed over side by side, and so are those of `bytes_unused`: by
// a walk for each of the five a tick on configuration C took 218 instructions more.
// internal: for the judge of a state, whose fault rows stand in arrays of 32.
pub(crate) fn words_unused<'a>(faultids: &'a [u16], responses: &'a [u16], n: usize) -> bool
    requires { (length faultids.now ≡ 32) × (length responses.now ≡ 32) }
    ensures { result ≡ (all_zero (drop n faultids.now) && all_zero (drop n responses.now)) }
{
    let mut ok = true;
    for k in n..32 {
        ok &= (faultids[k] == 0) & (responses[k] == 0);
    }
    ok
}

// So are the bytes of such rows, their states among them, side by side too.
// internal: for the judge of a state, whose fault rows stand in arrays of 32.
pub(crate) fn bytes_unused<'a>(
    latching: &'a [u8],
    argcounts: &'a [u8],
    states: &'a [u8],
    n: usize,
) -> bool
    requires { (length latching.now ≡ 32) × (length argcounts.now ≡ 32) × (length states.now ≡ 32) }
    ensures { result ≡ (all_zero (drop n latching.now) && (all_zero (drop n argcounts.now) && all_zero (drop n states.now))) }
{
    let mut ok = true;
    for k in n..32 {
        ok &= (latching[k] == 0) & ((argcounts[k] == 0) & (states[k] == 0));
    }
    ok
}

// The routes rise and keep their rule.
// internal: for the judge of a state, which has seen that own base and the counts are within their limits.
pub(crate) fn routes_keep<'a>(base: u16, ids: &'a [u16], dests: &'a [u8], n: usize) -> bool
    requires { (n ≤ length ids.now) × (n ≤ length dests.now) × (base ≤ 65528) }
    ensures { result ≡ routes_kept base (listed (route_at ids.now dests.now) 0 n) }
{
    let used = &ids[..n];
    rising(used) & (dests_ok(&dests[..n]) & none_own(used, base))
}

// The protected ids rise and keep their rule.
// internal: for the judge of a state, which has seen that the counts are within their limits and that the routes rise.
pub(crate) fn protected_keep<'a>(
    base: u16,
    ids: &'a [u16],
    n: usize,
    protected: &'a [u16],
    m: usize,
) -> bool
    requires { Column 128 ids.now n × (m ≤ length protected.now) }
    ensures { result ≡ protected_kept base (take n ids.now) (take m protected.now) }
{
    let used = &protected[..m];
    if !rising(used) {
        return false;
    }
    for id in used {
        let routed = holds(ids, n, state_lookup::ROUTES, *id);
        if !rules::protected_ok(base, routed, *id) {
            return false;
        }
    }
    true
}

// The fault ids rise and the rows keep their rule.
// internal: for the judge of a state, which has seen that the counts are within their limits and that the routes rise.
pub(crate) fn rows_keep<'a>(
    ids: &'a [u16],
    n: usize,
    faultids: &'a [u16],
    responses: &'a [u16],
    latching: &'a [u8],
    m: usize,
) -> bool
    requires { Column 128 ids.now n × (m ≤ length faultids.now) × (m ≤ length responses.now) × (m ≤ length latching.now) }
    ensures { result ≡ rows_kept (take n ids.now) (argless faultids.now responses.now latching.now m) }
{
    if !rising(&faultids[..m]) {
        return false;
    }
    if !at_most(&latching[..m], 1) {
        return false;
    }
    let used = &responses[..m];
    for id in used {
        if !holds(ids, n, state_lookup::ROUTES, *id) {
            return false;
        }
    }
    true
}

// A state for each of n rows, and zero behind them.
// internal: for the judge of a state, which has seen that the counts are within their limits and that zero stands behind.
pub(crate) fn states_keep<'a>(latching: &'a [u8], n: usize, states: &'a [u8]) -> bool
    requires { (n ≤ length latching.now) × (n ≤ length states.now) × (all_zero (drop n states.now) ≡ true) }
    ensures { result ≡ states_ok (argless [] [] latching.now n) states.now }
{
    let mut ok = true;
    for k in 0..n {
        ok &= state_ok(latching[k], states[k]);
    }
    ok
}
