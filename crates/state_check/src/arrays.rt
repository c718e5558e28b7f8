// The walks over arrays that the judge of a state asks: they gather a bool, its new part first, and the compiler makes vector
// code of them, since no turn of a loop branches. So they are loops, and no `all`, which stops at the first that fails.
ghost use Rattle.std.specs.Prelude.{◌≡◌, ◌≤◌, drop};
ghost use Rattle.state.specs.Test.{all_zero};
ghost use Rattle.state_check.specs.Each.{each, rises, within, dest_ok, foreign};

// All is zero from a place on. (Of words and of bytes by themselves: one function for both would need a bound that makes a number of
// an element, and its contract would speak of that number.)
pub(crate) fn zero_words(xs: &[u16], from: usize) -> bool
    ensures { result ≡ all_zero (drop from xs.now) }
{
    let mut ok = true;
    for k in from..xs.len() {
        ok &= xs[k] == 0;
    }
    ok
}

// The same of bytes.
pub(crate) fn zero_bytes(xs: &[u8], from: usize) -> bool
    ensures { result ≡ all_zero (drop from xs.now) }
{
    let mut ok = true;
    for k in from..xs.len() {
        ok &= xs[k] == 0;
    }
    ok
}

// Each is below the next.
pub(crate) fn rising(ids: &[u16]) -> bool
    ensures { result ≡ rises 0 ids.now }
{
    let mut ok = true;
    for k in 1..ids.len() {
        ok &= ids[k - 1] < ids[k];
    }
    ok
}

// Each is at most this.
pub(crate) fn at_most(xs: &[u8], most: u8) -> bool
    ensures { result ≡ each (within most) xs.now }
{
    let mut ok = true;
    for x in xs {
        ok &= *x <= most;
    }
    ok
}

// Each is a destination, 1 to 31.
pub(crate) fn dests_ok(dests: &[u8]) -> bool
    ensures { result ≡ each dest_ok dests.now }
{
    let mut ok = true;
    for dest in dests {
        ok &= (1 <= *dest) & (*dest <= 31);
    }
    ok
}

// None is an own id.
// internal: for the judge of a state, which has seen that own base is within its limit.
pub(crate) fn none_own(ids: &[u16], base: u16) -> bool
    requires { base ≤ 65528 }
    ensures { result ≡ each (foreign base) ids.now }
{
    let last = base + 7;
    let mut ok = true;
    for id in ids {
        ok &= (*id < base) | (*id > last);
    }
    ok
}
