// The seven counters: which of them a step moves, by the number of its answer, as C reads it. They wrap at 65,536.
ghost use Rattle.std.specs.Prelude.{◌≡◌, ◌<◌, ◌≢◌};
ghost use Rattle.step_effects.specs.Counters.{up, moved_counts, fault_counts};

use packet_rules::rejection::is_rejection;
use state::types::{Counts, no_counts};

// One more where the test holds.
fn bump(b: bool, x: u16) -> u16
    ensures { result ≡ up b x }
{
    if b { x.wrapping_add(1) } else { x }
}

// After a packet with the answer n; `reset` is whether its id selects the reset. The answer that most packets get comes first, and
// each way returns, so that a packet pays for the counters that it moves and for no others.
pub fn after_packet(c: Counts, n: u8, reset: bool) -> Counts
    ensures { result ≡ moved_counts n reset c }
{
    let mut next = c;
    if n == 10 {
        next.a = bump(true, c.a);
        next.d = bump(true, c.d);
        return next;
    }
    if n < 22 {
        return after_own(c, n, reset);
    }
    if is_rejection(n) {
        next.r = bump(true, c.r);
        return next;
    }
    next.a = bump(true, c.a);
    if n == 30 {
        next.p = bump(true, c.p);
        return next;
    }
    if n < 33 {
        next.i = bump(true, c.i);
        return next;
    }
    if n == 33 {
        next.u = bump(true, c.u);
        return next;
    }
    next
}

// After an own command that was taken, 11 or 12: a reset leaves zeros, its own count included.
fn after_own(c: Counts, n: u8, reset: bool) -> Counts
    requires { (n < 22) × (n ≢ 10) }
    ensures { result ≡ moved_counts n reset c }
{
    if n == 12 && reset {
        no_counts()
    } else {
        Counts {
            a: bump(true, c.a),
            ..c
        }
    }
}

// After a fault with the answer n.
pub fn after_fault(c: Counts, n: u8) -> Counts
    ensures { result ≡ fault_counts n c }
{
    let mut next = c;
    next.f = bump(true, c.f);
    if n != 10 {
        return next;
    }
    next.d = bump(true, c.d);
    next
}
