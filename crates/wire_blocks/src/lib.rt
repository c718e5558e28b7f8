// A run of bytes put into a lent buffer in blocks, as `wire::put::bytes` does one by one: for the arguments of a command, of which
// there may be 255.
#![tactic(auto)]

ghost use Rattle.std.specs.Prelude.{◌≡◌, ◌+◌, ◌≤◌, ◌<◌, length, take, drop};
ghost use Rattle.wire.specs.Put.{put_at};

use wire::put;

// Puts all of `s` into `out` from place `at` on; every other byte stays. The last block may stand over what was put before it.
// internal: for the path's own writers, which have seen that the bytes fit.
pub fn run(out: &mut [u8], at: usize, s: &[u8])
    requires { at + length s.now ≤ length out.old }
    ensures { out.new ≡ put_at out.old at s.now }
{
    let n = s.len();
    if n < 16 {
        few(out, at, s);
    } else if n < 32 {
        ends::<16>(out, at, s);
    } else if n < 64 {
        ends::<32>(out, at, s);
    } else {
        most(out, at, s);
    }
}

// Two blocks of four or of eight, or no block.
// internal: for `run`, which has seen that there are so few.
fn few(out: &mut [u8], at: usize, s: &[u8])
    requires { (length s.now < 16) × (at + length s.now ≤ length out.old) }
    ensures { out.new ≡ put_at out.old at s.now }
{
    let n = s.len();
    if n < 4 {
        put::bytes(out, at, s);
    } else if n < 8 {
        ends::<4>(out, at, s);
    } else {
        ends::<8>(out, at, s);
    }
}

// Sixty-four bytes in each turn, and the last sixty-four up to the end. The turns are counted by hand: the compiler writes out
// eight turns of a `for` over steps of sixty-four, of which there are three at most, and so it takes 17 instructions more and
// 24 bytes of stack.
// internal: for `run`, which has seen that there are so many.
fn most(out: &mut [u8], at: usize, s: &[u8])
    requires { (64 ≤ length s.now) × (at + length s.now ≤ length out.old) }
    ensures { out.new ≡ put_at out.old at s.now }
{
    let last = s.len() - 64;
    let mut done = 0;
    while done < last {
        block::<64>(out, at, s, done);
        done += 64;
    }
    block::<64>(out, at, s, last);
}

// A block from the start and one up to the end, which reach each other: no loop.
// internal: for `run` and `few`, which have seen that there are so many.
fn ends<const N: usize>(out: &mut [u8], at: usize, s: &[u8])
    requires { (N ≤ length s.now) × (length s.now ≤ N + N) × (at + length s.now ≤ length out.old) }
    ensures { out.new ≡ put_at out.old at s.now }
{
    block::<N>(out, at, s, 0);
    block::<N>(out, at, s, s.len() - N);
}

// Puts the N bytes of `s` from `i` on to their places behind `at`. They are read before any is written, and N is known where it
// is called: so the compiler makes one load and one store of them, or a few.
// internal: for the functions above, which have seen that there are so many.
fn block<const N: usize>(out: &mut [u8], at: usize, s: &[u8], i: usize)
    requires { (i + N ≤ length s.now) × (at + length s.now ≤ length out.old) }
    ensures { out.new ≡ put_at out.old (at + i) (take N (drop i s.now)) }
{
    let bytes = *s[i..].first_chunk::<N>().unwrap();
    put::bytes(out, at + i, &bytes);
}
