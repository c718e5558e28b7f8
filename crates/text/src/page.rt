// Text or other bytes put one behind the other in fixed memory, to be written out: a program that prints so allocates nothing, and
// assumes nothing but the C library's `write`.
ghost use Rattle.std.specs.Prelude.{◌≡◌, ℕ, List, [], IsOk};
ghost use Rattle.text.specs.Text.{appended};

use std::fmt;
use std::marker::Model;

// At most `N` bytes.
#[derive(Drop)]
pub struct Page<const N: usize> {
    room: [u8; N],
    size: usize,
}

// Clauses see the bytes that are in it.
impl<const N: usize> Model for Page<N> {
    ghost use Rattle.std.specs.Prelude.{◌≤◌, ℕ, List, take};

    ghost Value = { List ℕ };

    ghost view = { λ p. take p.size p.room };

    ghost invariant = { λ p. p.size ≤ N };
}

impl<const N: usize> Page<N> {
    // With nothing in it.
    pub fn new() -> Page<N>
        ensures { result ≡ [] }
    {
        Page {
            room: [0; N],
            size: 0,
        }
    }

    // What is in it.
    pub fn bytes(&self) -> &[u8]
        ensures { result.now ≡ self.now }
    {
        &self.room[..self.size]
    }

    // Puts `s` behind what is in it; nothing, where it does not fit.
    pub fn put(&mut self, s: &[u8])
        ensures { self.new ≡ appended N self.old s.now }
    {
        self.size = crate::put(&mut self.room, self.size, s);
    }

    // Takes all out of it.
    pub fn clear(&mut self)
        ensures { self.new ≡ [] }
    {
        self.size = 0;
    }
}

// Formats put their text as `put` does, and go on where a part of it does not fit. What one call gives is stated for `write!`, which
// promises it of the whole text where each part has an output.
impl<const N: usize> fmt::Write for Page<N> {
    ghost write_str_gives = { λ p s q. q ≡ appended N p s };

    fn write_str(&mut self, s: &str) -> fmt::Result
        ensures goes_on { IsOk result }
        ensures puts { self.new ≡ appended N self.old s.now }
    {
        self.put(s.as_bytes());
        Ok(())
    }
}
