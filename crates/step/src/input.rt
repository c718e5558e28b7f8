// Bytes from a file or from standard input.
ghost use Rattle.std.specs.Prelude.{◌<◌, ◌≤◌, length, IfSome};

use std::io::Read;

// Reads once: how many bytes came, or nothing at the end of the input and where the reading fails.
fn read_some(reader: &mut impl Read, room: &mut [u8]) -> Option<usize>
    ensures { IfSome result (λ n. (0 < n) × (n ≤ length room.old)) }
{
    match reader.read(room) {
        Ok(0) => None,
        Ok(n) => Some(n),
        Err(_error) => None,
    }
}

// Reads until the bytes are full, the input ends or a reading fails; the bytes that came.
pub fn fill<'a>(reader: &mut impl Read, bytes: &'a mut [u8]) -> &'a [u8] {
    let mut done = 0;
    while let Some(n) = read_some(reader, &mut bytes[done..]) {
        done += n;
    }
    &bytes[..done]
}

// Bytes that are read and not yet used, in fixed memory. A `BufReader` would read no more while it holds any, and a record may be
// cut.
#[derive(Drop)]
pub struct Held {
    buffer: [u8; 131072],
    start: usize,
    end: usize,
    ghost in_order: { start ≤ end },
    ghost in_bounds: { end ≤ 131072 },
}

impl Held {
    pub fn new() -> Held {
        Held {
            buffer: [0; 131072],
            start: 0,
            end: 0,
        }
    }

    pub fn bytes(&self) -> &[u8] {
        &self.buffer[self.start..self.end]
    }

    // So many of the bytes are used.
    pub fn consume(&mut self, count: usize) {
        self.start += count.min(self.end - self.start);
    }

    // Reads once, behind the bytes that are held, which go to the front; whether any came.
    pub fn refill(&mut self, reader: &mut impl Read) -> bool {
        self.buffer.copy_within(self.start..self.end, 0);
        self.end -= self.start;
        self.start = 0;
        match read_some(reader, &mut self.buffer[self.end..]) {
            Some(n) => {
                self.end += n;
                true
            }
            None => false,
        }
    }
}
