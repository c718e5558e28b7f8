// The replies of a replay as text: a line for each, its four numbers. The bytes of a command behind them are passed over.
ghost use Rattle.std.specs.Prelude.{◌∷◌, ◌++◌, Some, decimal};

use replay_rules::recording::HEAD_SIZE;
use std::fmt;
use std::fmt::Write;
use text::Page;
use wire::word::little;

// The numbers that a reply begins with.
#[derive(Clone, Copy)]
struct Reply {
    answer: u8,
    id: u16,
    dest: u8,
    written: u16,
}

impl From<[u8; HEAD_SIZE]> for Reply {
    fn from(head: [u8; HEAD_SIZE]) -> Reply {
        let [answer, id_low, id_high, dest, written_low, written_high] = head;
        Reply {
            answer,
            id: little(id_low, id_high),
            dest,
            written: little(written_low, written_high),
        }
    }
}

// The four numbers in decimal, a blank between: which bytes a format of a reply gives.
impl fmt::Display for Reply {
    ghost output = { λ r. Some (decimal r.answer ++ 32 ∷ decimal r.id ++ 32 ∷ decimal r.dest ++ 32 ∷ decimal r.written) };

    fn fmt<W: fmt::Write>(&self, f: &mut fmt::Formatter<W>) -> fmt::Result {
        write!(
            f,
            "{} {} {} {}",
            self.answer, self.id, self.dest, self.written
        )
    }
}

// Writes the lines out. They wait in fixed memory: the program allocates nothing. A `BufWriter` would keep what can't be written,
// and try it again.
fn write_out(rt: &impl Print, lines: &mut Page<4096>) {
    let _ = rt.write_all(lines.bytes());
    lines.clear();
}

// Writes the lines of these replies. The text is written out before it could lack the room for a line.
pub fn write(rt: &impl Print, replies: &[u8]) {
    let mut lines = Page::new();
    let mut rest = replies;
    while let Some((head, behind)) = rest.split_first_chunk() {
        let reply = Reply::from(*head);
        let _ = writeln!(lines, "{reply}");
        rest = behind.get(usize::from(reply.written)..).unwrap_or(&[]);
        if 4000 < lines.bytes().len() {
            write_out(rt, &mut lines);
        }
    }
    write_out(rt, &mut lines);
}
