// A session: standard input as a recording, piece by piece as the bytes come, each answer a line.
use crate::input::Held;
use crate::lines;
use replay::replay::resume;
use replay_rules::recording::{CUT_SHORT, OUTPUT_FULL};
use state::types::{Config, Run};
use std::io::Read;

// What follows a turn.
enum Next {
    Turn,
    End,
    Bad,
}

// Behind a turn that stopped so: room is made by the next turn, a record that is cut may be whole once more bytes are there,
// and any other stop but the end is a bad record. Where no more bytes come, what is left of a record is bad.
fn onward(stop: u8, held: &mut Held, reader: &mut impl Read) -> Next {
    match stop {
        OUTPUT_FULL => Next::Turn,
        0 | CUT_SHORT => {
            if held.refill(reader) {
                Next::Turn
            } else if held.bytes().is_empty() {
                Next::End
            } else {
                Next::Bad
            }
        }
        _ => Next::Bad,
    }
}

// All of standard input. In a turn come the records that are there, as many as the output holds replies to, and their lines.
// The turns count up to a number that no session reaches.
pub fn run_all(rt: &(impl Print + Input), config: Config, first: Run) {
    let mut reader = rt.reader();
    let mut held = Held::new();
    let mut out = [0u8; 65536];
    let mut run = first;
    for _ in 0..u64::MAX {
        let piece = resume(config, run, held.bytes(), &mut out);
        lines::write(rt, text::first(&out, piece.wrote));
        run = piece.run;
        held.consume(piece.read);
        match onward(piece.stop, &mut held, &mut reader) {
            Next::Turn => {}
            Next::End => return,
            Next::Bad => {
                let _ = println!(rt; "bad");
                return;
            }
        }
    }
}
