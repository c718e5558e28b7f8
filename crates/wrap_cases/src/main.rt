// Steps configuration C of document 01 more than 65,536 times by one packet or fault, and prints how many of the answers were
// the expected one, counted plainly, and beside it the seven counters. What can't be written is lost.
#![tactic(auto)]

use image_load::types::Loaded;
use state::types::{Config, Counts, Run};
use std::fmt::Write;
use step_rules::types::Stepped;
use text::Page;
use worked::{C, PAD};

// What is stepped by, again and again.
#[derive(Clone, Copy)]
enum Event {
    Packet(&'static [u8]),
    Fault(u16),
}

// What a line begins with, the event, the answer that is expected, how often.
const CASES: [(&str, Event, u8, u64); 6] = [
    ("PAD, answered 10", Event::Packet(&PAD), 10, 65535),
    ("PAD, answered 10", Event::Packet(&PAD), 10, 65536),
    ("PAD, answered 10", Event::Packet(&PAD), 10, 65540),
    ("no byte, answered 22", Event::Packet(&[]), 22, 65537),
    ("fault 9, answered 34", Event::Fault(9), 34, 131075),
    ("fault 7, answered 13", Event::Fault(7), 13, 65540),
];

fn main() {
    let Loaded { config, run, .. } = image_load::load::load(&C);
    for (name, event, expected, turns) in CASES {
        let (plain, c) = again(config, run, event, expected, turns);
        let mut page = Page::<256>::new();
        let _ = writeln!(
            page,
            "{name}: {plain} counts {} {} {} {} {} {} {}",
            c.a, c.r, c.d, c.p, c.u, c.i, c.f
        );
        io::write_all(1, page.bytes());
    }
}

// One step.
fn step(config: Config, run: Run, event: Event) -> Stepped {
    let mut room = [0u8; 260];
    match event {
        Event::Packet(packet) => step_any_packet::step_packet(config, run, packet, &mut room),
        Event::Fault(fault) => step_any_fault::step_fault(config, run, fault, &mut room),
    }
}

// The same step again and again: how many of the answers were the expected one, and the counters behind the last.
fn again(config: Config, first: Run, event: Event, expected: u8, turns: u64) -> (u64, Counts) {
    let mut run = first;
    let mut plain = 0;
    for _turn in 0..turns {
        let s = step(config, run, event);
        run = s.run;
        plain += u64::from(s.answer.answer == expected);
    }
    (plain, run.standing.counts)
}
