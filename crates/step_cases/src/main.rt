// Steps at the edges of the rules on configuration C of document 01: output room, states that break their rules, own commands
// and fault numbers. Prints of each its name, the four numbers, the arm record, the first row's state and the counters. What
// can't be written is lost, and the program goes on.
#![tactic(auto)]

use image_load::types::Loaded;
use state::types::{Arm, Config, Run};
use std::fmt::Write;
use step_rules::types::Stepped;
use text::Page;
use worked::{C, PAD};

fn main() {
    let Loaded { config, run, .. } = image_load::load::load(&C);
    rooms(config, run);
    broken(config, run);
    own(config, run);
    on_rows(config, run);
    lasting(config, run);
}

// One line of a step: the name, the answer's four numbers, the arm record, the state of the first fault row, and A, R, D, P, U,
// I, F.
fn line(name: &str, s: Stepped) {
    let a = s.answer;
    let Arm { armed, ticks } = s.run.standing.arm;
    let armed = u8::from(armed);
    let row = s.run.states[0];
    let c = s.run.standing.counts;
    let mut page = Page::<256>::new();
    let _ = write!(
        page,
        "{name}: {} {} {} {} armed {armed} {ticks} row {row} ",
        a.answer, a.id, a.dest, a.written
    );
    let _ = writeln!(
        page,
        "counts {} {} {} {} {} {} {}",
        c.a, c.r, c.d, c.p, c.u, c.i, c.f
    );
    io::write_all(1, page.bytes());
}

// Output room 260 serves, 259 and 0 give 21.
fn rooms(config: Config, run: Run) {
    let mut whole = [0u8; 260];
    let s = step_any_packet::step_packet(config, run, &PAD, &mut whole);
    line("room 260", s);
    let mut short = [0u8; 259];
    let s = step_any_packet::step_packet(config, run, &PAD, &mut short);
    line("room 259", s);
    let s = step_any_packet::step_packet(config, run, &[], &mut []);
    line("room 0", s);
    let s = step_any_fault::step_fault(config, run, 7, &mut short);
    line("fault, room 259", s);
}

// Each of the three steps on one state that breaks its rules.
fn all_three(name: &str, config: Config, run: Run) {
    let mut page = Page::<256>::new();
    let _ = writeln!(page, "{name}");
    io::write_all(1, page.bytes());
    let mut room = [0u8; 260];
    let s = step_any_packet::step_packet(config, run, &PAD, &mut room);
    line("  packet", s);
    let s = step_any_tick::step_tick(config, run);
    line("  tick", s);
    let s = step_any_fault::step_fault(config, run, 7, &mut room);
    line("  fault", s);
}

// Configurations that break their rules, and runs.
fn broken(config: Config, run: Run) {
    let mut c = config;
    c.numbers.nroutes = 129;
    all_three("129 routes", c, run);
    c = config;
    c.args[511] = 1;
    all_three("an unused argument byte", c, run);
    let mut r = run;
    r.states[0] = 3;
    all_three("fault state 3", config, r);
    r = run;
    r.states[31] = 1;
    all_three("a state of an unused row", config, r);
}

// A step of a packet from the ground: APID 1, sequence count 0, function code 0.
fn command(config: Config, run: Run, id: u16, args: &[u8]) -> Stepped {
    let mut packet = [0u8; 265];
    let mut room = [0u8; 260];
    let built = build_packet::build(1, 0, id, args, 0, &mut packet);
    let size = usize::from(built.written).min(packet.len());
    step_any_packet::step_packet(config, run, &packet[..size], &mut room)
}

// Commands one after another, each on the run that the one before it left: the name, the id, the arguments.
fn commands(config: Config, first: Run, all: &[(&str, u16, &[u8])]) -> Run {
    let mut run = first;
    for &(name, id, args) in all {
        let s = command(config, run, id, args);
        line(name, s);
        run = s.run;
    }
    run
}

// Own commands one argument short and long, a reset, and an id that is neither own nor routed.
fn own(config: Config, run: Run) {
    commands(config, run, &[("arm, no timeout", 100, &[])]);
    commands(
        config,
        run,
        &[
            ("arm, two bytes", 100, &[1, 2]),
            ("then a no-op", 102, &[]),
            ("then a reset", 101, &[]),
            ("then an unregistered id", 9, &[]),
        ],
    );
}

// The fault row: disable, clear, enable; a fault id that no row has.
fn on_rows(config: Config, run: Run) {
    commands(
        config,
        run,
        &[
            ("disable 7", 105, &[0, 7]),
            ("then clear 7", 106, &[0, 7]),
            ("then enable 7", 104, &[0, 7]),
            ("then enable 1,792", 104, &[7, 0]),
        ],
    );
}

// Timeout 0 lasts; a rejected packet leaves the arming; an accepted one takes it.
fn lasting(config: Config, run: Run) {
    let mut room = [0u8; 260];
    let armed = commands(config, run, &[("arm, timeout 0", 100, &[0])]);
    let s = step_any_tick::step_tick(config, armed);
    line("then a tick", s);
    let s = step_any_packet::step_packet(config, s.run, &[1, 2, 3], &mut room);
    line("then a rejected packet", s);
    commands(config, s.run, &[("then the protected command", 20, &[])]);
}
