// The step program of document 01: the configuration from path.cfg, records from standard input, one line a step. What can't
// be written is lost, and the program goes on.
#![tactic(auto)]

mod input;
mod lines;
mod session;

use image_load::types::Loaded;
use std::fmt::Write;
use std::fs;
use std::rt::Files;
use text::Page;

// The image is the first 65,536 bytes of path.cfg; a file that can't be opened counts as an empty image.
fn load(rt: &impl Files) -> Loaded {
    let mut bytes = [0u8; 65536];
    match fs::open(rt, "path.cfg") {
        Ok(mut file) => image_load::load::load(input::fill(&mut file, &mut bytes)),
        Err(_error) => image_load::load::load(&[]),
    }
}

fn main(rt: HostRuntime) {
    let Loaded {
        answer,
        offset,
        config,
        run,
    } = load(&rt);
    let mut line = Page::<64>::new();
    let _ = writeln!(line, "{answer} {offset}");
    let _ = rt.write_all(line.bytes());
    if answer != 0 {
        let _ = println!(rt; "bad");
        return;
    }
    session::run_all(&rt, config, run);
}
