// Loading: one pass over the image, record by record, into a configuration and fault states that stay where they are.
ghost use Rattle.std.specs.Prelude.{◌≡◌, MatchResult};
ghost use Rattle.state.specs.Tables.{empty, config_of, first_run};
ghost use Rattle.image_rules.specs.Refusals.{number_of};
ghost use Rattle.image_load.specs.Image.{refused, load_of};
ghost use Rattle.image_load.specs.LoadWalk.{Blank, Reads};

use crate::types::Loaded;
use image_rules::record;
use image_rules::refusal::BadImage;
use state::types::{Config, Numbers, first_run, no_settings};

// All zero, all tables empty.
fn blank() -> Config
    ensures { result ≡ config_of empty }
{
    Config {
        numbers: Numbers {
            settings: no_settings(),
            nroutes: 0,
            nprotected: 0,
            nrows: 0,
        },
        routeids: [0; 128],
        dests: [0; 128],
        protected: [0; 32],
        faultids: [0; 32],
        responses: [0; 32],
        latching: [0; 32],
        argcounts: [0; 32],
        args: [0; 512],
    }
}

// An answer and its offset, with the state that is all zero.
fn zeroed(answer: u8, offset: usize) -> Loaded
    ensures { result ≡ refused answer offset }
{
    Loaded {
        answer,
        offset,
        config: blank(),
        run: first_run([0; 32]),
    }
}

// Where reading the records stopped: the refusal of the first bad one, and its offset.
#[derive(Clone, Copy)]
struct Stopped {
    refusal: BadImage,
    offset: usize,
}

impl Stopped {
    fn by(refusal: BadImage, offset: usize) -> Stopped
        ensures { result ≡ record { refusal = refusal; offset = offset } }
    {
        Stopped { refusal, offset }
    }
}

// Reads the records of an image into columns that are all zero. Each record says how far the next one is, so the place goes on
// by no fixed step.
fn read_records(image: &[u8], config: &mut Config, states: &mut [u8; 32]) -> Result<(), Stopped>
    requires { Blank config.old states.old }
    ensures { MatchResult result
        (λ done. Reads image.now 0 0 config.new states.new)
        (λ stopped. Reads image.now (number_of stopped.refusal) stopped.offset config.new states.new) }
{
    if image.is_empty() {
        return Err(Stopped::by(BadImage::EmptyImage, 0));
    }
    let mut last = 0;
    let mut at = 0;
    while at < image.len() {
        let found = record::found_at(image, at).ok_or(Stopped::by(BadImage::CutShort, at))?;
        let from = at + 4;
        let body = &image[from..found.end];
        image_take::take_record(last, found.kind, body, config, states).map_err(
            |refusal| Stopped::by(refusal, at),
        )?;
        last = found.kind;
        at = found.end;
    }
    Ok(())
}

// Loads an image: 0 and its state, or the refusal and the offset of the first bad record. The tables are built in what is handed
// back.
pub fn load(image: &[u8]) -> Loaded
    ensures { result ≡ load_of image.now }
{
    let mut loaded = zeroed(0, 0);
    loaded.config.numbers.settings = image_check::first_settings();
    if let Err(stopped) = read_records(image, &mut loaded.config, &mut loaded.run.states) {
        return zeroed(u8::from(stopped.refusal), stopped.offset);
    }
    loaded
}
