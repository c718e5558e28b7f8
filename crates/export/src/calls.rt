// The functions that C calls. A slice is a pointer and a length there, an array that is lent a pointer alone. Each takes any
// bytes, any configuration and any run. A step is lent the columns of the configuration and the fault states, and copies none;
// the header has a wrapper for each that takes a pointer to the configuration and one to the run.
ghost use Rattle.std.specs.Prelude.{◌≡◌, length};
ghost use Rattle.packet_rules.specs.Judge.{judge_of};
ghost use Rattle.state.specs.Tables.{config_from, config_of_lent};
ghost use Rattle.step_effects.specs.Dispatch.{over};
ghost use Rattle.replay_rules.specs.Replay.{replay_of, replay_bytes};
ghost use Rattle.build_rules.specs.Build.{given, built_of, built_output};
ghost use Rattle.export_rules.specs.Boundary.{abi, part_of, loading_of, tick_call, saved_from, stepping, PacketCalls, FaultCalls, ResumeCalls};

use build_rules::types::Built;
use export_rules::types;
use export_rules::types::{Handed, Loading, Part, Portion, SavedStanding};
use packet_judge::judge::Judged;
use replay_rules::types::Replayed;
use state::types::{LentConfig, Numbers};

// The columns that C lends, as one value.
fn lent<'a>(
    numbers: Numbers,
    routeids: &'a [u16; 128],
    dests: &'a [u8; 128],
    protected: &'a [u16; 32],
    faultids: &'a [u16; 32],
    responses: &'a [u16; 32],
    latching: &'a [u8; 32],
    argcounts: &'a [u8; 32],
    args: &'a [u8; 512],
) -> LentConfig<'a>
    ensures { config_of_lent result
        ≡ config_from numbers routeids.now dests.now protected.now faultids.now
        responses.now latching.now argcounts.now args.now }
{
    LentConfig {
        numbers,
        routeids,
        dests,
        protected,
        faultids,
        responses,
        latching,
        argcounts,
        args,
    }
}

// Which structs, signatures and numbers these are: the header's TZ_ABI. It moves with every change of one.
#[unsafe(no_mangle)]
pub extern "C" fn tz_abi() -> u32
    ensures { result ≡ abi }
{
    3
}

// The judge by itself.
#[unsafe(no_mangle)]
pub extern "C" fn tz_judge(packet: &[u8]) -> Judged
    ensures { result ≡ judge_of packet.now }
{
    packet_judge::judge::judge(packet)
}

// The argument part of a packet, as offset and length.
#[unsafe(no_mangle)]
pub extern "C" fn tz_arguments(packet: &[u8]) -> Part
    ensures { result ≡ part_of packet.now }
{
    let part = packet_judge::enquiry::arguments(packet);
    match packet_judge::judge::refusal(packet) {
        Ok(()) => Part {
            offset: 10,
            length: part.len(),
        },
        Err(_) => Part {
            offset: 0,
            length: part.len(),
        },
    }
}

// The packet builder.
#[unsafe(no_mangle)]
pub extern "C" fn tz_build(
    apid: u16,
    count: u16,
    id: u16,
    args: &[u8],
    pads: u16,
    out: &mut [u8],
) -> Built
    ensures told { result ≡ built_of (given apid count id args.now pads) (length out.old) }
    ensures output { out.new ≡ built_output (given apid count id args.now pads) out.old }
{
    build_packet::build(apid, count, id, args, pads, out)
}

// Loads a configuration image.
#[unsafe(no_mangle)]
pub extern "C" fn tz_load(image: &[u8]) -> Loading
    ensures { result ≡ loading_of image.now }
{
    let loaded = image_load::load::load(image);
    let config = loaded.config;
    let run = loaded.run;
    Loading {
        answer: loaded.answer,
        offset: loaded.offset,
        config,
        run: run.into(),
    }
}

// The packet step.
#[unsafe(no_mangle)]
pub extern "C" fn tz_lent_packet<'a>(
    numbers: Numbers,
    routeids: &'a [u16; 128],
    dests: &'a [u8; 128],
    protected: &'a [u16; 32],
    faultids: &'a [u16; 32],
    responses: &'a [u16; 32],
    latching: &'a [u8; 32],
    argcounts: &'a [u8; 32],
    args: &'a [u8; 512],
    standing: SavedStanding,
    states: &mut [u8; 32],
    packet: &[u8],
    out: &mut [u8],
) -> Handed
    ensures { PacketCalls
        (config_from numbers routeids.now dests.now protected.now faultids.now
        responses.now latching.now argcounts.now args.now)
        (saved_from standing states.old) packet.now out.old result states.new out.new }
{
    if 1 < standing.armed {
        return types::step_refused(standing);
    }
    let config = lent(
        numbers, routeids, dests, protected, faultids, responses, latching, argcounts, args,
    );
    step_any_packet::lent_packet(&config, standing.into(), states, packet, out).into()
}

// The tick step. It leaves the fault states, which are lent to be judged.
#[unsafe(no_mangle)]
pub extern "C" fn tz_lent_tick<'a>(
    numbers: Numbers,
    routeids: &'a [u16; 128],
    dests: &'a [u8; 128],
    protected: &'a [u16; 32],
    faultids: &'a [u16; 32],
    responses: &'a [u16; 32],
    latching: &'a [u8; 32],
    argcounts: &'a [u8; 32],
    args: &'a [u8; 512],
    standing: SavedStanding,
    states: &'a [u8; 32],
) -> Handed
    ensures { stepping result states.now
        ≡ tick_call (config_from numbers routeids.now dests.now protected.now faultids.now
        responses.now latching.now argcounts.now args.now)
        (saved_from standing states.now) }
{
    if 1 < standing.armed {
        return types::step_refused(standing);
    }
    let config = lent(
        numbers, routeids, dests, protected, faultids, responses, latching, argcounts, args,
    );
    step_any_tick::lent_tick(&config, standing.into(), states).into()
}

// The fault step.
#[unsafe(no_mangle)]
pub extern "C" fn tz_lent_fault<'a>(
    numbers: Numbers,
    routeids: &'a [u16; 128],
    dests: &'a [u8; 128],
    protected: &'a [u16; 32],
    faultids: &'a [u16; 32],
    responses: &'a [u16; 32],
    latching: &'a [u8; 32],
    argcounts: &'a [u8; 32],
    args: &'a [u8; 512],
    standing: SavedStanding,
    states: &mut [u8; 32],
    fault: u16,
    out: &mut [u8],
) -> Handed
    ensures { FaultCalls
        (config_from numbers routeids.now dests.now protected.now faultids.now
        responses.now latching.now argcounts.now args.now)
        (saved_from standing states.old) fault out.old result states.new out.new }
{
    if 1 < standing.armed {
        return types::step_refused(standing);
    }
    let config = lent(
        numbers, routeids, dests, protected, faultids, responses, latching, argcounts, args,
    );
    step_any_fault::lent_fault(&config, standing.into(), states, fault, out).into()
}

// A piece of a recording behind a state.
#[unsafe(no_mangle)]
pub extern "C" fn tz_lent_resume<'a>(
    numbers: Numbers,
    routeids: &'a [u16; 128],
    dests: &'a [u8; 128],
    protected: &'a [u16; 32],
    faultids: &'a [u16; 32],
    responses: &'a [u16; 32],
    latching: &'a [u8; 32],
    argcounts: &'a [u8; 32],
    args: &'a [u8; 512],
    standing: SavedStanding,
    states: &mut [u8; 32],
    recording: &[u8],
    out: &mut [u8],
) -> Portion
    ensures { ResumeCalls
        (config_from numbers routeids.now dests.now protected.now faultids.now
        responses.now latching.now argcounts.now args.now)
        (saved_from standing states.old) recording.now out.old result states.new out.new }
{
    if 1 < standing.armed {
        return types::piece_refused(standing);
    }
    let config = lent(
        numbers, routeids, dests, protected, faultids, responses, latching, argcounts, args,
    );
    replay::replay::lent_resume(&config, standing.into(), states, recording, out).into()
}

// A whole recording under an image.
#[unsafe(no_mangle)]
pub extern "C" fn tz_replay(image: &[u8], recording: &[u8], out: &mut [u8]) -> Replayed
    ensures told { result ≡ replay_of image.now recording.now (length out.old) }
    ensures output { out.new
        ≡ over (replay_bytes image.now recording.now (length out.old)) out.old }
{
    replay::replay::replay(image, recording, out)
}
