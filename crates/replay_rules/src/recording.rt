// The records of a recording, and the numbers of a reply in bytes.
ghost use Rattle.std.specs.Prelude.{◌≡◌, ◌+◌, ◌≤◌, length};
ghost use Rattle.wire.specs.Put.{put_at};
ghost use Rattle.replay_rules.specs.Recording.{number_of, told, kind_refusal, EventOf, head_size, head_bytes};

use image_rules::record;
use step_rules::types::Answer;
use wire::word::{high, low};

// Why a reading stops before its end. These numbers mean nothing else.
#[derive(Clone, Copy, PartialEq, Eq)]
pub enum Stop {
    // a record's header or body passes the end of the recording
    CutShort = 60,
    OtherKind = 61,
    WrongLength = 62,
    // less than `EVENT_ROOM` bytes of the output are left
    OutputFull = 63,
}

// Its number.
impl From<Stop> for u8 {
    ghost from_gives = { λ stop n. n ≡ number_of stop };

    fn from(stop: Stop) -> u8 {
        stop as u8
    }
}

// Of two of them by their numbers, for who reads `stop` of a piece.
pub const CUT_SHORT: u8 = Stop::CutShort as u8;

pub const OUTPUT_FULL: u8 = Stop::OutputFull as u8;

// The bytes of a reply's numbers, and the room that an event asks for: these, and the longest command.
pub const HEAD_SIZE: usize = 6;

pub const EVENT_ROOM: usize = HEAD_SIZE + step_effects::dispatch::STEP_ROOM;

// What is wrong with a whole record: its kind, or the length of its body. 16 is a packet, 17 a tick, 18 a fault.
#[tactic(auto, unfolding(crate::specs::Recording::kind_refusal))]
pub fn refusal(kind: u16, size: usize) -> Result<(), Stop>
    ensures { told result ≡ kind_refusal kind size }
{
    match (kind, size) {
        (16, _) | (17, 0) | (18, 2) => Ok(()),
        (17 | 18, _) => Err(Stop::WrongLength),
        _ => Err(Stop::OtherKind),
    }
}

// The event of a record; a packet is lent where it stands.
#[derive(Clone, Copy)]
pub enum LentEvent<'a> {
    Packet(&'a [u8]),
    Tick,
    Fault(u16),
}

// The event of a whole record, or what is wrong with the record.
pub fn event<'a>(kind: u16, body: &'a [u8]) -> Result<LentEvent<'a>, Stop>
    ensures { EventOf kind body.now result }
{
    refusal(kind, body.len())?;
    match kind {
        16 => Ok(LentEvent::Packet(body)),
        17 => Ok(LentEvent::Tick),
        _ => Ok(LentEvent::Fault(record::word_at(body, 0))),
    }
}

// Puts the four numbers of an answer before the place of its command; the place behind that command.
// internal: for the replay, which has seen that there is room.
pub fn put_numbers(out: &mut [u8], at: usize, a: Answer) -> usize
    requires { at + head_size ≤ length out.old }
    ensures end { result ≡ at + head_size + a.written }
    ensures output { out.new ≡ put_at out.old at (head_bytes a.answer a.id a.dest a.written) }
{
    let head = [
        a.answer,
        low(a.id),
        high(a.id),
        a.dest,
        low(a.written),
        high(a.written),
    ];
    wire::put::bytes(out, at, &head);
    at + HEAD_SIZE + a.written as usize
}
