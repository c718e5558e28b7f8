// The dispatch writer: the bytes of a command at the start of the output. The output is the caller's slice, so that it has the room is
// asked in each contract on the way here and is no invariant of a type.
ghost use Rattle.std.specs.Prelude.{◌≤◌, length};
ghost use Rattle.step_effects.specs.Dispatch.{step_room, Wrote};

use wire::word::{high, low};

// The room that a packet or a fault asks for: the longest command has 255 arguments.
pub const STEP_ROOM: usize = 260;

// Source, command id, argument count, arguments; returns the bytes written.
// internal: for the steps, which have seen that there is room.
pub fn write(out: &mut [u8], source: u16, id: u16, args: &[u8]) -> u16
    requires { (step_room ≤ length out.old) × (length args.now ≤ 255) }
    ensures { Wrote source id args.now out.old result out.new }
{
    let head = [
        high(source),
        low(source),
        high(id),
        low(id),
        args.len() as u8,
    ];
    wire::put::bytes(out, 0, &head);
    wire_blocks::run(out, 5, args);
    5 + args.len() as u16
}
