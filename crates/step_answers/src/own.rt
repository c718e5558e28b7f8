// The path's own commands: which one an id selects, the arguments that it takes, and the fault id in them.
ghost use Rattle.std.specs.Prelude.{◌≡◌};
ghost use Rattle.step_answers.specs.Own.{own_command, selection_of, fault_arg};

// The eight own commands.
#[derive(Clone, Copy)]
pub enum Own {
    Arm,
    ResetCounters,
    NoOp,
    NoOpWithArgument,
    Enable,
    Disable,
    Clear,
    ClearAll,
}

// What an id selects, if it is an own id: the command, and the argument bytes that it takes. The id less own base says which,
// 0 to 7.
pub fn selected(base: u16, id: u16) -> Option<(Own, usize)>
    ensures { result ≡ selection_of (own_command base id) }
{
    match id.checked_sub(base)? {
        // the timeout
        0 => Some((Own::Arm, 1)),
        1 => Some((Own::ResetCounters, 0)),
        2 => Some((Own::NoOp, 0)),
        3 => Some((Own::NoOpWithArgument, 4)),
        // the fault id
        4 => Some((Own::Enable, 2)),
        5 => Some((Own::Disable, 2)),
        6 => Some((Own::Clear, 2)),
        7 => Some((Own::ClearAll, 0)),
        _ => None,
    }
}

// The fault id in the arguments, big-endian as all of a packet.
pub fn fault_arg(args: &[u8]) -> u16
    ensures { result ≡ fault_arg args.now }
{
    wire::word::big(wire::word::byte_at(args, 0), wire::word::byte_at(args, 1))
}
