// The arm record. What an accepted packet and a tick make of it is worked out by value (`set_by`, `tick_by`); the record that is
// kept changes in `on_packet` and `on_tick` only, to which it is lent. `packet_of` and `tick_of` lend a record that was passed by
// value, so that whoever calls them lends no struct. Answers go by their numbers, as document 01 has them and C reads them.
#![tactic(auto)]

ghost use Rattle.std.specs.Prelude.{◌≡◌};
ghost use Rattle.step_arm.specs.Arming.{arm_set, arm_after, ticked_by};

use state::types::Arm;

// What a tick makes of the record, and its answer: 15 where the tick ends the armed state, else 14.
#[derive(Clone, Copy)]
pub struct Ticked {
    pub arm: Arm,
    pub answer: u8,
}

// After an accepted packet with the answer n: armed for the ticks by an arm that was taken, else unarmed.
#[tactic(auto, unfolding(crate::specs::Arming::arm_set))]
fn set_by(n: u8, ticks: u16) -> Arm
    ensures { result ≡ arm_set n ticks }
{
    if n == 11 {
        Arm { armed: true, ticks }
    } else {
        Arm {
            armed: false,
            ticks: 0,
        }
    }
}

// After a tick: unarmed and a timeout of 0 stay as they are, the last tick unarms, any other takes one.
#[tactic(auto, unfolding(crate::specs::Arming::ticked, crate::specs::Arming::tick_answer))]
fn tick_by(arm: Arm) -> Ticked
    ensures { result ≡ ticked_by arm }
{
    match (arm.armed, arm.ticks) {
        (false, _) | (true, 0) => Ticked { arm, answer: 14 },
        (true, 1) => Ticked {
            arm: Arm {
                armed: false,
                ticks: 0,
            },
            answer: 15,
        },
        (true, ticks) => Ticked {
            arm: Arm {
                armed: true,
                ticks: ticks - 1,
            },
            answer: 14,
        },
    }
}

// An accepted packet with the answer n, where the record stands.
pub fn on_packet(arm: &mut Arm, n: u8, ticks: u16)
    ensures { arm.new ≡ arm_set n ticks }
{
    *arm = set_by(n, ticks);
}

// A tick, where the record stands: its answer.
pub fn on_tick(arm: &mut Arm) -> u8
    ensures { (arm.new ≡ (ticked_by arm.old).arm) × (result ≡ (ticked_by arm.old).answer) }
{
    let t = tick_by(*arm);
    *arm = t.arm;
    t.answer
}

// `on_packet` for a record by value.
pub fn packet_of(arm: Arm, n: u8, ticks: u16) -> Arm
    ensures { result ≡ arm_set n ticks }
{
    let mut lent = arm;
    on_packet(&mut lent, n, ticks);
    lent
}

// `on_tick` for a record by value.
pub fn tick_of(arm: Arm) -> Ticked
    ensures { result ≡ ticked_by arm }
{
    let mut lent = arm;
    let n = on_tick(&mut lent);
    Ticked {
        arm: lent,
        answer: n,
    }
}

// After an accepted packet with the answer n and these argument bytes: the first of them is the timeout.
#[tactic(auto, unfolding(crate::specs::Arming::arm_after))]
pub fn after_packet(arm: Arm, n: u8, args: &[u8]) -> Arm
    ensures { result ≡ arm_after n args.now }
{
    let timeout = wire::word::byte_at(args, 0) as u16;
    packet_of(arm, n, timeout)
}
