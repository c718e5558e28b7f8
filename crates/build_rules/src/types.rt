// What the builder hands back, and why it builds no packet.
ghost use Rattle.std.specs.Prelude.{◌≡◌};
ghost use Rattle.build_rules.specs.Build.{number_of};

// The builder's answer: 0 and the bytes written, or a refusal and 0. It is no `Result`, since C reads it as it stands.
#[repr(C)]
#[derive(Clone, Copy)]
pub struct Built {
    pub answer: u8,
    pub written: u16,
}

// Why no packet is built, in the order of the checks. Each has its number in the builder's table.
#[derive(Clone, Copy, PartialEq, Eq)]
pub enum Unbuildable {
    ApidTooHigh = 40,
    CountTooHigh = 41,
    TooManyArguments = 42,
    TooManyPads = 43,
    OutputTooSmall = 44,
}

// Its number.
impl From<Unbuildable> for u8 {
    ghost from_gives = { λ refusal n. n ≡ number_of refusal };

    fn from(refusal: Unbuildable) -> u8 {
        refusal as u8
    }
}
