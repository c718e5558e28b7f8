// The judge's refusals, and which answers reject a packet.
ghost use Rattle.std.specs.Prelude.{◌≡◌};
ghost use Rattle.packet_rules.specs.Rejection.{is_rejection, number_of};

// Why a packet is rejected, in the order of the checks. Each has its number in the table of answers.
#[derive(Clone, Copy, PartialEq, Eq)]
pub enum Rejection {
    TooShort = 22,
    WrongSize = 23,
    WrongVersion = 24,
    NotTelecommand = 25,
    NoSecondaryHeader = 26,
    XorNotZero = 27,
    DataTooShort = 28,
    TooManyArguments = 29,
}

// Its number.
impl From<Rejection> for u8 {
    ghost from_gives = { λ rejection n. n ≡ number_of rejection };

    fn from(rejection: Rejection) -> u8 {
        rejection as u8
    }
}

// The answer is one of the judge's refusals. It goes by its number: counters and theorems ask it of any answer.
pub fn is_rejection(n: u8) -> bool
    ensures { result ≡ is_rejection n }
{
    matches!(n, 22..=29)
}
