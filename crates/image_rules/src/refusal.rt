// What refuses a configuration image: document 01's table, by its numbers.
ghost use Rattle.std.specs.Prelude.{◌≡◌};
ghost use Rattle.image_rules.specs.Refusals.{number_of};

// Of a record but for `EmptyImage`. A record is asked in the order of the numbers, and the first that fits is told.
#[derive(Clone, Copy, PartialEq, Eq)]
pub enum BadImage {
    // header or body passes the end of the image
    CutShort = 1,
    // kind not 1 to 4
    UnknownKind = 2,
    // body length wrong for the kind, or n above 16
    WrongLength = 3,
    // first record not kind 1, a second kind 1, a kind that falls, an id not above the one before
    OutOfOrder = 4,
    // no record at all
    EmptyImage = 5,
    // one row more than the limit
    NoRoom = 6,
    // any other rule of a kind
    BrokenRule = 7,
}

// Its number.
impl From<BadImage> for u8 {
    ghost from_gives = { λ refusal n. n ≡ number_of refusal };

    fn from(refusal: BadImage) -> u8 {
        refusal as u8
    }
}
