// A configuration that is lent.
ghost use Rattle.state.specs.Lengths.{Lengths};

use crate::types::Numbers;

// A configuration that is lent: its numbers by value, and each column where it stands, so that no step copies a table. C lends
// columns of its own, and they need not lie side by side; a `Config` is lent by `lent`.
#[derive(Clone, Copy)]
pub struct LentConfig<'a> {
    pub numbers: Numbers,
    pub routeids: &'a [u16; 128],
    pub dests: &'a [u8; 128],
    pub protected: &'a [u16; 32],
    pub faultids: &'a [u16; 32],
    pub responses: &'a [u16; 32],
    pub latching: &'a [u8; 32],
    pub argcounts: &'a [u8; 32],
    pub args: &'a [u8; 512],
    ghost lengths: { Lengths routeids.now dests.now protected.now faultids.now responses.now latching.now argcounts.now args.now },
}
