// What the state is made of. The tables stand in arrays of numbers, one array for each column, because that is what a step
// looks through fastest; rows that are not in use are zero. A run is made here and nowhere else, and so is a standing, but for
// one that is taken in across the C boundary.
ghost use Rattle.std.specs.Prelude.{◌≡◌};
ghost use Rattle.state.specs.Settings.{no_settings};
ghost use Rattle.state.specs.Tables.{no_counts, with_arm, with_counts, run_from, first_run, config_of_lent};

pub use crate::lent::LentConfig;

// What the single records of an image set: the sources and own base.
#[repr(C)]
#[derive(Clone, Copy)]
pub struct Settings {
    pub ground_source: u16,
    pub fault: u16,
    pub base: u16,
}

// The numbers of a configuration: its settings, and the rows in use of each table. They go by value, beside lent columns.
#[repr(C)]
#[derive(Clone, Copy)]
pub struct Numbers {
    pub settings: Settings,
    pub nroutes: usize,
    pub nprotected: usize,
    pub nrows: usize,
}

// The configuration: its numbers, and the columns of the three tables. A step is lent the columns that it looks at, and copies
// none.
#[repr(C)]
#[derive(Clone, Copy)]
pub struct Config {
    pub numbers: Numbers,
    pub routeids: [u16; 128],
    pub dests: [u8; 128],
    pub protected: [u16; 32],
    pub faultids: [u16; 32],
    pub responses: [u16; 32],
    pub latching: [u8; 32],
    pub argcounts: [u8; 32],
    // the argument bytes of row k stand from place 16 k on
    pub args: [u8; 512],
}

impl Config {
    // All of it, lent.
    pub fn lent(&self) -> LentConfig<'_>
        ensures { config_of_lent result ≡ self.now }
    {
        LentConfig {
            numbers: self.numbers,
            routeids: &self.routeids,
            dests: &self.dests,
            protected: &self.protected,
            faultids: &self.faultids,
            responses: &self.responses,
            latching: &self.latching,
            argcounts: &self.argcounts,
            args: &self.args,
        }
    }
}

// The small arm record: armed or not, and the ticks that remain. No Option of the ticks, since document 01 names these two fields
// and C keeps them.
#[repr(C)]
#[derive(Clone, Copy)]
pub struct Arm {
    pub armed: bool,
    pub ticks: u16,
}

// The seven counters, in the paper's order: accepted, rejected, dispatched, protected, unknown, invalid, faults.
#[repr(C)]
#[derive(Clone, Copy)]
pub struct Counts {
    pub a: u16,
    pub r: u16,
    pub d: u16,
    pub p: u16,
    pub u: u16,
    pub i: u16,
    pub f: u16,
}

// What steps change beside the fault states. It goes by value, and most functions hand it on as it came.
#[repr(C)]
#[derive(Clone, Copy)]
pub struct Standing {
    pub arm: Arm,
    pub counts: Counts,
}

// What steps change. A fault state is 0 disabled, 1 enabled, 2 latched.
#[repr(C)]
#[derive(Clone, Copy)]
pub struct Run {
    pub standing: Standing,
    pub states: [u8; 32],
}

// All zero, as in the state that a refused load hands back.
pub fn no_settings() -> Settings
    ensures { result ≡ no_settings }
{
    Settings {
        ground_source: 0,
        fault: 0,
        base: 0,
    }
}

// All seven counters at zero.
pub fn no_counts() -> Counts
    ensures { result ≡ no_counts }
{
    Counts {
        a: 0,
        r: 0,
        d: 0,
        p: 0,
        u: 0,
        i: 0,
        f: 0,
    }
}

// A standing with another arm record.
pub fn with_arm(standing: Standing, arm: Arm) -> Standing
    ensures { result ≡ with_arm arm standing }
{
    Standing { arm, ..standing }
}

// A standing with other counters.
pub fn with_counts(standing: Standing, counts: Counts) -> Standing
    ensures { result ≡ with_counts counts standing }
{
    Standing { counts, ..standing }
}

// The run of its parts.
pub fn run_of(standing: Standing, states: [u8; 32]) -> Run
    ensures { result ≡ run_from standing states }
{
    Run { standing, states }
}

// The run behind loading: unarmed, zero counters, and these fault states.
pub fn first_run(states: [u8; 32]) -> Run
    ensures { result ≡ first_run states }
{
    let unarmed = Arm {
        armed: false,
        ticks: 0,
    };
    let standing = Standing {
        arm: unarmed,
        counts: no_counts(),
    };
    run_of(standing, states)
}
