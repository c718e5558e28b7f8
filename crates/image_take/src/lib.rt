// Taking a record, one function for each kind of rows: it checks the record and stores it behind those before it, in a
// configuration that is lent, and their start states beside it. The numbers behind a record that was taken are those of
// `numbers_behind`.
#![tactic(auto)]

ghost use Rattle.std.specs.Prelude.{◌≡◌, ◌≤◌, List, ℕ, IfErr};
ghost use Rattle.image_rules.specs.Kinds.{one, last_of_kinds, kind_of};
ghost use Rattle.image_rules.specs.Refusals.{told};
ghost use Rattle.image_take.specs.Stored.{numbers_behind, Countable};
ghost use Rattle.image_take.specs.Taking.{Ready, Takes};

use image_rules::record;
use image_rules::refusal::BadImage;
use state::types::{Config, Numbers};

// Makes the numbers of the configuration those behind a record: a row more, or what a single record sets.
// internal: for who has stored the record.
pub fn numbers_behind(numbers: &mut Numbers, kind: u16, body: &[u8])
    requires { Countable body.now kind numbers.old }
    ensures { numbers.new ≡ numbers_behind kind body.now numbers.old }
{
    match kind {
        2 => numbers.nroutes += 1,
        3 => numbers.nprotected += 1,
        4 => numbers.nrows += 1,
        _ => numbers.settings = image_check::settings_with(numbers.settings, kind, body),
    }
}

// Kind 2: a route behind the others.
fn take_route(last: u16, body: &[u8], config: &mut Config) -> Result<(), BadImage>
    requires { Ready last (λ c. config.old) (λ s. s) }
    ensures takes { (states : List ℕ) → Takes last 2 body.now config.old states (told result) config.new states }
    ensures refused { IfErr result (λ refusal. config.new ≡ config.old) }
{
    image_check::route_refusal(last, body, config)?;
    let n = config.numbers.nroutes;
    config.routeids[n] = record::word_at(body, 0);
    config.dests[n] = body[2];
    numbers_behind(&mut config.numbers, 2, body);
    Ok(())
}

// Kind 3: a protected id behind the others.
fn take_protected(last: u16, body: &[u8], config: &mut Config) -> Result<(), BadImage>
    requires { Ready last (λ c. config.old) (λ s. s) }
    ensures takes { (states : List ℕ) → Takes last 3 body.now config.old states (told result) config.new states }
    ensures refused { IfErr result (λ refusal. config.new ≡ config.old) }
{
    image_check::protected_refusal(last, body, config)?;
    let m = config.numbers.nprotected;
    config.protected[m] = record::word_at(body, 0);
    numbers_behind(&mut config.numbers, 3, body);
    Ok(())
}

// Kind 4: a fault row behind the others, and its start state.
fn take_row(
    last: u16,
    body: &[u8],
    config: &mut Config,
    states: &mut [u8; 32],
) -> Result<(), BadImage>
    requires { Ready last (λ c. config.old) (λ s. states.old) }
    ensures takes { Takes last 4 body.now config.old states.old (told result) config.new states.new }
    ensures refused { IfErr result (λ refusal. (config.new ≡ config.old) × (states.new ≡ states.old)) }
{
    image_check::fault_row_refusal(last, body, config)?;
    let k = config.numbers.nrows;
    config.faultids[k] = record::word_at(body, 0);
    config.responses[k] = record::word_at(body, 2);
    states[k] = body[4];
    config.latching[k] = body[5];
    config.argcounts[k] = body[6];
    wire_blocks::run(&mut config.args, k * 16, &body[7..]);
    numbers_behind(&mut config.numbers, 4, body);
    Ok(())
}

// A record of a single kind with bodies of this size: what it sets stands in the numbers.
fn take_one(
    last: u16,
    kind: u16,
    size: usize,
    body: &[u8],
    config: &mut Config,
) -> Result<(), BadImage>
    requires known { (1 ≤ kind) × (kind ≤ last_of_kinds) × (kind_of kind ≡ one size) }
    requires ready { Ready last (λ c. config.old) (λ s. s) }
    ensures takes { (states : List ℕ) → Takes last kind body.now config.old states (told result) config.new states }
    ensures refused { IfErr result (λ refusal. config.new ≡ config.old) }
{
    image_check::one_refusal(last, kind, size, body, config.numbers.settings)?;
    numbers_behind(&mut config.numbers, kind, body);
    Ok(())
}

// A record by its kind, which goes by its number as the table of kinds has it (see `image_check`). Rows come first since there
// are many.
// internal: for the loader, whose configuration holds the good records before it.
pub fn take_record(
    last: u16,
    kind: u16,
    body: &[u8],
    config: &mut Config,
    states: &mut [u8; 32],
) -> Result<(), BadImage>
    requires { Ready last (λ c. config.old) (λ s. states.old) }
    ensures takes { Takes last kind body.now config.old states.old (told result) config.new states.new }
    ensures refused { IfErr result (λ refusal. (config.new ≡ config.old) × (states.new ≡ states.old)) }
{
    match kind {
        2 => take_route(last, body, config),
        3 => take_protected(last, body, config),
        4 => take_row(last, body, config, states),
        1 => take_one(last, 1, 6, body, config),
        _ => Err(BadImage::UnknownKind),
    }
}
