// Where a row stands in its table: one search for every column of ids. Ids rise, so it goes in hops, each half as long as the
// one before, to the first id that is not below the wanted one; of 128 rows it looks at 8 at most, whatever the id. `looks` of
// specs/Search says at which; that the machine code loads these is measured, no contract speaks of it. `search` answers for any
// column, in its own words; that ids rise is asked where the answer is to be the id's place. It goes down from the count: of a
// search that goes up from the first row the first look is at a place that the compiler knows, and it was made whether or not the
// table reached so far. It is no `binary_search` of the library, since at which rows it looks is proved, and README says it.
#![tactic(auto)]

ghost use Rattle.std.specs.Prelude.{◌≡◌, ℕ, ◌≤◌, length, take};
ghost use Rattle.state.specs.Rules.{member};
ghost use Rattle.state.specs.Lookup.{Placed, Column};
ghost use Rattle.state_lookup.specs.Search.{half, sought};

// The search, down from behind the last id with hops of `first`, half of it, and so on to 1. The id to which the last hop
// taken led is kept, so that nothing is looked at twice; where no hop was taken the place is n, whether 0 is wanted or not.
fn search(ids: &[u16], n: usize, first: usize, id: u16) -> usize
    requires { n ≤ length ids.now }
    ensures { (e : ℕ) → first ≡ half e → result ≡ sought e id (take n ids.now) }
{
    let mut at = n;
    let mut next: u16 = 0;
    let mut step = first;
    while step > 0 {
        if at < step {
            step = step / 2;
        } else {
            let x = ids[at - step];
            if x < id {
                step = step / 2;
            } else {
                at = at - step;
                next = x;
                step = step / 2;
            }
        }
    }
    if next != id {
        return n;
    }
    at
}

// The longest hop in a column of routes, and in one of protected ids or fault ids: as long as the column. It is handed in, and
// not written into the two functions below, since a search whose hops are known is written out by the compiler and is then too
// long to be put where it is called.
pub const ROUTES: usize = 128;

pub const ROWS: usize = 32;

// The place of an id among the first n of a column, if it is there.
// internal: for the path's own stages, whose tables keep their rules.
pub fn place(ids: &[u16], n: usize, first: usize, id: u16) -> Option<usize>
    requires { Column first ids.now n }
    ensures { (e : ℕ) → first ≡ half e → Placed id ids.now n result }
{
    let k = search(ids, n, first, id);
    if k < n { Some(k) } else { None }
}

// The id is one of the first n of a column.
// internal: for the packet step, and for the loader and the judge of a state, which ask it of routes that rise.
pub fn holds(ids: &[u16], n: usize, first: usize, id: u16) -> bool
    requires { Column first ids.now n }
    ensures { (e : ℕ) → first ≡ half e → result ≡ member id (take n ids.now) }
{
    search(ids, n, first, id) < n
}
