// The best move of every ordered pair of lists, kept in a table, for both relocate engines: ports `pairs`, `best` and `moved` of `Relocations` in
// local_search/relocate.rs. A move changes two lists, so that only the pairs with one of them in it are searched again; the least entry, by (delta, from
// list, position, to list, place), is the move that a scan of all relocations takes, since the scan goes in that order of the four numbers.

#![tactic(auto)]

ghost use Rattle.std.specs.Prelude.{◌≡◌, ◌≤◌, ◌<◌};
ghost use Rattle.pairs.specs.Pairs.{earlier, as_move, ahead, first_of, first_among};
ghost use Rattle.pairs.specs.Pairs.{nothing, Sized, entry, narrowed, put, row_from, least_entry};

// The best move so far with its delta; while none is found, minus the floor. `found` is 1 or 0 in a whole word: a bool would leave padding that every copy
// in a loop moves.
#[derive(Clone, Copy)]
pub struct Choice {
    pub found: usize,
    pub from: usize,
    pub position: usize,
    pub to: usize,
    pub place: usize,
    pub delta: f64,
}

impl Choice {
    // No move yet: one counts whose delta is below the bound.
    pub fn none_below(bound: f64) -> Choice
        ensures { result ≡ nothing bound }
    {
        Choice {
            found: 0,
            from: 0,
            position: 0,
            to: 0,
            place: 0,
            delta: bound,
        }
    }
}

// ---- the order

// By from list, position, to list and place.
#[tactic(auto, unfolding(crate::specs::Pairs::in_order, crate::specs::Pairs::earlier))]
fn is_earlier(choice: Choice, best: Choice) -> bool
    ensures { result ≡ earlier (as_move choice) (as_move best) }
{
    let one = (choice.from, choice.position, choice.to, choice.place);
    let other = (best.from, best.position, best.to, best.place);
    one < other
}

// A choice that is found and stands before the best so far: the delta, then the rest.
#[tactic(auto, unfolding(crate::specs::Pairs::less_then, crate::specs::Pairs::ahead))]
fn is_ahead(choice: Choice, best: Choice) -> bool
    ensures { result ≡ ahead choice best }
{
    choice.found != 0
        && (choice.delta < best.delta || (choice.delta == best.delta && is_earlier(choice, best)))
}

// The first of the two.
#[tactic(auto, unfolding(crate::specs::Pairs::first_of))]
fn first_of(best: Choice, choice: Choice) -> Choice
    ensures { result ≡ first_of best choice }
{
    if is_ahead(choice, best) {
        return choice;
    }
    best
}

// ---- the table

// A number as it is stored: 0 where it isn't a u16.
fn narrow(k: usize) -> u16
    ensures { result ≡ narrowed k }
{
    u16::try_from(k).unwrap_or(0)
}

// Of each pair of lists its best move: the delta, minus the floor where it has none, the visit's position, and its place.
#[derive(Drop)]
pub struct PairTable {
    deltas: [f64; 256],
    positions: [u16; 256],
    places: [u16; 256],
}

impl PairTable {
    // No pair was searched yet.
    pub fn new() -> PairTable
        ensures { Sized result }
    {
        PairTable {
            deltas: [0.0; 256],
            positions: [0; 256],
            places: [0; 256],
        }
    }

    // What the table says of a pair.
    pub fn entry(&self, bound: f64, from: usize, to: usize) -> Choice
        requires { (from < 16) × (to < 16) }
        ensures { result ≡ entry bound self.now from to }
    {
        let slot = 16 * from + to;
        let delta = self.deltas[slot];
        Choice {
            found: usize::from(delta < bound),
            from,
            position: usize::from(self.positions[slot]),
            to,
            place: usize::from(self.places[slot]),
            delta,
        }
    }

    // Puts a pair's best in.
    pub fn put(&mut self, from: usize, to: usize, choice: Choice)
        requires { (from < 16) × (to < 16) }
        ensures { self.new ≡ put self.old from to choice }
    {
        let slot = 16 * from + to;
        let position = narrow(choice.position);
        let place = narrow(choice.place);
        self.deltas[slot] = choice.delta;
        self.positions[slot] = position;
        self.places[slot] = place;
    }

    // The first of the best so far and a row of n pairs.
    fn best_of_row(&self, n: usize, bound: f64, from: usize, best: Choice) -> Choice
        requires { (n ≤ 16) × (from < 16) }
        ensures { result ≡ first_among (row_from n bound self.now from 0) best }
    {
        let mut first = best;
        for to in 0..n {
            first = first_of(first, self.entry(bound, from, to));
        }
        first
    }

    // The move to make between n lists: the first of all entries, or none.
    pub fn best(&self, n: usize, bound: f64) -> Choice
        requires { n ≤ 16 }
        ensures { result ≡ least_entry n bound self.now }
    {
        let mut best = Choice::none_below(bound);
        for from in 0..n {
            best = self.best_of_row(n, bound, from, best);
        }
        best
    }
}
