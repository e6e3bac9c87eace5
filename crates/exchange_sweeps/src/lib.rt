// The sweeps of tail exchange (local_search/exchange.rs), where a window is soft or none is: the pairs of lists r1 < r2 in turn, at each the exchange that
// the search takes there. The first that there is ends the search for a move; behind the last pair comes a new sweep, once. After a move the sweep goes on
// with the next pair; a sweep with no move ends the run.

#![tactic(auto)]

ghost use Rattle.std.specs.Prelude.{◌≡◌, [], List, ◌<◌, ℕ, length, IfSome};
ghost use Rattle.lists.specs.Table.{lists};
ghost use Rattle.list_changes.specs.Edits.{Edited};
ghost use Rattle.descent.specs.Search.{run};
ghost use Rattle.engine.specs.Engine.{ended_as};
ghost use Rattle.loads.specs.Loads.{Held};
ghost use Rattle.exchange_sweeps.specs.Exchange.{Rules, pair_at, moved_by, taken_at, from, place_after, InSweep, first_at, next_of, made_by, leads, Makeable};

use engine::Ended;
use tail_candidates::Cut;

// A place of a sweep: two lists by number.
#[derive(Clone, Copy)]
pub struct Place {
    pub one: usize,
    pub other: usize,
}

// An exchange at a place.
#[derive(Clone, Copy)]
pub struct Exchange {
    pub place: Place,
    pub cut: Cut,
}

// What differs between the engines: how exchanges are judged, and what is kept of the lists beside their tables.
pub trait TailSearch {
    ghost rules: { Self → Rules };

    // What is kept beside the tables is right for these lists.
    ghost Kept: { Self → List (List ℕ) → Type 0 };

    // The exchange to take at a pair of lists.
    fn best_at(&self, visits: &[u16], lengths: &[u16], place: Place) -> Option<Cut>
        requires held { Held (rules self.now).locations visits.now lengths.now
            × (place.one < place.other) × (place.other < length lengths.now) }
        requires kept { Kept self.now (lists visits.now lengths.now) }
        ensures { moved_by (pair_at place) result ≡ taken_at (rules self.now) (lists visits.now lengths.now) (pair_at place) };

    // Makes an exchange, in both tables of the lists and in what is kept beside them.
    fn make(&mut self, visits: &mut [u16], lengths: &mut [u16], exchange: Exchange)
        requires held { Held (rules self.old).locations visits.old lengths.old }
        requires makeable { Makeable visits.old lengths.old exchange }
        requires kept { Kept self.old (lists visits.old lengths.old) }
        ensures edited { Edited visits.old lengths.old visits.new lengths.new
            (made_by (lists visits.old lengths.old) exchange) }
        ensures rules { rules self.new ≡ rules self.old }
        ensures kept { Kept self.new (lists visits.new lengths.new) };
}

// The place that follows in a sweep over n lists.
#[tactic(auto, unfolding(crate::specs::Exchange::place_after))]
pub fn place_after(n: usize, place: Place) -> Place
    requires { (place.one < place.other) × (place.other < n) }
    ensures { result ≡ place_after n place }
{
    if place.other + 1 < n {
        return Place {
            one: place.one,
            other: place.other + 1,
        };
    }
    Place {
        one: place.one + 1,
        other: place.one + 2,
    }
}

// The first move from a place of the sweep on.
fn first_move<S: TailSearch>(
    search: &S,
    visits: &[u16],
    lengths: &[u16],
    start: Place,
) -> Option<Exchange>
    requires held { Held (S.rules search.now).locations visits.now lengths.now × InSweep (length lengths.now) start }
    requires kept { S.Kept search.now (lists visits.now lengths.now) }
    ensures leads { let ls = lists visits.now lengths.now in
        leads ls result ≡ first_at (S.rules search.now) ls (from (length lengths.now) start) }
    ensures makeable { IfSome result (Makeable visits.now lengths.now) }
{
    let n = lengths.len();
    let mut place = start;
    while place.other < n {
        if let Some(cut) = search.best_at(visits, lengths, place) {
            return Some(Exchange { place, cut });
        }
        place = place_after(n, place);
    }
    None
}

// The next move: the first ahead in this sweep or, where there is none, the first of a new sweep.
pub fn next_move<S: TailSearch>(
    search: &S,
    visits: &[u16],
    lengths: &[u16],
    ahead: Place,
) -> Option<Exchange>
    requires held { Held (S.rules search.now).locations visits.now lengths.now × InSweep (length lengths.now) ahead }
    requires kept { S.Kept search.now (lists visits.now lengths.now) }
    ensures leads { let ls = lists visits.now lengths.now in
        leads ls result ≡ next_of (S.rules search.now) (record { now = ls; ahead = from (length lengths.now) ahead }) }
    ensures makeable { IfSome result (Makeable visits.now lengths.now) }
{
    if let Some(exchange) = first_move(search, visits, lengths, ahead) {
        return Some(exchange);
    }
    let start = Place { one: 0, other: 1 };
    first_move(search, visits, lengths, start)
}

// Moves until none is left or the limit is used up. The run starts with nothing ahead, in front of a new sweep.
pub fn run_moves<S: TailSearch>(
    search: &mut S,
    visits: &mut [u16],
    lengths: &mut [u16],
    limit: u32,
) -> Ended
    requires held { Held (S.rules search.old).locations visits.old lengths.old }
    requires kept { S.Kept search.old (lists visits.old lengths.old) }
    ensures { let run = run (next_of (S.rules search.old)) limit (record { now = lists visits.old lengths.old; ahead = [] }) in
        Edited visits.old lengths.old visits.new lengths.new run.last.now
        × (result ≡ ended_as run.word run.moves) }
{
    let n = lengths.len();
    let mut moves = 0;
    let mut ahead = Place {
        one: n,
        other: n + 1,
    };
    while let Some(exchange) = next_move(search, visits, lengths, ahead) {
        if limit <= moves {
            return Ended::Stopped(moves);
        }
        search.make(visits, lengths, exchange);
        ahead = place_after(n, exchange.place);
        moves += 1;
    }
    Ended::Settled(moves)
}
