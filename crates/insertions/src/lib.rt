// The insertion cache (relocate.rs, `least_insertion`, `argmin`, `after_removal`, `after_insertion`): what it costs at least to insert a visit into a list,
// and the first place where it costs that. It doesn't depend on where the visit is now, so it stays right until the list itself changes, and then all
// places but those at the change stay what they were.
//
// Two tables hold it, 1,024 figures and 1,024 places, at 16 times the visit plus the list; a figure that is not finite says nothing.

#![tactic(auto)]

ghost use Rattle.std.specs.Prelude.{◌≡◌, ℕ, ◌+◌, ◌≤◌, ◌<◌, T, length, replicate};
ghost use Rattle.numbers.specs.Operations.{zero64};
ghost use Rattle.std.specs.Float.{nan};
ghost use Rattle.std.specs.Float.Ieee.Scale.{finite};
ghost use Rattle.day.specs.Legs.{leg_of};
ghost use Rattle.deltas.specs.Deltas.{Listed, insertion_delta};
ghost use Rattle.insertions.specs.Cache.{lesser, forgotten, first_of, vanished, moved_down, moved_up, least_left, least_came};
ghost use Rattle.insertions.specs.Cache.{known_at, Noted, Updated};

use day::matrix::Matrix;
use deltas_across::insertion_delta;
use numbers::{is_finite, unknown};

// A least insertion, and the first place that reaches it. No Option where it isn't known: a cell would be 24 bytes in place of 10.
#[derive(Clone, Copy)]
pub struct Least {
    pub figure: f64,
    pub place: u16,
}

// The least so far, or one place more where that costs less.
pub fn lesser_of(least: Least, cost: f64, place: u16) -> Least
    ensures { result ≡ lesser least cost place }
{
    if cost < least.figure {
        return Least {
            figure: cost,
            place,
        };
    }
    least
}

// The lesser of what is known and a new leg, and of equal ones the one that stands first.
fn first_of(known: Least, new: Least) -> Least
    ensures { result ≡ first_of known new }
{
    if new.place < known.place {
        if new.figure <= known.figure {
            return new;
        }
        return known;
    }
    if new.figure < known.figure {
        return new;
    }
    known
}

// What is known no more.
fn forget(known: Least) -> Least
    ensures { result ≡ forgotten known }
{
    Least {
        figure: unknown(),
        place: known.place,
    }
}

// Whether a place vanishes with the visit at `position`.
fn is_vanished(place: u16, position: u16) -> bool
    requires { position < 65535 }
    ensures { result ≡ vanished place position }
{
    place == position || place == position + 1
}

// Where a place stands once the visit at `position` has left.
fn moved_down(place: u16, position: u16) -> u16
    ensures { result ≡ moved_down place position }
{
    place - u16::from(position < place)
}

// Where it stands once a visit has come in at `position`.
fn moved_up(place: u16, position: u16) -> u16
    requires { place < 65535 }
    ensures { result ≡ moved_up place position }
{
    place + u16::from(position < place)
}

// ---- one visit

// What is known of a visit after the one at `position` left the list: the leg that closed there is tried.
fn least_left(
    known: Least,
    position: u16,
    matrix: &Matrix,
    depot: usize,
    fixed: f64,
    list: &[u16],
    visit: usize,
) -> Least
    requires listed { Listed matrix.now.size depot list.now × (visit < matrix.now.size) }
    requires position_in_bounds { (position ≤ length list.now) × (position < 65535) }
    ensures { result ≡ least_left known position (insertion_delta (leg_of matrix.now) depot fixed list.now visit position) }
{
    if !is_finite(known.figure) {
        return known;
    }
    if is_vanished(known.place, position) {
        return forget(known);
    }
    let figure = insertion_delta(matrix, depot, fixed, list, visit, usize::from(position));
    let kept = Least {
        figure: known.figure,
        place: moved_down(known.place, position),
    };
    first_of(
        kept,
        Least {
            figure,
            place: position,
        },
    )
}

// What is known of a visit after one came in at `position`: the two legs that opened there are tried.
fn least_came(
    known: Least,
    position: u16,
    matrix: &Matrix,
    depot: usize,
    fixed: f64,
    list: &[u16],
    visit: usize,
) -> Least
    requires listed { Listed matrix.now.size depot list.now × (visit < matrix.now.size) }
    requires position_in_bounds { (position < length list.now) × (position < 65535) × (T (finite known.figure) → known.place < 65535) }
    ensures { let cost = insertion_delta (leg_of matrix.now) depot fixed list.now visit
        in result ≡ least_came known position (cost position) (cost (position + 1)) }
{
    if !is_finite(known.figure) {
        return known;
    }
    if known.place == position {
        return forget(known);
    }
    let at = usize::from(position);
    let before = insertion_delta(matrix, depot, fixed, list, visit, at);
    let behind = insertion_delta(matrix, depot, fixed, list, visit, at + 1);
    let kept = Least {
        figure: known.figure,
        place: moved_up(known.place, position),
    };
    let one = first_of(
        kept,
        Least {
            figure: before,
            place: position,
        },
    );
    first_of(
        one,
        Least {
            figure: behind,
            place: position + 1,
        },
    )
}

// ---- the cache

// What is known of every visit and list.
#[derive(Drop)]
pub struct Insertions {
    figures: [f64; 1024],
    places: [u16; 1024],
}

impl Insertions {
    // Nothing is known yet.
    pub fn new() -> Insertions
        ensures { (visit list : ℕ) → (known_at result visit list).figure ≡ nan }
    {
        let mut cache = Insertions::zeros();
        cache.forget_all();
        cache
    }

    // Tables of zeros, in which `forget_all` comes before anything is read. In two steps where the tables are large for the stack: made by value, a table of
    // NaN, which is no row of equal bytes, is copied on its way to the caller.
    pub fn zeros() -> Insertions
        ensures { (result.figures ≡ replicate 1024 zero64) × (result.places ≡ replicate 1024 0) }
    {
        Insertions {
            figures: [0.0; 1024],
            places: [0; 1024],
        }
    }

    // Forgets what is known.
    pub fn forget_all(&mut self)
        requires { length self.old.figures ≡ 1024 }
        ensures { (visit list : ℕ) → (known_at self.new visit list).figure ≡ nan }
    {
        for i in 0..1024 {
            self.figures[i] = unknown();
        }
    }

    // What is known of a visit and list `r`.
    pub fn known(&self, visit: usize, r: usize) -> Least
        requires { (visit < 64) × (r < 16) }
        ensures { result ≡ known_at self.now visit r }
    {
        let cell = 16 * visit + r;
        Least {
            figure: self.figures[cell],
            place: self.places[cell],
        }
    }

    // Notes what is known of them.
    pub fn note(&mut self, visit: usize, r: usize, least: Least)
        requires { (visit < 64) × (r < 16) }
        ensures { Noted visit r least self.old self.new }
    {
        let cell = 16 * visit + r;
        self.figures[cell] = least.figure;
        self.places[cell] = least.place;
    }

    // Forgets what is known of them.
    pub fn forget(&mut self, visit: usize, r: usize)
        requires { (visit < 64) × (r < 16) }
        ensures { Noted visit r (forgotten (known_at self.old visit r)) self.old self.new }
    {
        self.figures[16 * visit + r] = unknown();
    }

    // Brings what is known of list `r` up to date, for each of n visits by a change.
    fn update<F: Fn(usize, Least) -> Least>(&mut self, n: usize, r: usize, change: F)
        requires few { (n ≤ 64) × (r < 16) }
        requires allowed { (v : ℕ) → v < n → F.pre change v (known_at self.old v r) }
        ensures { Updated (λ v known after. F.post change v known after) r n self.old self.new }
    {
        for visit in 0..n {
            let least = change(visit, self.known(visit, r));
            self.note(visit, r, least);
        }
    }

    // What is known of list `r`, which is now `list`, after the visit at `position` left it.
    pub fn after_removal(
        &mut self,
        matrix: &Matrix,
        depot: usize,
        fixed: f64,
        list: &[u16],
        r: usize,
        position: u16,
    )
        requires listed { Listed matrix.now.size depot list.now }
        requires r_bound { (r < 16) × (position ≤ length list.now) × (position < 65535) }
        ensures { let cost = insertion_delta (leg_of matrix.now) depot fixed list.now
            in Updated (λ v known after. after ≡ least_left known position (cost v position)) r matrix.now.size self.old self.new }
    {
        self.update(matrix.size, r, |visit, known| {
            least_left(known, position, matrix, depot, fixed, list, visit)
        });
    }

    // The same after one came in at `position`.
    pub fn after_insertion(
        &mut self,
        matrix: &Matrix,
        depot: usize,
        fixed: f64,
        list: &[u16],
        r: usize,
        position: u16,
    )
        requires listed { Listed matrix.now.size depot list.now }
        requires r_bound { (r < 16) × (position < length list.now) × (position < 65535) }
        requires by_index { (v : ℕ) → v < matrix.now.size → T (finite (known_at self.old v r).figure) → (known_at self.old v r).place < 65535 }
        ensures { let cost = insertion_delta (leg_of matrix.now) depot fixed list.now
            in Updated (λ v known after. after ≡ least_came known position (cost v position) (cost v (position + 1))) r matrix.now.size self.old self.new }
    {
        self.update(matrix.size, r, |visit, known| {
            least_came(known, position, matrix, depot, fixed, list, visit)
        });
    }
}
