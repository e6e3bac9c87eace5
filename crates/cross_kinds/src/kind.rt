// The three kinds of moves between two lists, and a row of them: the moves of a kind that have one stretch of the first list, one after another along the
// second.
ghost use Rattle.std.specs.Prelude.{◌≡◌, ◌≤◌};
ghost use Rattle.cross_moves.specs.CrossDepot.{cuts};
ghost use Rattle.cross_kinds.specs.Kinds.{tested_in, move_at, stays, moves_along, row_of, turned_row, rows_in, width_of};

use cross_moves::pair::{Move, Pair};
use cross_rows::Stretch;

// A kind of move.
#[derive(Clone, Copy)]
pub enum Kind {
    // A visit of the first list goes to a place of the second.
    Relocation,
    // A visit of the first list and one of the second change places.
    Swap,
    // A tail of the first list and one of the second change places.
    Tails,
}

// A row of moves.
#[derive(Clone, Copy)]
pub struct Row {
    // The stretch of the first list, which stays.
    pub own: Stretch,
    // The stretch of the second, which moves along.
    pub others: Stretch,
    pub count: usize,
    // How many of the moves make different lists of the first.
    pub distinct: usize,
}

// Rows of a kind one behind another, from row `first` on, each with `width` entries in the tables.
#[derive(Clone, Copy)]
pub struct Rows {
    pub kind: Kind,
    pub first: usize,
    pub width: usize,
    pub count: usize,
}

// How many cuts of the second list go with the cut k of the first: nothing moves when both cut at the end.
fn cuts_of(n1: usize, n2: usize, k: usize) -> usize
    requires { n2 ≤ 63 }
    ensures { result ≡ cuts n1 n2 k }
{
    if k == n1 {
        return n2;
    }
    n2 + 1
}

// A stretch that stays.
fn staying(from: usize, to: usize) -> Stretch
    ensures { result ≡ stays from to }
{
    Stretch {
        from,
        to,
        from_step: 0,
        to_step: 0,
    }
}

// A stretch that moves along from a list's start.
fn moving(to: usize, to_step: usize) -> Stretch
    ensures { result ≡ moves_along to to_step }
{
    Stretch {
        from: 0,
        to,
        from_step: 1,
        to_step,
    }
}

impl Row {
    // The row seen from the second list, of which every move makes another one.
    pub fn turned(self) -> Row
        ensures { result ≡ turned_row self }
    {
        Row {
            own: self.others,
            others: self.own,
            count: self.count,
            distinct: self.count,
        }
    }
}

impl Kind {
    // Whether the load of the first list is tested: a relocation leaves it with less.
    #[tactic(auto, unfolding(crate::specs::Kinds::tested_in))]
    pub fn is_tested(self) -> bool
        ensures { result ≡ tested_in self }
    {
        match self {
            Kind::Relocation => false,
            Kind::Swap => true,
            Kind::Tails => true,
        }
    }

    // How many rows a first list of n visits has.
    #[tactic(auto, unfolding(crate::specs::Kinds::rows_in))]
    pub fn rows(self, n: usize) -> usize
        requires { n ≤ 63 }
        ensures { result ≡ rows_in self n }
    {
        match self {
            Kind::Relocation | Kind::Swap => n,
            Kind::Tails => n + 1,
        }
    }

    // How many entries a row has in the tables, for a second list of n visits.
    #[tactic(auto, unfolding(crate::specs::Kinds::width_of))]
    pub fn width(self, n: usize) -> usize
        requires { n ≤ 63 }
        ensures { result ≡ width_of self n }
    {
        match self {
            Kind::Relocation | Kind::Tails => n + 1,
            Kind::Swap => n,
        }
    }

    // The row k of lists of n1 and n2 visits.
    #[tactic(auto, unfolding(crate::specs::Kinds::row_of))]
    pub fn row(self, n1: usize, n2: usize, k: usize) -> Row
        requires { (n2 ≤ 63) × (k ≤ 63) }
        ensures { result ≡ row_of self n1 n2 k }
    {
        match self {
            Kind::Relocation => Row {
                own: staying(k, k + 1),
                others: moving(0, 1),
                count: n2 + 1,
                distinct: 1,
            },
            Kind::Swap => Row {
                own: staying(k, k + 1),
                others: moving(1, 1),
                count: n2,
                distinct: n2,
            },
            Kind::Tails => {
                let count = cuts_of(n1, n2, k);
                Row {
                    own: staying(k, n1),
                    others: moving(n2, 0),
                    count,
                    distinct: count,
                }
            }
        }
    }

    // Move k2 of the row k1 of lists of n1 and n2 visits.
    #[tactic(auto, unfolding(crate::specs::Kinds::move_at))]
    pub fn at(self, pair: &Pair, n1: usize, n2: usize, k1: usize, k2: usize) -> Move
        requires { (k1 ≤ 127) × (k2 ≤ 63) }
        ensures { result ≡ move_at self pair.now n1 n2 k1 k2 }
    {
        let one = pair.one;
        let other = pair.other;
        match self {
            Kind::Relocation => Move {
                one,
                from1: k1,
                to1: k1 + 1,
                other,
                from2: k2,
                to2: k2,
                tested: 0,
            },
            Kind::Swap => Move {
                one,
                from1: k1,
                to1: k1 + 1,
                other,
                from2: k2,
                to2: k2 + 1,
                tested: 1,
            },
            Kind::Tails => Move {
                one,
                from1: k1,
                to1: n1,
                other,
                from2: k2,
                to2: n2,
                tested: 1,
            },
        }
    }
}
