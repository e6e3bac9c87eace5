// The edits of both tables of lists in place: a visit or a tail that changes lists, and the empty lists dropped (local_search/relocate.rs, exchange.rs). Each
// equals its definition on a list of lists.

#![tactic(auto)]

ghost use Rattle.std.specs.Prelude.{◌≡◌, [], ◌∷◌, ◌+◌, ◌≤◌, ◌<◌, length, get_or};
ghost use Rattle.lists.specs.Table.{lists};
ghost use Rattle.list_changes.specs.Edits.{nonzero, packed, Edited, Relocates, relocated, moved_one, length_moved, Cuts, tails_exchanged, tail_lengths};

use lists::{end_of, length_of, place_of};

// 1 for a list that has a visit, 0 for an empty one.
pub fn one_if_filled(n: u16) -> usize
    ensures { result ≡ length (nonzero (n ∷ [])) }
{
    if n == 0 {
        return 0;
    }
    1
}

// Drops the empty lists: their lengths go to the end, the others keep their order, and the answer is how many these are. Behind the `kept` that are
// packed there are only zeros up to i, so that the length at i changes places with the first of them.
pub fn drop_empty(lengths: &mut [u16]) -> usize
    ensures count { result ≡ length (nonzero lengths.old) }
    ensures lengths { lengths.new ≡ packed lengths.old }
{
    let mut kept = 0;
    for i in 0..lengths.len() {
        let n = lengths[i];
        lengths.swap(kept, i);
        kept += one_if_filled(n);
    }
    kept
}

// Puts the visit at place p of the table before the one at place q: it changes places with what lies between.
fn move_one(visits: &mut [u16], p: usize, q: usize)
    requires { (p < length visits.old) × (q ≤ length visits.old) }
    ensures { visits.new ≡ moved_one p q visits.old }
{
    let behind = p + 1;
    if p < q {
        edits::exchange_stretches(visits, p, behind, q);
        return;
    }
    edits::exchange_stretches(visits, q, p, behind);
}

// One visit less for list `from`, and one more for list `to`.
fn move_length(lengths: &mut [u16], from: usize, to: usize)
    requires from_in_bounds { (from < length lengths.old) × (to < length lengths.old) }
    requires nonzero { (0 < get_or lengths.old from 0) × (get_or lengths.old to 0 < 65535) }
    ensures { lengths.new ≡ length_moved from to lengths.old }
{
    let less = lengths[from] - 1;
    let more = lengths[to] + 1;
    lengths[from] = less;
    lengths[to] = more;
}

// Relocates the visit at `position` of list `from` to `place` of list `to`, in both tables.
pub fn move_visit(
    visits: &mut [u16],
    lengths: &mut [u16],
    from: usize,
    position: usize,
    to: usize,
    place: usize,
)
    requires { Relocates visits.old lengths.old from position to place }
    ensures { Edited visits.old lengths.old visits.new lengths.new
        (relocated (lists visits.old lengths.old) from position to place) }
{
    let p = place_of(lengths, from, position);
    let q = place_of(lengths, to, place);
    move_one(visits, p, q);
    move_length(lengths, from, to);
}

// The lengths of two lists that keep `cut1` and `cut2` visits and exchange the rest.
fn exchange_lengths(lengths: &mut [u16], one: usize, other: usize, cut1: usize, cut2: usize)
    requires one_in_bounds { (one < length lengths.old) × (other < length lengths.old) }
    requires cut1_bound { (cut1 ≤ get_or lengths.old one 0) × (cut2 ≤ get_or lengths.old other 0) }
    requires other_bound { get_or lengths.old one 0 + get_or lengths.old other 0 ≤ 65535 }
    ensures { lengths.new ≡ tail_lengths one other cut1 cut2 lengths.old }
{
    let first = cut1 + (length_of(lengths, other) - cut2);
    let second = cut2 + (length_of(lengths, one) - cut1);
    lengths[one] = first as u16;
    lengths[other] = second as u16;
}

// Exchanges the tails of lists `one` and `other`, of which these keep `cut1` and `cut2` visits, in both tables.
pub fn exchange_tails(
    visits: &mut [u16],
    lengths: &mut [u16],
    one: usize,
    other: usize,
    cut1: usize,
    cut2: usize,
)
    requires { Cuts visits.old lengths.old one other cut1 cut2 }
    ensures { Edited visits.old lengths.old visits.new lengths.new
        (tails_exchanged (lists visits.old lengths.old) one other cut1 cut2) }
{
    let from = place_of(lengths, one, cut1);
    let a = end_of(lengths, one);
    let b = place_of(lengths, other, cut2);
    let to = end_of(lengths, other);
    edits::exchange_outer(visits, from, a, b, to);
    exchange_lengths(lengths, one, other, cut1, cut2);
}
