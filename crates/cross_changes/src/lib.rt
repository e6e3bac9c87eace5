// What a move makes of the tables: the two lists change in place, and the lists that are then empty are dropped.

#![tactic(auto)]

ghost use Rattle.std.specs.Prelude.{◌≡◌, ◌≤◌, ◌<◌, length, set};
ghost use Rattle.lists.specs.Table.{lists};
ghost use Rattle.list_changes.specs.Edits.{Edited};
ghost use Rattle.cross_moves.specs.CrossDepot.{exchanged_by, plan_of};
ghost use Rattle.cross_changes.specs.Tables.{Makes, turned, packed_by, kept_if, Made};

use cross_moves::pair::Move;
use list_changes::{drop_empty, exchange_tails, one_if_filled};

// ---- two lists

// The same move, seen from the other list.
fn turned_move(m: Move) -> Move
    ensures { result ≡ turned m }
{
    Move {
        one: m.other,
        from1: m.from2,
        to1: m.to2,
        other: m.one,
        from2: m.from1,
        to2: m.to1,
        tested: m.tested,
    }
}

// Exchanges a stretch of a list for a stretch of a later one: the tails behind both stretches change places, and then the tails from their starts on.
fn exchange_later(visits: &mut [u16], lengths: &mut [u16], m: Move)
    requires { Makes visits.old lengths.old m × (m.one < m.other) }
    ensures { Edited visits.old lengths.old visits.new lengths.new
        (exchanged_by (lists visits.old lengths.old) m) }
{
    exchange_tails(visits, lengths, m.one, m.other, m.to1, m.to2);
    exchange_tails(visits, lengths, m.one, m.other, m.from1, m.from2);
}

// Exchanges the two stretches of a move.
fn exchange_stretches(visits: &mut [u16], lengths: &mut [u16], m: Move)
    requires { Makes visits.old lengths.old m }
    ensures { Edited visits.old lengths.old visits.new lengths.new
        (exchanged_by (lists visits.old lengths.old) m) }
{
    if m.one < m.other {
        exchange_later(visits, lengths, m);
        return;
    }
    exchange_later(visits, lengths, turned_move(m));
}

// What the two lists cost now.
fn store_costs(costs: &mut [f64], m: Move, cost1: f64, cost2: f64)
    requires { (m.one < length costs.old) × (m.other < length costs.old) × (length costs.old ≤ 16) }
    ensures { costs.new ≡ set (set costs.old m.one cost1) m.other cost2 }
{
    let one = m.one;
    let other = m.other;
    costs[one] = cost1;
    costs[other] = cost2;
}

// ---- empty lists dropped

// The entry of a list that has a visit, `none` for an empty one.
fn kept_if<T: Copy>(none: T, n: u16, entry: T) -> T
    ensures { result ≡ kept_if none n entry }
{
    if n == 0 {
        return none;
    }
    entry
}

// Drops the entries of the empty lists: the others move up, in their order, and behind them there is `none`.
fn pack<T: Copy>(lengths: &[u16], entries: &mut [T], none: T)
    requires { (length entries.old ≡ length lengths.now) × (length lengths.now ≤ 16) }
    ensures { entries.new ≡ packed_by none lengths.now entries.old }
{
    let mut kept: usize = 0;
    for (i, &n) in lengths.iter().enumerate() {
        let entry = entries[i];
        entries[i] = none;
        entries[kept] = kept_if(none, n, entry);
        kept += one_if_filled(n);
    }
}

// Makes a move whose two lists then cost `cost1` and `cost2`, and returns how many lists are left.
pub fn make_move(
    visits: &mut [u16],
    lengths: &mut [u16],
    ids: &mut [u32],
    costs: &mut [f64],
    m: Move,
    cost1: f64,
    cost2: f64,
) -> usize
    requires makes { Makes visits.old lengths.old m }
    requires ids_len { (length ids.old ≡ length lengths.old) × (length costs.old ≡ length lengths.old) }
    ensures { Made (plan_of visits.old lengths.old ids.old costs.old) m cost1 cost2
        visits.old visits.new lengths.new ids.new costs.new result }
{
    exchange_stretches(visits, lengths, m);
    store_costs(costs, m, cost1, cost2);
    pack(lengths, ids, 0);
    pack(lengths, costs, 0.0);
    drop_empty(lengths)
}
