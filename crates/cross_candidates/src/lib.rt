// What a candidate costs with no break to take. It shares its first visits with the list that it changes: that list's heads are driven once and kept
// (`KeptHeads::fill`), and the candidate is driven from its head on.

#![tactic(auto)]

ghost use Rattle.std.specs.Prelude.{◌≡◌, ◌≤◌, length};
ghost use Rattle.std.proofs.Math.Seq.{slice};
ghost use Rattle.fleet.specs.Fleet.{Driven};
ghost use Rattle.kept_heads.specs.Kept.{Kept};
ghost use Rattle.cross_moves.specs.CrossDepot.{priced_as, amount, replaced};
ghost use Rattle.loads.specs.Loads.{Two};
ghost use Rattle.cross_candidates.specs.Candidate.{Unbroken};
ghost use Rattle.labels.specs.Lent.{lent};

use cross_head_prices::price_from;
use cross_moves::side::Side;
use day::vehicle::RouteLimits;
use labels::columns::Columns;
use numbers::infinite;

// What a list with a stretch of another in the place of its own costs with no break to take, from the head before the stretch on.
pub fn candidate_cost(
    columns: &Columns,
    limits: RouteLimits,
    side: &Side,
    from: usize,
    to: usize,
    other: &[u16],
    other_from: usize,
    other_to: usize,
) -> f64
    requires driven { Driven columns.now.locations side.now.van × Two columns.now.locations side.now.list.now other.now }
    requires unbroken { Unbroken side.now.van limits × Kept (lent columns.now) side.now.van.depot side.now.list.now side.now.heads.now }
    requires from_le_to { (from ≤ to) × (to ≤ length side.now.list.now) × (other_from ≤ other_to) × (other_to ≤ length other.now) }
    ensures { result ≡ amount (priced_as (lent columns.now) side.now.van (replaced side.now.list.now from to (slice other_from other_to other.now))) }
{
    let van = side.van;
    let list = side.list;
    let heads = side.heads;
    if heads.reached < from {
        return infinite();
    }
    if from + (other_to - other_from) + (list.len() - to) == 0 {
        return 0.0;
    }
    let head = heads.head(list, van.depot, from);
    let price = price_from(
        columns, van, limits, head, list, to, other, other_from, other_to,
    );
    let Some(cost) = price else {
        return infinite();
    };
    cost
}
