// A candidate with a break to take, driven from a head of the list that it changes: over that list's visits up to the stretch that is replaced, over the
// stretch of the other list, and over its own last visits. It isn't built: its visits are read by position. The head before the stretch is kept for the next.

#![tactic(auto)]

ghost use Rattle.std.specs.Prelude.{◌≡◌, ◌+◌, ◌-◌, ◌<◌, ◌≤◌, length, get_or};
ghost use Rattle.std.proofs.Math.Seq.{slice};
ghost use Rattle.loads.specs.Loads.{Two};
ghost use Rattle.cross_moves.specs.CrossDepot.{replaced};
ghost use Rattle.cross_broken_drives.specs.Drive.{Driven};
ghost use Rattle.labels.specs.Lent.{lent};

use broken_heads::{BrokenHead, next_head};
use labels::columns::Columns;

// How far a candidate is driven: to where its stretch begins, and to its end.
#[derive(Clone, Copy)]
pub struct Drive {
    pub head: BrokenHead,
    pub end: BrokenHead,
}

// The visit at a position of a list with a stretch of another in the place of its own.
fn visit_at(
    list: &[u16],
    from: usize,
    to: usize,
    other: &[u16],
    other_from: usize,
    other_to: usize,
    i: usize,
) -> usize
    requires from_le_to { (from ≤ to) × (to ≤ length list.now) × (other_from ≤ other_to) × (other_to ≤ length other.now) }
    requires other_len_bound { (length list.now + length other.now ≤ 63) × (i < from + (other_to - other_from) + (length list.now - to)) }
    ensures { result ≡ get_or (replaced list.now from to (slice other_from other_to other.now)) i 0 }
{
    if i < from {
        return usize::from(list[i]);
    }
    let k = i - from;
    let size = other_to - other_from;
    if k < size {
        return usize::from(other[other_from + k]);
    }
    usize::from(list[to + (k - size)])
}

// Drives a candidate from the head of its list's first `driven` visits on. Behind the begin of its stretch it ends before a visit where no label is left.
pub fn drive_candidate(
    columns: &Columns,
    start: BrokenHead,
    driven: usize,
    list: &[u16],
    from: usize,
    to: usize,
    other: &[u16],
    other_from: usize,
    other_to: usize,
) -> Drive
    requires two { Two columns.now.locations list.now other.now }
    requires place_lt_l { (start.place < columns.now.locations) × (start.index ≤ driven) × (driven ≤ from) }
    requires from_le_to { (from ≤ to) × (to ≤ length list.now) × (other_from ≤ other_to) × (other_to ≤ length other.now) }
    ensures { Driven (lent columns.now) start (replaced list.now from to (slice other_from other_to other.now)) driven from result }
{
    let end = from + (other_to - other_from) + (list.len() - to);
    let mut kept = start;
    let mut head = start;
    for i in driven..end {
        if from <= i && !head.any_left() {
            return Drive {
                head: kept,
                end: head,
            };
        }
        let visit = visit_at(list, from, to, other, other_from, other_to, i);
        head = next_head(columns, head, visit);
        if i + 1 == from {
            kept = head;
        }
    }
    Drive {
        head: kept,
        end: head,
    }
}
