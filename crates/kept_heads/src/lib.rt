// All heads of a list, driven once and kept for the lists that share their first visits with it.

#![tactic(auto)]

ghost use Rattle.std.specs.Prelude.{◌≡◌, ◌<◌, ◌≤◌, length};
ghost use Rattle.labels.specs.Columns.{Visits};
ghost use Rattle.labels.specs.Lent.{lent};
ghost use Rattle.kept_heads.specs.Kept.{place_before, kept_of, head_of, Kept};

use heads::{Head, at_depot, drive};
use labels::columns::Columns;
use labels::label::Label;

// What is kept of a head: how many visits it has says which it is, and the list where it ends.
#[derive(Clone, Copy)]
pub struct KeptHead {
    pub distance: f64,
    pub time: f64,
    pub lateness: f64,
    pub lateness_cost: f64,
}

// The heads of a list by how many visits they have, up to `reached`: that one ends before a visit that can't be served, or is the whole list.
#[derive(Drop)]
pub struct KeptHeads {
    pub heads: [KeptHead; 64],
    pub reached: usize,
}

// What is kept of a head.
fn kept_of(head: Head) -> KeptHead
    ensures { result ≡ kept_of head }
{
    let label = head.label;
    KeptHead {
        distance: head.distance,
        time: label.time,
        lateness: label.lateness,
        lateness_cost: label.lateness_cost,
    }
}

// Where the van is behind the first k visits of a list.
fn place_before(list: &[u16], depot: usize, k: usize) -> usize
    requires { k ≤ length list.now }
    ensures { result ≡ place_before depot list.now k }
{
    if k == 0 {
        return depot;
    }
    usize::from(list[k - 1])
}

impl KeptHeads {
    // Room for the heads of a list: none is reached but that of no visit.
    #[inline]
    pub fn room() -> KeptHeads
        ensures { result.reached ≡ 0 }
    {
        KeptHeads {
            heads: [KeptHead {
                distance: 0.0,
                time: 0.0,
                lateness: 0.0,
                lateness_cost: 0.0,
            }; 64],
            reached: 0,
        }
    }

    // Drives and keeps the heads of a list.
    pub fn fill(&mut self, columns: &Columns, depot: usize, list: &[u16])
        requires { (depot < columns.now.locations) × Visits columns.now.locations list.now }
        ensures { Kept (lent columns.now) depot list.now self.new }
    {
        let mut head = at_depot(depot);
        self.heads[0] = kept_of(head);
        for k in 0..list.len() {
            head = drive(columns, head, list, k, k + 1);
            if head.visits == k {
                self.reached = k;
                return;
            }
            self.heads[k + 1] = kept_of(head);
        }
        self.reached = list.len();
    }

    // The head of the first k visits of the list.
    pub fn head(&self, list: &[u16], depot: usize, k: usize) -> Head
        requires { (k ≤ length list.now) × (k ≤ 63) }
        ensures { result ≡ head_of self.now depot list.now k }
    {
        let kept = self.heads[k];
        let label = Label {
            time: kept.time,
            lateness: kept.lateness,
            lateness_cost: kept.lateness_cost,
            position: 0,
            start: 0.0,
        };
        Head {
            visits: k,
            distance: kept.distance,
            label,
            place: place_before(list, depot, k),
        }
    }
}
