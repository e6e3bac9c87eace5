// What stays the same over a run.
ghost use Rattle.cross_choices.specs.Scan.{Asked};
ghost use Rattle.fleet.specs.Fleet.{Manned};
ghost use Rattle.labels.specs.Lent.{lent};

use fleet::Fleet;
use labels::columns::Columns;

// The day and the vans, and how much a move has to gain. The ghost fields say that both can be reckoned with.
#[derive(Clone, Copy)]
pub struct Terms<'a> {
    pub columns: &'a Columns<'a>,
    pub demand: &'a [i32],
    pub fleet: &'a Fleet<'a>,
    pub floor: f64,
    ghost asked: { Asked (lent columns.now) demand.now },
    ghost manned: { Manned columns.now.locations fleet.now },
}
