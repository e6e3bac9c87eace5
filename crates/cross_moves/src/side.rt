// A list of a pair as the search of its moves sees it: with its van, and what is worked out of it before a move is tried.
ghost use Rattle.std.specs.Prelude.{◌≡◌, ◌+◌, ◌≤◌, ◌<◌, length, get_or};
ghost use Rattle.std.proofs.Math.Seq.{slice};
ghost use Rattle.labels.specs.Columns.{Visits};
ghost use Rattle.cross_moves.specs.Boxes.{Prefixed};
ghost use Rattle.fleet.specs.Fleet.{Driven};
ghost use Rattle.cross_moves.specs.CrossDepot.{holds, replaced};
ghost use Rattle.loads.specs.Loads.{Two, Loaded};

use day::vehicle::Van;
use kept_heads::KeptHeads;
use loads::{boxes_at, boxes_in};

// The load of the first k visits of a list at k, for k from 0 to the list's length.
#[derive(Drop)]
pub struct PrefixLoads {
    pub sums: [usize; 64],
}

impl PrefixLoads {
    // Room for those of a list: that of no visit is 0.
    #[inline]
    pub fn room() -> PrefixLoads
        ensures { get_or result.sums 0 0 ≡ 0 }
    {
        PrefixLoads { sums: [0; 64] }
    }

    // Adds up the loads of a list.
    pub fn fill(&mut self, l: usize, demand: &[i32], list: &[u16])
        requires { Loaded l demand.now × Visits l list.now }
        ensures { Prefixed demand.now list.now self.new.sums }
    {
        let mut load = 0;
        self.sums[0] = 0;
        for k in 0..list.len() {
            load += boxes_at(l, demand, list, k);
            self.sums[k + 1] = load;
        }
    }
}

// One of the two lists, with its prefix loads and its heads.
#[derive(Clone, Copy)]
pub struct Side<'a> {
    pub list: &'a [u16],
    pub van: Van,
    pub loads: &'a PrefixLoads,
    pub heads: &'a KeptHeads,
}

impl<'a> Side<'a> {
    // Whether the load of the list with a stretch of another in the place of its own is within the van's capacity, by the prefix loads of both lists.
    pub fn fits(
        &self,
        l: usize,
        demand: &[i32],
        from: usize,
        to: usize,
        other: &Side,
        other_from: usize,
        other_to: usize,
    ) -> bool
        requires loaded { Loaded l demand.now × Driven l self.now.van × Two l self.now.list.now other.now.list.now }
        requires prefixed { Prefixed demand.now self.now.list.now self.now.loads.now.sums
            × Prefixed demand.now other.now.list.now other.now.loads.now.sums }
        requires from_le_to { (from ≤ to) × (to ≤ length self.now.list.now) × (other_from ≤ other_to) × (other_to ≤ length other.now.list.now) }
        ensures { result ≡ holds demand.now self.now.van (replaced self.now.list.now from to (slice other_from other_to other.now.list.now)) }
    {
        let loads = self.loads;
        let others = other.loads;
        let come = loads.sums[self.list.len()] + loads.sums[from] + others.sums[other_to];
        let gone = loads.sums[to] + others.sums[other_from];
        come <= boxes_in(self.van.capacity) + gone
    }
}
