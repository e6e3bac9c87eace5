// What an export of planner_c writes through its caller's references, from the planner's answer: nothing where it is refused.

#![tactic(auto)]

ghost use Rattle.std.specs.Prelude.{◌≡◌};
ghost use Rattle.day.specs.Number.{number_of};
ghost use Rattle.written.specs.Written.{distance_in, passes_in, eval_passes, eval_in, found_in, schedule_in, taken_in, position_in, start_in};
ghost use Rattle.written.specs.Written.{scale_in, floor_in, symmetric_in, fixed_in, depots_in};
ghost use Rattle.written.specs.Written.{settled_in, moves_in, end_distance_in};
ghost use Rattle.written.specs.Written.{over_settled_in, over_moves_in, remaining_written};
ghost use Rattle.written.specs.Written.{taken_code, taken_position, taken_start, bit_of};

use break_clock::Scheduled;
use checks::table::Table;
use day::refusal::Refusal;
use evaluation::route::RouteEval;
use improvements::Improved;
use labels::label::Taken;
use rearrangements::Rearranged;

// The number of what was refused, and 0 where nothing was.
pub fn code_of(answer: Result<(), Refusal>) -> u8
    ensures { result ≡ number_of answer }
{
    match answer {
        Err(refusal) => refusal.number(),
        Ok(_) => 0,
    }
}

// Writes how a run ended, if it was not refused.
#[tactic(auto, unfolding(crate::specs::Written::settled_in, crate::specs::Written::moves_in, crate::specs::Written::end_distance_in))]
pub fn write_improved(
    answer: Result<Improved, Refusal>,
    settled: &mut u8,
    moves: &mut u32,
    distance: &mut f64,
) -> u8
    ensures { (result ≡ number_of answer)
        × (settled.new ≡ settled_in answer settled.old)
        × (moves.new ≡ moves_in answer moves.old)
        × (distance.new ≡ end_distance_in answer distance.old) }
{
    match answer {
        Err(refusal) => refusal.number(),
        Ok(
            Improved::Settled {
                moves: m,
                distance: x,
            },
        ) => {
            *settled = 1;
            *moves = m;
            *distance = x;
            0
        }
        Ok(
            Improved::Stopped {
                moves: m,
                distance: x,
            },
        ) => {
            *settled = 0;
            *moves = m;
            *distance = x;
            0
        }
    }
}

// Writes how a run ended, if it was not refused.
#[tactic(auto, unfolding(crate::specs::Written::over_settled_in, crate::specs::Written::over_moves_in, crate::specs::Written::remaining_written))]
pub fn write_rearranged(
    answer: Result<Rearranged, Refusal>,
    settled: &mut u8,
    moves: &mut u32,
    remaining: &mut usize,
) -> u8
    ensures { (result ≡ number_of answer)
        × (settled.new ≡ over_settled_in answer settled.old)
        × (moves.new ≡ over_moves_in answer moves.old)
        × (remaining.new ≡ remaining_written answer remaining.old) }
{
    match answer {
        Err(refusal) => refusal.number(),
        Ok(
            Rearranged::Settled {
                moves: m,
                remaining: k,
            },
        ) => {
            *settled = 1;
            *moves = m;
            *remaining = k;
            0
        }
        Ok(
            Rearranged::Stopped {
                moves: m,
                remaining: k,
            },
        ) => {
            *settled = 0;
            *moves = m;
            *remaining = k;
            0
        }
    }
}

// Writes where the break is taken, if it is.
#[tactic(auto, unfolding(crate::specs::Written::taken_code, crate::specs::Written::taken_position, crate::specs::Written::taken_start))]
pub fn write_taken(rest: Option<Taken>, taken: &mut u8, position: &mut usize, start: &mut f64)
    ensures { (taken.new ≡ taken_code rest) × (position.new ≡ taken_position rest position.old) ×
        (start.new ≡ taken_start rest start.old) }
{
    match rest {
        None => {
            *taken = 0;
        }
        Some(at) => {
            *taken = 1;
            *position = at.position;
            *start = at.start;
        }
    }
}

// A truth as a byte.
#[tactic(auto, unfolding(crate::specs::Written::bit_of))]
pub fn bit_of(b: bool) -> u8
    ensures { result ≡ bit_of b }
{
    u8::from(b)
}

// The distance of a list.
#[tactic(auto, unfolding(crate::specs::Written::distance_in))]
pub fn write_distance(answer: Result<f64, Refusal>, distance: &mut f64) -> u8
    ensures { (result ≡ number_of answer) × (distance.new ≡ distance_in answer distance.old) }
{
    match answer {
        Err(refusal) => refusal.number(),
        Ok(x) => {
            *distance = x;
            0
        }
    }
}

// Whether a list passes.
#[tactic(auto, unfolding(crate::specs::Written::passes_in))]
pub fn write_feasible(answer: Result<bool, Refusal>, passes: &mut u8) -> u8
    ensures { (result ≡ number_of answer) × (passes.new ≡ passes_in answer passes.old) }
{
    match answer {
        Err(refusal) => refusal.number(),
        Ok(b) => {
            *passes = bit_of(b);
            0
        }
    }
}

// What the list comes to, where it passes.
#[tactic(auto, unfolding(crate::specs::Written::eval_passes, crate::specs::Written::eval_in))]
pub fn write_evaluated(
    answer: Result<Option<RouteEval>, Refusal>,
    passes: &mut u8,
    distance: &mut f64,
    duration: &mut f64,
    lateness: &mut f64,
    lateness_cost: &mut f64,
) -> u8
    ensures { (result ≡ number_of answer) ×
        (passes.new ≡ eval_passes answer passes.old) ×
        (distance.new ≡ eval_in (λ e. e.distance) answer distance.old) ×
        (duration.new ≡ eval_in (λ e. e.duration) answer duration.old) ×
        (lateness.new ≡ eval_in (λ e. e.lateness) answer lateness.old) ×
        (lateness_cost.new ≡ eval_in (λ e. e.lateness_cost) answer lateness_cost.old) }
{
    match answer {
        Err(refusal) => refusal.number(),
        Ok(None) => {
            *passes = 0;
            0
        }
        Ok(Some(e)) => {
            *passes = 1;
            *distance = e.distance;
            *duration = e.duration;
            *lateness = e.lateness;
            *lateness_cost = e.lateness_cost;
            0
        }
    }
}

// The schedule, where there is one.
#[tactic(auto, unfolding(crate::specs::Written::found_in, crate::specs::Written::schedule_in, crate::specs::Written::taken_in, crate::specs::Written::position_in, crate::specs::Written::start_in))]
pub fn write_scheduled(
    answer: Result<Option<Scheduled>, Refusal>,
    found: &mut u8,
    distance: &mut f64,
    duration: &mut f64,
    lateness: &mut f64,
    lateness_cost: &mut f64,
    taken: &mut u8,
    position: &mut usize,
    start: &mut f64,
) -> u8
    ensures { (result ≡ number_of answer) ×
        (found.new ≡ found_in answer found.old) ×
        (distance.new ≡ schedule_in (λ s. s.distance) answer distance.old) ×
        (duration.new ≡ schedule_in (λ s. s.duration) answer duration.old) ×
        (lateness.new ≡ schedule_in (λ s. s.lateness) answer lateness.old) ×
        (lateness_cost.new ≡ schedule_in (λ s. s.lateness_cost) answer lateness_cost.old) ×
        (taken.new ≡ taken_in answer taken.old) ×
        (position.new ≡ position_in answer position.old) ×
        (start.new ≡ start_in answer start.old) }
{
    match answer {
        Err(refusal) => refusal.number(),
        Ok(None) => {
            *found = 0;
            0
        }
        Ok(Some(s)) => {
            *found = 1;
            *distance = s.distance;
            *duration = s.duration;
            *lateness = s.lateness;
            *lateness_cost = s.lateness_cost;
            write_taken(s.rest, taken, position, start);
            0
        }
    }
}

// What the searches work out.
#[tactic(auto, unfolding(crate::specs::Written::table_in))]
pub fn write_table(
    answer: Result<Table, Refusal>,
    scale: &mut f64,
    floor: &mut f64,
    symmetric: &mut u8,
    fixed: &mut f64,
    depots: &mut usize,
) -> u8
    ensures { (result ≡ number_of answer) ×
        (scale.new ≡ scale_in answer scale.old) ×
        (floor.new ≡ floor_in answer floor.old) ×
        (symmetric.new ≡ symmetric_in answer symmetric.old) ×
        (fixed.new ≡ fixed_in answer fixed.old) ×
        (depots.new ≡ depots_in answer depots.old) }
{
    match answer {
        Err(refusal) => refusal.number(),
        Ok(table) => {
            *scale = table.scale;
            *floor = table.floor;
            *symmetric = bit_of(table.symmetric);
            *fixed = table.fixed;
            *depots = table.depots;
            0
        }
    }
}
