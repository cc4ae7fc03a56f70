// What the three stages of the search for one block share (docs/RULES.md, 'Search' and 'Rows added'; the loops
// over offsets in the Rust's `collect_motion_samples`): the best candidate so far, what replaces it, and an
// offset's cost. The code holds a motion as a natural number, the signed one plus a bias: 12 in the coarse
// stage, 27 by full pels, 223 in eighths.
#![tactic(auto)]

ghost use Rattle.std.specs.Prelude.{◌≡◌, ◌+◌, ◌-◌, ◌≤◌, ◌<◌};
ghost use Rattle.plane.specs.Difference.{difference};
ghost use Rattle.plane.specs.Inner.{Is};
ghost use Rattle.stage.specs.Inner as inner;
ghost use Rattle.stage.specs.Inner.{replaced, magnitudes_of};
ghost use Rattle.stage.specs.Inner.{Countable, Priceable};

use cost::Added;
use plane::Offset;

// The reach of the search by full pels, and the candidates of a step with its middle.
pub const FULL_REACH: usize = 3;

pub const STEP_SQUARE: usize = 9;

// A start has no best to reach.
pub const NO_BEST: u32 = 4294967295;

// The best candidate so far: its cost, its motion plus the stage's bias, and the rows added so far.
#[derive(Clone, Copy)]
pub struct Best {
    pub cost: u32,
    pub y: usize,
    pub x: usize,
    pub rows: u32,
}

// Only a strictly smaller cost replaces the best; the rows count anyway.
pub fn better(best: Best, new: Added, by: Offset) -> Best
    requires { Countable best new }
    ensures { result ≡ replaced best new by }
{
    let rows = best.rows + new.rows;
    if new.cost < best.cost {
        Best {
            cost: new.cost,
            y: by.y,
            x: by.x,
            rows,
        }
    } else {
        Best { rows, ..best }
    }
}

// A best of 0 stays: each of the other candidates adds one row, and none wins.
pub fn idle(best: Best, others: usize) -> Best
    requires { (best.rows ≤ 10000) × (others ≤ 1000) }
    ensures { result ≡ inner.more_rows best others }
{
    Best {
        rows: best.rows + others as u32,
        ..best
    }
}

// The magnitude of n less the bias.
pub fn magnitude(n: usize, bias: usize) -> u32
    requires n_bound { n ≤ 256 }
    requires bias_bound { bias ≤ 256 }
    ensures { Is (difference n bias) 256 result }
{
    n.abs_diff(bias) as u32
}

// |dy| + |dx|, which a sum by whole pels begins at.
pub fn offset_cost(by: Offset, bias: usize) -> u32
    requires { Priceable by bias }
    ensures { Is (magnitudes_of bias by) 512 result }
{
    magnitude(by.y, bias) + magnitude(by.x, bias)
}
