// The search of one block by full pels (docs/RULES.md, 'Search' and 'Rows added'): 16×16 on planes, from a
// centre, the others within 3 of it. The code holds a motion as the signed one plus 27.
#![tactic(auto)]

ghost use Rattle.std.specs.Prelude.{◌+◌, ◌-◌, ◌≤◌, ◌<◌};
ghost use Rattle.stage.specs.Inner.{full_turn, full_pel_in};
ghost use Rattle.stage.specs.Inner.{Next, Lies, Fine, Roomy};

use cost::whole;
use plane::Offset;
use stage::{Best, FULL_REACH, NO_BEST};

const FULL_BIAS: usize = 27;

const FULL_SIDE: usize = 7;

const FULL_SQUARE: usize = 49;

fn full_candidate(best: Best, k: usize, centre: Offset, block: &[u16], window: &[u16]) -> Best
    requires fine { Fine block.now window.now }
    requires roomy { Roomy 3 54 centre.y centre.x }
    requires k_bound { (k < 49) × (best.rows ≤ 10000) }
    ensures { Next 16 best.rows (full_turn centre block.now window.now k best) result }
{
    if k == FULL_SQUARE / 2 {
        return best;
    }
    let by = Offset {
        y: centre.y + k / FULL_SIDE - FULL_REACH,
        x: centre.x + k % FULL_SIDE - FULL_REACH,
    };
    let start = stage::offset_cost(by, FULL_BIAS);
    let at = Offset {
        y: k / FULL_SIDE + 1,
        x: k % FULL_SIDE + 1,
    };
    let new = whole::sad_int(best.cost, start, block, window, at);
    stage::better(best, new, by)
}

// 16×16 by full pels, from the centre, the others within 3 of it.
pub fn full_pel(centre: Offset, block: &[u16], window: &[u16]) -> Best
    requires fine { Fine block.now window.now }
    requires roomy { Roomy 3 54 centre.y centre.x }
    ensures next { Next 800 0 (full_pel_in centre block.now window.now) result }
    ensures lies { Lies 3 centre.y centre.x result.y result.x }
{
    let at = Offset {
        y: FULL_REACH + 1,
        x: FULL_REACH + 1,
    };
    let start = whole::sad_int(NO_BEST, 0, block, window, at);
    let first = Best {
        cost: start.cost,
        y: centre.y,
        x: centre.x,
        rows: start.rows,
    };
    if first.cost == 0 {
        return stage::idle(first, FULL_SQUARE - 1);
    }
    let mut best = first;
    for k in 0..FULL_SQUARE {
        best = full_candidate(best, k, centre, block, window);
    }
    best
}
