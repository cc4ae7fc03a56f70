// The steps of one block's search in eighths (docs/RULES.md, 'Search' and 'Rows added'): the eight
// neighbours of the best held when a step begins, by steps 4, 2, 1. The code holds a motion as the signed
// one plus 223.
#![tactic(auto)]

ghost use Rattle.std.specs.Prelude.{◌+◌, ◌*◌, ◌-◌, ◌≤◌, ◌<◌};
ghost use Rattle.blend.specs.Inner.{window_from};
ghost use Rattle.stage.specs.Inner as inner;
ghost use Rattle.stage.specs.Inner.{step_turn, step_in};
ghost use Rattle.stage.specs.Inner.{Next, Lies, Fine, Roomy, Steady};

use plane::Offset;
use stage::{Best, STEP_SQUARE};

const STEP_SIDE: usize = 3;

// The corner, the block and the window's bytes stay parameters: clauses over a struct of borrowed parts name each part
// at entry and at exit, and read no plainer.
fn eighths_candidate(
    best: Best,
    k: usize,
    step: usize,
    centre: Offset,
    corner: Offset,
    block: &[u16],
    highs: &[u16],
    lows: &[u16],
) -> Best
    requires fine_bytes { inner.FineBytes block.now highs.now lows.now }
    requires roomy { Roomy 3 54 corner.y corner.x }
    requires steady { Steady step corner centre }
    requires k_bound { (k < 9) × (best.rows ≤ 10000) }
    ensures { Next 16 best.rows (step_turn corner centre step block.now (window_from highs.now lows.now) k best) result }
{
    if k == STEP_SQUARE / 2 {
        return best;
    }
    let y = centre.y + k / STEP_SIDE * step - step;
    let x = centre.x + k % STEP_SIDE * step - step;
    let by = Offset { y, x };
    let new = eighths::sad_subpel(best.cost, block, highs, lows, corner, by);
    stage::better(best, new, by)
}

// The eight neighbours of the best held when the step begins.
fn eighths_step(
    start: Best,
    step: usize,
    corner: Offset,
    block: &[u16],
    highs: &[u16],
    lows: &[u16],
) -> Best
    requires fine_bytes { inner.FineBytes block.now highs.now lows.now }
    requires roomy { Roomy 3 54 corner.y corner.x }
    requires steady { Steady step corner (inner.at start.y start.x) }
    requires rows_bound { start.rows ≤ 1000 }
    ensures next { Next 144 start.rows (step_in corner step block.now (window_from highs.now lows.now) start) result }
    ensures lies { Lies step start.y start.x result.y result.x }
{
    if start.cost == 0 {
        return stage::idle(start, STEP_SQUARE - 1);
    }
    let centre = Offset {
        y: start.y,
        x: start.x,
    };
    let mut best = start;
    for k in 0..STEP_SQUARE {
        best = eighths_candidate(best, k, step, centre, corner, block, highs, lows);
    }
    best
}

// Steps 4, 2, 1 from a start, the window by its bytes.
pub fn steps(first: Best, corner: Offset, block: &[u16], window: &[u16]) -> Best
    requires fine { Fine block.now window.now }
    requires roomy { Roomy 3 54 corner.y corner.x }
    requires steady { Steady 7 corner (inner.at first.y first.x) }
    requires rows_bound { first.rows ≤ 16 }
    ensures next { Next 432 first.rows (inner.steps_in corner block.now window.now first) result }
    ensures lies { Lies 7 first.y first.x result.y result.x }
{
    let mut highs = [0u16; 576];
    eighths_row::highs_of(window, &mut highs);
    let mut lows = [0u16; 576];
    eighths_row::lows_of(window, &mut lows);
    let by_4 = eighths_step(first, 4, corner, block, &highs, &lows);
    let by_2 = eighths_step(by_4, 2, corner, block, &highs, &lows);
    eighths_step(by_2, 1, corner, block, &highs, &lows)
}
