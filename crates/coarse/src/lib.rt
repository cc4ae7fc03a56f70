// The coarse stage of the search for one block (docs/RULES.md, 'Search' and 'Rows added'): 8×8 on half
// planes, from (0, 0), all offsets within 12. The code holds a motion as the signed one plus 12. Eight
// candidates side by side are tried at once; where one of them is below the best, one by one.
#![tactic(auto)]

ghost use Rattle.std.specs.Prelude.{◌+◌, ◌*◌, ◌-◌, ◌≤◌, ◌<◌};
ghost use Rattle.laws.specs.Loops.{run};
ghost use Rattle.stage.specs.Early.{coarse_early};
ghost use Rattle.stage.specs.Inner as inner;
ghost use Rattle.stage.specs.Inner.{coarse_turn, coarse_in};
ghost use Rattle.stage.specs.Inner.{Next, Coarse, Planes, Block, Leads};

use cost::whole;
use cost::whole::COARSE_WINDOW;
use lanes::LANES;
use plane::{HALF_BLOCK, Offset, Place};
use stage::{Best, NO_BEST};

const COARSE_BIAS: usize = 12;

// The offsets in a row and in all; the middle one is the start.
const COARSE_SIDE: usize = 25;

const COARSE_SQUARE: usize = 625;

fn coarse_candidate(best: Best, y: usize, x: usize, block: &[u16], window: &[u16]) -> Best
    requires coarse { Coarse block.now window.now }
    requires y_bound { (y < 25) × (x < 25) }
    requires rows_bound { best.rows ≤ 10000 }
    ensures { Next 8 best.rows (coarse_turn block.now window.now (y * 25 + x) best) result }
{
    if y * COARSE_SIDE + x == COARSE_SQUARE / 2 {
        return best;
    }
    let by = Offset { y, x };
    let start = stage::offset_cost(by, COARSE_BIAS);
    let new = whole::sad_half(best.cost, start, block, window, by);
    stage::better(best, new, by)
}

// Candidates of one dy, one by one: the dx from one on and below another.
fn coarse_ones(start: Best, y: usize, from: usize, to: usize, block: &[u16], window: &[u16]) -> Best
    requires coarse { Coarse block.now window.now }
    requires y_bound { (y < 25) × (from ≤ to) }
    requires to_bound { (to ≤ 25) × (start.rows ≤ 6000) }
    ensures { Next (8 * (to - from)) start.rows (run (coarse_turn block.now window.now) (y * 25 + from) (y * 25 + to) start) result }
{
    let mut best = start;
    for x in from..to {
        best = coarse_candidate(best, y, x, block, window);
    }
    best
}

// |dx| of the candidates of one dy.
fn column_costs() -> [u32; 25]
    ensures { inner.Columns result }
{
    let mut costs = [0u32; 25];
    for (x, cost) in costs.iter_mut().enumerate() {
        *cost = stage::magnitude(x, COARSE_BIAS);
    }
    costs
}

// |dy| + |dx| of eight candidates side by side. The columns' part lies in memory, so that the compiler
// takes eight at once.
fn eight_offsets(y: usize, x: usize, columns: &[u32]) -> [u32; 8]
    requires y_bound { (y < 25) × (x ≤ 17) }
    requires columns { inner.Columns columns.now }
    ensures { inner.Offsets y x result }
{
    let row = stage::magnitude(y, COARSE_BIAS);
    let mut costs = [0u32; 8];
    for k in 0..LANES {
        costs[k] = row + columns[x + k];
    }
    costs
}

// Eight candidates side by side at once; one by one where one of them is below the best. The block, its spread, the
// window and the columns stay parameters: clauses over a struct of borrowed parts read no plainer.
fn coarse_eight(
    best: Best,
    y: usize,
    x: usize,
    low: bool,
    columns: &[u32],
    block: &[u16],
    spread: &[u16],
    window: &[u16],
) -> Best
    requires coarse { Coarse block.now window.now }
    requires spread { inner.Spread low block.now spread.now window.now columns.now }
    requires beside { inner.Beside y x }
    requires rows_bound { best.rows ≤ 6000 }
    ensures { Next 64 best.rows (run (coarse_turn block.now window.now) (y * 25 + x) (y * 25 + (x + 8)) best) result }
{
    let starts = eight_offsets(y, x, columns);
    let by = Offset { y, x };
    let counted = lanes::sad_half(best.cost, starts, low, spread, window, by);
    if counted.below == 0 {
        return Best {
            rows: best.rows + counted.rows,
            ..best
        };
    }
    coarse_ones(best, y, x, x + LANES, block, window)
}

// The candidates of one dy: three times eight and one; those beside the start one by one.
fn coarse_row(
    start: Best,
    y: usize,
    low: bool,
    columns: &[u32],
    block: &[u16],
    spread: &[u16],
    window: &[u16],
) -> Best
    requires coarse { Coarse block.now window.now }
    requires spread { inner.Spread low block.now spread.now window.now columns.now }
    requires y_bound { y < 25 }
    requires rows_bound { start.rows ≤ 8 + 200 * y }
    ensures { Next 200 start.rows (run (coarse_turn block.now window.now) (y * 25) (y * 25 + 25) start) result }
{
    if y == COARSE_BIAS {
        return coarse_ones(start, y, 0, COARSE_SIDE, block, window);
    }
    let left = coarse_eight(start, y, 0, low, columns, block, spread, window);
    let middle = coarse_eight(left, y, LANES, low, columns, block, spread, window);
    let right = coarse_eight(middle, y, 2 * LANES, low, columns, block, spread, window);
    coarse_candidate(right, y, 3 * LANES, block, window)
}

// All offsets within 12, from a start that isn't 0.
fn coarse_rows(start: Best, block: &[u16], window: &[u16]) -> Best
    requires coarse { Coarse block.now window.now }
    requires rows_bound { start.rows ≤ 8 }
    ensures { Next 5000 start.rows (run (coarse_turn block.now window.now) 0 625 start) result }
{
    let low = lanes::both_low(block, window);
    let mut spread = [0u16; 512];
    lanes::spread(block, &mut spread);
    let columns = column_costs();
    let mut best = start;
    for y in 0..COARSE_SIDE {
        best = coarse_row(best, y, low, &columns, block, &spread, window);
    }
    best
}

fn coarse_scan(block: &[u16], window: &[u16]) -> Best
    requires { Coarse block.now window.now }
    ensures { Next 5008 0 (coarse_in block.now window.now) result }
{
    let by = Offset {
        y: COARSE_BIAS,
        x: COARSE_BIAS,
    };
    let start = whole::sad_half(NO_BEST, 0, block, window, by);
    let first = Best {
        cost: start.cost,
        y: COARSE_BIAS,
        x: COARSE_BIAS,
        rows: start.rows,
    };
    if first.cost == 0 {
        return stage::idle(first, COARSE_SQUARE - 1);
    }
    coarse_rows(first, block, window)
}

// 8×8 on half planes, from (0, 0), all offsets within 12.
pub fn coarse(input: &[u16], reference: &[u16], place: Place) -> Best
    requires planes { Planes input.now reference.now place }
    requires block { Block 8 place }
    ensures { Leads 12 24 5008 (coarse_early input.now reference.now place) result }
{
    let none = Offset { y: 0, x: 0 };
    let mut block = [0u16; 64];
    plane::window(input, place, none, 0, HALF_BLOCK, &mut block);
    let mut window = [0u16; 1024];
    plane::window(
        reference,
        place,
        none,
        COARSE_BIAS,
        COARSE_WINDOW,
        &mut window,
    );
    coarse_scan(&block, &window)
}
