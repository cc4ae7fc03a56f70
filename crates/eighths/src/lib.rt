// The cost between pels: 16×16, bilinear at eighths (docs/RULES.md, 'Search'; the closure `sad_subpel` of
// the Rust's `collect_motion_samples`). In go the best cost so far, a block of the input, the high and the
// low bytes of a window of the reference and a motion; out come the cost and the rows added.
#![tactic(auto)]

ghost use Rattle.std.specs.Prelude.{◌+◌, ◌/◌, ◌%◌};
ghost use Rattle.cost.specs.Ended.{ended};
ghost use Rattle.cost.specs.Inner.{bilinear_window_costs, Sums};
ghost use Rattle.blend.specs.Inner.{window_from, Aimed};

use cost::Added;
use cost::whole::FINE_WINDOW;
use eighths_row::TWO_ROWS;
use plane::{BLOCK, Offset};

// Eighths in a pel.
const EIGHTHS: usize = 8;

// The window has 4 pels before the place at the corner's offset, which is biased by 27. A stored motion
// is its eighths plus 223; one more makes it whole pels plus 28, and a fraction.
const BEFORE: usize = 3;

// The cost of a 16×16 block laid on a window, at a motion in eighths biased by 223.
pub fn sad_subpel(
    best: u32,
    block: &[u16],
    highs: &[u16],
    lows: &[u16],
    corner: Offset,
    motion: Offset,
) -> Added
    requires { Aimed block.now highs.now lows.now corner motion }
    ensures { Sums 16 (ended best 0 0 (bilinear_window_costs block.now (window_from highs.now lows.now) corner motion)) result }
{
    let y = (motion.y + 1) / EIGHTHS + BEFORE - corner.y;
    let x = (motion.x + 1) / EIGHTHS + BEFORE - corner.x;
    let fy = ((motion.y + 1) % EIGHTHS) as u16;
    let fx = ((motion.x + 1) % EIGHTHS) as u16;
    let mut cost = 0;
    for i in 0..BLOCK {
        let a = i * BLOCK;
        let b = (y + i) * FINE_WINDOW + x;
        let row = eighths_row::predicted_row(
            fy,
            fx,
            &highs[b..b + TWO_ROWS],
            &lows[b..b + TWO_ROWS],
        );
        cost += eighths_row::row_of_16(&block[a..a + BLOCK], row);
        if best <= cost {
            return Added {
                cost,
                rows: i as u32 + 1,
            };
        }
    }
    Added {
        cost,
        rows: BLOCK as u32,
    }
}
