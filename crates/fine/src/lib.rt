// The fine stages of the search for one block (docs/RULES.md, 'Search' and 'Rows added'): 16×16 on planes,
// by full pels from a centre on, then in eighths from eight times the winner. A stage copies the block and
// a window of the reference, and no candidate after that clamps a coordinate.
#![tactic(auto)]

ghost use Rattle.std.specs.Prelude.{◌+◌, ◌*◌, ◌-◌};
ghost use Rattle.plane.specs.Clamp.{offset};
ghost use Rattle.stage.specs.Early.{fine_early};
ghost use Rattle.stage.specs.Inner as inner;
ghost use Rattle.stage.specs.Inner.{refined_in};
ghost use Rattle.stage.specs.Inner.{Next, Lies, Fine, Roomy, Planes, Block, Leads};

use cost::whole;
use cost::whole::FINE_WINDOW;
use plane::{BLOCK, Offset, Place};
use stage::{Best, FULL_REACH, NO_BEST, STEP_SQUARE};

// The offset of a window's first row and column: 4 pels before the full-pel bias.
const WINDOW_BIAS: usize = 31;

// The reach of the steps in eighths.
const STEPS_REACH: usize = 7;

// 16×16 in eighths, from eight times the full pel's winner, by steps 4, 2, 1. At whole pels a blend is the
// pel itself, so the start is a sum by whole pels.
fn refine(full: Offset, corner: Offset, block: &[u16], window: &[u16]) -> Best
    requires fine { Fine block.now window.now }
    requires roomy { Roomy 3 54 corner.y corner.x }
    requires lies { Lies 3 corner.y corner.x full.y full.x }
    ensures next { Next 448 0 (refined_in corner (inner.eightfold full) block.now window.now) result }
    ensures lies_2 { Lies 7 (8 * full.y + 7) (8 * full.x + 7) result.y result.x }
{
    let at = Offset {
        y: full.y + FULL_REACH + 1 - corner.y,
        x: full.x + FULL_REACH + 1 - corner.x,
    };
    let all = whole::sad_int(NO_BEST, 0, block, window, at);
    let first = Best {
        cost: all.cost,
        y: 8 * full.y + STEPS_REACH,
        x: 8 * full.x + STEPS_REACH,
        rows: all.rows,
    };
    if first.cost == 0 {
        return stage::idle(first, 3 * (STEP_SQUARE - 1));
    }
    eighths_steps::steps(first, corner, block, window)
}

// Full pel, and eighths from eight times its winner.
fn fine_scan(centre: Offset, block: &[u16], window: &[u16]) -> Best
    requires fine { Fine block.now window.now }
    requires roomy { Roomy 3 54 centre.y centre.x }
    ensures { inner.FineIn centre block.now window.now result }
{
    let full = full_pel::full_pel(centre, block, window);
    let by = Offset {
        y: full.y,
        x: full.x,
    };
    let last = refine(by, centre, block, window);
    let rows = full.rows + last.rows;
    Best { rows: rows, ..last }
}

// 16×16 on planes, from the centre on.
pub fn fine(centre: Offset, input: &[u16], reference: &[u16], place: Place) -> Best
    requires planes { Planes input.now reference.now place }
    requires block { Block 16 place }
    requires roomy { Roomy 3 54 centre.y centre.x }
    ensures { Leads 223 446 1248 (fine_early input.now reference.now place (offset 27 centre.y) (offset 27 centre.x)) result }
{
    let none = Offset { y: 0, x: 0 };
    let mut block = [0u16; 256];
    plane::window(input, place, none, 0, BLOCK, &mut block);
    let mut window = [0u16; 576];
    plane::window(
        reference,
        place,
        centre,
        WINDOW_BIAS,
        FINE_WINDOW,
        &mut window,
    );
    fine_scan(centre, &block, &window)
}
