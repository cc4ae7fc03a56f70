// Eight coarse candidates at once (docs/RULES.md, 'Search' and 'Rows added'; the closure `sad_half` of the
// Rust's `collect_motion_samples`). Lane k is the candidate k columns further right. In go the best cost
// so far, the offset costs that the lanes begin at, a block with each pel once for each lane, a window of
// the reference and where in it lane 0 is laid; out come the rows that the eight add together, each as far
// as it goes alone, and how many of them end below the best. Where no pel is over 8,191 a row of eight
// pels fits 16 bits, and half as many steps add it.
#![tactic(auto)]

ghost use Rattle.std.specs.Prelude.{◌≡◌, ◌*◌, ◌≤◌, ◌<◌, length, get_or};
ghost use Rattle.laws.specs.Loops.{sum};
ghost use Rattle.plane.specs.Difference.{difference};
ghost use Rattle.plane.specs.Inner.{Is};
ghost use Rattle.cost.specs.Ended.{ended};
ghost use Rattle.cost.specs.Inner.{AtMost};
ghost use Rattle.lanes.specs.Inner.{live, spread_of, lane_row, lane_costs, LaneRow, IfLow, LowSums, Room, Grown, Starts, Laned, Counts};

use cost::whole::COARSE_WINDOW;
use plane::{HALF_BLOCK, Offset};

// Lanes, pels of a row of the block once for each lane, and pels of the window that the lanes of a row reach.
pub const LANES: usize = 8;

const SPREAD_ROW: usize = 64;

const REACHED: usize = 15;

// The greatest pel of which eight fit 16 bits.
const LOW: u16 = 8191;

// Rows that eight candidates add together, and how many of the eight end below the best.
#[derive(Clone, Copy)]
pub struct Counted {
    pub rows: u32,
    pub below: u32,
}

// Each pel of a block once for each lane.
pub fn spread(block: &[u16], out: &mut [u16])
    requires { length out.old ≡ 8 * length block.now }
    ensures { out.new ≡ spread_of block.now }
{
    for (i, lane) in out.iter_mut().enumerate() {
        *lane = block[i / LANES];
    }
}

// No pel is over 8,191.
fn all_low(pels: &[u16]) -> bool
    ensures { IfLow result pels.now }
{
    let mut highest: u16 = 0;
    for pel in pels {
        highest = highest.max(*pel);
    }
    highest <= LOW
}

// Neither a pel of the block nor one of the window is.
pub fn both_low(block: &[u16], window: &[u16]) -> bool
    ensures if_low { IfLow result block.now }
    ensures if_low_2 { IfLow result window.now }
{
    all_low(block) && all_low(window)
}

// A row of lane k.
fn lane(k: usize, row: &[u16], part: &[u16]) -> u32
    requires lane_row { LaneRow row.now part.now }
    requires k_bound { k < 8 }
    ensures { Is (lane_row row.now part.now k) 524280 result }
{
    let mut cost: u32 = 0;
    for j in 0..HALF_BLOCK {
        cost += plane::absolute_difference(row[LANES * j + k], part[j + k]);
    }
    cost
}

// The same in 16 bits: a function of its own, since one over both widths needs a trait for two lines of body, and is
// no plainer.
fn low_lane(k: usize, row: &[u16], part: &[u16]) -> u16
    requires lane_row { LaneRow row.now part.now }
    requires at_most { AtMost 8191 row.now }
    requires at_most_2 { AtMost 8191 part.now }
    requires k_bound { k < 8 }
    ensures { Is (lane_row row.now part.now k) 65528 result }
{
    let mut cost: u16 = 0;
    for j in 0..HALF_BLOCK {
        cost += row[LANES * j + k].abs_diff(part[j + k]);
    }
    cost
}

// The costs with a row of each lane added.
fn wide_row(costs: [u32; 8], row: &[u16], part: &[u16]) -> [u32; 8]
    requires lane_row { LaneRow row.now part.now }
    requires room { Room costs }
    ensures { Grown costs row.now part.now result }
{
    let mut sums = [0u32; 8];
    for k in 0..LANES {
        sums[k] = costs[k] + lane(k, row, part);
    }
    sums
}

fn low_sums(row: &[u16], part: &[u16]) -> [u16; 8]
    requires lane_row { LaneRow row.now part.now }
    requires at_most { AtMost 8191 row.now }
    requires at_most_2 { AtMost 8191 part.now }
    ensures { LowSums row.now part.now result }
{
    let mut sums = [0u16; 8];
    for k in 0..LANES {
        sums[k] = low_lane(k, row, part);
    }
    sums
}

// The same by sums in 16 bits. Two loops, so that the compiler adds eight lanes at once.
fn low_row(costs: [u32; 8], row: &[u16], part: &[u16]) -> [u32; 8]
    requires lane_row { LaneRow row.now part.now }
    requires at_most { AtMost 8191 row.now }
    requires at_most_2 { AtMost 8191 part.now }
    requires room { Room costs }
    ensures { Grown costs row.now part.now result }
{
    let lanes = low_sums(row, part);
    let mut sums = [0u32; 8];
    for k in 0..LANES {
        sums[k] = costs[k] + lanes[k] as u32;
    }
    sums
}

fn next_row(low: bool, costs: [u32; 8], row: &[u16], part: &[u16]) -> [u32; 8]
    requires lane_row { LaneRow row.now part.now }
    requires if_low { IfLow low row.now }
    requires if_low_2 { IfLow low part.now }
    requires room { Room costs }
    ensures { Grown costs row.now part.now result }
{
    if low {
        low_row(costs, row, part)
    } else {
        wide_row(costs, row, part)
    }
}

fn count_below(best: u32, costs: [u32; 8]) -> u32
    ensures { Is (sum (λ k. live best (get_or costs k 0)) 8) 8 result }
{
    let mut below: u32 = 0;
    for cost in costs {
        below += u32::from(cost < best);
    }
    below
}

// Eight 8×8 candidates side by side, each from its own offset cost on: a row counts for every lane
// that is still below the best, and the first for all.
pub fn sad_half(
    best: u32,
    starts: [u32; 8],
    low: bool,
    spread: &[u16],
    window: &[u16],
    at: Offset,
) -> Counted
    requires laned { Laned spread.now window.now at.y at.x }
    requires if_low { IfLow low spread.now }
    requires if_low_2 { IfLow low window.now }
    requires starts { Starts starts }
    ensures { Counts best (λ k. ended best (get_or starts k 0) 0 (lane_costs spread.now window.now at.y at.x k)) result }
{
    let mut costs = starts;
    let mut going: u32 = 8;
    let mut rows: u32 = 0;
    for i in 0..HALF_BLOCK {
        let a = i * SPREAD_ROW;
        let b = (at.y + i) * COARSE_WINDOW + at.x;
        let sums = next_row(
            low,
            costs,
            &spread[a..a + SPREAD_ROW],
            &window[b..b + REACHED],
        );
        costs = sums;
        rows += going;
        going = count_below(best, costs);
        if going == 0 {
            return Counted { rows, below: 0 };
        }
    }
    Counted { rows, below: going }
}
