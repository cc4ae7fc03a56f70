// Costs by whole pels: 8×8 on half planes (`sad_half`) and 16×16 on planes (`sad_int`).
ghost use Rattle.std.specs.Prelude.{◌≤◌};
ghost use Rattle.plane.specs.Inner.{Is};
ghost use Rattle.cost.specs.Ended.{ended};
ghost use Rattle.cost.specs.Inner.{row_difference, window_costs, Rows, Framed, Sums};

use crate::Added;
use plane::{BLOCK, HALF_BLOCK, Offset};

// The sides of the windows: 8 pels and 12 on each side; 16 pels and 4 on each side.
pub const COARSE_WINDOW: usize = 32;

pub const FINE_WINDOW: usize = 24;

// By how much N pels differ from N others.
pub fn row_difference<const N: usize>(a: &[u16], b: &[u16]) -> u32
    requires few { N ≤ 16 }
    requires rows { Rows N a.now b.now }
    ensures { Is (row_difference N a.now b.now) 1048560 result }
{
    let mut cost: u32 = 0;
    for j in 0..N {
        cost += plane::absolute_difference(a[j], b[j]);
    }
    cost
}

// The cost of an N×N block laid on a window of a plane, from the offset cost on.
fn sad<const N: usize, const SIDE: usize>(
    best: u32,
    start: u32,
    block: &[u16],
    window: &[u16],
    at: Offset,
) -> Added
    requires few { N ≤ 16 }
    requires small { SIDE ≤ 32 }
    requires framed { Framed N SIDE block.now window.now at.y at.x }
    requires start_bound { start ≤ 512 }
    ensures { Sums N (ended best start 0 (window_costs N SIDE block.now window.now at.y at.x)) result }
{
    let mut cost = start;
    for i in 0..N {
        let a = i * N;
        let b = (at.y + i) * SIDE + at.x;
        cost += row_difference::<N>(&block[a..a + N], &window[b..b + N]);
        if best <= cost {
            return Added {
                cost,
                rows: i as u32 + 1,
            };
        }
    }
    Added {
        cost,
        rows: N as u32,
    }
}

// The cost of an 8×8 block laid on a window of a half plane, from the offset cost on.
pub fn sad_half(best: u32, start: u32, block: &[u16], window: &[u16], at: Offset) -> Added
    requires framed { Framed 8 32 block.now window.now at.y at.x }
    requires start_bound { start ≤ 512 }
    ensures { Sums 8 (ended best start 0 (window_costs 8 32 block.now window.now at.y at.x)) result }
{
    sad::<HALF_BLOCK, COARSE_WINDOW>(best, start, block, window, at)
}

// The cost of a 16×16 block laid on a window of a plane, from the offset cost on.
pub fn sad_int(best: u32, start: u32, block: &[u16], window: &[u16], at: Offset) -> Added
    requires framed { Framed 16 24 block.now window.now at.y at.x }
    requires start_bound { start ≤ 512 }
    ensures { Sums 16 (ended best start 0 (window_costs 16 24 block.now window.now at.y at.x)) result }
{
    sad::<BLOCK, FINE_WINDOW>(best, start, block, window, at)
}
