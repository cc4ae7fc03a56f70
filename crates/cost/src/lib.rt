// The sums of absolute differences of the search (docs/RULES.md, 'Search'; the closures `sad_half` and
// `sad_int` of the Rust's `collect_motion_samples`; `sad_half` of eight candidates at once is the crate
// `lanes`, `sad_subpel` the crate `eighths`). In go the best cost so far, a block of the input, a window of the reference and where in it the
// block is laid; out come the cost and the rows added. A sum ends after the first row that brings it,
// with the offset cost that it begins at, to the best so far or above.
#![tactic(auto)]

pub mod whole; // whole.rt: 8×8 on half planes and 16×16 on planes, by whole pels

// A sum and how many rows were added to it.
#[derive(Clone, Copy)]
pub struct Added {
    pub cost: u32,
    pub rows: u32,
}
