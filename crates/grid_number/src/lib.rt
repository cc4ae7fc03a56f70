// The grid number of a binary64: any number goes in, the i32 nearest to its product with 65536 comes
// out, half away from zero. Answers to docs/RULES.md, 'Fits and score' (Grid number), and to the two
// lines of `quantize_model` that round and clamp (encoder/global_motion.rs).
#![tactic(auto)]

ghost use Rattle.std.specs.Prelude.{◌≡◌, ◌≤◌, true, false, T};
ghost use Rattle.std.specs.Float.{binary64};
ghost use Rattle.std.specs.Float.Ieee.{fits, lt};
ghost use Rattle.laws.specs.Binary64.{nought};
ghost use Rattle.grid_number.specs.GridNumber.{limit, magnitude, held, grid_number};

// docs/RULES.md, 'Grid number': one at 16 fraction bits, and 2^31, from which on a magnitude is held.
pub const SCALE: f64 = 65536.0;

const LIMIT: f64 = 2147483648.0;

const LIMIT_MAGNITUDE: u64 = 2147483648;

// A magnitude above zero, rounded half away from zero, at most 2^31. Twice a number below 2^31 is
// exact, so half of one more than its whole part is the number rounded.
fn rounded_magnitude(y: f64) -> u64
    requires t { T (fits binary64 y) }
    requires y_value { lt nought y ≡ true }
    ensures { (result ≡ magnitude y) × (result ≤ limit) }
{
    if y < LIMIT {
        return (std::num::truncating_f64_to_u64(y + y) + 1) / 2;
    }
    LIMIT_MAGNITUDE
}

fn held_above(size: u64) -> i32
    ensures { result ≡ held false size }
{
    if size < LIMIT_MAGNITUDE {
        return size as i32;
    }
    2147483647
}

fn held_below(size: u64) -> i32
    requires { size ≤ limit }
    ensures { result ≡ held true size }
{
    grid::with_sign(true, size) as i32
}

// The nearest number at 16 fraction bits, half away from zero, in the i32 range; 0 for a
// not-a-number.
pub fn grid_number(value: f64) -> i32
    ensures { result ≡ grid_number value }
{
    let y = value * SCALE;
    if y > 0.0 {
        return held_above(rounded_magnitude(y));
    }
    if y < 0.0 {
        return held_below(rounded_magnitude(-y));
    }
    0
}
