// The division of a warp's numbers by slot 2 (clause 7.11.3.7 of the standard, resolve divisor), with the
// rounding of section 4.7: a table of reciprocals, its factor and its shift. Answers to docs/RULES.md,
// 'Shear'.
#![tactic(auto)]

mod table;

ghost use Rattle.std.specs.Prelude.{◌≡◌, ◌+◌, ◌*◌, ◌^◌, ◌<◌, ◌≤◌, nat_abs, ◌*ℤ◌};
ghost use Rattle.divisor.specs.Rounding.{round2, round2_signed, floor_log2};
ghost use Rattle.divisor.specs.Divisor.{lut_index, div_shift, div_factor, divided_by};
ghost use Rattle.divisor.specs.Inner.{Divisor, Exponent, Rounded, Dividing};

const DIV_LUT_BITS: u32 = 8;

const DIV_LUT_PREC_BITS: u32 = 14;

#[tactic(auto, unfolding(crate::specs::Rounding::round2))]
fn round2(x: u64, n: u32) -> u64
    requires { Rounded x n }
    ensures is { result ≡ round2 x n }
    ensures small { result < 2 ^ 62 }
{
    let divisor = grid::power_of_two(n);
    (x + divisor / 2) / divisor
}

#[tactic(auto, unfolding(crate::specs::Rounding::round2_signed))]
pub fn round2_signed(x: i64, n: u32) -> i64
    requires { Rounded (nat_abs x) n }
    ensures is { result ≡ round2_signed x n }
    ensures small { nat_abs result < 2 ^ 62 }
{
    grid::with_sign(grid::is_negative(x), round2(grid::magnitude(x), n))
}

pub fn product(x: i64, y: i64) -> i64
    requires { nat_abs x * nat_abs y < 2 ^ 61 }
    ensures { result ≡ x *ℤ y }
{
    x * y
}

// Of a number of 16 or 17 bits.
fn floor_log2(d: u64) -> u32
    requires { Divisor d }
    ensures is { result ≡ floor_log2 d }
    ensures range { Exponent result d }
{
    if d < 65536 { 15 } else { 16 }
}

// Where the table has what d holds beyond its highest bit.
fn lut_index(d: u64) -> usize
    requires { Divisor d }
    ensures is { result ≡ lut_index d }
    ensures small { result < 257 }
{
    let n = floor_log2(d);
    round2(d - grid::power_of_two(n), n - DIV_LUT_BITS) as usize
}

// Clause 7.11.3.7, its two outputs.
#[tactic(auto, unfolding(crate::specs::Divisor::div_shift))]
fn div_shift(d: i64) -> u32
    requires { Divisor (nat_abs d) }
    ensures is { result ≡ div_shift d }
    ensures small { result ≤ 30 }
{
    floor_log2(grid::magnitude(d)) + DIV_LUT_PREC_BITS
}

#[tactic(auto, unfolding(crate::specs::Divisor::div_factor))]
fn div_factor(d: i64) -> i64
    requires { Divisor (nat_abs d) }
    ensures is { result ≡ div_factor d }
    ensures small { nat_abs result ≤ 16384 }
{
    let factor = table::div_lut(lut_index(grid::magnitude(d)));
    grid::with_sign(grid::is_negative(d), factor)
}

// A number divided by slot 2, rounded.
#[tactic(auto, unfolding(crate::specs::Divisor::divided_by))]
pub fn divided_by(p2: i64, x: i64) -> i64
    requires { Dividing p2 x }
    ensures is { result ≡ divided_by p2 x }
    ensures small { nat_abs result < 2 ^ 62 }
{
    round2_signed(product(x, div_factor(p2)), div_shift(p2))
}
