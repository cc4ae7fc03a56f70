// The four shear numbers of a warp and whether a decoder keeps it (clause 7.11.3.6 of the standard, whose
// names it has): each clamped to 16 bits and reduced, and two weighed sums under 1. Answers to
// docs/RULES.md, 'Shear'.
#![tactic(auto)]

ghost use Rattle.std.specs.Prelude.{◌≡◌, ◌+◌, ◌*◌, ◌<◌, ◌≤◌, nat_abs};
ghost use Rattle.warp.specs.Shear.{clamped, reduced, alpha0, gamma0, delta0, warp_valid};
ghost use Rattle.warp.specs.Inner.{Linear, Weighed, Clamped};
ghost use Rattle.divisor.specs.Inner.{Reach};

// 1 << WARPEDMODEL_PREC_BITS: what stands for 1.
const UNIT: i64 = 65536;

const WARP_PARAM_REDUCE_BITS: u32 = 6;

// To the range of 16 bits.
#[tactic(auto, unfolding(crate::specs::Shear::clamped))]
pub fn clamp(x: i64) -> i64
    ensures is { result ≡ clamped x }
    ensures small { nat_abs result ≤ 32768 }
{
    x.clamp(-32768, 32767)
}

// To a multiple of 64.
#[tactic(auto, unfolding(crate::specs::Shear::reduced))]
pub fn reduce(x: i64) -> i64
    requires { nat_abs x ≤ 32768 }
    ensures is { result ≡ reduced x }
    ensures small { nat_abs result ≤ 32768 }
{
    divisor::product(divisor::round2_signed(x, WARP_PARAM_REDUCE_BITS), 64)
}

#[tactic(auto, unfolding(crate::specs::Shear::alpha0))]
pub fn alpha0(p2: i64) -> i64
    requires { Reach p2 }
    ensures is { result ≡ alpha0 p2 }
    ensures small { nat_abs result ≤ 32768 }
{
    clamp(p2 - UNIT)
}

#[tactic(auto, unfolding(crate::specs::Shear::gamma0))]
pub fn gamma0(p2: i64, p4: i64) -> i64
    requires { Reach p2 × (nat_abs p4 ≤ 8192) }
    ensures is { result ≡ gamma0 p2 p4 }
    ensures small { nat_abs result ≤ 32768 }
{
    clamp(divisor::divided_by(p2, divisor::product(p4, UNIT)))
}

#[tactic(auto, unfolding(crate::specs::Shear::delta0))]
pub fn delta0(p2: i64, p3: i64, p4: i64, p5: i64) -> i64
    requires { Linear p2 p3 p4 p5 }
    ensures is { result ≡ delta0 p2 p3 p4 p5 }
    ensures small { nat_abs result ≤ 32768 }
{
    clamp(p5 - divisor::divided_by(p2, divisor::product(p3, p4)) - UNIT)
}

fn weighed(x: i64, y: i64, weight: u64) -> u64
    requires { Weighed x y weight }
    ensures { result ≡ 4 * nat_abs x + weight * nat_abs y }
{
    4 * grid::magnitude(x) + weight * grid::magnitude(y)
}

// 1 where both sums are under 65536, which stands for 1.
#[tactic(auto, unfolding(crate::specs::Shear::warp_valid))]
pub fn warp_valid(alpha: i64, beta: i64, gamma: i64, delta: i64) -> u32
    requires { Clamped alpha beta gamma delta }
    ensures { result ≡ warp_valid alpha beta gamma delta }
{
    (weighed(alpha, beta, 7) < 65536 && weighed(gamma, delta, 4) < 65536) as u32
}
