// A blend of four pels at eighths (docs/RULES.md, 'Search'), by their bytes: a pel p is 256·h + l, and so is
// the blend. The weights are 64 in all, so that the high bytes blend to a multiple of 4 each and only the
// low ones are rounded. Both stay within 16 bits, where a blend of whole pels takes 22.
#![tactic(auto)]

ghost use Rattle.std.specs.Prelude.{◌≡◌, ◌+◌, ◌/◌, ◌≤◌};
ghost use Rattle.cost.specs.Inner.{Fractions};
ghost use Rattle.blend.specs.Inner.{weights_of, weighed, Four, Weighs};

// The weights of four neighbours.
#[derive(Clone, Copy)]
pub struct Weights {
    pub w00: u16,
    pub w01: u16,
    pub w10: u16,
    pub w11: u16,
}

// Weights 8 − f and f each way, so many times.
pub fn weights_at(times: u16, fy: u16, fx: u16) -> Weights
    requires { (times ≤ 4) × Fractions fy fx }
    ensures { result ≡ weights_of times fy fx }
{
    Weights {
        w00: times * ((8 - fy) * (8 - fx)),
        w01: times * ((8 - fy) * fx),
        w10: times * (fy * (8 - fx)),
        w11: times * (fy * fx),
    }
}

pub fn weigh(w: Weights, a: u16, b: u16, c: u16, d: u16) -> u16
    requires weighs { Weighs 256 w }
    requires four { Four a b c d }
    ensures { result ≡ weighed w a b c d }
{
    a * w.w00 + b * w.w01 + c * w.w10 + d * w.w11
}

// The pel that four neighbours blend to: high bytes by weights of 256 in all, low ones by 64.
pub fn blend(high: u16, low: u16) -> u16
    requires { (high ≤ 65280) × (low ≤ 16320) }
    ensures { result ≡ high + (low + 32) / 64 }
{
    high + (low + 32) / 64
}
