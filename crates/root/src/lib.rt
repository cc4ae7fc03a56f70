// The root of a binary64, correctly rounded. Any number goes in; the binary64 nearest to its root comes
// out, a zero and plus infinity as they are, and a not-a-number for what has no root. Answers to
// docs/RULES.md, 'Fits and score' (Root). The language has no root of its own: a guess by binary64
// arithmetic is mended by comparing whole-number squares, so any guess gives the root and a good one
// gives it in two turns.
#![tactic(auto)]

ghost use Rattle.std.specs.Prelude.{◌≡◌, ◌+◌, ◌*◌, ◌≤◌, ◌<◌};
ghost use Rattle.std.specs.Float.{binary64};
ghost use Rattle.std.specs.Float.Ieee.{of_bits};
ghost use Rattle.root.specs.Root.{root, nearest_root};
ghost use Rattle.root.specs.Inner.{leading, Significand, Tall, middle, significand_root};

// The weight of a significand's leading digit, 2^52, and half a significand, 2^26.
const LEADING: u64 = 4503599627370496;

const HALF: u64 = 67108864;

// The pattern of plus infinity.
const INFINITY: u64 = 0x7ff0_0000_0000_0000;

// Less half a number's pattern, it is nearly the pattern of one over the number's root.
const INVERSE_ROOT: u64 = 0x5fe6_eb50_c7b5_37a9;

// The whole part of k (k + 1) / 2^52: what a number t has to exceed for the root of t * 2^52 to lie
// above the middle between k and k + 1. By halves of k, since k (k + 1) has 106 digits.
fn middle_squared(k: u64) -> u64
    requires { k < 2 * leading }
    ensures { result ≡ middle k }
{
    let high = k / HALF;
    let low = k % HALF;
    high * high + (2 * high * low + (low * low + k) / HALF) / HALF
}

// Newton's step to one over a root; `half` is half the number.
fn refined(half: f64, y: f64) -> f64 {
    y * (1.5 - half * (y * y))
}

// A guess at the digits of the root of m / 2^52, or of twice that: Newton's steps, and one more from
// what the square leaves over. Nothing hangs on it but time. The leading digit of m adds one to the
// pattern's exponent, which is 1023 for 1.0.
fn guess(m: u64, odd: u64) -> u64
    requires significand { Significand m }
    requires odd_bound { odd ≤ 1 }
{
    let pattern = m + (1022 + odd) * LEADING;
    let x = f64::from_bits(pattern);
    let half = x * 0.5;
    let first = f64::from_bits(INVERSE_ROOT - pattern / 2);
    let y = refined(half, refined(half, refined(half, refined(half, first))));
    let near = x * y;
    let nearer = near + (x - near * near) * (y * 0.5);
    if nearer > 1.0 {
        if nearer < 2.0 {
            return f64::to_bits(nearer) % LEADING + LEADING;
        }
        return 2 * LEADING - 1;
    }
    LEADING
}

// The wish where it lies between the two, and otherwise the number halfway.
fn between(low: u64, high: u64, wish: u64) -> u64
    requires { low + 1 < high }
    ensures { (low < result) × (result < high) }
{
    if low < wish && wish < high {
        return wish;
    }
    low + (high - low) / 2
}

// The whole number nearest to the root of tall * 2^52: the least that isn't too low. Away from the
// guess the steps double, then what lies between the bounds is halved: about a hundred turns at most.
fn nearest_root(tall: u64, guess: u64) -> u64
    requires { Tall tall }
    ensures { result ≡ nearest_root (tall * leading) }
{
    let mut low = LEADING - 1;
    let mut high = 2 * LEADING;
    let mut wish = guess;
    let mut step: u64 = 1;
    while high - low > 1 {
        let k = between(low, high, wish);
        if middle_squared(k) < tall {
            low = k;
            wish = k + step;
        } else {
            high = k;
            wish = k - step;
        }
        step = (step + step) % LEADING;
    }
    high
}

// The root of m * 2^power / 2^1126: half the power moves out, and an odd one leaves a factor of two
// inside. It is k * 2^(power / 2 + 485) in units of 2^-1074, and k's leading digit adds one to the
// pattern's exponent.
fn significand_root(m: u64, power: u64) -> f64
    requires significand { Significand m }
    requires power_bound { power < 2098 }
    ensures { result ≡ significand_root m power }
{
    let odd = power % 2;
    let tall = m * (1 + odd);
    let k = nearest_root(tall, guess(m, odd));
    f64::from_bits((power / 2 + 485) * LEADING + k)
}

// The root of a number whose digits have no leading one: doubled until they have.
fn subnormal_root(pattern: u64) -> f64
    requires { (0 < pattern) × (pattern < leading) }
    ensures { result ≡ root (of_bits binary64 pattern) }
{
    let mut m = pattern;
    let mut power: u64 = 52;
    while m < LEADING {
        m = m + m;
        power -= 1;
    }
    significand_root(m, power)
}

// The correctly rounded root. A zero, plus infinity and a not-a-number are their own roots.
pub fn root(x: f64) -> f64
    ensures { result ≡ root x }
{
    if x > 0.0 {
        let pattern = f64::to_bits(x);
        if pattern < LEADING {
            return subnormal_root(pattern);
        }
        if pattern < INFINITY {
            return significand_root(pattern % LEADING + LEADING, pattern / LEADING + 51);
        }
        return x;
    }
    if x < 0.0 {
        return 0.0 / 0.0;
    }
    x
}
