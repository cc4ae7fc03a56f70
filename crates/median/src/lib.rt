// The median of a list of numbers without sign, and whether each number of a list is finite
// (docs/RULES.md, 'Trimming'). The list isn't moved: numbers without sign stand in the order of their
// bit patterns, so the median's pattern is bisected by counting how many numbers lie below.
#![tactic(auto)]

ghost use Rattle.std.specs.Prelude.{◌≡◌, ◌+◌, ◌<◌};
ghost use Rattle.median.specs.Median.{median, all_finite};
ghost use Rattle.median.specs.Inner.{Findable, below};

// The pattern of infinity: those of the finite numbers without sign lie below it.
const INFINITE: u64 = 0x7ff0_0000_0000_0000;

// A list up to this length is cut at its own numbers, so that each cut leaves fewer of them.
const SHORT: usize = 64;

// A loop, which the compiler takes many numbers at a time: by `filter` and `count` an election of 4,096 words took
// three times as long.
fn count_below(values: &[f64], key: f64) -> usize
    ensures { result ≡ below key values.now }
{
    let mut count = 0usize;
    for value in values {
        if *value < key {
            count += 1;
        }
    }
    count
}

// Where to cut next between lo and hi: in the middle, and in a short list at a number of its own. Where
// none lies between them the median is lo, and the cut is the next pattern.
fn between(values: &[f64], lo: u64, hi: u64) -> u64
    requires { lo + 1 < hi }
    ensures lower_bound { lo < result }
    ensures upper_bound { result < hi }
{
    if values.len() > SHORT {
        return lo + (hi - lo) / 2;
    }
    for value in values {
        if *value > 0.0 {
            let key = value.to_bits();
            if lo < key && key < hi {
                return key;
            }
        }
    }
    lo + 1
}

pub fn median(values: &[f64]) -> f64
    requires { Findable values.now }
    ensures { result ≡ median values.now }
{
    let at = values.len() / 2;
    let mut lo = 0u64;
    let mut hi = INFINITE;
    while lo + 1 < hi {
        let mid = between(values, lo, hi);
        if count_below(values, f64::from_bits(mid)) <= at {
            lo = mid;
        } else {
            hi = mid;
        }
    }
    f64::from_bits(lo)
}

pub fn all_finite(values: &[f64]) -> bool
    ensures { result ≡ all_finite values.now }
{
    values.iter().all(|value| value.is_finite())
}
