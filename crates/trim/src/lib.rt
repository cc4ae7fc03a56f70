// A fit after trimming (`candidate_for`, encoder/global_motion.rs; docs/RULES.md, 'Trimming', rows 1, 4, 6,
// 15 and 16): the cutoff, its limit and the refusals, for words and for samples held as numbers. The root
// rises, so the residuals' median is the root of their squares' median, and a residual is at most the
// cutoff where its square is at most the greatest number whose root is: a call takes four roots, however
// many samples there are.
#![tactic(auto)]

ghost use Rattle.std.specs.Prelude.{◌≡◌, map, ◌≤◌, ◌<◌, length, take};
ghost use Rattle.median.specs.Inner.{Findable};
ghost use Rattle.root.specs.Root.{root};
ghost use Rattle.median.specs.Median.{all_finite};
ghost use Rattle.refusal.specs.Number.{refusal_number};
ghost use Rattle.trim.specs.Trim.{least_of, continuous_fit, cutoff, few_refusal};
ghost use Rattle.trim.specs.Inner.{list_refusal, model_refusal, refused_model, Bare, Limits};

use fit::{Fitted, ROTZOOM, TRANSLATION};
use refusal::Refusal;
use score::ContinuousModel;

// The fewest samples of each type.
const LEAST_TRANSLATION: usize = 4;

const LEAST_ROTZOOM: usize = 6;

const LEAST_AFFINE: usize = 8;

// The pattern of infinity.
pub const INFINITE: u64 = 0x7ff0_0000_0000_0000;

// So many patterns above the square of a cutoff no square is at most the limit.
const BESIDE: u64 = 2;

// A pattern below this has one of a finite number so far above it.
const FAR: u64 = 0x7fef_ffff_ffff_fffe;

// The last fit made, or a refusal, and how many samples it used.
#[derive(Clone, Copy)]
pub struct Trimmed {
    pub fitted: Fitted,
    pub used: u32,
}

// A row of the table of refusals (0: none), how many samples the last fit used, and its model on the
// grid, x first.
#[repr(C)]
#[derive(Clone, Copy, Debug, PartialEq, Eq)]
pub struct TrimmedModel {
    pub refusal: u32,
    pub used: u32,
    pub params: [i32; 6],
}

// The same as `Trimmed`, and the limit that the used samples' squared residuals are under.
#[derive(Clone, Copy)]
pub struct Cut {
    pub fitted: Fitted,
    pub used: u32,
    pub limit: f64,
}

// ---- residuals

pub fn continuous_fit(fitted: Fitted) -> ContinuousModel
    ensures { result ≡ continuous_fit fitted }
{
    match fitted {
        Fitted::Refused(_) => ContinuousModel {
            m0: 0.0,
            m1: 0.0,
            m2: 1.0,
            m3: 0.0,
            m4: 0.0,
            m5: 1.0,
        },
        Fitted::Translation { m0, m1 } => ContinuousModel {
            m0,
            m1,
            m2: 1.0,
            m3: 0.0,
            m4: 0.0,
            m5: 1.0,
        },
        Fitted::RotZoom { m0, m1, m2, m3 } => ContinuousModel {
            m0,
            m1,
            m2,
            m3,
            m4: -m3,
            m5: m2,
        },
        Fitted::Affine {
            m0,
            m1,
            m2,
            m3,
            m4,
            m5,
        } => ContinuousModel {
            m0,
            m1,
            m2,
            m3,
            m4,
            m5,
        },
    }
}

// ---- the trim

pub fn least_of(gm_type: u8) -> usize
    ensures { result ≡ least_of gm_type }
{
    if gm_type == TRANSLATION {
        return LEAST_TRANSLATION;
    }
    if gm_type == ROTZOOM {
        return LEAST_ROTZOOM;
    }
    LEAST_AFFINE
}

pub fn all_finite(squares: &[f64], n: usize) -> bool
    requires { n ≤ length squares.now }
    ensures { result ≡ all_finite (take n squares.now) }
{
    median::all_finite(&squares[..n])
}

// The greater of three medians and 1.0; the median is that of the roots.
fn cutoff_of(squares: &[f64], n: usize) -> f64
    requires n_in_bounds { n ≤ length squares.now }
    requires findable { Findable (take n squares.now) }
    ensures { result ≡ cutoff (map root (take n squares.now)) }
{
    let three = 3.0 * root::root(median::median(&squares[..n]));
    if three < 1.0 {
        return 1.0;
    }
    three
}

// Where to cut next between lo and hi: first above a guess and then at it, where it lies between them,
// otherwise in the middle.
fn between(lo: u64, hi: u64, guess: u64) -> u64
    requires { lo < hi }
    ensures lower_bound { lo ≤ result }
    ensures upper_bound { result < hi }
{
    if hi == INFINITE && guess >= lo && guess < FAR {
        return guess + BESIDE;
    }
    if lo == 0 && guess < hi {
        return guess;
    }
    lo + (hi - lo) / 2
}

// The pattern of a number's square, or 0.
fn square_pattern(x: f64) -> u64 {
    let square = x * x;
    if square > 0.0 {
        return f64::to_bits(square);
    }
    0
}

// The greatest finite number whose root is at most the cutoff, by bisecting the patterns: the root of
// each below lo is, and of none from hi on. Minus infinity where there is none. It is
// the cutoff's square or the next number, so the search begins there.
fn square_limit(cutoff: f64) -> f64
    requires { Bare cutoff }
    ensures { Limits cutoff result }
{
    let guess = square_pattern(cutoff);
    let mut lo = 0u64;
    let mut hi = INFINITE;
    while lo < hi {
        let mid = between(lo, hi, guess);
        if root::root(f64::from_bits(mid)) <= cutoff {
            lo = mid + 1;
        } else {
            hi = mid;
        }
    }
    if lo == 0 {
        return -f64::from_bits(INFINITE);
    }
    f64::from_bits(lo - 1)
}

// A residual is at most the cutoff where its square is at most this.
pub fn limit_of(squares: &[f64], n: usize) -> f64
    requires n_in_bounds { n ≤ length squares.now }
    requires findable { Findable (take n squares.now) }
    ensures { Limits (cutoff (map root (take n squares.now))) result }
{
    square_limit(cutoff_of(squares, n))
}

// ---- the calls

// Row 15: fewer samples than the least of the type.
fn few_refusal(gm_type: u8, samples: usize) -> Result<(), Refusal>
    ensures { refusal_number result ≡ few_refusal gm_type samples }
{
    if samples < least_of(gm_type) {
        return Err(Refusal::TooFew);
    }
    Ok(())
}

pub fn list_refusal(gm_type: u8, samples: usize) -> Result<(), Refusal>
    ensures { refusal_number result ≡ list_refusal gm_type samples }
{
    fit::fit_refusal(gm_type, samples)?;
    few_refusal(gm_type, samples)
}

pub fn model_refusal(gm_type: u8, flag: u8, samples: usize) -> Result<(), Refusal>
    ensures { refusal_number result ≡ model_refusal gm_type flag samples }
{
    fit::fit_refusal(gm_type, samples)?;
    if flag > 1 {
        return Err(Refusal::NoSuchCode);
    }
    few_refusal(gm_type, samples)
}

pub fn refused_model(number: u32) -> TrimmedModel
    ensures { result ≡ refused_model number }
{
    TrimmedModel {
        refusal: number,
        used: 0,
        params: [0; 6],
    }
}
