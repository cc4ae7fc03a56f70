// A fit after trimming over samples (docs/RULES.md, 'Trimming'). Unlike words they aren't moved, since a list
// of those that stay would take 128 kB of the stack: a sample is passed over where its squared residual is
// above a limit. Before the first fit every square is 0.0 and so is the limit.
#![tactic(auto)]

ghost use Rattle.std.specs.Prelude.{◌≡◌, ◌≤◌, length};
ghost use Rattle.laws.specs.Buffer.{onto};
ghost use Rattle.laws.specs.Loops.{fold};
ghost use Rattle.sample.specs.Word.{most_samples};
ghost use Rattle.fit.specs.Sums.{reading, sums_of, itself};
ghost use Rattle.fit.specs.Fitted.{fit_from};
ghost use Rattle.quantize.specs.Quantize.{quantized_from};
ghost use Rattle.quantize.specs.Inner.{refit_step};
ghost use Rattle.trim.specs.Trim.{trimmed_from, trimmed_model_from};
ghost use Rattle.trim.specs.Inner.{sample_at, up_to, squares_from, under, refused_cut, cut_of};
ghost use Rattle.trim.specs.Inner.{model_as, model_refusal, Under, Untrimmed, Squared, Cuts};

use fit::{AffineSums, FitSums, Fitted, ROTZOOM, RotZoomSums, TRANSLATION, TranslationSums};
use quantize::{Quantized, Refitting};
use refusal::Refusal;
use sample::{MOST_SAMPLES, MotionSample};
use score::ContinuousModel;
use trim::{Cut, INFINITE, Trimmed, TrimmedModel};

// How far each sample lies from a fit, squared.
fn residuals(fitted: Fitted, samples: &[MotionSample], squares: &mut [f64])
    requires { (length samples.now ≤ most_samples) × (length samples.now ≤ length squares.old) }
    ensures { squares.new ≡ onto (squares_from (sample_at samples.now) fitted (up_to (length samples.now))) squares.old }
{
    let m = trim::continuous_fit(fitted);
    for i in 0..samples.len() {
        squares[i] = score::residual(m, samples[i]);
    }
}

// ---- the samples under a limit

fn count_under(squares: &[f64], n: usize, limit: f64) -> usize
    requires { n ≤ length squares.now }
    ensures { result ≡ length (under squares.now limit n) }
{
    let mut count = 0usize;
    for i in 0..n {
        if limit >= squares[i] {
            count += 1;
        }
    }
    count
}

// The sums of a fit.
fn sums_under<S: FitSums>(samples: &[MotionSample], squares: &[f64], limit: f64) -> S
    requires { (length samples.now ≤ most_samples) × (length samples.now ≤ length squares.now) }
    ensures { result ≡ S.totals (sums_of (sample_at samples.now) (under squares.now limit (length samples.now))) }
{
    let mut t = S::begin();
    for i in 0..samples.len() {
        if squares[i] <= limit {
            t = t.step(samples[i]);
        }
    }
    t
}

// The fit of a type over the samples under a limit, which are so many.
fn fit_under(
    gm_type: u8,
    samples: &[MotionSample],
    squares: &[f64],
    limit: f64,
    used: usize,
) -> Fitted
    requires { Under squares.now limit (length samples.now) used }
    ensures { result ≡ fit_from (sample_at samples.now) gm_type (under squares.now limit (length samples.now)) }
{
    match gm_type {
        TRANSLATION => sums_under::<TranslationSums>(samples, squares, limit).fit(used),
        ROTZOOM => sums_under::<RotZoomSums>(samples, squares, limit).fit(used),
        _ => sums_under::<AffineSums>(samples, squares, limit).fit(used),
    }
}

// The sums of the refit against a linear part, over the samples under a limit.
fn left_under(
    m: ContinuousModel,
    begun: TranslationSums,
    samples: &[MotionSample],
    squares: &[f64],
    limit: f64,
) -> TranslationSums
    requires { (length samples.now ≤ most_samples) × (length samples.now ≤ length squares.now) }
    ensures { result ≡ fold (reading (refit_step m) (sample_at samples.now)) (under squares.now limit (length samples.now)) begun }
{
    let mut t = begun;
    for i in 0..samples.len() {
        if squares[i] <= limit {
            t = quantize::refit_step(m, t, samples[i]);
        }
    }
    t
}

// A fitted model on the grid, its translation fitted again over the samples under a limit.
fn refit_under(
    fitted: Fitted,
    flag: u8,
    samples: &[MotionSample],
    squares: &[f64],
    limit: f64,
    used: usize,
) -> Quantized
    requires { Under squares.now limit (length samples.now) used }
    ensures { result ≡ quantized_from (sample_at samples.now) fitted flag (under squares.now limit (length samples.now)) }
{
    let begun = quantize::refit_begin(fitted, flag);
    let linear = begun.linear;
    let m = begun.m;
    let sums = left_under(m, begun.sums, samples, squares, limit);
    quantize::refit_ends(
        Refitting {
            fitted,
            flag,
            linear,
            m,
            sums,
        },
        used,
    )
}

fn refused_cut(number: u32) -> Cut
    ensures { result ≡ refused_cut number }
{
    Cut {
        fitted: Fitted::Refused(number),
        used: 0,
        limit: 0.0,
    }
}

// A fit of so many samples under a limit, or its refusal.
fn cut_of(fitted: Fitted, used: usize, limit: f64) -> Cut
    requires { used ≤ most_samples }
    ensures { result ≡ cut_of fitted used limit }
{
    let own = fit::refusal_of(fitted);
    if own != 0 {
        return refused_cut(own);
    }
    Cut {
        fitted,
        used: used as u32,
        limit,
    }
}

// The fit of the samples that stay; where they are too few the first fit stands, with all samples under
// infinity.
fn second(gm_type: u8, first: Fitted, samples: &[MotionSample], squares: &[f64]) -> Cut
    requires { Squared samples.now gm_type (length samples.now) squares.now first }
    ensures { Cuts samples.now gm_type (length samples.now) squares.now result }
{
    if !trim::all_finite(squares, samples.len()) {
        return refused_cut(Refusal::NotFinite.number());
    }
    let limit = trim::limit_of(squares, samples.len());
    let kept = count_under(squares, samples.len(), limit);
    if kept < trim::least_of(gm_type) {
        return cut_of(first, samples.len(), f64::from_bits(INFINITE));
    }
    cut_of(
        fit_under(gm_type, samples, squares, limit, kept),
        kept,
        limit,
    )
}

fn trim(gm_type: u8, samples: &[MotionSample], squares: &mut [f64]) -> Cut
    requires { Untrimmed gm_type (length samples.now) squares.old }
    ensures { Cuts samples.now gm_type (length samples.now) squares.new result }
{
    let first = fit_under(gm_type, samples, squares, 0.0, samples.len());
    let number = fit::refusal_of(first);
    if number != 0 {
        return refused_cut(number);
    }
    residuals(first, samples, squares);
    second(gm_type, first, samples, squares)
}

pub fn trimmed_fit(gm_type: u8, samples: &[MotionSample]) -> Trimmed
    ensures { result ≡ trimmed_from itself gm_type samples.now }
{
    match trim::list_refusal(gm_type, samples.len()) {
        Err(refusal) => Trimmed {
            fitted: Fitted::Refused(refusal.number()),
            used: 0,
        },
        Ok(()) => {
            let mut squares = [0.0f64; MOST_SAMPLES];
            let cut = trim(gm_type, samples, &mut squares);
            Trimmed {
                fitted: cut.fitted,
                used: cut.used,
            }
        }
    }
}

// The last fit on the grid, the translation fitted again over the samples that it used.
fn on_grid(
    fitted: Fitted,
    flag: u8,
    samples: &[MotionSample],
    squares: &[f64],
    limit: f64,
    used: u32,
) -> TrimmedModel
    requires { Under squares.now limit (length samples.now) used }
    ensures { result ≡ model_as used (quantized_from (sample_at samples.now) fitted flag (under squares.now limit (length samples.now))) }
{
    let quantized = refit_under(fitted, flag, samples, squares, limit, used as usize);
    let params = quantized.params;
    TrimmedModel {
        refusal: 0,
        used,
        params,
    }
}

pub fn trimmed_model(gm_type: u8, flag: u8, samples: &[MotionSample]) -> TrimmedModel
    ensures { result ≡ trimmed_model_from itself gm_type flag samples.now }
{
    match trim::model_refusal(gm_type, flag, samples.len()) {
        Err(refusal) => trim::refused_model(refusal.number()),
        Ok(()) => placed(gm_type, flag, samples),
    }
}

fn placed(gm_type: u8, flag: u8, samples: &[MotionSample]) -> TrimmedModel
    requires { model_refusal gm_type flag (length samples.now) ≡ 0 }
    ensures { result ≡ trimmed_model_from itself gm_type flag samples.now }
{
    let mut squares = [0.0f64; MOST_SAMPLES];
    let cut = trim(gm_type, samples, &mut squares);
    let fitted = cut.fitted;
    let number = fit::refusal_of(fitted);
    if number != 0 {
        return trim::refused_model(number);
    }
    on_grid(fitted, flag, samples, &squares, cut.limit, cut.used)
}
