// The score of a model: six numbers at 16 fraction bits and sample words go in, the mean squared
// residual in square pels comes out. Answers to docs/RULES.md, 'Fits and score', row 1, and to
// `continuous_of_params` and `mean_sq_residual` (encoder/global_motion.rs).
#![tactic(auto)]

ghost use Rattle.std.specs.Prelude.{◌≡◌, ◌≤◌};
ghost use Rattle.laws.specs.Loops.{fold};
ghost use Rattle.laws.specs.Binary64.{nought};
ghost use Rattle.refusal.specs.Number.{number_of};
ghost use Rattle.sample.specs.Word.{most_samples};
ghost use Rattle.fit.specs.Sums.{itself, reading};
ghost use Rattle.score.specs.Score.{continuous_of, continuous_model, residual_of, score_step, mean_of, score_as, score_of, scored, mean_sq_residual};
ghost use Rattle.score.specs.Inner.{residual_sum};

use grid_number::SCALE;
use refusal::Refusal;
use sample::MotionSample;

// A model of six numbers at 16 fraction bits, as binary64 numbers.
#[derive(Clone, Copy, Debug, PartialEq)]
pub struct ContinuousModel {
    pub m0: f64,
    pub m1: f64,
    pub m2: f64,
    pub m3: f64,
    pub m4: f64,
    pub m5: f64,
}

// A row of the table of refusals (0: none), and the mean squared residual.
#[repr(C)]
#[derive(Clone, Copy, Debug, PartialEq)]
pub struct Score {
    pub refusal: u32,
    pub score: f64,
}

// A number at 16 fraction bits.
pub fn continuous_of(param: i32) -> f64
    ensures { result ≡ continuous_of param }
{
    param as f64 / SCALE
}

pub fn continuous_of_params(params: [i32; 6]) -> ContinuousModel
    ensures { result ≡ continuous_model params }
{
    ContinuousModel {
        m0: continuous_of(params[0]),
        m1: continuous_of(params[1]),
        m2: continuous_of(params[2]),
        m3: continuous_of(params[3]),
        m4: continuous_of(params[4]),
        m5: continuous_of(params[5]),
    }
}

// The squared residual of a sample.
pub fn residual(m: ContinuousModel, s: MotionSample) -> f64
    ensures { result ≡ residual_of m s }
{
    let du = s.u - ((m.m2 - 1.0) * s.x + m.m3 * s.y + m.m0);
    let dv = s.v - (m.m4 * s.x + (m.m5 - 1.0) * s.y + m.m1);
    du * du + dv * dv
}

pub fn score_step(m: ContinuousModel, acc: f64, s: MotionSample) -> f64
    ensures { result ≡ score_step m acc s }
{
    acc + residual(m, s)
}

// The mean of a sum over so many samples, 0.0 with none.
fn mean_of(acc: f64, samples: usize) -> f64
    requires { samples ≤ most_samples }
    ensures { result ≡ mean_of acc samples }
{
    if samples == 0 {
        return 0.0;
    }
    acc / fit::count_of(samples)
}

fn refused(refusal: Refusal) -> Score
    ensures { result ≡ score_as (number_of refusal) nought }
{
    Score {
        refusal: refusal.number(),
        score: 0.0,
    }
}

// The score of a sum of residuals over so many samples.
#[tactic(auto, unfolding(crate::specs::Score::score_of))]
pub fn score_of(acc: f64, samples: usize) -> Score
    ensures { result ≡ score_of acc samples }
{
    match fit::list_refusal(samples) {
        Err(refusal) => refused(refusal),
        Ok(()) => Score {
            refusal: 0,
            score: mean_of(acc, samples),
        },
    }
}

fn residual_sum(m: ContinuousModel, words: &[u32]) -> f64
    ensures { result ≡ residual_sum m words.now }
{
    let mut acc = 0.0;
    let centres = sample::centres();
    for word in words {
        acc = score_step(m, acc, sample::sample_by(&centres, *word));
    }
    acc
}

// The same over samples themselves.
fn residuals_over(m: ContinuousModel, samples: &[MotionSample]) -> f64
    ensures { result ≡ fold (reading (score_step m) itself) samples.now nought }
{
    let mut acc = 0.0;
    for s in samples {
        acc = score_step(m, acc, *s);
    }
    acc
}

// A list that is too long isn't walked.
#[tactic(auto, unfolding(crate::specs::Score::score_of, crate::specs::Inner::residual_sum))]
pub fn mean_sq_residual(params: [i32; 6], words: &[u32]) -> Score
    ensures { result ≡ mean_sq_residual params words.now }
{
    match fit::list_refusal(words.len()) {
        Err(refusal) => refused(refusal),
        Ok(()) => score_of(
            residual_sum(continuous_of_params(params), words),
            words.len(),
        ),
    }
}

// The score of samples themselves.
#[tactic(auto, unfolding(crate::specs::Score::score_of))]
pub fn score_samples(params: [i32; 6], samples: &[MotionSample]) -> Score
    ensures { result ≡ scored itself (continuous_model params) samples.now }
{
    match fit::list_refusal(samples.len()) {
        Err(refusal) => refused(refusal),
        Ok(()) => score_of(
            residuals_over(continuous_of_params(params), samples),
            samples.len(),
        ),
    }
}
