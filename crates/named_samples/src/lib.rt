// The lent samples of named classes (docs/RULES.md, 'Sets of classes'): a set, samples of four numbers
// each and a class for each go in; out come the sums of the fits, of the refit and of the score over
// the named samples, one loop each, or the named samples in front of a list of the call's own. Order 14
// of the change requests.
#![tactic(auto)]

ghost use Rattle.std.specs.Prelude.{◌≡◌, ◌≤◌, length};
ghost use Rattle.laws.specs.Binary64.{nought};
ghost use Rattle.laws.specs.Chosen.{Front};
ghost use Rattle.laws.specs.Loops.{fold};
ghost use Rattle.fit.specs.Sums.{sums_of, itself};
ghost use Rattle.score.specs.Score.{score_step};
ghost use Rattle.quantize.specs.Inner.{refitting_step};
ghost use Rattle.named_samples.specs.Named.{lent_sample, named_samples};

use fit::FitSums;
use quantize::Refitting;
use sample::MotionSample;
use score::ContinuousModel;

// Four numbers in the order x, y, u, v, as C's struct has them.
pub fn lent_sample(four: [f64; 4]) -> MotionSample
    ensures { result ≡ lent_sample four }
{
    MotionSample {
        x: four[0],
        y: four[1],
        u: four[2],
        v: four[3],
    }
}

// ---- sums over the named samples

// Of a fit.
pub fn sums_named<S: FitSums>(set: u8, samples: &[[f64; 4]], classes: &[u8]) -> S
    requires { length samples.now ≡ length classes.now }
    ensures { result ≡ S.totals (sums_of itself (named_samples set samples.now classes.now)) }
{
    let mut t = S::begin();
    for i in 0..samples.len() {
        if class_set::names(set, classes[i]) {
            t = t.step(lent_sample(samples[i]));
        }
    }
    t
}

// The refit against a quantized linear part.
pub fn refit_named(begun: Refitting, set: u8, samples: &[[f64; 4]], classes: &[u8]) -> Refitting
    requires { length samples.now ≡ length classes.now }
    ensures { result ≡ fold refitting_step (named_samples set samples.now classes.now) begun }
{
    let mut t = begun;
    for i in 0..samples.len() {
        if class_set::names(set, classes[i]) {
            t = quantize::refitting_step(t, lent_sample(samples[i]));
        }
    }
    t
}

// The squared residuals of a model, added.
pub fn residuals_named(m: ContinuousModel, set: u8, samples: &[[f64; 4]], classes: &[u8]) -> f64
    requires { length samples.now ≡ length classes.now }
    ensures { result ≡ fold (score_step m) (named_samples set samples.now classes.now) nought }
{
    let mut t = 0.0;
    for i in 0..samples.len() {
        if class_set::names(set, classes[i]) {
            t = score::score_step(m, t, lent_sample(samples[i]));
        }
    }
    t
}

// ---- the named samples themselves

// In front of a list, and how many they are: each sample is stored where the next named one belongs, and
// then counted or not.
pub fn gather(set: u8, samples: &[[f64; 4]], classes: &[u8], out: &mut [MotionSample]) -> usize
    requires samples_len { length samples.now ≡ length classes.now }
    requires room { length samples.now ≤ length out.old }
    ensures { Front (named_samples set samples.now classes.now) out.new result }
{
    let mut n = 0usize;
    for i in 0..samples.len() {
        out[n] = lent_sample(samples[i]);
        if class_set::names(set, classes[i]) {
            n += 1;
        }
    }
    n
}
