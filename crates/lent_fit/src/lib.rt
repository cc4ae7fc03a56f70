// Fits, quantized model and score over a lent slice of samples, under their C names: the definitions of
// the calls over sample words, each sample standing for itself (docs/RULES.md, 'Fits and score', rows 1,
// 4 and 6; encoder/global_motion.rs).
#![tactic(auto)]

ghost use Rattle.std.specs.Prelude.{◌≡◌, length};
ghost use Rattle.fit.specs.Sums.{itself};
ghost use Rattle.fit.specs.Fitted.{fit_answer, translation_from, rot_zoom_from, affine_from};
ghost use Rattle.fit_numbers.specs.Numbers.{numbers_of, fitted_of};
ghost use Rattle.score.specs.Score.{continuous_model, scored};
ghost use Rattle.quantize.specs.Quantize.{quantized_from};

use fit::{AffineSums, RotZoomSums, TranslationSums};
use fit_numbers::FitAnswer;
use quantize::Quantized;
use sample::MotionSample;
use score::Score;

// A model of six numbers at 16 fraction bits.
#[repr(C)]
#[derive(Clone, Copy)]
pub struct Params {
    pub numbers: [i32; 6],
}

// The type code and the numbers of a fitted model, and the precision flag of its grid.
#[repr(C)]
#[derive(Clone, Copy)]
pub struct ToQuantize {
    pub kind: u8,
    pub flag: u8,
    pub numbers: [f64; 6],
}

pub fn belt_fit_translation_samples(samples: &[MotionSample]) -> FitAnswer
    ensures { result ≡ numbers_of (fit_answer (length samples.now) (translation_from itself samples.now)) }
{
    fit_numbers::numbers_of(fit::fit_lent::<TranslationSums>(samples))
}

pub fn belt_fit_rotzoom_samples(samples: &[MotionSample]) -> FitAnswer
    ensures { result ≡ numbers_of (fit_answer (length samples.now) (rot_zoom_from itself samples.now)) }
{
    fit_numbers::numbers_of(fit::fit_lent::<RotZoomSums>(samples))
}

pub fn belt_fit_affine_samples(samples: &[MotionSample]) -> FitAnswer
    ensures { result ≡ numbers_of (fit_answer (length samples.now) (affine_from itself samples.now)) }
{
    fit_numbers::numbers_of(fit::fit_lent::<AffineSums>(samples))
}

pub fn belt_quantize_model_samples(samples: &[MotionSample], model: ToQuantize) -> Quantized
    ensures { result ≡ quantized_from itself (fitted_of model.kind model.numbers) model.flag samples.now }
{
    let numbers = model.numbers;
    let fitted = fit_numbers::fitted_of(model.kind, numbers);
    quantize::quantize_samples(fitted, model.flag, samples)
}

pub fn belt_mean_sq_residual_samples(samples: &[MotionSample], model: Params) -> Score
    ensures { result ≡ scored itself (continuous_model model.numbers) samples.now }
{
    let numbers = model.numbers;
    score::score_samples(numbers, samples)
}
