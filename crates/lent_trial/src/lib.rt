// The calls over lent samples on the first n samples of an array, for callers that have no lent slice
// of samples: each lends that part and hands on the answer (docs/RULES.md, 'Each place and its form').
// The array has room for one sample more than a list may have.
#![tactic(auto)]

ghost use Rattle.std.specs.Prelude.{◌≤◌, ◌≡◌, length, take};
ghost use Rattle.fit.specs.Fitted.{fit_answer, translation_from, rot_zoom_from, affine_from};
ghost use Rattle.fit.specs.Sums.{itself};
ghost use Rattle.fit_numbers.specs.Numbers.{numbers_of, fitted_of};
ghost use Rattle.score.specs.Score.{continuous_model, scored};
ghost use Rattle.quantize.specs.Quantize.{quantized_from};
ghost use Rattle.trim.specs.Trim.{trimmed_from, trimmed_model_from};
ghost use Rattle.trim_numbers.specs.Answer.{answer_of};
ghost use Rattle.elect.specs.Elect.{elected_from};

use elect::Elected;
use fit_numbers::FitAnswer;
use lent_fit::{Params, ToQuantize};
use lent_trim::ToTrim;
use quantize::Quantized;
use sample::MotionSample;
use score::Score;
use trim::TrimmedModel;
use trim_numbers::TrimmedAnswer;

pub fn translation_of_first(samples: [MotionSample; 4097], n: usize) -> FitAnswer
    requires { n ≤ 4097 }
    ensures { result ≡ numbers_of (fit_answer (length (take n samples)) (translation_from itself (take n samples))) }
{
    lent_fit::belt_fit_translation_samples(&samples[..n])
}

pub fn rotzoom_of_first(samples: [MotionSample; 4097], n: usize) -> FitAnswer
    requires { n ≤ 4097 }
    ensures { result ≡ numbers_of (fit_answer (length (take n samples)) (rot_zoom_from itself (take n samples))) }
{
    lent_fit::belt_fit_rotzoom_samples(&samples[..n])
}

pub fn affine_of_first(samples: [MotionSample; 4097], n: usize) -> FitAnswer
    requires { n ≤ 4097 }
    ensures { result ≡ numbers_of (fit_answer (length (take n samples)) (affine_from itself (take n samples))) }
{
    lent_fit::belt_fit_affine_samples(&samples[..n])
}

pub fn quantized_of_first(samples: [MotionSample; 4097], n: usize, model: ToQuantize) -> Quantized
    requires { n ≤ 4097 }
    ensures { result ≡ quantized_from itself (fitted_of model.kind model.numbers) model.flag (take n samples) }
{
    lent_fit::belt_quantize_model_samples(&samples[..n], model)
}

pub fn score_of_first(samples: [MotionSample; 4097], n: usize, model: Params) -> Score
    requires { n ≤ 4097 }
    ensures { result ≡ scored itself (continuous_model model.numbers) (take n samples) }
{
    lent_fit::belt_mean_sq_residual_samples(&samples[..n], model)
}

pub fn trimmed_of_first(samples: [MotionSample; 4097], n: usize, kind: u8) -> TrimmedAnswer
    requires { n ≤ 4097 }
    ensures { result ≡ answer_of (trimmed_from itself kind (take n samples)) }
{
    lent_trim::belt_fit_trimmed_samples(&samples[..n], kind)
}

pub fn trimmed_model_of_first(
    samples: [MotionSample; 4097],
    n: usize,
    codes: ToTrim,
) -> TrimmedModel
    requires { n ≤ 4097 }
    ensures { result ≡ trimmed_model_from itself codes.kind codes.flag (take n samples) }
{
    lent_trim::belt_quantize_trimmed_samples(&samples[..n], codes)
}

pub fn elected_of_first(samples: [MotionSample; 4097], n: usize, flag: u8) -> Elected
    requires { n ≤ 4097 }
    ensures { result ≡ elected_from itself flag (take n samples) }
{
    lent_elect::belt_elect_samples(&samples[..n], flag)
}
