// The calls by a set of classes over lent samples, under their C names: the definitions of the calls
// over sample words, each sample standing for itself (docs/RULES.md, 'Sets of classes', rows 1, 2, 4
// and 19, then those of the call). A sample is lent as its four numbers, x, y, u, v. Plain fits, models
// and scores walk the list and take the named samples; trims and the election gather the named samples
// in a list of their own. Order 14 of the change requests.
#![tactic(auto)]

ghost use Rattle.std.specs.Prelude.{◌≡◌, ◌≤◌, length};
ghost use Rattle.sample.specs.Word.{most_samples};
ghost use Rattle.fit.specs.Sums.{itself};
ghost use Rattle.fit.specs.Fitted.{fit_from};
ghost use Rattle.fit_numbers.specs.Numbers.{numbers_of, fitted_of};
ghost use Rattle.trim_numbers.specs.Answer.{answer_of};
ghost use Rattle.by_class.specs.ByClass.{fitted_by, quantized_by, scored_by, trimmed_by, trimmed_model_by, elected_by};
ghost use Rattle.named_samples.specs.Named.{samples_of, named_samples};
ghost use Rattle.lent_sets.specs.Inner.{Judges};

use elect::Elected;
use fit::{AffineSums, FitSums, Fitted, ROTZOOM, RotZoomSums, TRANSLATION, TranslationSums};
use fit_numbers::FitAnswer;
use lent_fit::{Params, ToQuantize};
use lent_trim::ToTrim;
use quantize::Quantized;
use refusal::Refusal;
use sample::{MOST_SAMPLES, MotionSample};
use score::Score;
use trim::{Trimmed, TrimmedModel};
use trim_numbers::TrimmedAnswer;

// ---- plain calls

pub fn belt_fit_samples_by_class(
    set: u8,
    kind: u8,
    samples: &[[f64; 4]],
    classes: &[u8],
) -> FitAnswer
    ensures { result ≡ numbers_of (fitted_by itself set kind (samples_of samples.now) classes.now) }
{
    let wrong = class_rows::no_type(kind);
    match class_rows::set_refusal(wrong, set, samples.len(), classes) {
        Err(refusal) => fit_numbers::numbers_of(Fitted::Refused(refusal.number())),
        Ok(()) => fit_numbers::numbers_of(fit_named(kind, set, samples, classes)),
    }
}

// The fit of a type over the named samples.
fn fit_named(kind: u8, set: u8, samples: &[[f64; 4]], classes: &[u8]) -> Fitted
    requires samples_len { length samples.now ≡ length classes.now }
    requires samples_len_bound { length samples.now ≤ most_samples }
    ensures { result ≡ fit_from itself kind (named_samples set samples.now classes.now) }
{
    let n = class_set::count_named(set, classes);
    match kind {
        TRANSLATION => named_samples::sums_named::<TranslationSums>(set, samples, classes).fit(n),
        ROTZOOM => named_samples::sums_named::<RotZoomSums>(set, samples, classes).fit(n),
        _ => named_samples::sums_named::<AffineSums>(set, samples, classes).fit(n),
    }
}

pub fn belt_quantize_samples_by_class(
    set: u8,
    model: ToQuantize,
    samples: &[[f64; 4]],
    classes: &[u8],
) -> Quantized
    ensures { result ≡ quantized_by itself set (fitted_of model.kind model.numbers) model.flag (samples_of samples.now) classes.now }
{
    let fitted = fit_numbers::fitted_of(model.kind, model.numbers);
    let wrong = class_rows::no_model_or_flag(fitted, model.flag);
    match class_rows::set_refusal(wrong, set, samples.len(), classes) {
        Err(refusal) => class_rows::refused_model(refusal.number()),
        Ok(()) => {
            let begun = quantize::refit_begin(fitted, model.flag);
            let t = named_samples::refit_named(begun, set, samples, classes);
            quantize::refit_ends(t, class_set::count_named(set, classes))
        }
    }
}

pub fn belt_score_samples_by_class(
    set: u8,
    model: Params,
    samples: &[[f64; 4]],
    classes: &[u8],
) -> Score
    ensures { result ≡ scored_by itself set model.numbers (samples_of samples.now) classes.now }
{
    match class_rows::set_refusal(false, set, samples.len(), classes) {
        Err(refusal) => Score {
            refusal: refusal.number(),
            score: 0.0,
        },
        Ok(()) => {
            let m = score::continuous_of_params(model.numbers);
            let sum = named_samples::residuals_named(m, set, samples, classes);
            score::score_of(sum, class_set::count_named(set, classes))
        }
    }
}

// ---- trims and the election

// The named samples in front of a list and how many they are, where the rows refuse nothing.
fn judge(
    wrong: bool,
    set: u8,
    samples: &[[f64; 4]],
    classes: &[u8],
    room: &mut [MotionSample],
) -> Result<usize, Refusal>
    requires { most_samples ≤ length room.old }
    ensures { Judges wrong set samples.now classes.now room.new result }
{
    class_rows::set_refusal(wrong, set, samples.len(), classes)?;
    Ok(named_samples::gather(set, samples, classes, room))
}

pub fn belt_fit_trimmed_samples_by_class(
    set: u8,
    kind: u8,
    samples: &[[f64; 4]],
    classes: &[u8],
) -> TrimmedAnswer
    ensures { result ≡ answer_of (trimmed_by itself set kind (samples_of samples.now) classes.now) }
{
    let mut room = [named_samples::lent_sample([0.0; 4]); MOST_SAMPLES];
    let wrong = class_rows::no_type(kind);
    match judge(wrong, set, samples, classes, &mut room) {
        Err(refusal) => trim_numbers::answer_of(Trimmed {
            fitted: Fitted::Refused(refusal.number()),
            used: 0,
        }),
        Ok(n) => trim_numbers::answer_of(held_trim::trimmed_fit(kind, &room[..n])),
    }
}

pub fn belt_quantize_trimmed_samples_by_class(
    set: u8,
    codes: ToTrim,
    samples: &[[f64; 4]],
    classes: &[u8],
) -> TrimmedModel
    ensures { result ≡ trimmed_model_by itself set codes.kind codes.flag (samples_of samples.now) classes.now }
{
    let mut room = [named_samples::lent_sample([0.0; 4]); MOST_SAMPLES];
    let wrong = class_rows::no_type_or_flag(codes.kind, codes.flag);
    match judge(wrong, set, samples, classes, &mut room) {
        Err(refusal) => class_rows::refused_trimmed_model(refusal.number()),
        Ok(n) => held_trim::trimmed_model(codes.kind, codes.flag, &room[..n]),
    }
}

pub fn belt_elect_samples_by_class(
    set: u8,
    flag: u8,
    samples: &[[f64; 4]],
    classes: &[u8],
) -> Elected
    ensures { result ≡ elected_by itself set flag (samples_of samples.now) classes.now }
{
    let mut room = [named_samples::lent_sample([0.0; 4]); MOST_SAMPLES];
    match judge(flag > 1, set, samples, classes, &mut room) {
        Err(refusal) => elect::stopped(refusal.number()),
        Ok(n) => held_elect::elected_in(flag, &room[..n]),
    }
}
