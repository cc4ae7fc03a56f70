// The calls over the samples of named classes (docs/RULES.md, 'Sets of classes'): a set, sample words
// and a class for each go in; a fit, a model on the grid, a score, a trimmed fit or an election of the
// named words comes out. Rows 1, 2, 4 and 19 judge the whole list, then the call judges the named
// words. Order 14 of the change requests.
#![tactic(auto)]

ghost use Rattle.std.specs.Prelude.{◌≡◌};
ghost use Rattle.sample.specs.Sample.{sample_of};
ghost use Rattle.by_class.specs.ByClass.{fitted_by, quantized_by, scored_by, trimmed_by, trimmed_model_by, elected_by};

use elect::Elected;
use fit::Fitted;
use quantize::Quantized;
use score::Score;
use trim::{Trimmed, TrimmedModel};

pub fn fit_by_class(set: u8, gm_type: u8, words: &[u32], classes: &[u8]) -> Fitted
    ensures { result ≡ fitted_by sample_of set gm_type words.now classes.now }
{
    let judged = class_rows::set_refusal(class_rows::no_type(gm_type), set, words.len(), classes);
    match judged {
        Err(refusal) => Fitted::Refused(refusal.number()),
        Ok(()) => {
            let mut named = [0u32; 4096];
            let n = class_set::choose(set, words, classes, &mut named);
            fit::fit_model(gm_type, &named[..n])
        }
    }
}

pub fn quantize_by_class(
    set: u8,
    fitted: Fitted,
    flag: u8,
    words: &[u32],
    classes: &[u8],
) -> Quantized
    ensures { result ≡ quantized_by sample_of set fitted flag words.now classes.now }
{
    let judged = class_rows::set_refusal(
        class_rows::no_model_or_flag(fitted, flag),
        set,
        words.len(),
        classes,
    );
    match judged {
        Err(refusal) => class_rows::refused_model(refusal.number()),
        Ok(()) => {
            let mut named = [0u32; 4096];
            let n = class_set::choose(set, words, classes, &mut named);
            quantize::quantize_model(fitted, flag, &named[..n])
        }
    }
}

pub fn score_by_class(set: u8, params: [i32; 6], words: &[u32], classes: &[u8]) -> Score
    ensures { result ≡ scored_by sample_of set params words.now classes.now }
{
    let judged = class_rows::set_refusal(false, set, words.len(), classes);
    match judged {
        Err(refusal) => Score {
            refusal: refusal.number(),
            score: 0.0,
        },
        Ok(()) => {
            let mut named = [0u32; 4096];
            let n = class_set::choose(set, words, classes, &mut named);
            score::mean_sq_residual(params, &named[..n])
        }
    }
}

pub fn fit_trimmed_by_class(set: u8, gm_type: u8, words: &[u32], classes: &[u8]) -> Trimmed
    ensures { result ≡ trimmed_by sample_of set gm_type words.now classes.now }
{
    let judged = class_rows::set_refusal(class_rows::no_type(gm_type), set, words.len(), classes);
    match judged {
        Err(refusal) => Trimmed {
            fitted: Fitted::Refused(refusal.number()),
            used: 0,
        },
        Ok(()) => {
            let mut named = [0u32; 4096];
            let n = class_set::choose(set, words, classes, &mut named);
            word_trim::fit_trimmed(gm_type, &named[..n])
        }
    }
}

pub fn quantize_trimmed_by_class(
    set: u8,
    gm_type: u8,
    flag: u8,
    words: &[u32],
    classes: &[u8],
) -> TrimmedModel
    ensures { result ≡ trimmed_model_by sample_of set gm_type flag words.now classes.now }
{
    let wrong = class_rows::no_type_or_flag(gm_type, flag);
    let judged = class_rows::set_refusal(wrong, set, words.len(), classes);
    match judged {
        Err(refusal) => class_rows::refused_trimmed_model(refusal.number()),
        Ok(()) => {
            let mut named = [0u32; 4096];
            let n = class_set::choose(set, words, classes, &mut named);
            word_trim::quantize_trimmed(gm_type, flag, &named[..n])
        }
    }
}

pub fn elect_by_class(set: u8, flag: u8, words: &[u32], classes: &[u8]) -> Elected
    ensures { result ≡ elected_by sample_of set flag words.now classes.now }
{
    let judged = class_rows::set_refusal(flag > 1, set, words.len(), classes);
    match judged {
        Err(refusal) => elect::stopped(refusal.number()),
        Ok(()) => {
            let mut named = [0u32; 4096];
            let n = class_set::choose(set, words, classes, &mut named);
            word_elect::elect(flag, &named[..n])
        }
    }
}
