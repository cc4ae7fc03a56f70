// The model of a job (docs/RULES.md, 'Job', 'Fits and score', 'Trimming', 'Election', rows 6 and 16): the
// settings, the six other types and models and the sample words go in; the seven types and models, as
// stored, and the score of the job's own come out. Its own is fitted for the type asked for, or elected;
// either way it is an answer of type, six numbers as stored and score.
#![tactic(auto)]

ghost use Rattle.std.specs.Prelude.{◌≡◌, ◌≢◌, true, false, Ok, IfErr, length};
ghost use Rattle.job_model.specs.Modelled.{modelled, modelled_in};
ghost use Rattle.job_model.specs.Inner.{Fitting, Trimming, Asking, grid_answer, own_answer, modelled_with, Modelling, Reference};

use elect::Elected;
use job_task::Settings;
use quantize::Quantized;

pub mod assemble; // assemble.rt: seven models from six others and one

// The seven types and models in rising order of reference, and the score of the job's own.
#[derive(Clone, Copy, Debug, PartialEq)]
pub struct SevenModels {
    pub types: [u8; 7],
    pub models: [i32; 42],
    pub score: f64,
}

// The fit that is left after trimming, on the grid.
fn trimmed(settings: Settings, words: &[u32]) -> Quantized
    requires { Trimming settings words.now true }
    ensures { result ≡ grid_answer settings words.now }
{
    let t = word_trim::quantize_trimmed(settings.gm_type, settings.flag, words);
    let params = t.params;
    Quantized {
        refusal: t.refusal,
        params,
    }
}

// The fit of all words, on the grid.
fn untrimmed(settings: Settings, words: &[u32]) -> Quantized
    requires { Trimming settings words.now false }
    ensures { result ≡ grid_answer settings words.now }
{
    let fitted = fit::fit_model(settings.gm_type, words);
    let refusal = fit::refusal_of(fitted);
    if refusal != 0 {
        let params = [0; 6];
        return Quantized { refusal, params };
    }
    quantize::quantize_model(fitted, settings.flag, words)
}

// The fit of the type asked for on the grid, x first, or the number of what refuses it.
fn on_grid(settings: Settings, words: &[u32]) -> Quantized
    requires { Asking settings words.now }
    ensures { result ≡ grid_answer settings words.now }
{
    if settings.trim == 1 {
        return trimmed(settings, words);
    }
    untrimmed(settings, words)
}

// The model of the type asked for. The score is that of the model with x first; stored it is row first.
fn asked(settings: Settings, words: &[u32]) -> Elected
    requires { Asking settings words.now }
    ensures { result ≡ own_answer settings words.now }
{
    let fitted = on_grid(settings, words);
    if fitted.refusal != 0 {
        return elect::stopped(fitted.refusal);
    }
    let own = fitted.params;
    let stored = quantize::row_first(settings.gm_type, own);
    let score = score::mean_sq_residual(own, words);
    Elected {
        refusal: 0,
        gm_type: settings.gm_type,
        params: stored,
        score: score.score,
    }
}

// The job's own model, elected or of the type asked for, or the number of what refuses it.
fn own_of(settings: Settings, words: &[u32]) -> Elected
    requires { Fitting settings words.now }
    ensures { result ≡ own_answer settings words.now }
{
    if settings.elects() {
        return word_elect::elect(settings.flag, words);
    }
    asked(settings, words)
}

// The six others with the job's own model at its reference. Not inlined, so that what it takes of the stack
// isn't taken while the model is fitted.
#[inline(never)]
fn with_model(own: Elected, settings: Settings, types: &[u8], models: &[i32]) -> SevenModels
    requires six { length types.now ≡ 6 }
    requires numbers { length models.now ≡ 36 }
    requires reference { Reference settings.reference }
    ensures { modelled_in (Ok result) ≡ modelled_with own settings types.now models.now }
{
    let stored = own.params;
    let types = assemble::types_with(types, settings.reference, own.gm_type);
    let models = assemble::models_with(models, settings.reference, stored);
    SevenModels {
        types,
        models,
        score: own.score,
    }
}

// The six others with the job's own model at its reference, or the number of what refuses it: a number,
// since fits and elections are C's answers too (`quantize::Quantized`, `elect::Elected`).
pub fn models_of(
    settings: Settings,
    types: &[u8],
    models: &[i32],
    words: &[u32],
) -> Result<SevenModels, u32>
    requires { Modelling settings types.now models.now words.now }
    ensures answer { modelled_in result ≡ modelled settings types.now models.now words.now }
    ensures refused { IfErr result (λ number. number ≢ 0) }
{
    let own = own_of(settings, words);
    if own.refusal != 0 {
        return Err(own.refusal);
    }
    Ok(with_model(own, settings, types, models))
}
