// The rows of the calls over the samples of named classes (docs/RULES.md, 'Sets of classes'): rows 1, 2, 4
// and 19 of a set, a list and its classes, and the answers of a call that is refused.
#![tactic(auto)]

ghost use Rattle.std.specs.Prelude.{◌≡◌};
ghost use Rattle.fit.specs.Fitted.{no_type};
ghost use Rattle.quantize.specs.Quantize.{refused_model};
ghost use Rattle.refusal.specs.Number.{refusal_number};
ghost use Rattle.class_rows.specs.Rows.{lets_pass, set_refusal, no_type_or_flag, no_model_or_flag, refused_trimmed_model};

use class::LAST_CLASS;
use fit::Fitted;
use quantize::Quantized;
use refusal::Refusal;
use trim::TrimmedModel;

// ---- the rows

// Rows 1, 2 and 4 of so many samples and their classes; `wrong` is the call's own condition of row 4.
fn lets_pass(wrong: bool, set: u8, samples: usize, classes: &[u8]) -> Result<(), Refusal>
    ensures { refusal_number result ≡ lets_pass wrong set samples classes.now }
{
    if samples > sample::MOST_SAMPLES {
        return Err(Refusal::TooLarge);
    }
    if classes.len() != samples {
        return Err(Refusal::WrongLength);
    }
    if wrong || class::some_over(LAST_CLASS, classes) || class_set::names_over(set) {
        return Err(Refusal::NoSuchCode);
    }
    Ok(())
}

// Those, then row 19.
pub fn set_refusal(wrong: bool, set: u8, samples: usize, classes: &[u8]) -> Result<(), Refusal>
    ensures { refusal_number result ≡ set_refusal wrong set samples classes.now }
{
    lets_pass(wrong, set, samples, classes)?;
    if set == 0 {
        return Err(Refusal::NoClass);
    }
    Ok(())
}

// The calls' own conditions of row 4.
pub fn no_type(gm_type: u8) -> bool
    ensures { result ≡ no_type gm_type }
{
    gm_type == 0 || gm_type > fit::AFFINE
}

pub fn no_type_or_flag(gm_type: u8, flag: u8) -> bool
    ensures { result ≡ no_type_or_flag gm_type flag }
{
    no_type(gm_type) || flag > 1
}

pub fn no_model_or_flag(fitted: Fitted, flag: u8) -> bool
    ensures { result ≡ no_model_or_flag fitted flag }
{
    fit::type_of(fitted) == 0 || flag > 1
}

// ---- refused answers

pub fn refused_model(number: u32) -> Quantized
    ensures { result ≡ refused_model number }
{
    Quantized {
        refusal: number,
        params: [0; 6],
    }
}

pub fn refused_trimmed_model(number: u32) -> TrimmedModel
    ensures { result ≡ refused_trimmed_model number }
{
    trim::refused_model(number)
}
