// A fit after trimming over sample words (`candidate_for`, encoder/global_motion.rs; docs/RULES.md,
// 'Trimming', rows 1, 4, 6, 15 and 16): the fit of all words, each word's squared residual, the words
// that stay moved to the front of a list of the call's own, and the fit and the grid numbers of those.
// The cutoff, its limit and the refusals are those of `trim`.
#![tactic(auto)]

ghost use Rattle.std.specs.Prelude.{◌≡◌, ◌≤◌, length};
ghost use Rattle.laws.specs.Buffer.{onto};
ghost use Rattle.laws.specs.Chosen.{chosen_by, Front};
ghost use Rattle.sample.specs.Word.{most_samples};
ghost use Rattle.sample.specs.Sample.{sample_of};
ghost use Rattle.quantize.specs.Quantize.{quantized_model};
ghost use Rattle.trim.specs.Trim.{trimmed_from, trimmed_model_from};
ghost use Rattle.trim.specs.Inner.{squares_from, model_as, list_refusal, model_refusal};
ghost use Rattle.word_trim.specs.Inner.{at_most, refused_trim, trim_of, Asked, Measured, Trims, Placed};

use fit::Fitted;
use refusal::Refusal;
use sample::MOST_SAMPLES;
use trim::{INFINITE, Trimmed, TrimmedModel};

// A list up to this length takes as little room: clearing the most was three tenths of the time of a
// trim of 16 words.
const SHORT: usize = 64;

// How far each word's sample lies from a fit, squared.
fn residuals(fitted: Fitted, words: &[u32], squares: &mut [f64])
    requires { length words.now ≤ length squares.old }
    ensures { squares.new ≡ onto (squares_from sample_of fitted words.now) squares.old }
{
    let m = trim::continuous_fit(fitted);
    let centres = sample::centres();
    for i in 0..words.len() {
        squares[i] = score::residual(m, sample::sample_by(&centres, words[i]));
    }
}

// The words whose square is at most the limit, in front of the list, and how many they are. Each word
// is stored where the next of them belongs, and then counted or not.
fn keep(words: &[u32], squares: &[f64], limit: f64, kept: &mut [u32]) -> usize
    requires { (length words.now ≤ length squares.now) × (length words.now ≤ length kept.old) }
    ensures front { Front (chosen_by (at_most limit) words.now squares.now) kept.new result }
    ensures kept_len_unchanged { length kept.new ≡ length kept.old }
{
    let mut n = 0usize;
    for i in 0..words.len() {
        kept[n] = words[i];
        if squares[i] <= limit {
            n += 1;
        }
    }
    n
}

fn refused_trim(number: u32) -> Trimmed
    ensures { result ≡ refused_trim number }
{
    Trimmed {
        fitted: Fitted::Refused(number),
        used: 0,
    }
}

// A fit of so many words, or its refusal.
fn trim_of(fitted: Fitted, used: usize) -> Trimmed
    requires { used ≤ most_samples }
    ensures { result ≡ trim_of fitted used }
{
    let own = fit::refusal_of(fitted);
    if own != 0 {
        return refused_trim(own);
    }
    Trimmed {
        fitted,
        used: used as u32,
    }
}

// The fit of the words that stay; where they are too few the first fit stands, and all words stay.
fn second(gm_type: u8, first: Fitted, words: &[u32], squares: &[f64], kept: &mut [u32]) -> Trimmed
    requires { Measured gm_type first words.now squares.now kept.old }
    ensures { Trims gm_type words.now kept.new result }
{
    if !trim::all_finite(squares, words.len()) {
        return refused_trim(Refusal::NotFinite.number());
    }
    let limit = trim::limit_of(squares, words.len());
    let n = keep(words, squares, limit, kept);
    if n < trim::least_of(gm_type) {
        let all = keep(words, squares, f64::from_bits(INFINITE), kept);
        return trim_of(first, all);
    }
    trim_of(fit::fit_model(gm_type, &kept[..n]), n)
}

// The last fit made, or a refusal; the words that it used are in front of the list.
fn trimmed(gm_type: u8, words: &[u32], squares: &mut [f64], kept: &mut [u32]) -> Trimmed
    requires { Asked gm_type (length words.now) squares.old kept.old }
    ensures { Trims gm_type words.now kept.new result }
{
    let first = fit::fit_model(gm_type, words);
    let number = fit::refusal_of(first);
    if number != 0 {
        return refused_trim(number);
    }
    residuals(first, words, squares);
    second(gm_type, first, words, squares, kept)
}

// The fit of a type code over sample words, after trimming.
pub fn fit_trimmed(gm_type: u8, words: &[u32]) -> Trimmed
    ensures { result ≡ trimmed_from sample_of gm_type words.now }
{
    match trim::list_refusal(gm_type, words.len()) {
        Err(refusal) => refused_trim(refusal.number()),
        Ok(()) => fit_in_room(gm_type, words),
    }
}

// In as much room as the list takes.
fn fit_in_room(gm_type: u8, words: &[u32]) -> Trimmed
    requires { list_refusal gm_type (length words.now) ≡ 0 }
    ensures { result ≡ trimmed_from sample_of gm_type words.now }
{
    if words.len() <= SHORT {
        let mut few = [0.0f64; SHORT];
        let mut front = [0u32; SHORT];
        return trimmed(gm_type, words, &mut few, &mut front);
    }
    let mut squares = [0.0f64; MOST_SAMPLES];
    let mut kept = [0u32; MOST_SAMPLES];
    trimmed(gm_type, words, &mut squares, &mut kept)
}

// A fit on the grid, the translation fitted again over the words that it used.
fn on_grid(fitted: Fitted, flag: u8, used: &[u32]) -> TrimmedModel
    requires { length used.now ≤ most_samples }
    ensures { result ≡ model_as (length used.now) (quantized_model fitted flag used.now) }
{
    let quantized = quantize::quantize_model(fitted, flag, used);
    let params = quantized.params;
    TrimmedModel {
        refusal: 0,
        used: used.len() as u32,
        params,
    }
}

// The last fit on the grid, or a refusal.
fn placed(
    gm_type: u8,
    flag: u8,
    words: &[u32],
    squares: &mut [f64],
    kept: &mut [u32],
) -> TrimmedModel
    requires { Placed gm_type flag (length words.now) squares.old kept.old }
    ensures { result ≡ trimmed_model_from sample_of gm_type flag words.now }
{
    let last = trimmed(gm_type, words, squares, kept);
    let fitted = last.fitted;
    let number = fit::refusal_of(fitted);
    if number != 0 {
        return trim::refused_model(number);
    }
    on_grid(fitted, flag, &kept[..last.used as usize])
}

// The same on the grid, x first.
pub fn quantize_trimmed(gm_type: u8, flag: u8, words: &[u32]) -> TrimmedModel
    ensures { result ≡ trimmed_model_from sample_of gm_type flag words.now }
{
    match trim::model_refusal(gm_type, flag, words.len()) {
        Err(refusal) => trim::refused_model(refusal.number()),
        Ok(()) => place_in_room(gm_type, flag, words),
    }
}

fn place_in_room(gm_type: u8, flag: u8, words: &[u32]) -> TrimmedModel
    requires { model_refusal gm_type flag (length words.now) ≡ 0 }
    ensures { result ≡ trimmed_model_from sample_of gm_type flag words.now }
{
    if words.len() <= SHORT {
        let mut few = [0.0f64; SHORT];
        let mut front = [0u32; SHORT];
        return placed(gm_type, flag, words, &mut few, &mut front);
    }
    let mut squares = [0.0f64; MOST_SAMPLES];
    let mut kept = [0u32; MOST_SAMPLES];
    placed(gm_type, flag, words, &mut squares, &mut kept)
}
