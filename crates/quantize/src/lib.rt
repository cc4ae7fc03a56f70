// A fitted model on the grid of codable numbers: a fitted model, a flag and sample words go in, six
// numbers at 16 fraction bits come out, x first. Answers to docs/RULES.md, 'Fits and score' and
// 'Header' (the row-first exchange), rows 1 and 4, and to `quantize_model` (encoder/global_motion.rs).
#![tactic(auto)]

ghost use Rattle.std.specs.Prelude.{◌≡◌, ◌≤◌, nat_abs, length};
ghost use Rattle.refusal.specs.Number.{number_of, refusal_number};
ghost use Rattle.laws.specs.Loops.{fold};
ghost use Rattle.sample.specs.Word.{most_samples};
ghost use Rattle.fit.specs.Sums.{itself};
ghost use Rattle.quantize.specs.Quantize.{slot_of, rot_zoom_linear, identity_linear, linear_of, continuous_linear, mean_motion, refitted, params_of, params};
ghost use Rattle.quantize.specs.Quantize.{model_refusal, quantize_refusal, refused_model, quantized_from, quantized_model, row_first};
ghost use Rattle.quantize.specs.Inner.{refit_step, refit_sums, linear_unless_refused, refitting_begun, refitting_step, refitting_ends, Accepted};

use fit::{AFFINE, FitSums, Fitted, ROTZOOM, TRANSLATION, TranslationSums};
use refusal::Refusal;
use sample::MotionSample;
use score::ContinuousModel;

// Slots 2 to 5 of a model.
#[derive(Clone, Copy)]
pub struct Linear {
    pub p2: i32,
    pub p3: i32,
    pub p4: i32,
    pub p5: i32,
}

// A motion in pels.
#[derive(Clone, Copy)]
pub struct Motion {
    pub u: f64,
    pub v: f64,
}

// A walk over samples: the fitted model and the flag, the quantized linear part, the same as binary64
// numbers, and the two sums of the refit so far.
#[derive(Clone, Copy)]
pub struct Refitting {
    pub fitted: Fitted,
    pub flag: u8,
    pub linear: Linear,
    pub m: ContinuousModel,
    pub sums: TranslationSums,
}

// A row of the table of refusals (0: none), and the quantized model, x first.
#[repr(C)]
#[derive(Clone, Copy, Debug, PartialEq, Eq)]
pub struct Quantized {
    pub refusal: u32,
    pub params: [i32; 6],
}

// The nearest codable number of a slot.
fn quantized_slot(gm_type: u8, flag: u8, slot: u8, value: f64) -> i32
    requires { (gm_type ≤ 3) × (flag ≤ 1) × (slot ≤ 5) }
    ensures { result ≡ slot_of gm_type flag slot value }
{
    let q = grid::quantize_global_param(gm_type, flag, slot, grid_number::grid_number(value));
    q.value
}

fn rotzoom_linear(p2: i32, p3: i32) -> Linear
    requires { nat_abs p3 ≤ 8192 }
    ensures { result ≡ rot_zoom_linear p2 p3 }
{
    Linear {
        p2,
        p3,
        p4: 0 - p3,
        p5: p2,
    }
}

fn identity_linear() -> Linear
    ensures { result ≡ identity_linear }
{
    Linear {
        p2: 65536,
        p3: 0,
        p4: 0,
        p5: 65536,
    }
}

fn linear_of(fitted: Fitted, flag: u8) -> Linear
    requires { flag ≤ 1 }
    ensures { result ≡ linear_of fitted flag }
{
    match fitted {
        Fitted::Refused(_) => identity_linear(),
        Fitted::Translation { .. } => identity_linear(),
        Fitted::RotZoom { m2, m3, .. } => rotzoom_linear(
            quantized_slot(ROTZOOM, flag, 2, m2),
            quantized_slot(ROTZOOM, flag, 3, m3),
        ),
        Fitted::Affine { m2, m3, m4, m5, .. } => Linear {
            p2: quantized_slot(AFFINE, flag, 2, m2),
            p3: quantized_slot(AFFINE, flag, 3, m3),
            p4: quantized_slot(AFFINE, flag, 4, m4),
            p5: quantized_slot(AFFINE, flag, 5, m5),
        },
    }
}

fn continuous_linear(l: Linear) -> ContinuousModel
    ensures { result ≡ continuous_linear l }
{
    ContinuousModel {
        m0: 0.0,
        m1: 0.0,
        m2: score::continuous_of(l.p2),
        m3: score::continuous_of(l.p3),
        m4: score::continuous_of(l.p4),
        m5: score::continuous_of(l.p5),
    }
}

pub fn refit_step(m: ContinuousModel, t: TranslationSums, s: MotionSample) -> TranslationSums
    ensures { result ≡ refit_step m t s }
{
    TranslationSums {
        su: t.su + (s.u - ((m.m2 - 1.0) * s.x + m.m3 * s.y)),
        sv: t.sv + (s.v - (m.m4 * s.x + (m.m5 - 1.0) * s.y)),
    }
}

fn refit_sums(m: ContinuousModel, words: &[u32]) -> TranslationSums
    ensures { result ≡ refit_sums m words.now }
{
    let mut t = TranslationSums::begin();
    let centres = sample::centres();
    for word in words {
        t = refit_step(m, t, sample::sample_by(&centres, *word));
    }
    t
}

// The mean motion of two sums over so many samples, 0 with none.
fn mean_motion(t: TranslationSums, samples: usize) -> Motion
    requires { samples ≤ most_samples }
    ensures { result ≡ mean_motion t samples }
{
    if samples == 0 {
        return Motion { u: 0.0, v: 0.0 };
    }
    let n = fit::count_of(samples);
    Motion {
        u: t.su / n,
        v: t.sv / n,
    }
}

// The mean motion that the quantized linear part leaves.
fn refit(l: Linear, words: &[u32]) -> Motion
    requires { length words.now ≤ most_samples }
    ensures { result ≡ refitted l words.now }
{
    mean_motion(refit_sums(continuous_linear(l), words), words.len())
}

fn params_of(gm_type: u8, flag: u8, l: Linear, t: Motion) -> [i32; 6]
    requires { (gm_type ≤ 3) × (flag ≤ 1) }
    ensures { result ≡ params_of gm_type flag l t }
{
    let x = quantized_slot(gm_type, flag, 0, t.u);
    let y = quantized_slot(gm_type, flag, 1, t.v);
    [x, y, l.p2, l.p3, l.p4, l.p5]
}

fn model_params(fitted: Fitted, flag: u8, words: &[u32]) -> [i32; 6]
    requires { Accepted fitted flag (length words.now) }
    ensures { result ≡ params fitted flag words.now }
{
    let l = linear_of(fitted, flag);
    params_of(fit::type_of(fitted), flag, l, refit(l, words))
}

// Row 4: no fitted model, or no such flag.
fn model_refusal(fitted: Fitted, flag: u8) -> Result<(), Refusal>
    ensures { refusal_number result ≡ model_refusal fitted flag }
{
    if fit::type_of(fitted) == 0 || flag > 1 {
        return Err(Refusal::NoSuchCode);
    }
    Ok(())
}

fn quantize_refusal(fitted: Fitted, flag: u8, samples: usize) -> Result<(), Refusal>
    ensures { refusal_number result ≡ quantize_refusal fitted flag samples }
{
    fit::list_refusal(samples)?;
    model_refusal(fitted, flag)
}

fn refused_model(refusal: Refusal) -> Quantized
    ensures { result ≡ refused_model (number_of refusal) }
{
    let params = [0i32; 6];
    Quantized {
        refusal: refusal.number(),
        params,
    }
}

pub fn quantize_model(fitted: Fitted, flag: u8, words: &[u32]) -> Quantized
    ensures { result ≡ quantized_model fitted flag words.now }
{
    match quantize_refusal(fitted, flag, words.len()) {
        Err(refusal) => refused_model(refusal),
        Ok(()) => {
            let params = model_params(fitted, flag, words);
            Quantized { refusal: 0, params }
        }
    }
}

fn linear_unless_refused(fitted: Fitted, flag: u8) -> Linear
    ensures { result ≡ linear_unless_refused fitted flag }
{
    if flag > 1 {
        return identity_linear();
    }
    linear_of(fitted, flag)
}

// A walk over samples begins with the linear part and no sample, takes each sample's step, and ends
// with the quantized model or a refusal.
pub fn refit_begin(fitted: Fitted, flag: u8) -> Refitting
    ensures { result ≡ refitting_begun fitted flag }
{
    let linear = linear_unless_refused(fitted, flag);
    let m = continuous_linear(linear);
    let sums = TranslationSums::begin();
    Refitting {
        fitted,
        flag,
        linear,
        m,
        sums,
    }
}

pub fn refitting_step(t: Refitting, s: MotionSample) -> Refitting
    ensures { result ≡ refitting_step t s }
{
    let fitted = t.fitted;
    let linear = t.linear;
    let m = t.m;
    let sums = refit_step(m, t.sums, s);
    Refitting {
        fitted,
        flag: t.flag,
        linear,
        m,
        sums,
    }
}

pub fn refit_ends(t: Refitting, samples: usize) -> Quantized
    ensures { result ≡ refitting_ends t samples }
{
    let fitted = t.fitted;
    let linear = t.linear;
    let sums = t.sums;
    match quantize_refusal(fitted, t.flag, samples) {
        Err(refusal) => refused_model(refusal),
        Ok(()) => {
            let params = params_of(
                fit::type_of(fitted),
                t.flag,
                linear,
                mean_motion(sums, samples),
            );
            Quantized { refusal: 0, params }
        }
    }
}

fn refit_walk(begun: Refitting, samples: &[MotionSample]) -> Refitting
    ensures { result ≡ fold refitting_step samples.now begun }
{
    let mut t = begun;
    for s in samples {
        t = refitting_step(t, *s);
    }
    t
}

// The quantized model over samples themselves; a list that is too long isn't walked.
pub fn quantize_samples(fitted: Fitted, flag: u8, samples: &[MotionSample]) -> Quantized
    ensures { result ≡ quantized_from itself fitted flag samples.now }
{
    let begun = refit_begin(fitted, flag);
    match fit::list_refusal(samples.len()) {
        Err(_) => refit_ends(begun, samples.len()),
        Ok(()) => refit_ends(refit_walk(begun, samples), samples.len()),
    }
}

// A TRANSLATION is stored row first: slots 0 and 1 change places, and the same takes them back.
pub fn row_first(gm_type: u8, params: [i32; 6]) -> [i32; 6]
    ensures { result ≡ row_first gm_type params }
{
    if gm_type == TRANSLATION {
        let mut stored = params;
        stored.swap(0, 1);
        return stored;
    }
    params
}
