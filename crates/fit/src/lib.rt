// The three fits of motion models: a slice of sample words goes in, a fitted model or a refusal comes
// out. Sums, elimination and back-substitution in binary64, one rounding an operation, samples first
// to last: `fit_translation`, `fit_rotzoom`, `fit_affine` (encoder/global_motion.rs); docs/RULES.md,
// 'Records' (Model), 'Fits and score', rows 1, 4 and 6. Each word is made into its sample, which goes to
// the fit's `step` by value. A walk over samples themselves folds the same step: it begins with the sums'
// `begin` and ends with `ends`.
#![tactic(auto)]

ghost use Rattle.std.specs.Prelude.{◌≡◌, ◌≤◌, pos, length, Float};
ghost use Rattle.std.specs.Float.{binary64};
ghost use Rattle.std.specs.Float.Ieee.{of_int};
ghost use Rattle.refusal.specs.Number.{refusal_number};
ghost use Rattle.sample.specs.declared.MotionSample.{MotionSample};
ghost use Rattle.sample.specs.Word.{most_samples};
ghost use Rattle.sample.specs.Sample.{sample_of, pels_of};
ghost use Rattle.sample.specs.Inner.{Tabled};
ghost use Rattle.fit.specs.Sums.{Summing, itself, sums_of, plus, no_sums, count_as, translation_totals, rot_zoom_totals, affine_totals};
ghost use Rattle.fit.specs.Inner.{translation_step, rot_zoom_step, affine_step, or_singular, translation_moves, rot_zoom_moves, affine_moves};
ghost use Rattle.fit.specs.Fitted.{refusal_of, type_of, rot_zoom_system, affine_u, translation_of, rot_zoom_of, affine_of};
ghost use Rattle.fit.specs.Fitted.{translation_fit, rot_zoom_fit, affine_fit, fit_of, fit_from, list_refusal, type_refusal, fit_refusal, fit_answer, fitted};

use refusal::Refusal;
use sample::{MOST_SAMPLES, MotionSample};
use solve::Singular;

// The type codes of the three fits.
pub const TRANSLATION: u8 = 1;

pub const ROTZOOM: u8 = 2;

pub const AFFINE: u8 = 3;

// From so many words on a table of all motions spares more than it costs.
const LONG_LIST: usize = 256;

// A fitted model, its numbers by the slots of the standard. A rotation-zoom's m4 is −m3 and its m5 is
// m2.
#[derive(Clone, Copy)]
pub enum Fitted {
    Refused(u32),
    Translation {
        m0: f64,
        m1: f64,
    },
    RotZoom {
        m0: f64,
        m1: f64,
        m2: f64,
        m3: f64,
    },
    Affine {
        m0: f64,
        m1: f64,
        m2: f64,
        m3: f64,
        m4: f64,
        m5: f64,
    },
}

#[derive(Clone, Copy)]
pub struct TranslationSums {
    pub su: f64,
    pub sv: f64,
}

#[derive(Clone, Copy)]
pub struct RotZoomSums {
    pub sx: f64,
    pub sy: f64,
    pub q: f64,
    pub p1: f64,
    pub p2: f64,
    pub su: f64,
    pub sv: f64,
}

#[derive(Clone, Copy)]
pub struct AffineSums {
    pub sx: f64,
    pub sy: f64,
    pub sxx: f64,
    pub sxy: f64,
    pub syy: f64,
    pub sxu: f64,
    pub syu: f64,
    pub su: f64,
    pub sxv: f64,
    pub syv: f64,
    pub sv: f64,
}

// The refusal of a fit, 0 for a fitted model.
pub fn refusal_of(model: Fitted) -> u32
    ensures { result ≡ refusal_of model }
{
    match model {
        Fitted::Refused(number) => number,
        Fitted::Translation { .. } => 0,
        Fitted::RotZoom { .. } => 0,
        Fitted::Affine { .. } => 0,
    }
}

// The type code of a fitted model, 0 for a refusal.
pub fn type_of(model: Fitted) -> u8
    ensures { result ≡ type_of model }
{
    match model {
        Fitted::Refused(_) => 0,
        Fitted::Translation { .. } => TRANSLATION,
        Fitted::RotZoom { .. } => ROTZOOM,
        Fitted::Affine { .. } => AFFINE,
    }
}

// A count of samples as a binary64, exact.
pub fn count_of(samples: usize) -> f64
    requires { samples ≤ 4096 }
    ensures { result ≡ of_int binary64 (pos samples) }
{
    samples as u32 as f64
}

// The sums of a fit: a walk begins with those of no sample, a step adds a sample to each of them, and the
// fit is made of them and their count.
pub trait FitSums: Copy {
    ghost use Rattle.fit.specs.declared.Fitted.{Fitted};

    // Every sum, of whatever sums up a sample's term.
    ghost totals: { Summing → Self };

    ghost stepped: { Self → MotionSample → Self };

    ghost made: { Self → Float → Fitted };

    fn begin() -> Self
        ensures { result ≡ totals no_sums };

    fn step(self, s: MotionSample) -> Self
        ensures { result ≡ stepped self s };

    fn fit(self, samples: usize) -> Fitted
        requires { samples ≤ most_samples }
        ensures { result ≡ made self (count_as samples) };

    // A step moves each sum by its own term alone.
    ghost moves: { (sum : Summing) (s : MotionSample) → stepped (totals sum) s ≡ totals (λ term. plus term (sum term) s) };
}

impl FitSums for TranslationSums {
    ghost totals = { translation_totals };

    ghost stepped = { translation_step };

    ghost made = { translation_of };

    ghost moves = { translation_moves };

    fn begin() -> TranslationSums {
        TranslationSums { su: 0.0, sv: 0.0 }
    }

    fn step(self, s: MotionSample) -> TranslationSums {
        TranslationSums {
            su: self.su + s.u,
            sv: self.sv + s.v,
        }
    }

    // The mean motion; of no samples not-a-number twice.
    fn fit(self, samples: usize) -> Fitted {
        let n = count_of(samples);
        Fitted::Translation {
            m0: self.su / n,
            m1: self.sv / n,
        }
    }
}

impl FitSums for RotZoomSums {
    ghost totals = { rot_zoom_totals };

    ghost stepped = { rot_zoom_step };

    ghost made = { rot_zoom_of };

    ghost moves = { rot_zoom_moves };

    fn begin() -> RotZoomSums {
        RotZoomSums {
            sx: 0.0,
            sy: 0.0,
            q: 0.0,
            p1: 0.0,
            p2: 0.0,
            su: 0.0,
            sv: 0.0,
        }
    }

    fn step(self, s: MotionSample) -> RotZoomSums {
        RotZoomSums {
            sx: self.sx + s.x,
            sy: self.sy + s.y,
            q: self.q + (s.x * s.x + s.y * s.y),
            p1: self.p1 + (s.x * s.u + s.y * s.v),
            p2: self.p2 + (s.y * s.u - s.x * s.v),
            su: self.su + s.u,
            sv: self.sv + s.v,
        }
    }

    fn fit(self, samples: usize) -> Fitted {
        or_singular(rotzoom_model(self, count_of(samples)))
    }
}

impl FitSums for AffineSums {
    ghost totals = { affine_totals };

    ghost stepped = { affine_step };

    ghost made = { affine_of };

    ghost moves = { affine_moves };

    fn begin() -> AffineSums {
        AffineSums {
            sx: 0.0,
            sy: 0.0,
            sxx: 0.0,
            sxy: 0.0,
            syy: 0.0,
            sxu: 0.0,
            syu: 0.0,
            su: 0.0,
            sxv: 0.0,
            syv: 0.0,
            sv: 0.0,
        }
    }

    fn step(self, s: MotionSample) -> AffineSums {
        AffineSums {
            sx: self.sx + s.x,
            sy: self.sy + s.y,
            sxx: self.sxx + s.x * s.x,
            sxy: self.sxy + s.x * s.y,
            syy: self.syy + s.y * s.y,
            sxu: self.sxu + s.x * s.u,
            syu: self.syu + s.y * s.u,
            su: self.su + s.u,
            sxv: self.sxv + s.x * s.v,
            syv: self.syv + s.y * s.v,
            sv: self.sv + s.v,
        }
    }

    fn fit(self, samples: usize) -> Fitted {
        or_singular(affine_model(self, count_of(samples)))
    }
}

// The sums of a list of words, each made into its sample.
fn sums_of<S: FitSums>(words: &[u32]) -> S
    ensures { result ≡ S.totals (sums_of sample_of words.now) }
{
    let mut t = S::begin();
    for word in words {
        t = t.step(sample::sample_of(*word));
    }
    t
}

// With the centres looked up, and the motions where their table is whole.
fn sums_from<S: FitSums>(motions: &[f64], words: &[u32]) -> S
    requires { Tabled pels_of (length motions.now) motions.now }
    ensures { result ≡ S.totals (sums_of sample_of words.now) }
{
    let centres = sample::centres();
    let mut t = S::begin();
    for word in words {
        t = t.step(sample::sample_from(&centres, motions, *word));
    }
    t
}

// A table of all motions for a long list, and none for a short one.
fn looked_up_sums<S: FitSums>(words: &[u32]) -> S
    ensures { result ≡ S.totals (sums_of sample_of words.now) }
{
    if words.len() < LONG_LIST {
        return sums_from(&[], words);
    }
    sums_from(&sample::motions(), words)
}

// The four equations of a rotation-zoom, without their right side.
fn rotzoom_matrix(t: RotZoomSums, n: f64) -> [f64; 16]
    ensures { result ≡ (rot_zoom_system t n).a }
{
    [
        t.q, 0.0, t.sx, t.sy, 0.0, t.q, t.sy, -t.sx, t.sx, t.sy, n, 0.0, t.sy, -t.sx, 0.0, n,
    ]
}

// The three equations that the rows of u and of v share.
fn affine_matrix(t: AffineSums, n: f64) -> [f64; 16]
    ensures { result ≡ (affine_u t n).a }
{
    [
        t.sxx, t.sxy, t.sx, 0.0, t.sxy, t.syy, t.sy, 0.0, t.sx, t.sy, n, 0.0, 0.0, 0.0, 0.0, 0.0,
    ]
}

// Unknowns in the order alpha, b, tx, ty.
fn rotzoom_model(t: RotZoomSums, n: f64) -> Result<Fitted, Singular>
    ensures { or_singular result ≡ rot_zoom_of t n }
{
    let mut a = rotzoom_matrix(t, n);
    let mut b = [t.p1, t.p2, t.su, t.sv];
    let x = solve::solve_linear(4, &mut a, &mut b)?;
    Ok(Fitted::RotZoom {
        m0: x[2],
        m1: x[3],
        m2: 1.0 + x[0],
        m3: x[1],
    })
}

// The row of u, then the row of v.
fn affine_model(t: AffineSums, n: f64) -> Result<Fitted, Singular>
    ensures { or_singular result ≡ affine_of t n }
{
    let mut a = affine_matrix(t, n);
    let mut u = [t.sxu, t.syu, t.su, 0.0];
    let xu = solve::solve_linear(3, &mut a, &mut u)?;
    let mut a = affine_matrix(t, n);
    let mut v = [t.sxv, t.syv, t.sv, 0.0];
    let xv = solve::solve_linear(3, &mut a, &mut v)?;
    Ok(Fitted::Affine {
        m0: xu[2],
        m1: xv[2],
        m2: 1.0 + xu[0],
        m3: xu[1],
        m4: xv[0],
        m5: 1.0 + xv[1],
    })
}

// Row 6: no model of a singular system.
fn or_singular(solved: Result<Fitted, Singular>) -> Fitted
    ensures { result ≡ or_singular solved }
{
    match solved {
        Err(_) => Fitted::Refused(Refusal::Singular.number()),
        Ok(model) => model,
    }
}

// The sums of samples themselves.
fn sums_over<S: FitSums>(samples: &[MotionSample]) -> S
    ensures { result ≡ S.totals (sums_of itself samples.now) }
{
    let mut t = S::begin();
    for s in samples {
        t = t.step(*s);
    }
    t
}

fn translation_fit(words: &[u32]) -> Fitted
    requires { length words.now ≤ most_samples }
    ensures { result ≡ translation_fit words.now }
{
    sums_of::<TranslationSums>(words).fit(words.len())
}

fn rotzoom_fit(words: &[u32]) -> Fitted
    requires { length words.now ≤ most_samples }
    ensures { result ≡ rot_zoom_fit words.now }
{
    looked_up_sums::<RotZoomSums>(words).fit(words.len())
}

fn affine_fit(words: &[u32]) -> Fitted
    requires { length words.now ≤ most_samples }
    ensures { result ≡ affine_fit words.now }
{
    looked_up_sums::<AffineSums>(words).fit(words.len())
}

// Row 1: a list of so many samples is too long.
pub fn list_refusal(samples: usize) -> Result<(), Refusal>
    ensures { refusal_number result ≡ list_refusal samples }
{
    if samples > MOST_SAMPLES {
        return Err(Refusal::TooLarge);
    }
    Ok(())
}

// The fit of the sums over so many samples, or the list's refusal.
pub fn ends<S: FitSums>(sums: S, samples: usize) -> Fitted
    ensures { result ≡ fit_answer samples (S.made sums (count_as samples)) }
{
    match list_refusal(samples) {
        Err(refusal) => Fitted::Refused(refusal.number()),
        Ok(()) => sums.fit(samples),
    }
}

// The fit of samples themselves, or their list's refusal; a list that is too long isn't walked.
pub fn fit_lent<S: FitSums>(samples: &[MotionSample]) -> Fitted
    ensures { result ≡ fit_answer (length samples.now) (S.made (S.totals (sums_of itself samples.now)) (count_as (length samples.now))) }
{
    match list_refusal(samples.len()) {
        Err(refusal) => Fitted::Refused(refusal.number()),
        Ok(()) => sums_over::<S>(samples).fit(samples.len()),
    }
}

pub fn fit_translation(words: &[u32]) -> Fitted
    ensures { result ≡ fit_answer (length words.now) (translation_fit words.now) }
{
    match list_refusal(words.len()) {
        Err(refusal) => Fitted::Refused(refusal.number()),
        Ok(()) => translation_fit(words),
    }
}

pub fn fit_rotzoom(words: &[u32]) -> Fitted
    ensures { result ≡ fit_answer (length words.now) (rot_zoom_fit words.now) }
{
    match list_refusal(words.len()) {
        Err(refusal) => Fitted::Refused(refusal.number()),
        Ok(()) => rotzoom_fit(words),
    }
}

pub fn fit_affine(words: &[u32]) -> Fitted
    ensures { result ≡ fit_answer (length words.now) (affine_fit words.now) }
{
    match list_refusal(words.len()) {
        Err(refusal) => Fitted::Refused(refusal.number()),
        Ok(()) => affine_fit(words),
    }
}

// Row 4: no type of a fit.
fn type_refusal(gm_type: u8) -> Result<(), Refusal>
    ensures { refusal_number result ≡ type_refusal gm_type }
{
    if gm_type == 0 || gm_type > AFFINE {
        return Err(Refusal::NoSuchCode);
    }
    Ok(())
}

pub fn fit_refusal(gm_type: u8, samples: usize) -> Result<(), Refusal>
    ensures { refusal_number result ≡ fit_refusal gm_type samples }
{
    list_refusal(samples)?;
    type_refusal(gm_type)
}

fn fit_of(gm_type: u8, words: &[u32]) -> Fitted
    requires { length words.now ≤ most_samples }
    ensures { result ≡ fit_of gm_type words.now }
{
    match gm_type {
        TRANSLATION => translation_fit(words),
        ROTZOOM => rotzoom_fit(words),
        _ => affine_fit(words),
    }
}

// The fit of so many samples themselves, of a type code as `fit_model` takes it.
pub fn fit_samples(gm_type: u8, samples: &[MotionSample]) -> Fitted
    requires { length samples.now ≤ most_samples }
    ensures { result ≡ fit_from itself gm_type samples.now }
{
    let n = samples.len();
    match gm_type {
        TRANSLATION => sums_over::<TranslationSums>(samples).fit(n),
        ROTZOOM => sums_over::<RotZoomSums>(samples).fit(n),
        _ => sums_over::<AffineSums>(samples).fit(n),
    }
}

// The fit of a type code: 1 TRANSLATION, 2 ROTZOOM, 3 AFFINE.
pub fn fit_model(gm_type: u8, words: &[u32]) -> Fitted
    ensures { result ≡ fitted gm_type words.now }
{
    match fit_refusal(gm_type, words.len()) {
        Err(refusal) => Fitted::Refused(refusal.number()),
        Ok(()) => fit_of(gm_type, words),
    }
}
