// Replays the oracle's lists of fits, systems, grid numbers, words in several orders, samples of any
// numbers and fits after trimming, then tries the refusals.
#![tactic(auto)]

use fit::{AFFINE, Fitted, ROTZOOM, TRANSLATION};
use fit_numbers::FitAnswer;
use lent_fit::{Params, ToQuantize};
use lent_trim::ToTrim;
use quantize::Quantized;
use refusal::Refusal;
use replay::{IDENTITY, List, OVER};
use sample::{MOST_SAMPLES, MotionSample};
use score::Score;
use std::{array, io};
use trim::TrimmedModel;
use trim_numbers::TrimmedAnswer;

// ---- a model fitted to words or to samples

#[derive(Clone, Copy)]
enum Samples<'a> {
    Words(&'a [u32]),
    Any(&'a [MotionSample]),
}

// The fit by its name or by its type code.
fn fit_of(gm_type: u8, named: bool, words: &[u32]) -> Fitted {
    match gm_type {
        _ if !named => fit::fit_model(gm_type, words),
        TRANSLATION => fit::fit_translation(words),
        ROTZOOM => fit::fit_rotzoom(words),
        _ => fit::fit_affine(words),
    }
}

impl<'a> Samples<'a> {
    fn fit(self, gm_type: u8, named: bool) -> FitAnswer {
        match self {
            Samples::Words(words) => fit_numbers::numbers_of(fit_of(gm_type, named, words)),
            Samples::Any(samples) => match gm_type {
                TRANSLATION => lent_fit::belt_fit_translation_samples(samples),
                ROTZOOM => lent_fit::belt_fit_rotzoom_samples(samples),
                _ => lent_fit::belt_fit_affine_samples(samples),
            },
        }
    }

    fn quantize(self, model: ToQuantize) -> Quantized {
        match self {
            Samples::Words(words) => {
                let fitted = fit_numbers::fitted_of(model.kind, model.numbers);
                quantize::quantize_model(fitted, model.flag, words)
            }
            Samples::Any(samples) => lent_fit::belt_quantize_model_samples(samples, model),
        }
    }

    fn score(self, numbers: [i32; 6]) -> Score {
        match self {
            Samples::Words(words) => score::mean_sq_residual(numbers, words),
            Samples::Any(samples) => {
                lent_fit::belt_mean_sq_residual_samples(samples, Params { numbers })
            }
        }
    }

    fn fit_trimmed(self, gm_type: u8) -> TrimmedAnswer {
        match self {
            Samples::Words(words) => {
                trim_numbers::answer_of(word_trim::fit_trimmed(gm_type, words))
            }
            Samples::Any(samples) => lent_trim::belt_fit_trimmed_samples(samples, gm_type),
        }
    }

    fn quantize_trimmed(self, codes: ToTrim) -> TrimmedModel {
        match self {
            Samples::Words(words) => word_trim::quantize_trimmed(codes.kind, codes.flag, words),
            Samples::Any(samples) => lent_trim::belt_quantize_trimmed_samples(samples, codes),
        }
    }

    // One type of a case: a refusal or 0, the values, the quantized model, its score.
    fn plain_holds(self, list: &mut List, gm_type: u8, flag: u8) -> bool {
        let refusal = list.next_word();
        let values = next_values(list, gm_type);
        let params = list.next_numbers();
        let score = list.next_bits();
        let fitted = self.fit(gm_type, flag == 0);
        if refusal != 0 {
            return fitted.refusal == refusal;
        }
        let numbers = fitted.numbers;
        let quantized = self.quantize(ToQuantize {
            kind: gm_type,
            flag,
            numbers,
        });
        let scored = self.score(params);
        fitted.refusal == 0
            && replay::bits_of(fitted.numbers) == values
            && quantized == Quantized { refusal: 0, params }
            && scored.refusal == 0
            && replay::bits_of([scored.score]) == [score]
    }

    // The same after trimming: a refusal, the samples used and zeros or the values, where those of words
    // that are refused don't count; then of the quantized model.
    fn trimmed_holds(self, list: &mut List, gm_type: u8, flag: u8) -> bool {
        let refusal = list.next_word();
        let used = list.next_word();
        let values = next_values(list, gm_type);
        let wanted = TrimmedModel {
            refusal: list.next_word(),
            used: list.next_word(),
            params: list.next_numbers(),
        };
        let fitted = self.fit_trimmed(gm_type);
        let model = self.quantize_trimmed(ToTrim {
            kind: gm_type,
            flag,
        });
        let numbers_hold = match self {
            Samples::Words(_) if refusal != 0 => true,
            _ => replay::bits_of(fitted.numbers) == values,
        };
        fitted.refusal == refusal && fitted.used == used && numbers_hold && model == wanted
    }

    fn all_plain_hold(self, list: &mut List, flag: u8) -> bool {
        let mut right = true;
        for gm_type in TRANSLATION..=AFFINE {
            right &= self.plain_holds(list, gm_type, flag);
        }
        right
    }

    fn all_hold(self, list: &mut List, flag: u8) -> bool {
        let mut right = true;
        for gm_type in TRANSLATION..=AFFINE {
            right &= self.plain_holds(list, gm_type, flag);
            right &= self.trimmed_holds(list, gm_type, flag);
        }
        right
    }
}

// The bits of the values that a fitted model carries, 0 for those that its type doesn't.
fn next_values(list: &mut List, gm_type: u8) -> [u64; 6] {
    let carried = 2 * usize::from(gm_type.clamp(TRANSLATION, AFFINE));
    array::from_fn(|i| if i < carried { list.next_bits() } else { 0 })
}

// ---- the cases of each list

fn flag_of(case: u64) -> u8 {
    (case % 2) as u8
}

// The words are remade from a seed.
fn fit_holds(list: &mut List, flag: u8) -> bool {
    let mut words = [0u32; MOST_SAMPLES];
    let mut state = list.next_word();
    let count = list.next_size();
    let mask = list.next_word();
    let fixed = list.next_word();
    if count > MOST_SAMPLES {
        return false;
    }
    for word in &mut words[..count] {
        let high = generator::next_state(state);
        state = generator::next_state(high);
        *word = ((high & 0xffff_0000) | (state >> 16)) & mask | fixed;
    }
    Samples::Words(&words[..count]).all_plain_hold(list, flag)
}

fn system_holds(list: &mut List) -> bool {
    let size = list.next_size() % 5;
    let mut a = list.next_floats();
    let mut b = list.next_floats();
    let (refusal, x) = match solve::solve_linear(size, &mut a, &mut b) {
        Ok(x) => (0, x),
        Err(_) => (Refusal::Singular.number(), [0.0; 4]),
    };
    let wanted = list.next_word();
    let values: [u64; 4] = array::from_fn(|_| list.next_bits());
    refusal == wanted && replay::bits_of(x) == values
}

// The words of one order.
fn order_holds(list: &mut List, flag: u8) -> bool {
    let mut words = [0u32; MOST_SAMPLES];
    let count = list.next_size();
    if count > MOST_SAMPLES {
        return false;
    }
    list.fill_words(&mut words[..count]);
    Samples::Words(&words[..count]).all_plain_hold(list, flag)
}

fn samples_hold(list: &mut List, flag: u8) -> bool {
    let count = list.next_size();
    let written = list.next_size();
    let samples = list.next_sample_array(written);
    count <= OVER && Samples::Any(replay::first(&samples, count)).all_hold(list, flag)
}

fn trimmed_holds(list: &mut List) -> bool {
    let mut words = [0u32; OVER];
    let count = list.next_size();
    if count > OVER {
        return false;
    }
    list.fill_words(&mut words[..count]);
    let gm_type = list.next_code();
    let flag = list.next_code();
    Samples::Words(&words[..count]).trimmed_holds(list, gm_type, flag)
}

fn grid_number_holds(list: &mut List) -> bool {
    let value = list.next_float();
    grid_number::grid_number(value) == list.next_number()
}

// ---- refusals

// Refusals beside those that are wanted, and what asks for each.
fn print_refusals(rt: &impl Print, name: &str, cases: &[(u32, u32, &str)]) -> io::Result<()> {
    for (refusal, wanted, what) in cases {
        if refusal != wanted {
            println!(rt; "refusals: wrong at {what}")?;
        }
    }
    let tried = cases.len();
    println!(rt; "{name}: {tried} tried")
}

fn try_refusals(rt: &impl Print) -> io::Result<()> {
    let words = [0u32; OVER];
    let few = [0u32; 8];
    let fitted = |gm_type, words: &[u32]| fit::refusal_of(fit::fit_model(gm_type, words));
    let quantized = |fitted, words: &[u32]| quantize::quantize_model(fitted, 2, words).refusal;
    let still = Fitted::Translation { m0: 0.0, m1: 0.0 };
    print_refusals(
        rt,
        "refusals",
        &[
            (fitted(1, &words), 1, "4097 words, type 1"),
            (fitted(0, &words), 1, "4097 words, type 0"),
            (
                fit::refusal_of(fit::fit_affine(&words)),
                1,
                "4097 words, affine",
            ),
            (fitted(0, &few), 4, "type 0"),
            (fitted(4, &few), 4, "type 4"),
            (quantized(still, &words), 1, "4097 words, flag 2"),
            (quantized(still, &few), 4, "flag 2"),
            (
                quantize::quantize_model(Fitted::Refused(6), 0, &few).refusal,
                4,
                "a refused fit",
            ),
            (
                score::mean_sq_residual(IDENTITY, &words).refusal,
                1,
                "4097 words, score",
            ),
        ],
    )
}

// Of the calls over samples; the list has the fits' own.
fn try_refusals_of_samples(rt: &impl Print) -> io::Result<()> {
    let still = MotionSample {
        x: 0.0,
        y: 0.0,
        u: 0.0,
        v: 0.0,
    };
    let samples = [still; OVER];
    let numbers = [0.0, 0.0, 1.0, 0.0, 0.0, 1.0];
    let quantized = |kind, flag, count: usize| {
        let model = ToQuantize {
            kind,
            flag,
            numbers,
        };
        Samples::Any(replay::first(&samples, count))
            .quantize(model)
            .refusal
    };
    let trimmed = |kind, flag, count: usize| {
        Samples::Any(replay::first(&samples, count))
            .quantize_trimmed(ToTrim { kind, flag })
            .refusal
    };
    print_refusals(
        rt,
        "refusals of samples",
        &[
            (quantized(1, 2, 4097), 1, "4097 samples, flag 2"),
            (quantized(1, 2, 4096), 4, "4096 samples, flag 2"),
            (quantized(0, 1, 3), 4, "3 samples, type 0"),
            (quantized(4, 1, 3), 4, "3 samples, type 4"),
            (
                Samples::Any(&samples).score(IDENTITY).refusal,
                1,
                "4097 samples, score",
            ),
            (
                trimmed(0, 2, 4097),
                1,
                "4097 samples to trim, type 0, flag 2",
            ),
            (trimmed(1, 2, 3), 4, "3 samples to trim, flag 2"),
            (trimmed(4, 0, 3), 4, "3 samples to trim, type 4"),
            (trimmed(1, 0, 3), 15, "3 samples to trim"),
        ],
    )
}

fn main(rt: HostRuntime) -> io::Result<()> {
    replay::replay_list(&rt, "fits.bin", "fits", |list, case| {
        Ok(fit_holds(list, flag_of(case)))
    })?;
    replay::replay_list(&rt, "systems.bin", "systems", |list, _| {
        Ok(system_holds(list))
    })?;
    replay::replay_list(&rt, "orders.bin", "orders", |list, case| {
        Ok(order_holds(list, flag_of(case)))
    })?;
    replay::replay_list(&rt, "samples.bin", "samples", |list, case| {
        Ok(samples_hold(list, flag_of(case)))
    })?;
    replay::replay_list(&rt, "trimmed.bin", "trimmed", |list, _| {
        Ok(trimmed_holds(list))
    })?;
    replay::replay_list(&rt, "grid_numbers.bin", "grid numbers", |list, _| {
        Ok(grid_number_holds(list))
    })?;
    try_refusals(&rt)?;
    try_refusals_of_samples(&rt)
}
