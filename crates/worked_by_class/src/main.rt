// Replays the oracle's list of the six calls over the samples of named classes: each case has words, a
// class for each, a set, a type, a flag and a model to score. Then once more with the words' samples,
// lent.
#![tactic(auto)]

use elect::Elected;
use fit::Fitted;
use fit_numbers::FitAnswer;
use lent_fit::{Params, ToQuantize};
use lent_trim::ToTrim;
use quantize::Quantized;
use replay::{List, OVER};
use score::Score;
use std::{array, io};
use trim::TrimmedModel;
use trim_numbers::TrimmedAnswer;

// What the six calls are asked beside the samples and their classes.
#[derive(Clone, Copy)]
struct Ask {
    set: u8,
    kind: u8,
    flag: u8,
    numbers: [i32; 6],
}

// What they answer.
#[derive(Clone, Copy)]
struct Answers {
    fit: FitAnswer,
    model: Quantized,
    score: Score,
    trimmed: TrimmedAnswer,
    trimmed_model: TrimmedModel,
    elected: Elected,
}

fn next_numbers(list: &mut List) -> [u64; 6] {
    array::from_fn(|_| list.next_bits())
}

fn fit_holds(list: &mut List, answer: FitAnswer) -> bool {
    let refusal = list.next_word();
    let numbers = next_numbers(list);
    answer.refusal == refusal && replay::bits_of(answer.numbers) == numbers
}

fn model_holds(list: &mut List, model: Quantized) -> bool {
    let wanted = Quantized {
        refusal: list.next_word(),
        params: list.next_numbers(),
    };
    model == wanted
}

fn score_holds(list: &mut List, s: Score) -> bool {
    let refusal = list.next_word();
    let score = list.next_bits();
    s.refusal == refusal && replay::bits_of([s.score]) == [score]
}

fn trimmed_holds(list: &mut List, answer: TrimmedAnswer) -> bool {
    let refusal = list.next_word();
    let used = list.next_word();
    let numbers = next_numbers(list);
    answer.refusal == refusal && answer.used == used && replay::bits_of(answer.numbers) == numbers
}

fn trimmed_model_holds(list: &mut List, model: TrimmedModel) -> bool {
    let wanted = TrimmedModel {
        refusal: list.next_word(),
        used: list.next_word(),
        params: list.next_numbers(),
    };
    model == wanted
}

fn elected_holds(list: &mut List, e: Elected) -> bool {
    let refusal = list.next_word();
    let gm_type = list.next_word();
    let params = list.next_numbers();
    let score = list.next_bits();
    e.refusal == refusal
        && u32::from(e.gm_type) == gm_type
        && e.params == params
        && replay::bits_of([e.score]) == [score]
}

// The model to quantize: that of a fit, or of the whole list's fit where it is refused.
fn model_of(fitted: Fitted, kind: u8, words: &[u32]) -> Fitted {
    match fitted {
        Fitted::Refused(_) => fit::fit_model(kind, words),
        _ => fitted,
    }
}

fn of_words(a: Ask, words: &[u32], classes: &[u8]) -> Answers {
    let fitted = by_class::fit_by_class(a.set, a.kind, words, classes);
    let own = model_of(fitted, a.kind, words);
    let trimmed = by_class::fit_trimmed_by_class(a.set, a.kind, words, classes);
    Answers {
        fit: fit_numbers::numbers_of(fitted),
        model: by_class::quantize_by_class(a.set, own, a.flag, words, classes),
        score: by_class::score_by_class(a.set, a.numbers, words, classes),
        trimmed: trim_numbers::answer_of(trimmed),
        trimmed_model: by_class::quantize_trimmed_by_class(a.set, a.kind, a.flag, words, classes),
        elected: by_class::elect_by_class(a.set, a.flag, words, classes),
    }
}

// The model to quantize is the words'.
fn of_samples(a: Ask, words: &[u32], classes: &[u8], samples: &[[f64; 4]]) -> Answers {
    let fitted = by_class::fit_by_class(a.set, a.kind, words, classes);
    let own = model_of(fitted, a.kind, words);
    let answer = fit_numbers::numbers_of(own);
    let numbers = answer.numbers;
    let model = ToQuantize {
        kind: fit::type_of(own),
        flag: a.flag,
        numbers,
    };
    let codes = ToTrim {
        kind: a.kind,
        flag: a.flag,
    };
    let numbers = a.numbers;
    let scored = Params { numbers };
    Answers {
        fit: lent_sets::belt_fit_samples_by_class(a.set, a.kind, samples, classes),
        model: lent_sets::belt_quantize_samples_by_class(a.set, model, samples, classes),
        score: lent_sets::belt_score_samples_by_class(a.set, scored, samples, classes),
        trimmed: lent_sets::belt_fit_trimmed_samples_by_class(a.set, a.kind, samples, classes),
        trimmed_model: lent_sets::belt_quantize_trimmed_samples_by_class(
            a.set, codes, samples, classes,
        ),
        elected: lent_sets::belt_elect_samples_by_class(a.set, a.flag, samples, classes),
    }
}

fn answers_hold(list: &mut List, answers: Answers) -> bool {
    fit_holds(list, answers.fit)
        & model_holds(list, answers.model)
        & score_holds(list, answers.score)
        & trimmed_holds(list, answers.trimmed)
        & trimmed_model_holds(list, answers.trimmed_model)
        & elected_holds(list, answers.elected)
}

fn numbers_of(word: u32) -> [f64; 4] {
    let s = sample::sample_of(word);
    [s.x, s.y, s.u, s.v]
}

// The words' samples, lent.
fn of_lent(a: Ask, words: &[u32], classes: &[u8]) -> Answers {
    let mut samples = [[0.0; 4]; OVER];
    for (sample, word) in samples.iter_mut().zip(words) {
        *sample = numbers_of(*word);
    }
    of_samples(a, words, classes, replay::first(&samples, words.len()))
}

fn calls_hold(list: &mut List, lent: bool) -> bool {
    let mut words = [0; OVER];
    let mut classes = [0; OVER];
    let count = list.next_size();
    let listed = list.next_size();
    if count > OVER || listed > OVER {
        return false;
    }
    let words = &mut words[..count];
    let classes = &mut classes[..listed];
    list.fill_words(&mut *words);
    list.fill(&mut *classes, |list| list.next_code());
    let a = Ask {
        set: list.next_code(),
        kind: list.next_code(),
        flag: list.next_code(),
        numbers: list.next_numbers(),
    };
    let answers = if lent {
        of_lent(a, words, classes)
    } else {
        of_words(a, words, classes)
    };
    answers_hold(list, answers)
}

fn main(rt: HostRuntime) -> io::Result<()> {
    replay::replay_list(&rt, "by_class.bin", "calls by class", |list, _| {
        Ok(calls_hold(list, false))
    })?;
    replay::replay_list(
        &rt,
        "by_class.bin",
        "calls by class over lent samples",
        |list, _| Ok(calls_hold(list, true)),
    )
}
