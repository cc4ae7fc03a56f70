// A fit after trimming as the numbers that pass to C: its refusal, how many samples it used, and six
// numbers (docs/RULES.md, 'Trimming').
#![tactic(auto)]

ghost use Rattle.std.specs.Prelude.{◌≡◌};
ghost use Rattle.trim_numbers.specs.Answer.{answer_of};

use trim::Trimmed;

// Two numbers of a translation, four of a rotation-zoom, six of an affine model, zeros after them.
#[repr(C)]
#[derive(Clone, Copy)]
pub struct TrimmedAnswer {
    pub refusal: u32,
    pub used: u32,
    pub numbers: [f64; 6],
}

pub fn answer_of(t: Trimmed) -> TrimmedAnswer
    ensures { result ≡ answer_of t }
{
    let used = t.used;
    let fitted = t.fitted;
    let answer = fit_numbers::numbers_of(fitted);
    let numbers = answer.numbers;
    TrimmedAnswer {
        refusal: answer.refusal,
        used,
        numbers,
    }
}
