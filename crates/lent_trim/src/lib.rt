// Fits after trimming over a lent slice of samples, under their C names: the definitions of the calls
// over sample words, each sample standing for itself (docs/RULES.md, 'Trimming', rows 1, 4, 6, 15 and 16;
// `candidate_for`, encoder/global_motion.rs). A list that is too long isn't walked.
#![tactic(auto)]

ghost use Rattle.std.specs.Prelude.{◌≡◌};
ghost use Rattle.fit.specs.Sums.{itself};
ghost use Rattle.trim.specs.Trim.{trimmed_from, trimmed_model_from};
ghost use Rattle.trim_numbers.specs.Answer.{answer_of};

use sample::MotionSample;
use trim::TrimmedModel;
use trim_numbers::TrimmedAnswer;

// The type code of a fit, and the precision flag of its grid.
#[repr(C)]
#[derive(Clone, Copy)]
pub struct ToTrim {
    pub kind: u8,
    pub flag: u8,
}

pub fn belt_fit_trimmed_samples(samples: &[MotionSample], kind: u8) -> TrimmedAnswer
    ensures { result ≡ answer_of (trimmed_from itself kind samples.now) }
{
    trim_numbers::answer_of(held_trim::trimmed_fit(kind, samples))
}

pub fn belt_quantize_trimmed_samples(samples: &[MotionSample], codes: ToTrim) -> TrimmedModel
    ensures { result ≡ trimmed_model_from itself codes.kind codes.flag samples.now }
{
    held_trim::trimmed_model(codes.kind, codes.flag, samples)
}
