// An election over samples (docs/RULES.md, 'Election'), which lent samples take: that of `word_elect`, whose
// candidates are the trimmed fits of the samples.
#![tactic(auto)]

ghost use Rattle.std.specs.Prelude.{◌≡◌};
ghost use Rattle.fit.specs.Sums.{itself};
ghost use Rattle.elect.specs.Elect.{elected_from};

use elect::Elected;
use sample::MotionSample;
use trim::TrimmedModel;
use word_elect::Electorate;

#[derive(Clone, Copy)]
struct Samples<'a>(&'a [MotionSample]);

impl<'a> Electorate for Samples<'a> {
    ghost samples = { λ held. held.0.now };

    fn count(self) -> usize {
        self.0.len()
    }

    fn candidate(self, flag: u8, gm_type: u8) -> TrimmedModel {
        held_trim::trimmed_model(gm_type, flag, self.0)
    }

    fn error_of(self, params: [i32; 6]) -> f64 {
        score::score_samples(params, self.0).score
    }
}

pub fn elected_in(flag: u8, samples: &[MotionSample]) -> Elected
    ensures { result ≡ elected_from itself flag samples.now }
{
    word_elect::elected(Samples(samples), flag)
}
