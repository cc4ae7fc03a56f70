// The election over a lent slice of samples, under its C name: the definition of the call over sample
// words, each sample standing for itself (docs/RULES.md, 'Election', rows 1, 4 and 16;
// `estimate_global_motion`, encoder/global_motion.rs). A list that is too long isn't walked.
#![tactic(auto)]

ghost use Rattle.std.specs.Prelude.{◌≡◌};
ghost use Rattle.fit.specs.Sums.{itself};
ghost use Rattle.elect.specs.Elect.{elected_from};

use elect::Elected;
use sample::MotionSample;

pub fn belt_elect_samples(samples: &[MotionSample], flag: u8) -> Elected
    ensures { result ≡ elected_from itself flag samples.now }
{
    held_elect::elected_in(flag, samples)
}
