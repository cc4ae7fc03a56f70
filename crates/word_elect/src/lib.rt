// The election of a model (`estimate_global_motion`, encoder/global_motion.rs; docs/RULES.md, 'Election',
// rows 1, 4 and 16): each type's candidate is a fit after trimming. Over any list of samples, and over
// sample words. Who is passed over and who is held is decided in `elect`.
#![tactic(auto)]

ghost use Rattle.std.specs.Prelude.{◌≡◌, ◌≤◌, List, map, length, IfOk};
ghost use Rattle.sample.specs.declared.MotionSample.{MotionSample};
ghost use Rattle.sample.specs.Sample.{sample_of};
ghost use Rattle.sample.specs.Word.{most_samples};
ghost use Rattle.fit.specs.Sums.{itself};
ghost use Rattle.elect.specs.Elect.{error_from, candidate_from, turn, winner_from, elected_from};
ghost use Rattle.word_elect.specs.Inner.{turned};

use elect::{Elected, MIN_MOTION_ENERGY};
use fit::{AFFINE, ROTZOOM, TRANSLATION};
use refusal::Refusal;
use trim::TrimmedModel;

// A list of samples that may elect a model.
pub trait Electorate: Copy {
    ghost samples: { Self → List MotionSample };

    fn count(self) -> usize
        ensures { result ≡ length (samples self) };

    // The trimmed fit of a type on the grid, x first.
    fn candidate(self, flag: u8, gm_type: u8) -> TrimmedModel
        ensures { result ≡ candidate_from itself flag (samples self) gm_type };

    // The score of a model, x first.
    fn error_of(self, params: [i32; 6]) -> f64
        requires { length (samples self) ≤ most_samples }
        ensures { result ≡ error_from itself params (samples self) };
}

#[derive(Clone, Copy)]
struct Words<'a>(&'a [u32]);

impl<'a> Electorate for Words<'a> {
    ghost samples = { λ words. map sample_of words.0.now };

    fn count(self) -> usize {
        self.0.len()
    }

    fn candidate(self, flag: u8, gm_type: u8) -> TrimmedModel {
        word_trim::quantize_trimmed(gm_type, flag, self.0)
    }

    fn error_of(self, params: [i32; 6]) -> f64 {
        score::mean_sq_residual(params, self.0).score
    }
}

// A type's candidate takes its turn: its trimmed fit on the grid, unless that is refused or unfit.
fn turn<L: Electorate>(
    list: L,
    flag: u8,
    energy: f64,
    held: Elected,
    gm_type: u8,
) -> Result<Elected, Refusal>
    requires few { length (L.samples list) ≤ most_samples }
    requires running { held.refusal ≡ 0 }
    ensures answer { turned result ≡ turn itself flag (L.samples list) energy held gm_type }
    ensures running { IfOk result (λ e. e.refusal ≡ 0) }
{
    let candidate = list.candidate(flag, gm_type);
    if candidate.refusal == Refusal::NotFinite.number() {
        return Err(Refusal::NotFinite);
    }
    if candidate.refusal != 0 || elect::unfit(gm_type, candidate.params) {
        return Ok(held);
    }
    let err = list.error_of(candidate.params);
    Ok(elect::held_after(energy, held, gm_type, candidate.params, err))
}

fn winner<L: Electorate>(list: L, flag: u8) -> Result<Elected, Refusal>
    requires { length (L.samples list) ≤ most_samples }
    ensures { turned result ≡ winner_from itself flag (L.samples list) }
{
    let energy = list.error_of(elect::identity_params());
    let nobody = elect::nobody(energy);
    if energy < MIN_MOTION_ENERGY {
        return Ok(nobody);
    }
    let first = turn(list, flag, energy, nobody, TRANSLATION)?;
    let second = turn(list, flag, energy, first, ROTZOOM)?;
    turn(list, flag, energy, second, AFFINE)
}

// Over any list.
pub fn elected<L: Electorate>(list: L, flag: u8) -> Elected
    ensures { result ≡ elected_from itself flag (L.samples list) }
{
    match elect::elect_refusal(flag, list.count()) {
        Err(refusal) => elect::stopped(refusal.number()),
        Ok(()) => match winner(list, flag) {
            Err(refusal) => elect::stopped(refusal.number()),
            Ok(held) => elect::as_stored(held),
        },
    }
}

pub fn elect(flag: u8, words: &[u32]) -> Elected
    ensures { result ≡ elected_from sample_of flag words.now }
{
    elected(Words(words), flag)
}
