// The election of a model: a precision flag and samples go in; the elected type, its six numbers as
// stored and its score come out, IDENTITY where nobody wins (`estimate_global_motion`,
// encoder/global_motion.rs; docs/RULES.md, 'Election', rows 1, 4 and 16). Who is passed over and who is
// held, for `word_elect` too; and the election over numbers in a call's own memory, which lent samples
// take. Who is held is an answer whose numbers are still x first.
#![tactic(auto)]

ghost use Rattle.std.specs.Prelude.{◌≡◌};
ghost use Rattle.refusal.specs.Number.{refusal_number};
ghost use Rattle.elect.specs.Elect.{identity_params, is_identity, invalid_shear, unfit, nobody, stopped, beats, held_after, elect_refusal, as_stored};

use fit::ROTZOOM;
use grid::IDENTITY;
use refusal::Refusal;

// A field of less energy than this stands still.
pub const MIN_MOTION_ENERGY: f64 = 0.25;

// The part of the energy that a model must explain.
const ELECT_ENERGY_RATIO: f64 = 0.75;

// A higher type's error is at most this part of the held one's, and below it by more than the gain.
const CLASS_UPGRADE_RATIO: f64 = 0.8;

const CLASS_UPGRADE_MIN_GAIN: f64 = 0.02;

// A row of the table of refusals (0: none), the elected type, its six numbers as stored, and its score.
#[repr(C)]
#[derive(Clone, Copy)]
pub struct Elected {
    pub refusal: u32,
    pub gm_type: u8,
    pub params: [i32; 6],
    pub score: f64,
}

// ---- errors

pub fn identity_params() -> [i32; 6]
    ensures { result ≡ identity_params }
{
    [0, 0, 65536, 0, 0, 65536]
}

// ---- who is passed over

fn is_identity(params: [i32; 6]) -> bool
    ensures { result ≡ is_identity params }
{
    !models::model_wrong(IDENTITY, 0, &params, 0)
}

// A TRANSLATION has no shear.
fn invalid_shear(gm_type: u8, params: [i32; 6]) -> bool
    ensures { result ≡ invalid_shear gm_type params }
{
    gm_type >= ROTZOOM && shear::setup_shear(gm_type, &params).valid == 0
}

#[tactic(auto, unfolding(crate::specs::Elect::unfit))]
pub fn unfit(gm_type: u8, params: [i32; 6]) -> bool
    ensures { result ≡ unfit gm_type params }
{
    is_identity(params) || invalid_shear(gm_type, params)
}

// ---- who is held

pub fn nobody(energy: f64) -> Elected
    ensures { result ≡ nobody energy }
{
    Elected {
        refusal: 0,
        gm_type: IDENTITY,
        params: identity_params(),
        score: energy,
    }
}

// The answer of a call that is refused.
pub fn stopped(number: u32) -> Elected
    ensures { result ≡ stopped number }
{
    Elected {
        refusal: number,
        gm_type: IDENTITY,
        params: [0; 6],
        score: 0.0,
    }
}

fn beats(err: f64, held: Elected) -> bool
    ensures { result ≡ beats err held }
{
    held.gm_type == IDENTITY
        || (err <= CLASS_UPGRADE_RATIO * held.score && CLASS_UPGRADE_MIN_GAIN < held.score - err)
}

pub fn held_after(energy: f64, held: Elected, gm_type: u8, params: [i32; 6], err: f64) -> Elected
    ensures { result ≡ held_after energy held gm_type params err }
{
    if (1.0 - ELECT_ENERGY_RATIO) * energy < err {
        return held;
    }
    if beats(err, held) {
        return Elected {
            refusal: 0,
            gm_type,
            params,
            score: err,
        };
    }
    held
}

pub fn as_stored(held: Elected) -> Elected
    ensures { result ≡ as_stored held }
{
    Elected {
        params: quantize::row_first(held.gm_type, held.params),
        ..held
    }
}

// ---- the call

pub fn elect_refusal(flag: u8, samples: usize) -> Result<(), Refusal>
    ensures { refusal_number result ≡ elect_refusal flag samples }
{
    fit::list_refusal(samples)?;
    if flag > 1 {
        return Err(Refusal::NoSuchCode);
    }
    Ok(())
}
