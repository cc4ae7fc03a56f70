// A key frame's global motion (docs/RULES.md, 'Key frames'; clause 5.9.24, where FrameIsIntra holds): the
// rows of types and models that aren't all identities, and the seven identities that it is read as.
#![tactic(auto)]

ghost use Rattle.std.specs.Prelude.{◌≡◌, ◌*◌, ◌≤◌, length};
ghost use Rattle.laws.specs.Refusal.{judge};
ghost use Rattle.refusal.specs.Number.{refusal_number};
ghost use Rattle.key_frame.specs.Key.{identities, key_lengths_wrong, some_type, not_identity, key_code_rows, key_model_rows, key_refusal};
ghost use Rattle.key_frame.specs.Inner.{identity_at};

use grid::IDENTITY;
use models::{NUMBERS, REFERENCES};
use refusal::Refusal;

// The whole of a number at 16 fraction bits: slots 2 and 5 of the identity.
const WHOLE: i32 = 65536;

pub fn key_lengths_wrong(types: usize, params: usize) -> bool
    ensures { result ≡ key_lengths_wrong types params }
{
    types != REFERENCES || params != NUMBERS
}

// A type that isn't IDENTITY.
fn some_type(types: &[u8]) -> bool
    ensures { result ≡ some_type types.now }
{
    types.iter().any(|gm_type| *gm_type != IDENTITY)
}

fn not_identity(types: &[u8], flag: u8, params: &[i32]) -> bool
    requires { 6 * length types.now ≤ length params.now }
    ensures { result ≡ not_identity types.now flag params.now }
{
    some_type(types) || models::models_wrong(types, flag, params)
}

// Lengths, types and flag.
fn key_code_refusal(types: &[u8], params: &[i32], flag: u8) -> Result<(), Refusal>
    ensures { refusal_number result ≡ judge (key_code_rows types.now params.now flag) }
{
    if key_lengths_wrong(types.len(), params.len()) {
        return Err(Refusal::WrongLength);
    }
    if models::types_over(types) || 1 < flag {
        return Err(Refusal::NoSuchCode);
    }
    Ok(())
}

// Start and models.
fn key_model_refusal(start: usize, types: &[u8], params: &[i32], flag: u8) -> Result<(), Refusal>
    requires { 6 * length types.now ≤ length params.now }
    ensures { refusal_number result ≡ judge (key_model_rows start types.now params.now flag) }
{
    if models::start_over(start) {
        return Err(Refusal::StartOver);
    }
    if not_identity(types, flag, params) {
        return Err(Refusal::ModelWrong);
    }
    Ok(())
}

#[tactic(auto, unfolding(crate::specs::Key::key_refusal))]
pub fn key_refusal(start: usize, types: &[u8], params: &[i32], flag: u8) -> Result<(), Refusal>
    ensures { refusal_number result ≡ key_refusal start types.now params.now flag }
{
    key_code_refusal(types, params, flag)?;
    key_model_refusal(start, types, params, flag)
}

// The number at place i of identities: every third is the whole.
fn identity_number(i: usize) -> i32
    ensures { result ≡ identity_at i }
{
    if i % 3 == 2 { WHOLE } else { 0 }
}

// The seven models of a key frame.
pub fn seven_identities() -> [i32; 42]
    ensures { result ≡ identities 7 }
{
    let mut out = [0i32; 42];
    for (i, number) in out.iter_mut().enumerate() {
        *number = identity_number(i);
    }
    out
}
