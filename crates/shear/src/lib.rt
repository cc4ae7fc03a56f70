// The shear check: a type and six numbers of a model go in, the four shear numbers of its warp and
// whether a decoder keeps the warp come out. Answers to docs/RULES.md, 'Shear', rows 2, 4 and 7 of
// docs/RULES.md, and clauses 7.11.3.6 and 7.11.3.7 of the standard, whose names it has.
#![tactic(auto)]

ghost use Rattle.std.specs.Prelude.{◌≡◌, ◌<◌, ◌≤◌, pos, length, get_or};
ghost use Rattle.refusal.specs.Number.{number_of, refusal_number};
ghost use Rattle.shear.specs.Call.{judged, shear_of, not_warped, shear_refusal, rejected, shear};
ghost use Rattle.warp.specs.Inner.{Linear, Clamped};

use grid::{AFFINE, ROTZOOM};
use refusal::Refusal;

// A row of the table of refusals (0: none); whether a decoder keeps the warp; the shear numbers,
// whether it does or not.
#[repr(C)]
#[derive(Clone, Copy, Debug, PartialEq, Eq)]
pub struct Shear {
    pub refusal: u32,
    pub valid: u32,
    pub alpha: i32,
    pub beta: i32,
    pub gamma: i32,
    pub delta: i32,
}

// The four numbers with the verdict on them.
fn judged(alpha: i64, beta: i64, gamma: i64, delta: i64) -> Shear
    requires { Clamped alpha beta gamma delta }
    ensures { result ≡ judged alpha beta gamma delta }
{
    Shear {
        refusal: 0,
        valid: warp::warp_valid(alpha, beta, gamma, delta),
        alpha: alpha as i32,
        beta: beta as i32,
        gamma: gamma as i32,
        delta: delta as i32,
    }
}

// Clause 7.11.3.6.
fn shear_of(p2: i64, p3: i64, p4: i64, p5: i64) -> Shear
    requires { Linear p2 p3 p4 p5 }
    ensures { result ≡ shear_of p2 p3 p4 p5 }
{
    let alpha = warp::reduce(warp::alpha0(p2));
    let beta = warp::reduce(warp::clamp(p3));
    let gamma = warp::reduce(warp::gamma0(p2, p4));
    let delta = warp::reduce(warp::delta0(p2, p3, p4, p5));
    judged(alpha, beta, gamma, delta)
}

// The row that holds, and no number.
fn refused(refusal: Refusal) -> Shear
    ensures { result ≡ rejected (number_of refusal) }
{
    Shear {
        refusal: refusal.number(),
        valid: 0,
        alpha: 0,
        beta: 0,
        gamma: 0,
        delta: 0,
    }
}

// Neither ROTZOOM nor AFFINE, or not as a header can carry it; its grid has no flag.
fn not_warped(gm_type: u8, params: &[i32]) -> bool
    requires { 6 ≤ length params.now }
    ensures { result ≡ not_warped gm_type params.now }
{
    gm_type < ROTZOOM || models::model_wrong(gm_type, 0, params, 0)
}

#[tactic(auto, unfolding(crate::specs::Call::shear_refusal))]
fn refusal_of(gm_type: u8, params: &[i32]) -> Result<(), Refusal>
    ensures { refusal_number result ≡ shear_refusal gm_type params.now }
{
    if params.len() != 6 {
        return Err(Refusal::WrongLength);
    }
    if AFFINE < gm_type {
        return Err(Refusal::NoSuchCode);
    }
    if not_warped(gm_type, params) {
        return Err(Refusal::ModelWrong);
    }
    Ok(())
}

fn slot(params: &[i32], i: usize) -> i64
    requires { i < length params.now }
    ensures { result ≡ get_or params.now i (pos 0) }
{
    params[i] as i64
}

pub fn setup_shear(gm_type: u8, params: &[i32]) -> Shear
    ensures { result ≡ shear gm_type params.now }
{
    match refusal_of(gm_type, params) {
        Ok(()) => shear_of(
            slot(params, 2),
            slot(params, 3),
            slot(params, 4),
            slot(params, 5),
        ),
        Err(refusal) => refused(refusal),
    }
}
