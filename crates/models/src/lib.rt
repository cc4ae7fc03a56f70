// What a header can carry: types, models and priors go in, whether a row of the table of refusals
// holds comes out; so for the bit at which a header begins. Answers to docs/RULES.md, 'Header' (the
// slots of a type, the pair, the start) and rows 4, 14, 7 and 8; clause 5.9.24; the assertions of
// `write_global_param` and `encode_inter_global_motion`.
#![tactic(auto)]

ghost use Rattle.std.specs.Prelude.{◌≡◌, ◌+◌, ◌*◌, ◌≤◌, ◌<◌, length};
ghost use Rattle.laws.specs.Below.{any_below};
ghost use Rattle.grid.specs.Symbols.{prior_out};
ghost use Rattle.models.specs.Models.{carries, filler, slot_wrong, slot_at, model_wrong, models_wrong, prior_at, priors_out, types_over, start_over};
ghost use Rattle.models.specs.Inner.{SixNext, NoneBefore};

use grid::{AFFINE, IDENTITY, ROTZOOM, TRANSLATION};

pub const REFERENCES: usize = 7;

pub const SLOTS: usize = 6;

// Six numbers for each of seven references.
pub const NUMBERS: usize = 42;

// The last bit of the first byte, at which a header may begin.
const LAST_START: usize = 7;

// docs/RULES.md, 'Header': how far a prior's number may lie from its slot's centre, in slots 0 and 1 and in
// the others.
const TRANSLATION_PRIOR: u64 = 4194304;

const LINEAR_PRIOR: u64 = 8192;

pub fn carries_slot(gm_type: u8, slot: u8) -> bool
    ensures { result ≡ carries gm_type slot }
{
    match gm_type {
        IDENTITY => false,
        TRANSLATION => slot < 2,
        ROTZOOM => slot < 4,
        _ => true,
    }
}

// What a slot holds that its type doesn't carry: ROTZOOM's pair, otherwise the identity value. In 64 bits, since the least i32
// has no opposite among the i32.
fn filler(gm_type: u8, slot: u8, p2: i32, p3: i32) -> i64
    ensures { result ≡ filler gm_type slot p2 p3 }
{
    match (gm_type, slot) {
        (ROTZOOM, 4) => -(p3 as i64),
        (ROTZOOM, _) => p2 as i64,
        _ => grid::centre_of(slot) as i64,
    }
}

// A slot's number is on its grid, or what fills a slot that the type doesn't carry.
fn slot_wrong(gm_type: u8, flag: u8, slot: u8, z: i32, p2: i32, p3: i32) -> bool
    ensures { result ≡ slot_wrong gm_type flag slot z p2 p3 }
{
    if carries_slot(gm_type, slot) {
        return grid::off_grid(gm_type, flag, slot, z);
    }
    z as i64 != filler(gm_type, slot, p2, p3)
}

fn slot_at(gm_type: u8, flag: u8, params: &[i32], first: usize, slot: u8) -> bool
    requires { (first + 6 ≤ length params.now) × (slot < 6) }
    ensures { result ≡ slot_at gm_type flag params.now first slot }
{
    let z = params[first + slot as usize];
    slot_wrong(gm_type, flag, slot, z, params[first + 2], params[first + 3])
}

// The six slots of the model whose numbers begin at `first`.
fn slots_wrong(gm_type: u8, flag: u8, params: &[i32], first: usize) -> bool
    requires { first + 6 ≤ length params.now }
    ensures { result ≡ model_wrong gm_type flag params.now first }
{
    for slot in 0..6u8 {
        if slot_at(gm_type, flag, params, first, slot) {
            return true;
        }
    }
    false
}

// That model. The types that fill most slots are named, so that the compiler knows what their slots hold.
pub fn model_wrong(gm_type: u8, flag: u8, params: &[i32], first: usize) -> bool
    requires { first + 6 ≤ length params.now }
    ensures { result ≡ model_wrong gm_type flag params.now first }
{
    match gm_type {
        IDENTITY => slots_wrong(IDENTITY, flag, params, first),
        TRANSLATION => slots_wrong(TRANSLATION, flag, params, first),
        _ => slots_wrong(gm_type, flag, params, first),
    }
}

// As many models as there are types.
pub fn models_wrong(types: &[u8], flag: u8, params: &[i32]) -> bool
    requires { 6 * length types.now ≤ length params.now }
    ensures { result ≡ models_wrong types.now flag params.now }
{
    for (k, gm_type) in types.iter().enumerate() {
        if model_wrong(*gm_type, flag, params, SLOTS * k) {
            return true;
        }
    }
    false
}

pub fn prior_out(slot: u8, z: i32) -> bool
    ensures { result ≡ prior_out slot z }
{
    let reach = if slot < 2 {
        TRANSLATION_PRIOR
    } else {
        LINEAR_PRIOR
    };
    reach < grid::magnitude(grid::from_centre(z, grid::centre_of(slot)))
}

// The six priors of a reference, from `first` on: some prior up to the last of them is out of range.
fn six_out(prior: &[i32], first: usize) -> bool
    requires { SixNext prior.now first }
    ensures { result ≡ any_below (prior_at prior.now) (first + 6) }
{
    for slot in 0..6u8 {
        if prior_out(slot, prior[first + slot as usize]) {
            return true;
        }
    }
    false
}

// Those from `first` on, where the priors before are in range.
fn rest_out(prior: &[i32], first: usize) -> bool
    requires { NoneBefore prior.now first }
    ensures { result ≡ priors_out prior.now }
{
    for i in first..prior.len() {
        if prior_out((i % SLOTS) as u8, prior[i]) {
            return true;
        }
    }
    false
}

// A list of priors, six to a reference: the slot of each is known where whole references are looked at.
pub fn priors_out(prior: &[i32]) -> bool
    ensures { result ≡ priors_out prior.now }
{
    let references = prior.len() / SLOTS;
    for r in 0..references {
        if six_out(prior, SLOTS * r) {
            return true;
        }
    }
    rest_out(prior, SLOTS * references)
}

pub fn types_over(types: &[u8]) -> bool
    ensures { result ≡ types_over types.now }
{
    types.iter().any(|gm_type| AFFINE < *gm_type)
}

// The bit of the first byte at which writing begins.
pub fn start_over(start: usize) -> bool
    ensures { result ≡ start_over start }
{
    LAST_START < start
}
