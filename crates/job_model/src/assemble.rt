// Seven models in rising order of reference: six others, and the one at its reference, go in; the
// seven types and 42 numbers come out. Answers to docs/RULES.md, 'Job' (the models that it reports and
// writes).
ghost use Rattle.std.specs.Prelude.{◌≡◌, ◌+◌, [], ◌∷◌, ◌≤◌, length};
ghost use Rattle.job_model.specs.Assemble.{types_with, models_with, inserted};
ghost use Rattle.job_model.specs.Inner.{Reference};

use models::SLOTS;

// The others with these at a place.
fn insert<T: Copy>(out: &mut [T], place: usize, own: &[T], others: &[T])
    requires within { place ≤ length others.now }
    requires whole { length out.old ≡ length own.now + length others.now }
    ensures { out.new ≡ inserted place own.now others.now }
{
    let (front, rest) = out.split_at_mut(place);
    let (middle, back) = rest.split_at_mut(own.len());
    front.copy_from_slice(&others[..place]);
    middle.copy_from_slice(own);
    back.copy_from_slice(&others[place..]);
}

pub fn types_with(types: &[u8], reference: u8, own: u8) -> [u8; 7]
    requires { (length types.now ≡ 6) × Reference reference }
    ensures { result ≡ types_with reference own types.now }
{
    let mut out = [0u8; 7];
    insert(&mut out, reference as usize - 1, &[own], types);
    out
}

pub fn models_with(models: &[i32], reference: u8, own: [i32; 6]) -> [i32; 42]
    requires { (length models.now ≡ 36) × Reference reference }
    ensures { result ≡ models_with reference own models.now }
{
    let mut out = [0i32; 42];
    insert(&mut out, SLOTS * (reference as usize - 1), &own, models);
    out
}
