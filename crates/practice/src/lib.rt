// A belt to practise on (docs/RULES.md, 'Practice belt'; rows 1, 18 and 3). In go a seed, the sides of
// a plane and a motion in whole pels; out come, in two lent buffers, a reference plane of noise and an
// input plane, whose pels are the reference pels that lie so far away, clamped as the search clamps.
#![tactic(auto)]

ghost use Rattle.std.specs.Prelude.{◌≡◌, ◌*◌, ◌≤◌, nat_abs, length};
ghost use Rattle.plane.specs.Inner.{Small};
ghost use Rattle.refusal.specs.Number.{refusal_number};
ghost use Rattle.practice.specs.Call.{too_far, too_short, refusal, made, input_left, reference_left};
ghost use Rattle.practice_planes.specs.Shift.{largest_shift};
ghost use Rattle.practice.specs.Inner.{Biased};

use plane::{Offset, Sides};
use practice_planes::LARGEST_SHIFT;
use refusal::Refusal;

// The refusal's number, 0 for none, and how many pels each plane has.
#[repr(C)]
#[derive(Clone, Copy, Debug, PartialEq, Eq)]
pub struct Made {
    pub refusal: u32,
    pub pels: usize,
}

fn magnitude(shift: i32) -> usize
    ensures { result ≡ nat_abs shift }
{
    shift.unsigned_abs() as usize
}

// A shift as the plane takes it: counted from the largest one up or to the left.
fn biased(shift: i32) -> usize
    requires { nat_abs shift ≤ largest_shift }
    ensures { Biased shift result }
{
    let far = magnitude(shift);
    if shift < 0 {
        LARGEST_SHIFT - far
    } else {
        LARGEST_SHIFT + far
    }
}

fn too_far(dy: i32, dx: i32) -> bool
    ensures { result ≡ too_far dy dx }
{
    LARGEST_SHIFT < magnitude(dy) || LARGEST_SHIFT < magnitude(dx)
}

fn too_short(sides: Sides, input: usize, reference: usize) -> bool
    requires { Small sides.width sides.height }
    ensures { result ≡ too_short sides.width sides.height input reference }
{
    let pels = sides.height * sides.width;
    input < pels || reference < pels
}

// The first row that holds.
fn refusal_of(sides: Sides, dy: i32, dx: i32, input: usize, reference: usize) -> Result<(), Refusal>
    ensures { refusal_number result ≡ refusal sides.width sides.height dy dx input reference }
{
    let large = search::refusals::too_large(sides.width, sides.height);
    let far = too_far(dy, dx);
    if large {
        return Err(Refusal::TooLarge);
    }
    let short = too_short(sides, input, reference);
    if far {
        return Err(Refusal::TooFar);
    }
    if short {
        return Err(Refusal::TooShort);
    }
    Ok(())
}

pub fn make_practice_planes(
    seed: u32,
    width: usize,
    height: usize,
    dy: i32,
    dx: i32,
    input: &mut [u16],
    reference: &mut [u16],
) -> Made
    ensures value { result ≡ made width height dy dx (length input.old) (length reference.old) }
    ensures input_after { input.new ≡ input_left seed width height dy dx (length reference.old) input.old }
    ensures reference_after { reference.new ≡ reference_left seed width height dy dx (length input.old) reference.old }
{
    let sides = Sides { width, height };
    if let Err(refusal) = refusal_of(sides, dy, dx, input.len(), reference.len()) {
        return Made {
            refusal: refusal.number(),
            pels: 0,
        };
    }
    let by = Offset {
        y: biased(dy),
        x: biased(dx),
    };
    practice_planes::fill_planes(seed, sides, by, &mut *input, &mut *reference);
    Made {
        refusal: 0,
        pels: height * width,
    }
}
