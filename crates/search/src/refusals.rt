// The rows of the table of refusals that the search meets: 1, 2, 4, 3 (docs/RULES.md).
ghost use Rattle.std.specs.Prelude.{◌≡◌};
ghost use Rattle.laws.specs.Refusal.{judge};
ghost use Rattle.refusal.specs.Number.{refusal_number};
ghost use Rattle.plane.specs.Inner.{Small};
ghost use Rattle.search.specs.Refusal.{too_large, wrong_length, too_short, input_rows, lent_rows, verdict};

use class::LAST_CLASS;
use plane::{BLOCK, Sides};
use refusal::Refusal;

const LARGEST_SIDE: usize = 1024;

pub fn too_large(width: usize, height: usize) -> bool
    ensures { result ≡ too_large width height }
{
    LARGEST_SIDE < width || LARGEST_SIDE < height
}

pub fn wrong_length(
    width: usize,
    height: usize,
    input: usize,
    reference: usize,
    classes: usize,
) -> bool
    requires { Small width height }
    ensures { result ≡ wrong_length width height input reference classes }
{
    let pels = height * width;
    let samples = height / BLOCK * (width / BLOCK);
    input != pels || reference != pels || classes != samples
}

pub fn too_short(
    width: usize,
    height: usize,
    input_half: usize,
    ref_half: usize,
    words: usize,
) -> bool
    requires { Small width height }
    ensures { result ≡ too_short width height input_half ref_half words }
{
    let samples = height / BLOCK * (width / BLOCK);
    let half = height / 2 * (width / 2);
    0 < samples && (input_half < half || ref_half < half || words < samples)
}

// Rows 1, 2 and 4: what goes in.
fn unfit(sides: Sides, input: usize, reference: usize, classes: &[u8]) -> Result<(), Refusal>
    ensures { refusal_number result ≡ judge (input_rows sides.width sides.height input reference classes.now) }
{
    if too_large(sides.width, sides.height) {
        return Err(Refusal::TooLarge);
    }
    if wrong_length(sides.width, sides.height, input, reference, classes.len()) {
        return Err(Refusal::WrongLength);
    }
    if class::some_over(LAST_CLASS, classes) {
        return Err(Refusal::NoSuchCode);
    }
    Ok(())
}

// Row 3: what is lent.
fn cramped(sides: Sides, input_half: usize, ref_half: usize, words: usize) -> Result<(), Refusal>
    requires { Small sides.width sides.height }
    ensures { refusal_number result ≡ judge (lent_rows sides.width sides.height input_half ref_half words) }
{
    if too_short(sides.width, sides.height, input_half, ref_half, words) {
        return Err(Refusal::TooShort);
    }
    Ok(())
}

// The first row that holds.
pub fn refusal_of(
    sides: Sides,
    input: usize,
    reference: usize,
    classes: &[u8],
    input_half: usize,
    ref_half: usize,
    words: usize,
) -> Result<(), Refusal>
    ensures { refusal_number result ≡ verdict sides.width sides.height input reference classes.now input_half ref_half words }
{
    unfit(sides, input, reference, classes)?;
    cramped(sides, input_half, ref_half, words)
}
