// Bands of the search (docs/RULES.md, 'Bands', 'When a call says no'; rows 1, 2, 3 and 1, 2, 5, 3): a half
// plane, and the sample words of some of the block rows, as the search defines them, so that a frame's
// search can be done by many at once. In go planes, their sides and, for a band, what stands for both half
// planes, which is read and not written, and its block rows; out comes the half plane, or words, how many
// they are and the rows of absolute differences added for them.
#![tactic(auto)]

ghost use Rattle.std.specs.Prelude.{◌≡◌, length};
ghost use Rattle.laws.specs.Refusal.{judge};
ghost use Rattle.refusal.specs.Number.{refusal_number};
ghost use Rattle.plane.specs.Inner.{Small};
ghost use Rattle.search.specs.Search.{scene};
ghost use Rattle.band.specs.Call.{wrong_lengths, not_there, half_refusal, half_left, plane_rows, band_rows_of, band_refusal, searched_band, words_left};

use plane::{BLOCK, Sides};
use refusal::Refusal;
pub use search::Searched;
use search::refusals;

// ---- a half plane

fn half_refusal(sides: Sides, pels: usize, room: usize) -> Result<(), Refusal>
    ensures { refusal_number result ≡ half_refusal sides.width sides.height pels room }
{
    if refusals::too_large(sides.width, sides.height) {
        return Err(Refusal::TooLarge);
    }
    if pels != sides.height * sides.width {
        return Err(Refusal::WrongLength);
    }
    if room < sides.height / 2 * (sides.width / 2) {
        return Err(Refusal::TooShort);
    }
    Ok(())
}

// The half plane of a plane, from the front of the lent buffer; answers the refusal's number, 0 for none, as
// C's belt_half_plane hands it on.
pub fn half_plane(plane: &[u16], width: usize, height: usize, out: &mut [u16]) -> u32
    ensures value { result ≡ half_refusal width height (length plane.now) (length out.old) }
    ensures out_after { out.new ≡ half_left plane.now width height out.old }
{
    let sides = Sides { width, height };
    if let Err(refusal) = half_refusal(sides, plane.len(), out.len()) {
        return refusal.number();
    }
    plane::downsample(plane, width, height, &mut *out);
    0
}

// ---- a band

// How many values the planes have, and what stands for their half planes.
#[derive(Clone, Copy)]
struct Lengths {
    input: usize,
    reference: usize,
    input_half: usize,
    ref_half: usize,
}

fn wrong_lengths(sides: Sides, has: Lengths) -> bool
    requires { Small sides.width sides.height }
    ensures { result ≡ wrong_lengths sides.width sides.height has.input has.reference has.input_half has.ref_half }
{
    let pels = sides.height * sides.width;
    let half = sides.height / 2 * (sides.width / 2);
    has.input != pels || has.reference != pels || has.input_half != half || has.ref_half != half
}

fn not_there(height: usize, first: usize, end: usize) -> bool
    ensures { result ≡ not_there height first end }
{
    end < first || height / BLOCK < end
}

// Rows 1 and 2: planes, and what stands for half planes.
fn planes_refusal(sides: Sides, has: Lengths) -> Result<(), Refusal>
    ensures { refusal_number result ≡ judge (plane_rows sides.width sides.height has.input has.reference has.input_half has.ref_half) }
{
    if refusals::too_large(sides.width, sides.height) {
        return Err(Refusal::TooLarge);
    }
    if wrong_lengths(sides, has) {
        return Err(Refusal::WrongLength);
    }
    Ok(())
}

// Rows 5 and 3: the band, and the room for its words.
fn rows_refusal(sides: Sides, first: usize, end: usize, words: usize) -> Result<(), Refusal>
    requires { Small sides.width sides.height }
    ensures { refusal_number result ≡ judge (band_rows_of sides.width sides.height first end words) }
{
    if not_there(sides.height, first, end) {
        return Err(Refusal::NotThere);
    }
    if words < (end - first) * (sides.width / BLOCK) {
        return Err(Refusal::TooShort);
    }
    Ok(())
}

// The first row that holds.
fn band_refusal(
    sides: Sides,
    has: Lengths,
    first: usize,
    end: usize,
    words: usize,
) -> Result<(), Refusal>
    ensures { refusal_number result ≡ band_refusal sides.width sides.height has.input has.reference has.input_half has.ref_half first end words }
{
    planes_refusal(sides, has)?;
    rows_refusal(sides, first, end, words)
}

// The words of block rows `first` to `end` - 1, from the front of the lent buffer.
pub fn search_band(
    input: &[u16],
    reference: &[u16],
    width: usize,
    height: usize,
    input_half: &[u16],
    ref_half: &[u16],
    first: usize,
    end: usize,
    words: &mut [u32],
) -> Searched
    ensures value { result ≡ searched_band
        (scene input.now reference.now width height input_half.now ref_half.now) first end (length words.old) }
    ensures words_after { words.new ≡ words_left
        (scene input.now reference.now width height input_half.now ref_half.now) first end words.old }
{
    let sides = Sides { width, height };
    let has = Lengths {
        input: input.len(),
        reference: reference.len(),
        input_half: input_half.len(),
        ref_half: ref_half.len(),
    };
    if let Err(refusal) = band_refusal(sides, has, first, end, words.len()) {
        return Searched::refused(refusal);
    }
    let samples = (end - first) * (width / BLOCK);
    let rows = search::blocks::fill_band(
        input,
        reference,
        input_half,
        ref_half,
        sides,
        first,
        end,
        &mut *words,
    );
    Searched {
        refusal: 0,
        samples,
        rows,
    }
}
