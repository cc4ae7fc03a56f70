// The search: how the load moved between two frames (docs/RULES.md, 'Search', rows 1, 2, 4 and 3;
// `collect_motion_samples` of the Rust's global_motion.rs). In go two planes, their sides and one
// class for each sample, which is judged; out come half planes and sample words with class bits zero
// in lent buffers, the count, and how many rows of absolute differences were added.
#![tactic(auto)]

ghost use Rattle.std.specs.Prelude.{◌≡◌};
ghost use Rattle.laws.specs.Buffer.{onto};
ghost use Rattle.plane.specs.Plane.{half_plane};
ghost use Rattle.refusal.specs.Number.{number_of};
ghost use Rattle.search.specs.Refusal.{Done, task, lent, refused};
ghost use Rattle.search.specs.Search.{sample_words, rows_added};
ghost use Rattle.search.specs.Inner.{Ready};

use plane::{BLOCK, Sides};
use refusal::Refusal;

pub mod blocks; // blocks.rt: the word of each block
pub mod refusals; // refusals.rt: the rows of the table

// The refusal's number, 0 for none, how many samples were found, and how many rows were added.
#[repr(C)]
#[derive(Clone, Copy, Debug, PartialEq, Eq)]
pub struct Searched {
    pub refusal: u32,
    pub samples: usize,
    pub rows: u32,
}

impl Searched {
    // A refused search has found nothing.
    pub fn refused(refusal: Refusal) -> Searched
        ensures { result ≡ refused (number_of refusal) }
    {
        Searched {
            refusal: refusal.number(),
            samples: 0,
            rows: 0,
        }
    }
}

// Both half planes, then the words.
fn search_into(
    input_y: &[u16],
    ref_y: &[u16],
    sides: Sides,
    input_half: &mut [u16],
    ref_half: &mut [u16],
    words: &mut [u32],
) -> u32
    requires { Ready input_y.now ref_y.now sides.width sides.height input_half.old ref_half.old words.old }
    ensures input_half_after { input_half.new ≡ onto (half_plane input_y.now sides.width sides.height) input_half.old }
    ensures ref_half_after { ref_half.new ≡ onto (half_plane ref_y.now sides.width sides.height) ref_half.old }
    ensures words_after { words.new ≡ onto (sample_words input_y.now ref_y.now sides.width sides.height) words.old }
    ensures value { result ≡ rows_added input_y.now ref_y.now sides.width sides.height }
{
    plane::downsample(input_y, sides.width, sides.height, &mut *input_half);
    plane::downsample(ref_y, sides.width, sides.height, &mut *ref_half);
    let half = sides.height / 2 * (sides.width / 2);
    blocks::fill_band(
        input_y,
        ref_y,
        &input_half[..half],
        &ref_half[..half],
        sides,
        0,
        sides.height / BLOCK,
        &mut *words,
    )
}

pub fn collect_motion_samples(
    input_y: &[u16],
    ref_y: &[u16],
    width: usize,
    height: usize,
    classes: &[u8],
    input_half: &mut [u16],
    ref_half: &mut [u16],
    words: &mut [u32],
) -> Searched
    ensures { Done
        (task input_y.now ref_y.now width height classes.now)
        (lent input_half.old ref_half.old words.old)
        result
        (lent input_half.new ref_half.new words.new) }
{
    let sides = Sides { width, height };
    let judged = refusals::refusal_of(
        sides,
        input_y.len(),
        ref_y.len(),
        classes,
        input_half.len(),
        ref_half.len(),
        words.len(),
    );
    if let Err(refusal) = judged {
        return Searched::refused(refusal);
    }
    let samples = height / BLOCK * (width / BLOCK);
    if samples == 0 {
        return Searched {
            refusal: 0,
            samples: 0,
            rows: 0,
        };
    }
    let rows = search_into(
        input_y,
        ref_y,
        sides,
        &mut *input_half,
        &mut *ref_half,
        &mut *words,
    );
    Searched {
        refusal: 0,
        samples,
        rows,
    }
}
