// The sample word of each block, and the rows added to find it.
ghost use Rattle.std.specs.Prelude.{◌≡◌};
ghost use Rattle.laws.specs.Buffer.{onto};
ghost use Rattle.search.specs.Search.{scene};
ghost use Rattle.search.specs.Band.{band_words, band_rows};
ghost use Rattle.search.specs.Inner.{Halves, Inside, Band, sampled_at};

use plane::{BLOCK, HALF_BLOCK, Offset, Place, Sides};
use stage::FULL_REACH;

// A block's word, and the rows added to find it.
#[derive(Clone, Copy)]
pub struct Sampled {
    pub word: u32,
    pub rows: u32,
}

// The class bits of a word: the class stands beside it.
const NO_CLASS: u8 = 0;

// The block at this row and column of blocks: coarse, then full pel from twice the winner and eighths.
// The word's class bits are zero.
fn word_at(
    input: &[u16],
    reference: &[u16],
    input_half: &[u16],
    ref_half: &[u16],
    block: Place,
) -> Sampled
    requires halves { Halves (scene input.now reference.now block.width block.height input_half.now ref_half.now) }
    requires inside { Inside block }
    ensures { result ≡ sampled_at (scene input.now reference.now block.width block.height input_half.now ref_half.now) block.r block.c }
{
    let half = Place {
        width: block.width / 2,
        height: block.height / 2,
        r: block.r * HALF_BLOCK,
        c: block.c * HALF_BLOCK,
    };
    let coarse = coarse::coarse(input_half, ref_half, half);
    let place = Place {
        r: block.r * BLOCK,
        c: block.c * BLOCK,
        ..block
    };
    let twice = Offset {
        y: 2 * coarse.y + FULL_REACH,
        x: 2 * coarse.x + FULL_REACH,
    };
    let best = fine::fine(twice, input, reference, place);
    Sampled {
        word: sample::word_of(
            block.r as u32,
            block.c as u32,
            best.y as u32,
            best.x as u32,
            NO_CLASS,
        ),
        rows: coarse.rows + best.rows,
    }
}

// One word for each whole block of the block rows `first` to `end` - 1, row by row, from the front; the
// rows added for them.
pub fn fill_band(
    input: &[u16],
    reference: &[u16],
    input_half: &[u16],
    ref_half: &[u16],
    sides: Sides,
    first: usize,
    end: usize,
    words: &mut [u32],
) -> u32
    requires halves { Halves (scene input.now reference.now sides.width sides.height input_half.now ref_half.now) }
    requires band { Band sides.width sides.height first end words.old }
    ensures words_after { words.new ≡ onto (band_words (scene input.now reference.now sides.width sides.height input_half.now ref_half.now) first end) words.old }
    ensures value { result ≡ band_rows (scene input.now reference.now sides.width sides.height input_half.now ref_half.now) first end }
{
    let columns = sides.width / BLOCK;
    let before = first * columns;
    let samples = (end - first) * columns;
    let mut rows: u32 = 0;
    for k in 0..samples {
        let at = before + k;
        let row = at / columns;
        let column = at % columns;
        let block = Place {
            width: sides.width,
            height: sides.height,
            r: row,
            c: column,
        };
        let found = word_at(input, reference, input_half, ref_half, block);
        words[k] = found.word;
        rows += found.rows;
    }
    rows
}
