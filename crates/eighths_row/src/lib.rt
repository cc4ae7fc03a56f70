// A row of 16 between pels (docs/RULES.md, 'Search'): predicted from the high and the low bytes of two rows
// of a window, and compared with the input's.
#![tactic(auto)]

ghost use Rattle.std.specs.Prelude.{◌≡◌, ◌+◌, ◌/◌, ◌%◌, length, get_or};
ghost use Rattle.laws.specs.Parts.{listing};
ghost use Rattle.plane.specs.Inner.{Is};
ghost use Rattle.cost.specs.Inner.{row_difference, AtMost, Fractions};
ghost use Rattle.blend.specs.Inner.{predicted_from, ByteRows};

use cost::whole::FINE_WINDOW;
use plane::BLOCK;

// The pels from the first to the last that a row of 16 is predicted from: a row of the window and 17 pels.
pub const TWO_ROWS: usize = 41;

// The high bytes of a window, and the low ones.
pub fn highs_of(window: &[u16], out: &mut [u16])
    requires { length window.now ≡ length out.old }
    ensures out_after { out.new ≡ listing (λ i. get_or window.now i 0 / 256) (length window.now) }
    ensures at_most { AtMost 255 out.new }
{
    for (i, byte) in out.iter_mut().enumerate() {
        *byte = window[i] / 256;
    }
}

pub fn lows_of(window: &[u16], out: &mut [u16])
    requires { length window.now ≡ length out.old }
    ensures out_after { out.new ≡ listing (λ i. get_or window.now i 0 % 256) (length window.now) }
    ensures at_most { AtMost 255 out.new }
{
    for (i, byte) in out.iter_mut().enumerate() {
        *byte = window[i] % 256;
    }
}

// 16 pels predicted from two rows of 17.
pub fn predicted_row(fy: u16, fx: u16, highs: &[u16], lows: &[u16]) -> [u16; 16]
    requires byte_rows { ByteRows highs.now lows.now }
    requires fractions { Fractions fy fx }
    ensures { result ≡ listing (predicted_from fy fx highs.now lows.now) 16 }
{
    let of_highs = blend::weights_at(4, fy, fx);
    let of_lows = blend::weights_at(1, fy, fx);
    let mut row = [0u16; 16];
    for j in 0..BLOCK {
        let high = blend::weigh(
            of_highs,
            highs[j],
            highs[j + 1],
            highs[j + FINE_WINDOW],
            highs[j + FINE_WINDOW + 1],
        );
        let low = blend::weigh(
            of_lows,
            lows[j],
            lows[j + 1],
            lows[j + FINE_WINDOW],
            lows[j + FINE_WINDOW + 1],
        );
        row[j] = blend::blend(high, low);
    }
    row
}

// By how much 16 pels differ from those predicted.
pub fn row_of_16(input: &[u16], predicted: [u16; 16]) -> u32
    requires { length input.now ≡ 16 }
    ensures { Is (row_difference 16 input.now predicted) 1048560 result }
{
    cost::whole::row_difference::<BLOCK>(input, &predicted)
}
