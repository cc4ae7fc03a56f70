// A field put into lent bytes in two ways under one promise: a word at a time, as the header's writer does,
// and one bit after the other. `bench` measures the one against the other; no call of the library goes here.
#![tactic(auto)]

ghost use Rattle.std.specs.Prelude.{◌≤◌, ◌<◌, ◌≡◌};
ghost use Rattle.bits.specs.Bits.{bit_of};
ghost use Rattle.bits.specs.Fields.{field_bits};
ghost use Rattle.bits.specs.Inner.{Room, Wrote};

use bits::BitCursor;

// The bit of weight 2 to the k.
fn bit_of(x: u32, k: u32) -> u32
    requires { k < 32 }
    ensures { result ≡ bit_of x k }
{
    (x >> k) % 2
}

fn one_by_one(cursor: BitCursor, buffer: &mut [u8], n: u32, value: u32) -> BitCursor
    requires { (n ≤ 32) × Room buffer.old cursor.at n }
    ensures { Wrote buffer.old cursor.at (field_bits n value) buffer.new result.at }
{
    let mut next = cursor;
    for k in (0..n).rev() {
        next = next.write_bit(buffer, bit_of(value, k));
    }
    next
}

// The low n bits of value from bit `at` on; the position behind them.
#[unsafe(no_mangle)]
pub extern "C" fn placing_word(buffer: &mut [u8], at: usize, n: u32, value: u32) -> usize
    requires { (n ≤ 32) × Room buffer.old at n }
    ensures { Wrote buffer.old at (field_bits n value) buffer.new result }
{
    let end = BitCursor { at }.write_bits(buffer, n, value);
    end.at
}

// The same, bit by bit.
#[unsafe(no_mangle)]
pub extern "C" fn placing_bits(buffer: &mut [u8], at: usize, n: u32, value: u32) -> usize
    requires { (n ≤ 32) × Room buffer.old at n }
    ensures { Wrote buffer.old at (field_bits n value) buffer.new result }
{
    let end = one_by_one(BitCursor { at }, buffer, n, value);
    end.at
}
