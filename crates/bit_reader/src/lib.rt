// The bit reader that holds its bytes: a struct of the lent slice and a bit position, thin over the proved
// core (docs/RULES.md, 'Rust forms to recast' and 'Each place and its form': "Reading goes on from a bit
// position in the lent header bytes"; standard 4.10.2, 5.9.24). A method takes the struct apart and calls
// the function on the slice and the position; out come what was read and the position behind it.
#![tactic(auto)]

ghost use Rattle.std.specs.Prelude.{◌+◌, ◌^◌, ◌≤◌, ◌<◌, ◌≡◌};
ghost use Rattle.bits.specs.Bits.{bit_at};
ghost use Rattle.bits.specs.Fields.{field};
ghost use Rattle.bits.specs.Inner.{ReadIs};
ghost use Rattle.header_read.specs.Called.{models};

use bits::{BitCursor, Read};
use header_read::Models;

#[derive(Clone, Copy)]
pub struct BitReader<'a> {
    pub bytes: &'a [u8],
    pub at: usize,
}

fn f_at(bytes: &[u8], at: usize, n: u32) -> Read
    requires { (n ≤ 32) × (at + n < 2 ^ 64) }
    ensures { ReadIs result (field (bit_at bytes.now) at n) (at + n) }
{
    let cursor = BitCursor { at };
    cursor.f(bytes, n)
}

impl<'a> BitReader<'a> {
    // Reading on is a new reader at the position behind what was read.
    pub fn new(bytes: &'a [u8], at: usize) -> BitReader<'a>
        ensures { (result.bytes ≡ bytes.entry) × (result.at ≡ at) }
    {
        BitReader { bytes, at }
    }

    // f(n) of clause 4.10.2.
    pub fn f(self, n: u32) -> Read
        requires { (n ≤ 32) × (self.at + n < 2 ^ 64) }
        ensures { ReadIs result (field (bit_at self.entry.bytes.now) self.entry.at n) (self.entry.at + n) }
    {
        f_at(self.bytes, self.at, n)
    }

    // Seven models, by clauses 5.9.24 and 5.9.25. The position behind them is the reader's and the bits
    // consumed.
    pub fn read_global_motion_params(self, flag: u8, prior: &[i32]) -> Models
        ensures { result ≡ models self.entry.bytes.now self.entry.at flag prior.now }
    {
        header_read::read_global_motion_params(self.bytes, self.at, flag, prior)
    }
}

// Seven models from a position of plain bytes: a reader is made and read from.
pub fn read_models(bytes: &[u8], at: usize, flag: u8, prior: &[i32]) -> Models
    ensures { result ≡ models bytes.now at flag prior.now }
{
    let reader = BitReader::new(bytes, at);
    reader.read_global_motion_params(flag, prior)
}
