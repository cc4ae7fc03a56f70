// The bit cursor: a position in lent bytes, by value, that each method hands on past what it wrote or
// read. Bits go high bit first. In go a bit, a field of 0 to 32 bits or an ns code; out come the
// cursor behind it and the buffer with those bits and no other bit changed. docs/RULES.md, 'Header' and
// 'Rust forms to recast'; standard 4.10.2, 4.10.7; encoder/bitwriter.rs.
#![tactic(auto)]

ghost use Rattle.std.specs.Prelude.{◌+◌, ◌-◌, ◌*◌, ◌/◌, ◌%◌, ◌^◌, ◌≤◌, ◌<◌, length, [], ◌∷◌, ◌≡◌};
ghost use Rattle.bits.specs.Bits.{bit_at, bit_of, with_bit, put_bits};
ghost use Rattle.bits.specs.Fields.{field, field_bits, pad_bits};
ghost use Rattle.bits.specs.Ns.{ns, ns_bits, bit_length};
ghost use Rattle.bits.specs.Inner.{Room, Wrote, FieldIs, ReadIs, NsWidthIs};

use byte_field::BYTE;

pub const BITS_OF_A_BYTE: usize = 8;

#[derive(Clone, Copy, Debug, PartialEq, Eq)]
pub struct BitCursor {
    pub at: usize,
}

// A width, and a number of no more bits.
#[derive(Clone, Copy, Debug, PartialEq, Eq)]
pub struct Field {
    pub n: u32,
    pub value: u32,
}

// A number read, and the cursor behind it.
#[derive(Clone, Copy, Debug, PartialEq, Eq)]
pub struct Read {
    pub value: u32,
    pub next: BitCursor,
}

// The bit of weight 2 to the k.
fn bit_of(x: u32, k: u32) -> u32
    requires { k < 32 }
    ensures { result ≡ bit_of x k }
{
    (x >> k) % 2
}

// The byte with b as its bit of weight 2 to the k.
fn with_bit(x: u8, k: u32, b: u32) -> u8
    requires { (k < 8) × (b < 2) }
    ensures { result ≡ with_bit x k b }
{
    let whole = x as u32;
    let weight = byte_field::power(k);
    let without = whole - bit_of(whole, k) * weight;
    (without + b * weight) as u8
}

// The bit at a position; past the end of the bytes all bits are 0.
fn bit_at(bytes: &[u8], at: usize) -> u32
    ensures { (result ≡ bit_at bytes.now at) × (result < 2) }
{
    let byte = bytes.get(at / BITS_OF_A_BYTE).copied().unwrap_or(0);
    bit_of(byte as u32, (7 - at % BITS_OF_A_BYTE) as u32)
}

// A whole byte, which isn't read.
fn store_byte(buffer: &mut [u8], at: usize, word: u64)
    requires { at < length buffer.old }
    ensures { buffer.new ≡ put_bits buffer.old (8 * at) (field_bits 8 word) }
{
    buffer[at] = byte_field::low_byte(word);
}

// The first bits of a byte; the others stay.
fn store_front(buffer: &mut [u8], at: usize, k: u32, word: u64)
    requires { (k ≤ 8) × (at < length buffer.old) }
    ensures { buffer.new ≡ put_bits buffer.old (8 * at) (field_bits k word) }
{
    buffer[at] = byte_field::with_front(buffer[at], k, word);
}

// A field that lies in one byte, behind so many of its bits.
fn store_inside(buffer: &mut [u8], at: usize, used: u32, n: u32, value: u32)
    requires { (used + n ≤ 8) × (at < length buffer.old) }
    ensures { buffer.new ≡ put_bits buffer.old (8 * at + used) (field_bits n value) }
{
    buffer[at] = byte_field::with_inside(buffer[at], n, BYTE - used - n, value);
}

// The low n bits of word, from the first bit of a byte on.
fn store_word(buffer: &mut [u8], first: usize, n: u32, word: u64)
    requires { (n ≤ 64) × (8 * first + n ≤ 8 * length buffer.old) }
    ensures { buffer.new ≡ put_bits buffer.old (8 * first) (field_bits n word) }
{
    let mut at = first;
    let mut left = n;
    // A while: bits are counted down by eight, and what is left in the end is a front.
    while BYTE <= left {
        left -= BYTE;
        store_byte(buffer, at, word >> left);
        at += 1;
    }
    if 0 < left {
        store_front(buffer, at, left, word);
    }
}

// The number of bits of n, FloorLog2(n) + 1.
pub fn bit_length(n: u32) -> u32
    ensures { (result ≡ bit_length n) × (result ≤ 32) }
{
    32 - u32::leading_zeros(n)
}

// What clause 4.10.7 computes of n: w, the number of its bits, and m, how many symbols have a code
// of w - 1 bits.
#[derive(Clone, Copy, Debug, PartialEq, Eq)]
struct NsWidth {
    w: u32,
    m: u32,
}

fn ns_width(n: u32) -> NsWidth
    requires { (0 < n) × (n ≤ 65536) }
    ensures { NsWidthIs result n }
{
    let w = bit_length(n);
    NsWidth {
        w,
        m: byte_field::power(w) - n,
    }
}

// The ns code of v, as one field.
pub fn ns_field(n: u32, v: u32) -> Field
    requires { (v < n) × (n ≤ 65536) }
    ensures { FieldIs result (ns_bits n v) × (result.n ≤ 17) }
{
    let NsWidth { w, m } = ns_width(n);
    if v < m {
        return Field { n: w - 1, value: v };
    }
    Field { n: w, value: v + m }
}

impl BitCursor {
    pub fn new(at: usize) -> Self
        ensures { result.at ≡ at }
    {
        Self { at }
    }

    pub fn write_bit(self, buffer: &mut [u8], bit: u32) -> BitCursor
        requires { (bit < 2) × Room buffer.old self.at 1 }
        ensures { Wrote buffer.old self.at (bit ∷ []) buffer.new result.at }
    {
        let at = self.at;
        let byte = at / BITS_OF_A_BYTE;
        let k = (7 - at % BITS_OF_A_BYTE) as u32;
        buffer[byte] = with_bit(buffer[byte], k, bit);
        BitCursor { at: at + 1 }
    }

    // The low n bits of value. In one byte they are one store.
    pub fn write_bits(self, buffer: &mut [u8], n: u32, value: u32) -> BitCursor
        requires { (n ≤ 32) × Room buffer.old self.at n }
        ensures { Wrote buffer.old self.at (field_bits n value) buffer.new result.at }
    {
        let at = self.at;
        let first = at / BITS_OF_A_BYTE;
        let used = (at % BITS_OF_A_BYTE) as u32;
        if n == 0 {
            return self;
        }
        if used + n <= BYTE {
            store_inside(buffer, first, used, n, value);
        } else if used == 0 {
            store_word(buffer, first, n, value as u64);
        } else {
            let word = byte_field::joined(buffer[first], used, n, value);
            store_word(buffer, first, used + n, word);
        }
        BitCursor {
            at: at + n as usize,
        }
    }

    // The number v of n symbols, by clause 4.10.7.
    pub fn write_ns(self, buffer: &mut [u8], n: u32, v: u32) -> BitCursor
        requires { (v < n) × (n ≤ 65536) × Room buffer.old self.at (length (ns_bits n v)) }
        ensures { Wrote buffer.old self.at (ns_bits n v) buffer.new result.at }
    {
        let field = ns_field(n, v);
        self.write_bits(buffer, field.n, field.value)
    }

    // Zero bits up to the end of the byte.
    pub fn byte_align(self, buffer: &mut [u8]) -> BitCursor
        requires { Room buffer.old self.at (length (pad_bits self.at)) }
        ensures { Wrote buffer.old self.at (pad_bits self.at) buffer.new result.at }
    {
        let n = (BITS_OF_A_BYTE - self.at % BITS_OF_A_BYTE) % BITS_OF_A_BYTE;
        self.write_bits(buffer, n as u32, 0)
    }

    // read_bit of clause 8.1.
    pub fn read_bit(self, bytes: &[u8]) -> Read
        requires { self.at + 1 < 2 ^ 64 }
        ensures { ReadIs result (bit_at bytes.now self.at) (self.at + 1) }
    {
        let at = self.at;
        Read {
            value: bit_at(bytes, at),
            next: BitCursor { at: at + 1 },
        }
    }

    // f(n) of clause 4.10.2.
    pub fn f(self, bytes: &[u8], n: u32) -> Read
        requires { (n ≤ 32) × (self.at + n < 2 ^ 64) }
        ensures { ReadIs result (field (bit_at bytes.now) self.at n) (self.at + n) }
    {
        let at = self.at;
        let used = (at % BITS_OF_A_BYTE) as u32;
        let word = five_bytes::five_bytes(bytes, at / BITS_OF_A_BYTE);
        Read {
            value: five_bytes::bits_inside(word, used, n),
            next: BitCursor {
                at: at + n as usize,
            },
        }
    }

    // ns(n) of clause 4.10.7.
    pub fn ns(self, bytes: &[u8], n: u32) -> Read
        requires { (0 < n) × (n ≤ 65536) × (self.at + 32 < 2 ^ 64) }
        ensures { ReadIs result (ns (bit_at bytes.now) self.at n).value (self.at + (ns (bit_at bytes.now) self.at n).bits) }
    {
        let NsWidth { w, m } = ns_width(n);
        let v = self.f(bytes, w - 1);
        if v.value < m {
            return v;
        }
        let extra_bit = v.next.read_bit(bytes);
        Read {
            value: 2 * v.value - m + extra_bit.value,
            next: extra_bit.next,
        }
    }
}
