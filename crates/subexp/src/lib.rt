// One coefficient of a model in the header: a symbol of S and its prior's place go in, its bits come
// out, and back. Answers to docs/RULES.md, 'Header' and 'Reading by the standard'; clauses
// 5.9.26 to 5.9.29 of the standard; `recenter` to `encode_unsigned_subexp_with_ref` of
// encoder/frame_obu.rs, `inverse_recenter` to `decode_unsigned_subexp_with_ref` of
// uncompressed_header_tail.rs. Symbols are counted from 0: low is 0, and mx is S.
#![tactic(auto)]

ghost use Rattle.std.specs.Prelude.{◌≡◌, ◌+◌, ◌*◌, ◌^◌, ◌≤◌, ◌<◌, length};
ghost use Rattle.bits.specs.Bits.{bit_at};
ghost use Rattle.bits.specs.Inner.{Room, Wrote, ReadIs};
ghost use Rattle.subexp.specs.Recenter.{recenter, inverse_recenter, code_of, symbol_of};
ghost use Rattle.subexp.specs.Inner.{rung_bits, rung_start, rung_step, last_rung, Rung, OnRung, rung_code, last_bits, stop_bits, ClimbIs, LastIs};
ghost use Rattle.subexp.specs.Ladder.{subexp, subexp_bits};
ghost use Rattle.subexp.specs.Coefficient.{symbol, symbol_bits};

use bits::{BitCursor, Read};

// k of clause 5.9.28: the bits that count the numbers of the first rung.
const SUBEXP_K: u32 = 3;

// How many numbers the first rung has, and up to how many symbols it is the last.
const FIRST_RUNG: u32 = 8;

const FIRST_REACH: u32 = 24;

const ALL_ONES: u32 = 4294967295;

fn recenter(r: u32, v: u32) -> u32
    requires { (r ≤ 65536) × (v ≤ 65536) }
    ensures { result ≡ recenter r v }
{
    if 2 * r < v {
        return v;
    }
    if r <= v {
        return 2 * (v - r);
    }
    2 * (r - v) - 1
}

fn inverse_recenter(r: u32, v: u32) -> u32
    requires { (r ≤ 65536) × (v ≤ 65536) }
    ensures { result ≡ inverse_recenter r v }
{
    if 2 * r < v {
        return v;
    }
    if v % 2 == 1 {
        return r - (v + 1) / 2;
    }
    r + v / 2
}

// b2 of clause 5.9.28 at its i.
fn rung_bits(i: u32) -> u32
    requires { i ≤ 16 }
    ensures { (result ≡ rung_bits i) × (result ≤ 18) }
{
    if i != 0 {
        return SUBEXP_K + (i - 1);
    }
    SUBEXP_K
}

// a of clause 5.9.28 at its i.
fn rung_step(i: u32) -> u32
    requires { i ≤ 16 }
    ensures { (result ≡ rung_step i) × (result ≤ 262144) }
{
    byte_field::power(rung_bits(i))
}

// mk of clause 5.9.28 at its i.
fn rung_start(i: u32) -> u32
    requires { i ≤ 16 }
    ensures { (result ≡ rung_start i) × (result ≤ 262144) }
{
    if i == 0 {
        return 0;
    }
    rung_step(i)
}

// The rung on which the code ends whatever the symbol.
fn is_last(num_syms: u32, i: u32) -> bool
    requires { i ≤ 16 }
    ensures { result ≡ last_rung num_syms i }
{
    num_syms <= rung_start(i) + 3 * rung_step(i)
}

// The rung on which the code of v ends.
fn rung_of(num_syms: u32, v: u32) -> u32
    requires { (v < num_syms) × (num_syms ≤ 65536) }
    ensures { Rung num_syms v result }
{
    let last = last_rung(num_syms);
    if v < FIRST_RUNG {
        return 0;
    }
    let i = bits::bit_length(v) - 3;
    if i < last { i } else { last }
}

// The code of v on the last rung: the ones of the rungs passed are one field, and the number is an ns code.
fn write_last(cursor: BitCursor, buffer: &mut [u8], num_syms: u32, v: u32, i: u32) -> BitCursor
    requires { OnRung num_syms v i × Room buffer.old cursor.at (length (last_bits num_syms v i)) }
    ensures { Wrote buffer.old cursor.at (last_bits num_syms v i) buffer.new result.at }
{
    let mk = rung_start(i);
    let ones = byte_field::power(i) - 1;
    let next = cursor.write_bits(buffer, i, ones);
    next.write_ns(buffer, num_syms - mk, v - mk)
}

// On another rung: those ones and a subexp_more_bits of 0 are one field, and subexp_bits is one.
fn write_stop(cursor: BitCursor, buffer: &mut [u8], v: u32, i: u32) -> BitCursor
    requires { (i ≤ 13) × (rung_start i ≤ v) × Room buffer.old cursor.at (length (stop_bits v i)) }
    ensures { Wrote buffer.old cursor.at (stop_bits v i) buffer.new result.at }
{
    let mk = rung_start(i);
    let ones = 2 * byte_field::power(i) - 2;
    let next = cursor.write_bits(buffer, i + 1, ones);
    next.write_bits(buffer, rung_bits(i), v - mk)
}

// How many bits the code of v takes on rung i, behind the ones.
fn rung_length(num_syms: u32, v: u32, i: u32) -> u32
    requires { OnRung num_syms v i }
    ensures { (result ≡ length (rung_code num_syms v i)) × (result ≤ 19) }
{
    let mk = rung_start(i);
    if is_last(num_syms, i) {
        return bits::ns_field(num_syms - mk, v - mk).n;
    }
    1 + rung_bits(i)
}

// How many bits the code of v takes.
pub fn subexp_length(num_syms: u32, v: u32) -> u32
    requires { (v < num_syms) × (num_syms ≤ 65536) }
    ensures { (result ≡ length (subexp_bits num_syms v)) × (result ≤ 64) }
{
    let i = rung_of(num_syms, v);
    i + rung_length(num_syms, v, i)
}

// A number of the first rung, of more symbols than end there, is a subexp_more_bits of 0 and three bits.
pub fn encode_subexp(cursor: BitCursor, buffer: &mut [u8], num_syms: u32, v: u32) -> BitCursor
    requires { (v < num_syms) × (num_syms ≤ 65536) × Room buffer.old cursor.at (length (subexp_bits num_syms v)) }
    ensures { Wrote buffer.old cursor.at (subexp_bits num_syms v) buffer.new result.at }
{
    if v < FIRST_RUNG && FIRST_REACH < num_syms {
        let next = cursor.write_bits(buffer, 1, 0);
        return next.write_bits(buffer, SUBEXP_K, v);
    }
    let i = rung_of(num_syms, v);
    if is_last(num_syms, i) {
        return write_last(cursor, buffer, num_syms, v, i);
    }
    write_stop(cursor, buffer, v, i)
}

// The rung on which a code ends, whether that is the last one, and the cursor behind what was read
// to come there.
#[derive(Clone, Copy, Debug, PartialEq, Eq)]
struct RungRead {
    i: u32,
    last: bool,
    next: BitCursor,
}

// The rung on which every code ends that comes so far.
fn last_rung(num_syms: u32) -> u32
    requires { (0 < num_syms) × (num_syms ≤ 65536) }
    ensures { LastIs num_syms result }
{
    if num_syms <= FIRST_REACH {
        return 0;
    }
    bits::bit_length(num_syms - 1) - 4
}

// subexp_more_bits, up to the first that is 0 or to the last rung: the ones in front of the next 32 bits.
fn climb(cursor: BitCursor, bytes: &[u8], num_syms: u32) -> RungRead
    requires { (0 < num_syms) × (num_syms ≤ 65536) × (cursor.at + 64 < 2 ^ 64) }
    ensures { ClimbIs (bit_at bytes.now) num_syms cursor.at result }
{
    let at = cursor.at;
    let window = cursor.f(bytes, 32);
    let ones = 32 - bits::bit_length(ALL_ONES - window.value);
    let last = last_rung(num_syms);
    if ones < last {
        return RungRead {
            i: ones,
            last: false,
            next: BitCursor::new(at + ones as usize + 1),
        };
    }
    RungRead {
        i: last,
        last: true,
        next: BitCursor::new(at + last as usize),
    }
}

// The number read on a rung, counted from 0.
fn from_start(read: Read, mk: u32) -> Read
    requires { mk + read.value < 2 ^ 32 }
    ensures { ReadIs result (mk + read.value) read.next.at }
{
    Read {
        value: mk + read.value,
        ..read
    }
}

// The number of a code, by the rung that it ends on.
fn rungs_read(cursor: BitCursor, bytes: &[u8], num_syms: u32) -> Read
    requires { (0 < num_syms) × (num_syms ≤ 65536) × (cursor.at + 64 < 2 ^ 64) }
    ensures { ReadIs result (subexp (bit_at bytes.now) cursor.at num_syms).value (cursor.at + (subexp (bit_at bytes.now) cursor.at num_syms).bits) }
{
    let RungRead { i, last, next } = climb(cursor, bytes, num_syms);
    let mk = rung_start(i);
    if last {
        return from_start(next.ns(bytes, num_syms - mk), mk);
    }
    from_start(next.f(bytes, rung_bits(i)), mk)
}

// The same. Four bits below eight are a subexp_more_bits of 0 and a number of the first rung, of more symbols than end there.
pub fn decode_subexp(cursor: BitCursor, bytes: &[u8], num_syms: u32) -> Read
    requires { (0 < num_syms) × (num_syms ≤ 65536) × (cursor.at + 64 < 2 ^ 64) }
    ensures { ReadIs result (subexp (bit_at bytes.now) cursor.at num_syms).value (cursor.at + (subexp (bit_at bytes.now) cursor.at num_syms).bits) }
{
    if num_syms <= FIRST_REACH {
        return rungs_read(cursor, bytes, num_syms);
    }
    let first = cursor.f(bytes, 4);
    if first.value < FIRST_RUNG {
        return first;
    }
    rungs_read(cursor, bytes, num_syms)
}

// The code number of v about r; from the other end where r is nearer to that.
fn code_of(mx: u32, r: u32, v: u32) -> u32
    requires { (r < mx) × (v < mx) × (mx ≤ 65536) }
    ensures { (result ≡ code_of mx r v) × (result < mx) }
{
    if 2 * r <= mx {
        return recenter(r, v);
    }
    recenter(mx - 1 - r, mx - 1 - v)
}

// And the number of a code number.
fn symbol_of(mx: u32, r: u32, x: u32) -> u32
    requires { (r < mx) × (x < mx) × (mx ≤ 65536) }
    ensures { (result ≡ symbol_of mx r x) × (result < mx) }
{
    if 2 * r <= mx {
        return inverse_recenter(r, x);
    }
    mx - 1 - inverse_recenter(mx - 1 - r, x)
}

// How many bits v takes about r.
pub fn unsigned_subexp_length(mx: u32, r: u32, v: u32) -> u32
    requires { (r < mx) × (v < mx) × (mx ≤ 65536) }
    ensures { (result ≡ length (symbol_bits mx r v)) × (result ≤ 64) }
{
    subexp_length(mx, code_of(mx, r, v))
}

pub fn encode_unsigned_subexp_with_ref(
    cursor: BitCursor,
    buffer: &mut [u8],
    mx: u32,
    r: u32,
    v: u32,
) -> BitCursor
    requires { (r < mx) × (v < mx) × (mx ≤ 65536) × Room buffer.old cursor.at (length (symbol_bits mx r v)) }
    ensures { Wrote buffer.old cursor.at (symbol_bits mx r v) buffer.new result.at }
{
    encode_subexp(cursor, buffer, mx, code_of(mx, r, v))
}

pub fn decode_unsigned_subexp_with_ref(cursor: BitCursor, bytes: &[u8], mx: u32, r: u32) -> Read
    requires { (r < mx) × (mx ≤ 65536) × (cursor.at + 64 < 2 ^ 64) }
    ensures is { ReadIs result (symbol (bit_at bytes.now) cursor.at mx r).value (cursor.at + (symbol (bit_at bytes.now) cursor.at mx r).bits) }
    ensures within { result.value < mx }
{
    let read = decode_subexp(cursor, bytes, mx);
    Read {
        value: symbol_of(mx, r, read.value),
        ..read
    }
}
