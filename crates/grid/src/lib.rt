// The grid of codable model numbers: a type, flag, slot and any i32 go in, the nearest number that
// a header can carry comes out. Answers to docs/RULES.md, 'Grid', clause 5.9.25 of the standard, and
// `global_param_bits` and `quantize_global_param` of frame_obu.rs.
#![tactic(auto)]

ghost use Rattle.std.specs.Prelude.{◌≡◌, ◌+◌, ◌*◌, ◌-◌, ◌^◌, ◌<◌, ◌≤◌, pos, nat_abs, ◌-ℤ◌, ◌+ℤ◌, ◌*ℤ◌};
ghost use Rattle.refusal.specs.Number.{refusal_number};
ghost use Rattle.grid.specs.Grid.{param_bits, abs_bits, prec_bits, centre, negative, step, nearest_ordinal, signed, quantize, quantized, refusal, answer};
ghost use Rattle.grid.specs.Slots.{slots_of};
ghost use Rattle.grid.specs.Symbols.{symbols, symbol_of, number_of};
ghost use Rattle.grid.specs.Inner.{off_grid, place_code, PriorIn, SymbolsIs, SymbolIs, PlacesAre, CodedIn, CodedIs};

pub use byte_field::wide_power as power_of_two;
use refusal::Refusal;

// Fraction bits of a model's numbers.
const WARPEDMODEL_PREC_BITS: u32 = 16;

// absBits and precBits of slots 2 to 5.
const LINEAR_ABS_BITS: u32 = 12;

const LINEAR_PREC_BITS: u32 = 15;

// The types of a model.
pub const IDENTITY: u8 = 0;

pub const TRANSLATION: u8 = 1;

pub const ROTZOOM: u8 = 2;

pub const AFFINE: u8 = 3;

// absBits and precBits of a slot.
#[derive(Clone, Copy, Debug, PartialEq, Eq)]
pub struct ParamBits {
    pub abs_bits: u32,
    pub prec_bits: u32,
}

// S, and the place of the prior.
#[derive(Clone, Copy, Debug, PartialEq, Eq)]
pub struct SlotSymbols {
    pub mx: u32,
    pub r: u32,
}

// S, the place of the prior, and the symbol of the number.
#[derive(Clone, Copy, Debug, PartialEq, Eq)]
pub struct Coded {
    pub mx: u32,
    pub r: u32,
    pub t: u32,
}

// A row of the table of refusals (0: none), and the quantized number.
#[repr(C)]
#[derive(Clone, Copy, Debug, PartialEq, Eq)]
pub struct Quantized {
    pub refusal: u32,
    pub value: i32,
}

pub fn global_param_bits(gm_type: u8, flag: u8, slot: u8) -> ParamBits
    ensures { result ≡ param_bits gm_type flag slot }
{
    let (abs_bits, prec_bits) = match (slot, gm_type, flag) {
        (0 | 1, TRANSLATION, 1) => (9, 3),
        (0 | 1, TRANSLATION, _) => (8, 2),
        (0 | 1, _, _) => (12, 6),
        _ => (LINEAR_ABS_BITS, LINEAR_PREC_BITS),
    };
    ParamBits {
        abs_bits,
        prec_bits,
    }
}

// What ordinal 0 of a slot stands for.
pub fn centre_of(slot: u8) -> u32
    ensures { result ≡ centre slot }
{
    match slot {
        2 | 5 => 65536,
        _ => 0,
    }
}

// A sign and a magnitude stand for a signed number in what follows.
pub fn is_negative(x: i64) -> bool
    ensures { result ≡ negative x }
{
    x < 0
}

pub fn magnitude(x: i64) -> u64
    requires { nat_abs x < 2 ^ 62 }
    ensures { result ≡ nat_abs x }
{
    x.unsigned_abs()
}

pub fn with_sign(negative: bool, size: u64) -> i64
    requires { size < 2 ^ 62 }
    ensures { result ≡ signed negative size }
{
    if negative {
        0 - size as i64
    } else {
        size as i64
    }
}

// How far a model's number is from the centre of its slot.
pub fn from_centre(value: i32, round: u32) -> i64
    ensures is { result ≡ value -ℤ pos round }
    ensures small { nat_abs result < 2 ^ 62 }
{
    value as i64 - round as i64
}

pub fn to_centre(num: i64, round: u32) -> i32
    requires { (nat_abs num ≤ 4194304) × (round ≤ 65536) }
    ensures { result ≡ num +ℤ pos round }
{
    (num + round as i64) as i32
}

// A signed number of at most `middle` either way, counted from -middle up.
fn lift(negative: bool, size: u64, middle: u64) -> u64
    requires { (size ≤ middle) × (middle ≤ 4194304) }
    ensures is { result ≡ nat_abs (signed negative size +ℤ pos middle) }
    ensures small { result ≤ 8388608 }
{
    if negative {
        middle - size
    } else {
        middle + size
    }
}

// The same of a number that isn't taken apart: one sum.
fn raised(num: i64, middle: u64) -> u64
    requires { (nat_abs num ≤ middle) × (middle ≤ 4194304) }
    ensures is { result ≡ nat_abs (num +ℤ pos middle) }
    ensures small { result ≤ 8388608 }
{
    (num + middle as i64) as u64
}

// The grid of a slot: absBits, precBits and what ordinal 0 stands for.
#[derive(Clone, Copy)]
struct SlotGrid {
    abs: u32,
    prec: u32,
    round: u32,
    ghost fraction: { prec ≤ 16 },
    ghost reach: { abs + (16 - prec) ≤ 22 },
    ghost centred: { round ≤ 65536 },
}

impl SlotGrid {
    fn of(gm_type: u8, flag: u8, slot: u8) -> Self
        ensures abs { result.abs ≡ abs_bits gm_type flag slot }
        ensures prec { result.prec ≡ prec_bits gm_type flag slot }
        ensures round { result.round ≡ centre slot }
    {
        let ParamBits {
            abs_bits,
            prec_bits,
        } = global_param_bits(gm_type, flag, slot);
        SlotGrid {
            abs: abs_bits,
            prec: prec_bits,
            round: centre_of(slot),
        }
    }

    // The distance of two codable numbers.
    fn step(self) -> u64
        ensures is { result ≡ step self.prec }
        ensures some { 0 < result }
        ensures small { result ≤ 65536 }
    {
        power_of_two(WARPEDMODEL_PREC_BITS - self.prec)
    }

    // The largest ordinal.
    fn limit(self) -> u64
        ensures is { result ≡ 2 ^ self.abs }
        ensures small { result ≤ 4194304 }
    {
        power_of_two(self.abs)
    }

    // How many symbols there are: S.
    fn symbols(self) -> u32
        ensures { result ≡ symbols self.abs }
    {
        (2 * self.limit() + 1) as u32
    }

    // How far the codable numbers reach.
    fn reach(self) -> u64
        ensures is { result ≡ 2 ^ self.abs * step self.prec }
        ensures small { result ≤ 4194304 }
    {
        self.limit() * self.step()
    }

    // The nearest ordinal's magnitude, half away from zero, held to the largest.
    fn ordinal(self, size: u64) -> u64
        requires { size < 2 ^ 62 }
        ensures is { result ≡ nearest_ordinal self.abs self.prec size }
        ensures within { result ≤ 2 ^ self.abs }
    {
        let step = self.step();
        let decoded = (size + step / 2) / step;
        decoded.min(self.limit())
    }

    // How far the nearest codable number is from the centre.
    fn distance(self, size: u64) -> u64
        requires { size < 2 ^ 62 }
        ensures is { result ≡ nearest_ordinal self.abs self.prec size * step self.prec }
        ensures small { result ≤ 4194304 }
    {
        self.ordinal(size) * self.step()
    }

    // The nearest codable number.
    fn nearest(self, value: i32) -> i32
        ensures { result ≡ quantize self.abs self.prec self.round value }
    {
        let num = from_centre(value, self.round);
        let distance = self.distance(magnitude(num));
        to_centre(with_sign(is_negative(num), distance), self.round)
    }

    // The symbol of a number: its nearest ordinal plus 2 ^ absBits.
    fn symbol(self, value: i32) -> u32
        ensures { result ≡ symbol_of self.abs self.prec self.round value }
    {
        let num = from_centre(value, self.round);
        let ordinal = self.ordinal(magnitude(num));
        lift(is_negative(num), ordinal, self.limit()) as u32
    }

    // The place of a number in reach among the symbols.
    fn place(self, value: i32) -> u32
        requires { nat_abs (value -ℤ pos self.round) ≤ 2 ^ self.abs * step self.prec }
        ensures { result ≡ place_code self.abs self.prec self.round value }
    {
        let above = raised(from_centre(value, self.round), self.reach());
        (above / self.step()) as u32
    }

    // How far a symbol's number is from the centre.
    fn from_middle(self, symbol: u32) -> i64
        requires { symbol < symbols self.abs }
        ensures { result ≡ (pos symbol -ℤ pos (2 ^ self.abs)) *ℤ pos (step self.prec) }
    {
        let middle = self.limit() as i64;
        let step = self.step() as i64;
        (symbol as i64 - middle) * step
    }

    // The number that a symbol stands for.
    fn number(self, symbol: u32) -> i32
        requires { symbol < symbols self.abs }
        ensures { result ≡ number_of self.abs self.prec self.round symbol }
    {
        to_centre(self.from_middle(symbol), self.round)
    }

    // Of a number and its prior by their places, with S.
    fn coded(self, value: i32, prior: i32) -> Coded
        requires own { nat_abs (value -ℤ pos self.round) ≤ 2 ^ self.abs * step self.prec }
        requires prior_in { nat_abs (prior -ℤ pos self.round) ≤ 2 ^ self.abs * step self.prec }
        ensures { PlacesAre self.abs self.prec self.round value prior result }
    {
        Coded {
            mx: self.symbols(),
            r: self.place(prior),
            t: self.place(value),
        }
    }

    // Whether a number isn't codable: beyond the last codable one, or not a whole number of steps from the centre.
    fn misses(self, value: i32) -> bool
        ensures { result ≡ off_grid self.abs self.prec self.round value }
    {
        let size = magnitude(from_centre(value, self.round));
        self.reach() < size || size % self.step() != 0
    }
}

// S of a slot, and where its prior stands.
pub fn symbols_of(gm_type: u8, flag: u8, slot: u8, prior: i32) -> SlotSymbols
    requires { PriorIn slot prior }
    ensures { SymbolsIs gm_type flag slot prior result }
{
    let grid = SlotGrid::of(gm_type, flag, slot);
    SlotSymbols {
        mx: grid.symbols(),
        r: grid.place(prior),
    }
}

// The symbol of a slot's number.
pub fn symbol_of(gm_type: u8, flag: u8, slot: u8, value: i32) -> u32
    ensures { SymbolIs gm_type flag slot value result }
{
    SlotGrid::of(gm_type, flag, slot).symbol(value)
}

// S, the place of the prior, and the symbol of a codable number, which is its place. Slots 2 to 5 have the same bits
// whatever the type: they are named, so that the compiler knows them.
pub fn coded_of(gm_type: u8, flag: u8, slot: u8, value: i32, prior: i32) -> Coded
    requires { CodedIn gm_type flag slot value prior }
    ensures { CodedIs gm_type flag slot value prior result }
{
    if slot < 2 {
        return SlotGrid::of(gm_type, flag, slot).coded(value, prior);
    }
    let round = centre_of(slot);
    let linear = SlotGrid {
        abs: LINEAR_ABS_BITS,
        prec: LINEAR_PREC_BITS,
        round,
    };
    linear.coded(value, prior)
}

// The number that a symbol of a slot stands for.
pub fn number_of(gm_type: u8, flag: u8, slot: u8, symbol: u32) -> i32
    requires { symbol < symbols (abs_bits gm_type flag slot) }
    ensures { result ≡ number_of (abs_bits gm_type flag slot) (prec_bits gm_type flag slot) (centre slot) symbol }
{
    SlotGrid::of(gm_type, flag, slot).number(symbol)
}

// The slots that a type carries, in the order of reading.
pub fn slots_carried(gm_type: u8) -> &'static [u8]
    ensures { result.now ≡ slots_of gm_type }
{
    match gm_type {
        IDENTITY => &[],
        TRANSLATION => &[0, 1],
        ROTZOOM => &[2, 3, 0, 1],
        _ => &[2, 3, 4, 5, 0, 1],
    }
}

// The nearest codable number of a slot.
pub fn nearest_number(gm_type: u8, flag: u8, slot: u8, value: i32) -> i32
    ensures { result ≡ quantized gm_type flag slot value }
{
    SlotGrid::of(gm_type, flag, slot).nearest(value)
}

// A number that isn't a codable one of its slot.
pub fn off_grid(gm_type: u8, flag: u8, slot: u8, value: i32) -> bool
    ensures { result ≡ off_grid (abs_bits gm_type flag slot) (prec_bits gm_type flag slot) (centre slot) value }
{
    SlotGrid::of(gm_type, flag, slot).misses(value)
}

fn judged(gm_type: u8, flag: u8, slot: u8) -> Result<(), Refusal>
    ensures { refusal_number result ≡ refusal gm_type flag slot }
{
    if AFFINE < gm_type || 1 < flag {
        return Err(Refusal::NoSuchCode);
    }
    if 5 < slot {
        return Err(Refusal::NotThere);
    }
    Ok(())
}

pub fn quantize_global_param(gm_type: u8, flag: u8, slot: u8, value: i32) -> Quantized
    ensures { result ≡ answer gm_type flag slot value }
{
    match judged(gm_type, flag, slot) {
        Ok(()) => Quantized {
            refusal: 0,
            value: nearest_number(gm_type, flag, slot, value),
        },
        Err(refusal) => Quantized {
            refusal: refusal.number(),
            value: 0,
        },
    }
}
