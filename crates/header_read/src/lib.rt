// The header's global motion parameters, read: bytes, a bit to begin at, the flag and a prior go in,
// the types and numbers of seven models and the bits consumed come out. Answers to docs/RULES.md,
// 'Reading by the standard' and rows 2, 4, 8, 9; clauses 5.9.24 and 5.9.25 of the
// standard; `read_global_motion_params` and `read_global_param` of uncompressed_header_tail.rs.
#![tactic(auto)]

ghost use Rattle.std.specs.Prelude.{◌≡◌, ◌+◌, ◌*◌, ◌^◌, ◌≤◌, ◌<◌, nat_abs, neg_ℤ, length};
ghost use Rattle.laws.specs.Placed.{placed};
ghost use Rattle.bits.specs.Bits.{bit_at};
ghost use Rattle.grid.specs.Inner.{PriorIn};
ghost use Rattle.grid.specs.Slots.{slots_of};
ghost use Rattle.laws.specs.Refusal.{judge};
ghost use Rattle.refusal.specs.Number.{refusal_number};
ghost use Rattle.header.specs.Coefficient.{coefficient};
ghost use Rattle.header.specs.Reading.{slots_read, six_filled, model_read, reference_read, references_read, models_read};
ghost use Rattle.header.specs.Inner.{ValidPrior};
ghost use Rattle.header.specs.Writing.{slot_of};
ghost use Rattle.header_read.specs.Called.{prior_rows, no_models, models};
ghost use Rattle.header_read.specs.Inner.{answer_of, within, told, PriorsReady, ParamIs, AllSmall, NumbersAre, TypeIs, ModelIs, SevenIs};

use bits::{BITS_OF_A_BYTE, BitCursor};
use grid::{AFFINE, IDENTITY, ROTZOOM, TRANSLATION};
use models::{NUMBERS, REFERENCES, SLOTS};
use refusal::Refusal;

// The whole of a number at 16 fraction bits: slots 2 and 5 of the identity.
const WHOLE: i32 = 65536;

// A row of the table of refusals (0: none), the seven types and models, and the bits consumed.
#[repr(C)]
#[derive(Clone, Copy, Debug, PartialEq, Eq)]
pub struct Models {
    pub refusal: u32,
    pub types: [u8; 7],
    pub params: [i32; 42],
    pub bits: usize,
}

// What is read with: the bytes, the flag, and where the six priors of a reference begin.
#[derive(Clone, Copy)]
struct Reference<'a> {
    header: &'a [u8],
    flag: u8,
    prior: &'a [i32],
    first: usize,
    ghost places: { first + 6 ≤ length prior.now },
    ghost priors: { ValidPrior prior.now first },
}

// What a step reads stands beside the cursor behind it, in a struct of its own: `ParamIs` to `SevenIs` of
// specs/Inner name each.

// A number read, and the cursor behind it.
#[derive(Clone, Copy)]
struct Param {
    value: i32,
    next: BitCursor,
}

// The numbers of a type's slots in the order of reading, and the cursor behind them.
#[derive(Clone, Copy)]
struct Numbers {
    values: [i32; 6],
    next: BitCursor,
}

// A type read, and the cursor behind its bits.
#[derive(Clone, Copy)]
struct TypeRead {
    gm_type: u8,
    next: BitCursor,
}

// A model read, and the cursor behind it.
#[derive(Clone, Copy)]
struct Model {
    gm_type: u8,
    six: [i32; 6],
    next: BitCursor,
}

// Seven models read, and the cursor behind them.
#[derive(Clone, Copy)]
struct Seven {
    types: [u8; 7],
    params: [i32; 42],
    next: BitCursor,
}

// read_global_param of clause 5.9.25.
fn read_global_param(
    cursor: BitCursor,
    header: &[u8],
    gm_type: u8,
    flag: u8,
    slot: u8,
    prior: i32,
) -> Param
    requires { PriorIn slot prior × (cursor.at + 64 < 2 ^ 64) }
    ensures { ParamIs result (coefficient (bit_at header.now) cursor.at gm_type flag slot prior) cursor.at }
{
    let s = grid::symbols_of(gm_type, flag, slot, prior);
    let read = subexp::decode_unsigned_subexp_with_ref(cursor, header, s.mx, s.r);
    let next = read.next;
    Param {
        value: grid::number_of(gm_type, flag, slot, read.value),
        next,
    }
}

// is_global, is_rot_zoom, is_translation of clause 5.9.24.
fn read_type(cursor: BitCursor, header: &[u8]) -> TypeRead
    requires { cursor.at + 64 < 2 ^ 64 }
    ensures { TypeIs result (bit_at header.now) cursor.at }
{
    let is_global = cursor.read_bit(header);
    let second = is_global.next;
    if is_global.value == 0 {
        return TypeRead {
            gm_type: IDENTITY,
            next: second,
        };
    }
    let is_rot_zoom = second.read_bit(header);
    let third = is_rot_zoom.next;
    if is_rot_zoom.value == 1 {
        return TypeRead {
            gm_type: ROTZOOM,
            next: third,
        };
    }
    let is_translation = third.read_bit(header);
    let next = is_translation.next;
    if is_translation.value == 1 {
        return TypeRead {
            gm_type: TRANSLATION,
            next,
        };
    }
    TypeRead {
        gm_type: AFFINE,
        next,
    }
}

// The opposite of a number that a slot can hold.
fn opposite(value: i32) -> i32
    requires { nat_abs value ≤ 4259840 }
    ensures { result ≡ neg_ℤ value }
{
    0 - value
}

// Six numbers from those that were read: the slots that the type doesn't carry are filled.
fn six_filled(gm_type: u8, values: [i32; 6]) -> [i32; 6]
    requires { AllSmall values }
    ensures { result ≡ six_filled gm_type values }
{
    if gm_type == IDENTITY {
        return [0, 0, WHOLE, 0, 0, WHOLE];
    }
    if gm_type == TRANSLATION {
        return [values[0], values[1], WHOLE, 0, 0, WHOLE];
    }
    if gm_type == ROTZOOM {
        let turned = opposite(values[1]);
        return [
            values[2], values[3], values[0], values[1], turned, values[0],
        ];
    }
    [
        values[4], values[5], values[0], values[1], values[2], values[3],
    ]
}

impl<'a> Reference<'a> {
    fn read_slot(self, cursor: BitCursor, gm_type: u8, slot: u8) -> Param
        requires { (slot < 6) × (cursor.at + 64 < 2 ^ 64) }
        ensures { ParamIs result (coefficient (bit_at self.entry.header.now) cursor.at gm_type self.entry.flag slot (slot_of self.entry.prior.now self.entry.first slot)) cursor.at }
    {
        let from = self.prior[self.first + slot as usize];
        read_global_param(cursor, self.header, gm_type, self.flag, slot, from)
    }

    // The slots that a type carries, in their order.
    fn read_slots(self, cursor: BitCursor, gm_type: u8) -> Numbers
        requires { cursor.at + 256 < 2 ^ 64 }
        ensures { NumbersAre result (slots_read (bit_at self.entry.header.now) self.entry.flag self.entry.prior.now gm_type self.entry.first (slots_of gm_type) cursor.at) cursor.at (length (slots_of gm_type)) }
    {
        let slots = grid::slots_carried(gm_type);
        let mut values = [0i32; 6];
        let mut next = cursor;
        for (i, slot) in slots.iter().enumerate() {
            let read = self.read_slot(next, gm_type, *slot);
            values[i] = read.value;
            next = read.next;
        }
        Numbers { values, next }
    }

    // The coefficients of a type.
    fn read_model(self, cursor: BitCursor, gm_type: u8) -> Model
        requires { cursor.at + 256 < 2 ^ 64 }
        ensures { ModelIs result (model_read (bit_at self.entry.header.now) self.entry.flag self.entry.prior.now gm_type self.entry.first cursor.at) cursor.at 138 }
    {
        let read = self.read_slots(cursor, gm_type);
        let values = read.values;
        let six = six_filled(gm_type, values);
        Model {
            gm_type,
            six,
            next: read.next,
        }
    }

    // The type bits, then the coefficients.
    fn read(self, cursor: BitCursor) -> Model
        requires { cursor.at + 512 < 2 ^ 64 }
        ensures { ModelIs result (reference_read (bit_at self.entry.header.now) self.entry.flag self.entry.prior.now self.entry.first cursor.at) cursor.at 141 }
    {
        let t = read_type(cursor, self.header);
        self.read_model(t.next, t.gm_type)
    }
}

// Six numbers to their places, from `first` on.
fn store_six(params: &mut [i32], first: usize, six: [i32; 6])
    requires { first + 6 ≤ length params.old }
    ensures { params.new ≡ placed first six params.old }
{
    params[first..first + SLOTS].copy_from_slice(&six);
}

// The seven references.
fn read_references(cursor: BitCursor, header: &[u8], flag: u8, prior: &[i32]) -> Seven
    requires { PriorsReady prior.now × (cursor.at + 2048 < 2 ^ 64) }
    ensures { SevenIs result (references_read (bit_at header.now) flag prior.now 7 0 cursor.at) cursor.at }
{
    let mut types = [0u8; 7];
    let mut params = [0i32; 42];
    let mut next = cursor;
    for r in 0..REFERENCES {
        let first = SLOTS * r;
        let reference = Reference {
            header,
            flag,
            prior,
            first,
        };
        let model = reference.read(next);
        let six = model.six;
        types[r] = model.gm_type;
        store_six(&mut params, first, six);
        next = model.next;
    }
    Seven {
        types,
        params,
        next,
    }
}

// A refusal: its row's number and zeros.
pub fn no_models(refusal: u32) -> Models
    ensures { result ≡ no_models refusal }
{
    Models {
        refusal,
        types: [0; 7],
        params: [0; 42],
        bits: 0,
    }
}

// What was read from bit `start` of so many bytes, or row 9 where they end first.
fn answer(seven: Seven, start: usize, bytes: usize) -> Result<Models, Refusal>
    requires { (start ≤ seven.next.at) × (seven.next.at + 8 < 2 ^ 64) }
    ensures { told result ≡ answer_of seven start bytes }
{
    let types = seven.types;
    let params = seven.params;
    let end = seven.next.at;
    if bytes < (end + 7) / BITS_OF_A_BYTE {
        return Err(Refusal::BytesEnd);
    }
    Ok(Models {
        refusal: 0,
        types,
        params,
        bits: end - start,
    })
}

// From the byte of the position on, so that no position is too large a number.
fn read_from(header: &[u8], at: usize, flag: u8, prior: &[i32]) -> Result<Models, Refusal>
    requires { PriorsReady prior.now }
    ensures { told result ≡ within header.now at (models_read header.now at flag prior.now) }
{
    let byte = at / BITS_OF_A_BYTE;
    if header.len() <= byte {
        return Err(Refusal::BytesEnd);
    }
    let start = at % BITS_OF_A_BYTE;
    let bytes = header.len() - byte;
    let seven = read_references(BitCursor::new(start), &header[byte..], flag, prior);
    answer(seven, start, bytes)
}

// Length, flag and priors.
fn prior_refusal(flag: u8, prior: &[i32]) -> Result<(), Refusal>
    ensures { refusal_number result ≡ judge (prior_rows flag prior.now) }
{
    if prior.len() != NUMBERS {
        return Err(Refusal::WrongLength);
    }
    if 1 < flag {
        return Err(Refusal::NoSuchCode);
    }
    if models::priors_out(prior) {
        return Err(Refusal::PriorOut);
    }
    Ok(())
}

fn judged_and_read(header: &[u8], at: usize, flag: u8, prior: &[i32]) -> Result<Models, Refusal>
    ensures { told result ≡ models header.now at flag prior.now }
{
    prior_refusal(flag, prior)?;
    read_from(header, at, flag, prior)
}

// global_motion_params of clause 5.9.24 for a frame that isn't intra, from bit `at` of the bytes on.
pub fn read_global_motion_params(header: &[u8], at: usize, flag: u8, prior: &[i32]) -> Models
    ensures { result ≡ models header.now at flag prior.now }
{
    match judged_and_read(header, at, flag, prior) {
        Ok(models) => models,
        Err(refusal) => no_models(refusal.number()),
    }
}
