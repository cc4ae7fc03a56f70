// The header's global motion parameters, written: types and numbers of seven models, the flag and a
// prior go in, bits come out. Answers to docs/RULES.md, 'Header' and rows 2, 4, 14, 7, 8, 3; clauses 5.9.24
// and 5.9.25 of the standard; `encode_inter_global_motion` and `write_global_param` of
// encoder/frame_obu.rs. `specs/Reading` also states what the standard reads.
#![tactic(auto)]

ghost use Rattle.std.specs.Prelude.{◌≡◌, ◌+◌, ◌≤◌, ◌<◌, ◌*◌, length, slice_index, false};
ghost use Rattle.laws.specs.Refusal.{judge};
ghost use Rattle.refusal.specs.Number.{refusal_number};
ghost use Rattle.bits.specs.Inner.{Room, Wrote, FieldIs};
ghost use Rattle.grid.specs.Inner.{PriorIn, CodedIn};
ghost use Rattle.models.specs.Models.{model_wrong};
ghost use Rattle.header.specs.Coefficient.{coefficient_bits};
ghost use Rattle.header.specs.Count.{slot_count, model_count, header_count};
ghost use Rattle.header.specs.Inner.{Carried, ModelReady, Seven, HeaderReady, HeaderCoded, Identities, page_of, Begins};
ghost use Rattle.header.specs.Writing.{slot_bits, type_bits, model_bits, reference_bits, header_bits, bits_placed, written, header_after};
ghost use Rattle.header.specs.Writing.{lengths_wrong, bytes_for, too_short, code_rows, model_rows, room_rows, write_refusal};

use bits::{BITS_OF_A_BYTE, BitCursor, Field};
use grid::{IDENTITY, ROTZOOM, TRANSLATION};
use models::{NUMBERS, REFERENCES, SLOTS};
use refusal::Refusal;

// 987 bits at most, from any bit of the first byte on.
pub const MOST_BYTES: usize = 125;

// A row of the table of refusals (0: none), and the bits written.
#[repr(C)]
#[derive(Clone, Copy, Debug, PartialEq, Eq)]
pub struct Written {
    pub refusal: u32,
    pub bits: usize,
}

// What a header carries: seven types and models in rising order of reference, the flag, and a prior for
// each number.
#[derive(Clone, Copy)]
pub struct Header<'a> {
    pub types: &'a [u8],
    pub params: &'a [i32],
    pub flag: u8,
    pub prior: &'a [i32],
}

// One model of them: its type, the flag, and where its six numbers and their priors begin.
#[derive(Clone, Copy)]
struct Model<'a> {
    gm_type: u8,
    flag: u8,
    params: &'a [i32],
    prior: &'a [i32],
    first: usize,
    ghost ready: { ModelReady params.now prior.now first },
}

// How many bits a coefficient takes.
pub fn global_param_length(gm_type: u8, flag: u8, slot: u8, value: i32, prior: i32) -> u32
    requires { PriorIn slot prior }
    ensures { (result ≡ length (coefficient_bits gm_type flag slot value prior)) × (result ≤ 64) }
{
    let s = grid::symbols_of(gm_type, flag, slot, prior);
    subexp::unsigned_subexp_length(s.mx, s.r, grid::symbol_of(gm_type, flag, slot, value))
}

fn write_global_param(
    cursor: BitCursor,
    header: &mut [u8],
    gm_type: u8,
    flag: u8,
    slot: u8,
    value: i32,
    prior: i32,
) -> BitCursor
    requires { CodedIn gm_type flag slot value prior × Room header.old cursor.at (length (coefficient_bits gm_type flag slot value prior)) }
    ensures { Wrote header.old cursor.at (coefficient_bits gm_type flag slot value prior) header.new result.at }
{
    let s = grid::coded_of(gm_type, flag, slot, value, prior);
    subexp::encode_unsigned_subexp_with_ref(cursor, header, s.mx, s.r, s.t)
}

// is_global, is_rot_zoom and is_translation, as far as they are written.
fn type_field(gm_type: u8) -> Field
    ensures { FieldIs result (type_bits gm_type) × (result.n ≤ 3) }
{
    match gm_type {
        IDENTITY => Field { n: 1, value: 0 },
        ROTZOOM => Field { n: 2, value: 3 },
        TRANSLATION => Field { n: 3, value: 5 },
        _ => Field { n: 3, value: 4 },
    }
}

// How many identities follow one another from reference r on.
fn identities(types: &[u8], r: usize) -> usize
    requires { r ≤ length types.now }
    ensures { Identities types.now r result }
{
    types[r..]
        .iter()
        .take_while(|gm_type| **gm_type == IDENTITY)
        .count()
}

impl<'a> Model<'a> {
    fn write_type(self, cursor: BitCursor, header: &mut [u8]) -> BitCursor
        requires { Room header.old cursor.at (length (type_bits self.gm_type)) }
        ensures { Wrote header.old cursor.at (type_bits self.entry.gm_type) header.new result.at }
    {
        let field = type_field(self.gm_type);
        cursor.write_bits(header, field.n, field.value)
    }

    fn write_slot(self, cursor: BitCursor, header: &mut [u8], slot: u8) -> BitCursor
        requires right { model_wrong self.gm_type self.flag self.params.now self.first ≡ false }
        requires carried { Carried self.gm_type slot }
        requires room { Room header.old cursor.at (length (slot_bits self.flag self.params.now self.prior.now self.gm_type self.first slot)) }
        ensures { Wrote header.old cursor.at (slot_bits self.entry.flag self.entry.params.now self.entry.prior.now self.entry.gm_type self.entry.first slot) header.new result.at }
    {
        let value = self.params[self.first + slot as usize];
        let from = self.prior[self.first + slot as usize];
        write_global_param(cursor, header, self.gm_type, self.flag, slot, value, from)
    }

    // The coefficients, in the standard's order: `grid::slots_carried`.
    fn write_slots(self, cursor: BitCursor, header: &mut [u8]) -> BitCursor
        requires right { model_wrong self.gm_type self.flag self.params.now self.first ≡ false }
        requires room { Room header.old cursor.at (length (model_bits self.flag self.params.now self.prior.now self.gm_type self.first)) }
        ensures { Wrote header.old cursor.at (model_bits self.entry.flag self.entry.params.now self.entry.prior.now self.entry.gm_type self.entry.first) header.new result.at }
    {
        let slots = grid::slots_carried(self.gm_type);
        let mut next = cursor;
        for slot in slots {
            next = self.write_slot(next, header, *slot);
        }
        next
    }

    // The type bits, then the coefficients.
    fn write(self, cursor: BitCursor, header: &mut [u8]) -> BitCursor
        requires right { model_wrong self.gm_type self.flag self.params.now self.first ≡ false }
        requires room { Room header.old cursor.at (length (reference_bits self.flag self.params.now self.prior.now self.gm_type self.first)) }
        ensures { Wrote header.old cursor.at (reference_bits self.entry.flag self.entry.params.now self.entry.prior.now self.entry.gm_type self.entry.first) header.new result.at }
    {
        let next = self.write_type(cursor, header);
        self.write_slots(next, header)
    }

    // How many bits a slot takes.
    fn slot_length(self, slot: u8) -> u32
        requires { slot < 6 }
        ensures { (result ≡ slot_count self.entry.flag self.entry.params.now self.entry.prior.now self.entry.gm_type self.entry.first slot) × (result ≤ 64) }
    {
        let at = self.first + slot as usize;
        global_param_length(
            self.gm_type,
            self.flag,
            slot,
            self.params[at],
            self.prior[at],
        )
    }

    // How many bits the type and the coefficients take.
    fn length(self) -> usize
        ensures { (result ≡ model_count self.entry.flag self.entry.params.now self.entry.prior.now self.entry.gm_type self.entry.first) × (result ≤ 387) }
    {
        let slots = grid::slots_carried(self.gm_type);
        let mut n = type_field(self.gm_type).n as usize;
        for slot in slots {
            n += self.slot_length(*slot) as usize;
        }
        n
    }
}

fn lengths_wrong(types: usize, params: usize, prior: usize) -> bool
    ensures { result ≡ lengths_wrong types params prior }
{
    types != REFERENCES || params != NUMBERS || prior != NUMBERS
}

// A header's bytes before its bits are in them: zeros, but for the first.
fn page_of(first: u8) -> [u8; 125]
    ensures { result ≡ page_of first }
{
    let mut page = [0u8; 125];
    page[0] = first;
    page
}

impl<'a> Header<'a> {
    // The model of reference r.
    fn model(self, r: usize) -> Model<'a>
        requires { HeaderReady self.types.now self.params.now self.prior.now × (r < 7) }
        ensures gm_type { result.gm_type ≡ slice_index self.entry.types.now r }
        ensures flag { result.flag ≡ self.entry.flag }
        ensures params { result.params.now ≡ self.entry.params.now }
        ensures prior { result.prior.now ≡ self.entry.prior.now }
        ensures first { result.first ≡ 6 * r }
    {
        Model {
            gm_type: self.types[r],
            flag: self.flag,
            params: self.params,
            prior: self.prior,
            first: SLOTS * r,
        }
    }

    // References 1 to 7, one behind the other. A run of identities is a field of zeros.
    fn write(self, cursor: BitCursor, header: &mut [u8]) -> BitCursor
        requires { HeaderCoded self.types.now self.params.now self.flag self.prior.now × Room header.old cursor.at (length (header_bits self.types.now self.params.now self.flag self.prior.now)) }
        ensures { Wrote header.old cursor.at (header_bits self.entry.types.now self.entry.params.now self.entry.flag self.entry.prior.now) header.new result.at }
    {
        let mut next = cursor;
        let mut r = 0;
        // A while: the next reference isn't known before the run of identities is counted.
        while r < REFERENCES {
            let n = identities(self.types, r);
            if n == 0 {
                next = self.model(r).write(next, header);
                r += 1;
            } else {
                next = next.write_bits(header, n as u32, 0);
                r += n;
            }
        }
        next
    }

    // How many bits the seven references take.
    pub fn length(self) -> usize
        requires { HeaderReady self.types.now self.params.now self.prior.now }
        ensures { result ≡ header_count self.entry.types.now self.entry.params.now self.entry.flag self.entry.prior.now }
    {
        let mut n = 0;
        for r in 0..REFERENCES {
            n += self.model(r).length();
        }
        n
    }

    // Fewer bytes than the header's bits take from bit `start` on.
    fn too_short(self, start: usize, room: usize) -> bool
        requires { HeaderReady self.types.now self.params.now self.prior.now × (start < 8) }
        ensures { result ≡ too_short start self.entry.types.now self.entry.params.now self.entry.flag self.entry.prior.now room }
    {
        room < MOST_BYTES && room < (start + self.length() + 7) / BITS_OF_A_BYTE
    }

    // Lengths, types and flag.
    pub fn code_refusal(self) -> Result<(), Refusal>
        ensures { refusal_number result ≡ judge (code_rows self.entry.types.now self.entry.params.now self.entry.flag self.entry.prior.now) }
    {
        if lengths_wrong(self.types.len(), self.params.len(), self.prior.len()) {
            return Err(Refusal::WrongLength);
        }
        if models::types_over(self.types) || 1 < self.flag {
            return Err(Refusal::NoSuchCode);
        }
        Ok(())
    }

    // Start, models and priors.
    pub fn model_refusal(self, start: usize) -> Result<(), Refusal>
        requires { Seven self.types.now self.params.now self.prior.now }
        ensures { refusal_number result ≡ judge (model_rows start self.entry.types.now self.entry.params.now self.entry.flag self.entry.prior.now) }
    {
        if models::start_over(start) {
            return Err(Refusal::StartOver);
        }
        if models::models_wrong(self.types, self.flag, self.params) {
            return Err(Refusal::ModelWrong);
        }
        if models::priors_out(self.prior) {
            return Err(Refusal::PriorOut);
        }
        Ok(())
    }

    // Room.
    fn room_refusal(self, start: usize, room: usize) -> Result<(), Refusal>
        requires { HeaderReady self.types.now self.params.now self.prior.now × (start < 8) }
        ensures { refusal_number result ≡ judge (room_rows start self.entry.types.now self.entry.params.now self.entry.flag self.entry.prior.now room) }
    {
        if self.too_short(start, room) {
            return Err(Refusal::TooShort);
        }
        Ok(())
    }

    fn refusal(self, start: usize, room: usize) -> Result<(), Refusal>
        ensures { refusal_number result ≡ write_refusal start self.entry.types.now self.entry.params.now self.entry.flag self.entry.prior.now room }
    {
        self.code_refusal()?;
        self.model_refusal(start)?;
        self.room_refusal(start, room)
    }

    // The bits from bit `start` on, then zeros up to the end of the last byte, over a first byte whose bits
    // before the start are those of `before`; how many bits they are without the zeros.
    fn write_after(self, before: u8, start: usize, header: &mut [u8]) -> usize
        requires { HeaderCoded self.types.now self.params.now self.flag self.prior.now × Begins start before header.old
            × (bytes_for start (length (header_bits self.types.now self.params.now self.flag self.prior.now)) ≤ length header.old) }
        ensures { (result ≡ length (header_bits self.entry.types.now self.entry.params.now self.entry.flag self.entry.prior.now))
            × (header.new ≡ bits_placed start (header_bits self.entry.types.now self.entry.params.now self.entry.flag self.entry.prior.now) header.old) }
    {
        let mut page = page_of(before);
        let end = self.write(BitCursor::new(start), &mut page);
        let bits = end.at - start;
        let last = end.byte_align(&mut page);
        let count = last.at / BITS_OF_A_BYTE;
        header[..count].copy_from_slice(&page[..count]);
        bits
    }

    // The bits from bit `start` on, then zeros up to the end of the last byte; how many bits they are without the zeros.
    // They are put together apart: of the header only the bits before the start are looked at.
    fn write_from(self, start: usize, header: &mut [u8]) -> usize
        requires { HeaderCoded self.types.now self.params.now self.flag self.prior.now × (start < 8) × (bytes_for start (length (header_bits self.types.now self.params.now self.flag self.prior.now)) ≤ length header.old) }
        ensures { (result ≡ length (header_bits self.entry.types.now self.entry.params.now self.entry.flag self.entry.prior.now))
            × (header.new ≡ bits_placed start (header_bits self.entry.types.now self.entry.params.now self.entry.flag self.entry.prior.now) header.old) }
    {
        let before = if start == 0 { 0 } else { header[0] };
        self.write_after(before, start, header)
    }
}

// Seven types and models in rising order of reference, the flag, a prior for each number, and the bit
// of the first byte at which the header begins.
pub fn encode_inter_global_motion(
    types: &[u8],
    params: &[i32],
    flag: u8,
    prior: &[i32],
    start: usize,
    header: &mut [u8],
) -> Written
    ensures value { result ≡ written start types.now params.now flag prior.now (length header.old) }
    ensures header_after { header.new ≡ header_after start types.now params.now flag prior.now header.old }
{
    let carried = Header {
        types,
        params,
        flag,
        prior,
    };
    match carried.refusal(start, header.len()) {
        Err(refusal) => Written {
            refusal: refusal.number(),
            bits: 0,
        },
        Ok(()) => Written {
            refusal: 0,
            bits: carried.write_from(start, header),
        },
    }
}
