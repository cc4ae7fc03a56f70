// Replays the list of headers, those of the list's maker and those of other encoders: each is read
// at its place, cut short, and written again from every bit of a byte on, among ones and among zeros,
// and read there. Then tries the worked headers of docs/RULES.md, and each row of the table by which
// the two calls say no, alone and with a later row beside it.
#![tactic(auto)]

ghost use Rattle.std.specs.Prelude.{pos, ◌+◌, ◌^◌, ◌<◌, ◌≤◌, ◌≤ℤ◌};

use header::Written;
use header_read::Models;
use replay::{List, UNTOUCHED_BYTE};
use std::{array, io};

const ONES: u8 = 255;

const ZEROS: u8 = 0;

// Bytes of a buffer, and its bits.
const ROOM: usize = 160;

const ROOM_BITS: u16 = 1280;

const ROTZOOM: u8 = 2;

const TRANSLATION: u8 = 1;

// The numbers of the refusals and of their cases, in the order of the table.
const WRITE_ROWS: [(u32, u64); 6] = [(2, 108), (4, 160), (14, 40), (7, 1260), (8, 336), (3, 6)];

const READ_ROWS: [(u32, u64); 4] = [(2, 24), (4, 12), (8, 336), (9, 16)];

// Reference 1 is IDENTITY. The others hold numbers in the middle and at both ends, codable with either
// flag.
const LEGAL: [[i32; 6]; 7] = [
    replay::IDENTITY,
    [16384, -32768, 65536, 0, 0, 65536],
    [1024, -2048, 65540, 6, -6, 65540],
    [-1024, 5120, 65530, -8, 12, 65544],
    [-4194304, 4194304, 65536, 0, 0, 65536],
    [4194304, -4194304, 73728, -8192, 8192, 73728],
    [-4194304, 4194304, 57344, 8192, -8192, 73728],
];

// ---- headers

// A header at its place among bytes, and what it holds.
#[derive(Drop)]
struct Case {
    types: [u8; 7],
    params: [i32; 42],
    prior: [i32; 42],
    bytes: [u8; ROOM],
    length: usize,
    start: u16,
    bits: u16,
    flag: u8,
}

// The refusal and zeros.
fn refused(refusal: u32) -> Models {
    Models {
        refusal,
        types: [0; 7],
        params: [0; 42],
        bits: 0,
    }
}

fn bytes_for(start: u16, bits: u16) -> usize {
    (usize::from(start) + usize::from(bits)).div_ceil(8)
}

// Bit i of a byte, the high bit first.
fn bit_of(byte: u8, i: u32) -> u8 {
    (byte >> (7 - i % 8)) % 2
}

fn bit_at(bytes: &[u8], at: u32) -> u8 {
    match bytes.get((at / 8) as usize) {
        Some(byte) => bit_of(*byte, at),
        None => 0,
    }
}

impl Case {
    // What reading gives.
    fn models(&self) -> Models {
        Models {
            refusal: 0,
            types: self.types,
            params: self.params,
            bits: usize::from(self.bits),
        }
    }

    fn read(&self, bytes: &[u8], start: u16) -> Models {
        header_read::read_global_motion_params(bytes, usize::from(start), self.flag, &self.prior)
    }

    // Written into the first bytes of a buffer.
    fn write(&self, start: u16, room: usize, out: &mut [u8]) -> Written {
        header::encode_inter_global_motion(
            &self.types,
            &self.params,
            self.flag,
            &self.prior,
            usize::from(start),
            replay::first_mut(out, room),
        )
    }

    fn is_read_right(&self) -> bool {
        self.read(replay::first(&self.bytes, self.length), self.start) == self.models()
    }

    // Every length in bytes below those used is too short.
    fn is_cut_right(&self) -> bool {
        (0..bytes_for(self.start, self.bits)).all(|end| self.read(
            replay::first(&self.bytes, end),
            self.start,
        ) == refused(9))
    }

    // Bit i of a buffer of equal bytes after the header was written from bit `start` on: up to the end of
    // its last byte there are zeros.
    fn wanted_bit(&self, start: u16, fill: u8, i: u16) -> u8 {
        if i < start {
            return bit_of(fill, u32::from(i));
        }
        if i - start < self.bits {
            return bit_at(&self.bytes, u32::from(self.start) + u32::from(i - start));
        }
        if u32::from(i / 8 * 8) < u32::from(start) + u32::from(self.bits) {
            return 0;
        }
        bit_of(fill, u32::from(i))
    }

    // Written, and read where it was written.
    fn is_written(&self, start: u16, fill: u8, room: usize) -> bool {
        let mut out = [fill; ROOM];
        let written = self.write(start, room, &mut out);
        written.refusal == 0
            && written.bits == usize::from(self.bits)
            && (0..ROOM_BITS).all(|i| bit_at(&out, u32::from(i)) == self.wanted_bit(start, fill, i))
            && self.read(replay::first(&out, room), start) == self.models()
    }

    fn is_too_long(&self, start: u16, room: usize) -> bool {
        let mut out = [UNTOUCHED_BYTE; ROOM];
        let written = self.write(start, room, &mut out);
        written.refusal == 3 && written.bits == 0 && out == [UNTOUCHED_BYTE; ROOM]
    }

    // Written where there is room, into the exact bytes, and refused with a byte fewer.
    fn is_written_from(&self, start: u16) -> bool {
        let exact = bytes_for(start, self.bits);
        exact != 0
            && self.is_written(start, ZEROS, ROOM)
            && self.is_written(start, ONES, exact)
            && self.is_too_long(start, exact - 1)
    }

    // Priced at the bits that were written.
    fn is_priced_right(&self) -> bool {
        let price = price::frame_price(false, &self.types, &self.params, self.flag, &self.prior);
        price.refusal == 0 && price.bits == usize::from(self.bits)
    }

    // Written from every bit of the first byte on.
    fn is_right(&self) -> bool {
        self.is_read_right()
            && self.is_cut_right()
            && (0..8).all(|start| self.is_written_from(start))
            && self.is_priced_right()
    }
}

fn next_short(list: &mut List) -> u16 {
    list.next_size().min(65535) as u16
}

// The bytes are packed four to a word.
fn next_case(list: &mut List) -> Case {
    let word = list.next_word();
    let length = list.next_size();
    let start = next_short(list);
    let bits = next_short(list);
    let mut bytes = [ZEROS; ROOM];
    let packed = replay::first_mut(&mut bytes, length.min(157).div_ceil(4) * 4);
    list.fill(packed, |list| list.next_byte());
    let prior = if word / 32768 % 2 == 1 {
        list.next_numbers()
    } else {
        replay::identity()
    };
    Case {
        types: array::from_fn(|i| ((word >> (2 * i)) % 4) as u8),
        params: list.next_numbers(),
        prior,
        bytes,
        length,
        start,
        bits,
        flag: (word / 16384 % 2) as u8,
    }
}

// Prior identity, high: reference 1 TRANSLATION (8192, -8192) in 17 bits, A4 20 00 in hexadecimal, or
// seven identities in 7.
fn worked_case(case: u64) -> Case {
    let mut types = [0; 7];
    let mut params = replay::identity();
    let mut bits = 7;
    let mut bytes = [ZEROS; ROOM];
    if case == 0 {
        types[0] = TRANSLATION;
        params[0] = 8192;
        params[1] = -8192;
        bits = 17;
        bytes[0] = 0xa4;
        bytes[1] = 0x20;
    }
    Case {
        types,
        params,
        prior: replay::identity(),
        bytes,
        length: bytes_for(0, bits),
        start: 0,
        bits,
        flag: 1,
    }
}

// ---- refusals

// What a call is asked: lists with one entry to spare and the lengths lent; the bit at which the writer
// begins and the bytes lent to it; the bytes of the worked header and the position for the reader.
#[derive(Clone, Copy)]
struct Ask {
    types: [u8; 8],
    params: [i32; 43],
    prior: [i32; 43],
    types_length: usize,
    params_length: usize,
    prior_length: usize,
    flag: u8,
    start: usize,
    room: usize,
    header_length: usize,
    at: usize,
}

// Nothing to refuse; prior identity.
fn legal_ask(flag: u8) -> Ask {
    Ask {
        types: [0, 1, 2, 3, 1, 2, 3, 0],
        params: array::from_fn(|i| LEGAL[i / 6 % 7][i % 6]),
        prior: replay::identity(),
        types_length: 7,
        params_length: 42,
        prior_length: 42,
        flag,
        start: 0,
        room: ROOM,
        header_length: 3,
        at: 0,
    }
}

// Row 2: each list one short, one long and empty.
fn with_wrong_length(mut a: Ask, k: usize) -> Ask {
    match k {
        0 => a.types_length = 6,
        1 => a.types_length = 8,
        2 => a.types_length = 0,
        3 => a.params_length = 41,
        4 => a.params_length = 43,
        5 => a.params_length = 0,
        6 => a.prior_length = 41,
        7 => a.prior_length = 43,
        _ => a.prior_length = 0,
    }
    a
}

// Row 4: each type, then the flag.
fn with_wrong_code(mut a: Ask, k: usize) -> Ask {
    match k {
        14 => a.flag = 2 + a.flag % 2,
        15 => a.flag = 254 + a.flag % 2,
        7..=13 => a.types[k % 7] = 255,
        _ => a.types[k % 7] = 4,
    }
    a
}

// Row 14: just beyond the first byte, and far beyond it.
fn with_start_over(mut a: Ask, k: usize) -> Ask {
    a.start = match k {
        0 => 8,
        1 => 9,
        2 => 256,
        3 => 0x1_0000_0000,
        _ => 0xffff_ffff_ffff_ffff,
    };
    a
}

// From the centre to either end of the numbers and of the priors.
fn reach_of(slot: usize) -> i32
    ensures { (pos 0 ≤ℤ result) × (result ≤ℤ pos 4194304) }
{
    if slot < 2 { 4194304 } else { 8192 }
}

fn step_of(gm_type: u8, flag: u8, slot: usize) -> i32
    ensures { (pos 0 ≤ℤ result) × (result ≤ℤ pos 16384) }
{
    if 1 < slot {
        return 2;
    }
    if gm_type != TRANSLATION {
        return 1024;
    }
    if flag == 0 { 16384 } else { 8192 }
}

fn carries(gm_type: u8, slot: usize) -> bool {
    slot < 2 * usize::from(gm_type % 4)
}

// The number so far above or below another.
fn moved(from: i32, by: i32, down: bool) -> i32 {
    if down {
        from.wrapping_sub(by)
    } else {
        from.wrapping_add(by)
    }
}

// A prior so far beyond an end.
fn with_prior_beyond(mut a: Ask, k: usize, by: i32) -> Ask
    requires { (pos 0 ≤ℤ by) × (by ≤ℤ pos 1) }
{
    let i = k / 2 % 42;
    let slot = i % 6;
    a.prior[i] = moved(replay::IDENTITY[slot], reach_of(slot) + by, k % 2 == 1);
    a
}

// What row 7 refuses in place of a number: off the grid, or beyond an end by a step. Where it isn't
// carried, a step from the one that it must be.
fn wrong_number(carried: bool, number: i32, slot: usize, step: i32, k: usize) -> i32
    requires { (pos 0 ≤ℤ step) × (step ≤ℤ pos 16384) }
{
    let down = k % 2 == 1;
    if k < 2 {
        return moved(number, 1, down);
    }
    if k == 2 {
        return moved(number, step + step / 2, down);
    }
    if carried {
        return moved(replay::IDENTITY[slot % 6], reach_of(slot) + step, down);
    }
    moved(number, step, down)
}

// Row 7: each slot of each model. ROTZOOM's pair follows slots 2 and 3, so that it is wrong alone.
fn with_wrong_model(mut a: Ask, k: usize) -> Ask {
    let i = k / 5 % 42;
    let slot = i % 6;
    let gm_type = a.types[i / 6];
    let step = step_of(gm_type, a.flag, slot);
    let number = wrong_number(carries(gm_type, slot), a.params[i], slot, step, k % 5);
    a.params[i] = number;
    if gm_type == ROTZOOM && slot == 2 {
        a.params[i + 3] = number;
    }
    if gm_type == ROTZOOM && slot == 3 {
        a.params[i + 1] = number.wrapping_neg();
    }
    a
}

// Row 3: a byte or two fewer than are needed.
fn with_little_room(mut a: Ask, k: usize) -> Ask {
    a.room = k.min(2);
    a
}

// Row 9: an empty header, a position at the end, past it and far past it, a header cut short, a
// position behind which there is too little.
fn with_short_header(mut a: Ask, k: usize) -> Ask {
    match k {
        0 => a.header_length = 0,
        1 => a.at = 24,
        2 => a.at = 25,
        3 => a.at = 0x2000_0000_0000_0000,
        4 => a.at = 0x8000_0000_0000_0000,
        5 => a.at = 0xffff_ffff_ffff_ffff,
        6 => a.header_length = 2,
        _ => a.at = 8,
    }
    a
}

impl Ask {
    // Writes the first entries of the lists.
    fn write(&self, out: &mut [u8]) -> Written {
        header::encode_inter_global_motion(
            replay::first(&self.types, self.types_length),
            replay::first(&self.params, self.params_length),
            self.flag,
            replay::first(&self.prior, self.prior_length),
            self.start,
            replay::first_mut(out, self.room),
        )
    }

    fn read(&self, header: &[u8]) -> Models {
        header_read::read_global_motion_params(
            header,
            self.at,
            self.flag,
            replay::first(&self.prior, self.prior_length),
        )
    }

    // Written without a refusal, and read again.
    fn is_accepted(&self) -> bool {
        let mut out = [UNTOUCHED_BYTE; ROOM];
        let written = self.write(&mut out);
        let read = self.read(&out);
        written.refusal == 0
            && read.refusal == 0
            && read.types[..] == self.types[..7]
            && read.params[..] == self.params[..42]
            && read.bits == written.bits
    }
}

// The call that refuses.
#[derive(Clone, Copy)]
enum Call {
    Write,
    Read,
}

impl Call {
    // Fault k of the row at a place of the table.
    fn with_fault(self, a: Ask, row: usize, k: usize) -> Ask {
        match (self, row) {
            (Call::Write, 0) => with_wrong_length(a, k),
            (Call::Write, 1) => with_wrong_code(a, k),
            (Call::Write, 2) => with_start_over(a, k),
            (Call::Write, 3) => with_wrong_model(a, k),
            (Call::Write, 4) => with_prior_beyond(a, k, 1),
            (Call::Write, _) => with_little_room(a, k),
            (Call::Read, 0) => with_wrong_length(a, 6 + k % 3),
            (Call::Read, 1) => with_wrong_code(a, 14 + k % 2),
            (Call::Read, 2) => with_prior_beyond(a, k, 1),
            (Call::Read, _) => with_short_header(a, k),
        }
    }

    // The refusal, nothing else, and every byte as it was.
    fn refuses(self, a: Ask, refusal: u32) -> bool {
        match self {
            Call::Write => {
                let mut out = [UNTOUCHED_BYTE; ROOM];
                let written = a.write(&mut out);
                written == Written { refusal, bits: 0 } && out == [UNTOUCHED_BYTE; ROOM]
            }
            Call::Read => {
                a.read(replay::first(&[0xa4, 0x20, 0], a.header_length)) == refused(refusal)
            }
        }
    }

    // Fault k of a row of so many, alone or beside the first fault of a later row.
    fn row_case(self, row: usize, later: usize, refusal: u32, case: usize) -> bool
        requires { (1 ≤ later) × (row + later < 2 ^ 64) }
    {
        let beside = case / 2 % later;
        let a = self.with_fault(legal_ask((case % 2) as u8), row, case / 2 / later);
        if beside == 0 {
            return self.refuses(a, refusal);
        }
        self.refuses(self.with_fault(a, row + beside, 0), refusal)
    }
}

// Every prior at each end of its range, then the identity.
fn accepted_case(case: usize) -> bool {
    let a = legal_ask((case % 2) as u8);
    if case / 2 < 84 {
        return with_prior_beyond(a, case / 2, 0).is_accepted();
    }
    a.is_accepted()
}

// The rows of a table in its order.
fn try_rows<R: Print + AllocGlobal>(
    rt: &R,
    call: Call,
    verb: &str,
    rows: &[(u32, u64)],
) -> io::Result<()> {
    for (row, (refusal, count)) in rows.iter().enumerate() {
        let name = format!(in rt.alloc(); "{verb}, row {refusal}")?;
        let later = rows.len() - row;
        replay::try_cases(rt, &mut (), name.as_str(), *count, |_, case| {
            Ok(call.row_case(row, later, *refusal, case as usize))
        })?;
    }
    Ok(())
}

fn main(rt: HostRuntime) -> io::Result<()> {
    let Some(mut list) = replay::open_list(&rt, "header.bin")? else {
        return Ok(());
    };
    let count = u64::from(list.next_word());
    replay::try_cases(&rt, &mut list, "headers", count, |list, _| {
        Ok(next_case(list).is_right())
    })?;
    replay::try_cases(&rt, &mut (), "worked", 2, |_, case| {
        Ok(worked_case(case).is_right())
    })?;
    replay::try_cases(&rt, &mut (), "accepted", 170, |_, case| {
        Ok(accepted_case(case as usize))
    })?;
    try_rows(&rt, Call::Write, "written", &WRITE_ROWS)?;
    try_rows(&rt, Call::Read, "read", &READ_ROWS)
}
