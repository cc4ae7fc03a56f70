// Jobs that elect, on a textured belt that carries fibre and film, and that rested, moved, grew or slid
// between two frames: one belt for each type.
// Prints which type won and why the others didn't; the true motion, the measured one and the one that
// its header reads as, in pels, zoom, degrees and slide, how many samples agree, the score and the bits;
// then what is stored: the header's bytes and the blocks as the list program prints them; last, whether
// all of it is right.
#![tactic(auto)]

ghost use Rattle.std.specs.Prelude.{◌<◌};

use class_set::ALL_CLASSES;
use grid::{AFFINE, IDENTITY, ROTZOOM, TRANSLATION};
use job::{Report, Settings};
use std::{array, fmt, io};

const SIDE: usize = 64;

const PELS: usize = 4096;

const HALF: usize = 1024;

const SAMPLES: usize = 16;

// The belt goes on beyond the frame: where its first pel lies.
const FIRST: u32 = 1000;

// The bit of the first byte at which the header begins.
const START: usize = 0;

const FRAME: u16 = 7;

const REFERENCE: u8 = 3;

const HIGH_PRECISION: u8 = 1;

const FIBRE: u8 = 1;

const FILM: u8 = 4;

// 1 at 16 fraction bits.
const ONE: i32 = 65536;

// ---- the belt

// Patches of eight pels, one shade each.
fn patch(row: u32, column: u32) -> u16
    ensures { result < 1024 }
{
    let state = generator::next_state(generator::next_state(row / 8) ^ column / 8);
    generator::upper_half(generator::next_state(state)) % 1024
}

// Four layers of patches, each shifted a little.
fn texture(row: u32, column: u32) -> u16
    requires { (row < 1000000) × (column < 1000000) }
{
    let two = patch(row, column) + patch(row + 2, column + 3);
    let four = two + patch(row + 4, column + 6) + patch(row + 6, column + 1);
    four / 4
}

// The pel at this row and column. The belt rests; or is moved by a pel down and two to the right; or grown
// or slid by a sixteenth: each block of 16 then moves by whole pels.
fn pel_at(gm_type: u8, row: u32, column: u32) -> u16
    requires { (row < 1000) × (column < 1000) }
{
    let right = column + FIRST;
    match gm_type {
        TRANSLATION => texture(row + 1, right + 2),
        ROTZOOM => texture(row + row / 16, right + column / 16),
        AFFINE => texture(row, right + row / 16),
        _ => texture(row, right),
    }
}

fn frame_of(gm_type: u8) -> [u16; PELS] {
    array::from_fn(|i| pel_at(gm_type, (i / SIDE) as u32, (i % SIDE) as u32))
}

// What lies on the belt: fibre, with film over a corner.
fn load() -> [u8; SAMPLES] {
    array::from_fn(|i| if i / 8 == 1 && i % 4 / 2 == 1 {
        FILM
    } else {
        FIBRE
    })
}

// The same motions as models, x first: blocks have their centres at 7.5 and every 16 pels from there.
fn true_motion(gm_type: u8) -> [i32; 6] {
    match gm_type {
        TRANSLATION => [131072, 65536, ONE, 0, 0, ONE],
        ROTZOOM => [-30720, -30720, 69632, 0, 0, 69632],
        AFFINE => [-30720, 0, ONE, 4096, 0, ONE],
        _ => replay::IDENTITY,
    }
}

// ---- what is printed

fn name_of(gm_type: u8) -> &'static str {
    match gm_type {
        IDENTITY => "IDENTITY",
        TRANSLATION => "TRANSLATION",
        ROTZOOM => "ROTZOOM",
        AFFINE => "AFFINE",
        _ => "",
    }
}

// A number at 16 fraction bits, with four decimals.
#[derive(Clone, Copy)]
struct Decimals(i32);

impl fmt::Display for Decimals {
    fn fmt<W: fmt::Write>(&self, f: &mut fmt::Formatter<W>) -> fmt::Result {
        let sign = if self.0 < 0 { "-" } else { "" };
        let parts = (u64::from(self.0.unsigned_abs()) * 10000 + 32768) / 65536;
        let whole = parts / 10000;
        let rest = parts % 10000;
        write!(f, "{sign}{whole}.{rest:04}")
    }
}

fn nearest(x: f64) -> Decimals {
    Decimals(grid_number::grid_number(x))
}

// The zoom and the turn in degrees of a model, by the first terms of their series in the tangent of the
// turn, which is small here.
fn zoom_of(model: [i32; 6]) -> Decimals {
    let along = model[2] as f64;
    let tangent = model[4] as f64 / along;
    let square = tangent * tangent;
    nearest(along / 65536.0 * (1.0 + square * (0.5 - square * 0.125)))
}

fn degrees_of(model: [i32; 6]) -> Decimals {
    let tangent = model[4] as f64 / model[2] as f64;
    let square = tangent * tangent;
    nearest(57.29577951308232 * tangent * (1.0 - square * (0.3333333333333333 - square * 0.2)))
}

// How far rows slide along each other, beyond a turn.
fn slide_of(model: [i32; 6]) -> Decimals {
    nearest((model[3] as f64 + model[4] as f64) / 65536.0)
}

fn print_motion(rt: &impl Print, name: &str, model: [i32; 6]) -> io::Result<()> {
    let right = Decimals(model[0]);
    let down = Decimals(model[1]);
    let zoom = zoom_of(model);
    let turn = degrees_of(model);
    let slide = slide_of(model);
    println!(rt;
        "{name} {right} right, {down} down, zoom {zoom}, turn {turn} degrees, slide {slide}"
    )
}

// ---- the election, in words

// The type that is held, IDENTITY for none, and its error.
#[derive(Clone, Copy)]
struct Held {
    gm_type: u8,
    error: f64,
}

// A type's trimmed fit on the grid, and what it leaves: the gate, or what the one held leaves, decides.
fn explain_type(
    rt: &impl Print,
    held: Held,
    gate: f64,
    gm_type: u8,
    words: &[u32],
) -> io::Result<Held> {
    let candidate = word_trim::quantize_trimmed(gm_type, HIGH_PRECISION, words);
    let refusal = candidate.refusal;
    let name = name_of(gm_type);
    if refusal != 0 {
        println!(rt; "{name} is refused, passed over: row {refusal}")?;
        return Ok(held);
    }
    let error = score::mean_sq_residual(candidate.params, words).score;
    let (is_held, why) = if gate < error {
        (false, "more than that, passed over")
    } else if held.gm_type == IDENTITY {
        (true, "the first that doesn't leave more, held")
    } else if error > 0.8 * held.error {
        (
            false,
            "more than 0.8 of what the one held leaves, passed over",
        )
    } else if held.error - error <= 0.02 {
        (
            false,
            "not more than 0.02 less than the one held, passed over",
        )
    } else {
        (
            true,
            "at most 0.8 of what the one held leaves and more than 0.02 less, held in its place",
        )
    };
    let left = nearest(error);
    println!(rt; "{name} leaves {left}: {why}")?;
    Ok(if is_held {
        Held { gm_type, error }
    } else {
        held
    })
}

fn explain(rt: &impl Print, words: &[u32]) -> io::Result<u8> {
    let error = score::mean_sq_residual(true_motion(IDENTITY), words).score;
    let energy = nearest(error);
    if error < 0.25 {
        println!(rt; "motion energy: {energy} square pels, under 0.25: no type is asked")?;
        return Ok(IDENTITY);
    }
    let gate = 0.25 * error;
    let most = nearest(gate);
    println!(rt; "motion energy: {energy} square pels; a model may leave {most}")?;
    let mut held = Held {
        gm_type: IDENTITY,
        error,
    };
    for gm_type in [TRANSLATION, ROTZOOM, AFFINE] {
        held = explain_type(rt, held, gate, gm_type, words)?;
    }
    Ok(held.gm_type)
}

fn print_bytes(rt: &impl Print, bytes: &[u8]) -> io::Result<()> {
    rt.print("header: ")?;
    for byte in bytes {
        print!(rt; "{byte:02x}")?;
    }
    rt.println("")
}

fn print_report(rt: &impl Print, r: Report, agree: usize) -> io::Result<()> {
    let samples = r.samples;
    let score = nearest(r.score);
    let bits = r.bits;
    println!(rt; "samples that agree within an eighth: {agree}")?;
    println!(rt; "of samples: {samples}")?;
    println!(rt; "score: {score} square pels")?;
    println!(rt; "header bits: {bits}")
}

fn print_block(rt: &impl Print, block: &[u8]) -> io::Result<()> {
    let mut text = [0u8; 4096];
    let n = listing::list_block(block, &mut text);
    rt.write_all(&text[..n])
}

// ---- read back

// The model of the job's reference, of seven as stored, x first.
fn own_model(gm_type: u8, m: [i32; 42]) -> [i32; 6] {
    if gm_type == TRANSLATION {
        return [m[13], m[12], m[14], m[15], m[16], m[17]];
    }
    [m[12], m[13], m[14], m[15], m[16], m[17]]
}

// How many samples are within an eighth of a pel of the model.
fn agreeing(model: [i32; 6], words: &[u32]) -> usize {
    words
        .iter()
        .filter(|word| score::mean_sq_residual(model, &[**word]).score <= 0.015625)
        .count()
}

fn blocks_agree(blocks: &[u8], words: [u32; SAMPLES], classes: [u8; SAMPLES]) -> bool {
    let mut again = [0u32; SAMPLES];
    let mut sorted = [0u8; SAMPLES];
    let read = frame_read::read_both(blocks, &mut again, &mut sorted);
    read.refusal == 0
        && read.frame == FRAME
        && read.samples == SAMPLES
        && words == again
        && classes == sorted
}

fn show(rt: &impl Print, gm_type: u8) -> io::Result<()> {
    let name = name_of(gm_type);
    println!(rt; "a belt of {name}")?;
    let settings = Settings {
        frame: FRAME,
        gm_type: 0,
        reference: REFERENCE,
        flag: HIGH_PRECISION,
        trim: 0,
        elect: 1,
        set: ALL_CLASSES,
        start: START,
    };
    let classes = load();
    let prior = replay::identity::<42>();
    let mut input_half = [0u16; HALF];
    let mut ref_half = [0u16; HALF];
    let mut words = [0u32; SAMPLES];
    let mut blocks = [0u8; 512];
    let mut header = [0u8; 125];
    let r = job::job(
        &frame_of(gm_type),
        &frame_of(IDENTITY),
        SIDE,
        SIDE,
        settings,
        &classes,
        &[0; 6],
        &replay::identity::<36>(),
        &prior,
        &mut input_half,
        &mut ref_half,
        &mut words,
        &mut blocks,
        &mut header,
    );
    let refusal = r.refusal;
    if refusal != 0 {
        return println!(rt; "refused {refusal}");
    }
    let elected = r.types[2];
    let truth = true_motion(gm_type);
    let measured = own_model(elected, r.models);
    let read = header_read::read_global_motion_params(&header, START, HIGH_PRECISION, &prior);
    let stored = own_model(read.types[2], read.params);
    let explained = explain(rt, &words)?;
    let name = name_of(elected);
    println!(rt; "elected: {name}")?;
    print_motion(rt, "true:", truth)?;
    print_motion(rt, "measured:", measured)?;
    print_motion(rt, "header read:", stored)?;
    print_report(rt, r, agreeing(measured, &words))?;
    print_bytes(rt, replay::first(&header, r.bits.div_ceil(8)))?;
    print_block(rt, &blocks)?;
    let is_right = elected == gm_type
        && explained == elected
        && read.types[2] == elected
        && truth == measured
        && measured == stored
        && blocks_agree(&blocks, words, classes);
    rt.println(if is_right {
        "verdict: the true motion was elected and measured, and what is stored reads back as it\n"
    } else {
        "verdict: WRONG\n"
    })
}

fn main(rt: HostRuntime) -> io::Result<()> {
    for gm_type in [IDENTITY, TRANSLATION, ROTZOOM, AFFINE] {
        show(&rt, gm_type)?;
    }
    Ok(())
}
