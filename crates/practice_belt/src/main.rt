// What the search finds on a practice belt (docs/RULES.md, 'Practice belt'): seed 1, 64 × 64 pels, 3 pels
// down and 5 to the left. A line for each sample, as the list program prints it: row, column, v and u
// found, then v and u made, in eighths. The belt is noise, so that not every motion made is found.
#![tactic(auto)]

use std::io;

const SEED: u32 = 1;

const SIDE: usize = 64;

const PELS: usize = 4096;

const HALF: usize = 1024;

const SAMPLES: usize = 16;

// The motion, in pels.
const DY: i32 = 3;

const DX: i32 = -5;

// The same motion in eighths.
const V_MADE: i32 = 8 * DY;

const U_MADE: i32 = 8 * DX;

// A stored motion, in signed eighths.
fn eighths(stored: u32) -> i64 {
    i64::from(stored) - i64::from(sample::MOTION_BIAS)
}

fn print_line(rt: &impl Print, word: u32) -> io::Result<()> {
    let row = sample::row_of(word);
    let column = sample::col_of(word);
    let v = eighths(sample::v_of(word));
    let u = eighths(sample::u_of(word));
    println!(rt; "{row} {column} {v} {u} {V_MADE} {U_MADE}")
}

fn print_lines(rt: &impl Print, words: &[u32]) -> io::Result<()> {
    for word in words {
        print_line(rt, *word)?;
    }
    Ok(())
}

fn print_refusal(rt: &impl Print, refusal: u32) -> io::Result<()> {
    println!(rt; "refused {refusal}")
}

fn search(rt: &impl Print, input: &[u16], reference: &[u16]) -> io::Result<()> {
    let classes = [0u8; SAMPLES];
    let mut input_half = [0u16; HALF];
    let mut ref_half = [0u16; HALF];
    let mut words = [0u32; SAMPLES];
    let found = search::collect_motion_samples(
        input,
        reference,
        SIDE,
        SIDE,
        &classes,
        &mut input_half,
        &mut ref_half,
        &mut words,
    );
    if found.refusal != 0 {
        return print_refusal(rt, found.refusal);
    }
    print_lines(rt, &words)
}

fn main(rt: HostRuntime) -> io::Result<()> {
    let mut input = [0u16; PELS];
    let mut reference = [0u16; PELS];
    let made = practice::make_practice_planes(SEED, SIDE, SIDE, DY, DX, &mut input, &mut reference);
    if made.refusal != 0 {
        return print_refusal(&rt, made.refusal);
    }
    search(&rt, &input, &reference)
}
