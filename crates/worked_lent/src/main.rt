// Tries the reader that holds its bytes against the core it stands over, on inputs from the generator:
// seven models by a reader against slice and position.
#![tactic(auto)]

use std::{array, io};

const MODELS: u64 = 4000;

// A number of slot 0 or 1 of a prior, within 4,194,304 of nought.
fn shift(state: u32) -> i32 {
    let size = i32::from(generator::upper_half(state)) * 64;
    if state % 2 == 0 { size } else { -1 - size }
}

fn prior_number(slot: usize, state: u32) -> i32 {
    let upper = i32::from(generator::upper_half(state));
    match slot {
        0 | 1 => shift(state),
        3 | 4 => upper % 8193,
        _ => 57344 + upper % 16385,
    }
}

fn bytes_from(seed: u32) -> [u8; 24] {
    let mut state = seed;
    array::from_fn(|_| {
        state = generator::next_state(state);
        (generator::upper_half(state) % 256) as u8
    })
}

fn prior_from(seed: u32) -> [i32; 42] {
    let mut state = seed;
    array::from_fn(|i| {
        state = generator::next_state(state);
        prior_number(i % 6, state)
    })
}

// The reader's models are those of slice and position, and where the bytes end first both say so.
fn models_agree(case: u64) -> bool {
    let seed = generator::next_state((case % 0x1_0000_0000) as u32);
    let place = generator::next_state(seed);
    let code = generator::next_state(place);
    let at = usize::from(generator::upper_half(place) % 200);
    let flag = (generator::upper_half(code) % 3) as u8;
    let bytes = bytes_from(seed);
    let prior = prior_from(code);
    bit_reader::read_models(&bytes, at, flag, &prior)
        == header_read::read_global_motion_params(&bytes, at, flag, &prior)
}

fn main(rt: HostRuntime) -> io::Result<()> {
    replay::try_cases(&rt, &mut (), "models", MODELS, |_, case| {
        Ok(models_agree(case))
    })
}
