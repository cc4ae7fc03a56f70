// The generator of noise (docs/RULES.md, 'Practice belt'): a state of 32 bits, its next one, and the pel that
// a state gives.
#![tactic(auto)]

ghost use Rattle.std.specs.Prelude.{◌≡◌, ◌*◌, ◌/◌, ◌%◌, ◌^◌};
ghost use Rattle.generator.specs.Generator.{stepped, next, upper_half};

// The generator's two numbers.
const MULTIPLIER: u32 = 1664525;

const INCREMENT: u32 = 1013904223;

// What the upper half counts.
const UPPER: u32 = 65536;

fn step(multiplier: u32, increment: u32, state: u32) -> u32
    ensures { result ≡ stepped multiplier increment state }
{
    multiplier.wrapping_mul(state).wrapping_add(increment)
}

// The state after one step.
pub fn next_state(state: u32) -> u32
    ensures { result ≡ next state }
{
    step(MULTIPLIER, INCREMENT, state)
}

pub fn upper_half(state: u32) -> u16
    ensures { result ≡ upper_half state }
{
    (state / UPPER) as u16
}
