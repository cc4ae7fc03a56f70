// The sample word and the sample it stands for (docs/RULES.md, 'Records': Sample, Sample word).
// A word's five fields are taken apart and put together; a list of words is tested for what a frame
// may store; a word becomes a `MotionSample`, the four binary64 numbers that the fits take
// (`MotionSample` of the Rust's global_motion.rs).
#![tactic(auto)]

ghost use Rattle.std.specs.Prelude.{◌≡◌, ℕ, ◌<◌, length};
ghost use Rattle.sample.specs.Word.{row_of, col_of, v_of, u_of, class_of, word_of, in_range, place_of, sides, motions};
ghost use Rattle.sample.specs.Sample.{sample_of, centre_of, pels_of};
ghost use Rattle.sample.specs.Storable.{storable_from};
ghost use Rattle.sample.specs.Inner.{Held, Tabled};

// The samples of the largest frame, and of the longest list.
pub const MOST_SAMPLES: usize = 4096;

const ROW_UNIT: u32 = 67108864;

const COL_UNIT: u32 = 1048576;

const V_UNIT: u32 = 2048;

const U_UNIT: u32 = 4;

const SIDES: u32 = 64;

const MOTIONS: u32 = 512;

const CLASSES: u32 = 4;

// The largest stored motion, and what a stored motion is above its eighths.
const LAST_MOTION: u32 = 446;

pub const MOTION_BIAS: u32 = 223;

const BLOCK_SIDE: u32 = 16;

// In C the same four numbers, in this order.
#[repr(C)]
#[derive(Clone, Copy)]
pub struct MotionSample {
    pub x: f64,
    pub y: f64,
    pub u: f64,
    pub v: f64,
}

pub fn row_of(word: u32) -> u32
    ensures { result ≡ row_of word }
{
    word / ROW_UNIT
}

pub fn col_of(word: u32) -> u32
    ensures { result ≡ col_of word }
{
    word / COL_UNIT % SIDES
}

// The stored motion down, eighths plus 223.
pub fn v_of(word: u32) -> u32
    ensures { result ≡ v_of word }
{
    word / V_UNIT % MOTIONS
}

// The stored motion across, eighths plus 223.
pub fn u_of(word: u32) -> u32
    ensures { result ≡ u_of word }
{
    word / U_UNIT % MOTIONS
}

pub fn class_of(word: u32) -> u8
    ensures { result ≡ class_of word }
{
    (word % CLASSES) as u8
}

pub fn word_of(row: u32, col: u32, v: u32, u: u32, class: u8) -> u32
    requires { Held row col v u class }
    ensures { result ≡ word_of row col v u class }
{
    row * ROW_UNIT + col * COL_UNIT + v * V_UNIT + u * U_UNIT + class as u32
}

// Both stored motions are within 223 eighths of zero.
pub fn in_range(word: u32) -> bool
    ensures { result ≡ in_range word }
{
    v_of(word) <= LAST_MOTION && u_of(word) <= LAST_MOTION
}

// (R, C) as one number, R first.
pub fn place_of(word: u32) -> u32
    ensures { result ≡ place_of word }
{
    word / COL_UNIT
}

// The words may be stored from the place `first` on: motions in range, (R, C) rising.
pub fn storable_from(first: u32, words: &[u32]) -> bool
    ensures { result ≡ storable_from first words.now }
{
    let mut least = first;
    for word in words {
        if !in_range(*word) {
            return false;
        }
        let place = place_of(*word);
        if place < least {
            return false;
        }
        least = place + 1;
    }
    true
}

// The centre of the block at this row or column, in pels.
fn centre_of(place: u32) -> f64
    requires { place < sides }
    ensures { result ≡ centre_of place }
{
    (BLOCK_SIDE * place) as f64 + 7.5
}

// A stored motion in pels.
fn pels_of(stored: u32) -> f64
    requires { stored < motions }
    ensures { result ≡ pels_of stored }
{
    (stored as i32 - MOTION_BIAS as i32) as f64 / 8.0
}

// The sample of a word, by what gives the centre of a place and the pels of a stored motion.
fn sample_with<C: Fn(u32) -> f64, P: Fn(u32) -> f64>(word: u32, centre: C, pels: P) -> MotionSample
    requires centre_given { (place : ℕ) → place < sides → C.pre centre place }
    requires pels_given { (stored : ℕ) → stored < motions → P.pre pels stored }
    ensures x { C.post centre (col_of word) result.x }
    ensures y { C.post centre (row_of word) result.y }
    ensures u { P.post pels (u_of word) result.u }
    ensures v { P.post pels (v_of word) result.v }
{
    MotionSample {
        x: centre(col_of(word)),
        y: centre(row_of(word)),
        u: pels(u_of(word)),
        v: pels(v_of(word)),
    }
}

pub fn sample_of(word: u32) -> MotionSample
    ensures { result ≡ sample_of word }
{
    sample_with(word, centre_of, pels_of)
}

// The centres of all rows or columns of blocks, which a long list of words looks up.
pub fn centres() -> [f64; 64]
    ensures { Tabled centre_of sides result }
{
    std::array::from_fn(|place| centre_of(place as u32))
}

// The sample of a word, its centre looked up.
pub fn sample_by(centres: &[f64; 64], word: u32) -> MotionSample
    requires { Tabled centre_of sides centres.now }
    ensures { result ≡ sample_of word }
{
    sample_with(word, |place| centres[place as usize], pels_of)
}

// The motions in pels of all stored ones, which a longer list looks up too.
pub fn motions() -> [f64; 512]
    ensures { Tabled pels_of motions result × (length result ≡ motions) }
{
    std::array::from_fn(|stored| pels_of(stored as u32))
}

// A stored motion in pels, looked up where the table is whole.
fn motion_by(table: &[f64], stored: u32) -> f64
    requires tabled { Tabled pels_of (length table.now) table.now }
    requires stored_lt_motions { stored < motions }
    ensures { result ≡ pels_of stored }
{
    if table.len() < MOTIONS as usize {
        return pels_of(stored);
    }
    table[stored as usize]
}

// The sample of a word, its centre looked up, and its motions where their table is whole.
pub fn sample_from(centres: &[f64; 64], motions: &[f64], word: u32) -> MotionSample
    requires tabled { Tabled centre_of sides centres.now }
    requires tabled_2 { Tabled pels_of (length motions.now) motions.now }
    ensures { result ≡ sample_of word }
{
    sample_with(
        word,
        |place| centres[place as usize],
        |stored| motion_by(motions, stored),
    )
}
