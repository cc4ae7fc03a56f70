// Practice belts searched whole and in bands by random cuts: the bands' words, appended, are the search's,
// and their rows add up to its count. A job, and a job of the words that the search found: the report, the
// blocks and the header are the same. And what is refused, by hand.
#![tactic(auto)]

use generator::upper_half;
use job::Settings;
use replay::{UNTOUCHED_BYTE, UNTOUCHED_PEL, UNTOUCHED_WORD};
use std::io;

const CASES: u64 = 120;

// The sides of both planes, their pels, the values of a half plane, the block rows and the samples.
const SHAPES: [[usize; 6]; 5] = [
    [80, 80, 6400, 1600, 5, 25],
    [47, 79, 3713, 897, 4, 8],
    [16, 80, 1280, 320, 5, 5],
    [15, 64, 960, 224, 4, 0],
    [64, 48, 3072, 768, 3, 12],
];

const SHIFTS: [i32; 5] = [-24, -5, 0, 7, 24];

// Two planes, the values of their half planes, and how many block rows they have.
#[derive(Clone, Copy)]
struct Scene<'a> {
    input: &'a [u16],
    reference: &'a [u16],
    width: usize,
    height: usize,
    half: usize,
    rows: usize,
}

impl<'a> Scene<'a> {
    // Three bands, cut at two block rows, against the words and the rows of the whole search.
    fn bands_hold(self, state: u32, rows: u32, words: &[u32]) -> bool {
        let a = usize::from(upper_half(state) % 6).min(self.rows);
        let b = usize::from(upper_half(state) / 6 % 6).min(self.rows);
        let low = a.min(b);
        let high = a.max(b);
        let mut input_half = [UNTOUCHED_PEL; 1632];
        let mut ref_half = [UNTOUCHED_PEL; 1632];
        if band::half_plane(self.input, self.width, self.height, &mut input_half) != 0
            || band::half_plane(self.reference, self.width, self.height, &mut ref_half) != 0
        {
            return false;
        }
        let mut sum = 0u32;
        let mut left = words;
        for (first, end) in [(0, low), (low, high), (high, self.rows)] {
            let mut part = [UNTOUCHED_WORD; 32];
            let found = band::search_band(
                self.input,
                self.reference,
                self.width,
                self.height,
                replay::first(&input_half, self.half),
                replay::first(&ref_half, self.half),
                first,
                end,
                &mut part,
            );
            let (written, rest) = part.split_at(found.samples.min(32));
            let Some(after) = left.strip_prefix(written) else {
                return false;
            };
            if found.refusal != 0 || !replay::all_are(rest, UNTOUCHED_WORD) {
                return false;
            }
            sum = sum.wrapping_add(found.rows);
            left = after;
        }
        sum == rows && left.is_empty()
    }

    // A job, and a job of the words that a search found.
    fn jobs_hold(self, settings: Settings, classes: &[u8], found: &[u32]) -> bool {
        let types = [0; 6];
        let models = replay::identity::<36>();
        let prior = replay::identity::<42>();
        let mut input_half = [UNTOUCHED_PEL; 1632];
        let mut ref_half = [UNTOUCHED_PEL; 1632];
        let mut words = [UNTOUCHED_WORD; 32];
        let mut blocks = [UNTOUCHED_BYTE; 600];
        let mut header = [UNTOUCHED_BYTE; 130];
        let mut own_blocks = [UNTOUCHED_BYTE; 600];
        let mut own_header = [UNTOUCHED_BYTE; 130];
        let report = job::job(
            self.input,
            self.reference,
            self.width,
            self.height,
            settings,
            classes,
            &types,
            &models,
            &prior,
            &mut input_half,
            &mut ref_half,
            &mut words,
            &mut blocks,
            &mut header,
        );
        let own = words_job::job_of_words(
            found,
            settings,
            classes,
            &types,
            &models,
            &prior,
            &mut own_blocks,
            &mut own_header,
        );
        report == own && blocks == own_blocks && header == own_header
    }
}

fn settings_of(n: u16) -> Settings {
    Settings {
        frame: 7,
        gm_type: (n % 4) as u8,
        reference: (n / 4 % 8) as u8,
        flag: (n / 32 % 2) as u8,
        trim: (n / 64 % 2) as u8,
        elect: (n / 128 % 2) as u8,
        set: if n / 256 % 4 == 0 { 21 } else { 31 },
        start: usize::from(n / 1024 % 8),
    }
}

fn belt_holds(seed: u32) -> bool {
    let more = generator::next_state(seed);
    let state = generator::next_state(more);
    let [width, height, pels, half, rows, samples] = SHAPES[usize::from(upper_half(seed) % 5)];
    let mut input = [0; 6400];
    let mut reference = [0; 6400];
    let made = practice::make_practice_planes(
        seed,
        width,
        height,
        SHIFTS[usize::from(upper_half(more) % 5)],
        SHIFTS[usize::from(upper_half(more) / 5 % 5)],
        &mut input,
        &mut reference,
    );
    let scene = Scene {
        input: replay::first(&input, pels),
        reference: replay::first(&reference, pels),
        width,
        height,
        half,
        rows,
    };
    let classes = replay::classes::<32>();
    let classes = replay::first(&classes, samples);
    let mut input_half = [UNTOUCHED_PEL; 1632];
    let mut ref_half = [UNTOUCHED_PEL; 1632];
    let mut words = [UNTOUCHED_WORD; 32];
    let whole = search::collect_motion_samples(
        scene.input,
        scene.reference,
        width,
        height,
        classes,
        &mut input_half,
        &mut ref_half,
        &mut words,
    );
    let words = replay::first(&words, samples);
    made.refusal == 0
        && whole.refusal == 0
        && whole.samples == samples
        && scene.bands_hold(state, whole.rows, words)
        && scene.jobs_hold(settings_of(upper_half(state)), classes, words)
}

// ---- refusals

// The row that a band of a 32 x 32 plane is refused by: half planes of so many values, block rows, room.
fn band_row(half: usize, first: usize, end: usize, room: usize) -> u32 {
    let plane = [9; 1024];
    let halves = [9; 260];
    let halves = replay::first(&halves, half);
    let mut words = [UNTOUCHED_WORD; 8];
    let words = replay::first_mut(&mut words, room);
    band::search_band(&plane, &plane, 32, 32, halves, halves, first, end, words).refusal
}

fn half_row(width: usize, pels: usize, room: usize) -> u32 {
    let plane = [9; 1024];
    let mut out = [0; 260];
    let plane = replay::first(&plane, pels);
    band::half_plane(plane, width, 32, replay::first_mut(&mut out, room))
}

// Two words, the second this one, and so many classes.
fn words_row(second: u32, classes: usize, room: usize) -> u32 {
    let mut blocks = [0; 600];
    let mut header = [0; 125];
    words_job::job_of_words(
        &[0, second],
        settings_of(388),
        replay::first(&[1; 4], classes),
        &[0; 6],
        &replay::identity::<36>(),
        &replay::identity::<42>(),
        replay::first_mut(&mut blocks, room),
        &mut header,
    )
    .refusal
}

fn refusals_hold() -> bool {
    half_row(32, 1024, 256) == 0
        && half_row(1025, 1023, 255) == 1
        && half_row(32, 1023, 255) == 2
        && half_row(32, 1024, 255) == 3
        && band_row(256, 0, 2, 4) == 0
        && band_row(256, 1, 1, 0) == 0
        && band_row(255, 2, 1, 0) == 2
        && band_row(256, 2, 1, 0) == 5
        && band_row(256, 0, 3, 0) == 5
        && band_row(256, 0, 2, 3) == 3
        && words_row(0, 2, 600) == 12
        && words_row(0, 1, 600) == 2
        && words_row(0, 2, 511) == 12
}

fn main(rt: HostRuntime) -> io::Result<()> {
    replay::try_cases(&rt, &mut (), "band", CASES, |_, case| {
        Ok(if case == 0 {
            refusals_hold()
        } else {
            belt_holds(generator::next_state((case % 65536) as u32))
        })
    })
}
