// Replays a list of jobs: planes are made from a seed or stand in the list, the job is run, and its
// report, blocks, header, half planes and words are compared with the Rust's, of jobs that elect, trim
// or name a set of classes too. What lies behind the parts used must be as it was. Then a list of
// refusals, each also with a second fault: nothing but its number is reported, and every buffer is as it
// was, but for the half planes and words of a job that is refused with 6.
#![tactic(auto)]

ghost use Rattle.std.specs.Prelude.{◌<◌};

use job::{Report, Settings};
use replay::{List, UNTOUCHED_BYTE, UNTOUCHED_PEL, UNTOUCHED_WORD};
use std::{array, io};

// ---- the planes

// How a mapped pel's place follows from its own, in rows or in columns: from r * (64 + zoom) / 64 + shift,
// held to the plane.
#[derive(Clone, Copy)]
struct Mapping {
    side: usize,
    zoom: u32,
    shift: u32,
}

impl Mapping {
    fn source(self, at: usize) -> usize
        ensures { result < 65536 }
    {
        let from = at % 65536;
        let zoomed = (64 + self.zoom.min(4) as usize) * from / 64 + self.shift as usize % 65536;
        zoomed.min((self.side % 65536).saturating_sub(1))
    }
}

// The picture of a case: the input plane is on its own (0), the reference mapped (1), the planes are
// exchanged (2), the mapped reference stands in the list (3), or both planes do (4).
#[derive(Clone, Copy)]
struct Picture {
    seed: u32,
    mask: u32,
    kind: u32,
    down: Mapping,
    across: Mapping,
}

fn next_picture(list: &mut List) -> Picture {
    let seed = list.next_word();
    let mask = list.next_word();
    let width = list.next_size();
    let height = list.next_size();
    let kind = list.next_word();
    let zoom_down = list.next_word();
    let zoom_across = list.next_word();
    Picture {
        seed,
        mask,
        kind,
        down: Mapping {
            side: height,
            zoom: zoom_down,
            shift: list.next_word(),
        },
        across: Mapping {
            side: width,
            zoom: zoom_across,
            shift: list.next_word(),
        },
    }
}

impl Picture {
    // One step of the generator for each pel; the state after the last.
    fn fill(&self, seed: u32, plane: &mut [u16]) -> u32 {
        let mut state = seed;
        for pel in plane {
            state = generator::next_state(state);
            *pel = ((state / 65536 & self.mask) % 65536) as u16;
        }
        state
    }

    fn map(&self, first: &[u16], plane: &mut [u16]) {
        let width = self.across.side;
        if width == 0 {
            return;
        }
        for (i, pel) in plane.iter_mut().enumerate() {
            let row = self.down.source(i / width);
            let column = self.across.source(i % width);
            *pel = *first.get(row * (width % 65536) + column).unwrap_or(&0);
        }
    }

    fn make_planes(&self, list: &mut List, input: &mut [u16], reference: &mut [u16]) {
        match self.kind {
            4 => {
                list.fill_pels(reference);
                list.fill_pels(input);
            }
            3 => {
                list.fill_pels(&mut *reference);
                self.map(reference, input);
            }
            1 => {
                self.fill(self.seed, &mut *reference);
                self.map(reference, input);
            }
            2 => {
                self.fill(self.seed, &mut *input);
                self.map(input, reference);
            }
            _ => {
                let state = self.fill(self.seed, input);
                self.fill(state, reference);
            }
        }
    }
}

// ---- a case

fn next_settings(list: &mut List) -> Settings {
    Settings {
        frame: list.next_pel(),
        gm_type: list.next_code(),
        reference: list.next_code(),
        flag: list.next_code(),
        trim: list.next_code(),
        elect: list.next_code(),
        set: list.next_code(),
        start: list.next_size(),
    }
}

fn report_holds(list: &mut List, r: Report) -> bool {
    let refusal = list.next_word();
    let samples = list.next_size();
    let types: [u32; 7] = array::from_fn(|_| list.next_word());
    let models = list.next_numbers();
    let score = list.next_bits();
    let bits = list.next_size();
    r.refusal == refusal
        && r.samples == samples
        && r.types
            .iter()
            .zip(types)
            .all(|(gm_type, wanted)| u32::from(*gm_type) == wanted)
        && r.models == models
        && replay::bits_of([r.score]) == [score]
        && r.bits == bits
}

// The first bytes are those of the list, packed four to a word; the others are as they were.
fn bytes_hold(list: &mut List, bytes: &[u8], written: usize) -> bool {
    let (used, rest) = bytes.split_at(written.min(bytes.len()));
    let mut listed = [0; 1100];
    let packed = replay::first_mut(&mut listed, used.len().div_ceil(4) * 4);
    list.fill(packed, |list| list.next_byte());
    used == replay::first(&listed, used.len()) && replay::all_are(rest, UNTOUCHED_BYTE)
}

// The job, handed and lent as much of each as the list says. The buffers stand before all else: one that
// isn't filled where a function begins is cleared there first.
fn job_holds(list: &mut List) -> bool {
    let mut input = [0u16; 36864];
    let mut reference = [0u16; 36864];
    let mut classes = [0; 150];
    let mut types = [0; 6];
    let mut models = [0; 36];
    let mut prior = [0; 42];
    let mut input_half = [UNTOUCHED_PEL; 9250];
    let mut ref_half = [UNTOUCHED_PEL; 9250];
    let mut words = [UNTOUCHED_WORD; 150];
    let mut blocks = [UNTOUCHED_BYTE; 1100];
    let mut header = [UNTOUCHED_BYTE; 140];
    let picture = next_picture(list);
    let width = picture.across.side;
    let height = picture.down.side;
    let area = (width % 65536) * (height % 65536);
    picture.make_planes(
        list,
        replay::first_mut(&mut input, area),
        replay::first_mut(&mut reference, area),
    );
    let settings = next_settings(list);
    let input_pels = list.next_size();
    let ref_pels = list.next_size();
    let classes = replay::first_mut(&mut classes, list.next_size());
    let types = replay::first_mut(&mut types, list.next_size());
    let models = replay::first_mut(&mut models, list.next_size());
    let prior = replay::first_mut(&mut prior, list.next_size());
    list.fill(&mut *classes, |list| list.next_code());
    list.fill(&mut *types, |list| list.next_code());
    list.fill(&mut *models, |list| list.next_number());
    list.fill(&mut *prior, |list| list.next_number());
    let report = job::job(
        replay::first(&input, input_pels),
        replay::first(&reference, ref_pels),
        width,
        height,
        settings,
        classes,
        types,
        models,
        prior,
        replay::first_mut(&mut input_half, list.next_size()),
        replay::first_mut(&mut ref_half, list.next_size()),
        replay::first_mut(&mut words, list.next_size()),
        replay::first_mut(&mut blocks, list.next_size()),
        replay::first_mut(&mut header, list.next_size()),
    );
    let report_right = report_holds(list, report);
    let block_words = list.next_word();
    let blocks_right = bytes_hold(list, &blocks, 4 * block_words as usize);
    let header_bytes = list.next_size();
    let header_right = bytes_hold(list, &header, header_bytes);
    let written = list.next_size();
    let input_sum = list.next_word();
    let ref_sum = list.next_word();
    let samples = list.next_size();
    let words_right = list.words_hold(&words, samples);
    report_right
        && blocks_right
        && header_right
        && words_right
        && replay::plane_holds(&input_half, written, input_sum)
        && replay::plane_holds(&ref_half, written, ref_sum)
}

fn main(rt: HostRuntime) -> io::Result<()> {
    replay::replay_list(&rt, "job.bin", "job", |list, _| Ok(job_holds(list)))?;
    replay::replay_list(&rt, "refusals.bin", "refusal", |list, _| {
        Ok(job_holds(list))
    })
}
