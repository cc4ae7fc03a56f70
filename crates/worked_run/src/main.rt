// Replays lists of runs (docs/RULES.md, 'A run of frames'): each begins by a start or is handed in, good
// or bad, and then goes through switches, frames of either kind, readings, stores and jobs. Every answer
// and lent buffer is held to the list. A reader begun alike is handed what was accepted, switches and each
// frame's kind, start and header: it must give the frame's models, and after every event hold the same
// run. What was refused must leave the run as it was. A job's planes must have texture.
#![tactic(auto)]

use block::Stored;
use header::Written;
use header_read::Models;
use job::{Report, Settings};
use replay::{List, OVER, UNTOUCHED_PEL, UNTOUCHED_WORD};
use run::Run;
use std::io;

// What every lent byte holds.
const FILL: u8 = 255;

// The events, but for a job.
const SWITCH: u32 = 1;

const FRAME: u32 = 2;

const READ: u32 = 3;

const STORE: u32 = 4;

// How the run moves by an event.
const TO_FLAG: u32 = 1;

const TO_FORM: u32 = 2;

const TO_PRIOR: u32 = 3;

// Where a job's planes come from: a practice belt, or the list.
const PRACTISED: u32 = 1;

const LISTED: u32 = 2;

// The first bytes are those of the list, the others are as they were.
fn bytes_hold(list: &mut List, bytes: &[u8]) -> bool {
    let mut wanted = [FILL; 1100];
    let count = list.next_size();
    list.fill(
        replay::first_mut(&mut wanted, count),
        |list| list.next_byte(),
    );
    count <= bytes.len() && bytes == replay::first(&wanted, bytes.len())
}

// ---- what a job is handed, and what it answers

fn next_settings(list: &mut List) -> Settings {
    Settings {
        frame: list.next_pel(),
        gm_type: list.next_code(),
        reference: list.next_code(),
        flag: list.next_code(),
        trim: list.next_code(),
        elect: list.next_code(),
        set: list.next_code(),
        start: list.next_size(),
    }
}

fn is_textured(plane: &[u16]) -> bool {
    match plane.first() {
        Some(pel) => !replay::all_are(plane, *pel),
        None => false,
    }
}

// Fills the planes; whether those that were made or listed have texture.
fn next_planes(
    list: &mut List,
    width: usize,
    height: usize,
    input: &mut [u16],
    reference: &mut [u16],
) -> bool {
    let pels = match list.next_word() {
        PRACTISED => {
            let seed = list.next_word();
            let dy = list.next_number();
            let dx = list.next_number();
            let made = practice::make_practice_planes(
                seed,
                width,
                height,
                dy,
                dx,
                &mut *input,
                &mut *reference,
            );
            if made.refusal != 0 {
                return false;
            }
            made.pels
        }
        LISTED => {
            let pels = list.next_size();
            list.fill_pels(replay::first_mut(&mut *reference, pels));
            list.fill_pels(replay::first_mut(&mut *input, pels));
            pels
        }
        _ => return true,
    };
    is_textured(replay::first(input, pels)) && is_textured(replay::first(reference, pels))
}

fn report_holds(list: &mut List, r: Report) -> bool {
    let refusal = list.next_word();
    let samples = list.next_size();
    let types = list.next_bytes();
    let models = list.next_numbers();
    let score = list.next_bits();
    let bits = list.next_size();
    r.refusal == refusal
        && r.samples == samples
        && r.types == types
        && r.models == models
        && replay::bits_of([r.score]) == [score]
        && r.bits == bits
}

fn halves_hold(list: &mut List, input_half: &[u16], ref_half: &[u16]) -> bool {
    let written = list.next_size();
    let input_sum = list.next_word();
    let ref_sum = list.next_word();
    replay::plane_holds(input_half, written, input_sum)
        && replay::plane_holds(ref_half, written, ref_sum)
}

fn words_hold(list: &mut List, words: &[u32]) -> bool {
    let written = list.next_size();
    list.words_hold(words, written)
}

// ---- a run

fn next_run(list: &mut List) -> Run {
    Run {
        prior: list.next_numbers(),
        flag: list.next_code(),
        form: list.next_word(),
    }
}

// The run of the list after an event.
fn moved(list: &mut List, run: Run) -> Run {
    match list.next_word() {
        TO_FLAG => Run {
            flag: list.next_code(),
            ..run
        },
        TO_FORM => Run {
            form: list.next_word(),
            ..run
        },
        TO_PRIOR => run::step_to(run, list.next_numbers()),
        _ => run,
    }
}

// The run that is written with, the reader's, and whether all was right so far.
#[derive(Clone, Copy)]
struct State {
    writer: Run,
    reader: Run,
    right: bool,
}

impl State {
    fn switch(&mut self, list: &mut List) {
        let code = list.next_code();
        let refusal = list.next_word();
        let moved = run::switch(self.writer, code);
        self.writer = moved.run;
        self.right &= moved.refusal == refusal;
        if refusal == 0 {
            let read = run::switch(self.reader, code);
            self.reader = read.run;
            self.right &= read.refusal == 0;
        }
    }

    // An accepted frame's kind, start and header go to the reader, which gives its models.
    fn read_along(
        &mut self,
        intra: bool,
        types: &[u8],
        params: &[i32],
        bits: usize,
        start: usize,
        header: &[u8],
    ) {
        let read = run_frame::read(self.reader, intra, header, start);
        let models = read.models;
        self.reader = read.run;
        self.right &= models.refusal == 0
            && models.bits == bits
            && models.types[..] == types[..]
            && models.params[..] == params[..];
    }

    fn frame(&mut self, list: &mut List) {
        let intra = list.next_word() == 1;
        let mut types = [0; 8];
        let mut params = [0; 43];
        let types = list.fill_counted(&mut types, |list| list.next_byte());
        let params = list.fill_counted(&mut params, |list| list.next_number());
        let start = list.next_size();
        let mut bytes = [FILL; 140];
        let header = replay::first_mut(&mut bytes, list.next_size());
        let framed = run_frame::frame(self.writer, intra, types, params, start, &mut *header);
        let wanted = Written {
            refusal: list.next_word(),
            bits: list.next_size(),
        };
        self.writer = framed.run;
        self.right &= framed.written == wanted;
        self.right &= bytes_hold(list, header);
        if wanted.refusal == 0 {
            self.read_along(intra, types, params, wanted.bits, start, header);
        }
    }

    // Bytes that the reader is asked of beside the run: it goes no further, and a refused reading gives it
    // back as it was.
    fn read_beside(&mut self, list: &mut List) {
        let intra = list.next_word() == 1;
        let mut bytes = [0; 140];
        let bytes = list.fill_counted(&mut bytes, |list| list.next_byte());
        let read = run_frame::read(self.reader, intra, bytes, list.next_size());
        let refusal = list.next_word();
        let bits = list.next_size();
        let wanted = Models {
            refusal,
            types: list.next_bytes(),
            params: list.next_numbers(),
            bits,
        };
        let next = if refusal == 0 {
            run::step_to(self.reader, wanted.params)
        } else {
            self.reader
        };
        self.right &= read.models == wanted && read.run == next;
    }

    // Words of zeros stand behind those of the list.
    fn store(&mut self, list: &mut List) {
        let frame = list.next_pel();
        let listed = list.next_size();
        let handed = list.next_size();
        let mut words = [0u32; OVER];
        list.fill_words(replay::first_mut(&mut words, listed));
        let words = replay::first(&words, handed);
        let mut classes = [0; 150];
        let classes = list.fill_counted(&mut classes, |list| list.next_byte());
        let mut bytes = [FILL; 1100];
        let blocks = replay::first_mut(&mut bytes, list.next_size());
        let stored = run_job::store(self.writer, frame, words, classes, &mut *blocks);
        let wanted = Stored {
            refusal: list.next_word(),
            blocks: list.next_size(),
        };
        self.right &= stored == wanted;
        self.right &= bytes_hold(list, blocks);
    }

    // The job, lent as much of each buffer as the list says. It is an inter frame: what it reports is what
    // the reader then gives.
    fn job(&mut self, list: &mut List) {
        let width = list.next_size();
        let height = list.next_size();
        let mut input = [0u16; 28160];
        let mut reference = [0u16; 28160];
        self.right &= next_planes(list, width, height, &mut input, &mut reference);
        let settings = next_settings(list);
        let input_pels = list.next_size();
        let ref_pels = list.next_size();
        let mut classes = [0; 150];
        let mut types = [0; 7];
        let mut models = [0; 37];
        let classes = list.fill_counted(&mut classes, |list| list.next_byte());
        let types = list.fill_counted(&mut types, |list| list.next_byte());
        let models = list.fill_counted(&mut models, |list| list.next_number());
        let mut input_half = [UNTOUCHED_PEL; 7100];
        let mut ref_half = [UNTOUCHED_PEL; 7100];
        let mut words = [UNTOUCHED_WORD; 112];
        let mut blocks = [FILL; 1100];
        let mut header = [FILL; 140];
        let done = run_job::job_in_run(
            self.writer,
            replay::first(&input, input_pels),
            replay::first(&reference, ref_pels),
            width,
            height,
            settings,
            classes,
            types,
            models,
            replay::first_mut(&mut input_half, list.next_size()),
            replay::first_mut(&mut ref_half, list.next_size()),
            replay::first_mut(&mut words, list.next_size()),
            replay::first_mut(&mut blocks, list.next_size()),
            replay::first_mut(&mut header, list.next_size()),
        );
        let r = done.report;
        self.writer = done.run;
        self.right &= report_holds(list, r);
        self.right &= bytes_hold(list, &blocks);
        self.right &= bytes_hold(list, &header);
        self.right &= halves_hold(list, &input_half, &ref_half);
        self.right &= words_hold(list, &words);
        if r.refusal == 0 {
            self.read_along(false, &r.types, &r.models, r.bits, settings.start, &header);
        }
    }

    fn event(&mut self, list: &mut List) {
        match list.next_word() {
            SWITCH => self.switch(list),
            FRAME => self.frame(list),
            READ => self.read_beside(list),
            STORE => self.store(list),
            _ => self.job(list),
        }
    }
}

// How a run begins, whether that is right, and the list's run.
fn begun(list: &mut List) -> (State, Run) {
    if list.next_word() == 0 {
        let run = next_run(list);
        let state = State {
            writer: run,
            reader: run,
            right: true,
        };
        return (state, run);
    }
    let flag = list.next_code();
    let form = list.next_word();
    let refusal = list.next_word();
    let started = run::start(flag, form);
    let wanted = next_run(list);
    let state = State {
        writer: started.run,
        reader: started.run,
        right: started.refusal == refusal && started.run == wanted,
    };
    (state, wanted)
}

// After each event both runs are the list's.
fn replay_run(list: &mut List) -> bool {
    let (mut state, mut wanted) = begun(list);
    for _ in 0..list.next_word() {
        state.event(list);
        wanted = moved(list, wanted);
        state.right &= state.writer == wanted && state.reader == wanted;
    }
    state.right
}

fn main(rt: HostRuntime) -> io::Result<()> {
    replay::replay_list(&rt, "worked.bin", "worked runs", |list, _| {
        Ok(replay_run(list))
    })?;
    replay::replay_list(&rt, "run.bin", "runs", |list, _| Ok(replay_run(list)))
}
