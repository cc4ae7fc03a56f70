// What stores in a run (docs/RULES.md, 'A run of frames'): a frame of words and classes, a job, and a job
// of words. All take the form that the run holds; a job is an inter frame, so it takes the run's flag and prior too,
// and its seven models are the next prior. A refused call gives the run back as it was.
#![tactic(auto)]

ghost use Rattle.std.specs.Prelude.{◌≡◌, length};
ghost use Rattle.laws.specs.Call.{left};
ghost use Rattle.laws.specs.Refusal.{or_else};
ghost use Rattle.refusal.specs.Number.{refusal_number};
ghost use Rattle.frame_store.specs.Store.{list_refusal};
ghost use Rattle.run.specs.Run.{run_of, run_refusal};
ghost use Rattle.job_task.specs.Task.{lend};
ghost use Rattle.job_outcome.specs.Outcome.{ended};
ghost use Rattle.run_job.specs.Store.{stored_in_run, stored_in_run_left};
ghost use Rattle.job_outcome.specs.Words.{finish};
ghost use Rattle.run_job.specs.Job.{with_flag, asked, DoneIn};
ghost use Rattle.run_job.specs.Words.{asked_of, WordsDoneIn};

use block::Stored;
use job::{Report, Settings};
use job_task::{Handed, Pair};
use refusal::Refusal;
use run::Run;

#[repr(C)]
#[derive(Clone, Copy, Debug, PartialEq)]
pub struct JobDone {
    pub report: Report,
    pub run: Run,
}

// The rows of the lists, then the run's.
fn refusal_of(run: Run, words: &[u32], classes: &[u8]) -> Result<(), Refusal>
    ensures { refusal_number result ≡ or_else (list_refusal words.now classes.now) (run_refusal run) }
{
    frame_store::list_refusal(words, classes)?;
    run::refusal_of(run)
}

// Stores the words, class bits zero, and their classes as the blocks of this frame, in the run's form;
// nothing in the run moves.
pub fn store(run: Run, frame: u16, words: &[u32], classes: &[u8], blocks: &mut [u8]) -> Stored
    ensures value { result ≡ stored_in_run run frame words.now classes.now (length blocks.old) }
    ensures blocks_after { blocks.new ≡ stored_in_run_left run frame words.now classes.now blocks.old }
{
    match refusal_of(run, words, classes) {
        Ok(()) => frame_store::store(run.form, frame, words, classes, blocks),
        Err(refusal) => Stored {
            refusal: refusal.number(),
            blocks: 0,
        },
    }
}

// The settings with the run's flag for their own.
fn with_flag(settings: Settings, flag: u8) -> Settings
    ensures { result ≡ with_flag settings flag }
{
    Settings { flag, ..settings }
}

// An accepted job's seven models are the next prior; a refused one moves nothing.
fn stepped(run: Run, report: Report) -> JobDone
    ensures same { result.report ≡ report }
    ensures run_after { result.run ≡ left report.refusal (run_of report.models run.flag run.form) run }
{
    if report.refusal != 0 {
        return JobDone { report, run };
    }
    let moved = report.models;
    let next = run::step_to(run, moved);
    JobDone { report, run: next }
}

// A job with the run's prior, flag and form: the flag of its settings isn't looked at.
// Handed one by one, as C hands them (`belt_run_job`); so is a job of words.
pub fn job_in_run(
    run: Run,
    input: &[u16],
    reference: &[u16],
    width: usize,
    height: usize,
    settings: Settings,
    classes: &[u8],
    types: &[u8],
    models: &[i32],
    input_half: &mut [u16],
    ref_half: &mut [u16],
    words: &mut [u32],
    blocks: &mut [u8],
    header: &mut [u8],
) -> JobDone
    ensures { DoneIn run
        (asked input.now reference.now width height settings classes.now types.now models.now)
        (lend input_half.old ref_half.old words.old blocks.old header.old)
        (ended result.report (lend input_half.new ref_half.new words.new blocks.new header.new))
        result.run }
{
    let prior = run.prior;
    let pair = Pair {
        input,
        reference,
        width,
        height,
    };
    let handed = Handed {
        settings: with_flag(settings, run.flag),
        form: run.form,
        classes,
        types,
        models,
        prior: &prior,
    };
    let report = job::job_in(pair, handed, input_half, ref_half, words, blocks, header);
    stepped(run, report)
}

// A job of words with the run's prior, flag and form: the flag of its settings isn't looked at.
pub fn job_of_words_in_run(
    run: Run,
    words: &[u32],
    settings: Settings,
    classes: &[u8],
    types: &[u8],
    models: &[i32],
    blocks: &mut [u8],
    header: &mut [u8],
) -> JobDone
    ensures { WordsDoneIn run
        (asked_of words.now settings classes.now types.now models.now)
        blocks.old header.old
        (finish result.report blocks.new header.new)
        result.run }
{
    let prior = run.prior;
    let handed = Handed {
        settings: with_flag(settings, run.flag),
        form: run.form,
        classes,
        types,
        models,
        prior: &prior,
    };
    let report = words_job::job_of_words_in(words, handed, blocks, header);
    stepped(run, report)
}
