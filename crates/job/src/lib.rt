// The job (docs/RULES.md, 'Job'): search, sample words, fit for the type asked for or election over the
// words of the named classes, grid, score, then the blocks of all words and the header with the model at
// its reference. In go a frame pair, the settings, a class for each sample, the six other types and
// models, and the prior; lent are two half planes, words, blocks and header. It calls the public calls
// alone; its rows are in the crate `job_task`. The blocks are of form 2, or of the form that a run holds.
#![tactic(auto)]

ghost use Rattle.std.specs.Prelude.{◌≡◌, ◌≢◌, Ok, IfErr};
ghost use Rattle.class_set.specs.Set.{chosen};
ghost use Rattle.job_task.specs.Task.{task, task_of, lend};
ghost use Rattle.job_model.specs.Modelled.{modelled, modelled_in};
ghost use Rattle.job_outcome.specs.Words as sheet;
ghost use Rattle.job_outcome.specs.Outcome.{refused, ended};
ghost use Rattle.job_outcome.specs.Done.{Done};
ghost use Rattle.job.specs.Inner as inner;

use forms::FORM2;
use job_model::SevenModels;
pub use job_outcome::Report;
pub use job_task::Settings;
use job_task::{Handed, Pair, Sizes};
use sample::MOST_SAMPLES;

// The number of a refused job, and zeros.
pub fn refused(number: u32) -> Report
    ensures { result ≡ refused number }
{
    let types = [0u8; 7];
    let models = [0i32; 42];
    Report {
        refusal: number,
        types,
        models,
        score: 0.0,
        bits: 0,
        samples: 0,
    }
}

// The words and their classes into blocks of the form, the seven models into the header.
fn write_out(
    m: SevenModels,
    handed: Handed,
    words: &[u32],
    blocks: &mut [u8],
    header: &mut [u8],
) -> Report
    ensures { sheet.finish result blocks.new header.new ≡
        inner.written_out (modelled_in (Ok m)) handed.entry.settings handed.entry.form handed.entry.prior.now words.now handed.entry.classes.now blocks.old header.old }
{
    let settings = handed.settings;
    let types = m.types;
    let models = m.models;
    frame_store::store(handed.form, settings.frame, words, handed.classes, blocks);
    let w = header::encode_inter_global_motion(
        &types,
        &models,
        settings.flag,
        handed.prior,
        settings.start,
        header,
    );
    Report {
        refusal: 0,
        types,
        models,
        score: m.score,
        bits: w.bits,
        samples: words.len(),
    }
}

// The model of the words whose classes the set names.
fn model_of_named(handed: Handed, words: &[u32]) -> Result<SevenModels, u32>
    requires { inner.Naming handed.settings handed.types.now handed.models.now words.now handed.classes.now }
    ensures answer { modelled_in result ≡ modelled handed.entry.settings handed.entry.types.now handed.entry.models.now
        (chosen handed.entry.settings.set words.now handed.entry.classes.now) }
    ensures refused { IfErr result (λ number. number ≢ 0) }
{
    let settings = handed.settings;
    let mut named = [0u32; MOST_SAMPLES];
    let n = class_set::choose(settings.set, words, handed.classes, &mut named);
    job_model::models_of(settings, handed.types, handed.models, &named[..n])
}

// The model of the named words; a refused one writes no block and no header.
pub fn finish(handed: Handed, words: &[u32], blocks: &mut [u8], header: &mut [u8]) -> Report
    requires { inner.Naming handed.settings handed.types.now handed.models.now words.now handed.classes.now }
    ensures { sheet.finish result blocks.new header.new ≡
        inner.finished handed.entry.settings handed.entry.form handed.entry.types.now handed.entry.models.now handed.entry.prior.now words.now handed.entry.classes.now blocks.old header.old }
{
    match model_of_named(handed, words) {
        Ok(m) => write_out(m, handed, words, blocks, header),
        Err(number) => refused(number),
    }
}

// Handed one by one, as C hands them (`belt_job`, docs/RULES.md, 'Job').
pub fn job(
    input: &[u16],
    reference: &[u16],
    width: usize,
    height: usize,
    settings: Settings,
    classes: &[u8],
    types: &[u8],
    models: &[i32],
    prior: &[i32],
    input_half: &mut [u16],
    ref_half: &mut [u16],
    words: &mut [u32],
    blocks: &mut [u8],
    header: &mut [u8],
) -> Report
    ensures { Done
        (task input.now reference.now width height settings classes.now types.now models.now prior.now)
        (lend input_half.old ref_half.old words.old blocks.old header.old)
        (ended result (lend input_half.new ref_half.new words.new blocks.new header.new)) }
{
    let pair = Pair {
        input,
        reference,
        width,
        height,
    };
    let handed = Handed {
        settings,
        form: FORM2,
        classes,
        types,
        models,
        prior,
    };
    job_in(pair, handed, input_half, ref_half, words, blocks, header)
}

// The same in the form that is handed. The lent buffers stay apart: a struct of `&mut` asks each function
// that takes it for a clause that its references are still the same.
pub fn job_in(
    pair: Pair,
    handed: Handed,
    input_half: &mut [u16],
    ref_half: &mut [u16],
    words: &mut [u32],
    blocks: &mut [u8],
    header: &mut [u8],
) -> Report
    ensures { Done (task_of pair.entry handed.entry)
        (lend input_half.old ref_half.old words.old blocks.old header.old)
        (ended result (lend input_half.new ref_half.new words.new blocks.new header.new)) }
{
    let sizes = Sizes {
        width: pair.width,
        height: pair.height,
        input: pair.input.len(),
        reference: pair.reference.len(),
        input_half: input_half.len(),
        ref_half: ref_half.len(),
        words: words.len(),
        blocks: blocks.len(),
        header: header.len(),
    };
    match handed.refusal_of(sizes) {
        Err(refusal) => refused(refusal.number()),
        Ok(()) => {
            let found = search::collect_motion_samples(
                pair.input,
                pair.reference,
                pair.width,
                pair.height,
                handed.classes,
                input_half,
                ref_half,
                &mut *words,
            );
            finish(handed, &words[..found.samples], blocks, header)
        }
    }
}
