// A job of words (docs/RULES.md, 'Job of words'): the job from its words on, fit or election over the words
// of the named classes, grid, score, then the blocks of all words and the header with the model at its
// reference. In go words that a frame can store, the search's or others, the settings, a class for each
// word, the six other types and models, and the prior; lent are blocks and a header. Its rows are in the
// crate `words_task`. The blocks are of form 2, or of the form that a run holds.
#![tactic(auto)]

ghost use Rattle.job_task.specs.Task.{sheet, sheet_from};
ghost use Rattle.job_outcome.specs.Words.{finish};
ghost use Rattle.words_job.specs.Outcome.{Done};

use forms::FORM2;
pub use job::{Report, Settings};
use job_task::Handed;

// Handed one by one, as C hands them (`belt_job_of_words`, docs/RULES.md, 'Job of words').
pub fn job_of_words(
    words: &[u32],
    settings: Settings,
    classes: &[u8],
    types: &[u8],
    models: &[i32],
    prior: &[i32],
    blocks: &mut [u8],
    header: &mut [u8],
) -> Report
    ensures { Done
        (sheet words.now settings classes.now types.now models.now prior.now)
        blocks.old header.old
        (finish result blocks.new header.new) }
{
    let handed = Handed {
        settings,
        form: FORM2,
        classes,
        types,
        models,
        prior,
    };
    job_of_words_in(words, handed, blocks, header)
}

// The same in the form that is handed.
pub fn job_of_words_in(
    words: &[u32],
    handed: Handed,
    blocks: &mut [u8],
    header: &mut [u8],
) -> Report
    ensures { Done (sheet_from words.now handed.entry) blocks.old header.old
        (finish result blocks.new header.new) }
{
    match words_task::refusal_of(words, handed, blocks.len(), header.len()) {
        Ok(()) => job::finish(handed, words, blocks, header),
        Err(refusal) => job::refused(refusal.number()),
    }
}
