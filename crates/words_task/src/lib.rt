// The rows of the table of refusals that a job from its words on meets before its model: 1, 2, 4, 19, 5,
// 14, 7, 8, 12, 13, 3, 15, 17, in the table's order (docs/RULES.md, 'Job of words', 'When a call says no').
// They are the job's, with the words in the place of planes: 1 over 4,096 words, 2 not as many classes as
// words, 12 words that a frame can't store. In go the words, the settings, the form of the blocks, the lists
// and how long blocks and header are; out comes the first row that holds.
#![tactic(auto)]

ghost use Rattle.std.specs.Prelude.{◌≡◌, ◌*◌, ◌≤◌, length};
ghost use Rattle.laws.specs.Refusal.{judge};
ghost use Rattle.sample.specs.Word.{most_samples};
ghost use Rattle.refusal.specs.Number.{refusal_number};
ghost use Rattle.words_task.specs.Rows.{wrong_lengths, too_little, list_rows, handed_rows, word_rows, room_rows, refusal_of_words};

use header::MOST_BYTES;
use job_task::Handed;
use layout::BLOCK_BYTES;
use refusal::Refusal;
use sample::MOST_SAMPLES;

fn lists_refusal(words: usize, handed: Handed) -> Result<(), Refusal>
    ensures { refusal_number result ≡ judge
        (list_rows words (length handed.entry.classes.now) (length handed.entry.types.now) (length handed.entry.models.now) (length handed.entry.prior.now)) }
{
    if MOST_SAMPLES < words {
        return Err(Refusal::TooLarge);
    }
    if handed.classes.len() != words || handed.wrong_others() {
        return Err(Refusal::WrongLength);
    }
    Ok(())
}

// The models and the prior.
fn models_refusal(handed: Handed) -> Result<(), Refusal>
    requires { 6 * length handed.types.now ≤ length handed.models.now }
    ensures { refusal_number result ≡ judge (handed_rows handed.entry.settings.flag handed.entry.types.now handed.entry.models.now handed.entry.prior.now) }
{
    if models::models_wrong(handed.types, handed.settings.flag, handed.models) {
        return Err(Refusal::ModelWrong);
    }
    if models::priors_out(handed.prior) {
        return Err(Refusal::PriorOut);
    }
    Ok(())
}

// The words, and the classes against the form.
fn words_refusal(words: &[u32], handed: Handed) -> Result<(), Refusal>
    ensures { refusal_number result ≡ judge (word_rows handed.entry.form words.now handed.entry.classes.now) }
{
    if !class::all_right(words) {
        return Err(Refusal::NotStorable);
    }
    if handed.not_held() {
        return Err(Refusal::ClassNotHeld);
    }
    Ok(())
}

fn room_refusal(words: usize, handed: Handed, blocks: usize, header: usize) -> Result<(), Refusal>
    requires { words ≤ most_samples }
    ensures { refusal_number result ≡ judge (room_rows handed.entry.settings handed.entry.form words handed.entry.classes.now blocks header) }
{
    if blocks < BLOCK_BYTES * forms::blocks_of(handed.form, words) || header < MOST_BYTES {
        return Err(Refusal::TooShort);
    }
    if handed.too_few_to_trim() {
        return Err(Refusal::TooFew);
    }
    Ok(())
}

pub fn refusal_of(
    words: &[u32],
    handed: Handed,
    blocks: usize,
    header: usize,
) -> Result<(), Refusal>
    ensures { refusal_number result ≡ refusal_of_words words.now handed.entry.settings handed.entry.form handed.entry.classes.now handed.entry.types.now handed.entry.models.now handed.entry.prior.now blocks header }
{
    lists_refusal(words.len(), handed)?;
    handed.codes_refusal()?;
    models_refusal(handed)?;
    words_refusal(words, handed)?;
    room_refusal(words.len(), handed, blocks, header)?;
    frame_number::refusal_of(handed.settings.frame)
}
