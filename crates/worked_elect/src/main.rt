// Replays the oracle's lists of elections, of sample words and of samples of any numbers.
#![tactic(auto)]

use elect::Elected;
use replay::{List, OVER};
use std::io;

// The refusal, the type, the six numbers and the score follow.
fn agrees(list: &mut List, e: Elected) -> bool {
    let refusal = list.next_word();
    let gm_type = list.next_word();
    let params = list.next_numbers();
    let score = list.next_bits();
    e.refusal == refusal
        && u32::from(e.gm_type) == gm_type
        && e.params == params
        && replay::bits_of([e.score]) == [score]
}

// A list of more than a call may be handed, and one, is wrong.
fn words_hold(list: &mut List) -> bool {
    let mut words = [0u32; OVER];
    let count = list.next_size();
    if count > OVER {
        return false;
    }
    list.fill_words(&mut words[..count]);
    let flag = list.next_code();
    agrees(list, word_elect::elect(flag, &words[..count]))
}

fn samples_hold(list: &mut List) -> bool {
    let count = list.next_size();
    let written = list.next_size();
    let samples = list.next_sample_array(written);
    let flag = list.next_code();
    if count > OVER {
        return false;
    }
    let lent = replay::first(&samples, count);
    agrees(list, lent_elect::belt_elect_samples(lent, flag))
}

fn main(rt: HostRuntime) -> io::Result<()> {
    replay::replay_list(&rt, "words.bin", "elections of words", |list, _| {
        Ok(words_hold(list))
    })?;
    replay::replay_list(&rt, "samples.bin", "elections of samples", |list, _| {
        Ok(samples_hold(list))
    })
}
