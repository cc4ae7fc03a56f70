// Replays the list of stored frames: words and classes made from a seed, or listed, are stored in form 2
// and carried over to form 1; the blocks of one form are changed, read by both readers and converted each
// way; answers and lent buffers are compared with those of the list's maker, which knows docs/RULES.md
// alone.
#![tactic(auto)]

ghost use Rattle.std.specs.Prelude.{◌≤◌};

use block::Stored;
use frame_read::FrameRead;
use replay::{List, UNTOUCHED_BYTE, UNTOUCHED_WORD};
use std::{io, mem};

const PLACES: u32 = 4096;

const SAMPLES: usize = 4096;

const BYTES: usize = 20992;

// What a case asks: the samples, listed where the seed is 0, and how they are changed; the form whose
// blocks are then changed and read, and whether its second block is the other form's; how much is handed
// over and lent.
#[derive(Clone, Copy)]
struct Case {
    frame: u16,
    samples: usize,
    seed: u32,
    kinds: u32,
    changed_sample: usize,
    word_bits: u32,
    class_bits: u8,
    classes: usize,
    block_room: usize,
    form: u32,
    mixed: u32,
    changed_byte: usize,
    byte_bits: u8,
    mended: u32,
    given: usize,
    word_room: usize,
    class_room: usize,
    other_room: usize,
}

fn next_case(list: &mut List) -> Case {
    Case {
        frame: list.next_pel(),
        samples: list.next_size(),
        seed: list.next_word(),
        kinds: list.next_word(),
        changed_sample: list.next_size(),
        word_bits: list.next_word(),
        class_bits: list.next_code(),
        classes: list.next_size(),
        block_room: list.next_size(),
        form: list.next_word(),
        mixed: list.next_word(),
        changed_byte: list.next_size(),
        byte_bits: list.next_code(),
        mended: list.next_word(),
        given: list.next_size(),
        word_room: list.next_size(),
        class_room: list.next_size(),
        other_room: list.next_size(),
    }
}

// ---- samples

// The remainder of n, or 0 by 0.
fn below(n: u16, step: u32) -> u32
    ensures { result ≤ n }
{
    if step == 0 { 0 } else { u32::from(n) % step }
}

// Fills words whose places rise by about `step`, class bits zero, and a class for each, of so many
// kinds.
fn make_samples(seed: u32, step: u32, kinds: u32, words: &mut [u32], classes: &mut [u8]) {
    let mut state = seed;
    let mut base = 0u32;
    for (word, class) in words.iter_mut().zip(classes) {
        let at = generator::next_state(state);
        let v = generator::next_state(at);
        let u = generator::next_state(v);
        state = generator::next_state(u);
        let place = (base % PLACES + below(generator::upper_half(at), step)) % PLACES;
        *word = sample::word_of(
            place / 64,
            place % 64,
            u32::from(generator::upper_half(v)) % 447,
            u32::from(generator::upper_half(u)) % 447,
            0,
        );
        *class = (below(generator::upper_half(state), kinds) % 256) as u8;
        base = base % PLACES + step % PLACES;
    }
}

fn take_samples(list: &mut List, words: &mut [u32], classes: &mut [u8]) {
    for (word, class) in words.iter_mut().zip(classes) {
        *word = list.next_word();
        *class = list.next_code();
    }
}

fn change_word(words: &mut [u32], at: usize, bits: u32) {
    if let Some(word) = words.get_mut(at) {
        *word ^= bits;
    }
}

fn change_byte(bytes: &mut [u8], at: usize, bits: u8) {
    if let Some(byte) = bytes.get_mut(at) {
        *byte ^= bits;
    }
}

impl Case {
    // Takes the samples from the list, or makes them, and changes one of them.
    fn fill_samples(&self, list: &mut List, words: &mut [u32], classes: &mut [u8]) {
        if self.seed == 0 {
            take_samples(list, &mut *words, &mut *classes);
        } else {
            let step = (SAMPLES / words.len().max(1)) as u32;
            make_samples(self.seed, step, self.kinds, &mut *words, &mut *classes);
        }
        change_word(words, self.changed_sample, self.word_bits);
        change_byte(classes, self.changed_sample, self.class_bits);
    }
}

// ---- blocks

// Puts the right check into the block that holds byte `at`.
fn mend(bytes: &mut [u8], at: usize) {
    let start = at / 512 * 512;
    if bytes.len() < 512 || start > bytes.len() - 512 {
        return;
    }
    let block = layout::block_in(&bytes[start..]);
    let check = block
        .iter()
        .take(127)
        .fold(1, |sum: u32, word| sum.wrapping_add(*word));
    layout::words::write_words(&[check], &mut bytes[start + 508..]);
}

// An answer about blocks written, and the bytes that they were written to.
fn wrote(list: &mut List, stored: Stored, bytes: &[u8]) -> bool {
    let wanted = Stored {
        refusal: list.next_word(),
        blocks: list.next_size(),
    };
    let sum = list.next_word();
    stored == wanted && replay::sum_of(bytes) == sum
}

// Converts blocks to a form.
fn converts(list: &mut List, form: u32, from: &[u8], room: usize, to: &mut [u8]) -> bool {
    to.fill(UNTOUCHED_BYTE);
    let lent = replay::first_mut(&mut *to, room);
    let stored = if form == 1 {
        frame_convert::to_form1(from, lent)
    } else {
        frame_convert::to_form2(from, lent)
    };
    wrote(list, stored, to)
}

// An answer about a frame read, and the words that it was read to.
fn gave(list: &mut List, read: FrameRead, words: &[u32]) -> bool {
    let refusal = list.next_word();
    let frame = list.next_word();
    let samples = list.next_size();
    let sum = list.next_word();
    read.refusal == refusal
        && u32::from(read.frame) == frame
        && read.samples == samples
        && replay::sum_of(words) == sum
}

impl Case {
    // Reads blocks by the reader of both forms.
    fn reads_both(&self, list: &mut List, blocks: &[u8]) -> bool {
        let mut words = [UNTOUCHED_WORD; SAMPLES];
        let mut classes = [UNTOUCHED_BYTE; SAMPLES];
        let read = frame_read::read_both(
            blocks,
            replay::first_mut(&mut words, self.word_room),
            replay::first_mut(&mut classes, self.class_room),
        );
        gave(list, read, &words) && replay::sum_of(&classes) == list.next_word()
    }

    // Reads blocks by the reader of form 1.
    fn reads_form1(&self, list: &mut List, blocks: &[u8]) -> bool {
        let mut words = [UNTOUCHED_WORD; SAMPLES];
        let read = frame_read::read_frame(blocks, replay::first_mut(&mut words, self.word_room));
        gave(list, read, &words)
    }

    // Changes blocks, and reads and converts them.
    fn reads(&self, list: &mut List, blocks: &mut [u8; BYTES], other: &mut [u8; BYTES]) -> bool {
        if self.mixed != 0 {
            blocks[512..1024].copy_from_slice(&other[512..1024]);
        }
        change_byte(&mut *blocks, self.changed_byte, self.byte_bits);
        if self.mended != 0 {
            mend(&mut *blocks, self.changed_byte);
        }
        let given = replay::first(&*blocks, self.given);
        self.reads_both(list, given)
            & self.reads_form1(list, given)
            & converts(list, 1, given, self.other_room, &mut *other)
            & converts(list, 2, given, self.other_room, &mut *other)
    }
}

fn frame_holds(list: &mut List) -> bool {
    let a = next_case(list);
    let mut words = [0u32; SAMPLES];
    let mut classes = [0u8; SAMPLES];
    let words = replay::first_mut(&mut words, a.samples);
    a.fill_samples(list, &mut *words, &mut classes);
    let mut blocks = [UNTOUCHED_BYTE; BYTES];
    let mut old = [UNTOUCHED_BYTE; BYTES];
    let stored = frame_store::write_frame(
        a.frame,
        words,
        replay::first(&classes, a.classes),
        replay::first_mut(&mut blocks, a.block_room),
    );
    let right = wrote(list, stored, &blocks) & converts(list, 1, &blocks, BYTES, &mut old);
    if a.form == 1 {
        mem::swap(&mut blocks, &mut old);
    }
    a.reads(list, &mut blocks, &mut old) & right
}

fn main(rt: HostRuntime) -> io::Result<()> {
    replay::replay_list(&rt, "block.bin", "block", |list, _| Ok(frame_holds(list)))
}
