// What the programs that replay a stored list of questions and answers share: a list, read as words, floats,
// samples and models; guarded buffers; what a call is handed; and the cases of a list tried in turn.
#![tactic(auto)]

ghost use Rattle.std.specs.Prelude.{◌≡◌, ◌≤◌, take, vec_len, IfOk};

use sample::MotionSample;
use std::alloc::{AllocError, Global};
use std::rt::Files;
use std::{array, fs, io, num, vec};

// What guarded buffers hold: a call must leave these where it doesn't write.
pub const UNTOUCHED_BYTE: u8 = 165;

pub const UNTOUCHED_PEL: u16 = 42405;

pub const UNTOUCHED_WORD: u32 = 2779096485;

// The numbers of the identity model.
pub const IDENTITY: [i32; 6] = [0, 0, 65536, 0, 0, 65536];

// One sample more than a call may be handed.
pub const OVER: usize = 4097;

const STILL: MotionSample = MotionSample {
    x: 0.0,
    y: 0.0,
    u: 0.0,
    v: 0.0,
};

// The bytes of a list that are still to be read; behind its end come zeros.
#[derive(Drop)]
pub struct List {
    bytes: vec::IntoIter<u8>,
    alloc: Global,
}

impl List {
    pub fn next_byte(&mut self) -> u8 {
        self.bytes.next().unwrap_or(0)
    }

    pub fn next_bytes<const N: usize>(&mut self) -> [u8; N] {
        array::from_fn(|_| self.next_byte())
    }

    // Four bytes, high byte first.
    pub fn next_word(&mut self) -> u32 {
        u32::from_be_bytes(self.next_bytes())
    }

    pub fn next_number(&mut self) -> i32 {
        self.next_word().cast_signed()
    }

    pub fn next_numbers<const N: usize>(&mut self) -> [i32; N] {
        array::from_fn(|_| self.next_number())
    }

    pub fn fill_words(&mut self, words: &mut [u32]) {
        for word in words {
            *word = self.next_word();
        }
    }

    pub fn next_size(&mut self) -> usize {
        self.next_word() as usize
    }

    // A code or a pel, which a word of the list holds.
    pub fn next_code(&mut self) -> u8 {
        (self.next_word() % 256) as u8
    }

    pub fn next_pel(&mut self) -> u16 {
        (self.next_word() % 65536) as u16
    }

    pub fn fill_pels(&mut self, pels: &mut [u16]) {
        for pel in pels {
            *pel = self.next_pel();
        }
    }

    // The bits of a float, two words of the list.
    pub fn next_bits(&mut self) -> u64 {
        u64::from_be_bytes(self.next_bytes())
    }

    pub fn next_float(&mut self) -> f64 {
        num::f64_from_bits_with_nan(self.next_bits())
    }

    pub fn next_floats<const N: usize>(&mut self) -> [f64; N] {
        array::from_fn(|_| self.next_float())
    }

    pub fn fill<T: Copy, F: FnMut(&mut List) -> T>(&mut self, items: &mut [T], mut next: F)
        requires { F.IsAlwaysCallable next }
    {
        for item in items {
            *item = next(self);
        }
    }

    // A count, and so many items at the front of a buffer, which are lent back; what is beyond it isn't read.
    pub fn fill_counted<'a, T: Copy, F: FnMut(&mut List) -> T>(
        &mut self,
        items: &'a mut [T],
        next: F,
    ) -> &'a [T]
        requires { F.IsAlwaysCallable next }
    {
        let listed = first_mut(items, self.next_size());
        self.fill(&mut *listed, next);
        listed
    }

    // So many items, in memory of their own, where there is no buffer for them.
    pub fn next_vec<T: Drop, F: FnMut(&mut List) -> T>(
        &mut self,
        count: usize,
        mut next: F,
    ) -> Result<Vec<T>, AllocError>
        requires { F.IsAlwaysCallable next }
        ensures { IfOk result (λ items. vec_len items ≡ count) }
    {
        let mut items = Vec::new(self.alloc);
        for _ in 0..count {
            items.push(next(self))?;
        }
        Ok(items)
    }

    // A count, and so many items; what is beyond the most isn't read.
    pub fn next_counted<T: Drop, F: FnMut(&mut List) -> T>(
        &mut self,
        most: usize,
        next: F,
    ) -> Result<Vec<T>, AllocError>
        requires { F.IsAlwaysCallable next }
        ensures { IfOk result (λ items. vec_len items ≤ most) }
    {
        let count = self.next_size();
        self.next_vec(count.min(most), next)
    }

    fn next_sample(&mut self) -> MotionSample {
        MotionSample {
            x: self.next_float(),
            y: self.next_float(),
            u: self.next_float(),
            v: self.next_float(),
        }
    }

    // So many samples, of which the first are written out, and come round again; of none written all are zeros.
    pub fn next_samples(
        &mut self,
        count: usize,
        written: usize,
    ) -> Result<Vec<MotionSample>, AllocError>
        ensures { IfOk result (λ samples. vec_len samples ≡ count) }
    {
        let mut listed = self.next_vec(written, |list| list.next_sample())?;
        if listed.is_empty() {
            listed.push(STILL)?;
        }
        listed
            .iter()
            .copied()
            .cycle()
            .take(count)
            .collect(self.alloc)
    }

    // The same in an array, one more than a call may be handed; what is beyond it isn't read.
    pub fn next_sample_array(&mut self, written: usize) -> [MotionSample; OVER] {
        let mut samples = [STILL; OVER];
        for i in 0..OVER {
            samples[i] = if i < written {
                self.next_sample()
            } else {
                samples[i - written]
            };
        }
        samples
    }

    // The first words are those of the list, the others are as they were.
    pub fn words_hold(&mut self, words: &[u32], written: usize) -> bool {
        let (listed, rest) = words.split_at(written.min(words.len()));
        let mut right = all_are(rest, UNTOUCHED_WORD);
        for word in listed {
            right &= self.next_word() == *word;
        }
        right
    }
}

// The bits of floats; of a not-a-number those that the lists have for each.
pub fn bits_of<const N: usize>(numbers: [f64; N]) -> [u64; N] {
    array::from_fn(|i| num::f64_to_bits_with_nan(numbers[i]))
}

// ---- buffers, and what a call is handed

// The first of a buffer, or all of it where there are fewer.
pub fn first<T>(items: &[T], count: usize) -> &[T]
    ensures { result.now ≡ take count items.now }
{
    &items[..count.min(items.len())]
}

pub fn first_mut<T>(items: &mut [T], count: usize) -> &mut [T]
    ensures { result.now ≡ take count items.old }
{
    let end = count.min(items.len());
    &mut items[..end]
}

pub fn all_are<T: Copy + PartialEq>(items: &[T], item: T) -> bool {
    items.iter().all(|each| *each == item)
}

// A sum that depends on the order.
pub fn sum_of<T: Copy + Into<u32>>(items: &[T]) -> u32 {
    items.iter().fold(1, |sum: u32, item| {
        generator::next_state(sum.wrapping_add((*item).into()))
    })
}

// The first values have this sum, the others are as they were.
pub fn plane_holds(pels: &[u16], written: usize, sum: u32) -> bool {
    let (used, rest) = pels.split_at(written.min(pels.len()));
    sum_of(used) == sum && all_are(rest, UNTOUCHED_PEL)
}

// The classes 0 to 4 in turn.
pub fn classes<const N: usize>() -> [u8; N] {
    array::from_fn(|i| (i % 5) as u8)
}

// Identity models, six numbers each: every third number is the whole, the others are 0.
pub fn identity<const N: usize>() -> [i32; N] {
    array::from_fn(|i| if i % 3 == 2 { IDENTITY[2] } else { 0 })
}

// ---- cases

// Opens a list; says so where it can't, and answers none.
pub fn open_list<R: Files + Eprint + AllocGlobal>(rt: &R, file: &str) -> io::Result<Option<List>> {
    match fs::read(rt, file) {
        Ok(bytes) => Ok(Some(List {
            bytes: bytes.into_iter(),
            alloc: rt.alloc(),
        })),
        Err(error) => {
            eprintln!(rt; "{file}: {error}")?;
            Ok(None)
        }
    }
}

// 1 for a case that failed, which gets a line: the list's name and the case's number.
pub fn failed(rt: &impl Print, name: &str, case: u64, holds: bool) -> io::Result<u64>
    ensures { IfOk result (λ n. n ≤ 1) }
{
    if holds {
        return Ok(0);
    }
    println!(rt; "{name}: wrong at {case}")?;
    Ok(1)
}

// Tries so many cases, each with what they share; the last line says how many failed.
pub fn try_cases<S, P: Print, F: FnMut(&mut S, u64) -> io::Result<bool>>(
    rt: &P,
    shared: &mut S,
    name: &str,
    count: u64,
    mut holds: F,
) -> io::Result<()>
    requires { F.IsAlwaysCallable holds }
{
    let mut failures = 0;
    for case in 0..count {
        failures += failed(rt, name, case, holds(shared, case)?)?;
    }
    println!(rt; "{name}: {count} tried, {failures} failed")
}

// Tries the cases of a list, whose first word is their number.
pub fn replay_list<
    R: Files + Print + Eprint + AllocGlobal,
    F: FnMut(&mut List, u64) -> io::Result<bool>,
>(rt: &R, file: &str, name: &str, holds: F) -> io::Result<()>
    requires { F.IsAlwaysCallable holds }
{
    let Some(mut list) = open_list(rt, file)? else {
        return Ok(());
    };
    let count = u64::from(list.next_word());
    try_cases(rt, &mut list, name, count, holds)
}

#[cfg(test)]
mod tests {
    use super::*;
    use std::test::Fail;

    // Words, high byte first, then the end.
    fn listed<const N: usize>(rt: &HostRuntime, words: [u32; N]) -> Result<List, Fail> {
        let mut bytes = Vec::new(rt.alloc());
        for word in words {
            bytes.extend_from_slice(&word.to_be_bytes())?;
        }
        Ok(List {
            bytes: bytes.into_iter(),
            alloc: rt.alloc(),
        })
    }

    #[test]
    fn reads_so_many(rt: HostRuntime) -> Result<(), Fail> {
        let mut list = listed(&rt, [7, 8, 2, 9, 10, 3, 11])?;
        let words = list.next_vec(2, |list| list.next_word())?;
        assert_eq!(rt; words.as_slice(), [7, 8].as_slice());
        let words = list.next_counted(5, |list| list.next_word())?;
        assert_eq!(rt; words.as_slice(), [9, 10].as_slice());
        let words = list.next_counted(1, |list| list.next_word())?;
        assert_eq!(rt; words.as_slice(), [11].as_slice());
        let words = list.next_vec(1, |list| list.next_word())?;
        assert_eq!(rt; words.as_slice(), [0].as_slice());
        Ok(())
    }

    // The floats 1 and 2, of a first sample, and zeros behind the end.
    #[test]
    fn samples_come_round_again(rt: HostRuntime) -> Result<(), Fail> {
        let words = [0x3ff0_0000, 0, 0x4000_0000, 0];
        let mut list = listed(&rt, words)?;
        let samples = list.next_samples(5, 2)?;
        let wanted = [(1.0, 2.0), (0.0, 0.0), (1.0, 2.0), (0.0, 0.0), (1.0, 2.0)];
        assert_eq!(rt; samples.len(), wanted.len());
        for (sample, (x, y)) in samples.iter().zip(wanted) {
            assert!(rt; sample.x == x && sample.y == y && sample.u == 0.0 && sample.v == 0.0);
        }
        let samples = list.next_samples(2, 0)?;
        assert_eq!(rt; samples.len(), 2);
        assert!(rt;
            samples.iter().all(|sample| [sample.x, sample.y, sample.u, sample.v] == [0.0; 4])
        );
        let samples = listed(&rt, words)?.next_sample_array(2);
        assert!(rt; samples[1].x == 0.0 && samples[2].y == 2.0 && samples[4096].x == 1.0);
        Ok(())
    }
}
