// Replays two lists of searches. In the first, two planes are made as windows on a texture, searched, and
// the answer, the half planes and the sample words are compared with the Rust's, and the rows added with
// a plain count. What lies behind the part used, and everything where a call is refused, must be as it
// was. The second has the pels of its planes: the worked counts of docs/RULES.md.
#![tactic(auto)]

use replay::{List, UNTOUCHED_PEL, UNTOUCHED_WORD};
use search::Searched;
use std::io;

// The places of a window, rows or columns: the first pel's, and those that it is held to.
#[derive(Clone, Copy)]
struct Span {
    from: u32,
    first: u32,
    last: u32,
}

impl Span {
    fn place(self, at: usize) -> u32 {
        let place = self.from.wrapping_add((at % 65536) as u32);
        if place < self.first {
            return self.first;
        }
        place.min(self.last)
    }
}

// A plane as a window on a texture.
#[derive(Clone, Copy)]
struct Window {
    seed: u32,
    rows: Span,
    columns: Span,
}

fn next_window(list: &mut List) -> Window {
    let seed = list.next_word();
    let row = list.next_word();
    let column = list.next_word();
    let rows = Span {
        from: row,
        first: list.next_word(),
        last: list.next_word(),
    };
    let columns = Span {
        from: column,
        first: list.next_word(),
        last: list.next_word(),
    };
    Window {
        seed,
        rows,
        columns,
    }
}

fn mixed(state: u32, word: u32) -> u32 {
    let next = generator::next_state(state ^ word);
    next ^ next / 65536
}

// What a texture looks like. It repeats in both directions, and each place has a number below 65536:
// one under the threshold gives `low`, any other those of its bits that are in `mask`, `high` flipped.
#[derive(Clone, Copy)]
struct Texture {
    period: u32,
    threshold: u32,
    low: u32,
    mask: u32,
    high: u32,
}

fn next_texture(list: &mut List) -> Texture {
    Texture {
        period: list.next_word(),
        threshold: list.next_word(),
        low: list.next_word(),
        mask: list.next_word(),
        high: list.next_word(),
    }
}

impl Texture {
    fn repeated(self, at: u32) -> u32 {
        at.checked_rem(self.period).unwrap_or(0)
    }

    fn pel(self, seed: u32, row: u32, column: u32) -> u16 {
        let at = mixed(mixed(seed, self.repeated(row)), self.repeated(column));
        let number = generator::next_state(at) / 65536;
        let shade = if number < self.threshold {
            self.low
        } else {
            number & self.mask ^ self.high
        };
        (shade % 65536) as u16
    }

    // The pels of a plane of so many columns.
    fn plane(self, window: Window, width: usize) -> [u16; 6400] {
        let mut pels = [0u16; 6400];
        if width != 0 {
            for (i, pel) in pels.iter_mut().enumerate() {
                let row = window.rows.place(i / width);
                let column = window.columns.place(i % width);
                *pel = self.pel(window.seed, row, column);
            }
        }
        pels
    }
}

fn texture_holds(list: &mut List) -> bool {
    let width = list.next_size();
    let height = list.next_size();
    let texture = next_texture(list);
    let input = texture.plane(next_window(list), width);
    let reference = texture.plane(next_window(list), width);
    let input_pels = list.next_size();
    let ref_pels = list.next_size();
    let count = list.next_size();
    let mut classes = replay::classes::<32>();
    let changed = list.next_size();
    let class = list.next_code();
    if let Some(changed) = classes.get_mut(changed) {
        *changed = class;
    }
    let mut input_half = [UNTOUCHED_PEL; 1632];
    let mut ref_half = [UNTOUCHED_PEL; 1632];
    let mut words = [UNTOUCHED_WORD; 32];
    let searched = search::collect_motion_samples(
        replay::first(&input, input_pels),
        replay::first(&reference, ref_pels),
        width,
        height,
        replay::first(&classes, count),
        replay::first_mut(&mut input_half, list.next_size()),
        replay::first_mut(&mut ref_half, list.next_size()),
        replay::first_mut(&mut words, list.next_size()),
    );
    let wanted = Searched {
        refusal: list.next_word(),
        samples: list.next_size(),
        rows: list.next_word(),
    };
    let written = list.next_size();
    let input_sum = list.next_word();
    let ref_sum = list.next_word();
    let words_right = list.words_hold(&words, wanted.samples);
    searched == wanted
        && replay::plane_holds(&input_half, written, input_sum)
        && replay::plane_holds(&ref_half, written, ref_sum)
        && words_right
}

fn planes_hold(list: &mut List) -> bool {
    let width = list.next_size();
    let height = list.next_size();
    let pels = list.next_size();
    let mut input = [0u16; 6400];
    let mut reference = [0u16; 6400];
    list.fill_pels(replay::first_mut(&mut input, pels));
    list.fill_pels(replay::first_mut(&mut reference, pels));
    let wanted = Searched {
        refusal: 0,
        samples: list.next_size(),
        rows: list.next_word(),
    };
    let mut input_half = [UNTOUCHED_PEL; 1632];
    let mut ref_half = [UNTOUCHED_PEL; 1632];
    let mut words = [UNTOUCHED_WORD; 32];
    let searched = search::collect_motion_samples(
        replay::first(&input, pels),
        replay::first(&reference, pels),
        width,
        height,
        replay::first(&[0u8; 32], wanted.samples),
        &mut input_half,
        &mut ref_half,
        &mut words,
    );
    list.words_hold(&words, wanted.samples) && searched == wanted
}

fn main(rt: HostRuntime) -> io::Result<()> {
    replay::replay_list(&rt, "search.bin", "search", |list, _| {
        Ok(texture_holds(list))
    })?;
    replay::replay_list(&rt, "planes.bin", "search", |list, _| {
        Ok(planes_hold(list))
    })
}
