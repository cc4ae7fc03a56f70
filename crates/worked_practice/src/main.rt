// Replays the list of practice belts: each is made in two guarded buffers and compared with the plain
// writing of the rule that the oracle has. What lies behind the part used, and everything where a call
// is refused, must be as it was.
#![tactic(auto)]

use practice::Made;
use replay::{List, UNTOUCHED_PEL};
use std::io;

// The largest plane, and what lies behind it.
const ROOM: usize = 1048640;

// One case of the list: seed, sides, motion and the room of both buffers; refusal, pels and two sums.
fn planes_hold(list: &mut List, input: &mut [u16], reference: &mut [u16]) -> bool {
    let seed = list.next_word();
    let width = list.next_size();
    let height = list.next_size();
    let dy = list.next_number();
    let dx = list.next_number();
    input.fill(UNTOUCHED_PEL);
    reference.fill(UNTOUCHED_PEL);
    let made = practice::make_practice_planes(
        seed,
        width,
        height,
        dy,
        dx,
        replay::first_mut(&mut *input, list.next_size()),
        replay::first_mut(&mut *reference, list.next_size()),
    );
    let wanted = Made {
        refusal: list.next_word(),
        pels: list.next_size(),
    };
    let input_sum = list.next_word();
    let reference_sum = list.next_word();
    made == wanted
        && replay::plane_holds(input, wanted.pels, input_sum)
        && replay::plane_holds(reference, wanted.pels, reference_sum)
}

fn main(rt: HostRuntime) -> io::Result<()> {
    let mut input = vec![in rt.alloc(); 0u16; ROOM]?;
    let mut reference = vec![in rt.alloc(); 0u16; ROOM]?;
    replay::replay_list(&rt, "practice.bin", "practice", |list, _| {
        Ok(planes_hold(list, &mut input, &mut reference))
    })
}
