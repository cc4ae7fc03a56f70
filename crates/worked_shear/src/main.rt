// Replays the list of shear checks: 2,000 answers of libaom, then the worked values and refusals of
// docs/RULES.md, 'Shear'.
#![tactic(auto)]

use replay::List;
use shear::Shear;
use std::io;

// One case of the list: type, how many numbers are handed on, six numbers, six answers.
fn shear_holds(list: &mut List) -> bool {
    let gm_type = list.next_code();
    let count = list.next_size() % 7;
    let params: [i32; 6] = list.next_numbers();
    let wanted = Shear {
        refusal: list.next_word(),
        valid: list.next_word(),
        alpha: list.next_number(),
        beta: list.next_number(),
        gamma: list.next_number(),
        delta: list.next_number(),
    };
    shear::setup_shear(gm_type, &params[..count]) == wanted
}

fn main(rt: HostRuntime) -> io::Result<()> {
    replay::replay_list(&rt, "shear.bin", "shear", |list, _| Ok(shear_holds(list)))
}
