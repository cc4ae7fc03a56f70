// Replays the price lists: the codes that the Rust writes for every ordinal of a slot, counted by
// length, for each type, flag and slot about seven priors; then the refusals of docs/RULES.md, 'Prices'.
#![tactic(auto)]

use price::PriceList;
use replay::List;
use std::{array, io};

// One case of the list: type, flag, slot and prior; refusal, how many lengths, and a count for each length.
fn prices_hold(list: &mut List) -> bool {
    let gm_type = list.next_code();
    let flag = list.next_code();
    let slot = list.next_code();
    let prior = list.next_number();
    let wanted = PriceList {
        refusal: list.next_word(),
        lengths: list.next_size(),
        ordinals: array::from_fn(|_| list.next_word()),
    };
    price::coefficient_prices(gm_type, flag, slot, prior) == wanted
}

fn main(rt: HostRuntime) -> io::Result<()> {
    replay::replay_list(&rt, "price.bin", "price", |list, _| Ok(prices_hold(list)))
}
