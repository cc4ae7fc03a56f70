// Prices, without a bit being written. Of a coefficient: a type, flag, slot and prior go in; how many
// of the slot's ordinals have a code of 4 bits, of 5 and so on comes out. Of a frame: what its writer
// takes goes in, without start and buffer; how many bits it would write comes out. Answers to
// docs/RULES.md, 'Prices', and rows 2, 4, 5, 7 and 8; clauses 5.9.24 to 5.9.28.
#![tactic(auto)]

ghost use Rattle.std.specs.Prelude.{◌≡◌, false, ◌+◌, ◌≤◌};
ghost use Rattle.laws.specs.Buffer.{onto};
ghost use Rattle.laws.specs.Parts.{listing};
ghost use Rattle.refusal.specs.Number.{refusal_number};
ghost use Rattle.price.specs.Prices.{shortest, lengths_of};
ghost use Rattle.price.specs.Listed.{listed};
ghost use Rattle.price.specs.Call.{not_coded, price_refusal, no_prices, price_list};
ghost use Rattle.price.specs.Frame.{frame_price};
ghost use Rattle.price.specs.Inner.{Bits, Length, price_of};

use header::Header;
use refusal::Refusal;

// The types and flags that there are, and the slots of a model.
const LAST_TYPE: u8 = 3;

const LAST_FLAG: u8 = 1;

const LAST_SLOT: u8 = 5;

// Bits of the shortest code.
pub const SHORTEST: usize = 4;

// Codes of that length: those on the first rung.
const FIRST_RUNG: u32 = 8;

// Lengths of the longest list.
pub const MOST_LENGTHS: usize = 20;

// A row of the table of refusals (0: none); how many lengths are listed; the ordinals whose code has 4
// bits, 5 and so on, and zeros behind the last length.
#[repr(C)]
#[derive(Clone, Copy, Debug, PartialEq, Eq)]
pub struct PriceList {
    pub refusal: u32,
    pub lengths: usize,
    pub ordinals: [u32; 20],
}

// A row of the table of refusals (0: none), and the bits that a frame's header takes.
#[repr(C)]
#[derive(Clone, Copy, Debug, PartialEq, Eq)]
pub struct Price {
    pub refusal: u32,
    pub bits: usize,
}

pub fn coefficient_prices(gm_type: u8, flag: u8, slot: u8, prior: i32) -> PriceList
    ensures { result ≡ price_list gm_type flag slot prior }
{
    match refusal_of(gm_type, flag, slot, prior) {
        Ok(()) => {
            let bits = grid::global_param_bits(gm_type, flag, slot);
            PriceList {
                refusal: 0,
                lengths: lengths_of(bits.abs_bits),
                ordinals: ordinals_of(bits.abs_bits),
            }
        }
        Err(refusal) => PriceList {
            refusal: refusal.number(),
            lengths: 0,
            ordinals: [0; 20],
        },
    }
}

#[tactic(auto, unfolding(crate::specs::Call::price_refusal))]
fn refusal_of(gm_type: u8, flag: u8, slot: u8, prior: i32) -> Result<(), Refusal>
    ensures { refusal_number result ≡ price_refusal gm_type flag slot prior }
{
    if gm_type > LAST_TYPE || flag > LAST_FLAG {
        return Err(Refusal::NoSuchCode);
    }
    if not_coded(gm_type, slot) {
        return Err(Refusal::NotThere);
    }
    if models::prior_out(slot, prior) {
        return Err(Refusal::PriorOut);
    }
    Ok(())
}

fn not_coded(gm_type: u8, slot: u8) -> bool
    ensures { result ≡ not_coded gm_type slot }
{
    slot > LAST_SLOT || !models::carries_slot(gm_type, slot)
}

// From the shortest to 2 * absBits - 1.
fn lengths_of(abs_bits: u32) -> usize
    requires { Bits abs_bits }
    ensures { (result ≡ lengths_of abs_bits) × (result ≤ 20) }
{
    2 * abs_bits as usize - SHORTEST
}

fn ordinals_of(abs_bits: u32) -> [u32; 20]
    requires { Bits abs_bits }
    ensures { result ≡ onto (listing (λ j. listed abs_bits (shortest + j)) (lengths_of abs_bits)) no_prices }
{
    let lengths = lengths_of(abs_bits);
    let mut ordinals = [0u32; 20];
    for j in 0..lengths {
        ordinals[j] = codes_of(abs_bits, (SHORTEST + j) as u32);
    }
    ordinals
}

// The codes of so many bits: on the first rung, the last one's two lengths, and those between, of
// which each has one length, an odd number.
fn codes_of(abs_bits: u32, bits: u32) -> u32
    requires { Length abs_bits bits }
    ensures { result ≡ listed abs_bits bits }
{
    if bits as usize == SHORTEST {
        return FIRST_RUNG;
    }
    if bits == 2 * abs_bits - 1 {
        return 2;
    }
    if bits == 2 * abs_bits - 2 {
        return grid::power_of_two(abs_bits) as u32 - 1;
    }
    if bits % 2 == 0 {
        return 0;
    }
    grid::power_of_two((bits + 1) / 2) as u32
}

// Of an inter frame: its models and its prior, as the writer judges them at bit 0.
fn inter_bits(header: Header) -> Result<usize, Refusal>
    ensures { price_of result ≡ frame_price false header.entry.types.now header.entry.params.now header.entry.flag header.entry.prior.now }
{
    header.code_refusal()?;
    header.model_refusal(0)?;
    Ok(header.length())
}

// Seven types and models in rising order of reference, the flag and a prior for each number; of a key
// frame all are identities, and no prior is looked at.
pub fn frame_price(intra: bool, types: &[u8], params: &[i32], flag: u8, prior: &[i32]) -> Price
    ensures { result ≡ frame_price intra types.now params.now flag prior.now }
{
    if intra {
        let refusal = refusal::refusal_number(key_frame::key_refusal(0, types, params, flag));
        return Price { refusal, bits: 0 };
    }
    match inter_bits(Header {
        types,
        params,
        flag,
        prior,
    }) {
        Ok(bits) => Price { refusal: 0, bits },
        Err(refusal) => Price {
            refusal: refusal.number(),
            bits: 0,
        },
    }
}
