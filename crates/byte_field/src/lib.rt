// Fields inside a byte and a word (docs/RULES.md, 'Header'; standard 4.10.2): a byte with some of its bits
// replaced, and a byte's first bits with a field behind them.
#![tactic(auto)]

ghost use Rattle.std.specs.Prelude.{◌+◌, ◌-◌, ◌*◌, ◌/◌, ◌%◌, ◌^◌, ◌≤◌, ◌<◌, ◌≡◌};

// The same, as a width.
pub const BYTE: u32 = 8;

// 2 to the power of k.
pub fn wide_power(k: u32) -> u64
    requires { k ≤ 32 }
    ensures { result ≡ 2 ^ k }
{
    1u64 << k
}

// The same, among 32 bits.
pub fn power(k: u32) -> u32
    requires { k < 32 }
    ensures { result ≡ 2 ^ k }
{
    wide_power(k) as u32
}

pub fn low_byte(word: u64) -> u8
    ensures { result ≡ word % 2 ^ 8 }
{
    (word % 256) as u8
}

// The byte with the low k bits of word as its first.
pub fn with_front(byte: u8, k: u32, word: u64) -> u8
    requires { k ≤ 8 }
    ensures { result ≡ word % 2 ^ k * 2 ^ (8 - k) + byte % 2 ^ (8 - k) }
{
    let whole = byte as u64;
    let rest = wide_power(BYTE - k);
    let kept = whole % rest;
    (word % wide_power(k) * rest + kept) as u8
}

// A byte's first bits and, behind them, the low n bits of value: one field that begins with the byte.
pub fn joined(byte: u8, used: u32, n: u32, value: u32) -> u64
    requires { (used ≤ 8) × (n ≤ 32) }
    ensures { result ≡ byte / 2 ^ (8 - used) * 2 ^ n + value % 2 ^ n }
{
    let before = byte as u64 / wide_power(BYTE - used);
    before * wide_power(n) + value as u64 % wide_power(n)
}

// The byte with the low n bits of value above its last ones, of which there are `behind`; the others stay. What goes is taken out by a mask,
// so that between a byte's load and its store there are few steps: the next field often waits for it.
pub fn with_inside(byte: u8, n: u32, behind: u32, value: u32) -> u8
    requires { behind + n ≤ 8 }
    ensures { result ≡ byte / 2 ^ (behind + n) * 2 ^ (behind + n) + (value % 2 ^ n * 2 ^ behind + byte % 2 ^ behind) }
{
    let whole = byte as u32;
    let below = power(behind);
    let size = power(n);
    let mask = (size - 1) * below;
    let kept = whole - (whole & mask);
    (kept + value % size * below) as u8
}
