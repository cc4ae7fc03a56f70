// Five bytes of a lent slice as one number, with zeros past the end, and the bits of a field in them
// (docs/RULES.md, 'Reading by the standard'; standard 4.10.2): a field of 32 bits lies in five bytes,
// wherever in the first it begins.
#![tactic(auto)]

ghost use Rattle.std.specs.Prelude.{◌+◌, ◌-◌, ◌*◌, ◌/◌, ◌%◌, ◌^◌, ◌≤◌, ◌<◌, length, ◌≡◌};
ghost use Rattle.five_bytes.specs.Inner.{byte_of, five_of};

use byte_field::BYTE;

// A byte, 0 past the end.
fn byte_at(bytes: &[u8], at: usize) -> u8
    ensures { result ≡ byte_of bytes.now at }
{
    bytes.get(at).copied().unwrap_or(0)
}

// Five bytes as a number, the first highest.
fn number_of(five: [u8; 5]) -> u64
    ensures is { result ≡ five_of five 0 }
    ensures small { result < 2 ^ 40 }
{
    let [one, two, three, four, five] = five;
    u64::from_be_bytes([0, 0, 0, one, two, three, four, five])
}

// Five bytes as a number, with zeros past the end: a field of 32 bits lies in them, wherever in the first it begins.
pub fn five_bytes(bytes: &[u8], first: usize) -> u64
    requires { first + 5 < 2 ^ 64 }
    ensures { (result ≡ five_of bytes.now first) × (result < 2 ^ 40) }
{
    if first + 5 <= bytes.len() {
        return number_of([
            bytes[first],
            bytes[first + 1],
            bytes[first + 2],
            bytes[first + 3],
            bytes[first + 4],
        ]);
    }
    number_of([
        byte_at(bytes, first),
        byte_at(bytes, first + 1),
        byte_at(bytes, first + 2),
        byte_at(bytes, first + 3),
        byte_at(bytes, first + 4),
    ])
}

// n bits of five bytes, from bit `used` on.
pub fn bits_inside(word: u64, used: u32, n: u32) -> u32
    requires { (used < 8) × (n ≤ 32) }
    ensures { result ≡ word / 2 ^ (40 - used - n) % 2 ^ n }
{
    ((word >> (5 * BYTE - used - n)) % byte_field::wide_power(n)) as u32
}
