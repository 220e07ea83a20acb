// The arithmetic rule that arrivals, sizes and picks of driven channels come from: a number for each slot, station and question, the same
// on every run.

#![tactic(auto)]

ghost use Rattle.std.specs.Prelude.{◌≡◌, ◌≤◌, length};

use std::array;

// The questions. They are numbers, since each goes into the arithmetic.
pub const ARRIVES: u64 = 1;

pub const KIND: u64 = 2;

pub const SIZE: u64 = 3;

pub const PICK: u64 = 4;

// A multiple of a number, below 2^32, its halves changed over.
fn scrambled(x: u64) -> u64 {
    let product = x % 4294967296 * 2654435761 % 4294967296;
    product / 65536 + product % 65536 * 65536
}

// A number below `bound` (0 for a bound of 0): of slot s, station k and a question.
pub fn draw(s: u64, k: u64, question: u64, bound: u64) -> u64
    ensures { result ≤ bound }
{
    let asked = s % 65536 * 65536 + k % 256 * 256 + question % 256;
    let x = scrambled(scrambled(scrambled(asked)));
    if bound == 0 { 0 } else { x / 256 % bound }
}

// Bytes of a message: most are of one slot, three of 64 of up to ten, one of up to fifty; of these one in sixteen is the longest.
pub fn size(s: u64, k: u64) -> usize
    ensures { (1 ≤ result) × (result ≤ 12240) }
{
    match draw(s, k, KIND, 64) {
        0..=59 => (1 + draw(s, k, SIZE, 48) % 48) as usize,
        60..=62 => (1 + draw(s, k, SIZE, 480) % 480) as usize,
        _ => match draw(s, k, SIZE, 2400) % 2400 {
            bytes if bytes % 16 == 0 => 12240,
            bytes => (1 + bytes) as usize,
        },
    }
}

// A pick of one of m minislots.
pub fn pick(s: u64, k: u64, m: u8) -> u8
    ensures { (1 ≤ result) × (result ≤ 8) }
{
    (1 + draw(s, k, PICK, u64::from(m)) % 8) as u8
}

// A pick of one of m minislots for each of 66 stations.
pub fn picks_of(s: u64, m: u8) -> [u8; 66]
    ensures { length result ≡ 66 }
{
    array::from_fn(|k| pick(s, k as u64, m))
}
