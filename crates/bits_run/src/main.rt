// Reads stored records of what Rust gives for a function of `bits` and an argument, compares each with what `bits` gives, and writes how many of each
// function agree, then how many records do not.
#![tactic(auto)]

ghost use Rattle.std.specs.Prelude.{◌≡◌, ◌+◌, ◌/◌, ◌%◌, ◌<◌, ◌≤◌, length};
ghost use Rattle.bits_run.specs.Record.{word_at, lower, upper, result_of, judged};

use std::io;
use std::io::Read;

// The functions by their numbers, from 1 on.
const FUNCTIONS: [&str; 7] = [
    "next_up", "narrow", "root_f32", "root_f64", "finite", "widen", "order",
];

// Eight bytes from i on, the lowest first.
fn word(s: &[u8], i: usize) -> u64
    requires { i + 8 ≤ length s.now }
    ensures { result ≡ word_at s.now i }
{
    u64::from_le_bytes([
        s[i],
        s[i + 1],
        s[i + 2],
        s[i + 3],
        s[i + 4],
        s[i + 5],
        s[i + 6],
        s[i + 7],
    ])
}

// The f32 whose bits are the lower half of x, and the upper.
fn low(x: u64) -> f32
    ensures { result ≡ lower x }
{
    bits::f32_from_bits((x % 4294967296) as u32)
}

fn high(x: u64) -> f32
    ensures { result ≡ upper x }
{
    bits::f32_from_bits((x / 4294967296) as u32)
}

// What the function of a number gives at x, in bits.
#[tactic(auto, unfolding(crate::specs::Record::result_of))]
fn result(kind: u64, x: u64) -> u64
    ensures { result ≡ result_of kind x }
{
    match kind {
        1 => bits::f32_to_bits(bits::next_up(low(x))) as u64,
        2 => bits::f32_to_bits(bits::narrow(bits::f64_from_bits(x))) as u64,
        3 => bits::f32_to_bits(bits::root::sqrt_f32(low(x))) as u64,
        4 => bits::f64_to_bits(bits::root::sqrt_f64(bits::f64_from_bits(x))),
        5 => bits::is_finite(low(x)) as u64,
        6 => bits::f64_to_bits(bits::widen(low(x))),
        7 => (bits::key(low(x)) < bits::key(high(x))) as u64,
        _ => 0,
    }
}

// The number of the record's function, if the record is whole and right, and 0 if it is not: the place at which it is counted.
#[tactic(auto, unfolding(crate::specs::Record::judged))]
fn judge(s: &[u8]) -> u64
    ensures { (result ≡ judged s.now) × (result < 8) }
{
    if s.len() != 24 {
        return 0;
    }
    let kind = word(s, 0);
    if 8 <= kind {
        return 0;
    }
    if result(kind, word(s, 8)) != word(s, 16) {
        return 0;
    }
    kind
}

// Reads one record and counts it. Answers whether there was one.
fn read_one(list: &mut impl Read, counts: &mut [u64; 8]) -> io::Result<bool> {
    let mut record = [0u8; 24];
    let n = input::read_full(list, &mut record)?;
    if n == 0 {
        return Ok(false);
    }
    let k = judge(&record[..n]) as usize;
    counts[k] = counts[k].wrapping_add(1);
    Ok(true)
}

// A proved loop has to end, and nothing says that the input does: the turns count up to a number that no run reaches.
fn read_all(list: &mut impl Read, counts: &mut [u64; 8]) -> io::Result<()> {
    for _ in 0..u64::MAX {
        if !read_one(list, counts)? {
            break;
        }
    }
    Ok(())
}

fn main(rt: HostRuntime) -> io::Result<()> {
    let mut counts = [0u64; 8];
    read_all(&mut rt.reader(), &mut counts)?;
    for (name, count) in FUNCTIONS.iter().zip(&counts[1..]) {
        println!(rt; "{name} {count}")?;
    }
    println!(rt; "differ {}", counts[0])
}
