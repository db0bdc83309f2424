// The matching program's function run on inputs that are refused, on single pairs at the edges of the numbers, on the longest input and on one byte more: what is written is compared with the file `stdout`.
#![tactic(auto)]

use std::io;
use trial::Sequence;

// Writes what the program would write.
fn show(rt: &impl Print, bytes: &[u8]) -> io::Result<()> {
    let mut out = [0u8; scan::OUT];
    let k = scan::answer(bytes, &mut out);
    rt.write_all(&out[..k])
}

// The same for the first n bytes.
fn show_front(rt: &impl Print, bytes: &[u8], n: usize) -> io::Result<()> {
    if let Some(front) = bytes.get(..n) {
        show(rt, front)?;
    }
    Ok(())
}

// Words one after the other, the lowest byte of each first.
fn put_words(bytes: &mut [u8], words: &[u32]) {
    for (place, word) in bytes.chunks_exact_mut(4).zip(words) {
        place.copy_from_slice(&word.to_le_bytes());
    }
}

// A header alone.
fn show_header(
    rt: &impl Print,
    sources: u32,
    source_at: u32,
    targets: u32,
    target_at: u32,
) -> io::Result<()> {
    let mut bytes = [0u8; 16];
    put_words(&mut bytes, &[sources, source_at, targets, target_at]);
    show(rt, &bytes)
}

// One point in each cloud: the two offsets, and how many of 41 bytes are read.
fn show_points(rt: &impl Print, source_at: u32, target_at: u32, read: usize) -> io::Result<()> {
    let mut bytes = [0u8; 41];
    put_words(&mut bytes, &[1, source_at, 1, target_at]);
    show_front(rt, &bytes, read)
}

// One point in each cloud, by the bits of its first coordinate.
fn show_pair(rt: &impl Print, source: u32, target: u32) -> io::Result<()> {
    let mut bytes = [0u8; 40];
    put_words(&mut bytes, &[1, 16, 1, 28, source, 0, 0, target]);
    show(rt, &bytes)
}

// A coordinate of the sequence: a sign, one of 16 exponents and all digits of a fraction; one in 512 is a NaN, and one in 512 an infinity.
fn coordinate(s: u32) -> u32 {
    match s / 65536 % 512 {
        0 => 0x7fc0_0000,
        1 => 0xff80_0000,
        _ => s % 8388608 + (120 + s / 8388608 % 16) * 8388608 + s / 134217728 % 2 * 2147483648,
    }
}

// Numbers behind the header, as far as there is room.
fn put_numbers(bytes: &mut [u8], seed: u32) {
    for (place, s) in bytes
        .chunks_exact_mut(4)
        .skip(4)
        .zip(Sequence::from_seed(seed))
    {
        place.copy_from_slice(&coordinate(s).to_le_bytes());
    }
}

// The longest input, and one byte more.
fn show_longest(rt: &impl Print) -> io::Result<()> {
    let mut bytes = [0u8; scan::IN];
    put_words(&mut bytes, &[1024, 16, 1024, 12304]);
    put_numbers(&mut bytes, 1);
    show_front(rt, &bytes, 24592)?;
    show(rt, &bytes)
}

fn main(rt: HostRuntime) -> io::Result<()> {
    show(&rt, b"")?;
    show(
        &rt,
        b"\xff\xff\xff\xff\xff\xff\xff\xff\xff\xff\xff\xff\xff\xff\xff",
    )?;
    show_header(&rt, 1025, 0, 0, 0)?;
    show_header(&rt, 0, 0, 1025, 0)?;
    show_header(&rt, 4294967295, 16, 1, 28)?;
    show_header(&rt, 1024, 16, 1024, 12304)?;
    show_header(&rt, 0, 0, 1, 0)?;
    show_header(&rt, 1, 0, 0, 0)?;
    show_header(&rt, 0, 16, 0, 16)?;
    show_points(&rt, 17, 28, 40)?;
    show_points(&rt, 16, 29, 40)?;
    show_points(&rt, 16, 28, 39)?;
    show_points(&rt, 16, 28, 41)?;
    show_points(&rt, 16, 28, 40)?;
    show_points(&rt, 28, 16, 40)?;
    show_points(&rt, 16, 28, 16)?;
    show_pair(&rt, 0x7fc0_0000, 0)?;
    show_pair(&rt, 0, 0x7fc0_0000)?;
    show_pair(&rt, 0xff80_0000, 0xff80_0000)?;
    show_pair(&rt, 0x7f7f_ffff, 0)?;
    show_pair(&rt, 0xdf7f_ffff, 0x8000_0000)?;
    show_pair(&rt, 0x1a00_0000, 0)?;
    show_pair(&rt, 0x1a80_0000, 0)?;
    show_longest(&rt)
}
