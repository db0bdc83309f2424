// What the test programs share, and no part of the library: a sequence of numbers, and how lists and floats are written.
#![tactic(auto)]

ghost use Rattle.std.specs.Iterator.{IsFinite};

use std::{fmt, io};

// A sequence without an end, each number from the one before.
#[derive(Clone, Copy, Debug, PartialEq, Eq)]
pub struct Sequence(u32);

impl Sequence {
    pub fn from_seed(seed: u32) -> Sequence {
        Sequence(seed)
    }
}

impl Iterator for Sequence {
    type Item = u32;

    fn next(&mut self) -> Option<u32> {
        self.0 = self.0.wrapping_mul(1664525).wrapping_add(1013904223);
        Some(self.0)
    }
}

// A coordinate from a number of the sequence: a whole number up to 65,535, times one of eight factors of both signs and many sizes.
pub fn coordinate(s: u32) -> f32 {
    let whole = (s / 65536) as u16 as f32;
    match s % 8 {
        0 => whole,
        1 => whole * 0.125,
        2 => whole * -3.0,
        3 => whole * 0.0009765625,
        4 => whole * 1048576.0,
        5 => whole * -0.3333333,
        6 => whole * 0.000000059604645,
        _ => whole * -17179869184.0,
    }
}

pub fn fill(out: &mut [f32], seed: u32) {
    for (x, s) in out.iter_mut().zip(Sequence::from_seed(seed)) {
        *x = coordinate(s);
    }
}

// Written as the bits of a float. Every NaN is one word, since a NaN's bits are not fixed. An impl for each of the two types, since
// std has no trait of both; one of ours would be longer than the second impl.
#[derive(Clone, Copy, Debug)]
pub struct Bits<T>(pub T);

impl fmt::Display for Bits<f32> {
    fn fmt<W: fmt::Write>(&self, f: &mut fmt::Formatter<W>) -> fmt::Result {
        let x = self.0;
        if x.is_nan() {
            return write!(f, "nan");
        }
        let bits = x.to_bits();
        write!(f, "{bits:08x}")
    }
}

impl fmt::Display for Bits<f64> {
    fn fmt<W: fmt::Write>(&self, f: &mut fmt::Formatter<W>) -> fmt::Result {
        let x = self.0;
        if x.is_nan() {
            return write!(f, "nan");
        }
        let bits = x.to_bits();
        write!(f, "{bits:016x}")
    }
}

// Each item with a blank before it.
pub fn write_each<I: Iterator + Drop>(rt: &impl Print, items: I) -> io::Result<()>
where
    I::Item: fmt::Display + Drop,
    requires can { I.can_next items }
    requires ends { IsFinite (I.remaining items) }
{
    for item in items {
        print!(rt; " {item}")?;
    }
    Ok(())
}

pub fn write_floats(rt: &impl Print, floats: &[f32]) -> io::Result<()> {
    write_each(rt, floats.iter().copied().map(Bits))
}
