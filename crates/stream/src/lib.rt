// A list that is read a word at a time, and what is counted of it.
#![tactic(auto)]

ghost use Rattle.std.specs.Prelude.{◌≤◌};

use space::Point3f;
use std::io::Read;
use sums::Vector3d;

// Points of a cloud, at most, and their numbers.
pub const POINTS: usize = 1025;

pub const NUMBERS: usize = 3 * POINTS;

// Where the Rust fixes no index, the list has this one.
const ANY: u32 = 4294967294;

// What is counted: cases, calls of each entry, the values and the indices that were compared, and differences.
#[derive(Clone, Copy, Debug, PartialEq, Eq)]
pub enum Kind {
    Cases,
    Build,
    IsTree,
    Nearest,
    Bounded,
    Squares,
    Roots,
    Radius,
    Limit,
    Matching,
    Pairs,
    Sums,
    Mse,
    Scale,
    Centred,
    Frame,
    Local,
    Values,
    Indices,
    Differ,
}

pub const KINDS: usize = 20;

// What the list is read from, and the counts so far.
#[derive(Drop)]
pub struct Answers<R> {
    list: R,
    counts: [u64; KINDS],
}

impl<R: Read> Answers<R> {
    pub fn new(list: R) -> Answers<R> {
        Answers {
            list,
            counts: [0; KINDS],
        }
    }

    pub fn count(&self, kind: Kind) -> u64 {
        self.counts[kind as usize]
    }

    pub fn tally(&mut self, kind: Kind) {
        let count = &mut self.counts[kind as usize];
        *count = count.wrapping_add(1);
    }

    // One more of a kind, and a difference if it is not the same.
    pub fn judge(&mut self, kind: Kind, same: bool) {
        self.tally(kind);
        if !same {
            self.tally(Kind::Differ);
        }
    }

    // The next word; where the list has ended or cannot be read, 0 and a difference.
    pub fn word(&mut self) -> u32 {
        let mut bytes = [0u8; 4];
        let n = input::read_full(&mut self.list, &mut bytes).unwrap_or(0);
        if n != 4 {
            self.tally(Kind::Differ);
        }
        u32::from_le_bytes(bytes)
    }

    // What is left of the list is a difference, and so is an end that cannot be read.
    pub fn end(&mut self) {
        let mut bytes = [0u8; 4];
        match input::read_full(&mut self.list, &mut bytes) {
            Ok(0) => {}
            _ => self.tally(Kind::Differ),
        }
    }

    pub fn float(&mut self) -> f32 {
        bits::f32_from_bits(self.word())
    }

    pub fn point(&mut self) -> Point3f {
        let x = self.float();
        let y = self.float();
        let z = self.float();
        Point3f { x, y, z }
    }

    // A number of things that follow; one over the most is a difference and stands for none.
    pub fn up_to(&mut self, most: usize) -> usize
        ensures { result ≤ most }
    {
        let n = self.word() as usize;
        if n <= most {
            return n;
        }
        self.tally(Kind::Differ);
        0
    }

    pub fn read_floats(&mut self, out: &mut [f32]) {
        for x in out.iter_mut() {
            *x = self.float();
        }
    }

    pub fn read_words(&mut self, out: &mut [u32]) {
        for word in out.iter_mut() {
            *word = self.word();
        }
    }

    pub fn same_word(&mut self, have: u32) {
        let want = self.word();
        self.judge(Kind::Values, have == want);
    }

    // Bits compared, every NaN one pattern.
    pub fn same_float(&mut self, have: f32) {
        let want = bits::f32_to_bits(self.float());
        self.judge(Kind::Values, bits::f32_to_bits(have) == want);
    }

    fn double(&mut self) -> f64 {
        let low = self.word() as u64;
        let high = self.word() as u64;
        bits::f64_from_bits(low + 4294967296 * high)
    }

    pub fn same_double(&mut self, have: f64) {
        let want = bits::f64_to_bits(self.double());
        self.judge(Kind::Values, bits::f64_to_bits(have) == want);
    }

    pub fn same_index(&mut self, have: u32) {
        let want = self.word();
        if want != ANY {
            self.judge(Kind::Indices, have == want);
        }
    }

    pub fn same_point(&mut self, p: Point3f) {
        self.same_float(p.x);
        self.same_float(p.y);
        self.same_float(p.z);
    }

    pub fn same_vector(&mut self, v: Vector3d) {
        self.same_double(v.x);
        self.same_double(v.y);
        self.same_double(v.z);
    }

    pub fn same_indices(&mut self, indices: &[u32]) {
        for &i in indices {
            self.same_index(i);
        }
    }
}
