// The build and the checking entry, run: document 01's cloud K, points that are left out, ties and zeros, common orders, lent lists that are too short,
// and damage to one or two slots of a tree. What is written is compared with the file `stdout`.
#![tactic(auto)]

ghost use Rattle.std.specs.Prelude.{◌≤◌, ◌<◌};

use std::io;
use tree::Refusal;
use trial::Sequence;

const INF: f32 = f32::INFINITY;

const NAN: f32 = f32::NAN;

// Document 01's cloud.
const K: [f32; 12] = [1.0, 0.0, 0.0, 0.0, 0.0, 0.0, 2.0, 0.0, 0.0, 0.0, 5.0, 0.0];

fn write_lists(rt: &impl Print, coords: &[f32], indices: &[u32]) -> io::Result<()> {
    trial::write_each(rt, indices.iter().copied())?;
    println!(rt)?;
    trial::write_floats(rt, coords)?;
    println!(rt)
}

fn write_built(rt: &impl Print, built: Result<usize, Refusal>) -> io::Result<()> {
    match built {
        Ok(m) => println!(rt; " built {m}"),
        Err(refusal) => println!(rt; " refused {}", refusal.number()),
    }
}

// Builds, and writes the answer and both lists whole.
fn show(rt: &impl Print, cloud: &[f32], coords: &mut [f32], indices: &mut [u32]) -> io::Result<()> {
    write_built(rt, build::build(cloud, coords, indices))?;
    write_lists(rt, coords, indices)
}

fn check(rt: &impl Print, cloud: &[f32], coords: &[f32], indices: &[u32]) -> io::Result<()> {
    match build::is_tree_of(cloud, coords, indices) {
        Ok(true) => println!(rt; " yes"),
        Ok(false) => println!(rt; " no"),
        Err(refusal) => println!(rt; " refused {}", refusal.number()),
    }
}

// K into one slot more than it needs: what is beyond keeps its values.
fn show_k(rt: &impl Print) -> io::Result<()> {
    let cloud = &K;
    let mut coords = [9.0; 14];
    let mut indices = [7; 5];
    show(rt, cloud, &mut coords, &mut indices)?;
    check(rt, cloud, &coords[..12], &indices[..4])?;
    check(rt, cloud, &coords[..9], &indices[..3])
}

// No point, and no finite one.
fn show_none(rt: &impl Print) -> io::Result<()> {
    let mut coords = [9.0; 6];
    let mut indices = [7; 2];
    write_built(rt, build::build(&[], &mut coords, &mut indices))?;
    check(rt, &[], &[], &[])?;
    check(rt, &[], &coords[..3], &indices[..1])?;
    let bare = [NAN, 0.0, 0.0, 1.0, 2.0, INF];
    show(rt, &bare, &mut coords, &mut indices)?;
    check(rt, &bare, &[], &[])?;
    check(rt, &bare, &coords[..3], &indices[..1])
}

// Rows with a NaN or an infinity are left out; -0 stands before +0; equal points stand by index.
fn show_left_out(rt: &impl Print) -> io::Result<()> {
    let cloud = [
        0.0, 1.0, 1.0, NAN, 0.0, 0.0, -0.0, 1.0, 1.0, 0.0, -INF, 0.0, -0.0, 1.0, 1.0, 0.0, 0.0,
        INF, 0.0, 1.0, 1.0,
    ];
    let mut coords = [9.0; 21];
    let mut indices = [7; 7];
    show(rt, &cloud, &mut coords, &mut indices)?;
    check(rt, &cloud, &coords[..12], &indices[..4])?;
    check(rt, &cloud, &coords, &indices)
}

// K's first n numbers into c numbers and m indices: what is written whole shows that a refusal writes nothing.
fn try_build(rt: &impl Print, n: usize, c: usize, m: usize) -> io::Result<()>
    requires cloud { n ≤ 12 }
    requires coords { c ≤ 13 }
    requires indices { m ≤ 5 }
{
    let mut coords = [9.0; 13];
    let mut indices = [7; 5];
    write_built(
        rt,
        build::build(&K[..n], &mut coords[..c], &mut indices[..m]),
    )?;
    write_lists(rt, &coords, &indices)
}

// The first c numbers and m indices of K's tree beside K's first n numbers.
fn try_check(rt: &impl Print, n: usize, c: usize, m: usize) -> io::Result<()>
    requires cloud { n ≤ 12 }
    requires coords { c ≤ 15 }
    requires indices { m ≤ 5 }
{
    let mut coords = [9.0; 15];
    let mut indices = [7; 5];
    write_built(rt, build::build(&K, &mut coords, &mut indices))?;
    check(rt, &K[..n], &coords[..c], &indices[..m])
}

// Each refusal at its boundary: one short, exact, one over, and the order of the tests.
fn show_refused(rt: &impl Print) -> io::Result<()> {
    try_build(rt, 11, 13, 5)?;
    try_build(rt, 10, 13, 5)?;
    try_build(rt, 12, 11, 5)?;
    try_build(rt, 12, 13, 3)?;
    try_build(rt, 11, 2, 1)?;
    try_build(rt, 12, 12, 4)?;
    try_build(rt, 12, 13, 5)?;
    try_check(rt, 11, 12, 4)?;
    try_check(rt, 10, 12, 4)?;
    try_check(rt, 12, 11, 4)?;
    try_check(rt, 12, 13, 4)?;
    try_check(rt, 12, 12, 3)?;
    try_check(rt, 12, 12, 5)?;
    try_check(rt, 12, 15, 5)?;
    try_check(rt, 12, 12, 4)
}

// How 1,000 points lie.
#[derive(Clone, Copy, Debug, PartialEq, Eq)]
enum Order {
    Drawn,
    Rising,
    Falling,
    Equal,
    RisingThenFalling,
    Grid,
}

impl Order {
    // Coordinate number i, with a number of the sequence.
    fn coordinate(self, i: usize, s: u32) -> f32 {
        let p = (i / 3 % 1000) as u16;
        match self {
            Order::Drawn => trial::coordinate(s),
            Order::Rising => p as f32,
            Order::Falling => (1000 - p) as f32,
            Order::Equal => 1.0,
            Order::RisingThenFalling => p.min(1000 - p) as f32,
            Order::Grid => match i % 3 {
                0 => (p % 40) as f32,
                1 => (p / 40) as f32,
                _ => (p % 40 + p / 40) as f32 * 0.125,
            },
        }
    }
}

// The indices as one number.
fn digest(indices: &[u32]) -> u64 {
    indices.iter().fold(0, |d: u64, &i| {
        d.wrapping_mul(31).wrapping_add(u64::from(i)) % 4294967291
    })
}

fn show_order(rt: &impl Print, order: Order) -> io::Result<()> {
    let mut cloud = [0.0; 3000];
    for (i, (x, s)) in cloud.iter_mut().zip(Sequence::from_seed(7)).enumerate() {
        *x = order.coordinate(i, s);
    }
    let mut coords = [0.0; 3000];
    let mut indices = [0; 1000];
    write_built(rt, build::build(&cloud, &mut coords, &mut indices))?;
    print!(rt; " {}", digest(&indices))?;
    check(rt, &cloud, &coords, &indices)
}

// A tree of seven slots.
#[derive(Clone, Copy, Debug)]
struct Tree {
    coords: [f32; 21],
    indices: [u32; 7],
}

impl Tree {
    fn with_swapped(mut self, i: usize, j: usize) -> Tree
        requires first { i < 7 }
        requires second { j < 7 }
    {
        for axis in 0..3 {
            self.coords.swap(3 * i + axis, 3 * j + axis);
        }
        self.indices.swap(i, j);
        self
    }

    fn with_other_index(mut self, i: usize) -> Tree
        requires { i < 7 }
    {
        self.indices[i] = self.indices[i].checked_sub(1).unwrap_or(1);
        self
    }

    // The zeros among them.
    fn with_other_sign(mut self, i: usize) -> Tree
        requires { i < 21 }
    {
        self.coords[i] = -self.coords[i];
        self
    }

    fn is_no_tree_of(&self, cloud: &[f32]) -> bool {
        build::is_tree_of(cloud, &self.coords, &self.indices) == Ok(false)
    }
}

// How many changes it refuses: each slot in the place of each later one, each index, each sign.
fn show_damages(rt: &impl Print, cloud: &[f32], tree: Tree) -> io::Result<()> {
    for i in 0..7 {
        let swaps = (i + 1..7).filter(|&j| tree.with_swapped(i, j).is_no_tree_of(cloud));
        print!(rt; " {}", swaps.count())?;
    }
    let indices = (0..7).filter(|&i| tree.with_other_index(i).is_no_tree_of(cloud));
    let signs = (0..21).filter(|&i| tree.with_other_sign(i).is_no_tree_of(cloud));
    print!(rt; " {} {}", indices.count(), signs.count())
}

// A tree of seven slots, damaged in every way of three kinds.
fn show_damaged(rt: &impl Print) -> io::Result<()> {
    let cloud = [
        0.0, 2.0, 0.0, 1.0, 0.0, 3.0, -0.0, 0.0, 0.0, 2.0, 2.0, 2.0, 0.0, 2.0, 0.0, 5.0, -1.0, 0.0,
        1.0, 0.0, 4.0,
    ];
    let mut coords = [9.0; 21];
    let mut indices = [7; 7];
    show(rt, &cloud, &mut coords, &mut indices)?;
    show_damages(rt, &cloud, Tree { coords, indices })?;
    check(rt, &cloud, &coords, &indices)
}

fn main(rt: HostRuntime) -> io::Result<()> {
    show_k(&rt)?;
    show_none(&rt)?;
    show_left_out(&rt)?;
    show_refused(&rt)?;
    let orders = [
        Order::Drawn,
        Order::Rising,
        Order::Falling,
        Order::Equal,
        Order::RisingThenFalling,
        Order::Grid,
    ];
    for order in orders {
        show_order(&rt, order)?;
    }
    show_damaged(&rt)
}
