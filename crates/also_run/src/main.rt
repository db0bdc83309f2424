// The further cases of 01 ("Also run"), and what its list of easy errors says must come out, through the public entries:
// what is written is compared with the file `stdout`.
#![tactic(auto)]

use search::Nearest;
use space::Point3f;
use std::io;
use sums::CorrespondenceStats;
use tree::{KdTree, Refusal};
use trial::Bits;

// Cloud K, and its slots.
const K: [f32; 12] = [1.0, 0.0, 0.0, 0.0, 0.0, 0.0, 2.0, 0.0, 0.0, 0.0, 5.0, 0.0];

const COORDS: [f32; 12] = [0.0, 5.0, 0.0, 0.0, 0.0, 0.0, 1.0, 0.0, 0.0, 2.0, 0.0, 0.0];

const INDICES: [u32; 4] = [3, 1, 0, 2];

// ---- radius and k nearest, on the tree of cloud K

// What was told, and both lists whole, with what stood in them beyond the entries.
fn write_listed(
    rt: &impl Print,
    listed: Result<u32, Refusal>,
    indices: &[u32],
    distances: &[f32],
) -> io::Result<()> {
    match listed {
        Ok(n) => print!(rt; " {n} :")?,
        Err(refusal) => print!(rt; " refused {} :", refusal.number())?,
    }
    trial::write_each(rt, indices.iter().copied())?;
    print!(rt; " :")?;
    trial::write_floats(rt, distances)?;
    println!(rt)
}

fn show_radius(rt: &impl Print, query: Point3f, radius: f32) -> io::Result<()> {
    let mut out = [9; 4];
    let mut distances = [0.0; 4];
    let listed = radius::find_radius_neighbors(
        &COORDS,
        &INDICES,
        query,
        radius,
        &mut out,
        &mut distances,
    );
    print!(rt; " radius {} gives", Bits(radius))?;
    write_listed(rt, listed, &out, &distances)
}

// Ties in near-first order, neither by index nor by root.
fn show_k(rt: &impl Print, query: Point3f) -> io::Result<()> {
    let mut out = [9; 4];
    let mut distances = [0.0; 4];
    let listed = lists::find_k_nearest_into(&COORDS, &INDICES, query, 4, &mut out, &mut distances);
    print!(rt; " k 4 gives")?;
    write_listed(rt, listed, &out, &distances)
}

// ---- roots and limits

fn show_root(rt: &impl Print, x: f32) -> io::Result<()> {
    println!(rt; " root of {} is {}", Bits(x), Bits(bits::root::sqrt_f32(x)))
}

// A source point matched with K, and the bound of its limit.
fn show_limit(rt: &impl Print, x: f32, y: f32, d: f32) -> io::Result<()> {
    let limit = Some(d);
    let mut matches = [KdTree::NO_CHILD];
    let matched = matching::find_correspondences_seeded(
        &[x, y, 0.0],
        &K,
        &COORDS,
        &INDICES,
        limit,
        &mut matches,
    );
    print!(rt;
        " limit {} bound {}",
        Bits(d),
        Bits(matching::max_distance_sq(limit))
    )?;
    match matched {
        Ok(()) => println!(rt; " match {}", matches[0]),
        Err(refusal) => println!(rt; " {} {}", refusal.number(), matches[0]),
    }
}

// ---- pruning: the query lies 0.5 left of the root's plane, the bound is 0.3, and the only point within it is on the right

fn show_plane(rt: &impl Print) -> io::Result<()> {
    let cloud = [0.0, 5.0, 0.0, -9.0, 0.0, 0.0, 0.0, 0.0, 0.0];
    let mut coords = [0.0; 9];
    let mut indices = [9; 3];
    match build::build(&cloud, &mut coords, &mut indices) {
        Ok(n) => print!(rt; " built {n}")?,
        Err(refusal) => print!(rt; " built {}", refusal.number())?,
    }
    trial::write_each(rt, indices.iter().copied())?;
    println!(rt)?;
    let query = Point3f {
        x: -0.5,
        y: 0.0,
        z: 0.0,
    };
    print!(rt; " a 0.5 best 0.3")?;
    match search::find_nearest_bounded(&coords, &indices, query, 0.3, Nearest::Nothing) {
        Ok(Nearest::Found(i, d)) => println!(rt; " found {i} {}", Bits(d)),
        Ok(Nearest::Nothing) => println!(rt; " nothing"),
        Err(refusal) => println!(rt; " refused {}", refusal.number()),
    }
}

// ---- sums: 2^53 first and 1 twice at the end, with unmatched points between; 512 points make a run

fn write_sum(rt: &impl Print, collected: Result<CorrespondenceStats, Refusal>) -> io::Result<()> {
    match collected {
        Ok(sums) => println!(rt; " {} {}", sums.count, Bits(sums.sum_source.x)),
        Err(refusal) => println!(rt; " refused {}", refusal.number()),
    }
}

fn show_runs(rt: &impl Print) -> io::Result<()> {
    let target = [0.0; 3];
    let mut source = [0.0; 1542];
    let mut matches = [KdTree::NO_CHILD; 514];
    source[0] = 9007199254740992.0;
    source[1533] = 1.0;
    source[1536] = 1.0;
    matches[0] = 0;
    matches[511] = 0;
    matches[512] = 0;
    print!(rt; " one in the first run")?;
    write_sum(rt, CorrespondenceStats::collect(&source, &target, &matches))?;
    source[1533] = 0.0;
    source[1539] = 1.0;
    matches[511] = KdTree::NO_CHILD;
    matches[513] = 0;
    print!(rt; " both in the second")?;
    write_sum(rt, CorrespondenceStats::collect(&source, &target, &matches))
}

// 1644167119 / 49 is a half-way point of f32 and goes up to 2^25; the product with 1/49 lies below it.
fn show_mse(rt: &impl Print) -> io::Result<()> {
    let mut sums = CorrespondenceStats::zero();
    sums.count = 49;
    sums.sum_sq_error = 1644167119.0;
    println!(rt; " mse {}", Bits(sums.mse()))
}

fn main(rt: HostRuntime) -> io::Result<()> {
    let query = Point3f {
        x: 1.0,
        y: 1.0,
        z: 0.0,
    };
    show_radius(&rt, query, 1.0)?;
    show_radius(&rt, query, 0.0)?;
    show_root(&rt, 2.25)?;
    show_root(&rt, bits::f32_from_bits(2))?;
    show_limit(&rt, 1.0, 1.0, -1.0)?;
    show_limit(&rt, 1.0, 1.0, f32::NAN)?;
    show_limit(&rt, 1.0, bits::f32_from_bits(0x1780_0000), 0.0)?;
    show_limit(&rt, 1.0, 1.0, 1.0)?;
    show_limit(&rt, 1.0, 0.1, 0.1)?;
    show_k(&rt, query)?;
    show_plane(&rt)?;
    show_runs(&rt)?;
    show_mse(&rt)
}
