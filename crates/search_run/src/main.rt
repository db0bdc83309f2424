// Search run on the tree of document 01's cloud K and at the boundaries: what is written is compared with the file `stdout`.
#![tactic(auto)]

use search::Nearest;
use space::Point3f;
use std::io;
use tree::Refusal;
use trial::Bits;

const INF: f32 = f32::INFINITY;

// The slots of K.
const COORDS: [f32; 12] = [0.0, 5.0, 0.0, 0.0, 0.0, 0.0, 1.0, 0.0, 0.0, 2.0, 0.0, 0.0];

const INDICES: [u32; 4] = [3, 1, 0, 2];

fn write(rt: &impl Print, searched: Result<Nearest, Refusal>) -> io::Result<()> {
    match searched {
        Ok(Nearest::Found(i, d)) => println!(rt; " found {i} {}", Bits(d)),
        Ok(Nearest::Nothing) => println!(rt; " nothing"),
        Err(refusal) => println!(rt; " refused {}", refusal.number()),
    }
}

fn point(x: f32, y: f32, z: f32) -> Point3f {
    Point3f { x, y, z }
}

fn show(rt: &impl Print, query: Point3f, bound_sq: f32, seed: Nearest) -> io::Result<()> {
    write(
        rt,
        search::find_nearest_bounded(&COORDS, &INDICES, query, bound_sq, seed),
    )
}

fn show_unbounded(rt: &impl Print, query: Point3f) -> io::Result<()> {
    write(rt, search::find_nearest(&COORDS, &INDICES, query))
}

// Examples 2, 3, 5, 6 and 7.
fn show_examples(rt: &impl Print) -> io::Result<()> {
    show(rt, point(1.0, 1.0, 0.0), INF, Nearest::Nothing)?;
    show(rt, point(1.0, 1.0, 0.0), 1.0, Nearest::Nothing)?;
    show_unbounded(rt, point(0.5, 0.0, 0.0))?;
    show(rt, point(0.5, 0.0, 0.0), INF, Nearest::Found(1, 0.25))?;
    show_unbounded(rt, point(f32::NAN, 0.0, 0.0))
}

// A NaN on another axis, infinities, -0, a number whose square rounds to 0, distances near the largest number and beyond it.
fn show_queries(rt: &impl Print) -> io::Result<()> {
    show_unbounded(rt, point(0.0, 0.0, f32::NAN))?;
    show_unbounded(rt, point(INF, 0.0, 0.0))?;
    show_unbounded(rt, point(0.0, -INF, 0.0))?;
    show_unbounded(rt, point(-0.0, -0.0, -0.0))?;
    show_unbounded(rt, point(1.0e-40, 0.0, 0.0))?;
    show_unbounded(rt, point(1.8e19, 0.0, 0.0))?;
    show_unbounded(rt, point(2.0e19, 0.0, 0.0))
}

// NaN, zeros and negative ones; the smallest number above zero; one that a point is at, and the next one.
fn show_bounds(rt: &impl Print) -> io::Result<()> {
    for bound in [f32::NAN, 0.0, -0.0, -1.0, -INF, bits::f32_from_bits(1)] {
        show(rt, point(0.0, 0.0, 0.0), bound, Nearest::Nothing)?;
    }
    for bound in [4.0, bits::f32_from_bits(1082130433)] {
        show(rt, point(4.0, 0.0, 0.0), bound, Nearest::Nothing)?;
    }
    Ok(())
}

// A seed that is nearer, that is as near, that is farther, at the bound, over it, under none; NaN, negative, under overflowed distances.
fn show_seeds(rt: &impl Print) -> io::Result<()> {
    let near = point(4.0, 0.0, 0.0);
    show(rt, near, INF, Nearest::Found(9, 3.0))?;
    show(rt, near, INF, Nearest::Found(9, 4.0))?;
    show(rt, near, INF, Nearest::Found(9, 5.0))?;
    show(rt, near, 3.0, Nearest::Found(9, 3.0))?;
    show(rt, near, 4.0, Nearest::Found(9, 5.0))?;
    show(rt, near, f32::NAN, Nearest::Found(9, 0.0))?;
    show(rt, near, INF, Nearest::Found(9, f32::NAN))?;
    show(rt, near, INF, Nearest::Found(9, -1.0))?;
    let far = point(2.0e19, 0.0, 0.0);
    show(rt, far, INF, Nearest::Found(9, 7.0))?;
    show(rt, far, INF, Nearest::Found(9, INF))
}

// An empty tree, and lengths that do not fit.
fn show_lengths(rt: &impl Print) -> io::Result<()> {
    let coords = [0.0, 5.0, 0.0, 0.0, 0.0, 0.0];
    let indices = [3, 1];
    let query = point(0.0, 0.0, 0.0);
    let seed = Nearest::Found(9, 7.0);
    write(rt, search::find_nearest(&[], &[], query))?;
    write(rt, search::find_nearest_bounded(&[], &[], query, 8.0, seed))?;
    write(rt, search::find_nearest_bounded(&[], &[], query, 7.0, seed))?;
    write(rt, search::find_nearest(&coords, &indices, query))?;
    write(rt, search::find_nearest(&coords[..5], &indices, query))?;
    write(rt, search::find_nearest(&coords, &indices[..1], query))?;
    write(rt, search::find_nearest(&[], &indices, query))?;
    write(
        rt,
        search::find_nearest_bounded(&coords, &[], query, 8.0, seed),
    )
}

// Slots that are no tree: the nearest stands on the wrong side of the root, behind a plane that is not below the best; and entered, where the root is farther.
fn show_no_tree(rt: &impl Print) -> io::Result<()> {
    let coords = [0.0, 0.0, 0.0, 1.125, 0.0, 0.0, 3.0, 0.0, 0.0];
    let far = [0.0, 1.0, 0.0, 1.125, 0.0, 0.0, 3.0, 0.0, 0.0];
    let indices = [5, 6, 7];
    let query = point(1.0, 0.0, 0.0);
    write(rt, search::find_nearest(&coords, &indices, query))?;
    write(rt, search::find_nearest(&far, &indices, query))
}

fn main(rt: HostRuntime) -> io::Result<()> {
    show_examples(&rt)?;
    show_queries(&rt)?;
    show_bounds(&rt)?;
    show_seeds(&rt)?;
    show_lengths(&rt)?;
    show_no_tree(&rt)
}
