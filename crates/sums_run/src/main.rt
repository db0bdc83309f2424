// Sums run on small and on long inputs: what is written is compared with the file `stdout`.
#![tactic(auto)]

use std::io;
use sums::{CorrespondenceStats, Vector3d};
use tree::KdTree;
use trial::{Bits, Sequence};

// A match entry from a number of the sequence, for a target of 64 points: one in seven is no match.
fn entry(s: u32) -> u32 {
    if s / 256 % 7 == 0 {
        KdTree::NO_CHILD
    } else {
        s / 65536 % 64
    }
}

fn fill_entries(out: &mut [u32], seed: u32) {
    for (x, s) in out.iter_mut().zip(Sequence::from_seed(seed)) {
        *x = entry(s);
    }
}

fn write_vector(rt: &impl Print, v: Vector3d) -> io::Result<()> {
    println!(rt; " {} {} {}", Bits(v.x), Bits(v.y), Bits(v.z))
}

// The count, the sums as bits, and the MSE.
fn write_sums(rt: &impl Print, s: CorrespondenceStats) -> io::Result<()> {
    println!(rt; " count {}", s.count)?;
    write_vector(rt, s.sum_source)?;
    write_vector(rt, s.sum_target)?;
    write_vector(rt, s.sum_outer_x)?;
    write_vector(rt, s.sum_outer_y)?;
    write_vector(rt, s.sum_outer_z)?;
    println!(rt; " {} {}", Bits(s.sum_sq_error), Bits(s.mse()))
}

fn show(rt: &impl Print, source: &[f32], target: &[f32], matches: &[u32]) -> io::Result<()> {
    match CorrespondenceStats::collect(source, target, matches) {
        Ok(sums) => write_sums(rt, sums),
        Err(refusal) => println!(rt; " refused {}", refusal.number()),
    }
}

// Runs: up to the end of the first, one more, the end of the second, one more.
fn show_runs(rt: &impl Print) -> io::Result<()> {
    let mut source = [0.0; 3075];
    let mut target = [0.0; 192];
    let mut matches = [0; 1025];
    trial::fill(&mut source, 1);
    trial::fill(&mut target, 2);
    fill_entries(&mut matches, 3);
    for n in [0, 1, 2, 3, 511, 512, 513, 1024, 1025] {
        show(rt, &source[..3 * n], &target, &matches[..n])?;
    }
    Ok(())
}

// Each refusal, and the nearest input that is not refused.
fn show_refusals(rt: &impl Print) -> io::Result<()> {
    let three = [1.0, 2.0, 3.0];
    let six = [4.0, 5.0, 6.0, 7.0, 8.0, 9.0];
    let none = KdTree::NO_CHILD;
    show(rt, &three[..2], &six, &[0])?;
    show(rt, &three, &six[..5], &[0])?;
    show(rt, &three, &six, &[0, 0])?;
    show(rt, &three, &six, &[2])?;
    show(rt, &three, &six, &[4294967294])?;
    show(rt, &three, &six, &[1])?;
    show(rt, &three, &six, &[none])?;
    show(rt, &three, &[], &[none])?;
    show(rt, &three, &[], &[0])?;
    show(rt, &[], &[], &[])?;
    show(rt, &[], &six[..4], &[5])
}

// Values that are no numbers are summed as they are; an error whose squares only fit together in one order; a sum that 49 divides
// and 1/49 does not.
fn show_others(rt: &impl Print) -> io::Result<()> {
    let source = [f32::INFINITY, -0.0, 1.0];
    let target = [f32::INFINITY, 2.0, -0.0];
    show(rt, &source, &target, &[0])?;
    let far = [134217728.0, 1.25, 1.25];
    show(rt, &far, &[0.0, 0.0, 0.0], &[0])?;
    let mut sums = CorrespondenceStats::zero();
    sums.count = 49;
    sums.sum_sq_error = 1644167119.0;
    println!(rt; " {}", Bits(sums.mse()))
}

fn main(rt: HostRuntime) -> io::Result<()> {
    write_sums(&rt, CorrespondenceStats::zero())?;
    show_runs(&rt)?;
    show_refusals(&rt)?;
    show_others(&rt)
}
