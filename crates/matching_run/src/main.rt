// The limit, the pair list, a target point and matching, run on small inputs: what is written is compared with the file `stdout`.
#![tactic(auto)]

use std::io;
use tree::KdTree;
use trial::Bits;

const INF: f32 = f32::INFINITY;

const NONE: u32 = KdTree::NO_CHILD;

const TOO_MANY: usize = KdTree::MAX_POINTS + 1;

// Two points, whose slots are their own numbers.
const TWO: [f32; 6] = [1.0, 0.0, 0.0, 2.0, 0.0, 0.0];

// The numbers of a list, on one line.
fn write_list(rt: &impl Print, list: &[u32]) -> io::Result<()> {
    trial::write_each(rt, list.iter().copied())?;
    println!(rt)
}

// No limit, NaN, infinity and one whose square overflows; negative ones; both zeros; 1; one whose square rounds to 0.
fn show_limits(rt: &impl Print) -> io::Result<()> {
    let limits = [
        None,
        Some(f32::NAN),
        Some(INF),
        Some(1.0e20),
        Some(-1.0),
        Some(-INF),
        Some(0.0),
        Some(-0.0),
        Some(1.0),
        Some(8.0e-25),
    ];
    for limit in limits {
        println!(rt; " {}", Bits(matching::max_distance_sq(limit)))?;
    }
    Ok(())
}

// How many numbers a target point has, and the numbers.
fn show_part(rt: &impl Print, cloud: &[f32], index: u32) -> io::Result<()> {
    let part = matching::target_point(cloud, index);
    print!(rt; " {}", part.len())?;
    trial::write_floats(rt, part)?;
    println!(rt)
}

// The first and the last point, an index just outside, no match; a ragged cloud, an empty one.
fn show_parts(rt: &impl Print) -> io::Result<()> {
    let cloud = [1.0, 2.0, 3.0, 4.0, 5.0, 6.0];
    for index in [0, 1, 2, NONE] {
        show_part(rt, &cloud, index)?;
    }
    show_part(rt, &cloud[..5], 0)?;
    show_part(rt, &[], 0)
}

// What the pair list returns, and the two lent lists afterwards.
fn show_pairs(
    rt: &impl Print,
    matches: &[u32],
    sources: &mut [u32],
    targets: &mut [u32],
) -> io::Result<()> {
    match matching::correspondence_pairs(matches, sources, targets) {
        Ok(n) => println!(rt; " pairs {n}")?,
        Err(refusal) => println!(rt; " refused {}", refusal.number())?,
    }
    write_list(rt, sources)?;
    write_list(rt, targets)
}

// Both lists exactly as long as needed, and longer; no entries; no matched entry.
fn show_pair_lists(rt: &impl Print) -> io::Result<()> {
    let matches = [NONE, 5, 0, NONE, 4294967294];
    show_pairs(rt, &matches, &mut [91, 92, 93], &mut [81, 82, 83])?;
    show_pairs(
        rt,
        &matches,
        &mut [91, 92, 93, 94, 95],
        &mut [81, 82, 83, 84],
    )?;
    show_pairs(rt, &[], &mut [91], &mut [81])?;
    show_pairs(rt, &[NONE, NONE], &mut [91], &mut [])
}

// Each list one entry too short.
fn show_short_pair_lists(rt: &impl Print) -> io::Result<()> {
    let matches = [NONE, 5, 0, NONE, 4294967294];
    show_pairs(rt, &matches, &mut [91, 92], &mut [81, 82, 83])?;
    show_pairs(rt, &matches, &mut [91, 92, 93], &mut [81, 82])
}

// As many entries as are allowed, and one more, which is refused before the short lists are.
fn show_long_lists(rt: &impl Print, matches: &[u32; TOO_MANY]) -> io::Result<()> {
    let m = &matches[..];
    if let Some((_, allowed)) = m.split_last() {
        show_pairs(rt, allowed, &mut [91], &mut [81])?;
    }
    show_pairs(rt, m, &mut [91], &mut [81])
}

// Apart from the above, since where the list is made as a slice the checker runs out of stack on its length.
fn show_long_pair_lists(rt: &impl Print) -> io::Result<()> {
    show_long_lists(rt, &[7; TOO_MANY])
}

fn show_matching(
    rt: &impl Print,
    source: &[f32],
    target: &[f32],
    coords: &[f32],
    indices: &[u32],
    limit: Option<f32>,
    matches: &mut [u32],
) -> io::Result<()> {
    match matching::find_correspondences_seeded(source, target, coords, indices, limit, matches) {
        Ok(()) => println!(rt; " done")?,
        Err(refusal) => println!(rt; " refused {}", refusal.number())?,
    }
    write_list(rt, matches)
}

// Document 01's cloud K with its tree.
fn show_on_k(
    rt: &impl Print,
    source: &[f32],
    limit: Option<f32>,
    matches: &mut [u32],
) -> io::Result<()> {
    let k = [1.0, 0.0, 0.0, 0.0, 0.0, 0.0, 2.0, 0.0, 0.0, 0.0, 5.0, 0.0];
    let coords = [0.0, 5.0, 0.0, 0.0, 0.0, 0.0, 1.0, 0.0, 0.0, 2.0, 0.0, 0.0];
    show_matching(rt, source, &k, &coords, &[3, 1, 0, 2], limit, matches)
}

// Example 4, and a limit just below.
fn show_example(rt: &impl Print) -> io::Result<()> {
    let one = [1.0, 1.0, 0.0];
    show_on_k(rt, &one, Some(1.0), &mut [NONE])?;
    show_on_k(rt, &one, Some(0.99999994), &mut [NONE])
}

// Without and with seeds: (0.5,0,0) lies as near to 1 as to 0; (NaN,0,0) matches nothing; a seed that an indexed point is nearer than gives way.
fn show_seeds(rt: &impl Print) -> io::Result<()> {
    let four = [
        1.0,
        1.0,
        0.0,
        0.5,
        0.0,
        0.0,
        f32::NAN,
        0.0,
        0.0,
        0.0,
        4.0,
        0.0,
    ];
    show_on_k(rt, &four, None, &mut [NONE, NONE, NONE, NONE])?;
    show_on_k(rt, &four, None, &mut [2, 1, 3, 2])?;
    show_on_k(rt, &four, Some(0.5), &mut [2, 1, 3, 2])?;
    show_on_k(rt, &four, Some(-1.0), &mut [2, 1, 3, 2])
}

// Limit 0: the same place, one so near that its square is 0, and one that is not.
fn show_limit_zero(rt: &impl Print) -> io::Result<()> {
    let near = [
        2.0,
        0.0,
        0.0,
        2.0,
        0.0000000000000000000000008,
        0.0,
        2.0,
        0.000001,
        0.0,
    ];
    show_on_k(rt, &near, Some(0.0), &mut [NONE, NONE, NONE])
}

// No slots: a seed is kept, and nothing else is found.
fn show_no_slots(rt: &impl Print) -> io::Result<()> {
    let source = [1.0, 1.0, 0.0, 0.5, 0.0, 0.0];
    let target = [1.0, 0.0, 0.0, 0.0, 0.0, 0.0];
    show_matching(rt, &source, &target, &[], &[], None, &mut [NONE, 1])
}

// Two points, matched with themselves: a cloud that is its own tree.
fn show_own(rt: &impl Print, indices: &[u32], matches: &mut [u32]) -> io::Result<()> {
    let c = &TWO[..];
    show_matching(rt, c, c, c, indices, None, matches)
}

// 1: the source, the target, the coordinates.
fn show_ragged(rt: &impl Print) -> io::Result<()> {
    let c = &TWO[..];
    let indices = [0, 1];
    let t = &indices[..];
    show_matching(rt, &c[..5], c, c, t, None, &mut [NONE])?;
    show_matching(rt, c, &c[..4], c, t, None, &mut [NONE, 0])?;
    show_matching(rt, c, c, &c[..5], t, None, &mut [NONE, 0])
}

// 1: the indices, and the match list, too short and too long; beside them a list that is not refused.
fn show_lengths(rt: &impl Print) -> io::Result<()> {
    show_own(rt, &[0, 1], &mut [NONE, 0])?;
    show_own(rt, &[0], &mut [NONE, 0])?;
    show_own(rt, &[0, 1], &mut [NONE])?;
    show_own(rt, &[0, 1], &mut [NONE, 0, NONE])
}

// 4: no source point, no target point.
fn show_empty(rt: &impl Print) -> io::Result<()> {
    let c = &TWO[..];
    show_matching(rt, &[], c, c, &[0, 1], None, &mut [])?;
    show_matching(rt, c, &[], &[], &[], None, &mut [NONE, NONE])
}

// 5: the last seed that is inside and the first that is not, the last that is one; an index of the tree, for which no value stands for none.
fn show_outside(rt: &impl Print) -> io::Result<()> {
    show_own(rt, &[0, 1], &mut [NONE, 1])?;
    show_own(rt, &[0, 1], &mut [NONE, 2])?;
    show_own(rt, &[0, 1], &mut [4294967294, 1])?;
    show_own(rt, &[0, 2], &mut [NONE, NONE])?;
    show_own(rt, &[NONE, 1], &mut [NONE, NONE])
}

// Two at once, the earlier of which is given: 1 before 4 and 5, 4 before 5.
fn show_order(rt: &impl Print) -> io::Result<()> {
    let c = &TWO[..];
    show_matching(rt, &c[..5], &[], &[], &[], None, &mut [7])?;
    show_matching(rt, c, &[], &[], &[], None, &mut [7, 7])
}

// Over a thousand source points on two target points: past 512 too each finds its own, whatever its seed was.
fn show_many(rt: &impl Print) -> io::Result<()> {
    let mut source = [0.0; 3075];
    let mut matches = [0; 1025];
    let target = [0.0, 0.0, 0.0, 10.0, 0.0, 0.0];
    let coords = [0.0, 0.0, 0.0, 10.0, 0.0, 0.0];
    source[1533] = 9.0;
    source[1536] = 9.0;
    source[3072] = 9.0;
    matches[1023] = 1;
    show_matching(rt, &source, &target, &coords, &[0, 1], None, &mut matches)
}

fn show_all_refusals(rt: &impl Print) -> io::Result<()> {
    show_ragged(rt)?;
    show_lengths(rt)?;
    show_empty(rt)?;
    show_outside(rt)?;
    show_order(rt)
}

fn main(rt: HostRuntime) -> io::Result<()> {
    show_limits(&rt)?;
    show_parts(&rt)?;
    show_pair_lists(&rt)?;
    show_short_pair_lists(&rt)?;
    show_long_pair_lists(&rt)?;
    show_example(&rt)?;
    show_seeds(&rt)?;
    show_limit_zero(&rt)?;
    show_no_slots(&rt)?;
    show_all_refusals(&rt)?;
    show_many(&rt)
}
